//! The tests, by module.
mod calls;
mod hostile;
mod long_style;
mod places;
mod showing;
