//! The tests, by module.
mod grammar;
mod hostile;
mod places;
mod rows;
mod showing;
mod usual;
