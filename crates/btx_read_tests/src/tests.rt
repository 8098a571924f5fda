//! Worked rows: short databases, and their records.
mod rows;
