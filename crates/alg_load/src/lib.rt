//! The files by which the program is loaded.
//!
//! [`load_file`] gives the file of a number n: one field, two variables of it and n goals, by ring
//! and by field in turn, as `specs/Loaded.antt` defines it. The file is valid, and [`laws`] ties
//! the greatest n to its definition.
#![tactic(auto)]

mod declarations;
mod file;
mod goals;
pub mod laws;
mod limits;
mod terms;
#[cfg(test)]
mod tests;

pub use alg_terms::NoMemory;
pub use file::load_file;
pub use limits::GREATEST_LOAD;
