//! Terms, atoms and a whole file in print.

mod files;
mod reports;
mod terms;
