//! The canonical text of a file with its answers.
//!
//! [`file_text`] gives the bytes that `specs/Text.antt` defines, one definition for each part of a
//! file: a text is a concatenation of the texts of its parts. When answers can be printed is
//! defined in `specs/Printable.antt`. [`report_text`] gives the text of the reports on a file's goals,
//! which `specs/Reports.antt` defines.
#![tactic(auto)]

mod answers;
mod certificates;
mod file;
mod monomials;
mod names;
mod reports;
mod statements;
mod terms;
#[cfg(test)]
mod tests;
mod text;

pub use alg_terms::NoMemory;
pub use file::file_text;
pub use reports::report_text;
