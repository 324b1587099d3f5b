//! Files with answers to their goals.
//!
//! [`read_annotated`] gives the annotated file that a text is, or its first fault. The words of its
//! contract are in `specs/Reading.antt`, over the grammar of alg_reader and the files of alg_typing;
//! the faults of answers, lines and steps are in `specs/Names.antt` and `specs/Rules.antt`.
#![tactic(auto)]

mod annotated;
mod answers;
mod atoms;
mod certificates;
pub mod laws;
mod monomials;
mod names;
mod open_answer;
mod progress;
mod reading;
mod rules;
mod scope;

pub use alg_reader::FileEnd;
pub use annotated::Annotated;
pub use reading::read_annotated;
