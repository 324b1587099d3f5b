//! A file with answers to its goals.

use alg_lines::Answer;
use alg_terms::{File, Seq};

/// A file with an answer or none to each of its goals.
#[derive(Debug, Drop)]
pub struct Annotated {
    pub file: File,
    pub answers: Seq<Option<Answer>>,
}
