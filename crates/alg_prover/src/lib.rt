//! The answers to all goals of a file, each by its method.
//!
//! [`answers`] gives the answers that `specs/Answers.antt` defines. [`laws`] says that they are
//! determined by the file, and what an answer `proved` and an answer `no` mean.
#![tactic(auto)]

mod answering;
pub mod laws;
#[cfg(test)]
mod tests;

pub use alg_terms::NoMemory;
pub use answering::answers;
