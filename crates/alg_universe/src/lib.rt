//! Families of structures, their laws, and what it means that a goal is right.
//!
//! Nothing here runs: `Universe` has no calls, and its implementations have no values that matter.
//! A contract that says `IsRight U.Universe ..` (`specs/Right.antt`) speaks of every family whose
//! laws (`specs/Laws.antt`) are proved; `laws` says which files the families here fit.
#![tactic(auto)]

mod ints;
pub mod laws;
mod one_point;
mod rats;
mod two;
mod universe;

pub use ints::Ints;
pub use one_point::OnePoint;
pub use rats::Rats;
pub use two::Two;
pub use universe::Universe;

#[cfg(test)]
mod tests;
