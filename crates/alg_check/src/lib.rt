//! The checker: whether the answers to goals are theirs, without any code that finds answers.
//!
//! [`check_goal`] gives the report on the answer to a goal, as `specs/Reports.antt` defines it. When a
//! certificate is good, or where its first breach is, is defined in alg_lines's
//! `specs/Accepting.antt`, and [`check_cert`] tells it.
#![tactic(auto)]

mod bounds;
mod certificate;
mod combined;
mod comparing;
mod factor_lists;
mod field;
mod fractions;
mod given;
mod goal;
#[cfg(test)]
mod goal_tests;
pub mod laws;
mod numbers;
mod preparing;
mod product;
mod ring;
#[cfg(test)]
mod small_file;
#[cfg(test)]
mod tests;
mod worse;

pub use alg_lines::{Answer, Cert, GoalCheck, GoalStep, Line, NoMemory};
pub use alg_poly::{Overrun, Poly};
pub use certificate::{CertAnswer, check_cert};
pub use goal::check_goal;
