//! Lines, certificates, answers and reports as data, and one combination of two polynomials.
//!
//! What a line and a step of a certificate mean is defined in `specs/Lines.antt`, and when a
//! certificate is good, or where its first breach is, in `specs/Accepting.antt`.
#![tactic(auto)]

mod answer;
mod cert;
mod combination;
#[cfg(test)]
mod constant_tests;
mod constants;

pub use alg_mono::NoMemory;
pub use answer::{Answer, GoalCheck};
pub use cert::{Cert, GoalStep, Line};
pub use combination::combine;
pub use constants::constants_of;
