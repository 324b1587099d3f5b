//! The pairs of lines that a search has still to take, the least first, and an index of the leads of
//! lines.
//!
//! The order of the pairs is defined in `specs/Order.antt`, the least line whose lead divides a
//! monomial in `specs/Leads.antt`.
#![tactic(auto)]

mod bucket;
mod index;
mod lead;
mod pair;
mod pairs;

pub use alg_mono::{Mono, NoMemory};
pub use index::LeadIndex;
pub use lead::Lead;
pub use pair::Pair;
pub use pairs::Pairs;

#[cfg(test)]
mod tests;
