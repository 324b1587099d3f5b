//! Monomials over numbered atoms, in grevlex order.
#![tactic(auto)]

mod division;
mod ends;
mod form;
mod from_pairs;
pub mod laws;
mod mono;
mod order;
mod search;
pub mod terms;
mod times;

pub use ends::{MonoEnd, Overrun};
pub use form::PolynomialForm;
pub use mono::Mono;
pub use std::alloc::AllocError as NoMemory;

#[cfg(test)]
mod tests;
