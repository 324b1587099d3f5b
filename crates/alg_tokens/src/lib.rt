//! The tokens of a text.
#![tactic(auto)]

mod code;
pub mod laws;
mod next;
mod scan;
mod token;
mod word;

pub use code::Code;
pub use next::next_token;
pub use token::{Refusal, Sign, Token, TokenKind, Word};

#[cfg(test)]
mod tests;
