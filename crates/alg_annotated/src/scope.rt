//! A text with the file that the statements before a place in it are.

use alg_typing::Declared;

/// A text with the file that the statements before a place in it are.
#[derive(Clone, Copy)]
pub(crate) struct Scope<'a> {
    pub(crate) declared: &'a Declared,
    pub(crate) text: &'a str,
}
