//! A text with the names that are declared before a place in it.

ghost use Rattle.std.specs.Prelude.{◌≡◌};
ghost use Rattle.alg_reader.specs.WellRead.{IsNameAt, bytes_at};
ghost use Rattle.alg_typing.specs.Names.{declared_as};
ghost use Rattle.alg_typing.specs.Resolved.{number_at};

use crate::names::name_in;
use crate::{Declaration, Declared};
use alg_reader::Span;

/// A text with the names that are declared before a place in it.
#[derive(Clone, Copy)]
pub(crate) struct Scope<'a> {
    pub(crate) declared: &'a Declared,
    pub(crate) text: &'a str,
}

impl Scope<'_> {
    /// What a name of the text is declared as.
    pub(crate) fn declared_as(&self, name: Span) -> Option<Declaration>
        requires { IsNameAt self.now.text.now name }
        ensures { result ≡ declared_as self.now.declared.now (bytes_at self.now.text.now name) }
    {
        self.declared.declared_as(name_in(self.text, name))
    }

    /// The number of what a name of the text is declared as.
    pub(crate) fn number_at(&self, name: Span) -> u32
        requires { IsNameAt self.now.text.now name }
        ensures { result ≡ number_at self.now.declared.now self.now.text.now name }
    {
        match self.declared_as(name) {
            Some(declaration) => declaration.number(),
            None => 0,
        }
    }
}
