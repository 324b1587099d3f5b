//! The atoms of the factors of monomials: a variable under morphisms, by their names.

ghost use Rattle.std.specs.Prelude.{◌≡◌, ◌++◌, ◌∷◌, [], position, unwrap_or, All, IfOk, OnOk};
ghost use Rattle.alg_reader.specs.RawMonos.{names_in_factor};
ghost use Rattle.alg_reader.specs.WellRead.{IsNameAt};
ghost use Rattle.alg_reify.specs.Table.{atom_eq};
ghost use Rattle.alg_typing.specs.Faults.{first_of};
ghost use Rattle.alg_annotated.specs.Monomials.{atom_names, atom_of};

use crate::scope::Scope;
use alg_reader::{RawFactor, Span};
use alg_reify::Atoms;
use alg_terms::{Atom, NoMemory, Seq};
use alg_tokens::Refusal;
use alg_typing::earlier;
use std::alloc::Global;

/// The names of an atom: those of its morphisms, the outermost first, and that of its variable.
#[derive(Drop)]
pub(crate) struct AtomNames {
    pub(crate) homs: Vec<Span>,
    pub(crate) var: Span,
}

/// Adds the names of a factor: its own, and those in its parentheses.
fn add_names(names: &mut Vec<Span>, factor: &RawFactor) -> Result<(), NoMemory>
    ensures { OnOk result (names.new.items ≡ names.old.items ++ names_in_factor factor.now) }
{
    names.push(factor.name)?;
    match &factor.of {
        None => Ok(()),
        Some(of) => {
            for inner in of.factors.as_slice() {
                add_names(names, inner)?;
            }
            Ok(())
        }
    }
}

/// The names of the whole atom of a factor.
pub(crate) fn names_of(alloc: Global, factor: &RawFactor) -> Result<AtomNames, NoMemory>
    ensures { IfOk result (λ names. names_in_factor factor.now ≡ names.homs.items ++ names.var ∷ []) }
{
    let mut homs = Vec::new(alloc);
    add_names(&mut homs, factor)?;
    match homs.pop() {
        Some(var) => Ok(AtomNames { homs, var }),
        None => unreachable!(),
    }
}

/// The number of an atom in a table, and None where it is not there.
pub(crate) fn find(atoms: &Option<Atoms>, atom: &Atom) -> Option<u32>
    ensures { result ≡ position (atom_eq atom.now) (unwrap_or atoms.now []) }
{
    match atoms {
        Some(atoms) => atoms.find(atom),
        None => None,
    }
}

impl Scope<'_> {
    /// The first fault of the names of an atom.
    pub(crate) fn atom_names(&self, names: &AtomNames) -> Option<Refusal>
        requires homs { All (IsNameAt self.now.text.now) names.now.homs.items }
        requires var { IsNameAt self.now.text.now names.now.var }
        ensures { result ≡ first_of
            (atom_names self.now.declared.now self.now.text.now (names.now.homs.items ++ names.now.var ∷ [])) }
    {
        let homs = self.declared.path_fault(self.text, names.homs.as_slice());
        let var = self.declared.var_fault(self.text, names.var);
        earlier(homs, var)
    }

    /// The atom of some names.
    pub(crate) fn atom_of(&self, alloc: Global, names: &AtomNames) -> Result<Atom, NoMemory>
        requires homs { All (IsNameAt self.now.text.now) names.now.homs.items }
        requires var { IsNameAt self.now.text.now names.now.var }
        ensures { IfOk result (λ atom. atom
            ≡ atom_of self.now.declared.now self.now.text.now (names.now.homs.items ++ names.now.var ∷ [])) }
    {
        let path = self
            .declared
            .path_of(alloc, self.text, names.homs.as_slice())?;
        let var = self.declared.number_at(self.text, names.var);
        Ok(Atom {
            path: Seq::from_vec(path),
            var,
        })
    }
}
