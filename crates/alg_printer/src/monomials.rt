//! The text of a monomial over a goal's atoms.

ghost use Rattle.std.specs.Prelude.{◌≡◌, ◌<◌, ◌++◌, [], length, All, unwrap_or, OnOk};
ghost use Rattle.alg_printer.specs.Monomials.{atom_text, exponent_text, factors_text, mono_text, atom_at, IsAtomOf, IsOverAtoms};

use crate::NoMemory;
use crate::names::put_under;
use crate::text::Text;
use alg_mono::Mono;
use alg_reify::Atoms;
use alg_terms::{Atom, File};

/// An atom: its path over its variable.
pub(crate) fn put_atom(text: &mut Text, file: &File, atom: &Atom) -> Result<(), NoMemory>
    requires { IsAtomOf file.now atom.now }
    ensures { OnOk result (text.new ≡ text.old ++ atom_text file.now atom.now) }
{
    let declared = &file.vars.items()[atom.var as usize];
    put_under(
        text,
        file,
        atom.path.items(),
        declared.name.text().as_bytes(),
    )
}

/// An exponent above 1.
pub(crate) fn put_exponent(text: &mut Text, exponent: u32) -> Result<(), NoMemory>
    ensures { OnOk result (text.new ≡ text.old ++ exponent_text exponent) }
{
    if exponent <= 1 {
        return Ok(());
    }
    text.put(b"^")?;
    text.natural(exponent)
}

/// The atom of a number.
fn atom_of(atoms: &Option<Atoms>, number: u32) -> &Atom
    requires { number < length (unwrap_or atoms.now []) }
    ensures { result.now ≡ atom_at (unwrap_or atoms.now []) number }
{
    match atoms {
        Some(atoms) => atoms.get(number).unwrap(),
        None => unreachable!(),
    }
}

/// A monomial: 1, or its factors with `*` between.
pub(crate) fn put_monomial(
    text: &mut Text,
    file: &File,
    atoms: &Option<Atoms>,
    mono: &Mono,
) -> Result<(), NoMemory>
    requires known { All (IsAtomOf file.now) (unwrap_or atoms.now []) }
    requires over { IsOverAtoms (unwrap_or atoms.now []) mono.now }
    ensures { OnOk result (text.new
        ≡ text.old ++ mono_text file.now (unwrap_or atoms.now []) mono.now) }
{
    if mono.pairs().is_empty() {
        return text.put(b"1");
    }
    put_factors(text, file, atoms, mono.pairs())
}

/// Factors with `*` between.
pub(crate) fn put_factors(
    text: &mut Text,
    file: &File,
    atoms: &Option<Atoms>,
    pairs: &[(u32, u32)],
) -> Result<(), NoMemory>
    requires known { All (IsAtomOf file.now) (unwrap_or atoms.now []) }
    requires over { IsOverAtoms (unwrap_or atoms.now []) pairs.now }
    ensures { OnOk result (text.new
        ≡ text.old ++ factors_text file.now (unwrap_or atoms.now []) pairs.now) }
{
    let mut front: &[u8] = b"";
    for (atom, exponent) in pairs {
        text.put(front)?;
        put_atom(text, file, atom_of(atoms, *atom))?;
        put_exponent(text, *exponent)?;
        front = b"*";
    }
    Ok(())
}
