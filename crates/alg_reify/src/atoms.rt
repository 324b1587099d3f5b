//! The table of a goal's atoms.

ghost use Rattle.std.specs.Prelude.{◌≡◌, ◌≤◌, ◌<◌, ◌↔◌, ◌++◌, [], ◌∷◌, flat_map, length, slice_get, position, Contains, IsNone, IfSome, IfOk, All, Err, OnOk, OnErr, List};
ghost use Rattle.std.specs.Option.{option_copied};
ghost use Rattle.alg_terms.specs.declared.term.Atom.{Atom};
ghost use Rattle.alg_reify.specs.Table.{table, leaves, equation_leaves, use_leaves, atom_eq, MAX_ATOMS};
ghost use Rattle.alg_reify.specs.Adding.{Adds};

use alg_terms::{Atom, Equation, File, Seq, Term, Use};
use indexmap::IndexSet;
use std::alloc::{AllocError, AllocFailed, Global};
use std::marker::Model;

/// How many atoms a goal with its used hypotheses may have.
const MOST_ATOMS: usize = 1000;

/// Why there is no table.
#[derive(Clone, Copy, Debug, PartialEq, Eq)]
pub enum AtomsEnd {
    /// There are more than 1,000 atoms.
    TooMany,
    NoMemory,
}

impl From<AllocError> for AtomsEnd {
    ghost use Rattle.alg_reify.specs.declared.atoms.AtomsEnd.TheVariants.{NoMemory};

    ghost from_gives = { λ _ e. e ≡ NoMemory };

    fn from(_: AllocError) -> Self {
        AtomsEnd::NoMemory
    }
}

impl<T: Drop> From<AllocFailed<T>> for AtomsEnd {
    ghost use Rattle.alg_reify.specs.declared.atoms.AtomsEnd.TheVariants.{NoMemory};

    ghost from_gives = { λ _ e. e ≡ NoMemory };

    fn from(_: AllocFailed<T>) -> Self {
        AtomsEnd::NoMemory
    }
}

/// Distinct atoms, at most 1,000, numbered from 0. Contracts see them as their list.
#[derive(Drop)]
pub struct Atoms {
    set: IndexSet<Atom>,
}

impl Model for Atoms {
    ghost use Rattle.std.specs.Prelude.{List, ◌≤◌, length};
    ghost use Rattle.alg_terms.specs.declared.term.Atom.{Atom};

    ghost Value = { List Atom };

    ghost view = { λ a. a.set.keys };

    ghost invariant = { λ a. length a.set.keys ≤ 1000 };
}

impl Atoms {
    /// How many atoms there are.
    pub fn len(&self) -> usize
        ensures { result ≡ length self.now }
    {
        self.set.len()
    }

    /// The atom of a number.
    pub fn get(&self, k: u32) -> Option<&Atom>
        ensures { option_copied result ≡ slice_get self.now k }
    {
        self.set.get_index(k as usize)
    }

    /// The number of an atom, and None where it is not in the table. One look-up by its hash.
    pub fn find(&self, atom: &Atom) -> Option<u32>
        ensures { result ≡ position (atom_eq atom.now) self.now }
    {
        match self.set.get_index_of(atom) {
            Some(k) => Some(k as u32),
            None => None,
        }
    }
}

/// The table of an equation with its used hypotheses: each atom once, in the order of its first
/// occurrence in the left side, the right side, and both sides of each used hypothesis under its
/// path. TooMany comes exactly where there are more than 1,000. Linear in the nodes of the terms.
pub fn atoms_of(
    alloc: Global,
    file: &File,
    equation: &Equation,
    uses: &[Use],
) -> Result<Atoms, AtomsEnd>
    requires { All (λ u. u.hyp < length file.now.hyps) uses.now }
    ensures ok { IfOk result (λ atoms. atoms ≡ table file.now equation.now uses.now) }
    ensures small { OnOk result (length (table file.now equation.now uses.now) ≤ MAX_ATOMS) }
    ensures too_many { result ≡ Err AtomsEnd.TooMany → MAX_ATOMS < length (table file.now equation.now uses.now) }
{
    let mut set = IndexSet::new(alloc);
    add_equation(alloc, &mut set, Vec::new(alloc), equation)?;
    add_uses(alloc, &mut set, file, uses)?;
    Ok(Atoms { set })
}

/// Adds the atoms of used hypotheses.
fn add_uses(
    alloc: Global,
    set: &mut IndexSet<Atom>,
    file: &File,
    uses: &[Use],
) -> Result<(), AtomsEnd>
    requires hyps { All (λ u. u.hyp < length file.now.hyps) uses.now }
    requires small { length set.old.keys ≤ MAX_ATOMS }
    ensures { Adds set.old.keys result set.new.keys (flat_map (use_leaves file.now) uses.now) }
{
    for used in uses {
        add_use(alloc, set, file, used)?;
    }
    Ok(())
}

/// Adds the atoms of a used hypothesis under its path.
fn add_use(alloc: Global, set: &mut IndexSet<Atom>, file: &File, used: &Use) -> Result<(), AtomsEnd>
    requires hyps { used.now.hyp < length file.now.hyps }
    requires small { length set.old.keys ≤ MAX_ATOMS }
    ensures { Adds set.old.keys result set.new.keys (use_leaves file.now used.now) }
{
    let hyp = &file.hyps.items()[used.hyp as usize];
    let path = Vec::from_slice(alloc, used.path.items())?;
    add_equation(alloc, set, path, &hyp.equation)
}

/// Adds the atoms of both sides under a path.
fn add_equation(
    alloc: Global,
    set: &mut IndexSet<Atom>,
    path: Vec<u32>,
    equation: &Equation,
) -> Result<(), AtomsEnd>
    requires { length set.old.keys ≤ MAX_ATOMS }
    ensures { Adds set.old.keys result set.new.keys (equation_leaves path.items equation.now) }
{
    let mut path = path;
    add_leaves(alloc, set, &mut path, &equation.left)?;
    add_leaves(alloc, set, &mut path, &equation.right)
}

/// Adds the atoms of a term under a path, which is as before at the end.
#[tactic(auto, using(crate::proofs::Leaves::leaves_built))]
fn add_leaves(
    alloc: Global,
    set: &mut IndexSet<Atom>,
    path: &mut Vec<u32>,
    term: &Term,
) -> Result<(), AtomsEnd>
    requires { length set.old.keys ≤ MAX_ATOMS }
    ensures path { OnOk result (path.new.items ≡ path.old.items) }
    ensures adds { Adds set.old.keys result set.new.keys (leaves path.old.items term.now) }
{
    match term {
        Term::Int(_) => Ok(()),
        Term::Var(var) => add_atom(alloc, set, path.as_slice(), *var),
        Term::Neg(part) | Term::Pow(part, _) => add_leaves(alloc, set, path, part.get()),
        Term::Add(left, right)
        | Term::Sub(left, right)
        | Term::Mul(left, right)
        | Term::Div(left, right) => {
            add_leaves(alloc, set, path, left.get())?;
            add_leaves(alloc, set, path, right.get())
        }
        Term::Hom(morphism, part) => {
            path.push(*morphism)?;
            add_leaves(alloc, set, path, part.get())?;
            path.pop();
            Ok(())
        }
    }
}

/// Adds an atom, unless it is there.
fn add_atom(alloc: Global, set: &mut IndexSet<Atom>, path: &[u32], var: u32) -> Result<(), AtomsEnd>
    requires { length set.old.keys ≤ MAX_ATOMS }
    ensures { Adds set.old.keys result set.new.keys (record { path = path.now; var = var } ∷ []) }
{
    let path = Seq::from_vec(Vec::from_slice(alloc, path)?);
    set.insert(Atom { path, var })?;
    if set.len() > MOST_ATOMS {
        return Err(AtomsEnd::TooMany);
    }
    Ok(())
}
