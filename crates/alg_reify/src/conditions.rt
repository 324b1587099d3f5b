//! The conditions of a goal, as its denominators come.

ghost use Rattle.std.specs.Prelude.{◌≡◌, OnOk};
ghost use Rattle.std.specs.List.{list_any};
ghost use Rattle.alg_meaning.specs.Trees.{same_tree};
ghost use Rattle.alg_reify.specs.Added.{drops, add_condition};

use crate::NoMemory;
use crate::fraction_form::FractionForm;
use alg_terms::{Term, copy, same};
use std::alloc::Global;

/// Whether a denominator with this fraction needs no condition.
fn is_dropped<F: FractionForm>(char0: bool, fraction: &F) -> bool
    ensures { result ≡ drops char0 (F.fraction fraction.now).top }
{
    fraction.is_unit() || char0 && fraction.is_constant()
}

/// Whether a tree is among the terms. It takes no memory.
fn is_there(terms: &[Term], term: &Term) -> bool
    ensures { result ≡ list_any (same_tree term.now) terms.now }
{
    for one in terms {
        if same(term, one) {
            return true;
        }
    }
    false
}

/// A copy of a denominator with this fraction goes last, unless it is dropped or there already.
pub(crate) fn add_condition<F: FractionForm>(
    alloc: Global,
    char0: bool,
    conditions: &mut Vec<Term>,
    denominator: &Term,
    fraction: &F,
) -> Result<(), NoMemory>
    ensures { OnOk result (conditions.new.items
        ≡ add_condition (drops char0 (F.fraction fraction.now).top) conditions.old.items
        denominator.now) }
{
    if is_dropped(char0, fraction) || is_there(conditions, denominator) {
        return Ok(());
    }
    conditions.push(copy(alloc, denominator)?)?;
    Ok(())
}
