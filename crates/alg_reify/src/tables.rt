//! The table of a goal, where it has one.

ghost use Rattle.std.specs.Prelude.{◌≡◌, ◌<◌, [], length, All, unwrap_or, IfOk};
ghost use Rattle.alg_terms.specs.Members.{uses_of};
ghost use Rattle.alg_reify.specs.Table.{goal_atoms};

use crate::{Atoms, AtomsEnd, NoMemory, atoms_of};
use alg_terms::{File, Goal, Method, Use};
use std::alloc::{AllocError, Global};

/// The uses of a method.
fn uses_of(method: &Method) -> &[Use]
    ensures { result.now ≡ uses_of method.now }
{
    match method {
        Method::ByRing | Method::ByField => &[],
        Method::ByNsatz { uses, .. } => uses.items(),
    }
}

/// The atoms of a goal's table, and None where it would have more than 1,000.
pub fn goal_table(alloc: Global, file: &File, goal: &Goal) -> Result<Option<Atoms>, NoMemory>
    requires { All (λ u. u.hyp < length file.now.hyps) (uses_of goal.now.method) }
    ensures { IfOk result (λ atoms. unwrap_or atoms [] ≡ goal_atoms file.now goal.now) }
{
    match atoms_of(alloc, file, &goal.equation, uses_of(&goal.method)) {
        Ok(atoms) => Ok(Some(atoms)),
        Err(AtomsEnd::TooMany) => Ok(None),
        Err(AtomsEnd::NoMemory) => Err(AllocError),
    }
}
