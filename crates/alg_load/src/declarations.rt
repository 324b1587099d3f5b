//! The field of a loaded file and its variables.

ghost use Rattle.std.specs.Prelude.{◌≡◌, IfOk};
ghost use Rattle.alg_load.specs.Loaded.{loaded};

use crate::NoMemory;
use alg_terms::{Kind, Name, Seq, Sort, VarDecl};
use std::alloc::Global;

// field F.
pub(crate) fn sorts(alloc: Global) -> Result<Seq<Sort>, NoMemory>
    ensures { IfOk result (λ sorts. sorts ≡ (loaded 0).sorts) }
{
    let mut sorts = Seq::from_vec(Vec::new(alloc));
    sorts.push(Sort {
        name: Name::new(alloc, "F")?,
        kind: Kind::Field,
        char0: false,
    })?;
    Ok(sorts)
}

// var x y : F.
pub(crate) fn vars(alloc: Global) -> Result<Seq<VarDecl>, NoMemory>
    ensures { IfOk result (λ vars. vars ≡ (loaded 0).vars) }
{
    let mut vars = Seq::from_vec(Vec::new(alloc));
    vars.push(VarDecl {
        name: Name::new(alloc, "x")?,
        sort: 0,
    })?;
    vars.push(VarDecl {
        name: Name::new(alloc, "y")?,
        sort: 0,
    })?;
    Ok(vars)
}
