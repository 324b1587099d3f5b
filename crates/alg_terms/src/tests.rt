//! Terms, names, atoms and lists, and one file that keeps all rules.

ghost use Rattle.std.specs.Prelude.{◌≡◌, ◌+◌, ◌^◌, ◌<◌, IfOk};
ghost use Rattle.alg_terms.specs.SmallFile.{small};
ghost use Rattle.alg_terms.specs.Term.{depth_of};
ghost use Rattle.alg_terms.specs.Valid.{IsValid};

use super::*;
use crate::laws::limits;
use sqlite_items::Boxed;
use std::alloc::Global;
use std::test::Fail;

// The term with one node above it, of another kind for each turn.
#[tactic(auto, using(crate::proofs::Built::built, crate::proofs::Depths::depth_positive))]
fn raised(alloc: Global, term: Term, turn: u32) -> Result<Term, NoMemory>
    ensures { IfOk result (λ higher. depth_of higher ≡ depth_of term + 1) }
{
    let part = Boxed::new(alloc, term)?;
    let other = Boxed::new(alloc, Term::Int(1))?;
    match turn % 7 {
        0 => Ok(Term::Neg(part)),
        1 => Ok(Term::Add(part, other)),
        2 => Ok(Term::Sub(other, part)),
        3 => Ok(Term::Mul(part, other)),
        4 => Ok(Term::Div(other, part)),
        5 => Ok(Term::Pow(part, turn)),
        _ => Ok(Term::Hom(turn, part)),
    }
}

// A variable with so many nodes above it, each with the next one as a part.
#[tactic(auto, using(crate::proofs::Built::built))]
fn tower(alloc: Global, above: u32) -> Result<Term, NoMemory>
    requires { above < 2 ^ 16 }
    ensures { IfOk result (λ term. depth_of term ≡ above + 1) }
{
    let mut term = Term::Var(0);
    for turn in 0..above {
        term = raised(alloc, term, turn)?;
    }
    Ok(term)
}

#[test]
fn the_deepest_terms_are_compared_measured_and_copied(rt: HostRuntime) -> Result<(), Fail> {
    for above in [0, 1, 8, 998, 999] {
        let term = tower(rt.alloc(), above)?;
        assert_eq!(rt; depth(&term), above + 1, "{above} nodes over a variable");
        let copied = copy(rt.alloc(), &term)?;
        assert_eq!(rt;
            depth(&copied),
            above + 1,
            "a copy of {above} nodes over a variable"
        );
        assert!(rt;
            same(&term, &copied),
            "a copy of {above} nodes over a variable"
        );
        let higher = tower(rt.alloc(), above + 1)?;
        assert!(rt; !same(&term, &higher), "{above} nodes and one more");
    }
    Ok(())
}

#[test]
fn names_keep_their_text(rt: HostRuntime) -> Result<(), Fail> {
    for text in ["x", "x'", "_1", "α"] {
        let name = Name::new(rt.alloc(), text)?;
        assert_eq!(rt; name.text(), text);
    }
    Ok(())
}

// Each row: the path and the variable of an atom, and whether it is f(g(x)).
#[test]
fn atoms_are_equal_where_their_paths_and_variables_are(rt: HostRuntime) -> Result<(), Fail> {
    let first = Atom {
        path: Seq::from_vec(vec![in rt.alloc(); 0, 1]?),
        var: 0,
    };
    for (outer, inner, var, want) in [(0, 1, 0, true), (1, 0, 0, false), (0, 1, 1, false)] {
        let other = Atom {
            path: Seq::from_vec(vec![in rt.alloc(); outer, inner]?),
            var,
        };
        assert_eq!(rt; first == other, want, "{outer}, {inner} over {var}");
    }
    Ok(())
}

#[test]
fn lists_keep_their_items_in_order(rt: HostRuntime) -> Result<(), Fail> {
    let mut numbers: Seq<u32> = Seq::from_vec(vec![in rt.alloc(); 3, 1]?);
    numbers.push(2)?;
    assert_eq!(rt; numbers.items(), [3, 1, 2].as_slice());
    assert_eq!(rt; numbers.into_vec().as_slice(), [3, 1, 2].as_slice());
    Ok(())
}

// The contract says it; nothing runs.
fn the_small_file_is_valid()
    ensures { IsValid small }
{}

#[test]
fn all_rules_can_be_kept_together() {
    the_small_file_is_valid();
    limits();
}
