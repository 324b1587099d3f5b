//! Terms and atoms in print.

ghost use Rattle.std.specs.Prelude.{◌<◌, IfOk};
ghost use Rattle.alg_printer.specs.Examples.{HasLetters, IsOfLetters};

use crate::NoMemory;
use crate::monomials::{put_atom, put_exponent};
use crate::terms::put_term;
use crate::text::Text;
use alg_terms::{Atom, File, HomDecl, Name, Seq, Term, VarDecl};
use sqlite_items::Boxed;
use std::alloc::Global;
use std::process::Abort;
use std::test::Fail;

// The morphisms f and g, by their numbers.
const F: u32 = 0;

const G: u32 = 1;

fn variable(alloc: Global, name: &str) -> Result<VarDecl, NoMemory> {
    Ok(VarDecl {
        name: Name::new(alloc, name)?,
        sort: 0,
    })
}

fn morphism(alloc: Global, name: &str) -> Result<HomDecl, NoMemory> {
    Ok(HomDecl {
        name: Name::new(alloc, name)?,
        from: 0,
        to: 0,
    })
}

// A file with the variables x, y, z and the morphisms f, g.
fn letters(alloc: Global) -> Result<File, NoMemory>
    ensures { IfOk result HasLetters }
{
    let mut vars = Seq::from_vec(Vec::new(alloc));
    vars.push(variable(alloc, "x")?)?;
    vars.push(variable(alloc, "y")?)?;
    vars.push(variable(alloc, "z")?)?;
    let mut homs = Seq::from_vec(Vec::new(alloc));
    homs.push(morphism(alloc, "f")?)?;
    homs.push(morphism(alloc, "g")?)?;
    Ok(File {
        sorts: Seq::from_vec(Vec::new(alloc)),
        homs,
        vars,
        hyps: Seq::from_vec(Vec::new(alloc)),
        goals: Seq::from_vec(Vec::new(alloc)),
        order: Seq::from_vec(Vec::new(alloc)),
    })
}

fn x() -> Term
    ensures { IsOfLetters result }
{
    Term::Var(0)
}

fn y() -> Term
    ensures { IsOfLetters result }
{
    Term::Var(1)
}

fn z() -> Term
    ensures { IsOfLetters result }
{
    Term::Var(2)
}

#[tactic(auto, using(crate::proofs::Letters::negation))]
fn negated(alloc: Global, part: Term) -> Result<Term, NoMemory>
    requires { IsOfLetters part }
    ensures { IfOk result IsOfLetters }
{
    Ok(Term::Neg(Boxed::new(alloc, part)?))
}

fn squared(alloc: Global, part: Term) -> Result<Term, NoMemory>
    requires { IsOfLetters part }
    ensures { IfOk result IsOfLetters }
{
    Ok(Term::Pow(Boxed::new(alloc, part)?, 2))
}

#[tactic(auto, using(crate::proofs::Letters::image))]
fn image(alloc: Global, morphism: u32, part: Term) -> Result<Term, NoMemory>
    requires within { morphism < 2 }
    requires part { IsOfLetters part }
    ensures { IfOk result IsOfLetters }
{
    Ok(Term::Hom(morphism, Boxed::new(alloc, part)?))
}

fn both(alloc: Global, left: Term, sign: char, right: Term) -> Result<Term, NoMemory>
    requires left { IsOfLetters left }
    requires right { IsOfLetters right }
    ensures { IfOk result IsOfLetters }
{
    let left = Boxed::new(alloc, left)?;
    let right = Boxed::new(alloc, right)?;
    match sign {
        '+' => Ok(Term::Add(left, right)),
        '-' => Ok(Term::Sub(left, right)),
        '*' => Ok(Term::Mul(left, right)),
        _ => Ok(Term::Div(left, right)),
    }
}

fn check(rt: &impl Abort, alloc: Global, term: &Term, want: &str) -> Result<(), Fail>
    requires { IsOfLetters term.now }
{
    let mut text = Text::new(alloc);
    put_term(&mut text, &letters(alloc)?, term)?;
    assert_eq!(rt; text.into_bytes().as_slice(), want.as_bytes(), "{want}");
    Ok(())
}

// x with y and z behind it, the two together.
fn nested(alloc: Global, first: char, second: char) -> Result<Term, NoMemory>
    ensures { IfOk result IsOfLetters }
{
    both(alloc, x(), first, both(alloc, y(), second, z())?)
}

// x and y together, with z behind them.
fn grouped(alloc: Global, first: char, second: char) -> Result<Term, NoMemory>
    ensures { IfOk result IsOfLetters }
{
    both(alloc, both(alloc, x(), first, y())?, second, z())
}

// Each row: two operators, and x, y and z with the right ones together, then with the left ones.
#[test]
fn operators_group_to_the_left(rt: HostRuntime) -> Result<(), Fail> {
    for (first, second, right, left) in [
        ('-', '-', "x - (y - z)", "x - y - z"),
        ('+', '+', "x + (y + z)", "x + y + z"),
        ('+', '*', "x + y*z", "(x + y)*z"),
        ('*', '-', "x*(y - z)", "x*y - z"),
        ('/', '/', "x/(y/z)", "x/y/z"),
        ('*', '/', "x*(y/z)", "x*y/z"),
    ] {
        check(&rt, rt.alloc(), &nested(rt.alloc(), first, second)?, right)?;
        check(&rt, rt.alloc(), &grouped(rt.alloc(), first, second)?, left)?;
    }
    Ok(())
}

#[test]
fn minus_signs_bind_tighter_than_operators(rt: HostRuntime) -> Result<(), Fail> {
    let alloc = rt.alloc();
    let of_sum = negated(alloc, both(alloc, x(), '+', y())?)?;
    check(&rt, alloc, &of_sum, "-(x + y)")?;
    let in_product = both(alloc, x(), '*', negated(alloc, y())?)?;
    check(&rt, alloc, &in_product, "x*-y")
}

#[test]
fn powers_bind_tighter_than_minus_signs(rt: HostRuntime) -> Result<(), Fail> {
    let alloc = rt.alloc();
    let of_opposite = squared(alloc, negated(alloc, x())?)?;
    check(&rt, alloc, &of_opposite, "(-x)^2")?;
    let of_power = negated(alloc, squared(alloc, x())?)?;
    check(&rt, alloc, &of_power, "-x^2")
}

#[test]
fn arguments_stand_in_parentheses(rt: HostRuntime) -> Result<(), Fail> {
    let alloc = rt.alloc();
    let of_image = squared(alloc, image(alloc, F, both(alloc, x(), '+', y())?)?)?;
    check(&rt, alloc, &of_image, "f(x + y)^2")
}

// Each row: an exponent, and what is printed of it behind f(g(x)).
#[test]
fn factors_are_paths_over_variables_with_exponents_above_1(rt: HostRuntime) -> Result<(), Fail> {
    let alloc = rt.alloc();
    let file = letters(alloc)?;
    for (exponent, want) in [(1, "f(g(x))"), (2, "f(g(x))^2"), (1000, "f(g(x))^1000")] {
        let mut path = Seq::from_vec(Vec::new(alloc));
        path.push(F)?;
        path.push(G)?;
        let mut text = Text::new(alloc);
        put_atom(&mut text, &file, &Atom { path, var: 0 })?;
        put_exponent(&mut text, exponent)?;
        assert_eq!(rt; text.into_bytes().as_slice(), want.as_bytes(), "{exponent}");
    }
    Ok(())
}
