//! The text of a statement.

ghost use Rattle.std.specs.Prelude.{◌≡◌, ◌<◌, ◌≤◌, ◌++◌, ◌+◌, ◌^◌, length, All, OnOk};
ghost use Rattle.alg_terms.specs.Members.{sort_of_var, uses_of};
ghost use Rattle.alg_terms.specs.Order.{numbers_from};
ghost use Rattle.alg_printer.specs.Names.{IsPathOf};
ghost use Rattle.alg_printer.specs.Statements.{kind_text, char_text, sort_text, hom_text, names_text, vars_text, relation_text, hyp_text, use_text, uses_text, method_text, goal_text};
ghost use Rattle.alg_printer.specs.Terms.{IsNamed};

use crate::NoMemory;
use crate::names::{put_sort_name, put_under, put_variable};
use crate::terms::put_term;
use crate::text::Text;
use alg_terms::{File, Goal, HomDecl, Hyp, Kind, Method, Sort, Use};

/// The word of a kind with the space after it.
fn word_of(kind: Kind) -> &'static [u8]
    ensures { result.now ≡ kind_text kind }
{
    match kind {
        Kind::Ring => b"ring ",
        Kind::Domain => b"domain ",
        Kind::Field => b"field ",
    }
}

/// A declaration of a sort.
pub(crate) fn put_sort(text: &mut Text, sort: &Sort) -> Result<(), NoMemory>
    ensures { OnOk result (text.new ≡ text.old ++ sort_text sort.now) }
{
    text.put(word_of(sort.kind))?;
    text.put(sort.name.text().as_bytes())?;
    text.put(if sort.char0 { b" char 0" } else { b"" })?;
    text.put(b".\n")
}

/// A declaration of a morphism.
pub(crate) fn put_hom(text: &mut Text, file: &File, hom: &HomDecl) -> Result<(), NoMemory>
    requires source { hom.now.from < length file.now.sorts }
    requires target { hom.now.to < length file.now.sorts }
    ensures { OnOk result (text.new ≡ text.old ++ hom_text file.now hom.now) }
{
    text.put(b"hom ")?;
    text.put(hom.name.text().as_bytes())?;
    text.put(b" : ")?;
    put_sort_name(text, file, hom.from)?;
    text.put(b" -> ")?;
    put_sort_name(text, file, hom.to)?;
    text.put(b".\n")
}

/// The names of variables, each after a space.
fn put_names(text: &mut Text, file: &File, first: u32, count: u32) -> Result<(), NoMemory>
    requires vars { first + count ≤ length file.now.vars }
    requires few { length file.now.vars < 2 ^ 32 }
    ensures { OnOk result (text.new ≡ text.old ++ names_text file.now (numbers_from first count)) }
{
    for k in 0..count {
        text.put(b" ")?;
        put_variable(text, file, first + k)?;
    }
    Ok(())
}

/// A declaration of variables of one sort.
pub(crate) fn put_vars(text: &mut Text, file: &File, first: u32, count: u32) -> Result<(), NoMemory>
    requires vars { first + count ≤ length file.now.vars }
    requires sort { sort_of_var file.now first < length file.now.sorts }
    requires some { 1 ≤ count }
    requires few { length file.now.vars < 2 ^ 32 }
    ensures { OnOk result (text.new ≡ text.old ++ vars_text file.now first count) }
{
    text.put(b"var")?;
    put_names(text, file, first, count)?;
    text.put(b" : ")?;
    put_sort_name(text, file, file.vars.items()[first as usize].sort)?;
    text.put(b".\n")
}

/// A hypothesis.
pub(crate) fn put_hyp(text: &mut Text, file: &File, hyp: &Hyp) -> Result<(), NoMemory>
    requires left { IsNamed file.now hyp.now.equation.left }
    requires right { IsNamed file.now hyp.now.equation.right }
    ensures { OnOk result (text.new ≡ text.old ++ hyp_text file.now hyp.now) }
{
    text.put(b"hyp ")?;
    text.put(hyp.name.text().as_bytes())?;
    text.put(b" : ")?;
    put_term(text, file, &hyp.equation.left)?;
    text.put(if hyp.nonzero { b" <> " } else { b" = " })?;
    put_term(text, file, &hyp.equation.right)?;
    text.put(b".\n")
}

/// A hypothesis under a path.
fn put_use(text: &mut Text, file: &File, used: &Use) -> Result<(), NoMemory>
    requires path { IsPathOf file.now used.now.path }
    requires hyp { used.now.hyp < length file.now.hyps }
    ensures { OnOk result (text.new ≡ text.old ++ use_text file.now used.now) }
{
    let hyp = &file.hyps.items()[used.hyp as usize];
    put_under(text, file, used.path.items(), hyp.name.text().as_bytes())
}

/// The uses of a goal, if there are any.
fn put_uses(text: &mut Text, file: &File, uses: &[Use]) -> Result<(), NoMemory>
    requires paths { All (λ u. IsPathOf file.now u.path) uses.now }
    requires hyps { All (λ u. u.hyp < length file.now.hyps) uses.now }
    ensures { OnOk result (text.new ≡ text.old ++ uses_text file.now uses.now) }
{
    let mut front: &[u8] = b" using ";
    for used in uses {
        text.put(front)?;
        put_use(text, file, used)?;
        front = b", ";
    }
    Ok(())
}

/// How a goal is to be decided, with its options.
fn put_method(text: &mut Text, file: &File, method: &Method) -> Result<(), NoMemory>
    requires paths { All (λ u. IsPathOf file.now u.path) (uses_of method.now) }
    requires hyps { All (λ u. u.hyp < length file.now.hyps) (uses_of method.now) }
    ensures { OnOk result (text.new ≡ text.old ++ method_text file.now method.now) }
{
    match method {
        Method::ByRing => text.put(b"ring"),
        Method::ByField => text.put(b"field"),
        Method::ByNsatz { uses, power, limit } => {
            text.put(b"nsatz")?;
            put_uses(text, file, uses.items())?;
            text.put(b" power ")?;
            text.natural(*power)?;
            text.put(b" limit ")?;
            text.natural(*limit)
        }
    }
}

/// A goal.
pub(crate) fn put_goal(text: &mut Text, file: &File, goal: &Goal) -> Result<(), NoMemory>
    requires left { IsNamed file.now goal.now.equation.left }
    requires right { IsNamed file.now goal.now.equation.right }
    requires paths { All (λ u. IsPathOf file.now u.path) (uses_of goal.now.method) }
    requires hyps { All (λ u. u.hyp < length file.now.hyps) (uses_of goal.now.method) }
    ensures { OnOk result (text.new ≡ text.old ++ goal_text file.now goal.now) }
{
    text.put(b"goal ")?;
    put_term(text, file, &goal.equation.left)?;
    text.put(b" = ")?;
    put_term(text, file, &goal.equation.right)?;
    text.put(b" by ")?;
    put_method(text, file, &goal.method)?;
    text.put(b".\n")
}
