//! The constants of a certificate.

ghost use Rattle.std.specs.Prelude.{◌≡◌, ◌∷◌, [], IfOk, OnOk, map};
ghost use Rattle.alg_lines.specs.Constants.{constants, added};

use crate::cert::{Cert, GoalStep, Line};
use alg_mono::NoMemory;
use std::alloc::Global;
use std::collections::BTreeSet;

/// Adds a number, where it is above 1.
fn add(set: &mut BTreeSet<i128>, number: i128) -> Result<(), NoMemory>
    ensures { OnOk result (set.new.keys ≡ added set.old.keys (number ∷ [])) }
{
    if number > 1 {
        set.insert(number)?;
    }
    Ok(())
}

/// Adds the divisors of the lines.
fn add_divisors(set: &mut BTreeSet<i128>, lines: &[Line]) -> Result<(), NoMemory>
    ensures { OnOk result (set.new.keys ≡ added set.old.keys (map (λ l. l.d) lines.now)) }
{
    for line in lines {
        add(set, line.d)?;
    }
    Ok(())
}

/// Adds the factors of the steps' remainders.
fn add_factors(set: &mut BTreeSet<i128>, steps: &[GoalStep]) -> Result<(), NoMemory>
    ensures { OnOk result (set.new.keys ≡ added set.old.keys (map (λ s. s.a) steps.now)) }
{
    for step in steps {
        add(set, step.a)?;
    }
    Ok(())
}

/// The numbers of a set, rising.
fn listed(alloc: Global, set: BTreeSet<i128>) -> Result<Vec<i128>, NoMemory>
    ensures { IfOk result (λ v. v.items ≡ set.keys) }
{
    let mut numbers = Vec::new(alloc);
    for number in set {
        numbers.push(number)?;
    }
    Ok(numbers)
}

/// The numbers by which the certificate divides: each value above 1 among the `d` of its lines and
/// the `a` of its steps, once, rising; none where the goal's sort has characteristic 0. What the
/// certificate shows holds where none of them is zero.
pub fn constants_of(alloc: Global, cert: &Cert, char0: bool) -> Result<Vec<i128>, NoMemory>
    ensures { IfOk result (λ v. v.items ≡ constants cert.now char0) }
{
    if char0 {
        return Ok(Vec::new(alloc));
    }
    let mut set = BTreeSet::new(alloc);
    add_divisors(&mut set, cert.lines.items())?;
    add_factors(&mut set, cert.steps.items())?;
    listed(alloc, set)
}
