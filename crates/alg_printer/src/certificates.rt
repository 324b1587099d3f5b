//! The text of a certificate, in format 2.

ghost use Rattle.std.specs.Prelude.{◌≡◌, ◌++◌, [], All, unwrap_or, OnOk};
ghost use Rattle.std.specs.List.{flat_map};
ghost use Rattle.alg_printer.specs.Answers.{constants_text, scale_text, multiple_text, over_text, divisor_text, line_text, step_text, power_text, cert_text};
ghost use Rattle.alg_printer.specs.Monomials.{IsAtomOf, IsOverAtoms};
ghost use Rattle.alg_printer.specs.Printable.{IsLineOver, IsStepOver, IsCertOver};

use crate::NoMemory;
use crate::monomials::put_factors;
use crate::text::Text;
use alg_lines::{Cert, GoalStep, Line};
use alg_mono::Mono;
use alg_reify::Atoms;
use alg_terms::File;

/// Constants that are not zero, if there are any.
fn put_constants(text: &mut Text, constants: &[i128]) -> Result<(), NoMemory>
    ensures { OnOk result (text.new ≡ text.old ++ constants_text constants.now) }
{
    let mut front: &[u8] = b" if ";
    for constant in constants {
        text.put(front)?;
        text.integer(*constant)?;
        text.put(b" <> 0")?;
        front = b", ";
    }
    Ok(())
}

/// A monomial of a combination with the comma behind it, if it is not 1.
fn put_scale(
    text: &mut Text,
    file: &File,
    atoms: &Option<Atoms>,
    mono: &Mono,
) -> Result<(), NoMemory>
    requires known { All (IsAtomOf file.now) (unwrap_or atoms.now []) }
    requires over { IsOverAtoms (unwrap_or atoms.now []) mono.now }
    ensures { OnOk result (text.new
        ≡ text.old ++ scale_text file.now (unwrap_or atoms.now []) mono.now) }
{
    if mono.pairs().is_empty() {
        return Ok(());
    }
    put_factors(text, file, atoms, mono.pairs())?;
    text.put(b", ")
}

/// A multiple of a line.
fn put_multiple(
    text: &mut Text,
    file: &File,
    atoms: &Option<Atoms>,
    factor: i128,
    mono: &Mono,
    line: u32,
) -> Result<(), NoMemory>
    requires known { All (IsAtomOf file.now) (unwrap_or atoms.now []) }
    requires over { IsOverAtoms (unwrap_or atoms.now []) mono.now }
    ensures { OnOk result (text.new
        ≡ text.old ++ multiple_text file.now (unwrap_or atoms.now []) factor mono.now line) }
{
    text.integer(factor)?;
    text.put(b", ")?;
    put_scale(text, file, atoms, mono)?;
    text.natural(line)
}

/// The divisor of a combination, if it is not 1.
fn put_over(text: &mut Text, divisor: i128) -> Result<(), NoMemory>
    ensures { OnOk result (text.new ≡ text.old ++ over_text divisor) }
{
    if divisor == 1 {
        return Ok(());
    }
    text.put(b" over ")?;
    text.integer(divisor)
}

/// The divisor of a combination, at the end of its line.
fn put_divisor(text: &mut Text, divisor: i128) -> Result<(), NoMemory>
    ensures { OnOk result (text.new ≡ text.old ++ divisor_text divisor) }
{
    put_over(text, divisor)?;
    text.put(b".\n")
}

/// A line of a certificate.
fn put_line(
    text: &mut Text,
    file: &File,
    atoms: &Option<Atoms>,
    line: &Line,
) -> Result<(), NoMemory>
    requires known { All (IsAtomOf file.now) (unwrap_or atoms.now []) }
    requires over { IsLineOver (unwrap_or atoms.now []) line.now }
    ensures { OnOk result (text.new
        ≡ text.old ++ line_text file.now (unwrap_or atoms.now []) line.now) }
{
    text.put(b"  line ")?;
    put_multiple(text, file, atoms, line.a, &line.m, line.i)?;
    text.put(b" minus ")?;
    put_multiple(text, file, atoms, line.b, &line.n, line.j)?;
    put_divisor(text, line.d)
}

/// A step of a certificate.
fn put_step(
    text: &mut Text,
    file: &File,
    atoms: &Option<Atoms>,
    step: &GoalStep,
) -> Result<(), NoMemory>
    requires known { All (IsAtomOf file.now) (unwrap_or atoms.now []) }
    requires over { IsStepOver (unwrap_or atoms.now []) step.now }
    ensures { OnOk result (text.new
        ≡ text.old ++ step_text file.now (unwrap_or atoms.now []) step.now) }
{
    text.put(b"  step ")?;
    text.integer(step.a)?;
    text.put(b" minus ")?;
    put_multiple(text, file, atoms, step.b, &step.n, step.j)?;
    put_divisor(text, step.d)
}

/// The lines of a certificate.
fn put_lines(
    text: &mut Text,
    file: &File,
    atoms: &Option<Atoms>,
    lines: &[Line],
) -> Result<(), NoMemory>
    requires known { All (IsAtomOf file.now) (unwrap_or atoms.now []) }
    requires over { All (IsLineOver (unwrap_or atoms.now [])) lines.now }
    ensures { OnOk result (text.new
        ≡ text.old ++ flat_map (line_text file.now (unwrap_or atoms.now [])) lines.now) }
{
    for line in lines {
        put_line(text, file, atoms, line)?;
    }
    Ok(())
}

/// The steps of a certificate.
fn put_steps(
    text: &mut Text,
    file: &File,
    atoms: &Option<Atoms>,
    steps: &[GoalStep],
) -> Result<(), NoMemory>
    requires known { All (IsAtomOf file.now) (unwrap_or atoms.now []) }
    requires over { All (IsStepOver (unwrap_or atoms.now [])) steps.now }
    ensures { OnOk result (text.new
        ≡ text.old ++ flat_map (step_text file.now (unwrap_or atoms.now [])) steps.now) }
{
    for step in steps {
        put_step(text, file, atoms, step)?;
    }
    Ok(())
}

/// The power of a certificate, with the constants.
fn put_power(text: &mut Text, power: u32, constants: &[i128]) -> Result<(), NoMemory>
    ensures { OnOk result (text.new ≡ text.old ++ power_text power constants.now) }
{
    text.put(b"  proved version 2 power ")?;
    text.natural(power)?;
    put_constants(text, constants)?;
    text.put(b".\n")
}

/// A certificate with its constants.
pub(crate) fn put_cert(
    text: &mut Text,
    file: &File,
    atoms: &Option<Atoms>,
    constants: &[i128],
    cert: &Cert,
) -> Result<(), NoMemory>
    requires known { All (IsAtomOf file.now) (unwrap_or atoms.now []) }
    requires over { IsCertOver (unwrap_or atoms.now []) cert.now }
    ensures { OnOk result (text.new
        ≡ text.old ++ cert_text file.now (unwrap_or atoms.now []) constants.now cert.now) }
{
    put_power(text, cert.power, constants)?;
    put_lines(text, file, atoms, cert.lines.items())?;
    put_steps(text, file, atoms, cert.steps.items())
}
