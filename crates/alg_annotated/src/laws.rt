//! Laws of reading annotated files. Each is a function whose contract is the law.

ghost use Rattle.alg_annotated.specs.Laws.{OneAnnotatedReading};

/// A text has at most one outcome: it is one annotated file, or has one first fault.
pub fn one_reading()
    ensures { OneAnnotatedReading }
{
    alg_reader::laws::one_outcome();
}
