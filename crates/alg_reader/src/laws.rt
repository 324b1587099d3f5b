//! Laws of reading. Each is a function whose contract is the law.

ghost use Rattle.alg_reader.specs.Laws.{OneOutcome, StatementsAreWellRead, StatementsMayStand};

/// Whatever is read of a text is well read: its names are names of the text, its numbers in range,
/// and no term too deep.
pub fn statements_are_well_read()
    ensures { StatementsAreWellRead }
{}

/// Whatever is read at a place may stand there: where no answers are allowed, no answer, line or step
/// is read.
pub fn statements_may_stand()
    ensures { StatementsMayStand }
{}

/// At each place of a text there is at most one statement, end or first fault.
pub fn one_outcome()
    ensures { OneOutcome }
{}
