//! Laws of reading. Each is a function whose contract is the law.

ghost use Rattle.alg_typing.specs.Laws.{OneReading, OneOwnSort, OneEquationSort, OneFinalSort};

/// A text has at most one outcome: it is one file, or has one first fault.
pub fn one_reading()
    ensures { OneReading }
{
    alg_reader::laws::one_outcome();
}

/// Terms that were read and terms of files have one notion of own sort and one of final sort: names
/// that are resolved change neither, and the faults of sorts are the rules of sorts that are broken.
pub fn one_notion_of_sorts()
    ensures own { OneOwnSort }
    ensures equation { OneEquationSort }
    ensures final_sort { OneFinalSort }
{}
