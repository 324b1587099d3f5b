//! Laws of sources and sinks. Each is a function whose contract is the law.

ghost use Rattle.alg_outside.specs.Faults.{Rose};

use crate::quiet::{QuietSink, QuietSource};
use crate::source::{Sink, Source};

/// The count of a source or a sink that never fails does not rise. So where a call on it has a fault
/// only where the count rose, it has none.
pub fn quiet_counts_never_rise()
    ensures source { (before after : QuietSource) →
        ¬ Rose (⟦<QuietSource as Source>⟧.faults before) (⟦<QuietSource as Source>⟧.faults after) }
    ensures sink { (before after : QuietSink) →
        ¬ Rose (⟦<QuietSink as Sink>⟧.faults before) (⟦<QuietSink as Sink>⟧.faults after) }
{}
