//! The search for a certificate: a machine of eight rules over lines, which are combinations of the
//! hypotheses.
//!
//! Its state is defined in `specs/State.antt`, its rules in `specs/Rules.antt`, and its run in
//! `specs/Runs.antt`; `specs/Machine.antt` has the step as it is computed.
#![tactic(auto)]

mod basis;
mod cancel;
mod decide;
mod factors;
pub mod laws;
mod leads;
mod machine;
mod member;
mod pruning;
mod queue;
mod remainder;
mod run;

pub use alg_mono::{Mono, NoMemory, Overrun};
pub use alg_poly::Poly;
pub use decide::{Verdict, search};
pub use pruning::prune;
