//! The canonical text of a file reads back as the file.
//!
//! Nothing here runs. `specs/ReadingBack.antt` states the law over the reader, the typing and the
//! printer; `laws` has it as the contract of a function.
#![tactic(auto)]

pub mod laws;
