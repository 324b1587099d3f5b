//! Files: names resolved, sorts checked, and the first fault of a text that is no file.
//!
//! The words of the contracts are in `specs/Reading.antt`, which names the file or the first fault
//! of a text, over the faults of `specs/NameFaults.antt` and `specs/SortFaults.antt`.
#![tactic(auto)]

mod adding;
mod answer_parts;
mod answer_terms;
mod declaration;
mod declared;
mod faults;
pub mod laws;
mod lists;
mod members;
mod name_faults;
mod names;
mod reading;
mod scope;
mod sort_faults;
mod sorts;
mod terms;

pub use alg_reader::FileEnd;
pub use declaration::Declaration;
pub use declared::Declared;
pub use faults::{earlier, fault_where};
pub use reading::{read_declared, read_file};
