//! The atoms of a goal, numbered, and the polynomials of terms over these numbers.
//!
//! A goal's table has its atoms in the order of their first occurrence ([`atoms_of`]). [`reify`] makes
//! the polynomial of a term over the numbers of a table, node by node, within the limits on norm and
//! degree, and [`reify_sides`] the fractions of an equation's sides with their conditions, each in any
//! form. `specs/RingVerdict.antt` and `specs/FieldVerdict.antt` define the answers to goals by ring
//! and by field, and [`laws`] has what holds of them. The words of the contracts are in
//! `specs/Table.antt`, `specs/Numbered.antt` and `specs/FractionsUnder.antt`.
#![tactic(auto)]

mod atoms;
mod conditions;
mod ends;
mod fraction_form;
mod fractions;
pub mod laws;
mod making;
mod stop;
mod tables;

pub use alg_poly::{Mono, Overrun, Poly};
pub use alg_terms::NoMemory;
pub use atoms::{Atoms, AtomsEnd, atoms_of};
pub use ends::FractionEnd;
pub use fraction_form::FractionForm;
pub use fractions::{has_char0, reify_sides};
pub use making::reify;
pub use stop::Stop;
pub use tables::goal_table;
