//! The tests of alg_reader, in a crate of their own, since a crate with tests is proved twice.
#![tactic(auto)]

#[cfg(test)]
mod places;
#[cfg(test)]
mod statements;
