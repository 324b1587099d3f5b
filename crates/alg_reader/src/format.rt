//! The two formats of certificates.

/// How the lines and steps of a certificate are written. The second format leaves out monomials and
/// divisors that are 1.
#[derive(Clone, Copy, PartialEq, Eq, Debug)]
pub enum Format {
    One,
    Two,
}
