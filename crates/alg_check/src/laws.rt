//! What reports and good certificates say. The functions do nothing: their contracts are the laws.

ghost use Rattle.alg_check.specs.Certificates.{CertificatesHold};
ghost use Rattle.alg_check.specs.Laws.{CertifiedIsRight, OneAcceptance, OneReport, ProvedIsRight};

use alg_universe::Universe;

/// A certificate comes to one thing alone: it is good, has one first breach, or its power breaks one
/// rule.
pub fn one_acceptance()
    ensures { OneAcceptance }
{}

/// A goal with an answer, or with none, has one report.
pub fn one_report()
    ensures { OneReport }
{}

/// Where a certificate is good and the hypotheses are zero at elements of a domain or a field, and none
/// of the certificate's constants is zero there, the goal is zero. In characteristic 0 a certificate
/// has no constants.
pub fn certificates<U: Universe>()
    ensures { CertificatesHold U.Universe }
{}

/// A goal by nsatz of a valid file with a certificate that is good over the polynomials prepared for it
/// is right in every universe: where its used hypotheses hold and none of the certificate's constants
/// is zero, its sides are equal.
pub fn certified_is_right<U: Universe>()
    ensures { CertifiedIsRight U.Universe }
{
    alg_meaning::laws::uses::<U>();
}

/// A goal of a valid file that is reported proved is right in every universe, whoever gave its answer:
/// its sides are equal where its used hypotheses hold and so do the conditions, or the constants, that
/// are printed with the answer.
pub fn proved_is_right<U: Universe>()
    ensures { ProvedIsRight U.Universe }
{
    alg_meaning::laws::equal_numerators::<U>();
    certified_is_right::<U>();
}
