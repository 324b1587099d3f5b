//! What holds of the verdicts by nsatz. The functions do nothing: their contracts are the laws.

ghost use Rattle.alg_check.specs.Certificates.{CertificatesHold};
ghost use Rattle.alg_nsatz.specs.Laws.{OneNsatzVerdict, ProvedIsAccepted, ProvedIsRight, ProvedIsWithin};

use alg_universe::Universe;

/// A goal has at most one verdict by nsatz.
pub fn one_nsatz_verdict()
    ensures { OneNsatzVerdict }
{
    alg_groebner::laws::one_end();
}

/// The certificate of a verdict Proved has numbers and monomials within the limits, over the atoms of
/// the goal's table, and its constants are within the limit on norms.
pub fn proved_is_within()
    ensures { ProvedIsWithin }
{
    alg_groebner::laws::certificates_are_within();
}

/// Where a certificate is good and the hypotheses are zero at elements of a domain or a field, and none
/// of the certificate's constants is zero there, the goal is zero. In characteristic 0 a certificate
/// has no constants.
pub fn certificates<U: Universe>()
    ensures { CertificatesHold U.Universe }
{
    alg_check::laws::certificates::<U>();
}

/// A goal by nsatz of a valid file whose verdict is Proved is right in every universe: where its used
/// hypotheses hold and none of the constants is zero, its sides are equal.
pub fn proved_is_right<U: Universe>()
    ensures { ProvedIsRight U.Universe }
{
    alg_check::laws::certified_is_right::<U>();
    alg_groebner::laws::certificates_are_good();
}

/// A goal of a valid file whose verdict is Proved is reported proved, where its certificate and its
/// constants are its answer.
pub fn proved_is_accepted()
    ensures { ProvedIsAccepted }
{
    alg_groebner::laws::certificates_are_good();
    alg_groebner::laws::powers_are_sought();
}
