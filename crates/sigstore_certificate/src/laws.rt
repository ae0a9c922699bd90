// Laws of the definitions. A call does nothing.
ghost use Rattle.sigstore_certificate.specs.Cause.{Refusals, WrittenUnlessLong};
ghost use Rattle.sigstore_certificate.specs.IsCertified.{CertifiedExactly, GoodExactly};
ghost use Rattle.sigstore_certificate.specs.OneSct.{OneAlone};

use x509_views::precertificate_is_there;

/// The law of certificates: the judgement accepts exactly those that are to be accepted, told without any order of
/// checks, each check dropped by its waiver.
pub fn certified_exactly()
    ensures { CertifiedExactly }
{}

/// The law of timestamps: one of a log of certificates counts exactly where it is good: its scheme, its log's key, the
/// time at which that is used, and its signature.
pub fn good_exactly()
    ensures { GoodExactly }
{}

/// The law of one timestamp: a certificate with one, of which one log is asked, is judged by that timestamp alone: its
/// scheme, its log's key and its signature, each with the refusal of a check of its own.
pub fn one_sct_alone()
    ensures { OneAlone }
{}

/// The law of refusals: the judgement refuses only where the cause of its refusal holds, told without any order of
/// checks.
pub fn refusals_have_causes()
    ensures { Refusals }
{}

/// The law of what a log signs: for a certificate that was read it is there, unless the certificate's signed part
/// without its timestamps has 2^24 octets or more.
pub fn sct_is_written()
    ensures { WrittenUnlessLong }
{
    precertificate_is_there();
}
