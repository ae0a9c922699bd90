// What is asked of a signing certificate.
ghost use Rattle.std.specs.Prelude.{◌≡◌, [], ◌∷◌, ◌++◌, max, false, Some, IfOk, OnOk, option_copied};
ghost use Rattle.std.specs.Int.NonZero.{non_zero_u8_get};
ghost use Rattle.sigstore_policy.specs.declared.certificate.CertificatePolicy.TheVariants.{Skip};
ghost use Rattle.sigstore_policy.specs.declared.certificate.IdentityMatcher.TheVariants.{Exact};
ghost use Rattle.sigstore_policy.specs.Certificate.{matcher_of, matches, shown, verifies_chain, verifies_sct, without_sct, bare};

use crate::conditions::SignatureConditions;
use crate::matcher::ClaimMatcher;
use crate::pattern::matches_like;
use certificate_claims::SubjectAltName;
use foundation::{Duplicate, NoMemory, Sequence};
use sigstore_keys::Threshold;
use sigstore_types_parts::Text;
use std::alloc::Global;
use std::fmt;
use std::num::NonZeroU8;

/// An identity that is asked for.
#[derive(Debug, PartialEq, Eq, Drop)]
pub enum IdentityMatcher {
    /// The text of an identity of either sort.
    Exact(Text),
    /// A mail address.
    Email(Text),
    /// A uniform resource identifier.
    Uri(Text),
    /// A mail address of that pattern.
    EmailLike(Text),
    /// A uniform resource identifier of that pattern.
    UriLike(Text),
}

/// What of a certificate is verified.
#[derive(Clone, Copy, Debug, PartialEq, Eq, Drop)]
pub enum CertificatePolicy {
    /// Neither its path, nor its window, nor its timestamp: whoever writes a certificate can put any name into it.
    Skip,
    /// Its path and its window, and the timestamp of a log of certificates, where that is asked for.
    Verify { verify_sct: bool },
}

/// What is asked of a certificate, and whether the transparency log is verified.
#[derive(PartialEq, Drop)]
pub struct VerificationPolicy {
    /// Whom it has to name; without one it may name anyone.
    pub identity: Option<IdentityMatcher>,
    /// Who has to have vouched for the identity; without one it may be anyone.
    pub issuer: Option<Text>,
    /// What it has to claim of the run that built; each name stands once.
    pub claims: Sequence<ClaimMatcher>,
    /// It is said on purpose that anyone may have signed. No check looks at it.
    pub anyone: bool,
    /// Whether the transparency log is verified.
    pub verify_tlog: bool,
    /// What of the certificate is verified.
    pub certificate: CertificatePolicy,
    /// How many different logs of certificates have to have promised it, where that is verified.
    pub scts: Threshold,
    /// How many different transparency logs the entries have to stand in, where the log is verified.
    pub logs: Threshold,
    /// What is asked of the signature beside who made it.
    pub conditions: SignatureConditions,
}

impl Duplicate for IdentityMatcher {
    fn duplicate(&self, alloc: Global) -> Result<IdentityMatcher, NoMemory> {
        match self {
            IdentityMatcher::Exact(text) => Ok(IdentityMatcher::Exact(text.duplicate(alloc)?)),
            IdentityMatcher::Email(text) => Ok(IdentityMatcher::Email(text.duplicate(alloc)?)),
            IdentityMatcher::Uri(text) => Ok(IdentityMatcher::Uri(text.duplicate(alloc)?)),
            IdentityMatcher::EmailLike(pattern) => {
                Ok(IdentityMatcher::EmailLike(pattern.duplicate(alloc)?))
            }
            IdentityMatcher::UriLike(pattern) => {
                Ok(IdentityMatcher::UriLike(pattern.duplicate(alloc)?))
            }
        }
    }
}

impl From<Text> for IdentityMatcher {
    ghost from_gives = { λ text matcher. matcher ≡ Exact text };

    fn from(text: Text) -> IdentityMatcher {
        IdentityMatcher::Exact(text)
    }
}

impl From<SubjectAltName> for IdentityMatcher {
    ghost from_gives = { λ name matcher. matcher ≡ matcher_of name };

    fn from(name: SubjectAltName) -> IdentityMatcher {
        match name {
            SubjectAltName::Email(text) => IdentityMatcher::Email(text),
            SubjectAltName::Uri(text) => IdentityMatcher::Uri(text),
        }
    }
}

impl fmt::Display for IdentityMatcher {
    ghost output = { λ matcher. Some (shown matcher) };

    fn fmt<W: fmt::Write>(&self, f: &mut fmt::Formatter<W>) -> fmt::Result {
        match self {
            IdentityMatcher::Exact(text) => fmt::Display::fmt(text, f),
            IdentityMatcher::Email(text) => write!(f, "email {text}"),
            IdentityMatcher::Uri(text) => write!(f, "URI {text}"),
            IdentityMatcher::EmailLike(pattern) => write!(f, "email like {pattern}"),
            IdentityMatcher::UriLike(pattern) => write!(f, "URI like {pattern}"),
        }
    }
}

impl IdentityMatcher {
    /// Whether an identity is one that is asked for: the texts are equal octet by octet, or the whole identity is of the
    /// pattern, and it is of the sort that is asked for, where one is.
    pub fn matches(&self, alloc: Global, identity: &SubjectAltName) -> Result<bool, NoMemory>
        ensures { IfOk result (λ b. b ≡ matches self.now identity.now) }
    {
        match (self, identity) {
            (IdentityMatcher::Exact(text), SubjectAltName::Email(actual)) => Ok(text == actual),
            (IdentityMatcher::Exact(text), SubjectAltName::Uri(actual)) => Ok(text == actual),
            (IdentityMatcher::Email(text), SubjectAltName::Email(actual)) => Ok(text == actual),
            (IdentityMatcher::Uri(text), SubjectAltName::Uri(actual)) => Ok(text == actual),
            (IdentityMatcher::EmailLike(pattern), SubjectAltName::Email(actual)) => {
                matches_like(alloc, pattern.as_str(), actual.as_str())
            }
            (IdentityMatcher::UriLike(pattern), SubjectAltName::Uri(actual)) => {
                matches_like(alloc, pattern.as_str(), actual.as_str())
            }
            _ => Ok(false),
        }
    }
}

impl CertificatePolicy {
    /// Whether the path and the window are verified.
    pub fn verifies_chain(&self) -> bool
        ensures { result ≡ verifies_chain self.now }
    {
        match self {
            CertificatePolicy::Skip => false,
            CertificatePolicy::Verify { .. } => true,
        }
    }

    /// Whether the timestamp of a log of certificates is verified.
    pub fn verifies_sct(&self) -> bool
        ensures { result ≡ verifies_sct self.now }
    {
        match self {
            CertificatePolicy::Skip => false,
            CertificatePolicy::Verify { verify_sct } => *verify_sct,
        }
    }

    /// The same without that timestamp; what verifies no path stays so.
    pub fn without_sct(self) -> CertificatePolicy
        ensures { result ≡ without_sct self }
    {
        match self {
            CertificatePolicy::Skip => CertificatePolicy::Skip,
            CertificatePolicy::Verify { .. } => CertificatePolicy::Verify { verify_sct: false },
        }
    }
}

impl Duplicate for VerificationPolicy {
    fn duplicate(&self, alloc: Global) -> Result<VerificationPolicy, NoMemory> {
        Ok(VerificationPolicy {
            identity: self.identity.duplicate(alloc)?,
            issuer: self.issuer.duplicate(alloc)?,
            claims: self.claims.duplicate(alloc)?,
            anyone: self.anyone,
            verify_tlog: self.verify_tlog,
            certificate: self.certificate,
            scts: self.scts,
            logs: self.logs,
            conditions: self.conditions.duplicate(alloc)?,
        })
    }
}

// As it would be derived, where a sequence had a Debug text.
impl fmt::Debug for VerificationPolicy {
    fn fmt<W: fmt::Write>(&self, f: &mut fmt::Formatter<W>) -> fmt::Result {
        f.debug_struct("VerificationPolicy")
            .field("identity", &self.identity)
            .field("issuer", &self.issuer)
            .field("claims", &self.claims.as_slice())
            .field("anyone", &self.anyone)
            .field("verify_tlog", &self.verify_tlog)
            .field("certificate", &self.certificate)
            .field("scts", &self.scts)
            .field("logs", &self.logs)
            .field("conditions", &self.conditions)
            .finish()
    }
}

impl VerificationPolicy {
    /// A policy that asks for an identity and its issuer, and verifies all.
    pub fn new(alloc: Global, identity: IdentityMatcher, issuer: Text) -> VerificationPolicy
        ensures { result ≡ record bare { identity = Some identity; issuer = Some issuer } }
    {
        VerificationPolicy::any_identity(alloc)
            .require_identity(identity)
            .require_issuer(issuer)
    }

    /// A policy that asks for no name, and verifies all else; takes no memory.
    pub fn any_identity(alloc: Global) -> VerificationPolicy
        ensures { result ≡ bare }
    {
        VerificationPolicy {
            identity: None,
            issuer: None,
            claims: Sequence::new(alloc),
            anyone: false,
            verify_tlog: true,
            certificate: CertificatePolicy::Verify { verify_sct: true },
            scts: Threshold::one(),
            logs: Threshold::one(),
            conditions: SignatureConditions::none(),
        }
    }

    /// The same policy with an identity that is asked for.
    pub fn require_identity(self, identity: IdentityMatcher) -> VerificationPolicy
        ensures { result ≡ record self { identity = Some identity } }
    {
        VerificationPolicy {
            identity: Some(identity),
            ..self
        }
    }

    /// The same policy with an issuer that is asked for.
    pub fn require_issuer(self, issuer: Text) -> VerificationPolicy
        ensures { result ≡ record self { issuer = Some issuer } }
    {
        VerificationPolicy {
            issuer: Some(issuer),
            ..self
        }
    }

    /// Asks for one claim more.
    pub fn require_claim(&mut self, claim: ClaimMatcher) -> Result<(), NoMemory>
        ensures { OnOk result (self.new ≡ record self.old { claims = self.old.claims ++ claim ∷ [] }) }
    {
        self.claims.push(claim)?;
        Ok(())
    }

    /// The same policy with what is asked of the signature beside who made it.
    pub fn with_conditions(self, conditions: SignatureConditions) -> VerificationPolicy
        ensures { result ≡ record self { conditions = conditions } }
    {
        VerificationPolicy { conditions, ..self }
    }

    /// The same policy without the transparency log, so that a signature may never have been logged.
    pub fn skip_tlog_unsafe(self) -> VerificationPolicy
        ensures { result ≡ record self { verify_tlog = false } }
    {
        VerificationPolicy {
            verify_tlog: false,
            ..self
        }
    }

    /// The same policy without the certificate's path, window and timestamp; the names are still asked for.
    pub fn skip_certificate_chain(self) -> VerificationPolicy
        ensures { result ≡ record self { certificate = Skip } }
    {
        VerificationPolicy {
            certificate: CertificatePolicy::Skip,
            ..self
        }
    }

    /// The same policy without the timestamp of a log of certificates; one that verifies no path stays so.
    pub fn skip_sct(self) -> VerificationPolicy
        ensures { result ≡ record self { certificate = without_sct self.certificate } }
    {
        VerificationPolicy {
            certificate: self.certificate.without_sct(),
            ..self
        }
    }

    /// The same policy with a number of different logs of certificates that have to have promised the certificate; where
    /// that isn't verified, none has to.
    pub fn require_scts(self, count: NonZeroU8) -> VerificationPolicy
        ensures { result ≡ record self { scts = record { value = non_zero_u8_get count } } }
    {
        VerificationPolicy {
            scts: Threshold::new(count),
            ..self
        }
    }

    /// The same policy with a number of different transparency logs in which the entries have to stand; where the log
    /// isn't verified, none has to.
    pub fn require_logs(self, count: NonZeroU8) -> VerificationPolicy
        ensures { result ≡ record self { logs = record { value = non_zero_u8_get count } } }
    {
        VerificationPolicy {
            logs: Threshold::new(count),
            ..self
        }
    }

    /// The identity that is asked for.
    pub fn identity(&self) -> Option<&IdentityMatcher>
        ensures { option_copied result ≡ self.now.identity }
    {
        self.identity.as_ref()
    }

    /// The issuer that is asked for.
    pub fn issuer(&self) -> Option<&str>
        ensures { option_copied result ≡ self.now.issuer }
    {
        match &self.issuer {
            Some(issuer) => Some(issuer.as_str()),
            None => None,
        }
    }

    /// Whether the transparency log is verified.
    pub fn verifies_tlog(&self) -> bool
        ensures { result ≡ self.now.verify_tlog }
    {
        self.verify_tlog
    }

    /// What of the certificate is verified.
    pub fn certificate(&self) -> &CertificatePolicy
        ensures { result.now ≡ self.now.certificate }
    {
        &self.certificate
    }

    /// How many different logs of certificates have to have promised the certificate, where that is verified.
    pub fn scts(&self) -> NonZeroU8
        ensures { non_zero_u8_get result ≡ max 1 self.now.scts.value }
    {
        self.scts.get()
    }

    /// How many different transparency logs the entries have to stand in, where the log is verified.
    pub fn logs(&self) -> NonZeroU8
        ensures { non_zero_u8_get result ≡ max 1 self.now.logs.value }
    {
        self.logs.get()
    }
}
