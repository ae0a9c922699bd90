// Certificates that were read once.
ghost use Rattle.std.specs.Prelude.{◌≡◌, IfOk, IfErr, Ok, Err, option_copied};
ghost use Rattle.x509_views.specs.Certificates.{certificate_of};
ghost use Rattle.spki_core.specs.Reading.{Reading};
ghost use Rattle.spki_core.specs.Spki.{spki_view_of};
ghost use Rattle.x509_views.specs.Views.{certificate_parts};
ghost use Rattle.path_core.specs.Anchors.{TrustAnchor, opens};
ghost use Rattle.path_core.specs.Links.{spki_of};
ghost use Rattle.path_core.specs.Seen.{IsKey, AreFacts, IsSeen};
ghost use Rattle.path_core.specs.Traits.{leaf_of, fits};

use crate::anchor::{Anchor, is_since_1970};
use crate::error::LeafFault;
use crate::purpose::Purpose;
use crate::traits::{Traits, read_traits};
use foundation::NoMemory;
use jiff::Timestamp;
use sigstore_types_parts::{DerCertificate, TimeRange};
use std::alloc::Global;
use std::marker::Model;
use x509_views::{CertView, SpkiView, X509Error};

/// What was read of a certificate.
#[derive(Drop)]
pub(crate) struct Facts<'a> {
    pub(crate) view: CertView<'a>,
    pub(crate) traits: Traits,
    pub(crate) key: Option<SpkiView<'a>>,
}

/// A certificate's bytes with what was read of them; contracts see the bytes.
#[derive(Drop)]
pub(crate) struct Seen<'a> {
    bytes: &'a [u8],
    facts: Option<Facts<'a>>,
}

impl<'a> Model for Seen<'a> {
    ghost use Rattle.std.specs.Prelude.{ℕ, List};
    ghost use Rattle.x509_views.specs.Certificates.{certificate_of};
    ghost use Rattle.path_core.specs.Seen.{IsSeen};

    ghost Value = { List ℕ };

    ghost view = { λ s. s.bytes.now };

    ghost invariant = { λ s. IsSeen (certificate_of s.bytes.now) s.facts };
}

fn key_of<'a>(certificate: &CertView<'a>) -> Option<SpkiView<'a>>
    ensures { IsKey (spki_view_of certificate.now.spki.now) result }
{
    match SpkiView::parse(certificate.spki) {
        Ok(key) => Some(key),
        Err(_) => None,
    }
}

fn facts_of<'a>(alloc: Global, view: CertView<'a>) -> Result<Facts<'a>, NoMemory>
    ensures { IfOk result (AreFacts (certificate_parts view.entry)) }
{
    let traits = read_traits(alloc, &view)?;
    let key = key_of(&view);
    Ok(Facts { view, traits, key })
}

/// Reads a certificate.
pub(crate) fn read<'a>(alloc: Global, bytes: &'a [u8]) -> Result<Seen<'a>, NoMemory>
    ensures { IfOk result (λ seen. seen ≡ bytes.now) }
{
    match CertView::parse_in(alloc, bytes) {
        Ok(view) => Ok(Seen {
            bytes,
            facts: Some(facts_of(alloc, view)?),
        }),
        Err(X509Error::NoMemory) => Err(NoMemory),
        Err(_) => Ok(Seen { bytes, facts: None }),
    }
}

/// Reads certificates.
pub(crate) fn read_each<'a>(
    alloc: Global,
    certificates: &'a [DerCertificate],
) -> Result<Vec<Seen<'a>>, NoMemory>
    ensures { IfOk result (λ seen. seen.items ≡ certificates.now) }
{
    let mut seen = Vec::new(alloc);
    'certificates: for certificate in certificates {
        seen.push(read(alloc, certificate.as_bytes())?)?;
    }
    Ok(seen)
}

impl<'a> Seen<'a> {
    /// What was read; None where the bytes are no certificate.
    pub(crate) fn facts(&self) -> Option<&Facts<'a>>
        ensures { IsSeen (certificate_of self.now) (option_copied result) }
    {
        self.facts.as_ref()
    }

    /// Whether it is a leaf's, or the first property that it lacks.
    #[tactic(auto, unfolding(crate::specs::Traits::leaf_of))]
    pub(crate) fn judge_leaf(&self, purpose: Purpose) -> Result<(), LeafFault>
        ensures { result ≡ leaf_of purpose self.now }
    {
        match &self.facts {
            Some(facts) => facts.traits.judge_leaf(purpose),
            None => Err(LeafFault::Unreadable),
        }
    }

    /// Whether it is an intermediate's that may stand above so many others.
    #[tactic(auto, unfolding(crate::specs::Traits::fits))]
    pub(crate) fn is_fit(&self, purpose: Purpose, at: Timestamp, below: u8) -> bool
        ensures { result ≡ fits purpose at below self.now }
    {
        match &self.facts {
            Some(facts) => facts.traits.issues(purpose, at, below),
            None => false,
        }
    }

    /// Its key as it is encoded; nothing where the bytes are no certificate.
    #[tactic(auto, unfolding(crate::specs::Links::spki_of))]
    pub(crate) fn spki(&self) -> &'a [u8]
        ensures { result.now ≡ spki_of self.now }
    {
        match &self.facts {
            Some(facts) => facts.view.spki,
            None => &[],
        }
    }
}

/// An anchor whose certificate was read once; contracts see the anchor.
#[derive(Drop)]
pub(crate) struct SeenAnchor<'a> {
    certificate: Seen<'a>,
    valid_for: Option<TimeRange>,
}

impl<'a> Model for SeenAnchor<'a> {
    ghost use Rattle.path_core.specs.Anchors.{TrustAnchor};

    ghost Value = { TrustAnchor };

    ghost view = { λ a. record { certificate = a.certificate; valid_for = a.valid_for } };
}

fn read_anchor<'a>(alloc: Global, anchor: &'a Anchor) -> Result<SeenAnchor<'a>, NoMemory>
    ensures { IfOk result (λ seen. seen ≡ anchor.now) }
{
    Ok(SeenAnchor {
        certificate: read(alloc, anchor.certificate().as_bytes())?,
        valid_for: anchor.valid_for(),
    })
}

/// Reads the certificates of anchors.
pub(crate) fn read_anchors<'a>(
    alloc: Global,
    anchors: &'a [Anchor],
) -> Result<Vec<SeenAnchor<'a>>, NoMemory>
    ensures { IfOk result (λ seen. seen.items ≡ anchors.now) }
{
    let mut seen = Vec::new(alloc);
    'anchors: for anchor in anchors {
        seen.push(read_anchor(alloc, anchor)?)?;
    }
    Ok(seen)
}

impl<'a> SeenAnchor<'a> {
    /// The certificate.
    pub(crate) fn certificate(&self) -> &Seen<'a>
        ensures { result.now ≡ self.now.certificate }
    {
        &self.certificate
    }

    /// Whether a moment isn't before 1970 and the window has it. Without the window an authority that is
    /// no longer trusted could issue for later moments.
    #[tactic(auto, unfolding(crate::specs::Anchors::opens))]
    pub(crate) fn is_open(&self, at: Timestamp) -> bool
        ensures { result ≡ opens at self.now }
    {
        if !is_since_1970(at) {
            return false;
        }
        match self.valid_for {
            Some(window) => window.contains(at),
            None => true,
        }
    }
}
