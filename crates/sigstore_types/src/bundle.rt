// A bundle.
ghost use Rattle.std.specs.Prelude.{◌≡◌, ◌≢◌, Ok, Err, IfOk, IfErr, option_copied};
ghost use Rattle.std.specs.List.{list_all};
ghost use Rattle.serde_json.specs.View.{view};
ghost use Rattle.sigstore_types.specs.Bundle.{is_media_type, media_type_of, bundle_of, bundle_of_bytes, signing_certificate_of, intermediates_of, has_proof, shown_of, structure_of};
ghost use Rattle.sigstore_types.specs.declared.material.VerificationMaterialContent.TheVariants.{X509CertificateChain};

use crate::content::{SignatureContent, read_content};
use crate::material::{VerificationMaterial, VerificationMaterialContent};
use foundation::{Duplicate, NoMemory};
use serde_json::Value;
use sigstore_entries::{TransparencyLogEntry, json};
use sigstore_types_parts::{DerCertificate, FromValue, Text, TypesError, TypesMember, required};
use std::alloc::Global;

/// A signature over an artifact with what it is verified with.
#[derive(PartialEq, Drop)]
pub struct Bundle {
    pub media_type: Text,
    pub content: SignatureContent,
    pub verification_material: VerificationMaterial,
}

impl Duplicate for Bundle {
    fn duplicate(&self, alloc: Global) -> Result<Bundle, NoMemory> {
        Ok(Bundle {
            media_type: self.media_type.duplicate(alloc)?,
            content: self.content.duplicate(alloc)?,
            verification_material: self.verification_material.duplicate(alloc)?,
        })
    }
}

fn is_media_type(name: &str) -> bool
    ensures { result ≡ is_media_type name.now }
{
    name == "application/vnd.dev.sigstore.bundle+json;version=0.1"
        || name == "application/vnd.dev.sigstore.bundle+json;version=0.2"
        || name == "application/vnd.dev.sigstore.bundle+json;version=0.3"
        || name == "application/vnd.dev.sigstore.bundle.v0.3+json"
}

#[tactic(auto, unfolding(crate::specs::Bundle::media_type_of))]
fn read_media_type(alloc: Global, value: &Value) -> Result<Text, TypesError>
    ensures ok { IfOk result (λ v. media_type_of (view value.now) ≡ Ok v) }
    ensures err { IfErr result (λ e. e ≢ TypesError.NoMemory → media_type_of (view value.now) ≡ Err e) }
{
    let name: Text = required(alloc, value, TypesMember::MediaType)?;
    if is_media_type(name.as_str()) {
        Ok(name)
    } else {
        Err(TypesError::MediaType)
    }
}

impl FromValue<TypesError> for Bundle {
    ghost reads = { bundle_of };

    #[tactic(auto, unfolding(crate::specs::Bundle::bundle_of))]
    fn from_value(alloc: Global, value: &Value) -> Result<Bundle, TypesError> {
        let media_type = read_media_type(alloc, value)?;
        let verification_material = required(alloc, value, TypesMember::VerificationMaterial)?;
        let content = read_content(alloc, value)?;
        Ok(Bundle {
            media_type,
            content,
            verification_material,
        })
    }
}

// The certificates behind the first.
fn behind(chain: &[DerCertificate]) -> &[DerCertificate]
    ensures { result.now ≡ intermediates_of (X509CertificateChain chain.now) }
{
    match chain {
        [] => &[],
        [_, others @ ..] => others,
    }
}

impl Bundle {
    /// The bundle that a JSON text is. Errors: `Json`, `Float`, then the first wrong member's in the
    /// order of the members.
    #[tactic(auto, unfolding(crate::specs::Bundle::bundle_of_bytes))]
    pub fn from_json(alloc: Global, bytes: &[u8]) -> Result<Bundle, TypesError>
        ensures ok { IfOk result (λ v. bundle_of_bytes bytes.now ≡ Ok v) }
        ensures err { IfErr result (λ e. e ≢ TypesError.NoMemory → bundle_of_bytes bytes.now ≡ Err e) }
    {
        let value = json(alloc, bytes)?;
        Ok(Bundle::from_value(alloc, &value)?)
    }

    /// The certificate whose key signed: the only one, or the first of a chain; none where the bundle has a key.
    /// The others of a chain never count as it, else one certificate could be shown for another's signature.
    pub fn signing_certificate(&self) -> Option<&DerCertificate>
        ensures { option_copied result ≡ signing_certificate_of self.now.verification_material.content }
    {
        match &self.verification_material.content {
            VerificationMaterialContent::Certificate(certificate) => Some(certificate),
            VerificationMaterialContent::X509CertificateChain(chain) => chain.as_slice().first(),
            VerificationMaterialContent::PublicKey { .. } => None,
        }
    }

    /// The certificates behind the signing one in a chain, in their order; none without a chain.
    pub fn intermediates(&self) -> &[DerCertificate]
        ensures { result.now ≡ intermediates_of self.now.verification_material.content }
    {
        match &self.verification_material.content {
            VerificationMaterialContent::X509CertificateChain(chain) => behind(chain.as_slice()),
            _ => &[],
        }
    }
}

fn has_proof(entry: &TransparencyLogEntry) -> bool
    ensures { result ≡ has_proof entry.now }
{
    entry.inclusion_proof.is_some()
}

fn have_proofs(entries: &[TransparencyLogEntry]) -> bool
    ensures { result ≡ list_all has_proof entries.now }
{
    entries.iter().all(|entry| has_proof(entry))
}

// There is an entry, and each has a proof.
#[tactic(auto, using(crate::proofs::Shown::shown, crate::proofs::Shown::unshown))]
fn check_shown(entries: &[TransparencyLogEntry]) -> Result<(), TypesError>
    ensures { result ≡ shown_of entries.now }
{
    if entries.is_empty() {
        return Err(TypesError::NoEntry);
    }
    if have_proofs(entries) {
        Ok(())
    } else {
        Err(TypesError::NoProof)
    }
}

/// Whether a bundle has what its policy needs of the log. Errors, where the log is to be verified: `NoEntry`
/// where the bundle has no entry, `NoProof` where one has no inclusion proof.
pub fn validate_structure(bundle: &Bundle, verify_tlog: bool) -> Result<(), TypesError>
    ensures { result ≡ structure_of bundle.now verify_tlog }
{
    if verify_tlog {
        return check_shown(bundle.verification_material.tlog_entries.as_slice());
    }
    Ok(())
}
