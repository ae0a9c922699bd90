// Whom a token names as its signer.
ghost use Rattle.std.specs.Prelude.{◌≡◌, ◌≢◌, ◌∷◌, [], Ok, Err, IfOk, IfErr, option_copied};
ghost use Rattle.der_grammar.specs.Grammar.{write};
ghost use Rattle.x509_views.specs.Certificates.{certificate_of};
ghost use Rattle.x509_views.specs.Extensions.{found_in};
ghost use Rattle.x509_views.specs.Views.{certificate_parts};
ghost use Rattle.sigstore_tsa.specs.Signer.{is_written, has_identifier, is_named, leaf_read, first_signer, named_of};

use cms_parts::signed_data::{SignerIdentifier, SignerInfo};
use der_core::{Der, DerError, ObjectIdentifier};
use foundation::NoMemory;
use sigstore_tsa_parts::{Error, SignatureRule};
use std::alloc::Global;
use x509_core::SubjectKeyIdentifier;
use x509_views::{CertView, X509Error};

// Whether octets are what a value is written as.
fn is_written<T: Der>(alloc: Global, value: &T, octets: &[u8]) -> Result<bool, NoMemory>
    ensures { IfOk result (λ same. same ≡ is_written (write T.grammar value.now) octets.now) }
{
    match value.to_der(alloc) {
        Ok(encoding) => Ok(encoding.as_bytes() == octets),
        Err(DerError::NoMemory) => Err(NoMemory),
        Err(_) => Ok(false),
    }
}

// id-ce-subjectKeyIdentifier, 2.5.29.14.
#[tactic(auto, unfolding(der_core::specs::Oid::oid_of, der_core::specs::Oid::group_bytes))]
fn key_identifier() -> ObjectIdentifier
    ensures { result ≡ 0x55 ∷ 0x1d ∷ 0x0e ∷ [] }
{
    match ObjectIdentifier::from_arcs(&[2, 5, 29, 14]) {
        Ok(identifier) => identifier,
        Err(_) => unreachable!(),
    }
}

fn has_identifier(
    alloc: Global,
    id: &SubjectKeyIdentifier,
    leaf: &CertView<'_>,
) -> Result<bool, NoMemory>
    ensures { IfOk result (λ same. same ≡ has_identifier id.now (found_in (0x55 ∷ 0x1d ∷ 0x0e ∷ []) (option_copied leaf.now.extensions))) }
{
    match leaf.extension(&key_identifier()) {
        Some(extension) => is_written(alloc, id, extension.value),
        None => Ok(false),
    }
}

fn is_named(alloc: Global, sid: &SignerIdentifier, leaf: &CertView<'_>) -> Result<bool, NoMemory>
    ensures { IfOk result (λ named. named ≡ is_named sid.now (certificate_parts leaf.now)) }
{
    match sid {
        SignerIdentifier::IssuerAndSerialNumber(id) => {
            let issuer = is_written(alloc, &id.issuer, leaf.issuer)?;
            Ok(issuer && id.serial_number.as_bytes() == leaf.serial)
        }
        SignerIdentifier::SubjectKeyIdentifier(id) => has_identifier(alloc, id, leaf),
    }
}

// RFC 3161 lets only the authority sign; a later signer is passed over.
fn first_signer(signers: &[SignerInfo]) -> Result<&SignerInfo, Error>
    ensures ok { IfOk result (λ signer. first_signer signers.now ≡ Ok signer.now) }
    ensures err { IfErr result (λ e. first_signer signers.now ≡ Err e) }
{
    match signers {
        [signer, ..] => Ok(signer),
        [] => Err(Error::SignatureVerificationError(SignatureRule::NoSigner)),
    }
}

fn read_leaf<'l>(alloc: Global, leaf: &'l [u8]) -> Result<CertView<'l>, Error>
    ensures ok { IfOk result (λ view. leaf_read (certificate_of leaf.now) ≡ Ok (certificate_parts view)) }
    ensures err { IfErr result (λ e. e ≢ Error.NoMemory → leaf_read (certificate_of leaf.now) ≡ Err e) }
{
    match CertView::parse_in(alloc, leaf) {
        Ok(view) => Ok(view),
        Err(X509Error::NoMemory) => Err(Error::NoMemory),
        Err(_) => Err(Error::SignatureVerificationError(SignatureRule::Certificate)),
    }
}

/// The signer, and the authority's own certificate that it names. Errors, in order, all
/// `SignatureVerificationError`: `NoSigner`, `Certificate` where the authority's isn't read, `SignerIdentifier`
/// where another one is named: anybody whom the root ever certified could stamp else.
#[tactic(auto, unfolding(crate::specs::Signer::named_of))]
pub(crate) fn named<'s, 'l>(
    alloc: Global,
    signers: &'s [SignerInfo],
    leaf: &'l [u8],
) -> Result<(&'s SignerInfo, CertView<'l>), Error>
    ensures ok { IfOk result (λ found. named_of signers.now leaf.now ≡ Ok (found.0.now, certificate_parts found.1)) }
    ensures err { IfErr result (λ e. e ≢ Error.NoMemory → named_of signers.now leaf.now ≡ Err e) }
{
    let signer = first_signer(signers)?;
    let view = read_leaf(alloc, leaf)?;
    if is_named(alloc, &signer.sid, &view)? {
        Ok((signer, view))
    } else {
        Err(Error::SignatureVerificationError(SignatureRule::SignerIdentifier))
    }
}
