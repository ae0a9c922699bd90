// What a bundle is verified with: a certificate, a chain of them or a public key, of which it tells at most a hint;
// entries of logs; and time-stamp tokens.
ghost use Rattle.std.specs.Prelude.{◌≡◌, ◌≢◌, Ok, Err, IfOk, IfErr};
ghost use Rattle.serde_json.specs.View.{view};
ghost use Rattle.sigstore_types.specs.Bundle.{hint_of, certificate_of, signing_chain_of, one_material_of, material_content_of, token_list_of, or_no_tokens, tokens_of, or_none, material_of};

use crate::authority::Chain;
use crate::held::each_held;
use foundation::{Duplicate, NoMemory, Sequence};
use serde_json::Value;
use sigstore_entries::{TransparencyLogEntry, list};
use sigstore_types_parts::{
    DerCertificate, FromValue, Text, TimestampToken, TypesError, TypesMember, optional, required,
};
use std::alloc::Global;

/// What a bundle is verified with.
#[derive(PartialEq, Drop)]
pub struct VerificationMaterial {
    pub content: VerificationMaterialContent,
    /// Where the signature was logged.
    pub tlog_entries: Sequence<TransparencyLogEntry>,
    /// When it was there, by authorities that stamp times (RFC 3161).
    pub rfc3161_timestamps: Sequence<TimestampToken>,
}

/// Whose signature a bundle has.
#[derive(PartialEq, Drop)]
pub enum VerificationMaterialContent {
    /// The signer's certificate.
    Certificate(DerCertificate),
    /// The signer's certificate first, behind it those that vouch for it.
    X509CertificateChain(Sequence<DerCertificate>),
    /// A key that is known elsewhere.
    PublicKey { hint: Option<Text> },
}

impl Duplicate for VerificationMaterial {
    fn duplicate(&self, alloc: Global) -> Result<VerificationMaterial, NoMemory> {
        Ok(VerificationMaterial {
            content: self.content.duplicate(alloc)?,
            tlog_entries: self.tlog_entries.duplicate(alloc)?,
            rfc3161_timestamps: self.rfc3161_timestamps.duplicate(alloc)?,
        })
    }
}

impl Duplicate for VerificationMaterialContent {
    fn duplicate(&self, alloc: Global) -> Result<VerificationMaterialContent, NoMemory> {
        match self {
            VerificationMaterialContent::Certificate(certificate) => {
                Ok(VerificationMaterialContent::Certificate(certificate.duplicate(alloc)?))
            }
            VerificationMaterialContent::X509CertificateChain(chain) => {
                Ok(VerificationMaterialContent::X509CertificateChain(chain.duplicate(alloc)?))
            }
            VerificationMaterialContent::PublicKey { hint } => {
                Ok(VerificationMaterialContent::PublicKey {
                    hint: hint.duplicate(alloc)?,
                })
            }
        }
    }
}

// A public key as the material tells it.
#[derive(Drop)]
struct Hint {
    hint: Option<Text>,
}

impl FromValue<TypesError> for Hint {
    ghost reads = { hint_of };

    #[tactic(auto, unfolding(crate::specs::Bundle::hint_of))]
    fn from_value(alloc: Global, value: &Value) -> Result<Hint, TypesError> {
        Ok(Hint {
            hint: optional(alloc, value, TypesMember::Hint)?,
        })
    }
}

// Time-stamp tokens, each in an object of its own.
#[derive(Drop)]
struct TokenList {
    list: Sequence<TimestampToken>,
}

impl FromValue<TypesError> for TokenList {
    ghost reads = { token_list_of };

    #[tactic(auto, unfolding(crate::specs::Bundle::token_list_of))]
    fn from_value(alloc: Global, value: &Value) -> Result<TokenList, TypesError> {
        Ok(TokenList {
            list: each_held(alloc, value, TypesMember::SignedTimestamp)?,
        })
    }
}

// The tokens that the material tells.
#[derive(Drop)]
struct Tokens {
    list: Sequence<TimestampToken>,
}

fn or_no_tokens(alloc: Global, tokens: Option<TokenList>) -> Sequence<TimestampToken>
    ensures { result ≡ or_no_tokens tokens }
{
    match tokens {
        Some(tokens) => tokens.list,
        None => Sequence::new(alloc),
    }
}

impl FromValue<TypesError> for Tokens {
    ghost reads = { tokens_of };

    #[tactic(auto, unfolding(crate::specs::Bundle::tokens_of))]
    fn from_value(alloc: Global, value: &Value) -> Result<Tokens, TypesError> {
        let list: Option<TokenList> = optional(alloc, value, TypesMember::Rfc3161Timestamps)?;
        Ok(Tokens {
            list: or_no_tokens(alloc, list),
        })
    }
}

// The tokens of a material that may tell none.
fn or_none(alloc: Global, tokens: Option<Tokens>) -> Sequence<TimestampToken>
    ensures { result ≡ or_none tokens }
{
    match tokens {
        Some(tokens) => tokens.list,
        None => Sequence::new(alloc),
    }
}

// A certificate without a chain.
#[derive(Drop)]
struct SigningCertificate {
    certificate: DerCertificate,
}

impl FromValue<TypesError> for SigningCertificate {
    ghost reads = { certificate_of };

    #[tactic(auto, unfolding(crate::specs::Bundle::certificate_of))]
    fn from_value(alloc: Global, value: &Value) -> Result<SigningCertificate, TypesError> {
        Ok(SigningCertificate {
            certificate: required(alloc, value, TypesMember::RawBytes)?,
        })
    }
}

// A chain of at least one certificate.
#[derive(Drop)]
struct SigningChain {
    certificates: Sequence<DerCertificate>,
}

impl FromValue<TypesError> for SigningChain {
    ghost reads = { signing_chain_of };

    #[tactic(auto, unfolding(crate::specs::Bundle::signing_chain_of))]
    fn from_value(alloc: Global, value: &Value) -> Result<SigningChain, TypesError> {
        let chain = Chain::from_value(alloc, value)?;
        if chain.certificates.is_empty() {
            return Err(TypesError::Field {
                member: TypesMember::Certificates,
            });
        }
        Ok(SigningChain {
            certificates: chain.certificates,
        })
    }
}

// The only one of a certificate, a chain and a public key. With two of them it would be open whose signature is judged.
fn one_material(
    single: Option<SigningCertificate>,
    chain: Option<SigningChain>,
    key: Option<Hint>,
) -> Result<VerificationMaterialContent, TypesError>
    ensures { result ≡ one_material_of single chain key }
{
    match (single, chain, key) {
        (Some(single), None, None) => {
            Ok(VerificationMaterialContent::Certificate(single.certificate))
        }
        (None, Some(chain), None) => {
            Ok(VerificationMaterialContent::X509CertificateChain(chain.certificates))
        }
        (None, None, Some(key)) => Ok(VerificationMaterialContent::PublicKey { hint: key.hint }),
        _ => Err(TypesError::Json),
    }
}

// Exactly one of a certificate, a chain and a public key.
#[tactic(auto, unfolding(crate::specs::Bundle::material_content_of))]
fn read_content(alloc: Global, value: &Value) -> Result<VerificationMaterialContent, TypesError>
    ensures ok { IfOk result (λ v. material_content_of (view value.now) ≡ Ok v) }
    ensures err { IfErr result (λ e. e ≢ TypesError.NoMemory → material_content_of (view value.now) ≡ Err e) }
{
    let single = optional(alloc, value, TypesMember::Certificate)?;
    let chain = optional(alloc, value, TypesMember::X509CertificateChain)?;
    let key = optional(alloc, value, TypesMember::PublicKey)?;
    Ok(one_material(single, chain, key)?)
}

impl FromValue<TypesError> for VerificationMaterial {
    ghost reads = { material_of };

    #[tactic(auto, unfolding(crate::specs::Bundle::material_of))]
    fn from_value(alloc: Global, value: &Value) -> Result<VerificationMaterial, TypesError> {
        let content = read_content(alloc, value)?;
        let tlog_entries = list::<TransparencyLogEntry>(alloc, value, TypesMember::TlogEntries)?;
        let tokens: Option<Tokens> = optional(
            alloc,
            value,
            TypesMember::TimestampVerificationData,
        )?;
        Ok(VerificationMaterial {
            content,
            tlog_entries,
            rfc3161_timestamps: or_none(alloc, tokens),
        })
    }
}
