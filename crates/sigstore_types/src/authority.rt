// Authorities of a trust file.
ghost use Rattle.std.specs.Prelude.{◌≡◌, ◌≢◌, Ok, Err, IfOk, IfErr};
ghost use Rattle.serde_json.specs.View.{view};
ghost use Rattle.sigstore_types.specs.TrustedRoot.{certificates_of, chain_of, authority_of, root_in, stamping_with, stamping_of};

use crate::held::each_held;
use crate::valid_for::{ValidFor, window};
use foundation::{Duplicate, NoMemory, Sequence};
use serde_json::Value;
use sigstore_types_parts::{
    DerCertificate, FromValue, TimeRange, TypesError, TypesMember, optional, required,
};
use std::alloc::Global;

/// An authority that is trusted, by a chain of certificates.
#[derive(PartialEq, Drop)]
pub struct Authority {
    /// The leaf first, the root last; a chain of one certificate is both.
    pub certificates: Sequence<DerCertificate>,
    /// When it is trusted; without it always.
    pub valid_for: Option<TimeRange>,
}

impl Duplicate for Authority {
    fn duplicate(&self, alloc: Global) -> Result<Authority, NoMemory> {
        Ok(Authority {
            certificates: self.certificates.duplicate(alloc)?,
            valid_for: self.valid_for,
        })
    }
}

// Certificates of a chain.
#[derive(Drop)]
struct Certificates {
    list: Sequence<DerCertificate>,
}

impl FromValue<TypesError> for Certificates {
    ghost reads = { certificates_of };

    #[tactic(auto, unfolding(crate::specs::TrustedRoot::certificates_of))]
    fn from_value(alloc: Global, value: &Value) -> Result<Certificates, TypesError> {
        Ok(Certificates {
            list: each_held(alloc, value, TypesMember::RawBytes)?,
        })
    }
}

// A chain of certificates.
#[derive(Drop)]
pub(crate) struct Chain {
    pub(crate) certificates: Sequence<DerCertificate>,
}

impl FromValue<TypesError> for Chain {
    ghost reads = { chain_of };

    #[tactic(auto, unfolding(crate::specs::TrustedRoot::chain_of))]
    fn from_value(alloc: Global, value: &Value) -> Result<Chain, TypesError> {
        let certificates: Option<Certificates> = optional(alloc, value, TypesMember::Certificates)?;
        match certificates {
            Some(certificates) => Ok(Chain {
                certificates: certificates.list,
            }),
            None => Ok(Chain {
                certificates: Sequence::new(alloc),
            }),
        }
    }
}

impl FromValue<TypesError> for Authority {
    ghost reads = { authority_of };

    #[tactic(auto, unfolding(crate::specs::TrustedRoot::authority_of))]
    fn from_value(alloc: Global, value: &Value) -> Result<Authority, TypesError> {
        let chain: Chain = required(alloc, value, TypesMember::CertChain)?;
        let valid_for: Option<ValidFor> = optional(alloc, value, TypesMember::ValidFor)?;
        Ok(Authority {
            certificates: chain.certificates,
            valid_for: window(valid_for),
        })
    }
}

/// An authority that stamps times, by its own certificate and those that vouch for it.
#[derive(PartialEq, Drop)]
pub struct TsaAuthority {
    /// The certificate under whose key it stamps.
    pub leaf: DerCertificate,
    /// Those between the leaf and the root.
    pub intermediates: Sequence<DerCertificate>,
    /// The last of the chain; a chain of one certificate is leaf and root.
    pub root: DerCertificate,
    /// When it is trusted; without it always.
    pub valid_for: Option<TimeRange>,
}

impl Duplicate for TsaAuthority {
    fn duplicate(&self, alloc: Global) -> Result<TsaAuthority, NoMemory> {
        Ok(TsaAuthority {
            leaf: self.leaf.duplicate(alloc)?,
            intermediates: self.intermediates.duplicate(alloc)?,
            root: self.root.duplicate(alloc)?,
            valid_for: self.valid_for,
        })
    }
}

fn copies(
    alloc: Global,
    certificates: &[DerCertificate],
) -> Result<Sequence<DerCertificate>, NoMemory>
    ensures { IfOk result (λ s. s ≡ certificates.now) }
{
    let mut copies = Sequence::new(alloc);
    'certificates: for certificate in certificates {
        copies.push(certificate.duplicate(alloc)?)?;
    }
    Ok(copies)
}

// The last certificate is the root, where there is one behind the leaf, and else the leaf itself.
fn root_in<'a>(leaf: &'a DerCertificate, last: &'a [DerCertificate]) -> &'a DerCertificate
    ensures { result.now ≡ root_in leaf.now last.now }
{
    match last {
        [] => leaf,
        [root, ..] => root,
    }
}

// The authority of a chain that begins with this leaf.
#[tactic(auto, unfolding(crate::specs::TrustedRoot::stamping_with))]
fn stamping_with(
    alloc: Global,
    leaf: &DerCertificate,
    behind: &[DerCertificate],
    valid_for: Option<TimeRange>,
) -> Result<TsaAuthority, NoMemory>
    ensures { IfOk result (λ authority. authority ≡ stamping_with leaf.now behind.now valid_for) }
{
    let (between, last) = behind.split_at(behind.len().saturating_sub(1));
    Ok(TsaAuthority {
        leaf: leaf.duplicate(alloc)?,
        intermediates: copies(alloc, between)?,
        root: root_in(leaf, last).duplicate(alloc)?,
        valid_for,
    })
}

impl Authority {
    /// This authority as one that stamps times. Errors: `Field` of `certificates` exactly where its chain is empty.
    pub fn stamping(&self, alloc: Global) -> Result<TsaAuthority, TypesError>
        ensures ok { IfOk result (λ authority. stamping_of self.now ≡ Ok authority) }
        ensures err { IfErr result (λ e. e ≢ TypesError.NoMemory → stamping_of self.now ≡ Err e) }
    {
        match self.certificates.as_slice() {
            [] => Err(TypesError::Field {
                member: TypesMember::Certificates,
            }),
            [leaf, behind @ ..] => match stamping_with(alloc, leaf, behind, self.valid_for) {
                Ok(authority) => Ok(authority),
                Err(_) => Err(TypesError::NoMemory),
            },
        }
    }
}
