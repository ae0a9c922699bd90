// What a certificate may be used for.
ghost use Rattle.std.specs.Prelude.{◌≡◌, ◌≢◌, IfOk, IfErr, Ok, Err, option_copied};
ghost use Rattle.std.specs.List.{list_any};
ghost use Rattle.path_core.specs.Usage.{purposes_of, is_among, usage_of, usage_in, has_purpose, allows_purpose};

use crate::purpose::Purpose;
use der_core::{DerError, ObjectIdentifier, Reader, read_each, tag};
use foundation::NoMemory;
use std::alloc::Global;

/// What extended key usage (RFC 5280, 4.2.1.12) says of a certificate.
#[derive(Clone, Copy, Drop)]
pub(crate) enum Usage {
    /// It is left out.
    Unsaid,
    /// Whether it names each purpose; neither where it isn't read.
    Only {
        code_signing: bool,
        time_stamping: bool,
    },
}

#[tactic(auto, unfolding(der_grammar::specs::Grammar::read, der_grammar::specs::Grammar::read_all))]
fn purposes_in(alloc: Global, value: &[u8]) -> Result<Vec<ObjectIdentifier>, DerError>
    ensures ok { IfOk result (λ purposes. purposes_of value.now ≡ Ok purposes.items) }
    ensures err { IfErr result (λ e. e ≢ DerError.NoMemory → purposes_of value.now ≡ Err e) }
{
    let mut reader = Reader::new(value);
    let tlv = reader.read_tlv()?;
    if tlv.tag.0 != tag::SEQUENCE {
        return Err(DerError::Tag);
    }
    let mut inner = Reader::new(tlv.value);
    let purposes = read_each::<ObjectIdentifier>(alloc, &mut inner)?;
    reader.finish()?;
    Ok(purposes)
}

fn is_among(purpose: Purpose, purposes: &[ObjectIdentifier]) -> bool
    ensures { result ≡ is_among purpose purposes.now }
{
    let wanted = purpose.oid();
    purposes.iter().any(|oid| oid.as_bytes() == wanted)
}

/// What the value of the extension says, where it is there.
pub(crate) fn read_usage(alloc: Global, value: Option<&[u8]>) -> Result<Usage, NoMemory>
    ensures { IfOk result (λ usage. usage ≡ usage_in (option_copied value.entry)) }
{
    let Some(value) = value else {
        return Ok(Usage::Unsaid);
    };
    match purposes_in(alloc, value) {
        Ok(purposes) => Ok(Usage::Only {
            code_signing: is_among(Purpose::CodeSigning, purposes.as_slice()),
            time_stamping: is_among(Purpose::TimeStamping, purposes.as_slice()),
        }),
        Err(DerError::NoMemory) => Err(NoMemory),
        Err(_) => Ok(Usage::Only {
            code_signing: false,
            time_stamping: false,
        }),
    }
}

impl Usage {
    /// Whether the purpose is named.
    pub(crate) fn has(&self, purpose: Purpose) -> bool
        ensures { result ≡ has_purpose purpose self.now }
    {
        match (self, purpose) {
            (Usage::Unsaid, _) => false,
            (Usage::Only { code_signing, .. }, Purpose::CodeSigning) => *code_signing,
            (Usage::Only { time_stamping, .. }, Purpose::TimeStamping) => *time_stamping,
        }
    }

    /// Whether the purpose is named, or none is. Without this check an issuer that was given for one
    /// purpose could issue for another.
    pub(crate) fn allows(&self, purpose: Purpose) -> bool
        ensures { result ≡ allows_purpose purpose self.now }
    {
        match self {
            Usage::Unsaid => true,
            Usage::Only { .. } => self.has(purpose),
        }
    }
}
