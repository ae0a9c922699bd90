// Responses.
ghost use Rattle.std.specs.Prelude.{◌≡◌};
ghost use Rattle.sigstore_tsa_parts.specs.Response.{status_of};
ghost use Rattle.sigstore_tsa_parts.specs.Types.{pki_status_info_type, time_stamp_resp_type};

use der_core::{
    Any, BitString, Der, DerError, OctetString, Reader, Tag, Utf8, append_optional, read_optional,
    read_value, tag,
};
use der_numbers::{Number, OctetKind};
use foundation::{Duplicate, NoMemory, Sequence};
use std::alloc::Global;

/// How a request was answered (RFC 3161, section 2.4.2).
#[derive(Clone, Copy, Debug, PartialEq, Eq, Drop)]
pub enum PkiStatus {
    /// The token is there.
    Granted,
    /// The token is there, and something differs from what was asked.
    GrantedWithMods,
    /// The request was rejected.
    Rejection,
    /// The answer comes later.
    Waiting,
    /// The certificate is about to be revoked.
    RevocationWarning,
    /// The certificate was revoked.
    RevocationNotification,
}

impl PkiStatus {
    /// The status of a number; there is one exactly for 0 to 5.
    pub fn try_from(value: u8) -> Result<PkiStatus, ()>
        ensures { result ≡ status_of value }
    {
        match value {
            0 => Ok(PkiStatus::Granted),
            1 => Ok(PkiStatus::GrantedWithMods),
            2 => Ok(PkiStatus::Rejection),
            3 => Ok(PkiStatus::Waiting),
            4 => Ok(PkiStatus::RevocationWarning),
            5 => Ok(PkiStatus::RevocationNotification),
            _ => Err(()),
        }
    }
}

/// The status of a response, with texts and the bits of what failed (RFC 3161, section 2.4.2).
#[derive(PartialEq, Drop)]
pub struct PkiStatusInfo {
    pub status: Number<OctetKind>,
    pub status_string: Option<Sequence<Utf8>>,
    pub fail_info: Option<BitString>,
}

impl Der for PkiStatusInfo {
    ghost grammar = { pki_status_info_type.grammar };

    fn accepts(tag: Tag) -> bool {
        tag.0 == tag::SEQUENCE
    }

    fn from_contents(alloc: Global, _tag: Tag, contents: &[u8]) -> Result<PkiStatusInfo, DerError> {
        let mut reader = Reader::new(contents);
        let value = PkiStatusInfo {
            status: read_value(alloc, &mut reader)?,
            status_string: read_optional(alloc, &mut reader)?,
            fail_info: read_optional(alloc, &mut reader)?,
        };
        reader.end(value)
    }

    fn tag(&self) -> Tag {
        Tag(tag::SEQUENCE)
    }

    fn contents(&self, alloc: Global) -> Result<OctetString, DerError> {
        let mut out = OctetString::empty(alloc);
        self.status.encode_into(alloc, &mut out)?;
        append_optional(alloc, &self.status_string, &mut out)?;
        append_optional(alloc, &self.fail_info, &mut out)?;
        Ok(out)
    }

    ghost lawful = { pki_status_info_type.lawful };
}

impl Duplicate for PkiStatusInfo {
    fn duplicate(&self, alloc: Global) -> Result<PkiStatusInfo, NoMemory> {
        Ok(PkiStatusInfo {
            status: self.status.duplicate(alloc)?,
            status_string: self.status_string.duplicate(alloc)?,
            fail_info: self.fail_info.duplicate(alloc)?,
        })
    }
}

/// The answer to a request (RFC 3161, section 2.4.2).
#[derive(PartialEq, Drop)]
pub struct TimeStampResp {
    pub status: PkiStatusInfo,
    /// A ContentInfo, read where the token is.
    pub time_stamp_token: Option<Any>,
}

impl Der for TimeStampResp {
    ghost grammar = { time_stamp_resp_type.grammar };

    fn accepts(tag: Tag) -> bool {
        tag.0 == tag::SEQUENCE
    }

    fn from_contents(alloc: Global, _tag: Tag, contents: &[u8]) -> Result<TimeStampResp, DerError> {
        let mut reader = Reader::new(contents);
        let value = TimeStampResp {
            status: read_value(alloc, &mut reader)?,
            time_stamp_token: read_optional(alloc, &mut reader)?,
        };
        reader.end(value)
    }

    fn tag(&self) -> Tag {
        Tag(tag::SEQUENCE)
    }

    fn contents(&self, alloc: Global) -> Result<OctetString, DerError> {
        let mut out = OctetString::empty(alloc);
        self.status.encode_into(alloc, &mut out)?;
        append_optional(alloc, &self.time_stamp_token, &mut out)?;
        Ok(out)
    }

    ghost lawful = { time_stamp_resp_type.lawful };
}

impl Duplicate for TimeStampResp {
    fn duplicate(&self, alloc: Global) -> Result<TimeStampResp, NoMemory> {
        Ok(TimeStampResp {
            status: self.status.duplicate(alloc)?,
            time_stamp_token: self.time_stamp_token.duplicate(alloc)?,
        })
    }
}
