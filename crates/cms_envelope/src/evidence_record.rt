// Evidence records.
ghost use Rattle.cms_envelope.specs.EvidenceRecord.{archive_time_stamp_type, encryption_info_type, evidence_record_type};

use crate::tsd_version::TsdVersion;
use cms_parts::content_info::ContentInfo;
use der_core::{
    Any, Der, DerError, ObjectIdentifier, OctetString, Reader, Tag, append_explicit_optional,
    read_explicit_optional, read_value, tag,
};
use foundation::{Duplicate, NoMemory, Sequence};
use std::alloc::Global;
use x509_core::{AlgorithmIdentifierOwned, Attribute, Attributes};

/// What supports the evidence (RFC 4998, 3.1).
pub type CryptoInfos = Sequence<Attribute>;

/// Chains, each by a newer digest algorithm than the one before it (RFC 4998, 5.1).
pub type ArchiveTimeStampSequence = Sequence<ArchiveTimeStampChain>;

/// Time-stamps, each of the one before it (RFC 4998, 5.1).
pub type ArchiveTimeStampChain = Sequence<ArchiveTimeStamp>;

/// Digests that stand beside each other in a tree (RFC 4998, 4.1).
pub type PartialHashtree = Sequence<OctetString>;

/// Evidence by archive time-stamps (RFC 4998, 3.1).
#[derive(PartialEq, Drop)]
pub struct EvidenceRecord {
    pub version: TsdVersion,
    pub digest_algorithm: Sequence<AlgorithmIdentifierOwned>,
    pub crypto_infos: Option<CryptoInfos>,
    pub encryption_info: Option<EncryptionInfo>,
    pub archive_timestamp_sequence: ArchiveTimeStampSequence,
}

impl Der for EvidenceRecord {
    ghost grammar = { evidence_record_type.grammar };

    fn accepts(tag: Tag) -> bool {
        tag.0 == tag::SEQUENCE
    }

    fn from_contents(
        alloc: Global,
        _tag: Tag,
        contents: &[u8],
    ) -> Result<EvidenceRecord, DerError> {
        let mut reader = Reader::new(contents);
        let value = EvidenceRecord {
            version: read_value(alloc, &mut reader)?,
            digest_algorithm: read_value(alloc, &mut reader)?,
            crypto_infos: read_explicit_optional(alloc, Tag(tag::CONSTRUCTED_0), &mut reader)?,
            encryption_info: read_explicit_optional(alloc, Tag(tag::CONSTRUCTED_1), &mut reader)?,
            archive_timestamp_sequence: read_value(alloc, &mut reader)?,
        };
        reader.end(value)
    }

    fn tag(&self) -> Tag {
        Tag(tag::SEQUENCE)
    }

    fn contents(&self, alloc: Global) -> Result<OctetString, DerError> {
        let mut out = OctetString::empty(alloc);
        self.version.encode_into(alloc, &mut out)?;
        self.digest_algorithm.encode_into(alloc, &mut out)?;
        append_explicit_optional(alloc, Tag(tag::CONSTRUCTED_0), &self.crypto_infos, &mut out)?;
        append_explicit_optional(
            alloc,
            Tag(tag::CONSTRUCTED_1),
            &self.encryption_info,
            &mut out,
        )?;
        self.archive_timestamp_sequence
            .encode_into(alloc, &mut out)?;
        Ok(out)
    }

    ghost lawful = { evidence_record_type.lawful };
}

impl Duplicate for EvidenceRecord {
    fn duplicate(&self, alloc: Global) -> Result<EvidenceRecord, NoMemory> {
        Ok(EvidenceRecord {
            version: self.version.duplicate(alloc)?,
            digest_algorithm: self.digest_algorithm.duplicate(alloc)?,
            crypto_infos: self.crypto_infos.duplicate(alloc)?,
            encryption_info: self.encryption_info.duplicate(alloc)?,
            archive_timestamp_sequence: self.archive_timestamp_sequence.duplicate(alloc)?,
        })
    }
}

/// How the data was encrypted (RFC 4998, 3.1).
#[derive(PartialEq, Drop)]
pub struct EncryptionInfo {
    pub encryption_info_type: ObjectIdentifier,
    pub encryption_info_value: Any,
}

impl Der for EncryptionInfo {
    ghost grammar = { encryption_info_type.grammar };

    fn accepts(tag: Tag) -> bool {
        tag.0 == tag::SEQUENCE
    }

    fn from_contents(
        alloc: Global,
        _tag: Tag,
        contents: &[u8],
    ) -> Result<EncryptionInfo, DerError> {
        let mut reader = Reader::new(contents);
        let value = EncryptionInfo {
            encryption_info_type: read_value(alloc, &mut reader)?,
            encryption_info_value: read_value(alloc, &mut reader)?,
        };
        reader.end(value)
    }

    fn tag(&self) -> Tag {
        Tag(tag::SEQUENCE)
    }

    fn contents(&self, alloc: Global) -> Result<OctetString, DerError> {
        let mut out = OctetString::empty(alloc);
        self.encryption_info_type.encode_into(alloc, &mut out)?;
        self.encryption_info_value.encode_into(alloc, &mut out)?;
        Ok(out)
    }

    ghost lawful = { encryption_info_type.lawful };
}

impl Duplicate for EncryptionInfo {
    fn duplicate(&self, alloc: Global) -> Result<EncryptionInfo, NoMemory> {
        Ok(EncryptionInfo {
            encryption_info_type: self.encryption_info_type.duplicate(alloc)?,
            encryption_info_value: self.encryption_info_value.duplicate(alloc)?,
        })
    }
}

/// A time-stamp over a tree of digests (RFC 4998, 4.1).
#[derive(PartialEq, Drop)]
pub struct ArchiveTimeStamp {
    pub digest_algorithm: Option<AlgorithmIdentifierOwned>,
    pub attributes: Option<Attributes>,
    pub reduced_hashtree: Option<Sequence<PartialHashtree>>,
    pub time_stamp: ContentInfo,
}

impl Der for ArchiveTimeStamp {
    ghost grammar = { archive_time_stamp_type.grammar };

    fn accepts(tag: Tag) -> bool {
        tag.0 == tag::SEQUENCE
    }

    fn from_contents(
        alloc: Global,
        _tag: Tag,
        contents: &[u8],
    ) -> Result<ArchiveTimeStamp, DerError> {
        let mut reader = Reader::new(contents);
        let value = ArchiveTimeStamp {
            digest_algorithm: read_explicit_optional(alloc, Tag(tag::CONSTRUCTED_0), &mut reader)?,
            attributes: read_explicit_optional(alloc, Tag(tag::CONSTRUCTED_1), &mut reader)?,
            reduced_hashtree: read_explicit_optional(alloc, Tag(tag::CONSTRUCTED_2), &mut reader)?,
            time_stamp: read_value(alloc, &mut reader)?,
        };
        reader.end(value)
    }

    fn tag(&self) -> Tag {
        Tag(tag::SEQUENCE)
    }

    fn contents(&self, alloc: Global) -> Result<OctetString, DerError> {
        let mut out = OctetString::empty(alloc);
        append_explicit_optional(
            alloc,
            Tag(tag::CONSTRUCTED_0),
            &self.digest_algorithm,
            &mut out,
        )?;
        append_explicit_optional(alloc, Tag(tag::CONSTRUCTED_1), &self.attributes, &mut out)?;
        append_explicit_optional(
            alloc,
            Tag(tag::CONSTRUCTED_2),
            &self.reduced_hashtree,
            &mut out,
        )?;
        self.time_stamp.encode_into(alloc, &mut out)?;
        Ok(out)
    }

    ghost lawful = { archive_time_stamp_type.lawful };
}

impl Duplicate for ArchiveTimeStamp {
    fn duplicate(&self, alloc: Global) -> Result<ArchiveTimeStamp, NoMemory> {
        Ok(ArchiveTimeStamp {
            digest_algorithm: self.digest_algorithm.duplicate(alloc)?,
            attributes: self.attributes.duplicate(alloc)?,
            reduced_hashtree: self.reduced_hashtree.duplicate(alloc)?,
            time_stamp: self.time_stamp.duplicate(alloc)?,
        })
    }
}
