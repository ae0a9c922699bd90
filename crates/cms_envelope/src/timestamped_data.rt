// Time-stamped data.
ghost use Rattle.cms_envelope.specs.TimeStampedData.{evidence_type, meta_data_type, other_evidence_type, time_stamp_and_crl_type, time_stamped_data_type};

pub use crate::evidence_record::{
    ArchiveTimeStamp, ArchiveTimeStampChain, ArchiveTimeStampSequence, CryptoInfos, EncryptionInfo,
    EvidenceRecord, PartialHashtree,
};
pub use crate::tsd_version::TsdVersion;
use cms_parts::content_info::ContentInfo;
use cms_parts::whole_value;
use der_core::{
    Any, Der, DerError, Ia5, ObjectIdentifier, OctetString, Reader, Tag, Utf8, append_optional,
    read_optional, read_value, tag,
};
use foundation::{Duplicate, NoMemory, Sequence};
use std::alloc::Global;
use x509_core::{Attributes, CertificateList};

/// Time-stamp tokens, the first of the content (RFC 5544, 2).
pub type TimeStampTokenEvidence = Sequence<TimeStampAndCrl>;

/// A time-stamp token (RFC 3161, 2.4.2).
pub type TimeStampToken = ContentInfo;

/// Content with what shows when it was there (RFC 5544, 2).
#[derive(PartialEq, Drop)]
pub struct TimeStampedData {
    pub version: TsdVersion,
    pub data_uri: Option<Ia5>,
    pub meta_data: Option<MetaData>,
    pub content: Option<OctetString>,
    pub temporal_evidence: Evidence,
}

impl Der for TimeStampedData {
    ghost grammar = { time_stamped_data_type.grammar };

    fn accepts(tag: Tag) -> bool {
        tag.0 == tag::SEQUENCE
    }

    fn from_contents(
        alloc: Global,
        _tag: Tag,
        contents: &[u8],
    ) -> Result<TimeStampedData, DerError> {
        let mut reader = Reader::new(contents);
        let value = TimeStampedData {
            version: read_value(alloc, &mut reader)?,
            data_uri: read_optional(alloc, &mut reader)?,
            meta_data: read_optional(alloc, &mut reader)?,
            content: read_optional(alloc, &mut reader)?,
            temporal_evidence: read_value(alloc, &mut reader)?,
        };
        reader.end(value)
    }

    fn tag(&self) -> Tag {
        Tag(tag::SEQUENCE)
    }

    fn contents(&self, alloc: Global) -> Result<OctetString, DerError> {
        let mut out = OctetString::empty(alloc);
        self.version.encode_into(alloc, &mut out)?;
        append_optional(alloc, &self.data_uri, &mut out)?;
        append_optional(alloc, &self.meta_data, &mut out)?;
        append_optional(alloc, &self.content, &mut out)?;
        self.temporal_evidence.encode_into(alloc, &mut out)?;
        Ok(out)
    }

    ghost lawful = { time_stamped_data_type.lawful };
}

impl Duplicate for TimeStampedData {
    fn duplicate(&self, alloc: Global) -> Result<TimeStampedData, NoMemory> {
        Ok(TimeStampedData {
            version: self.version.duplicate(alloc)?,
            data_uri: self.data_uri.duplicate(alloc)?,
            meta_data: self.meta_data.duplicate(alloc)?,
            content: self.content.duplicate(alloc)?,
            temporal_evidence: self.temporal_evidence.duplicate(alloc)?,
        })
    }
}

/// What is told of the content (RFC 5544, 2).
#[derive(PartialEq, Drop)]
pub struct MetaData {
    /// Whether it belongs to what is time-stamped.
    pub hash_protected: bool,
    pub file_name: Option<Utf8>,
    pub media_type: Option<Ia5>,
    pub other_meta_data: Option<Attributes>,
}

impl Der for MetaData {
    ghost grammar = { meta_data_type.grammar };

    fn accepts(tag: Tag) -> bool {
        tag.0 == tag::SEQUENCE
    }

    fn from_contents(alloc: Global, _tag: Tag, contents: &[u8]) -> Result<MetaData, DerError> {
        let mut reader = Reader::new(contents);
        let value = MetaData {
            hash_protected: read_value(alloc, &mut reader)?,
            file_name: read_optional(alloc, &mut reader)?,
            media_type: read_optional(alloc, &mut reader)?,
            other_meta_data: read_optional(alloc, &mut reader)?,
        };
        reader.end(value)
    }

    fn tag(&self) -> Tag {
        Tag(tag::SEQUENCE)
    }

    fn contents(&self, alloc: Global) -> Result<OctetString, DerError> {
        let mut out = OctetString::empty(alloc);
        self.hash_protected.encode_into(alloc, &mut out)?;
        append_optional(alloc, &self.file_name, &mut out)?;
        append_optional(alloc, &self.media_type, &mut out)?;
        append_optional(alloc, &self.other_meta_data, &mut out)?;
        Ok(out)
    }

    ghost lawful = { meta_data_type.lawful };
}

impl Duplicate for MetaData {
    fn duplicate(&self, alloc: Global) -> Result<MetaData, NoMemory> {
        Ok(MetaData {
            hash_protected: self.hash_protected.duplicate(alloc)?,
            file_name: self.file_name.duplicate(alloc)?,
            media_type: self.media_type.duplicate(alloc)?,
            other_meta_data: self.other_meta_data.duplicate(alloc)?,
        })
    }
}

/// What shows when the content was there (RFC 5544, 2).
#[derive(PartialEq, Drop)]
pub enum Evidence {
    /// `[0]`, explicit: time-stamp tokens.
    TstEvidence(TimeStampTokenEvidence),
    /// `[1]`, explicit: an evidence record.
    ErsEvidence(EvidenceRecord),
    /// `[2]`, explicit: other evidence.
    OtherEvidence(OtherEvidence),
}

impl Der for Evidence {
    ghost grammar = { evidence_type.grammar };

    fn accepts(tag: Tag) -> bool {
        tag.0 == tag::CONSTRUCTED_0 || tag.0 == tag::CONSTRUCTED_1 || tag.0 == tag::CONSTRUCTED_2
    }

    fn from_contents(alloc: Global, tag: Tag, contents: &[u8]) -> Result<Evidence, DerError> {
        if tag.0 == tag::CONSTRUCTED_0 {
            Ok(Evidence::TstEvidence(whole_value(alloc, contents)?))
        } else if tag.0 == tag::CONSTRUCTED_1 {
            Ok(Evidence::ErsEvidence(whole_value(alloc, contents)?))
        } else {
            Ok(Evidence::OtherEvidence(whole_value(alloc, contents)?))
        }
    }

    fn tag(&self) -> Tag {
        match self {
            Evidence::TstEvidence(_) => Tag(tag::CONSTRUCTED_0),
            Evidence::ErsEvidence(_) => Tag(tag::CONSTRUCTED_1),
            Evidence::OtherEvidence(_) => Tag(tag::CONSTRUCTED_2),
        }
    }

    fn contents(&self, alloc: Global) -> Result<OctetString, DerError> {
        match self {
            Evidence::TstEvidence(value) => value.to_der(alloc),
            Evidence::ErsEvidence(value) => value.to_der(alloc),
            Evidence::OtherEvidence(value) => value.to_der(alloc),
        }
    }

    ghost lawful = { evidence_type.lawful };
}

impl Duplicate for Evidence {
    fn duplicate(&self, alloc: Global) -> Result<Evidence, NoMemory> {
        match self {
            Evidence::TstEvidence(value) => Ok(Evidence::TstEvidence(value.duplicate(alloc)?)),
            Evidence::ErsEvidence(value) => Ok(Evidence::ErsEvidence(value.duplicate(alloc)?)),
            Evidence::OtherEvidence(value) => Ok(Evidence::OtherEvidence(value.duplicate(alloc)?)),
        }
    }
}

/// A time-stamp token with a certificate list (RFC 5544, 2).
#[derive(PartialEq, Drop)]
pub struct TimeStampAndCrl {
    pub time_stamp: TimeStampToken,
    pub crl: Option<CertificateList>,
}

impl Der for TimeStampAndCrl {
    ghost grammar = { time_stamp_and_crl_type.grammar };

    fn accepts(tag: Tag) -> bool {
        tag.0 == tag::SEQUENCE
    }

    fn from_contents(
        alloc: Global,
        _tag: Tag,
        contents: &[u8],
    ) -> Result<TimeStampAndCrl, DerError> {
        let mut reader = Reader::new(contents);
        let value = TimeStampAndCrl {
            time_stamp: read_value(alloc, &mut reader)?,
            crl: read_optional(alloc, &mut reader)?,
        };
        reader.end(value)
    }

    fn tag(&self) -> Tag {
        Tag(tag::SEQUENCE)
    }

    fn contents(&self, alloc: Global) -> Result<OctetString, DerError> {
        let mut out = OctetString::empty(alloc);
        self.time_stamp.encode_into(alloc, &mut out)?;
        append_optional(alloc, &self.crl, &mut out)?;
        Ok(out)
    }

    ghost lawful = { time_stamp_and_crl_type.lawful };
}

impl Duplicate for TimeStampAndCrl {
    fn duplicate(&self, alloc: Global) -> Result<TimeStampAndCrl, NoMemory> {
        Ok(TimeStampAndCrl {
            time_stamp: self.time_stamp.duplicate(alloc)?,
            crl: self.crl.duplicate(alloc)?,
        })
    }
}

/// Evidence of another kind (RFC 5544, 2).
#[derive(PartialEq, Drop)]
pub struct OtherEvidence {
    pub oe_type: ObjectIdentifier,
    pub oe_value: Any,
}

impl Der for OtherEvidence {
    ghost grammar = { other_evidence_type.grammar };

    fn accepts(tag: Tag) -> bool {
        tag.0 == tag::SEQUENCE
    }

    fn from_contents(alloc: Global, _tag: Tag, contents: &[u8]) -> Result<OtherEvidence, DerError> {
        let mut reader = Reader::new(contents);
        let value = OtherEvidence {
            oe_type: read_value(alloc, &mut reader)?,
            oe_value: read_value(alloc, &mut reader)?,
        };
        reader.end(value)
    }

    fn tag(&self) -> Tag {
        Tag(tag::SEQUENCE)
    }

    fn contents(&self, alloc: Global) -> Result<OctetString, DerError> {
        let mut out = OctetString::empty(alloc);
        self.oe_type.encode_into(alloc, &mut out)?;
        self.oe_value.encode_into(alloc, &mut out)?;
        Ok(out)
    }

    ghost lawful = { other_evidence_type.lawful };
}

impl Duplicate for OtherEvidence {
    fn duplicate(&self, alloc: Global) -> Result<OtherEvidence, NoMemory> {
        Ok(OtherEvidence {
            oe_type: self.oe_type.duplicate(alloc)?,
            oe_value: self.oe_value.duplicate(alloc)?,
        })
    }
}
