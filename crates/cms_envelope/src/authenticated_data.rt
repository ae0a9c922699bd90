// Authenticated data.
ghost use Rattle.std.specs.Prelude.{◌≡◌, ◌≢◌, IfErr, OnOk, OnErr, Err};
ghost use Rattle.der_grammar.specs.Outcome.{IsTooLong};
ghost use Rattle.der_grammar.specs.Grammar.{Appended, KeepsFront};
ghost use Rattle.cms_envelope.specs.AuthenticatedData.{authenticated_tail, tail_of, authenticated_data_type};

use crate::enveloped_data::{OriginatorInfo, RecipientInfos};
use cms_parts::content_info::CmsVersion;
use cms_parts::signed_data::EncapsulatedContentInfo;
use der_core::{
    Der, DerError, OctetString, Reader, Tag, append_implicit_optional, read_implicit_optional,
    read_value, tag,
};
use foundation::{Duplicate, NoMemory};
use std::alloc::Global;
use x509_core::{AlgorithmIdentifierOwned, Attributes};

/// The octets of a message authentication code (RFC 5652, 9.1).
pub type MessageAuthenticationCode = OctetString;

/// Content with a message authentication code (RFC 5652, 9.1).
#[derive(PartialEq, Drop)]
pub struct AuthenticatedData {
    pub version: CmsVersion,
    pub originator_info: Option<OriginatorInfo>,
    pub recip_infos: RecipientInfos,
    pub mac_alg: AlgorithmIdentifierOwned,
    pub digest_alg: Option<AlgorithmIdentifierOwned>,
    pub encap_content_info: EncapsulatedContentInfo,
    pub auth_attrs: Option<Attributes>,
    pub mac: MessageAuthenticationCode,
    pub unauth_attrs: Option<Attributes>,
}

fn append_tail(
    alloc: Global,
    value: &AuthenticatedData,
    out: &mut OctetString,
) -> Result<(), DerError>
    ensures ok { OnOk result (Appended (authenticated_tail.fields.text (tail_of value.now)) out.old out.new) }
    ensures err { IfErr result (λ e. e ≢ DerError.NoMemory → authenticated_tail.fields.text (tail_of value.now) ≡ Err e) }
    ensures cause { IfErr result IsTooLong }
    ensures kept { OnErr result (KeepsFront out.old out.new) }
{
    value.encap_content_info.encode_into(alloc, out)?;
    append_implicit_optional(
        alloc,
        Tag(tag::CONSTRUCTED_2),
        Tag(tag::SET),
        &value.auth_attrs,
        out,
    )?;
    value.mac.encode_into(alloc, out)?;
    append_implicit_optional(
        alloc,
        Tag(tag::CONSTRUCTED_3),
        Tag(tag::SET),
        &value.unauth_attrs,
        out,
    )
}

impl Der for AuthenticatedData {
    ghost grammar = { authenticated_data_type.grammar };

    fn accepts(tag: Tag) -> bool {
        tag.0 == tag::SEQUENCE
    }

    fn from_contents(
        alloc: Global,
        _tag: Tag,
        contents: &[u8],
    ) -> Result<AuthenticatedData, DerError> {
        let mut reader = Reader::new(contents);
        let value = AuthenticatedData {
            version: read_value(alloc, &mut reader)?,
            originator_info: read_implicit_optional(
                alloc,
                Tag(tag::CONSTRUCTED_0),
                Tag(tag::SEQUENCE),
                &mut reader,
            )?,
            recip_infos: read_value(alloc, &mut reader)?,
            mac_alg: read_value(alloc, &mut reader)?,
            digest_alg: read_implicit_optional(
                alloc,
                Tag(tag::CONSTRUCTED_1),
                Tag(tag::SEQUENCE),
                &mut reader,
            )?,
            encap_content_info: read_value(alloc, &mut reader)?,
            auth_attrs: read_implicit_optional(
                alloc,
                Tag(tag::CONSTRUCTED_2),
                Tag(tag::SET),
                &mut reader,
            )?,
            mac: read_value(alloc, &mut reader)?,
            unauth_attrs: read_implicit_optional(
                alloc,
                Tag(tag::CONSTRUCTED_3),
                Tag(tag::SET),
                &mut reader,
            )?,
        };
        reader.end(value)
    }

    fn tag(&self) -> Tag {
        Tag(tag::SEQUENCE)
    }

    fn contents(&self, alloc: Global) -> Result<OctetString, DerError> {
        let mut out = OctetString::empty(alloc);
        self.version.encode_into(alloc, &mut out)?;
        append_implicit_optional(
            alloc,
            Tag(tag::CONSTRUCTED_0),
            Tag(tag::SEQUENCE),
            &self.originator_info,
            &mut out,
        )?;
        self.recip_infos.encode_into(alloc, &mut out)?;
        self.mac_alg.encode_into(alloc, &mut out)?;
        append_implicit_optional(
            alloc,
            Tag(tag::CONSTRUCTED_1),
            Tag(tag::SEQUENCE),
            &self.digest_alg,
            &mut out,
        )?;
        append_tail(alloc, self, &mut out)?;
        Ok(out)
    }

    ghost lawful = { authenticated_data_type.lawful };
}

impl Duplicate for AuthenticatedData {
    fn duplicate(&self, alloc: Global) -> Result<AuthenticatedData, NoMemory> {
        Ok(AuthenticatedData {
            version: self.version.duplicate(alloc)?,
            originator_info: self.originator_info.duplicate(alloc)?,
            recip_infos: self.recip_infos.duplicate(alloc)?,
            mac_alg: self.mac_alg.duplicate(alloc)?,
            digest_alg: self.digest_alg.duplicate(alloc)?,
            encap_content_info: self.encap_content_info.duplicate(alloc)?,
            auth_attrs: self.auth_attrs.duplicate(alloc)?,
            mac: self.mac.duplicate(alloc)?,
            unauth_attrs: self.unauth_attrs.duplicate(alloc)?,
        })
    }
}
