// What a token says.
ghost use Rattle.std.specs.Prelude.{◌≡◌, ◌≢◌, IfOk, IfErr, OnOk, OnErr, Ok, Err};
ghost use Rattle.der_grammar.specs.Outcome.{IsTooLong};
ghost use Rattle.der_grammar.specs.Grammar.{Appended, KeepsFront};
ghost use Rattle.sigstore_tsa_parts.specs.Types.{tst_info_head, head_of, tst_info_tail, tail_of, tst_info_type};

use crate::accuracy::Accuracy;
use crate::imprint::Asn1MessageImprint;
use der_core::{
    Der, DerError, GeneralizedTime, Int, ObjectIdentifier, OctetString, Reader, Tag,
    append_default, append_explicit_optional, append_implicit_optional, append_optional,
    read_default, read_explicit_optional, read_implicit_optional, read_optional, read_value, tag,
};
use der_numbers::{Number, OctetKind};
use foundation::{Duplicate, NoMemory, Sequence};
use std::alloc::Global;
use x509_core::{Extension, GeneralName};

/// What a token says: which digest was there at which time (RFC 3161, section 2.4.2).
#[derive(PartialEq, Drop)]
pub struct TstInfo {
    pub version: Number<OctetKind>,
    /// The authority's policy.
    pub policy: ObjectIdentifier,
    pub message_imprint: Asn1MessageImprint,
    pub serial_number: Int,
    /// The time, of UTC and to the second.
    pub gen_time: GeneralizedTime,
    pub accuracy: Option<Accuracy>,
    /// Whether two tokens of this authority are in order by their times, whatever their accuracy is.
    pub ordering: bool,
    pub nonce: Option<Int>,
    /// The authority's name.
    pub tsa: Option<GeneralName>,
    pub extensions: Option<Sequence<Extension>>,
}

// What stands before the serial number.
type Head = (Number<OctetKind>, (ObjectIdentifier, Asn1MessageImprint));

fn read_head(alloc: Global, reader: &mut Reader) -> Result<Head, DerError>
    ensures ok { IfOk result (λ head. tst_info_head.fields.value_at reader.old ≡ Ok (head, reader.new)) }
    ensures err { IfErr result (λ e. e ≢ DerError.NoMemory → tst_info_head.fields.value_at reader.old ≡ Err e) }
{
    let version = read_value(alloc, reader)?;
    let policy = read_value(alloc, reader)?;
    let message_imprint = read_value(alloc, reader)?;
    Ok((version, (policy, message_imprint)))
}

fn append_head(alloc: Global, value: &TstInfo, out: &mut OctetString) -> Result<(), DerError>
    ensures ok { OnOk result (Appended (tst_info_head.fields.text (head_of value.now)) out.old out.new) }
    ensures err { IfErr result (λ e. e ≢ DerError.NoMemory → tst_info_head.fields.text (head_of value.now) ≡ Err e) }
    ensures cause { IfErr result IsTooLong }
    ensures kept { OnErr result (KeepsFront out.old out.new) }
{
    value.version.encode_into(alloc, out)?;
    value.policy.encode_into(alloc, out)?;
    value.message_imprint.encode_into(alloc, out)
}

// What may stand behind the time, in its order.
type Tail = (
    Option<Accuracy>,
    (
        bool,
        (
            Option<Int>,
            (Option<GeneralName>, Option<Sequence<Extension>>),
        ),
    ),
);

fn read_tail(alloc: Global, reader: &mut Reader) -> Result<Tail, DerError>
    ensures ok { IfOk result (λ tail. tst_info_tail.fields.value_at reader.old ≡ Ok (tail, reader.new)) }
    ensures err { IfErr result (λ e. e ≢ DerError.NoMemory → tst_info_tail.fields.value_at reader.old ≡ Err e) }
{
    let accuracy = read_optional(alloc, reader)?;
    let ordering = read_default(alloc, false, reader)?;
    let nonce = read_optional(alloc, reader)?;
    let tsa = read_explicit_optional(alloc, Tag(tag::CONSTRUCTED_0), reader)?;
    let extensions = read_implicit_optional(
        alloc,
        Tag(tag::CONSTRUCTED_1),
        Tag(tag::SEQUENCE),
        reader,
    )?;
    Ok((accuracy, (ordering, (nonce, (tsa, extensions)))))
}

fn append_tail(alloc: Global, value: &TstInfo, out: &mut OctetString) -> Result<(), DerError>
    ensures ok { OnOk result (Appended (tst_info_tail.fields.text (tail_of value.now)) out.old out.new) }
    ensures err { IfErr result (λ e. e ≢ DerError.NoMemory → tst_info_tail.fields.text (tail_of value.now) ≡ Err e) }
    ensures cause { IfErr result IsTooLong }
    ensures kept { OnErr result (KeepsFront out.old out.new) }
{
    append_optional(alloc, &value.accuracy, out)?;
    append_default(alloc, &false, &value.ordering, out)?;
    append_optional(alloc, &value.nonce, out)?;
    append_explicit_optional(alloc, Tag(tag::CONSTRUCTED_0), &value.tsa, out)?;
    append_implicit_optional(
        alloc,
        Tag(tag::CONSTRUCTED_1),
        Tag(tag::SEQUENCE),
        &value.extensions,
        out,
    )
}

impl Der for TstInfo {
    ghost grammar = { tst_info_type.grammar };

    fn accepts(tag: Tag) -> bool {
        tag.0 == tag::SEQUENCE
    }

    fn from_contents(alloc: Global, _tag: Tag, contents: &[u8]) -> Result<TstInfo, DerError> {
        let mut reader = Reader::new(contents);
        let (version, (policy, message_imprint)) = read_head(alloc, &mut reader)?;
        let serial_number = read_value(alloc, &mut reader)?;
        let gen_time = read_value(alloc, &mut reader)?;
        let (accuracy, (ordering, (nonce, (tsa, extensions)))) = read_tail(alloc, &mut reader)?;
        reader.end(TstInfo {
            version,
            policy,
            message_imprint,
            serial_number,
            gen_time,
            accuracy,
            ordering,
            nonce,
            tsa,
            extensions,
        })
    }

    fn tag(&self) -> Tag {
        Tag(tag::SEQUENCE)
    }

    fn contents(&self, alloc: Global) -> Result<OctetString, DerError> {
        let mut out = OctetString::empty(alloc);
        append_head(alloc, self, &mut out)?;
        self.serial_number.encode_into(alloc, &mut out)?;
        self.gen_time.encode_into(alloc, &mut out)?;
        append_tail(alloc, self, &mut out)?;
        Ok(out)
    }

    ghost lawful = { tst_info_type.lawful };
}

impl Duplicate for TstInfo {
    fn duplicate(&self, alloc: Global) -> Result<TstInfo, NoMemory> {
        Ok(TstInfo {
            version: self.version.duplicate(alloc)?,
            policy: self.policy.duplicate(alloc)?,
            message_imprint: self.message_imprint.duplicate(alloc)?,
            serial_number: self.serial_number.duplicate(alloc)?,
            gen_time: self.gen_time.duplicate(alloc)?,
            accuracy: self.accuracy.duplicate(alloc)?,
            ordering: self.ordering,
            nonce: self.nonce.duplicate(alloc)?,
            tsa: self.tsa.duplicate(alloc)?,
            extensions: self.extensions.duplicate(alloc)?,
        })
    }
}
