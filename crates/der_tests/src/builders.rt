// Builders, over content and a signature that OpenSSL made over the bytes that are to be signed. Where a
// row has `-`, nothing is given.
ghost use Rattle.std.specs.Prelude.{Some, None, bytes_eq, if◌then◌else◌};

use crate::leaves;
use crate::tables::{
    check_tables, debug, displayed, good, halves, in_hexadecimal, number, numbered, octets, place,
};
use cms::builder::*;
use cms::cert::{CertificateChoices, IssuerAndSerialNumber, OtherCertificateFormat};
use cms::content_info::ContentInfo;
use cms::revocation::{OtherRevocationInfoFormat, RevocationInfoChoice};
use cms::signed_data::{EncapsulatedContentInfo, SignerIdentifier};
use cms_parts::identifiers;
use der_core::*;
use foundation::Duplicate;
use jiff::Timestamp;
use std::alloc::Global;
use std::fmt::Debug;
use std::process::Abort;
use x509_core::{
    AlgorithmIdentifierOwned, Attribute, Certificate, Name, SerialNumber, SubjectKeyIdentifier,
};

/// A signer that knows one message with its signature.
#[derive(Drop)]
struct Told {
    algorithm: AlgorithmIdentifierOwned,
    message: OctetString,
    signature: OctetString,
}

impl CmsSigner for Told {
    ghost identifier = { λ s. s.algorithm };

    ghost signs = { λ s message. if bytes_eq message s.message then Some s.signature else None };

    fn algorithm(&self) -> &AlgorithmIdentifierOwned {
        &self.algorithm
    }

    fn sign(&self, alloc: Global, message: &[u8]) -> Result<OctetString, Error> {
        if message == self.message.as_bytes() {
            Ok(self.signature.duplicate(alloc)?)
        } else {
            Err(Error::Signature)
        }
    }
}

const CALLS: &str = "\
content_type message_digest signing_time by_issuer built finalize finalize_twice build SignedDataBuilder \
from_certificate from_path Error BuilderFault crl unsigned_attribute";

/// The answer of a call that is given words; for any other name that of one that is given octets.
pub fn answer<X: AllocGlobal + Abort>(rt: &X, name: &str, words: &str) -> String {
    match place(name, CALLS) {
        0 => tried(
            rt,
            create_content_type_attribute(rt.alloc(), identifier(rt, words)),
        ),
        1 => tried(
            rt,
            create_message_digest_attribute(rt.alloc(), &octets(rt, words)),
        ),
        2 => tried(
            rt,
            create_signing_time_attribute(rt.alloc(), time(rt, words)),
        ),
        3 => described(rt),
        4 => built(rt, words),
        5 => of_signer(rt, 1, words),
        6 => of_signer(rt, 2, words),
        7 => of_signer(rt, 0, words),
        8 => of_message(rt, words),
        9 => tried(
            rt,
            ContentInfo::from_certificate(rt.alloc(), read(rt, words)),
        ),
        10 => of_path(rt, words),
        11 => text_of(rt, error(number(rt, words))),
        12 => displayed(rt, fault(number(rt, words))),
        13 => with_list(rt),
        14 => with_unsigned(rt, words),
        _ => leaves::answer_to_words(rt, name, words),
    }
}

/// The encoding of what a call gave, or the refusal in its `Err`.
fn tried<X: AllocGlobal + Abort, T: Der, E: Debug + Drop>(rt: &X, given: Result<T, E>) -> String {
    match given {
        Ok(value) => in_hexadecimal(rt, value.to_der(rt.alloc())),
        Err(refusal) => debug(rt, Err::<bool, E>(refusal)),
    }
}

const SHA256: &str = "2.16.840.1.101.3.4.2.1";

fn identifier<X: Abort>(rt: &X, text: &str) -> ObjectIdentifier {
    good(rt, ObjectIdentifier::new(text))
}

fn algorithm<X: Abort>(rt: &X, text: &str) -> AlgorithmIdentifierOwned {
    AlgorithmIdentifierOwned {
        oid: identifier(rt, text),
        parameters: None,
    }
}

fn octet_string<X: AllocGlobal + Abort>(rt: &X, text: &str) -> OctetString {
    good(rt, OctetString::new(rt.alloc(), &octets(rt, text)))
}

fn signer<X: AllocGlobal + Abort>(rt: &X) -> Told {
    Told {
        algorithm: algorithm(rt, "1.2.840.10045.4.3.2"),
        message: octet_string(rt, "message"),
        signature: octet_string(rt, "signature"),
    }
}

fn read<X: AllocGlobal + Abort, T: Der>(rt: &X, text: &str) -> T {
    good(rt, T::from_der(rt.alloc(), &octets(rt, text)))
}

fn by_issuer<X: AllocGlobal + Abort>(rt: &X) -> SignerIdentifier {
    SignerIdentifier::IssuerAndSerialNumber(IssuerAndSerialNumber {
        issuer: read::<X, Name>(rt, "issuer"),
        serial_number: read::<X, SerialNumber>(rt, "02020101"),
    })
}

/// Content of OpenSSL, `here` or elsewhere.
fn content<X: AllocGlobal + Abort>(rt: &X, word: &str) -> EncapsulatedContentInfo {
    EncapsulatedContentInfo {
        econtent_type: identifiers::data(),
        econtent: if word == "here" {
            Some(good(rt, Any::new(rt.alloc(), Tag(4), b"content\n")))
        } else {
            None
        },
    }
}

/// A moment, or the first one.
fn time<X: Abort>(rt: &X, text: &str) -> Timestamp {
    if text == "MIN" {
        Timestamp::MIN
    } else {
        good(rt, text.parse::<Timestamp>())
    }
}

// Attributes: of a type, of a digest, and of times, of which the last one has no year.
const ATTRIBUTES: &str = "\
content_type 1.2.840.113549.1.7.1 => 301806092a864886f70d010903310b06092a864886f70d010701
message_digest 0102 => 301106092a864886f70d010904310404020102
signing_time 2024-01-02T03:04:05Z => 301c06092a864886f70d010905310f170d3234303130323033303430355a
signing_time 2050-01-01T00:00:00Z => 301e06092a864886f70d0109053111180f32303530303130313030303030305a
signing_time MIN => Err(Asn1(Value))";

/// A builder of the signer by issuer and serial number, with a signing time.
fn by_one<'s, X: AllocGlobal + Abort>(
    rt: &X,
    told: &'s Told,
    content: &'s EncapsulatedContentInfo,
) -> SignerInfoBuilder<'s, Told> {
    let mut one = SignerInfoBuilder::new(
        rt.alloc(),
        told,
        by_issuer(rt),
        algorithm(rt, SHA256),
        content,
        None,
    );
    add_time(rt, &mut one);
    one
}

fn add_time<X: AllocGlobal + Abort>(rt: &X, one: &mut SignerInfoBuilder<Told>) {
    let time = time(rt, "2026-11-28T07:00:00Z");
    let signed_at = good(rt, create_signing_time_attribute(rt.alloc(), time));
    good(rt, one.add_signed_attribute(signed_at));
}

// The version of a signer by issuer and serial number, with the identifier of its algorithm, and a message
// of its that OpenSSL verifies.
const BY_ISSUER: &str = "\
by_issuer - => (V1, [42, 134, 72, 206, 61, 4, 3, 2])
built certificate => built";

fn described<X: AllocGlobal + Abort>(rt: &X) -> String {
    let (told, content) = (signer(rt), content(rt, "here"));
    let one = by_one(rt, &told, &content);
    let answer = version_and_algorithm(rt, &one);
    drop(one);
    drop(content);
    drop(told);
    answer
}

fn version_and_algorithm<X: AllocGlobal + Abort>(rt: &X, one: &SignerInfoBuilder<Told>) -> String {
    debug(rt, (one.version(), one.signer().algorithm().oid.as_bytes()))
}

/// The message of the signer with a certificate.
fn built<X: AllocGlobal + Abort>(rt: &X, certificate: &str) -> String {
    let (told, content) = (signer(rt), content(rt, "here"));
    let answer = message(rt, by_one(rt, &told, &content), &content, certificate);
    drop(content);
    drop(told);
    answer
}

fn message<X: AllocGlobal + Abort>(
    rt: &X,
    one: SignerInfoBuilder<Told>,
    content: &EncapsulatedContentInfo,
    certificate: &str,
) -> String {
    let mut builder = SignedDataBuilder::new(rt.alloc(), content);
    good(rt, builder.add_digest_algorithm(algorithm(rt, SHA256)));
    good(rt, builder.add_certificate(whole(rt, certificate)));
    good(rt, builder.add_signer_info(rt.alloc(), one));
    let answer = tried(rt, builder.build(rt.alloc()));
    drop(builder);
    answer
}

fn whole<X: AllocGlobal + Abort>(rt: &X, text: &str) -> CertificateChoices {
    CertificateChoices::Certificate(read::<X, Certificate>(rt, text))
}

// What signers by key identifier give: the algorithm of the digest, whether the content is here, a digest
// that was made elsewhere, and the types in attributes that are signed. First refusals, then what is signed;
// the end of a builder a second time; and a signature that the signer doesn't know.
const SIGNERS: &str = "\
finalize 2.16.840.1.101.3.4.2.1 here 01 - => Builder(ContentTwice)
finalize 2.16.840.1.101.3.4.2.8 here - - => Builder(NoHasher)
finalize 2.16.840.1.101.3.4.2.1 here - 1.2.840.113549.1.7.2 => Builder(ContentType)
finalize 2.16.840.1.101.3.4.2.1 elsewhere - 1.2.840.113549.1.7.1,1.2.840.113549.1.7.1 => Asn1(SetDuplicate)
finalize 2.16.840.1.101.3.4.2.1 elsewhere - - => 3100
finalize 2.16.840.1.101.3.4.2.1 elsewhere 0102 - => 312d301106092a864886f70d010904310404020102301806092a864886f70d010903310b06092a864886f70d010701
finalize_twice 2.16.840.1.101.3.4.2.1 here - - => Asn1(SetDuplicate)
build 2.16.840.1.101.3.4.2.1 here - - => Err(Signature)";

/// What the builder of a signer gives at the last of so many ends, or with none the refusal of its message.
fn of_signer<X: AllocGlobal + Abort>(rt: &X, ends: usize, words: &str) -> String {
    let (digest_algorithm, words) = halves(rt, words, " ");
    let (word, words) = halves(rt, words, " ");
    let (digest, types) = halves(rt, words, " ");
    let (told, content, digest) = (signer(rt), content(rt, word), octets(rt, digest));
    let mut builder = by_key(rt, &told, digest_algorithm, &content, part(&digest));
    add_types(rt, &mut builder, types);
    let answer = ended(rt, builder, ends);
    drop(digest);
    drop(content);
    drop(told);
    answer
}

/// Octets, or nothing where there are none.
fn part(octets: &[u8]) -> Option<&[u8]> {
    if octets.is_empty() {
        None
    } else {
        Some(octets)
    }
}

/// A builder of a signer by key identifier.
fn by_key<'s, X: AllocGlobal + Abort>(
    rt: &X,
    told: &'s Told,
    digest_algorithm: &str,
    content: &'s EncapsulatedContentInfo,
    digest: Option<&'s [u8]>,
) -> SignerInfoBuilder<'s, Told> {
    let key = good(rt, SubjectKeyIdentifier::new(rt.alloc(), &[1]));
    let identifier = SignerIdentifier::SubjectKeyIdentifier(key);
    let algorithm = algorithm(rt, digest_algorithm);
    SignerInfoBuilder::new(rt.alloc(), told, identifier, algorithm, content, digest)
}

/// Adds an attribute of each of these types.
fn add_types<X: AllocGlobal + Abort>(rt: &X, builder: &mut SignerInfoBuilder<Told>, types: &str) {
    for text in types.split(',') {
        if text != "-" {
            good(rt, builder.add_signed_attribute(typed(rt, text)));
        }
    }
}

/// The content-type attribute of a type.
fn typed<X: AllocGlobal + Abort>(rt: &X, oid: &str) -> Attribute {
    good(
        rt,
        create_content_type_attribute(rt.alloc(), identifier(rt, oid)),
    )
}

fn ended<X: AllocGlobal + Abort>(rt: &X, builder: SignerInfoBuilder<Told>, ends: usize) -> String {
    if ends == 0 {
        return tried(rt, builder.build(rt.alloc()));
    }
    let mut builder = builder;
    let answer = finalized(rt, &mut builder, ends);
    drop(builder);
    answer
}

/// What the last of so many ends of a builder gives, in hexadecimal, or the refusal.
fn finalized<X: AllocGlobal + Abort>(
    rt: &X,
    builder: &mut SignerInfoBuilder<Told>,
    ends: usize,
) -> String {
    if ends > 1 {
        drop(good(rt, builder.finalize(rt.alloc())));
    }
    in_hexadecimal(rt, builder.finalize(rt.alloc()))
}

fn other_certificate<X: AllocGlobal + Abort>(rt: &X) -> CertificateChoices {
    CertificateChoices::Other(OtherCertificateFormat {
        other_cert_format: identifier(rt, "1.3.1"),
        other_cert: good(rt, Any::new(rt.alloc(), Tag(5), &[])),
    })
}

// Messages without signers: the type of the content, which is elsewhere, and how often another certificate
// is in it.
const UNSIGNED: &str = "\
SignedDataBuilder data 0 => 302306092a864886f70d010702a01630140201013100300b06092a864886f70d0107013100
SignedDataBuilder data 1 => 302f06092a864886f70d010702a02230200201053100300b06092a864886f70d010701a00aa308300606022b0105003100
SignedDataBuilder data 2 => Err(Asn1(SetDuplicate))
SignedDataBuilder signed_data 0 => 302306092a864886f70d010702a01630140201033100300b06092a864886f70d0107023100";

/// What the builder makes of that many certificates, added one after the other, each behind a build.
fn of_message<X: AllocGlobal + Abort>(rt: &X, words: &str) -> String {
    let (word, count) = halves(rt, words, " ");
    let content = EncapsulatedContentInfo {
        econtent_type: if word == "data" {
            identifiers::data()
        } else {
            identifiers::signed_data()
        },
        econtent: None,
    };
    let answer = unsigned(rt, &content, number(rt, count));
    drop(content);
    answer
}

fn unsigned<X: AllocGlobal + Abort>(
    rt: &X,
    content: &EncapsulatedContentInfo,
    count: usize,
) -> String {
    let mut builder = SignedDataBuilder::new(rt.alloc(), content);
    for _ in 0..count {
        build_and_add(rt, &mut builder);
    }
    let answer = tried(rt, builder.build(rt.alloc()));
    drop(builder);
    answer
}

fn build_and_add<X: AllocGlobal + Abort>(rt: &X, builder: &mut SignedDataBuilder) {
    drop(good(rt, builder.build(rt.alloc())));
    good(rt, builder.add_certificate(other_certificate(rt)));
}

// A message with another sort of revocation information, which has version 5 (RFC 5652, section 5.1), and the
// signer by issuer with an attribute that isn't signed, which stands behind the signature.
const ADDED: &str = "\
crl - => 302f06092a864886f70d010702a02230200201053100300b06092a864886f70d010701a10aa108300406022b0105003100
unsigned_attribute 1.2.840.113549.1.7.1 => 308201020201013014300e310c300a06035504030c036f6e6502020101300b0609608648016503040201a069301806092a864886f70d010903310b06092a864886f70d010701301c06092a864886f70d010905310f170d3236313132383037303030305a302f06092a864886f70d01090431220420434728a410a78f56fc1b5899c3593436e61ab0c731e9072d95e96db290205e53300a06082a8648ce3d04030204473045022100fc267d4d0672cb5dff6ea446d10740f55443c11d01fe51e4526a3081b742c1190220480dbe926c3045a9f9231e6ef7b594aa76e6f62fdf4fb34dd4d81c72428c1881a11a301806092a864886f70d010903310b06092a864886f70d010701";

fn other_list<X: AllocGlobal + Abort>(rt: &X) -> RevocationInfoChoice {
    RevocationInfoChoice::Other(OtherRevocationInfoFormat {
        other_format: algorithm(rt, "1.3.1"),
        other: good(rt, Any::new(rt.alloc(), Tag(5), &[])),
    })
}

fn with_list<X: AllocGlobal + Abort>(rt: &X) -> String {
    let content = content(rt, "elsewhere");
    let mut builder = SignedDataBuilder::new(rt.alloc(), &content);
    good(rt, builder.add_crl(other_list(rt)));
    let answer = tried(rt, builder.build(rt.alloc()));
    drop(builder);
    drop(content);
    answer
}

fn with_unsigned<X: AllocGlobal + Abort>(rt: &X, oid: &str) -> String {
    let (told, content) = (signer(rt), content(rt, "here"));
    let mut one = by_one(rt, &told, &content);
    good(rt, one.add_unsigned_attribute(typed(rt, oid)));
    let answer = tried(rt, one.build(rt.alloc()));
    drop(content);
    drop(told);
    answer
}

// A certificate alone, and two that are one.
const ALONE: &str = "\
from_certificate certificate => handed_on
from_path certificate => Err(SetDuplicate)";

/// The refusal of a path of a certificate's copies.
fn of_path<X: AllocGlobal + Abort>(rt: &X, text: &str) -> String {
    let one: Certificate = read(rt, text);
    let copy = good(rt, one.duplicate(rt.alloc()));
    let path = good(rt, vec![in rt.alloc(); one, copy]);
    tried(rt, ContentInfo::from_path(rt.alloc(), path))
}

fn text_of<X: AllocGlobal + Abort>(rt: &X, error: Error) -> String {
    numbered(rt, error.number(), error)
}

fn error(number: usize) -> Error {
    match number {
        1 => Error::Asn1(DerError::TooLong),
        2 => Error::Signature,
        3 => Error::Builder(BuilderFault::ContentTwice),
        _ => Error::NoMemory,
    }
}

fn fault(number: usize) -> BuilderFault {
    match number {
        1 => BuilderFault::ContentTwice,
        2 => BuilderFault::NoHasher,
        _ => BuilderFault::ContentType,
    }
}

// The number and the text of each refusal, and the text of each fault of a builder.
const TEXTS: &str = "\
Error 1 => 1 Asn1
Error 2 => 2 Signature
Error 3 => 3 Builder
Error 4 => 4 NoMemory
BuilderFault 1 => ContentTwice
BuilderFault 2 => NoHasher
BuilderFault 3 => ContentType";

#[test]
fn builders(rt: HostRuntime) {
    check_tables(
        &rt,
        &[
            ATTRIBUTES, BY_ISSUER, SIGNERS, UNSIGNED, ADDED, ALONE, TEXTS,
        ],
    );
}
