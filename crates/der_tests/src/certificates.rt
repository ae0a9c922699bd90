// Certificates that OpenSSL made, changes of them, and encodings worked out by hand.
use crate::certificate_data::{ISSUER, LOG};
use crate::tables::{
    Hexadecimal, changed, check_tables, debug, encoded, good, halves, hex_of, holds,
    in_hexadecimal, number, place, shown, string, tagged, there,
};
use der_core::{DerError, ObjectIdentifier, OctetString};
use foundation::Duplicate;
use std::process::Abort;
use x509_core::*;

const CALLS: &str = "\
part changed sct_list OtherName::new OtherName::tag_byte RsaKeyView SpkiView";

/// The answer of a call that is given octets and words behind them, if any; for any other name that of one
/// that is given a certificate.
pub fn answer<X: AllocGlobal + Abort>(rt: &X, name: &str, bytes: &[u8], words: &str) -> String {
    match place(name, CALLS) {
        0 => stands_at(rt, bytes, words),
        1 => refusal_of_changed(rt, bytes, words),
        2 => timestamps_in(rt, bytes),
        3 => encoded(rt, other_name(rt, bytes)),
        4 => tag_of(rt, bytes),
        5 => shown(rt, rsa_key_in(bytes)),
        6 => shown(rt, key_in(bytes)),
        _ => answer_of(rt, name, &read(rt, bytes), words),
    }
}

const CALLS_ON_CERTIFICATES: &str = "\
extension validity moments each_extension timestamp precert_tbs sct_signed_bytes sct_signed_bytes_of_zeros \
modulus_bits key";

fn answer_of<X: AllocGlobal + Abort>(rt: &X, name: &str, cert: &CertView, words: &str) -> String {
    match place(name, CALLS_ON_CERTIFICATES) {
        0 => extension_of(rt, cert, words),
        1 => debug(rt, (cert.not_before, cert.not_after)),
        2 => moments_of(rt, cert),
        3 => extensions_of(rt, cert),
        4 => last_timestamp(rt, cert),
        5 => is_signed_part(rt, cert),
        6 => signed_for(rt, cert),
        7 => signed_zeros(rt, cert, words),
        8 => shown(rt, rsa_key_in(key_bits(rt, cert))),
        9 => shown(rt, key_in(cert.spki)),
        _ => string(rt, "no call"),
    }
}

/// The certificate that octets are.
fn read<'a, X: Abort>(rt: &X, bytes: &'a [u8]) -> CertView<'a> {
    good(rt, CertView::parse(bytes))
}

// Where OpenSSL finds the parts of a certificate.
const PLACES: &str = "\
part p256 tbs 4 330 => true
part p256 serial 15 17 => true
part p256 issuer 29 46 => true
part p256 subject 78 95 => true
part p256 spki 95 186 => true
part p256 signature 345 416 => true
part p384 tbs 4 285 => true
part p384 serial 15 20 => true
part p384 issuer 32 47 => true
part p384 subject 79 94 => true
part p384 spki 94 214 => true
part p384 signature 300 402 => true
part rsa tbs 4 318 => true
part rsa serial 15 16 => true
part rsa issuer 31 47 => true
part rsa subject 79 95 => true
part rsa spki 95 257 => true
part rsa signature 337 465 => true
part ed25519 tbs 4 197 => true
part ed25519 serial 14 35 => true
part ed25519 issuer 42 57 => true
part ed25519 subject 89 104 => true
part ed25519 spki 104 148 => true
part ed25519 signature 207 271 => true";

/// Whether the part with a name begins and ends at two places, read without memory and with it.
fn stands_at<X: AllocGlobal + Abort>(rt: &X, bytes: &[u8], words: &str) -> String {
    let in_memory = good(rt, CertView::parse_in(rt.alloc(), bytes));
    let stands = has_part(rt, &read(rt, bytes), bytes, words);
    debug(rt, stands && has_part(rt, &in_memory, bytes, words))
}

/// The octets between two places.
fn between<'a, X: Abort>(rt: &X, bytes: &'a [u8], places: &str) -> &'a [u8] {
    let (begin, end) = halves(rt, places, " ");
    there(rt, bytes.get(number(rt, begin)..number(rt, end)))
}

fn has_part<X: Abort>(rt: &X, cert: &CertView, bytes: &[u8], words: &str) -> bool {
    let (name, places) = halves(rt, words, " ");
    let part = between(rt, bytes, places);
    cert.whole == bytes && cert.version == 2 && part_named(cert, name) == part
}

fn part_named<'a>(cert: &CertView<'a>, name: &str) -> &'a [u8] {
    match place(name, "tbs serial issuer subject spki signature") {
        0 => cert.tbs,
        1 => cert.serial,
        2 => cert.issuer,
        3 => cert.subject,
        4 => cert.spki,
        5 => cert.signature,
        _ => &[],
    }
}

// The critical mark and the value of an extension; the identifiers of all, each with its mark behind it; the
// start and the end of the validity, as a date and in seconds since 1970.
const EXTENSIONS: &str = "\
extension p256 2.5.29.15 => Some((true, 03020780))
extension p256 2.5.29.37 => Some((false, 300a06082b06010505070303))
extension p256 2.5.29.17 => Some((true, 3015861368747470733a2f2f612e6578616d706c652f77))
extension p256 1.3.6.1.4.1.57264.1.8 => Some((false, 0c1168747470733a2f2f692e6578616d706c65))
extension p384 2.5.29.19 => Some((true, 30060101ff020101))
extension rsa 2.5.29.17 => Some((false, 300f810d62406578616d706c652e6f7267))
extension ed25519 2.5.29.19 => Some((true, 3000))
extension p256 2.5.29.19 => None
each_extension p256 => 551d0f01551d2500551d11012b0601040183bf30010800551d0e00
each_extension p384 => 551d1301551d0f01551d0e00
each_extension ed25519 => 551d1301551d0e00
validity p384 => (Civil { year: 2026, month: 11, day: 27, hour: 6, minute: 38, second: 59 }, Civil { year: 2036, month: 11, day: 24, hour: 6, minute: 38, second: 59 })
moments p384 => (1795761539, 2111121539)";

/// The identifiers of a certificate's extensions in their order, each with its critical mark behind it.
fn extensions_of<X: AllocGlobal + Abort>(rt: &X, cert: &CertView) -> String {
    let mut marked = Vec::new(rt.alloc());
    'each: for extension in cert.each_extension() {
        good(rt, marked.extend_from_slice(extension.oid));
        good(rt, marked.push(extension.critical as u8));
    }
    let answer = hex_of(rt, &marked);
    drop(marked);
    answer
}

fn moments_of<X: AllocGlobal + Abort>(rt: &X, cert: &CertView) -> String {
    let (from, to) = (cert.not_before.moment(), cert.not_after.moment());
    debug(rt, (from.as_second(), to.as_second()))
}

fn extension_of<X: AllocGlobal + Abort>(rt: &X, cert: &CertView, oid: &str) -> String {
    let oid = good(rt, ObjectIdentifier::new(oid));
    match cert.extension(&oid) {
        Some(extension) => debug(rt, Some((extension.critical, Hexadecimal(extension.value)))),
        None => debug(rt, None::<bool>),
    }
}

// The identifier and the parameters of a key, and the number of unused bits, the length and the last
// octet of its bits.
const KEYS: &str = "\
key p256 => (2a8648ce3d0201, 06082a8648ce3d030107, 0, 65, Some(83))
key p384 => (2a8648ce3d0201, 06052b81040022, 0, 97, Some(218))
key rsa => (2a864886f70d010101, 0500, 0, 140, Some(1))
key ed25519 => (2b6570, , 0, 32, Some(86))
SpkiView 3009300306012a030204f0 => (2a, , 4, 1, Some(240))
SpkiView  => Der(Truncated)
SpkiView 3000 => Der(Truncated)
SpkiView 3009300306012a040204f0 => Der(Tag)
SpkiView 3009300306018003020400 => Der(Value)
SpkiView 3009300306012a030204f1 => Der(Value)
SpkiView 300b300306012a030204f00500 => Der(Trailing)
SpkiView 300d300706012a05000500030204f0 => Der(Trailing)
SpkiView 3009300306012a030204f000 => Der(Trailing)";

type KeyParts<'a> = (Hexadecimal<'a>, Hexadecimal<'a>, u8, usize, Option<&'a u8>);

fn key_in(bytes: &[u8]) -> Result<KeyParts, X509Error> {
    let key = SpkiView::parse(bytes)?;
    Ok((
        Hexadecimal(key.oid),
        Hexadecimal(key.parameters.unwrap_or(&[])),
        key.unused_bits,
        key.key.len(),
        key.key.last(),
    ))
}

// The bits of an RSA key's modulus, and its public exponent.
const RSA_KEYS: &str = "\
modulus_bits rsa => (1024, 010001)
RsaKeyView 3006020100020103 => (0, 03)
RsaKeyView 3006020101020103 => (1, 03)
RsaKeyView 300702020080020103 => (8, 03)
RsaKeyView 300702020100020103 => (9, 03)
RsaKeyView 30060201ff020103 => Der(Value)
RsaKeyView 300702020001020103 => Der(Value)
RsaKeyView 3003020101 => Der(Truncated)
RsaKeyView 3009020101020103020105 => Der(Trailing)
RsaKeyView 300602010102010300 => Der(Trailing)";

fn rsa_key_in(bytes: &[u8]) -> Result<(u64, Hexadecimal), X509Error> {
    let key = RsaKeyView::parse(bytes)?;
    Ok((key.modulus_bits(), Hexadecimal(key.exponent)))
}

fn key_bits<'a, X: Abort>(rt: &X, cert: &CertView<'a>) -> &'a [u8] {
    good(rt, SpkiView::parse(cert.spki)).key
}

// Why the P-256 certificate with the octet at a place changed, or one more behind it, is refused.
const CHANGES: &str = "\
changed p256 0 31 => Some(Der(Tag))
changed p256 1 80 => Some(Der(Length))
changed p256 3 9d => Some(Der(Truncated))
changed p256 12 00 => Some(Version)
changed p256 12 03 => Some(Version)
changed p256 15 00 => Some(Der(Value))
changed p256 28 03 => Some(Algorithms)
changed p256 29 31 => Some(Der(Tag))
changed p256 48 16 => Some(Time)
changed p256 52 32 => Some(Time)
changed p256 120 08 => Some(Der(Value))
changed p256 186 a1 => Some(Der(Trailing))
changed p256 201 00 => Some(Der(Value))
changed p256 235 0f => Some(Extension)
changed p256 344 01 => Some(Der(Value))
changed p256 416 00 => Some(Der(Trailing))
changed p256 15 7e => None";

/// The refusal, which is the same without memory and with it.
fn refusal_of<X: AllocGlobal + Abort>(rt: &X, bytes: &[u8]) -> String {
    let refusal = CertView::parse(bytes).err();
    holds(rt, CertView::parse_in(rt.alloc(), bytes).err() == refusal);
    debug(rt, refusal)
}

fn refusal_of_changed<X: AllocGlobal + Abort>(rt: &X, bytes: &[u8], words: &str) -> String {
    let (place, octet) = halves(rt, words, " ");
    let octet = good(rt, u8::from_str_radix(octet, 16));
    let changed = changed(rt, bytes, number(rt, place), octet);
    let answer = refusal_of(rt, &changed);
    drop(changed);
    answer
}

// The last timestamp in a certificate's list, whether its log is the one, its milliseconds, its
// extensions, its algorithms and the length of its signature, and whether its copy equals it.
const TIMESTAMPS: &str = "\
timestamp listed => (true, 1764225540123, 0, [4, 3], 70, true)
precert_tbs p256 => true
sct_signed_bytes listed => signed
sct_signed_bytes_of_zeros listed 16777216 => SctList
sct_list 04020000 => 0
sct_list  => SctList
sct_list 0400 => SctList
sct_list 04020001 => SctList
sct_list 0403000000 => SctList
sct_list 0402000000 => SctList
sct_list 05020000 => SctList
sct_list 040400020000 => SctList
sct_list 04050003000100 => SctList";

/// The timestamps in a certificate's list.
fn scts_of<X: AllocGlobal + Abort>(rt: &X, cert: &CertView) -> Vec<Sct> {
    let oid = good(rt, ObjectIdentifier::new("1.3.6.1.4.1.11129.2.4.2"));
    let extension = there(rt, cert.extension(&oid));
    good(rt, sct_list(rt.alloc(), extension.value))
}

fn timestamp_shown<X: AllocGlobal + Abort>(rt: &X, sct: &Sct) -> String {
    let copy = good(rt, sct.duplicate(rt.alloc()));
    let is_copied = copy == *sct;
    drop(copy);
    let (is_of_log, milliseconds) = (sct.log_id() == &LOG, sct.milliseconds());
    let (extensions, signature) = (sct.extensions().len(), sct.signature().len());
    debug(
        rt,
        (
            is_of_log,
            milliseconds,
            extensions,
            sct.algorithm(),
            signature,
            is_copied,
        ),
    )
}

fn last_timestamp<X: AllocGlobal + Abort>(rt: &X, cert: &CertView) -> String {
    let scts = scts_of(rt, cert);
    let answer = timestamp_shown(rt, there(rt, scts.last()));
    drop(scts);
    answer
}

/// The number of timestamps in a list.
fn timestamps_in<X: AllocGlobal + Abort>(rt: &X, bytes: &[u8]) -> String {
    match sct_list(rt.alloc(), bytes) {
        Ok(scts) => {
            let count = scts.len();
            drop(scts);
            debug(rt, count)
        }
        Err(refusal) => debug(rt, refusal),
    }
}

fn signed_part<X: AllocGlobal + Abort>(rt: &X, cert: &CertView) -> OctetString {
    good(rt, precert_tbs(rt.alloc(), cert))
}

/// Whether what a log signs for a certificate without timestamps is its signed part.
fn is_signed_part<X: AllocGlobal + Abort>(rt: &X, cert: &CertView) -> String {
    let part = signed_part(rt, cert);
    let is_same = part.as_bytes() == cert.tbs;
    drop(part);
    debug(rt, is_same)
}

/// What the log of a certificate's last timestamp signs with it for a signed part.
fn signed_with<X: AllocGlobal + Abort>(rt: &X, cert: &CertView, tbs: &[u8]) -> String {
    let scts = scts_of(rt, cert);
    let sct = there(rt, scts.last());
    let signed = sct_signed_bytes(rt.alloc(), sct, &ISSUER, tbs);
    drop(scts);
    in_hexadecimal(rt, signed)
}

/// What the log signed for a certificate.
fn signed_for<X: AllocGlobal + Abort>(rt: &X, cert: &CertView) -> String {
    let part = signed_part(rt, cert);
    let answer = signed_with(rt, cert, part.as_bytes());
    drop(part);
    answer
}

/// The same for so many octets 0 in place of the signed part.
fn signed_zeros<X: AllocGlobal + Abort>(rt: &X, cert: &CertView, count: &str) -> String {
    let zeros = good(rt, vec![in rt.alloc(); 0u8; number(rt, count)]);
    let answer = signed_with(rt, cert, &zeros);
    drop(zeros);
    answer
}

// Names of other forms; the first octet is the tag.
const OTHER_NAMES: &str = "\
OtherName::new 826162 => 82026162
OtherName::tag_byte 826162 => Tag(130)
OtherName::new 8161 => Value";

fn other_name<X: AllocGlobal + Abort>(rt: &X, bytes: &[u8]) -> Result<OtherName, DerError> {
    let (tag, contents) = tagged(rt, bytes);
    OtherName::new(rt.alloc(), tag, contents)
}

fn tag_of<X: AllocGlobal + Abort>(rt: &X, bytes: &[u8]) -> String {
    let name = good(rt, other_name(rt, bytes));
    let tag = name.tag_byte();
    drop(name);
    debug(rt, tag)
}

#[test]
fn certificates(rt: HostRuntime) {
    check_tables(
        &rt,
        &[
            PLACES,
            EXTENSIONS,
            KEYS,
            RSA_KEYS,
            CHANGES,
            TIMESTAMPS,
            OTHER_NAMES,
        ],
    );
}
