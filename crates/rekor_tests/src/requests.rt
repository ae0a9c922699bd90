// What is asked of a log and sent to it: each request's method, path and body were worked out by hand from the API of
// Rekor, from rekor-tiles and from C2SP tlog-tiles.
use crate::entries::{envelope_of, key_of, signature_of};
use crate::words::{
    copied, expanded, good, halves, hold, holds, marked, number, place, string, width,
};
use sigstore_entries::LogIndex;
use sigstore_envelopes::{DsseEnvelope, KeyId};
use sigstore_pem::PemArmor;
use sigstore_rekor::{
    DsseEntry, EntryUuid, HashedRekord, HashedRekordV2, RekorApiVersion, RekorV2KeyDetails,
    Request, SearchIndex, bodies_are_read, create_dsse_entry, create_entry, create_entry_v2,
    get_checkpoint, get_entry_bundle, get_entry_by_index, get_entry_by_uuid, get_tile,
    paths_are_distinct, search_by_hash, search_index, tile_path,
};
use sigstore_rekor_parts::sha256_from_hex;
use sigstore_types_parts::{DerCertificate, Sha256Hash, SignatureBytes, Text};
use std::process::Abort;
use std::rt::HostRuntime;

// An index and a width, and their path.
const PATHS: &str = "\
18446744073709551615 - => x018/x446/x744/x073/x709/x551/615
1234067 - => x001/x234/067
1234 7 => x001/234.p/7
5 255 => 005.p/255
0 - => 000
0 1 => 000.p/1
255 - => 255
999 - => 999
1000 - => x001/000
1000 255 => x001/000.p/255
999999 - => x999/999
1000000 - => x001/x000/000
1000000000000000000 - => x001/x000/x000/x000/x000/x000/000
999999999999999999 8 => x999/x999/x999/x999/x999/999.p/8";

const REQUESTS: &str = r#"uuid 24296fb24b8ad77a => Get /api/v1/log/entries/24296fb24b8ad77a
uuid  => Get /api/v1/log/entries/
index 0 => Get /api/v1/log/entries?logIndex=0
index 9223372036854775807 => Get /api/v1/log/entries?logIndex=9223372036854775807
rekord1 p256 => Post /api/v1/log/entries {"apiVersion":"0.0.1","kind":"hashedrekord","spec":{"data":{"hash":{"algorithm":"sha256","value":"<digest>"}},"signature":{"content":"<p256.message>","publicKey":{"content":"<p256.certificate>"}}}}
rekord1 p384 => Post /api/v1/log/entries {"apiVersion":"0.0.1","kind":"hashedrekord","spec":{"data":{"hash":{"algorithm":"sha256","value":"<digest>"}},"signature":{"content":"<p384.message>","publicKey":{"content":"<p384.certificate>"}}}}
dsse p256 => Post /api/v1/log/entries {"apiVersion":"0.0.1","kind":"dsse","spec":{"proposedContent":{"envelope":"{\"payload\":\"<payload>\",\"payloadType\":\"application/vnd.in-toto+json\",\"signatures\":[{\"sig\":\"<p256.envelope>\"}]}","verifiers":["<p256.certificate>"]}}}
dsse ed k"1\é => Post /api/v1/log/entries {"apiVersion":"0.0.1","kind":"dsse","spec":{"proposedContent":{"envelope":"{\"payload\":\"<payload>\",\"payloadType\":\"application/vnd.in-toto+json\",\"signatures\":[{\"keyid\":\"k\\\"1\\\\é\",\"sig\":\"<ed.envelope>\"}]}","verifiers":["<ed.certificate>"]}}}
rekord2 certificate AQI= => Post /api/v2/log/entries {"hashedRekordRequestV002":{"digest":"<digest.bytes>","signature":{"content":"<p256.message>","verifier":{"keyDetails":"PKIX_ECDSA_P256_SHA_256","x509Certificate":{"rawBytes":"AQI="}}}}}
rekord2 certificate <p256.certificate.der> => Post /api/v2/log/entries {"hashedRekordRequestV002":{"digest":"<digest.bytes>","signature":{"content":"<p256.message>","verifier":{"keyDetails":"PKIX_ECDSA_P256_SHA_256","x509Certificate":{"rawBytes":"<p256.certificate.der>"}}}}}
rekord2 key p256 => Post /api/v2/log/entries {"hashedRekordRequestV002":{"digest":"<digest.bytes>","signature":{"content":"<p256.message>","verifier":{"keyDetails":"PKIX_ECDSA_P256_SHA_256","publicKey":{"rawBytes":"<p256.der>"}}}}}
hash <digest> => Post /api/v1/index/retrieve {"hash":"sha256:<digest>"}
hash <NOTHING> => Post /api/v1/index/retrieve {"hash":"sha256:<nothing>"}
email a@example.com => Post /api/v1/index/retrieve {"email":"a@example.com"}
email "a\b/é"@example.com => Post /api/v1/index/retrieve {"email":"\"a\\b/é\"@example.com"}
email  => Post /api/v1/index/retrieve {"email":""}
checkpoint  => Get /api/v2/checkpoint
tile 0 5 255 => Get /api/v2/tile/0/005.p/255
tile 63 1234067 - => Get /api/v2/tile/63/x001/x234/067
tile 4294967295 0 - => Get /api/v2/tile/4294967295/000
bundle 1234 7 => Get /api/v2/tile/entries/x001/234.p/7
bundle 1000 - => Get /api/v2/tile/entries/x001/000"#;

/// The path of a tile: its index and width.
pub fn path<X: AllocGlobal + Abort>(rt: &X, given: &str) -> String {
    let (index, rest) = halves(rt, given, " ");
    let path = tile_path(rt.alloc(), number(rt, index), width(rt, rest));
    good(rt, path).into_string()
}

fn told<X: AllocGlobal + Abort>(rt: &X, request: &Request) -> String {
    let (method, path) = (request.method, request.path.as_str());
    if request.body.as_bytes().is_empty() {
        return good(rt, format!(in rt.alloc(); "{method:?} {path}"));
    }
    let body = good(rt, str::from_utf8(request.body.as_bytes()));
    good(rt, format!(in rt.alloc(); "{method:?} {path} {body}"))
}

fn shown<X: AllocGlobal + Abort>(rt: &X, request: Request) -> String {
    let request = copied(rt, request);
    let told = told(rt, &request);
    drop(request);
    marked(rt, told)
}

fn text<X: AllocGlobal + Abort>(rt: &X, text: &str) -> Text {
    good(rt, Text::new(rt.alloc(), text))
}

/// The message's digest, as requests have it.
pub fn digest<X: AllocGlobal + Abort>(rt: &X) -> Sha256Hash {
    hash_of(rt, "<digest>")
}

fn hash_of<X: AllocGlobal + Abort>(rt: &X, mark: &str) -> Sha256Hash {
    let digits = expanded(rt, mark, "p256");
    good(rt, sha256_from_hex(digits.as_str()))
}

/// A certificate in base64, which may be a mark.
pub fn certificate<X: AllocGlobal + Abort>(rt: &X, word: &str, key: &str) -> DerCertificate {
    let encoded = expanded(rt, word, key);
    good(
        rt,
        DerCertificate::from_base64(rt.alloc(), encoded.as_str()),
    )
}

fn by_uuid<X: AllocGlobal + Abort>(rt: &X, word: &str) -> Request {
    let uuid = copied(rt, EntryUuid::new(text(rt, word)));
    holds(rt, uuid.as_str() == word);
    good(rt, get_entry_by_uuid(rt.alloc(), &uuid))
}

fn by_index<X: AllocGlobal + Abort>(rt: &X, word: &str) -> Request {
    let index = good(rt, LogIndex::new(number(rt, word)));
    good(rt, get_entry_by_index(rt.alloc(), index))
}

fn is_rekord(entry: &HashedRekord, digest: &Sha256Hash, signature: &SignatureBytes) -> bool {
    entry.hash() == digest && entry.signature() == signature
}

fn rekord1<X: AllocGlobal + Abort>(rt: &X, key: &str) -> Request {
    let (digest, signature) = (digest(rt), signature_of(rt, key));
    let certificate = certificate(rt, "<.certificate.der>", key);
    let entry = HashedRekord::new(rt.alloc(), &PemArmor, &digest, &signature, &certificate);
    drop(certificate);
    let entry = copied(rt, good(rt, entry));
    let is_kept = is_rekord(&entry, &digest, &signature);
    drop((digest, signature));
    holds(rt, is_kept);
    let request = create_entry(rt.alloc(), &entry);
    drop(entry);
    good(rt, request)
}

// The envelope of a key, under a name of the key.
fn named<X: AllocGlobal + Abort>(rt: &X, key: &str, name: &str) -> DsseEnvelope {
    let mut envelope = envelope_of(rt, key);
    envelope.signature.keyid = KeyId::new(text(rt, name));
    envelope
}

fn dsse<X: AllocGlobal + Abort>(rt: &X, given: &str) -> Request {
    let (key, name) = match given.split_once(" ") {
        Some((key, name)) => (key, name),
        None => (given, ""),
    };
    let envelope = named(rt, key, name);
    let certificate = certificate(rt, "<.certificate.der>", key);
    let entry = DsseEntry::new(rt.alloc(), &PemArmor, &envelope, &certificate);
    drop((envelope, certificate));
    let entry = copied(rt, good(rt, entry));
    let request = create_dsse_entry(rt.alloc(), &entry);
    drop(entry);
    good(rt, request)
}

/// What is sent to a log of the second version: by a certificate in base64, or by a key's name.
pub fn sent<X: AllocGlobal + Abort>(rt: &X, sort: &str, word: &str) -> HashedRekordV2 {
    let (digest, signature) = (digest(rt), signature_of(rt, "p256"));
    let details = RekorV2KeyDetails::PkixEcdsaP256Sha256;
    if sort == "key" {
        let key = key_of(rt, word);
        let alloc = rt.alloc();
        good(
            rt,
            HashedRekordV2::new_with_public_key(alloc, &digest, &signature, &key, details),
        )
    } else {
        let certificate = certificate(rt, word, "p256");
        let alloc = rt.alloc();
        good(
            rt,
            HashedRekordV2::new_with_certificate(alloc, &digest, &signature, &certificate, details),
        )
    }
}

fn rekord2<X: AllocGlobal + Abort>(rt: &X, given: &str) -> Request {
    let (sort, word) = halves(rt, given, " ");
    let entry = copied(rt, sent(rt, sort, word));
    let request = create_entry_v2(rt.alloc(), &entry);
    drop(entry);
    good(rt, request)
}

// By both calls.
fn by_hash<X: AllocGlobal + Abort>(rt: &X, word: &str) -> Request {
    let hash = hash_of(rt, word);
    let query = copied(rt, good(rt, SearchIndex::sha256(rt.alloc(), &hash)));
    let searched = search_index(rt.alloc(), &query);
    let request = search_by_hash(rt.alloc(), &hash);
    drop((hash, query));
    let (searched, request) = (good(rt, searched), good(rt, request));
    let is_same = searched == request;
    drop(searched);
    holds(rt, is_same);
    request
}

fn by_email<X: AllocGlobal + Abort>(rt: &X, word: &str) -> Request {
    let query = SearchIndex::email(text(rt, word));
    let request = search_index(rt.alloc(), &query);
    drop(query);
    good(rt, request)
}

fn tile<X: AllocGlobal + Abort>(rt: &X, given: &str) -> Request {
    let (level, rest) = halves(rt, given, " ");
    let (index, rest) = halves(rt, rest, " ");
    let level = good(rt, level.parse::<u32>());
    let (index, width) = (number(rt, index), width(rt, rest));
    good(rt, get_tile(rt.alloc(), level, index, width))
}

fn bundle<X: AllocGlobal + Abort>(rt: &X, given: &str) -> Request {
    let (index, rest) = halves(rt, given, " ");
    let (index, width) = (number(rt, index), width(rt, rest));
    good(rt, get_entry_bundle(rt.alloc(), index, width))
}

/// A request by its maker.
pub fn request<X: AllocGlobal + Abort>(rt: &X, given: &str) -> String {
    let (maker, rest) = halves(rt, given, " ");
    match place(
        maker,
        "uuid index rekord1 dsse rekord2 hash email checkpoint tile bundle",
    ) {
        0 => shown(rt, by_uuid(rt, rest)),
        1 => shown(rt, by_index(rt, rest)),
        2 => shown(rt, rekord1(rt, rest)),
        3 => shown(rt, dsse(rt, rest)),
        4 => shown(rt, rekord2(rt, rest)),
        5 => shown(rt, by_hash(rt, rest)),
        6 => shown(rt, by_email(rt, rest)),
        7 => shown(rt, good(rt, get_checkpoint(rt.alloc()))),
        8 => shown(rt, tile(rt, rest)),
        9 => shown(rt, bundle(rt, rest)),
        _ => string(rt, "no maker"),
    }
}

fn hold_versions<X: Abort>(rt: &X) {
    holds(rt, RekorApiVersion::default() == RekorApiVersion::V1);
    holds(rt, RekorApiVersion::from_major(0).is_none());
    holds(
        rt,
        RekorApiVersion::from_major(1) == Some(RekorApiVersion::V1),
    );
    holds(
        rt,
        RekorApiVersion::from_major(2) == Some(RekorApiVersion::V2),
    );
    holds(rt, RekorApiVersion::from_major(3).is_none());
    holds(
        rt,
        RekorApiVersion::V1.major() == 1 && RekorApiVersion::V2.major() == 2,
    );
}

#[test]
fn requests_are_made(rt: HostRuntime) {
    paths_are_distinct();
    bodies_are_read();
    hold_versions(&rt);
    hold(&rt, &[("path", PATHS), ("request", REQUESTS)]);
}
