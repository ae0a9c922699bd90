// Tables of envelopes and statements, one row a line: a call, what it is given, ` => ` and the answer, worked out by
// hand. `read` answers what an envelope holds: its type, its payload, its signature and the key that this names.
// `pae` answers what the signature signs of a type and a payload, between angle brackets. `statement` answers how
// many subjects there are and of which algorithms they tell digests. `matches` is given subjects, and answers
// whether one has the SHA-256 of no octets, whether one has its SHA-512, and the same of the call that gets the
// algorithm, at last of SHA-384. `tells` is given octets in hexadecimal and the text of a subject's SHA-256.
// In a text `*` stands for the members before the subjects, and the names in angle brackets for digests.
use crate::tables::{copied, good, halves, hexadecimal, hold, place, printed, replaced, string};
use foundation::Sequence;
use serde_json::Value;
use sigstore_envelopes::{
    DsseEnvelope, DsseSignature, KeyId, Statement, Subject, encodings_are_distinct,
};
use sigstore_types_parts::{
    FromValue, HashAlgorithm, PayloadBytes, Sha256Hash, Sha512Hash, SignatureBytes, Text,
    TypesError,
};
use std::process::Abort;

const READ: &str =
    r#"read {"payload":"aGk=","payloadType":"t","signatures":[{"sig":"AQ==","keyid":"k"}]} => "t" 6869 01 "k"
read {"payload":"aGk=","payloadType":"t","signatures":[{"sig":"AQ==","keyid":null}]} => "t" 6869 01 ""
read {"payload":"aGk=","payloadType":"t","signatures":[{"sig":"AQ=="}]} => "t" 6869 01 ""
read {"other":0,"payload":"","payloadType":"","signatures":[{"cert":0,"sig":"","keyid":""}]} => ""   ""
read [] => Json
read {} => Field { member: Payload }
read {"payload":null} => Field { member: Payload }
read {"payload":0,"payloadType":0,"signatures":0} => Field { member: Payload }
read {"payload":"aGk"} => Base64
read {"payload":"!","payloadType":0} => Base64
read {"payload":"aGk=","signatures":0} => Field { member: PayloadType }
read {"payload":"aGk=","payloadType":null,"signatures":0} => Field { member: PayloadType }
read {"payload":"aGk=","payloadType":["t"],"signatures":0} => Field { member: PayloadType }
read {"payload":"aGk=","payloadType":"t"} => Field { member: Signatures }
read {"payload":"aGk=","payloadType":"t","signatures":null} => Field { member: Signatures }
read {"payload":"aGk=","payloadType":"t","signatures":{"sig":"AQ=="}} => Field { member: Signatures }
read {"payload":"aGk=","payloadType":"t","signatures":[]} => Field { member: Signatures }
read {"payload":"aGk=","payloadType":"t","signatures":["AQ=="]} => Field { member: Signatures }
read {"payload":"aGk=","payloadType":"t","signatures":[{}]} => Field { member: Sig }
read {"payload":"aGk=","payloadType":"t","signatures":[{"sig":null,"keyid":0}]} => Field { member: Sig }
read {"payload":"aGk=","payloadType":"t","signatures":[{"sig":"A","keyid":0}]} => Base64
read {"payload":"aGk=","payloadType":"t","signatures":[{"sig":"AQ==","keyid":0}]} => Field { member: SignatureKeyid }
read {"payload":"aGk=","payloadType":"t","signatures":[{"sig":"AQ=="},{"sig":"AQ=="}]} => Field { member: Signatures }
read {"payload":"aGk=","payloadType":"t","signatures":[{"sig":"AQ=="},{"sig":"A"}]} => Base64
read {"payload":"aGk=","payloadType":"t","signatures":[{"sig":"AQ=="},{}]} => Field { member: Sig }"#;

// The first one is that of the DSSE protocol.
const ENCODINGS: &str =
    "pae http://example.com/HelloWorld|hello world => <DSSEv1 29 http://example.com/HelloWorld 11 hello world>
pae t| => <DSSEv1 1 t 0 >
pae | => <DSSEv1 0  0 >
pae ü/€|é => <DSSEv1 6 ü/€ 2 é>
pae a b|1 c 2 d => <DSSEv1 3 a b 7 1 c 2 d>";

const STATEMENTS: &str = r#"statement {*,"subject":[]} => 0 []
statement {*,"subject":[{"digest":{}}]} => 1 []
statement {*,"subject":[{"digest":{"sha512":"x"}},{"digest":{"sha256":"y","md5":0}}]} => 2 [Sha2256, Sha2512]
statement {*,"subject":[{"name":0,"digest":{"sha256":null,"sha512":"","sha1":1}}],"predicate":{"a":[1,null]}} => 1 [Sha2512]
statement {*,"subject":[{"digest":{"sha256":"x"}},{"digest":{"sha256":"x"}}]} => 2 [Sha2256]
statement { => Json
statement {"predicate":{"time":1.5}} => Float
statement {*,"subject":[],"predicate":{"time":1.5}} => Float
statement [] => Json
statement {} => Field { member: StatementType }
statement {"_type":null,"predicateType":0} => Field { member: StatementType }
statement {"_type":1,"predicateType":"p","subject":[]} => Field { member: StatementType }
statement {"_type":"t","subject":0} => Field { member: PredicateType }
statement {"_type":"t","predicateType":[],"subject":0} => Field { member: PredicateType }
statement {*} => Field { member: Subject }
statement {*,"subject":null} => Field { member: Subject }
statement {*,"subject":{"digest":{}}} => Field { member: Subject }
statement {*,"subject":[0]} => Field { member: Subject }
statement {*,"subject":[{}]} => Field { member: Digest }
statement {*,"subject":[{"digest":null}]} => Field { member: Digest }
statement {*,"subject":[{"digest":"x"}]} => Field { member: Digest }
statement {*,"subject":[{"digest":{"sha256":0,"sha512":0}}]} => Field { member: Sha256 }
statement {*,"subject":[{"digest":{"sha256":"x","sha512":0}}]} => Field { member: Sha512 }
statement {*,"subject":[{"digest":{}},{"digest":{"sha512":[]}},{}]} => Field { member: Sha512 }"#;

const MATCHES: &str = r#"matches [] => (false, false, false, false, false)
matches [{"digest":{}}] => (false, false, false, false, false)
matches [{"digest":{"sha256":"<sha256>"}}] => (true, false, true, false, false)
matches [{"digest":{"sha256":"<SHA256>"}}] => (true, false, true, false, false)
matches [{"digest":{"sha512":"<sha512>"}}] => (false, true, false, true, false)
matches [{"digest":{"sha512":"<SHA512>"}}] => (false, true, false, true, false)
matches [{"digest":{"sha256":"<sha256>0"}}] => (false, false, false, false, false)
matches [{"digest":{"sha256":" <sha256>"}}] => (false, false, false, false, false)
matches [{"digest":{"sha256":"","sha512":""}}] => (false, false, false, false, false)
matches [{"digest":{"sha256":"<sha512>","sha512":"<sha256>"}}] => (false, false, false, false, false)
matches [{"digest":{"sha384":"<sha256>"}}] => (false, false, false, false, false)
matches [{"digest":{}},{"digest":{"sha256":"x"}},{"digest":{"sha256":"<sha256>","sha512":"<sha512>"}}] => (true, true, true, true, false)
matches [{"digest":{"sha512":"<sha512>"}},{"digest":{"sha256":"<sha256>","sha512":"x"}}] => (true, true, true, true, false)"#;

const TELLS: &str = "tells 0a|0A => true
tells 0a|0a => true
tells 0a|0b => false
tells 0a|1a => false
tells 0a|0a0 => false
tells 0a|0a0a => false
tells 0a0b|0a => false
tells 0a0b|0A0b => true
tells ff|FF => true
tells | => true";

// Digests of no octets (FIPS 180-4).
const DIGESTS: [(&str, &str); 5] = [
    (
        "*",
        r#""_type":"https://in-toto.io/Statement/v1","predicateType":"p""#,
    ),
    ("<sha256>", SHA256),
    (
        "<SHA256>",
        "E3B0C44298FC1C149AFBF4C8996FB92427AE41E4649B934CA495991B7852B855",
    ),
    ("<sha512>", SHA512),
    (
        "<SHA512>",
        "CF83E1357EEFB8BDF1542850D66D8007D620E4050B5715DC83F4A921D36CE9CE47D0D13C5D85F2B0FF8318D2877EEC2F63B931BD47417A81A538327AF927DA3E",
    ),
];

const SHA256: &str = "e3b0c44298fc1c149afbf4c8996fb92427ae41e4649b934ca495991b7852b855";

const SHA512: &str =
    "cf83e1357eefb8bdf1542850d66d8007d620e4050b5715dc83f4a921d36ce9ce47d0d13c5d85f2b0ff8318d2877eec2f63b931bd47417a81a538327af927da3e";

fn octets<X: AllocGlobal + Abort>(rt: &X, digits: &str) -> Vec<u8> {
    good(rt, hex::decode(rt.alloc(), digits))
}

fn text<X: AllocGlobal + Abort>(rt: &X, text: &str) -> Text {
    good(rt, Text::new(rt.alloc(), text))
}

// What an envelope holds.
fn told<X: AllocGlobal + Abort>(rt: &X, envelope: &DsseEnvelope) -> String {
    let payload = hexadecimal(rt, envelope.payload.as_bytes());
    let signature = hexadecimal(rt, envelope.signature.sig.as_bytes());
    let (name, key) = (
        envelope.payload_type.as_str(),
        envelope.signature.keyid.as_str(),
    );
    good(
        rt,
        format!(in rt.alloc(); "{name:?} {payload} {signature} {key:?}"),
    )
}

fn envelope_told<X: AllocGlobal + Abort>(rt: &X, envelope: DsseEnvelope) -> String {
    let told = told(rt, &envelope);
    drop(envelope);
    told
}

fn read<X: AllocGlobal + Abort>(rt: &X, text: &str) -> String {
    let value = good(rt, Value::from_str(rt.alloc(), text));
    let envelope: Result<DsseEnvelope, TypesError> = FromValue::from_value(rt.alloc(), &value);
    drop(value);
    match envelope {
        Ok(envelope) => envelope_told(rt, copied(rt, envelope)),
        Err(refusal) => printed(rt, refusal),
    }
}

fn pae<X: AllocGlobal + Abort>(rt: &X, cell: &str) -> String {
    let (name, payload) = halves(rt, cell, "|");
    let envelope = DsseEnvelope {
        payload_type: text(rt, name),
        payload: good(rt, PayloadBytes::from_bytes(rt.alloc(), payload.as_bytes())),
        signature: DsseSignature {
            sig: good(rt, SignatureBytes::from_bytes(rt.alloc(), &[])),
            keyid: KeyId::new(text(rt, "k")),
        },
    };
    let encoding = envelope.pae(rt.alloc());
    drop(envelope);
    let encoding = good(rt, String::from_utf8(good(rt, encoding).into_vec()));
    good(rt, format!(in rt.alloc(); "<{encoding}>"))
}

fn statement<X: AllocGlobal + Abort>(rt: &X, text: &str) -> String {
    match Statement::from_json(rt.alloc(), text.as_bytes()) {
        Ok(statement) => statement_told(rt, copied(rt, statement)),
        Err(refusal) => printed(rt, refusal),
    }
}

fn statement_told<X: AllocGlobal + Abort>(rt: &X, statement: Statement) -> String {
    let count = statement.subjects.len();
    let algorithms = statement.subject_algorithms(rt.alloc());
    drop(statement);
    let algorithms = good(rt, algorithms);
    let told = format!(in rt.alloc(); "{count} {:?}", algorithms.as_slice());
    drop(algorithms);
    good(rt, told)
}

// Whether one of the subjects has the digests of no octets.
fn matches<X: AllocGlobal + Abort>(rt: &X, subjects: &str) -> String {
    let text = replaced(
        rt,
        "{*,\"subject\":<>}",
        &[
            ("*", "\"_type\":\"t\",\"predicateType\":\"p\""),
            ("<>", subjects),
        ],
    );
    let statement = good(rt, Statement::from_json(rt.alloc(), text.as_bytes()));
    drop(text);
    let (short, long) = (octets(rt, SHA256), octets(rt, SHA512));
    let sha256 = good(rt, Sha256Hash::try_from(short.as_slice()));
    let sha512 = good(rt, Sha512Hash::try_from(long.as_slice()));
    let answers = (
        statement.matches_sha256(&sha256),
        statement.matches_sha512(&sha512),
        statement.tells(HashAlgorithm::Sha2256, short.as_slice()),
        statement.tells(HashAlgorithm::Sha2512, long.as_slice()),
        statement.tells(HashAlgorithm::Sha2384, short.as_slice()),
    );
    drop(statement);
    printed(rt, answers)
}

fn tells<X: AllocGlobal + Abort>(rt: &X, cell: &str) -> String {
    let (digits, told) = halves(rt, cell, "|");
    let mut subjects = Sequence::new(rt.alloc());
    let subject = Subject {
        sha256: Some(text(rt, told)),
        sha512: None,
    };
    good(rt, subjects.push(subject));
    let statement = Statement {
        predicate_type: text(rt, "p"),
        subjects,
    };
    let octets = octets(rt, digits);
    let answer = statement.tells(HashAlgorithm::Sha2256, octets.as_slice());
    drop(statement);
    printed(rt, answer)
}

/// The answer of a call that is given a text with marks.
pub fn answer<X: AllocGlobal + Abort>(rt: &X, given: &str) -> String {
    let (call, cell) = halves(rt, given, " ");
    let text = replaced(rt, cell, &DIGESTS);
    let answer = asked(rt, call, text.as_str());
    drop(text);
    answer
}

fn asked<X: AllocGlobal + Abort>(rt: &X, call: &str, text: &str) -> String {
    match place(call, "read pae statement matches tells") {
        0 => read(rt, text),
        1 => pae(rt, text),
        2 => statement(rt, text),
        3 => matches(rt, text),
        4 => tells(rt, text),
        _ => string(rt, "no call"),
    }
}

#[test]
fn envelopes_and_statements(rt: HostRuntime) {
    hold(&rt, "envelope", READ);
    hold(&rt, "envelope", ENCODINGS);
    hold(&rt, "envelope", STATEMENTS);
    hold(&rt, "envelope", MATCHES);
    hold(&rt, "envelope", TELLS);
    encodings_are_distinct();
}
