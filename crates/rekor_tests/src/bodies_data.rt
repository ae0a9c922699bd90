// Bodies, and tables of what is read of them.

/// Bodies by their names, as logs write them, with marks in the places of what differs from entry to entry. `text` is
/// no body: a row puts one in its place.
pub const BODIES: &str =
    r#"rekord1 {"apiVersion":"0.0.1","kind":"hashedrekord","spec":{"data":{"hash":{"algorithm":"sha256","value":"<digest>"}},"signature":{"content":"<.message>","publicKey":{"content":"<.key>"}}}}
rekord2 {"apiVersion":"0.0.2","kind":"hashedrekord","spec":{"hashedRekordV002":{"data":{"algorithm":"SHA2_256","digest":"<digest.bytes>"},"signature":{"content":"<.message>","verifier":{"keyDetails":"PKIX_ECDSA_P256_SHA_256","publicKey":{"rawBytes":"<.der>"}}}}}}
of_envelope {"apiVersion":"0.0.2","kind":"hashedrekord","spec":{"hashedRekordV002":{"data":{"algorithm":"SHA2_256","digest":"<encoding.bytes>"},"signature":{"content":"<.envelope>","verifier":{"keyDetails":"PKIX_ECDSA_P256_SHA_256","publicKey":{"rawBytes":"<.der>"}}}}}}
dsse1 {"apiVersion":"0.0.1","kind":"dsse","spec":{"envelopeHash":{"algorithm":"sha256","value":"<nothing>"},"payloadHash":{"algorithm":"sha256","value":"<payload.digest>"},"signatures":[{"signature":"<.envelope>","verifier":"<.key>"}]}}
dsse2 {"apiVersion":"0.0.2","kind":"dsse","spec":{"dsseV002":{"payloadHash":{"algorithm":"SHA2_256","digest":"<payload.digest.bytes>"},"signatures":[{"content":"<.envelope>","verifier":{"keyDetails":"PKIX_ECDSA_P256_SHA_256","x509Certificate":{"rawBytes":"<.certificate.der>"}}}]}}}
intoto2 {"apiVersion":"0.0.2","kind":"intoto","spec":{"content":{"envelope":{"payloadType":"application/vnd.in-toto+json","signatures":[{"publicKey":"<.key>","sig":"<.envelope.twice>"}]},"hash":{"algorithm":"sha256","value":"<nothing>"},"payloadHash":{"algorithm":"sha256","value":"<payload.digest>"}}}}
text X"#;

/// The five kinds as logs write them: a kind and a version, a body's name and what is changed in it, and what is read.
/// `rule` stands before a refusal's rule, and a member alone is that of the rule `Member`.
pub const READ: &str =
    r#"hashedrekord 0.0.1 rekord1 |  => (Sha2256, "<digest>", "<p256.message>", "<p256.key>")
hashedrekord 0.0.1 rekord1 | <.key> ~ <.certificate> => (Sha2256, "<digest>", "<p256.message>", "<p256.certificate>")
hashedrekord 0.0.2 rekord2 |  => (Sha2256, "<digest.bytes>", "<p256.message>", PkixEcdsaP256Sha256, None, Some("<p256.der>"))
hashedrekord 0.0.2 of_envelope |  => (Sha2256, "<encoding.bytes>", "<p256.envelope>", PkixEcdsaP256Sha256, None, Some("<p256.der>"))
dsse 0.0.1 dsse1 |  => (Sha2256, "<nothing>", Sha2256, "<payload.digest>") ("<p256.envelope>", "<p256.key>")
dsse 0.0.2 dsse2 |  => (Sha2256, "<payload.digest.bytes>") ("<p256.envelope>", "PKIX_ECDSA_P256_SHA_256", Some("<p256.certificate.der>"), None)
intoto 0.0.2 intoto2 |  => ("application/vnd.in-toto+json", Sha2256, "<nothing>", Sha2256, "<payload.digest>") (None, "<p256.envelope.twice>", "<p256.key>")"#;

/// The same in other texts: members in another order, further members, blanks, escaped characters, and members that
/// stand twice.
pub const TEXTS: &str =
    r#"hashedrekord 0.0.1 text | X ~ {"spec":{"signature":{"publicKey":{"content":"<.key>"},"content":"<.message>"},"data":{"hash":{"value":"<digest>","algorithm":"sha256"}}},"kind":"hashedrekord","apiVersion":"0.0.1"} => (Sha2256, "<digest>", "<p256.message>", "<p256.key>")
hashedrekord 0.0.1 text | X ~ {"spec":{"data":{"hash":{"algorithm":"sha256","value":""}},"signature":{"content":"","publicKey":{"content":""}}}} => (Sha2256, "", "", "")
hashedrekord 0.0.1 rekord1 | {"apiVersion":"0.0.1","kind":"hashedrekord", ~ {"apiVersion":7,"kind":null,"more":[null,{"a":-1},true], => (Sha2256, "<digest>", "<p256.message>", "<p256.key>")
hashedrekord 0.0.1 rekord1 | "hash":{ ~ "hash":{"more":{}, ; "publicKey":{ ~ "format":"x509","publicKey":{"url":"", => (Sha2256, "<digest>", "<p256.message>", "<p256.key>")
hashedrekord 0.0.1 rekord1 | {"apiVersion":"0.0.1", ~ <line> { "apiVersion" :<line>"0.0.1" ,<line> ; "data":{ ~ "data" : <line>{<line> ; }}}} ~ } }<line>}} <line> => (Sha2256, "<digest>", "<p256.message>", "<p256.key>")
hashedrekord 0.0.1 rekord1 | "spec" ~ "sp\u0065c" ; "sha256" ~ "\u0073ha256" ; <digest> ~ a\"\\b\u00e9 ; <.message> ~ \/\u002f8\u003d => (Sha2256, "a\"\\bé", "//8=", "<p256.key>")
hashedrekord 0.0.1 rekord1 | "algorithm":"sha256" ~ "algorithm":"sha512","algorithm":"sha256" => (Sha2256, "<digest>", "<p256.message>", "<p256.key>")
hashedrekord 0.0.1 rekord1 | "algorithm":"sha256" ~ "algorithm":"sha256","algorithm":"sha384" => (Sha2384, "<digest>", "<p256.message>", "<p256.key>")
hashedrekord 0.0.1 rekord1 | "spec":{ ~ "spec":0,"spec":{ ; "content":"<.message>" ~ "content":7,"content":"AQI=" => (Sha2256, "<digest>", "AQI=", "<p256.key>")
hashedrekord 0.0.1 rekord1 | "spec":{ ~ "n":[18446744073709551615,-9223372036854775808],"spec":{ => (Sha2256, "<digest>", "<p256.message>", "<p256.key>")
hashedrekord 0.0.1 rekord1 | sha256 ~ SHA2_512 ; "<digest>" ~ "no digits" => (Sha2512, "no digits", "<p256.message>", "<p256.key>")
hashedrekord 0.0.1 rekord1 | sha256 ~ sha3-256 => (Sha3256, "<digest>", "<p256.message>", "<p256.key>")
hashedrekord 0.0.1 rekord1 | sha256 ~ SHA3_384 => (Sha3384, "<digest>", "<p256.message>", "<p256.key>")
hashedrekord 0.0.2 text | X ~ {"spec":{"hashedRekordV002":{"signature":{"verifier":{"publicKey":{"rawBytes":"<.der>"},"keyDetails":"PKIX_ECDSA_P256_SHA_256"},"content":"<.message>"},"data":{"digest":"<digest.bytes>","algorithm":"sha256"}}}} => (Sha2256, "<digest.bytes>", "<p256.message>", PkixEcdsaP256Sha256, None, Some("<p256.der>"))
hashedrekord 0.0.2 rekord2 | <digest.bytes> ~  ; "publicKey":{"rawBytes":"<.der>"} ~ "publicKey":null,"x509Certificate":{"more":0,"rawBytes":"<.certificate.der>"} => (Sha2256, "", "<p256.message>", PkixEcdsaP256Sha256, Some("<p256.certificate.der>"), None)
hashedrekord 0.0.2 rekord2 | <digest.bytes> ~ AQ== ; "publicKey" ~ "x509Certificate":{"rawBytes":"AQI="},"publicKey" => (Sha2256, "AQ==", "<p256.message>", PkixEcdsaP256Sha256, Some("AQI="), Some("<p256.der>"))
hashedrekord 0.0.2 rekord2 | "publicKey" ~ "x509Certificate":null,"key" => (Sha2256, "<digest.bytes>", "<p256.message>", PkixEcdsaP256Sha256, None, None)
dsse 0.0.1 text | X ~ {"spec":{"signatures":[{"verifier":"AQ==","signature":"Ag=="},{"more":0,"signature":"","verifier":""}],"payloadHash":{"value":"b","algorithm":"sha384"},"envelopeHash":{"value":"a","algorithm":"SHA2_512"}}} => (Sha2512, "a", Sha2384, "b") ("Ag==", "AQ==") ("", "")
dsse 0.0.1 dsse1 | {"signature":"<.envelope>","verifier":"<.key>"} ~ <line> => (Sha2256, "<nothing>", Sha2256, "<payload.digest>")
dsse 0.0.2 text | X ~ {"spec":{"dsseV002":{"signatures":[{"verifier":{"keyDetails":"ANY"},"content":"Ag=="},{"content":"","verifier":{"keyDetails":"","publicKey":{"rawBytes":"AQ=="},"x509Certificate":{"rawBytes":""}}}],"payloadHash":{"digest":"AQI=","algorithm":"sha512"}}}} => (Sha2512, "AQI=") ("Ag==", "ANY", None, None) ("", "", Some(""), Some("AQ=="))
intoto 0.0.2 text | X ~ {"spec":{"content":{"payloadHash":{"algorithm":"sha384","value":"b"},"hash":{"value":"a","algorithm":"sha512"},"envelope":{"payload":"","signatures":[{"sig":"AQ==","publicKey":"Ag==","keyid":"k"},{"keyid":"","publicKey":"","sig":""}],"payloadType":"t"}}}} => ("t", Sha2512, "a", Sha2384, "b") (Some("k"), "AQ==", "Ag==") (Some(""), "", "")
hashedrekord 0.0.2 rekord2 | "algorithm":"SHA2_256" ~ "algorithm":7,"algorithm":"sha384" ; "keyDetails" ~ "keyDetails":"x","keyDetails" ; "publicKey":{ ~ "publicKey":null,<line>"publicKey" : { "rawBytes":"AQ==", => (Sha2384, "<digest.bytes>", "<p256.message>", PkixEcdsaP256Sha256, None, Some("<p256.der>"))
hashedrekord 0.0.2 rekord2 | "publicKey":{"rawBytes":"<.der>"} ~ "publicKey":{"rawBytes":"<.der>"},"publicKey":null ; hashedRekordV002 ~ hashed\u0052ekordV002 => (Sha2256, "<digest.bytes>", "<p256.message>", PkixEcdsaP256Sha256, None, None)
dsse 0.0.1 dsse1 | "signatures":[ ~ "signatures":[],<line> "signatures" : [ ; "verifier":"<.key>" ~ "verifier":"AQ==","verifier":"AQI=" ; "<nothing>" ~ "\/\u002f" => (Sha2256, "//", Sha2256, "<payload.digest>") ("<p256.envelope>", "AQI=")
dsse 0.0.1 dsse1 | }]}} ~ }],"signatures":[]}} => (Sha2256, "<nothing>", Sha2256, "<payload.digest>")
dsse 0.0.2 dsse2 | "spec":{ ~ "more":{"spec":0},"spec":null,<line>"spec" : { ; "digest":" ~ "digest":"!","digest":"AQ==","digest":" ; "keyDetails":"PKIX ~ "keyDetails":"\u0050K => (Sha2256, "<payload.digest.bytes>") ("<p256.envelope>", "PK_ECDSA_P256_SHA_256", Some("<p256.certificate.der>"), None)
intoto 0.0.2 intoto2 | "sig":" ~ "sig":null,"sig":" ; "hash":{ ~ "hash":0 ,<line>"hash" : {"n":{}, ; "payloadHash":{ ~ "payloadHash":[],"payloadHash":{ => ("application/vnd.in-toto+json", Sha2256, "<nothing>", Sha2256, "<payload.digest>") (None, "<p256.envelope.twice>", "<p256.key>")
intoto 0.0.2 intoto2 | "publicKey" ~ "keyid":"k","keyid":"\u00e9\n","publicKey" => ("application/vnd.in-toto+json", Sha2256, "<nothing>", Sha2256, "<payload.digest>") (Some("é\n"), "<p256.envelope.twice>", "<p256.key>")
intoto 0.0.2 intoto2 | "publicKey" ~ "keyid":null,"publicKey" ; application/vnd ~ application\/vnd => ("application/vnd.in-toto+json", Sha2256, "<nothing>", Sha2256, "<payload.digest>") (None, "<p256.envelope.twice>", "<p256.key>")"#;

/// What is wrong in each member of hashedrekord 0.0.1, and of a body's text.
pub const REFUSED: &str = r#"hashedrekord 0.0.3 text | X ~ { => rule Kind
HashedRekord 0.0.1 text | X ~ { => rule Kind
hashedrekord 0.0.1. rekord1 |  => rule Kind
intoto 0.0.1 intoto2 |  => rule Kind
dsse  dsse1 |  => rule Kind
rekord 0.0.1 rekord1 |  => rule Kind
hashedrekord 0.0.1 text | X ~  => rule NotJson
hashedrekord 0.0.1 text | X ~ { => rule NotJson
hashedrekord 0.0.1 rekord1 | }}}} ~ }}} => rule NotJson
hashedrekord 0.0.1 rekord1 | }}}} ~ }}}} x => rule NotJson
hashedrekord 0.0.1 rekord1 | }}}} ~ }}}}{} => rule NotJson
hashedrekord 0.0.1 rekord1 | }}}} ~ },}}} => rule NotJson
hashedrekord 0.0.1 rekord1 | "spec" ~ 'spec' => rule NotJson
hashedrekord 0.0.1 rekord1 | "0.0.1" ~ 007 => rule NotJson
hashedrekord 0.0.1 rekord1 | "0.0.1" ~ "<line>" => rule NotJson
hashedrekord 0.0.1 rekord1 | "0.0.1" ~ "\x" => rule NotJson
hashedrekord 0.0.1 rekord1 | "0.0.1" ~ "\ud800" => rule NotJson
hashedrekord 0.0.1 rekord1 | "0.0.1" ~ 1.0 => rule Float
hashedrekord 0.0.1 rekord1 | "0.0.1" ~ [{"a":1e2}] => rule Float
hashedrekord 0.0.1 rekord1 | "0.0.1" ~ 18446744073709551616 => rule Float
hashedrekord 0.0.1 rekord1 | "0.0.1" ~ -9223372036854775809 => rule Float
hashedrekord 0.0.1 text | X ~ {"spec":0,"n":0.5} => rule Float
hashedrekord 0.0.1 text | X ~ {"spec":1.5} => rule Float
hashedrekord 0.0.1 text | X ~ [] => rule Shape
hashedrekord 0.0.1 text | X ~ null => rule Shape
hashedrekord 0.0.1 text | X ~ "spec" => rule Shape
hashedrekord 0.0.1 text | X ~ {} => Spec
hashedrekord 0.0.1 rekord1 | "spec" ~ "Spec" => Spec
hashedrekord 0.0.1 text | X ~ {"spec":null} => Spec
hashedrekord 0.0.1 text | X ~ {"spec":[]} => Spec
hashedrekord 0.0.1 text | X ~ {"spec":{}} => Data
hashedrekord 0.0.1 text | X ~ {"spec":{"data":null,"signature":0}} => Data
hashedrekord 0.0.1 text | X ~ {"spec":{"signature":0,"data":"x"}} => Data
hashedrekord 0.0.1 text | X ~ {"spec":{"data":{}}} => Hash
hashedrekord 0.0.1 text | X ~ {"spec":{"data":{"hash":null}}} => Hash
hashedrekord 0.0.1 text | X ~ {"spec":{"data":{"hash":"x"}}} => Hash
hashedrekord 0.0.1 text | X ~ {"spec":{"data":{"hash":{}}}} => Algorithm
hashedrekord 0.0.1 rekord1 | "sha256" ~ null ; "value" ~ "v" => Algorithm
hashedrekord 0.0.1 rekord1 | "sha256" ~ 256 => Algorithm
hashedrekord 0.0.1 rekord1 | "sha256" ~ "SHA256" ; "value" ~ "v" => rule Algorithm
hashedrekord 0.0.1 rekord1 | "sha256" ~ "sha1" => rule Algorithm
hashedrekord 0.0.1 rekord1 | "sha256" ~ "" => rule Algorithm
hashedrekord 0.0.1 rekord1 | "value" ~ "v" => Value
hashedrekord 0.0.1 rekord1 | "<digest>" ~ null => Value
hashedrekord 0.0.1 rekord1 | "<digest>" ~ ["<digest>"] ; "content" ~ "c" => Value
hashedrekord 0.0.1 rekord1 | "signature" ~ "s" => Signature
hashedrekord 0.0.1 rekord1 | "signature":{ ~ "signature":"<.message>","s":{ => Signature
hashedrekord 0.0.1 rekord1 | "signature":{ ~ "signature":null,"s":{ => Signature
hashedrekord 0.0.1 rekord1 | "content" ~ "c" ; "publicKey" ~ "p" => Content
hashedrekord 0.0.1 rekord1 | "<.message>" ~ null => Content
hashedrekord 0.0.1 rekord1 | "<.message>" ~ 7 => Content
hashedrekord 0.0.1 rekord1 | "<.message>" ~ "A" ; "publicKey" ~ "p" => rule Base64
hashedrekord 0.0.1 rekord1 | "<.message>" ~ "AQ" => rule Base64
hashedrekord 0.0.1 rekord1 | "<.message>" ~ "AQ=" => rule Base64
hashedrekord 0.0.1 rekord1 | "<.message>" ~ "AQ==AQ==" => rule Base64
hashedrekord 0.0.1 rekord1 | "<.message>" ~ "AR==" => rule Base64
hashedrekord 0.0.1 rekord1 | "<.message>" ~ "-_8=" => rule Base64
hashedrekord 0.0.1 rekord1 | "<.message>" ~ " AQ==" => rule Base64
hashedrekord 0.0.1 rekord1 | "<.message>" ~ "AQ==\n" => rule Base64
hashedrekord 0.0.1 rekord1 | "publicKey" ~ "key" => PublicKey
hashedrekord 0.0.1 rekord1 | {"content":"<.key>"} ~ null => PublicKey
hashedrekord 0.0.1 rekord1 | {"content":"<.key>"} ~ "<.key>" => PublicKey
hashedrekord 0.0.1 rekord1 | {"content":"<.key>"} ~ {} => Content
hashedrekord 0.0.1 rekord1 | {"content":"<.key>"} ~ {"content":null} => Content
hashedrekord 0.0.1 rekord1 | {"content":"<.key>"} ~ {"content":{}} => Content
hashedrekord 0.0.1 rekord1 | {"content":"<.key>"} ~ {"content":"!"} => rule Base64
hashedrekord 0.0.1 rekord1 | "algorithm":"sha256" ~ "algorithm":"sha256","algorithm":null => Algorithm"#;

/// The same of the other kinds.
pub const REFUSED_OTHERS: &str = r#"hashedrekord 0.0.2 text | X ~ {"spec":{"n":0.0}} => rule Float
hashedrekord 0.0.2 text | X ~ {"spec":{} => rule NotJson
hashedrekord 0.0.2 text | X ~ 7 => rule Shape
hashedrekord 0.0.2 text | X ~ {} => Spec
hashedrekord 0.0.2 rekord1 |  => HashedRekordV002
hashedrekord 0.0.2 text | X ~ {"spec":{"hashedRekordV002":null}} => HashedRekordV002
hashedrekord 0.0.2 text | X ~ {"spec":{"hashedRekordV002":[]}} => HashedRekordV002
hashedrekord 0.0.2 rekord2 | "data" ~ "d" ; "signature" ~ "s" => Data
hashedrekord 0.0.2 text | X ~ {"spec":{"hashedRekordV002":{"data":"x"}}} => Data
hashedrekord 0.0.2 rekord2 | "algorithm" ~ "a" ; "digest" ~ "d" => Algorithm
hashedrekord 0.0.2 rekord2 | "SHA2_256" ~ true => Algorithm
hashedrekord 0.0.2 rekord2 | SHA2_256 ~ sha-256 ; "digest" ~ "d" => rule Algorithm
hashedrekord 0.0.2 rekord2 | "digest" ~ "d" ; "signature" ~ "s" => Digest
hashedrekord 0.0.2 rekord2 | "<digest.bytes>" ~ null => Digest
hashedrekord 0.0.2 rekord2 | <digest.bytes> ~ a ; "signature" ~ "s" => rule Base64
hashedrekord 0.0.2 rekord2 | "signature" ~ "s" => Signature
hashedrekord 0.0.2 rekord2 | "signature":{ ~ "signature":[],"s":{ => Signature
hashedrekord 0.0.2 rekord2 | "content" ~ "c" ; "verifier" ~ "v" => Content
hashedrekord 0.0.2 rekord2 | "<.message>" ~ {} => Content
hashedrekord 0.0.2 rekord2 | <.message> ~ ! ; "verifier" ~ "v" => rule Base64
hashedrekord 0.0.2 rekord2 | "verifier" ~ "v" => Verifier
hashedrekord 0.0.2 rekord2 | "verifier":{ ~ "verifier":"<.der>","v":{ => Verifier
hashedrekord 0.0.2 rekord2 | "keyDetails" ~ "k" ; {"rawBytes":"<.der>"} ~ 0 => KeyDetails
hashedrekord 0.0.2 rekord2 | "PKIX_ECDSA_P256_SHA_256" ~ null => KeyDetails
hashedrekord 0.0.2 rekord2 | "PKIX_ECDSA_P256_SHA_256" ~ 5 => KeyDetails
hashedrekord 0.0.2 rekord2 | PKIX_ECDSA_P256_SHA_256 ~ PKIX_ECDSA_P384_SHA_384 ; {"rawBytes":"<.der>"} ~ 0 => rule KeyDetails
hashedrekord 0.0.2 rekord2 | PKIX_ECDSA_P256_SHA_256 ~ PKIX_ED25519 => rule KeyDetails
hashedrekord 0.0.2 rekord2 | PKIX_ECDSA_P256_SHA_256 ~ pkix_ecdsa_p256_sha_256 => rule KeyDetails
hashedrekord 0.0.2 rekord2 | PKIX_ECDSA_P256_SHA_256 ~  => rule KeyDetails
hashedrekord 0.0.2 rekord2 | "publicKey" ~ "x509Certificate":[],"publicKey" ; {"rawBytes":"<.der>"} ~ 0 => X509Certificate
hashedrekord 0.0.2 rekord2 | "publicKey" ~ "x509Certificate":{"rawBytes":0},"publicKey" => RawBytes
hashedrekord 0.0.2 rekord2 | "publicKey" ~ "x509Certificate":{"rawBytes":"!"},"publicKey" => rule Base64
hashedrekord 0.0.2 rekord2 | {"rawBytes":"<.der>"} ~ "<.der>" => PublicKey
hashedrekord 0.0.2 rekord2 | {"rawBytes":"<.der>"} ~ {} => RawBytes
hashedrekord 0.0.2 rekord2 | {"rawBytes":"<.der>"} ~ {"rawBytes":null} => RawBytes
hashedrekord 0.0.2 rekord2 | {"rawBytes":"<.der>"} ~ {"rawBytes":"AQI"} => rule Base64
dsse 0.0.1 text | X ~ {"spec":{},"n":1.5} => rule Float
dsse 0.0.1 text | X ~ {"spec":{},} => rule NotJson
dsse 0.0.1 text | X ~ [{}] => rule Shape
dsse 0.0.1 text | X ~ {"spec":7} => Spec
dsse 0.0.1 dsse1 | "envelopeHash" ~ "e" ; "payloadHash" ~ "p" ; "signatures" ~ "s" => EnvelopeHash
dsse 0.0.1 dsse1 | "envelopeHash":{ ~ "envelopeHash":null,"e":{ => EnvelopeHash
dsse 0.0.1 dsse1 | "envelopeHash":{ ~ "envelopeHash":"<nothing>","e":{ => EnvelopeHash
dsse 0.0.1 dsse1 | "envelopeHash":{"algorithm" ~ "envelopeHash":{"a" => Algorithm
dsse 0.0.1 dsse1 | "envelopeHash":{"algorithm":"sha256" ~ "envelopeHash":{"algorithm":"sha1" ; "payloadHash" ~ "p" => rule Algorithm
dsse 0.0.1 dsse1 | "<nothing>" ~ 7 ; "payloadHash" ~ "p" => Value
dsse 0.0.1 dsse1 | "<nothing>" ~ null => Value
dsse 0.0.1 dsse1 | "payloadHash" ~ "p" ; "signatures" ~ "s" => PayloadHash
dsse 0.0.1 dsse1 | "payloadHash":{ ~ "payloadHash":null,"p":{ => PayloadHash
dsse 0.0.1 dsse1 | "payloadHash":{"algorithm":"sha256" ~ "payloadHash":{"algorithm":[] => Algorithm
dsse 0.0.1 dsse1 | "payloadHash":{"algorithm":"sha256" ~ "payloadHash":{"algorithm":"md5" ; "signatures" ~ "s" => rule Algorithm
dsse 0.0.1 dsse1 | "<payload.digest>" ~ {} ; "signatures" ~ "s" => Value
dsse 0.0.1 dsse1 | "signatures" ~ "s" => Signatures
dsse 0.0.1 dsse1 | "signatures":[ ~ "signatures":null,"s":[ => Signatures
dsse 0.0.1 dsse1 | "signatures":[ ~ "signatures":{},"s":[ => Signatures
dsse 0.0.1 dsse1 | "signatures":[ ~ "signatures":["<.envelope>", => Signatures
dsse 0.0.1 dsse1 | "signatures":[ ~ "signatures":[null, => Signatures
dsse 0.0.1 dsse1 | "signatures":[ ~ "signatures":[{}, => Signature
dsse 0.0.1 dsse1 | "<.envelope>" ~ null ; "<.key>" ~ 0 => Signature
dsse 0.0.1 dsse1 | <.envelope> ~ ! ; "<.key>" ~ 0 => rule Base64
dsse 0.0.1 dsse1 | "verifier" ~ "v" => Verifier
dsse 0.0.1 dsse1 | "<.key>" ~ null => Verifier
dsse 0.0.1 dsse1 | <.key> ~ - => rule Base64
dsse 0.0.1 dsse1 | }]}} ~ },{"signature":"AQ=="}]}} => Verifier
dsse 0.0.1 dsse1 | }]}} ~ },0]}} => Signatures
dsse 0.0.2 text | X ~ {"spec":-0.5} => rule Float
dsse 0.0.2 text | X ~ nul => rule NotJson
dsse 0.0.2 text | X ~ true => rule Shape
dsse 0.0.2 text | X ~ {"spec":""} => Spec
dsse 0.0.2 dsse1 |  => DsseV002
dsse 0.0.2 text | X ~ {"spec":{"dsseV002":null}} => DsseV002
dsse 0.0.2 dsse2 | "payloadHash" ~ "p" ; "signatures" ~ "s" => PayloadHash
dsse 0.0.2 dsse2 | "payloadHash":{ ~ "payloadHash":0,"p":{ => PayloadHash
dsse 0.0.2 dsse2 | "algorithm" ~ "a" => Algorithm
dsse 0.0.2 dsse2 | SHA2_256 ~ sha224 ; "digest" ~ "d" => rule Algorithm
dsse 0.0.2 dsse2 | "digest" ~ "d" => Digest
dsse 0.0.2 dsse2 | "<payload.digest.bytes>" ~ 0 => Digest
dsse 0.0.2 dsse2 | <payload.digest.bytes> ~ AQ ; "signatures" ~ "s" => rule Base64
dsse 0.0.2 dsse2 | "signatures" ~ "s" => Signatures
dsse 0.0.2 dsse2 | "signatures":[ ~ "signatures":[7, => Signatures
dsse 0.0.2 dsse2 | "content" ~ "c" ; "verifier" ~ "v" => Content
dsse 0.0.2 dsse2 | "<.envelope>" ~ null => Content
dsse 0.0.2 dsse2 | <.envelope> ~ AQ==A ; "verifier" ~ "v" => rule Base64
dsse 0.0.2 dsse2 | "verifier" ~ "v" => Verifier
dsse 0.0.2 dsse2 | "verifier":{ ~ "verifier":null,"v":{ => Verifier
dsse 0.0.2 dsse2 | "PKIX_ECDSA_P256_SHA_256" ~ null ; {"rawBytes":"<.certificate.der>"} ~ 0 => KeyDetails
dsse 0.0.2 dsse2 | {"rawBytes":"<.certificate.der>"} ~ 0 => X509Certificate
dsse 0.0.2 dsse2 | "<.certificate.der>" ~ null => RawBytes
dsse 0.0.2 dsse2 | <.certificate.der> ~ A ; "x509Certificate" ~ "publicKey":0,"x509Certificate" => rule Base64
dsse 0.0.2 dsse2 | "x509Certificate" ~ "publicKey":0,"x509Certificate" => PublicKey
intoto 0.0.2 text | X ~ {"spec":[1.5]} => rule Float
intoto 0.0.2 text | X ~ <line> => rule NotJson
intoto 0.0.2 text | X ~ "x" => rule Shape
intoto 0.0.2 text | X ~ {"spec":false} => Spec
intoto 0.0.2 dsse1 |  => Content
intoto 0.0.2 text | X ~ {"spec":{"content":null}} => Content
intoto 0.0.2 intoto2 | "envelope" ~ "e" ; "hash" ~ "h" ; "payloadHash" ~ "p" => Envelope
intoto 0.0.2 intoto2 | "envelope":{ ~ "envelope":"","e":{ => Envelope
intoto 0.0.2 intoto2 | "payloadType" ~ "p" ; "signatures" ~ "s" ; "hash" ~ "h" => PayloadType
intoto 0.0.2 intoto2 | "application/vnd.in-toto+json" ~ null => PayloadType
intoto 0.0.2 intoto2 | "signatures" ~ "s" ; "hash" ~ "h" => Signatures
intoto 0.0.2 intoto2 | "signatures":[ ~ "signatures":"","s":[ => Signatures
intoto 0.0.2 intoto2 | "signatures":[ ~ "signatures":[[], => Signatures
intoto 0.0.2 intoto2 | "publicKey" ~ "keyid":0,"publicKey" ; "sig" ~ "s" => SignatureKeyid
intoto 0.0.2 intoto2 | "sig" ~ "s" ; "publicKey" ~ "p" => Sig
intoto 0.0.2 intoto2 | "<.envelope.twice>" ~ 7 => Sig
intoto 0.0.2 intoto2 | <.envelope.twice> ~ * ; "publicKey" ~ "p" => rule Base64
intoto 0.0.2 intoto2 | "publicKey" ~ "p" ; "hash" ~ "h" => PublicKey
intoto 0.0.2 intoto2 | "<.key>" ~ {"content":"<.key>"} => PublicKey
intoto 0.0.2 intoto2 | <.key> ~ AQ ; "hash" ~ "h" => rule Base64
intoto 0.0.2 intoto2 | "hash" ~ "h" ; "payloadHash" ~ "p" => Hash
intoto 0.0.2 intoto2 | "hash":{ ~ "hash":"<nothing>","h":{ => Hash
intoto 0.0.2 intoto2 | "hash":{"algorithm":"sha256" ~ "hash":{"algorithm":null => Algorithm
intoto 0.0.2 intoto2 | "hash":{"algorithm":"sha256" ~ "hash":{"algorithm":"x" ; "payloadHash" ~ "p" => rule Algorithm
intoto 0.0.2 intoto2 | "<nothing>" ~ null ; "payloadHash" ~ "p" => Value
intoto 0.0.2 intoto2 | "payloadHash" ~ "p" => PayloadHash
intoto 0.0.2 intoto2 | "payloadHash":{ ~ "payloadHash":null,"p":{ => PayloadHash
intoto 0.0.2 intoto2 | "payloadHash":{"algorithm":"sha256" ~ "payloadHash":{"algorithm":"sha3-512" => rule Algorithm
intoto 0.0.2 intoto2 | "<payload.digest>" ~ 0 => Value"#;
