// Tables of texts, one row a line: a call, the text that it is given, ` => ` and its answer, which is `none`
// or octets in hexadecimal. A row has `{` for `-----BEGIN `, `}` for `-----END `, `*` for `-----`, `\r` and
// `\n` for the ends of lines, `#` for a line of 64 characters, and in octets for the 48 that it spells.
use crate::tables::{good, halves, hexadecimal, hold, place, printed, replaced, string};
use sigstore_pem::{PemArmor, held_is_armored, read_is_strict, written_is_read};
use sigstore_types_parts::{Armor, Bytes};
use std::process::Abort;

const LINE: &str = "AQIDAQIDAQIDAQIDAQIDAQIDAQIDAQIDAQIDAQIDAQIDAQIDAQIDAQIDAQIDAQID";

const OCTETS: &str =
    "010203010203010203010203010203010203010203010203010203010203010203010203010203010203010203010203";

// Ends of lines, and what stands before and behind the block.
const LINE_ENDS: &str = r"key {PUBLIC KEY*\nAQID\n}PUBLIC KEY*\n => 010203
key {PUBLIC KEY*\r\nAQID\r\n}PUBLIC KEY*\r\n => 010203
key {PUBLIC KEY*\rAQID\r}PUBLIC KEY*\r => 010203
key {PUBLIC KEY*\r\nAQID\n}PUBLIC KEY*\r => 010203
key {PUBLIC KEY*\nAQID\n}PUBLIC KEY* => 010203
key \n\r\n{PUBLIC KEY*\nAQID\n}PUBLIC KEY* => 010203
key Subject: one\nIssuer: two\n\n{PUBLIC KEY*\nAQID\n}PUBLIC KEY*\n => 010203
key Subject: {PUBLIC KEY*\n{PUBLIC KEY*\nAQID\n}PUBLIC KEY*\n => 010203
key }PUBLIC KEY*\n{PUBLIC KEY*\nAQID\n}PUBLIC KEY*\n => 010203
key {PUBLIC KEY*\nAQID\n}PUBLIC KEY*\nbehind => 010203
key {PUBLIC KEY*\nAQID\n}PUBLIC KEY*\n{PUBLIC KEY* => 010203
key {PUBLIC KEY*\n\nAQID\n}PUBLIC KEY*\n => none
key {PUBLIC KEY*\nAQID\n\n}PUBLIC KEY*\n => none
key {PUBLIC KEY*\nAQID\r\r\n}PUBLIC KEY*\n => none
key {PUBLIC KEY*AQID\n}PUBLIC KEY*\n => none
key {PUBLIC KEY*\nAQID}PUBLIC KEY*\n => none";

// Blocks and labels.
const LABELS: &str =
    r"key {PUBLIC KEY*\nAQID\n}PUBLIC KEY*\n{PUBLIC KEY*\nBAUG\n}PUBLIC KEY*\n => 010203
key {PUBLIC KEY*\n!\n}PUBLIC KEY*\n{PUBLIC KEY*\nBAUG\n}PUBLIC KEY*\n => none
key {CERTIFICATE*\nAQID\n}CERTIFICATE*\n => none
certificate {CERTIFICATE*\nAQID\n}CERTIFICATE*\n => 010203
certificate {PUBLIC KEY*\nAQID\n}PUBLIC KEY*\n => none
certificate {X509 CERTIFICATE*\nAQID\n}X509 CERTIFICATE*\n => none
key {CERTIFICATE*\nAQID\n}CERTIFICATE*\n{PUBLIC KEY*\nBAUG\n}PUBLIC KEY*\n => none
key {EC PARAMETERS*\nAQID\n}EC PARAMETERS*\n{PUBLIC KEY*\nBAUG\n}PUBLIC KEY*\n => none
key {RSA PUBLIC KEY*\nAQID\n}RSA PUBLIC KEY*\n => none
key {public key*\nAQID\n}public key*\n => none
key {PUBLIC KEY*\nAQID\n}CERTIFICATE*\n => none
key {PUBLIC KEY*\nAQID\n}CERTIFICATE*\n}PUBLIC KEY*\n => none
key {PUBLIC KEY*\nAQID\n}public key*\n => none
key {PUBLIC KEY*\nAQID\n => none
key {PUBLIC KEY*\n => none
key ----BEGIN PUBLIC KEY*\nAQID\n}PUBLIC KEY*\n => none
key -{PUBLIC KEY*\nAQID\n}PUBLIC KEY*\n => none
key {PUBLIC KEY----\nAQID\n}PUBLIC KEY*\n => none
key AQID => none
key  => none";

// Lines of base64, blanks, padding and bits that are left over.
const BASE64: &str = r"key {PUBLIC KEY*\n}PUBLIC KEY*\n => nothing
key {PUBLIC KEY*\n#\n}PUBLIC KEY*\n => #
key {PUBLIC KEY*\n#\nBA==\n}PUBLIC KEY*\n => #04
key {PUBLIC KEY*\n#\n#\n}PUBLIC KEY*\n => ##
key {PUBLIC KEY*\n#AQID\n}PUBLIC KEY*\n => none
key {PUBLIC KEY*\n##\n}PUBLIC KEY*\n => none
key {PUBLIC KEY*\nAQID\nAQID\n}PUBLIC KEY*\n => none
key {PUBLIC KEY*\nAQID\n#\n}PUBLIC KEY*\n => none
key {PUBLIC KEY*\n#\nAQID\nAQID\n}PUBLIC KEY*\n => none
key {PUBLIC KEY*\nAQID \n}PUBLIC KEY*\n => none
key {PUBLIC KEY*\n AQID\n}PUBLIC KEY*\n => none
key {PUBLIC KEY*\nAQ ID\n}PUBLIC KEY*\n => none
key {PUBLIC KEY* \nAQID\n}PUBLIC KEY*\n => none
key  {PUBLIC KEY*\nAQID\n}PUBLIC KEY*\n => none
key {PUBLIC KEY*\nAQID\n}PUBLIC KEY* \n => none
key {PUBLIC KEY*\nAQI=\n}PUBLIC KEY*\n => 0102
key {PUBLIC KEY*\nAQ==\n}PUBLIC KEY*\n => 01
key {PUBLIC KEY*\n+/+/\n}PUBLIC KEY*\n => fbffbf
key {PUBLIC KEY*\nAQI\n}PUBLIC KEY*\n => none
key {PUBLIC KEY*\nAQ=\n}PUBLIC KEY*\n => none
key {PUBLIC KEY*\nAQ\n}PUBLIC KEY*\n => none
key {PUBLIC KEY*\nA===\n}PUBLIC KEY*\n => none
key {PUBLIC KEY*\nAQID====\n}PUBLIC KEY*\n => none
key {PUBLIC KEY*\nAQ==AQ==\n}PUBLIC KEY*\n => none
key {PUBLIC KEY*\nAQJ=\n}PUBLIC KEY*\n => none
key {PUBLIC KEY*\nAR==\n}PUBLIC KEY*\n => none
key {PUBLIC KEY*\nAQI-\n}PUBLIC KEY*\n => none
key {PUBLIC KEY*\n-_-_\n}PUBLIC KEY*\n => none";

const ARMORED: &str = r"armored {PUBLIC KEY*\n => true
armored {CERTIFICATE* => true
armored before\r\n{PUBLIC KEY*\r\n => true
armored {EC PARAMETERS*\n{PUBLIC KEY*\n => false
armored {PUBLIC KEY* \n => false
armored before {PUBLIC KEY*\n => false
armored }PUBLIC KEY*\n => false
armored before => false
armored  => false";

const WRITTEN: &str = r"written 010203 => {CERTIFICATE*\nAQID\n}CERTIFICATE*\n
written # => {CERTIFICATE*\n#\n}CERTIFICATE*\n
written #04 => {CERTIFICATE*\n#\nBA==\n}CERTIFICATE*\n
written ## => {CERTIFICATE*\n#\n#\n}CERTIFICATE*\n
written  => {CERTIFICATE*\n}CERTIFICATE*\n";

// Texts that OpenSSL wrote; docs/FORMATS.md says how.
const BY_OPENSSL: &str =
    r"key {PUBLIC KEY*\nMFkwEwYHKoZIzj0CAQYIKoZIzj0DAQcDQgAEiHMtX1FSAsOCPJMsEu7Bl7+z+dda\nFGEuJ/ZOFgVgwgIQAvzVz7bnbHS7ZTHwGBWxjUxq8t+gVBm+fNkXFY6EKw==\n}PUBLIC KEY*\n => 3059301306072a8648ce3d020106082a8648ce3d0301070342000488732d5f515202c3823c932c12eec197bfb3f9d75a14612e27f64e160560c2021002fcd5cfb6e76c74bb6531f01815b18d4c6af2dfa05419be7cd917158e842b
key {PUBLIC KEY*\nMCowBQYDK2VwAyEA5iXO/m2idIjnv7obB6iYA2bAwYEQcwv0t1lnL5QY0k4=\n}PUBLIC KEY*\n => 302a300506032b6570032100e625cefe6da27488e7bfba1b07a8980366c0c18110730bf4b759672f9418d24e
certificate {CERTIFICATE*\nMIIBcTCCARegAwIBAgIUQiudO93cnjFi/jOGg9bnGs9InEMwCgYIKoZIzj0EAwIw\nDjEMMAoGA1UEAwwDb25lMB4XDTI2MTEyODA4MTI0MloXDTM2MTEyNTA4MTI0Mlow\nDjEMMAoGA1UEAwwDb25lMFkwEwYHKoZIzj0CAQYIKoZIzj0DAQcDQgAEiHMtX1FS\nAsOCPJMsEu7Bl7+z+ddaFGEuJ/ZOFgVgwgIQAvzVz7bnbHS7ZTHwGBWxjUxq8t+g\nVBm+fNkXFY6EK6NTMFEwHQYDVR0OBBYEFGaFMYkoJ8cjRgd/Nln6M6pu0idKMB8G\nA1UdIwQYMBaAFGaFMYkoJ8cjRgd/Nln6M6pu0idKMA8GA1UdEwEB/wQFMAMBAf8w\nCgYIKoZIzj0EAwIDSAAwRQIhAL5Jp4KTtDncQo8Ew/XU9fWVDoybxNFlAG8crScC\ny2k1AiAix/YPNbjRAKwStljZNJu2GiwusqLMC5/De+Ltmf241A==\n}CERTIFICATE*\n => 3082017130820117a0030201020214422b9d3bdddc9e3162fe338683d6e71acf489c43300a06082a8648ce3d040302300e310c300a06035504030c036f6e65301e170d3236313132383038313234325a170d3336313132353038313234325a300e310c300a06035504030c036f6e653059301306072a8648ce3d020106082a8648ce3d0301070342000488732d5f515202c3823c932c12eec197bfb3f9d75a14612e27f64e160560c2021002fcd5cfb6e76c74bb6531f01815b18d4c6af2dfa05419be7cd917158e842ba3533051301d0603551d0e04160414668531892827c72346077f3659fa33aa6ed2274a301f0603551d23041830168014668531892827c72346077f3659fa33aa6ed2274a300f0603551d130101ff040530030101ff300a06082a8648ce3d0403020348003045022100be49a78293b439dc428f04c3f5d4f5f5950e8c9bc4d165006f1cad2702cb6935022022c7f60f35b8d100ac12b658d9349bb61a2c2eb2a2cc0b9fc37be2ed99fdb8d4
written 3082017130820117a0030201020214422b9d3bdddc9e3162fe338683d6e71acf489c43300a06082a8648ce3d040302300e310c300a06035504030c036f6e65301e170d3236313132383038313234325a170d3336313132353038313234325a300e310c300a06035504030c036f6e653059301306072a8648ce3d020106082a8648ce3d0301070342000488732d5f515202c3823c932c12eec197bfb3f9d75a14612e27f64e160560c2021002fcd5cfb6e76c74bb6531f01815b18d4c6af2dfa05419be7cd917158e842ba3533051301d0603551d0e04160414668531892827c72346077f3659fa33aa6ed2274a301f0603551d23041830168014668531892827c72346077f3659fa33aa6ed2274a300f0603551d130101ff040530030101ff300a06082a8648ce3d0403020348003045022100be49a78293b439dc428f04c3f5d4f5f5950e8c9bc4d165006f1cad2702cb6935022022c7f60f35b8d100ac12b658d9349bb61a2c2eb2a2cc0b9fc37be2ed99fdb8d4 => {CERTIFICATE*\nMIIBcTCCARegAwIBAgIUQiudO93cnjFi/jOGg9bnGs9InEMwCgYIKoZIzj0EAwIw\nDjEMMAoGA1UEAwwDb25lMB4XDTI2MTEyODA4MTI0MloXDTM2MTEyNTA4MTI0Mlow\nDjEMMAoGA1UEAwwDb25lMFkwEwYHKoZIzj0CAQYIKoZIzj0DAQcDQgAEiHMtX1FS\nAsOCPJMsEu7Bl7+z+ddaFGEuJ/ZOFgVgwgIQAvzVz7bnbHS7ZTHwGBWxjUxq8t+g\nVBm+fNkXFY6EK6NTMFEwHQYDVR0OBBYEFGaFMYkoJ8cjRgd/Nln6M6pu0idKMB8G\nA1UdIwQYMBaAFGaFMYkoJ8cjRgd/Nln6M6pu0idKMA8GA1UdEwEB/wQFMAMBAf8w\nCgYIKoZIzj0EAwIDSAAwRQIhAL5Jp4KTtDncQo8Ew/XU9fWVDoybxNFlAG8crScC\ny2k1AiAix/YPNbjRAKwStljZNJu2GiwusqLMC5/De+Ltmf241A==\n}CERTIFICATE*\n";

// What the marks of a row mean, and the marks of a text, that of a line last.
const MEANT: [(&str, &str); 6] = [
    ("#", LINE),
    ("\\r", "\r"),
    ("\\n", "\n"),
    ("{", "-----BEGIN "),
    ("}", "-----END "),
    ("*", "-----"),
];

const MARKED: [(&str, &str); 5] = [
    ("-----BEGIN ", "{"),
    ("-----END ", "}"),
    ("-----", "*"),
    ("\n", "\\n"),
    (LINE, "#"),
];

/// The answer of a call that is given a text with marks.
pub fn answer<X: AllocGlobal + Abort>(rt: &X, given: &str) -> String {
    let (call, cell) = halves(rt, given, " ");
    if call == "written" {
        return written(rt, &PemArmor, cell);
    }
    asked(rt, &PemArmor, call, replaced(rt, cell, &MEANT).as_bytes())
}

// The answer of an armour to a text.
fn asked<X: AllocGlobal + Abort, M: Armor>(rt: &X, armor: &M, call: &str, text: &[u8]) -> String {
    match place(call, "key certificate armored") {
        0 => shown(rt, good(rt, armor.read_key(rt.alloc(), text))),
        1 => shown(rt, good(rt, armor.read_certificate(rt.alloc(), text))),
        2 => printed(rt, armor.is_armored(text)),
        _ => string(rt, "no call"),
    }
}

// Octets in hexadecimal, `nothing` where there are none, `none` where there is no value.
fn shown<X: AllocGlobal + Abort>(rt: &X, octets: Option<Bytes>) -> String {
    match octets {
        Some(octets) => some_shown(rt, octets.as_bytes()),
        None => string(rt, "none"),
    }
}

fn some_shown<X: AllocGlobal + Abort>(rt: &X, octets: &[u8]) -> String {
    if octets.is_empty() {
        string(rt, "nothing")
    } else {
        replaced(rt, hexadecimal(rt, octets).as_str(), &[(OCTETS, "#")])
    }
}

// The text that an armour writes of octets, with its marks.
fn written<X: AllocGlobal + Abort, M: Armor>(rt: &X, armor: &M, octets: &str) -> String {
    let octets = replaced(rt, octets, &[("#", OCTETS)]);
    let der = good(rt, hex::decode(rt.alloc(), octets.as_str()));
    let text = good(rt, armor.write_certificate(rt.alloc(), &der));
    replaced(rt, good(rt, str::from_utf8(text.as_bytes())), &MARKED)
}

#[test]
fn texts_hold_what_their_first_block_holds(rt: HostRuntime) {
    hold(&rt, "pem", LINE_ENDS);
    hold(&rt, "pem", LABELS);
    hold(&rt, "pem", BASE64);
    hold(&rt, "pem", ARMORED);
    hold(&rt, "pem", WRITTEN);
    hold(&rt, "pem", BY_OPENSSL);
    held_is_armored();
    read_is_strict();
    written_is_read();
}
