// Display texts, and words, files and lines on outside values.
use crate::tables::{
    answered, bytes, check, debug, display, failures, good, halves, hold, lines_of, number, string,
    text, text_of, word, words,
};
use crate::verification;
use command_files::*;
use foundation::{NoMemory, Sequence};
use sigstore_keys::{CryptoProvider, SigningScheme, sha256};
use sigstore_policy::SigningPolicy;
use sigstore_types_parts::{Armor, Bytes};
use std::alloc::Global;
use std::fs;
use std::process::Abort;
use std::rt::Files;

// The answer of a call of command_files; for any other name that of a call of sigstore_judgement.
pub(crate) fn answer<X: AllocGlobal + Abort>(rt: &X, call: &str, given: &str) -> String {
    match call {
        "fault" => name(rt, given),
        "reading" => read(rt, given),
        "table" => table(rt, given),
        "sink" => taken(rt, given),
        "line" => pushed(rt, given),
        _ => verification::answer(rt, call, given),
    }
}

fn name<X: AllocGlobal + Abort>(rt: &X, fault: &str) -> String {
    match fault {
        "InputFault::Failed" => display(rt, InputFault::Failed),
        "InputFault::Absent" => display(rt, InputFault::Absent),
        "InputFault::TooLong" => display(rt, InputFault::TooLong { seen: 1 }),
        "InputFault::NoMemory" => display(rt, InputFault::NoMemory),
        "UsageFault::Usage" => display(rt, UsageFault::Usage),
        "UsageFault::NoMemory" => display(rt, UsageFault::NoMemory),
        _ => name_of_stop(rt, fault),
    }
}

fn name_of_stop<X: AllocGlobal + Abort>(rt: &X, fault: &str) -> String {
    match fault {
        "CommandStop::Words" => display(rt, CommandStop::Words),
        "CommandStop::Malformed" => display(rt, CommandStop::Malformed(InputFile::Policy)),
        "CommandStop::Input" => display(rt, CommandStop::Input(InputFile::Root)),
        "CommandStop::Memory" => display(rt, CommandStop::Memory),
        _ => display(rt, SinkFault::Failed),
    }
}

const NAMES: &str = "InputFault::Failed | Failed
InputFault::Absent | Absent
InputFault::TooLong | TooLong
InputFault::NoMemory | NoMemory
UsageFault::Usage | Usage
UsageFault::NoMemory | NoMemory
CommandStop::Words | Words
CommandStop::Malformed | Malformed
CommandStop::Input | Input
CommandStop::Memory | Memory
SinkFault::Failed | Failed";

const WHOLE: &str =
    "verify --root=a --repository=b --store=c --bundle=d --artifact=e --policy=f=g --provider=h";

// The layout's root, policy and instant.
fn shown<X: AllocGlobal + Abort>(rt: &X, layout: Layout) -> String {
    let (root, policy, now) = (layout.root.as_str(), layout.policy.as_str(), layout.now);
    let shown = debug(rt, (root, policy, now));
    drop(layout);
    shown
}

fn shown_or_none<X: AllocGlobal + Abort>(rt: &X, layout: Option<Layout>) -> String {
    match layout {
        Some(layout) => shown(rt, layout),
        None => string(rt, "none"),
    }
}

fn layout<X: AllocGlobal + Abort>(rt: &X, line: &str) -> String {
    let words = words(rt, line);
    let layout = good(rt, or_none(read_layout(rt.alloc(), &words)));
    drop(words);
    shown_or_none(rt, layout)
}

fn asked_layout<X: AllocGlobal + Abort>(rt: &X, line: &str) -> String {
    let words = words(rt, line);
    let layout = good(rt, or_none(read_asked_layout(rt.alloc(), &words)));
    drop(words);
    shown_or_none(rt, layout)
}

fn whole_layout<X: AllocGlobal + Abort>(rt: &X, more: &str) -> String {
    let line = good(rt, format!(in rt.alloc(); "{WHOLE} {more}"));
    let answer = layout(rt, line.as_str());
    drop(line);
    answer
}

// The Debug text of a policy, with two dots for what isn't asked for.
fn shortened<X: AllocGlobal + Abort>(rt: &X, shown: String) -> String {
    let claims = good(
        rt,
        shown.replace(rt.alloc(), "claims: [], anyone: false", ".."),
    );
    drop(shown);
    let beside = good(rt, claims.replace(rt.alloc(), NOTHING_BESIDE, ".."));
    drop(claims);
    beside
}

// What was read of a policy file, its rules as a list that has a Debug text.
fn listed(
    answer: Result<Sequence<SigningPolicy>, UsageFault>,
) -> Result<Vec<SigningPolicy>, UsageFault> {
    match answer {
        Ok(rules) => Ok(rules.into_vec()),
        Err(fault) => Err(fault),
    }
}

fn policy<X: AllocGlobal + Abort>(rt: &X, text: String) -> String {
    let answer = listed(read_rules(rt.alloc(), text.as_bytes()));
    drop(text);
    shortened(rt, debug(rt, answer))
}

// How many rules are read of a file with one behind so many others.
fn rules_behind<X: AllocGlobal + Abort>(rt: &X, others: &str) -> String {
    let mut text = string(rt, "");
    for _ in 0..number(rt, others) {
        good(rt, text.push_str("keyless\nor\n"));
    }
    good(rt, text.push_str("keyless\n"));
    let answer = listed(read_rules(rt.alloc(), text.as_bytes()));
    drop(text);
    counted(rt, answer)
}

// The number of rules, or why there are none.
fn counted<X: AllocGlobal + Abort>(
    rt: &X,
    answer: Result<Vec<SigningPolicy>, UsageFault>,
) -> String {
    match answer {
        Ok(rules) => {
            let count = rules.len();
            drop(rules);
            debug(rt, count)
        }
        Err(fault) => debug(rt, fault),
    }
}

// The policy of a text with a line's last byte behind it that isn't UTF-8.
fn policy_with_ff<X: AllocGlobal + Abort>(rt: &X, text: String) -> String {
    let mut bytes = text.into_bytes();
    good(rt, bytes.push(0xff));
    good(rt, bytes.push(b'\n'));
    let answer = listed(read_rules(rt.alloc(), &bytes));
    drop(bytes);
    shortened(rt, debug(rt, answer))
}

fn provider<X: AllocGlobal + Abort>(rt: &X, text: String) -> String {
    let answer = read_provider(rt.alloc(), text.as_bytes());
    drop(text);
    word(rt, "tables", answer)
}

// What is read of words, of words after a whole layout, of words of the questions, of a policy file, of one
// with many rules, and of a provider file.
fn read<X: AllocGlobal + Abort>(rt: &X, row: &str) -> String {
    let (call, text) = halves(rt, row, " | ");
    match call {
        "words" => layout(rt, text),
        "words of questions" => asked_layout(rt, text),
        "more words" => whole_layout(rt, text),
        "policy" => policy(rt, lines_of(rt, text)),
        "policy with byte ff" => policy_with_ff(rt, lines_of(rt, text)),
        "rules behind others" => rules_behind(rt, text),
        _ => provider(rt, lines_of(rt, text)),
    }
}

// A row: what is read, its text with `;` for the end of a line, and what is read of it.
const READINGS: &str = "more words |  | (\"a\", \"f=g\", None)
more words | --now=2025-01-01T00:00:00Z | (\"a\", \"f=g\", Some(2025-01-01T00:00:00Z))
more words | --now=x | none
more words | --root=a | none
more words | --now= | none
more words | now=2025-01-01T00:00:00Z | none
more words | --name=a | none
more words | --now | none
more words | --now=2025-01-01T00:00:00Z --now=2025-01-01T00:00:00Z | none
more words | --questions=a | none
words of questions | questions --root=a --repository=b --store=c --bundle=d --artifact=e --policy=f --refused=g | (\"a\", \"f\", None)
words of questions | questions --root=a --repository=b --store=c --bundle=d --artifact=e --policy=f | none
words of questions | questions --root=a --repository=b --store=c --bundle=d --artifact=e --policy=f --provider=g | none
words of questions | questions --root=a --repository=b --store=c --bundle=d --artifact=e --policy=f --refused=g --provider=h | none
words of questions | questions --root=a --repository=b --store=c --bundle=d --artifact=e --refused=g | none
words of questions | verify --root=a --repository=b --store=c --bundle=d --artifact=e --policy=f | none
words |  | none
words | verify | none
words | verify --root=a | none
words | generate --root=a | none
provider |  | tables
provider | # none;; | tables
provider | accept ECDSA_P256_SHA256 BAA= LPJNul+wow4m6DsqxbninhsWHlwfp0JecwQzYpOLmCQ= AQ==; | tables
provider | accept ED25519 AQ== AQ== AQ== | Usage
provider | accept NO_SCHEME AQ== AQ== AQ==; | Usage
provider | accept ECDSA_P256_SHA256 AQ== AQ== AQ==; | Usage
provider | accept ED25519 AQ== AQ==; | Usage
provider | accept ED25519  AQ== AQ==; | Usage
provider | accept ED25519 AQ== AQ== AQ== ; | Usage
provider | armor key YQ== AQ==;armor key YQ== Ag==; | Usage
provider | armor key YQ== AQ==;armor certificate YQ== Ag==; | tables
provider | armor key ZGVyOg== AQ==; | Usage
provider | armor other YQ== AQ==; | Usage
provider | refuse; | Usage";

// A policy that asks for nothing beside who signed, in its Debug text.
const NOTHING_BESIDE: &str =
    "conditions: SignatureConditions { predicate: None, times: None, tokens: None, signed_before: None, signed_after: None }";

// The same of policy files.
const POLICIES: &str =
    "# A key: each line, twice, out of its place, in another spelling, and what only a keyless policy asks.
policy | key AQI=; | Ok([PublicKey(PublicKeyVerificationPolicy { key: [1, 2], verify_tlog: true, logs: Threshold { value: 1 }, .. })])
policy | key AQI=;skip tlog; | Ok([PublicKey(PublicKeyVerificationPolicy { key: [1, 2], verify_tlog: false, logs: Threshold { value: 1 }, .. })])
policy | ;# a key;key AQI=;# the log;;skip tlog;# the end; | Ok([PublicKey(PublicKeyVerificationPolicy { key: [1, 2], verify_tlog: false, logs: Threshold { value: 1 }, .. })])
policy | key ; | Ok([PublicKey(PublicKeyVerificationPolicy { key: [], verify_tlog: true, logs: Threshold { value: 1 }, .. })])
policy |  | Err(Usage)
policy | # none; | Err(Usage)
policy | ; | Err(Usage)
policy | key AQI= | Err(Usage)
policy | key AQI; | Err(Usage)
policy | key; | Err(Usage)
policy | KEY AQI=; | Err(Usage)
policy |  key AQI=; | Err(Usage)
policy | key  AQI=; | Err(Usage)
policy | key AQI= ; | Err(Usage)
policy | key AQI=\r; | Err(Usage)
policy | skip tlog;key AQI=; | Err(Usage)
policy | skip tlog; | Err(Usage)
policy | key AQI=;skip tlog;skip tlog; | Err(Usage)
policy | key AQI=;key AQI=; | Err(Usage)
policy | key AQI=; skip tlog; | Err(Usage)
policy | key AQI=;skip tlog ; | Err(Usage)
policy | key AQI=;skip  tlog; | Err(Usage)
policy | key AQI=;skip tlog\r; | Err(Usage)
policy | key AQI=;skip tlog | Err(Usage)
policy | key AQI=;skip; | Err(Usage)
policy | key AQI=;skip chain; | Err(Usage)
policy | key AQI=;skip sct; | Err(Usage)
policy | key AQI=;skip tlog;skip chain; | Err(Usage)
policy | key AQI=;identity exact a; | Err(Usage)
policy | key AQI=;identity email a; | Err(Usage)
policy | key AQI=;identity uri a; | Err(Usage)
policy | key AQI=;issuer a; | Err(Usage)
policy | key AQI=;keyless; | Err(Usage)
# Keyless: each line once, and all in two orders.
policy | keyless; | Ok([Certificate(VerificationPolicy { identity: None, issuer: None, .., verify_tlog: true, certificate: Verify { verify_sct: true }, scts: Threshold { value: 1 }, logs: Threshold { value: 1 }, .. })])
policy | # who;;keyless; | Ok([Certificate(VerificationPolicy { identity: None, issuer: None, .., verify_tlog: true, certificate: Verify { verify_sct: true }, scts: Threshold { value: 1 }, logs: Threshold { value: 1 }, .. })])
policy | keyless;skip tlog; | Ok([Certificate(VerificationPolicy { identity: None, issuer: None, .., verify_tlog: false, certificate: Verify { verify_sct: true }, scts: Threshold { value: 1 }, logs: Threshold { value: 1 }, .. })])
policy | keyless;skip chain; | Ok([Certificate(VerificationPolicy { identity: None, issuer: None, .., verify_tlog: true, certificate: Skip, scts: Threshold { value: 1 }, logs: Threshold { value: 1 }, .. })])
policy | keyless;skip sct; | Ok([Certificate(VerificationPolicy { identity: None, issuer: None, .., verify_tlog: true, certificate: Verify { verify_sct: false }, scts: Threshold { value: 1 }, logs: Threshold { value: 1 }, .. })])
policy | keyless;identity exact a; | Ok([Certificate(VerificationPolicy { identity: Some(Exact(\"a\")), issuer: None, .., verify_tlog: true, certificate: Verify { verify_sct: true }, scts: Threshold { value: 1 }, logs: Threshold { value: 1 }, .. })])
policy | keyless;identity email a@b.example; | Ok([Certificate(VerificationPolicy { identity: Some(Email(\"a@b.example\")), issuer: None, .., verify_tlog: true, certificate: Verify { verify_sct: true }, scts: Threshold { value: 1 }, logs: Threshold { value: 1 }, .. })])
policy | keyless;identity uri https://a/b#c; | Ok([Certificate(VerificationPolicy { identity: Some(Uri(\"https://a/b#c\")), issuer: None, .., verify_tlog: true, certificate: Verify { verify_sct: true }, scts: Threshold { value: 1 }, logs: Threshold { value: 1 }, .. })])
policy | keyless;issuer https://a; | Ok([Certificate(VerificationPolicy { identity: None, issuer: Some(\"https://a\"), .., verify_tlog: true, certificate: Verify { verify_sct: true }, scts: Threshold { value: 1 }, logs: Threshold { value: 1 }, .. })])
policy | keyless;identity uri u;issuer i;skip tlog;skip chain;skip sct; | Ok([Certificate(VerificationPolicy { identity: Some(Uri(\"u\")), issuer: Some(\"i\"), .., verify_tlog: false, certificate: Skip, scts: Threshold { value: 1 }, logs: Threshold { value: 1 }, .. })])
policy | keyless;skip sct;# between;skip chain;;skip tlog;issuer i;identity email e; | Ok([Certificate(VerificationPolicy { identity: Some(Email(\"e\")), issuer: Some(\"i\"), .., verify_tlog: false, certificate: Skip, scts: Threshold { value: 1 }, logs: Threshold { value: 1 }, .. })])
# Blanks and other bytes in a text stay as they are, and its words mean nothing.
policy | keyless;identity exact Ann Other; | Ok([Certificate(VerificationPolicy { identity: Some(Exact(\"Ann Other\")), issuer: None, .., verify_tlog: true, certificate: Verify { verify_sct: true }, scts: Threshold { value: 1 }, logs: Threshold { value: 1 }, .. })])
policy | keyless;identity exact  a ; | Ok([Certificate(VerificationPolicy { identity: Some(Exact(\" a \")), issuer: None, .., verify_tlog: true, certificate: Verify { verify_sct: true }, scts: Threshold { value: 1 }, logs: Threshold { value: 1 }, .. })])
policy | keyless;identity exact  ; | Ok([Certificate(VerificationPolicy { identity: Some(Exact(\" \")), issuer: None, .., verify_tlog: true, certificate: Verify { verify_sct: true }, scts: Threshold { value: 1 }, logs: Threshold { value: 1 }, .. })])
policy | keyless;identity email uri exact; | Ok([Certificate(VerificationPolicy { identity: Some(Email(\"uri exact\")), issuer: None, .., verify_tlog: true, certificate: Verify { verify_sct: true }, scts: Threshold { value: 1 }, logs: Threshold { value: 1 }, .. })])
policy | keyless;identity exact #; | Ok([Certificate(VerificationPolicy { identity: Some(Exact(\"#\")), issuer: None, .., verify_tlog: true, certificate: Verify { verify_sct: true }, scts: Threshold { value: 1 }, logs: Threshold { value: 1 }, .. })])
policy | keyless;issuer a b  c; | Ok([Certificate(VerificationPolicy { identity: None, issuer: Some(\"a b  c\"), .., verify_tlog: true, certificate: Verify { verify_sct: true }, scts: Threshold { value: 1 }, logs: Threshold { value: 1 }, .. })])
policy | keyless;issuer  ; | Ok([Certificate(VerificationPolicy { identity: None, issuer: Some(\" \"), .., verify_tlog: true, certificate: Verify { verify_sct: true }, scts: Threshold { value: 1 }, logs: Threshold { value: 1 }, .. })])
policy | keyless;issuer skip tlog; | Ok([Certificate(VerificationPolicy { identity: None, issuer: Some(\"skip tlog\"), .., verify_tlog: true, certificate: Verify { verify_sct: true }, scts: Threshold { value: 1 }, logs: Threshold { value: 1 }, .. })])
policy | keyless;issuer a\r; | Ok([Certificate(VerificationPolicy { identity: None, issuer: Some(\"a\\r\"), .., verify_tlog: true, certificate: Verify { verify_sct: true }, scts: Threshold { value: 1 }, logs: Threshold { value: 1 }, .. })])
policy | keyless;issuer \u{e9}; | Ok([Certificate(VerificationPolicy { identity: None, issuer: Some(\"\u{e9}\"), .., verify_tlog: true, certificate: Verify { verify_sct: true }, scts: Threshold { value: 1 }, logs: Threshold { value: 1 }, .. })])
# By a pattern: every text is one, blanks and stars and all, and only these two sorts have one.
policy | keyless;identity uri-like https://a/*@refs/tags/v*; | Ok([Certificate(VerificationPolicy { identity: Some(UriLike(\"https://a/*@refs/tags/v*\")), issuer: None, .., verify_tlog: true, certificate: Verify { verify_sct: true }, scts: Threshold { value: 1 }, logs: Threshold { value: 1 }, .. })])
policy | keyless;identity email-like *@b.example; | Ok([Certificate(VerificationPolicy { identity: Some(EmailLike(\"*@b.example\")), issuer: None, .., verify_tlog: true, certificate: Verify { verify_sct: true }, scts: Threshold { value: 1 }, logs: Threshold { value: 1 }, .. })])
policy | keyless;identity uri-like ***?[; | Ok([Certificate(VerificationPolicy { identity: Some(UriLike(\"***?[\")), issuer: None, .., verify_tlog: true, certificate: Verify { verify_sct: true }, scts: Threshold { value: 1 }, logs: Threshold { value: 1 }, .. })])
policy | keyless;identity uri-like a; | Ok([Certificate(VerificationPolicy { identity: Some(UriLike(\"a\")), issuer: None, .., verify_tlog: true, certificate: Verify { verify_sct: true }, scts: Threshold { value: 1 }, logs: Threshold { value: 1 }, .. })])
policy | keyless;identity uri-like  * ; | Ok([Certificate(VerificationPolicy { identity: Some(UriLike(\" * \")), issuer: None, .., verify_tlog: true, certificate: Verify { verify_sct: true }, scts: Threshold { value: 1 }, logs: Threshold { value: 1 }, .. })])
policy | keyless;identity uri like *; | Ok([Certificate(VerificationPolicy { identity: Some(Uri(\"like *\")), issuer: None, .., verify_tlog: true, certificate: Verify { verify_sct: true }, scts: Threshold { value: 1 }, logs: Threshold { value: 1 }, .. })])
policy | keyless;identity uri *; | Ok([Certificate(VerificationPolicy { identity: Some(Uri(\"*\")), issuer: None, .., verify_tlog: true, certificate: Verify { verify_sct: true }, scts: Threshold { value: 1 }, logs: Threshold { value: 1 }, .. })])
policy | keyless;identity exact *; | Ok([Certificate(VerificationPolicy { identity: Some(Exact(\"*\")), issuer: None, .., verify_tlog: true, certificate: Verify { verify_sct: true }, scts: Threshold { value: 1 }, logs: Threshold { value: 1 }, .. })])
policy | keyless;identity uri-like ; | Err(Usage)
policy | keyless;identity uri-like; | Err(Usage)
policy | keyless;identity email-like ; | Err(Usage)
policy | keyless;identity email-like; | Err(Usage)
policy | keyless;identity exact-like *; | Err(Usage)
policy | keyless;identity like *; | Err(Usage)
policy | keyless;identity uri-Like *; | Err(Usage)
policy | keyless;identity Uri-like *; | Err(Usage)
policy | keyless;identity urilike *; | Err(Usage)
policy | keyless;identity uri- *; | Err(Usage)
policy | keyless;identity  uri-like *; | Err(Usage)
policy | keyless;issuer-like *; | Err(Usage)
policy | keyless;identity uri-like a;identity uri-like a; | Err(Usage)
policy | keyless;identity uri-like a;identity uri-like b; | Err(Usage)
policy | keyless;identity uri a;identity uri-like a; | Err(Usage)
policy | keyless;identity uri-like a;identity uri a; | Err(Usage)
policy | keyless;identity email-like a;identity uri-like a; | Err(Usage)
policy | keyless;identity email-like a;identity email-like a; | Err(Usage)
policy | keyless;identity exact a;identity email-like a; | Err(Usage)
policy | key AQI=;identity uri-like a; | Err(Usage)
policy | key AQI=;identity email-like a; | Err(Usage)
# Each line twice, and identities of two sorts.
policy | keyless;skip tlog;skip tlog; | Err(Usage)
policy | keyless;skip chain;skip chain; | Err(Usage)
policy | keyless;skip sct;skip sct; | Err(Usage)
policy | keyless;issuer a;issuer a; | Err(Usage)
policy | keyless;issuer a;issuer b; | Err(Usage)
policy | keyless;identity exact a;identity exact a; | Err(Usage)
policy | keyless;identity email a;identity email a; | Err(Usage)
policy | keyless;identity uri a;identity uri a; | Err(Usage)
policy | keyless;identity exact a;identity email a; | Err(Usage)
policy | keyless;identity exact a;identity uri a; | Err(Usage)
policy | keyless;identity email a;identity exact a; | Err(Usage)
policy | keyless;identity email a;identity uri a; | Err(Usage)
policy | keyless;identity uri a;identity exact a; | Err(Usage)
policy | keyless;identity uri a;identity email a; | Err(Usage)
policy | keyless;keyless; | Err(Usage)
# Texts that are empty or lacking, sorts and checks that aren't known, and lines out of their place or spelling.
policy | keyless;issuer ; | Err(Usage)
policy | keyless;issuer; | Err(Usage)
policy | keyless;identity exact ; | Err(Usage)
policy | keyless;identity exact; | Err(Usage)
policy | keyless;identity email ; | Err(Usage)
policy | keyless;identity uri ; | Err(Usage)
policy | keyless;identity ; | Err(Usage)
policy | keyless;identity; | Err(Usage)
policy | keyless;identity  exact a; | Err(Usage)
policy | keyless;identity a; | Err(Usage)
policy | keyless;identity Exact a; | Err(Usage)
policy | keyless;identity dns a; | Err(Usage)
policy | keyless;skip; | Err(Usage)
policy | keyless;skip ; | Err(Usage)
policy | keyless;skip log; | Err(Usage)
policy | keyless;skip tlog ; | Err(Usage)
policy | keyless;skip sct\r; | Err(Usage)
policy | keyless;skip tlog chain; | Err(Usage)
policy | keyless;skip tsa; | Err(Usage)
policy | keyless;Issuer a; | Err(Usage)
policy | keyless; issuer a; | Err(Usage)
policy | keyless;key AQI=; | Err(Usage)
policy | keyless;a; | Err(Usage)
policy | keyless ; | Err(Usage)
policy |  keyless; | Err(Usage)
policy | keyless a; | Err(Usage)
policy | keyless\r; | Err(Usage)
policy | Keyless; | Err(Usage)
policy | keyless | Err(Usage)
policy | keyless;issuer a | Err(Usage)
policy | keyless;skip sct | Err(Usage)
policy | issuer a;keyless; | Err(Usage)
policy | skip sct;keyless; | Err(Usage)
policy | identity exact a;keyless; | Err(Usage)
policy | identity exact a; | Err(Usage)
policy | issuer a; | Err(Usage)
# How many logs: each number once, the least and the greatest, in any order, and beside waivers.
policy | key AQI=;logs 2; | Ok([PublicKey(PublicKeyVerificationPolicy { key: [1, 2], verify_tlog: true, logs: Threshold { value: 2 }, .. })])
policy | key AQI=;logs 1; | Ok([PublicKey(PublicKeyVerificationPolicy { key: [1, 2], verify_tlog: true, logs: Threshold { value: 1 }, .. })])
policy | key AQI=;logs 255; | Ok([PublicKey(PublicKeyVerificationPolicy { key: [1, 2], verify_tlog: true, logs: Threshold { value: 255 }, .. })])
policy | key AQI=;skip tlog;logs 2; | Ok([PublicKey(PublicKeyVerificationPolicy { key: [1, 2], verify_tlog: false, logs: Threshold { value: 2 }, .. })])
policy | key AQI=;# two;logs 2;;skip tlog; | Ok([PublicKey(PublicKeyVerificationPolicy { key: [1, 2], verify_tlog: false, logs: Threshold { value: 2 }, .. })])
policy | keyless;scts 2; | Ok([Certificate(VerificationPolicy { identity: None, issuer: None, .., verify_tlog: true, certificate: Verify { verify_sct: true }, scts: Threshold { value: 2 }, logs: Threshold { value: 1 }, .. })])
policy | keyless;logs 2; | Ok([Certificate(VerificationPolicy { identity: None, issuer: None, .., verify_tlog: true, certificate: Verify { verify_sct: true }, scts: Threshold { value: 1 }, logs: Threshold { value: 2 }, .. })])
policy | keyless;scts 1;logs 1; | Ok([Certificate(VerificationPolicy { identity: None, issuer: None, .., verify_tlog: true, certificate: Verify { verify_sct: true }, scts: Threshold { value: 1 }, logs: Threshold { value: 1 }, .. })])
policy | keyless;logs 255; | Ok([Certificate(VerificationPolicy { identity: None, issuer: None, .., verify_tlog: true, certificate: Verify { verify_sct: true }, scts: Threshold { value: 1 }, logs: Threshold { value: 255 }, .. })])
policy | keyless;scts 255; | Ok([Certificate(VerificationPolicy { identity: None, issuer: None, .., verify_tlog: true, certificate: Verify { verify_sct: true }, scts: Threshold { value: 255 }, logs: Threshold { value: 1 }, .. })])
policy | keyless;scts 10;logs 99; | Ok([Certificate(VerificationPolicy { identity: None, issuer: None, .., verify_tlog: true, certificate: Verify { verify_sct: true }, scts: Threshold { value: 10 }, logs: Threshold { value: 99 }, .. })])
policy | keyless;logs 3;scts 2; | Ok([Certificate(VerificationPolicy { identity: None, issuer: None, .., verify_tlog: true, certificate: Verify { verify_sct: true }, scts: Threshold { value: 2 }, logs: Threshold { value: 3 }, .. })])
policy | keyless;skip tlog;logs 3;issuer i;scts 2;identity email e; | Ok([Certificate(VerificationPolicy { identity: Some(Email(\"e\")), issuer: Some(\"i\"), .., verify_tlog: false, certificate: Verify { verify_sct: true }, scts: Threshold { value: 2 }, logs: Threshold { value: 3 }, .. })])
policy | keyless;scts 2;skip sct;skip chain; | Ok([Certificate(VerificationPolicy { identity: None, issuer: None, .., verify_tlog: true, certificate: Skip, scts: Threshold { value: 2 }, logs: Threshold { value: 1 }, .. })])
# Twice, none, more than 255, and in another spelling.
policy | keyless;scts 2;scts 2; | Err(Usage)
policy | keyless;scts 2;scts 3; | Err(Usage)
policy | keyless;scts 2;logs 2;scts 2; | Err(Usage)
policy | keyless;logs 2;logs 2; | Err(Usage)
policy | keyless;logs 1;logs 255; | Err(Usage)
policy | key AQI=;logs 2;logs 2; | Err(Usage)
policy | key AQI=;logs 2;skip tlog;logs 3; | Err(Usage)
policy | keyless;scts 0; | Err(Usage)
policy | keyless;scts 256; | Err(Usage)
policy | keyless;scts 257; | Err(Usage)
policy | keyless;scts 512; | Err(Usage)
policy | keyless;scts 18446744073709551617; | Err(Usage)
policy | keyless;scts 01; | Err(Usage)
policy | keyless;scts 00; | Err(Usage)
policy | keyless;scts; | Err(Usage)
policy | keyless;scts ; | Err(Usage)
policy | keyless;scts +1; | Err(Usage)
policy | keyless;scts -1; | Err(Usage)
policy | keyless;scts 2 ; | Err(Usage)
policy | keyless;scts  2; | Err(Usage)
policy | keyless; scts 2; | Err(Usage)
policy | keyless;scts 2\r; | Err(Usage)
policy | keyless;scts 0x2; | Err(Usage)
policy | keyless;scts 2.0; | Err(Usage)
policy | keyless;scts two; | Err(Usage)
policy | keyless;scts 2 3; | Err(Usage)
policy | keyless;Scts 2; | Err(Usage)
policy | keyless;sct 2; | Err(Usage)
policy | keyless;scts 2 | Err(Usage)
policy | keyless;logs 0; | Err(Usage)
policy | keyless;logs 256; | Err(Usage)
policy | keyless;logs 01; | Err(Usage)
policy | keyless;logs; | Err(Usage)
policy | keyless;logs ; | Err(Usage)
policy | keyless;logs +1; | Err(Usage)
policy | keyless;logs 2 ; | Err(Usage)
policy | keyless;log 2; | Err(Usage)
policy | keyless;logs tlog; | Err(Usage)
policy | key AQI=;logs 0; | Err(Usage)
policy | key AQI=;logs 256; | Err(Usage)
policy | key AQI=;logs 01; | Err(Usage)
policy | key AQI=;logs; | Err(Usage)
policy | key AQI=;logs ; | Err(Usage)
policy | key AQI=;logs +1; | Err(Usage)
policy | key AQI=;logs 2 ; | Err(Usage)
policy | key AQI=;logs 2 | Err(Usage)
# What only a keyless policy asks, and lines before the first one.
policy | key AQI=;scts 2; | Err(Usage)
policy | key AQI=;logs 2;scts 2; | Err(Usage)
policy | scts 2;keyless; | Err(Usage)
policy | logs 2;keyless; | Err(Usage)
policy | logs 2;key AQI=; | Err(Usage)
policy | logs 2; | Err(Usage)
# A byte that isn't UTF-8.
policy with byte ff | key AQI=;# | Err(Usage)
policy with byte ff | keyless;issuer  | Err(Usage)
policy with byte ff | keyless;identity exact a | Err(Usage)
# What is asked beside who signed, under a key and without one.
policy | key AQI=;times 2;tokens 255;signed after 2023-01-02T03:04:05Z;signed before 2024-01-01T00:00:00Z;predicate https://slsa.dev/provenance/v1; | Ok([PublicKey(PublicKeyVerificationPolicy { key: [1, 2], verify_tlog: true, logs: Threshold { value: 1 }, conditions: SignatureConditions { predicate: Some(Exact(\"https://slsa.dev/provenance/v1\")), times: Some(Threshold { value: 2 }), tokens: Some(Threshold { value: 255 }), signed_before: Some(2024-01-01T00:00:00Z), signed_after: Some(2023-01-02T03:04:05Z) } })])
policy | keyless;predicate-like https://slsa.dev/**; | Ok([Certificate(VerificationPolicy { identity: None, issuer: None, .., verify_tlog: true, certificate: Verify { verify_sct: true }, scts: Threshold { value: 1 }, logs: Threshold { value: 1 }, conditions: SignatureConditions { predicate: Some(Like(\"https://slsa.dev/**\")), times: None, tokens: None, signed_before: None, signed_after: None } })])
policy | key AQI=;times 0; | Err(Usage)
policy | key AQI=;times 256; | Err(Usage)
policy | key AQI=;times 02; | Err(Usage)
policy | key AQI=;times; | Err(Usage)
policy | key AQI=;times 2;times 2; | Err(Usage)
policy | key AQI=;tokens x; | Err(Usage)
policy | key AQI=;predicate a;predicate-like a; | Err(Usage)
policy | key AQI=;predicate ; | Err(Usage)
policy | key AQI=;signed before; | Err(Usage)
policy | key AQI=;signed before tomorrow; | Err(Usage)
policy | key AQI=;signed until 2024-01-01T00:00:00Z; | Err(Usage)
policy | key AQI=;signed before 2024-01-01T00:00:00Z;signed before 2025-01-01T00:00:00Z; | Err(Usage)
policy | key AQI=;Times 2; | Err(Usage)
# What a certificate has to claim, each name once, and nobody named on purpose.
policy | keyless;claim build-trigger push;claim-like source-repository-ref refs/tags/*; | Ok([Certificate(VerificationPolicy { identity: None, issuer: None, claims: [ClaimMatcher { name: BuildTrigger, text: Exact(\"push\") }, ClaimMatcher { name: SourceRepositoryRef, text: Like(\"refs/tags/*\") }], anyone: false, verify_tlog: true, certificate: Verify { verify_sct: true }, scts: Threshold { value: 1 }, logs: Threshold { value: 1 }, .. })])
policy | keyless;claim github-workflow-name a b ; | Ok([Certificate(VerificationPolicy { identity: None, issuer: None, claims: [ClaimMatcher { name: GithubWorkflowName, text: Exact(\"a b \") }], anyone: false, verify_tlog: true, certificate: Verify { verify_sct: true }, scts: Threshold { value: 1 }, logs: Threshold { value: 1 }, .. })])
policy | keyless;issuer i;anyone; | Ok([Certificate(VerificationPolicy { identity: None, issuer: Some(\"i\"), claims: [], anyone: true, verify_tlog: true, certificate: Verify { verify_sct: true }, scts: Threshold { value: 1 }, logs: Threshold { value: 1 }, .. })])
policy | keyless;claim build-trigger push;claim build-trigger push; | Err(Usage)
policy | keyless;claim build-trigger push;claim-like build-trigger *; | Err(Usage)
policy | keyless;claim trigger push; | Err(Usage)
policy | keyless;claim build-trigger; | Err(Usage)
policy | keyless;claim build-trigger ; | Err(Usage)
policy | keyless;claim Build-Trigger push; | Err(Usage)
policy | keyless;claim; | Err(Usage)
policy | keyless;anyone;identity exact a; | Err(Usage)
policy | keyless;claim build-trigger push;anyone; | Err(Usage)
policy | keyless;anyone;anyone; | Err(Usage)
policy | keyless;anyone at all; | Err(Usage)
policy | key AQI=;anyone; | Err(Usage)
policy | key AQI=;claim build-trigger push; | Err(Usage)
policy | key AQI=;claim-like build-trigger *; | Err(Usage)";

// The same of files with several rules.
const RULES: &str = "# Two rules and three, each with its own lines.
policy | key AQI=;or;keyless;identity uri u;issuer i; | Ok([PublicKey(PublicKeyVerificationPolicy { key: [1, 2], verify_tlog: true, logs: Threshold { value: 1 }, .. }), Certificate(VerificationPolicy { identity: Some(Uri(\"u\")), issuer: Some(\"i\"), .., verify_tlog: true, certificate: Verify { verify_sct: true }, scts: Threshold { value: 1 }, logs: Threshold { value: 1 }, .. })])
policy | ;# one;keyless;identity email e;# the end of it;or;;# another;key AQI=;# the end; | Ok([Certificate(VerificationPolicy { identity: Some(Email(\"e\")), issuer: None, .., verify_tlog: true, certificate: Verify { verify_sct: true }, scts: Threshold { value: 1 }, logs: Threshold { value: 1 }, .. }), PublicKey(PublicKeyVerificationPolicy { key: [1, 2], verify_tlog: true, logs: Threshold { value: 1 }, .. })])
policy | key AQI=;or;key AQI=; | Ok([PublicKey(PublicKeyVerificationPolicy { key: [1, 2], verify_tlog: true, logs: Threshold { value: 1 }, .. }), PublicKey(PublicKeyVerificationPolicy { key: [1, 2], verify_tlog: true, logs: Threshold { value: 1 }, .. })])
policy | key AQI=;skip tlog;or;key Aw==;or;keyless;skip sct; | Ok([PublicKey(PublicKeyVerificationPolicy { key: [1, 2], verify_tlog: false, logs: Threshold { value: 1 }, .. }), PublicKey(PublicKeyVerificationPolicy { key: [3], verify_tlog: true, logs: Threshold { value: 1 }, .. }), Certificate(VerificationPolicy { identity: None, issuer: None, .., verify_tlog: true, certificate: Verify { verify_sct: false }, scts: Threshold { value: 1 }, logs: Threshold { value: 1 }, .. })])
# A line stands once in each rule.
policy | key AQI=;skip tlog;or;key Aw==;skip tlog; | Ok([PublicKey(PublicKeyVerificationPolicy { key: [1, 2], verify_tlog: false, logs: Threshold { value: 1 }, .. }), PublicKey(PublicKeyVerificationPolicy { key: [3], verify_tlog: false, logs: Threshold { value: 1 }, .. })])
policy | keyless;identity exact a;issuer i;or;keyless;identity exact b;issuer i; | Ok([Certificate(VerificationPolicy { identity: Some(Exact(\"a\")), issuer: Some(\"i\"), .., verify_tlog: true, certificate: Verify { verify_sct: true }, scts: Threshold { value: 1 }, logs: Threshold { value: 1 }, .. }), Certificate(VerificationPolicy { identity: Some(Exact(\"b\")), issuer: Some(\"i\"), .., verify_tlog: true, certificate: Verify { verify_sct: true }, scts: Threshold { value: 1 }, logs: Threshold { value: 1 }, .. })])
policy | keyless;anyone;or;keyless;identity exact a; | Ok([Certificate(VerificationPolicy { identity: None, issuer: None, claims: [], anyone: true, verify_tlog: true, certificate: Verify { verify_sct: true }, scts: Threshold { value: 1 }, logs: Threshold { value: 1 }, .. }), Certificate(VerificationPolicy { identity: Some(Exact(\"a\")), issuer: None, .., verify_tlog: true, certificate: Verify { verify_sct: true }, scts: Threshold { value: 1 }, logs: Threshold { value: 1 }, .. })])
policy | keyless;identity exact a;or;keyless;anyone; | Ok([Certificate(VerificationPolicy { identity: Some(Exact(\"a\")), issuer: None, .., verify_tlog: true, certificate: Verify { verify_sct: true }, scts: Threshold { value: 1 }, logs: Threshold { value: 1 }, .. }), Certificate(VerificationPolicy { identity: None, issuer: None, claims: [], anyone: true, verify_tlog: true, certificate: Verify { verify_sct: true }, scts: Threshold { value: 1 }, logs: Threshold { value: 1 }, .. })])
policy | key AQI=;or;key Aw==;skip tlog;skip tlog; | Err(Usage)
policy | key AQI=;skip tlog;skip tlog;or;key Aw==; | Err(Usage)
policy | keyless;anyone;identity exact a;or;key AQI=; | Err(Usage)
policy | key AQI=;or;keyless;anyone;identity exact a; | Err(Usage)
policy | key AQI=;issuer i;or;keyless; | Err(Usage)
policy | keyless;or;key AQI=;issuer i; | Err(Usage)
# The line `or` stands between two rules, alone, and each rule has its first line.
policy | or; | Err(Usage)
policy | or;key AQI=; | Err(Usage)
policy | # none;or;key AQI=; | Err(Usage)
policy | key AQI=;or; | Err(Usage)
policy | key AQI=;or;# none;; | Err(Usage)
policy | key AQI=;or;or;keyless; | Err(Usage)
policy | key AQI=;or;# none;or;keyless; | Err(Usage)
policy | key AQI=;or ;keyless; | Err(Usage)
policy | key AQI=; or;keyless; | Err(Usage)
policy | key AQI=;or x;keyless; | Err(Usage)
policy | key AQI=;or key AQI=; | Err(Usage)
policy | key AQI=;OR;keyless; | Err(Usage)
policy | key AQI=;or\r;keyless; | Err(Usage)
policy | key AQI=;or;skip tlog; | Err(Usage)
policy | key AQI=;or;skip tlog;key Aw==; | Err(Usage)
policy | key AQI=;or;keyless | Err(Usage)
policy | key AQI=;or | Err(Usage)
policy with byte ff | key AQI=;or;key Aw==;# | Err(Usage)
# At most 64 rules.
rules behind others | 0 | 1
rules behind others | 1 | 2
rules behind others | 63 | 64
rules behind others | 64 | Usage
rules behind others | 65 | Usage";

const PROVIDER: &str =
    "accept ECDSA_P256_SHA256 BAA= LPJNul+wow4m6DsqxbninhsWHlwfp0JecwQzYpOLmCQ= AQ==
accept ED25519 - aGVsbG8= -
armor key a2V5 AQI=
armor certificate Y2VydA== Aw==
";

fn scheme_of(name: &str) -> SigningScheme {
    match name {
        "EcdsaP256Sha256" => SigningScheme::EcdsaP256Sha256,
        "RsaPssSha256" => SigningScheme::RsaPssSha256,
        _ => SigningScheme::Ed25519,
    }
}

// Whether the provider accepts a signature over a message, or over the message's digest.
fn is_accepted<X: Abort>(rt: &X, provider: &TableProvider, call: &str, text: &str) -> bool {
    let (key, text) = halves(rt, text, "/");
    let (message, signature) = halves(rt, text, "/");
    let (key, message, signature) = (key.as_bytes(), message.as_bytes(), signature.as_bytes());
    if call == "digest" {
        let digest = sha256(message);
        let scheme = SigningScheme::EcdsaP256Sha256;
        provider.verify_prehashed(scheme, key, digest.as_bytes(), signature)
    } else {
        provider.verify_raw(scheme_of(call), key, message, signature)
    }
}

fn is_there<X: Abort>(rt: &X, read: Result<Option<Bytes>, NoMemory>) -> bool {
    good(rt, read).is_some()
}

// What a table answers.
fn asked<X: AllocGlobal + Abort>(rt: &X, tables: &Tables, call: &str, asked: &str) -> String {
    let (armor, bytes) = (&tables.armor, asked.as_bytes());
    match call {
        "is_armored" => debug(rt, armor.is_armored(bytes)),
        "read_key" => debug(rt, is_there(rt, armor.read_key(rt.alloc(), bytes))),
        "read_certificate" => debug(rt, is_there(rt, armor.read_certificate(rt.alloc(), bytes))),
        "write_certificate" => {
            let written = good(rt, armor.write_certificate(rt.alloc(), bytes));
            let text = text_of(rt, written.as_bytes());
            drop(written);
            text
        }
        _ => debug(rt, is_accepted(rt, &tables.provider, call, asked)),
    }
}

fn table<X: AllocGlobal + Abort>(rt: &X, row: &str) -> String {
    let (call, text) = halves(rt, row, " | ");
    let tables = good(rt, read_provider(rt.alloc(), PROVIDER.as_bytes()));
    let answer = asked(rt, &tables, call, text);
    drop(tables);
    answer
}

// A row: a scheme, or the digest under ECDSA, with a key, a message and a signature; or a call of the
// armour and its text; and the answer.
const TABLES: &str = "EcdsaP256Sha256 | \u{4}\0/hello/\u{1} | true
EcdsaP256Sha256 | \u{4}\0/jello/\u{1} | false
EcdsaP256Sha256 | \u{4}\0/hello/\u{2} | false
RsaPssSha256 | \u{4}\0/hello/\u{1} | false
Ed25519 | /hello/ | true
digest | \u{4}\0/hello/\u{1} | true
is_armored | key | true
read_key | key | true
read_certificate | key | false
is_armored | cert | true
read_key | cert | false
read_certificate | cert | true
is_armored | der:AQI= | true
read_key | der:AQI= | true
read_certificate | der:AQI= | true
is_armored | der:AQI | true
read_key | der:AQI | false
read_certificate | der:AQI | false
is_armored | other | false
read_key | other | false
read_certificate | other | false
write_certificate | \u{1}\u{2} | der:AQI=";

fn write_texts<X: AllocGlobal + Abort>(rt: &X, sink: &mut MemorySink, texts: &str) -> String {
    let mut answers = String::new(rt.alloc());
    for text in texts.split_whitespace() {
        let answer = write_all(sink, text.as_bytes());
        good(rt, write!(answers, "{answer:?} "));
    }
    answers
}

// The answers of a sink with room for seven bytes, and what it took.
fn taken<X: AllocGlobal + Abort>(rt: &X, row: &str) -> String {
    let (texts, call) = halves(rt, row, " | ");
    let mut sink = good(rt, MemorySink::new(rt.alloc(), 7, failures(rt, call)));
    let answers = write_texts(rt, &mut sink, texts);
    let taken = text_of(rt, sink.bytes());
    drop(sink);
    let text = format!(in rt.alloc(); "{answers}{taken:?}");
    drop(answers);
    drop(taken);
    good(rt, text)
}

// A row: texts, the call that fails, and the answers with what was taken.
const TAKEN: &str = r#"hello hello |  | Ok(()) Err(Failed) "hellohe"
hello | 1 | Err(Failed) """#;

fn which(name: &str) -> InputFile {
    match name {
        "Root" => InputFile::Root,
        "Bundle" => InputFile::Bundle,
        "Policy" => InputFile::Policy,
        _ => InputFile::Provider,
    }
}

// What an input of at most that many bytes reads as.
fn input<X: AllocGlobal + Abort, I: Inputs>(rt: &X, inputs: &mut I, row: &str) -> String {
    let (name, max) = halves(rt, row, " | ");
    match inputs.read(rt.alloc(), which(name), number(rt, max)) {
        Ok(bytes) => {
            let text = text_of(rt, bytes.as_bytes());
            drop(bytes);
            text
        }
        Err(fault) => debug(rt, fault),
    }
}

fn read_all<X: AllocGlobal + Abort, I: Inputs>(rt: &X, inputs: &mut I, rows: &str) {
    for row in rows.lines() {
        let (asked, wanted) = answered(rt, row);
        check(rt, row, wanted, input(rt, inputs, asked));
    }
}

// A row: an input, its greatest length, and what is read. The fourth call fails.
const MEMORY: &str = "Root | 5 | hello
Root | 4 | TooLong { seen: 5 }
Policy | 4 | Absent
Root | 5 | Failed";

// The root is a file, the bundle is no file, and the policy is a folder.
fn file_inputs<'r, X: Files + AllocGlobal + Abort>(rt: &'r X) -> FileInputs<'r, X> {
    let (root, bundle) = (text(rt, "an_input"), text(rt, "no_such_input"));
    let (policy, provider) = (text(rt, "/"), text(rt, ""));
    FileInputs::new(rt, root, bundle, policy, provider)
}

const FILES: &str = "Root | 5 | hello
Root | 4 | TooLong { seen: 5 }
Bundle | 4 | Absent
Policy | 4 | Failed";

// Puts an input, and says why the inputs aren't gathered then.
fn gathered<X: AllocGlobal + Abort>(rt: &X, inputs: &mut MemoryInputs, row: &str) -> String {
    let (name, text) = halves(rt, row, " | ");
    inputs.put(
        which(name),
        Bytes::from_vec(lines_of(rt, text).into_bytes()),
    );
    debug(rt, Gathered::gather(rt.alloc(), inputs).err())
}

fn gather_all<X: AllocGlobal + Abort>(rt: &X, inputs: &mut MemoryInputs, rows: &str) {
    for row in rows.lines() {
        let (asked, wanted) = answered(rt, row);
        check(rt, row, wanted, gathered(rt, inputs, asked));
    }
}

// A row: an input that is put, its text with `;` for the end of a line, and why the inputs aren't gathered.
const GATHERED: &str = "Bundle | {} | Some(Input(Policy))
Policy | key AQI= | Some(Malformed(Policy))
Policy | key AQI=;or; | Some(Malformed(Policy))
Policy | key AQI=;or;keyless; | Some(Input(Provider))
Policy | key AQI=; | Some(Input(Provider))
Provider | refuse; | Some(Malformed(Provider))
Provider |  | Some(Input(Root))
Root | {} | None";

// Adds what a call writes.
fn push(alloc: Global, text: &mut String, call: &str) -> Result<(), NoMemory> {
    match call {
        "line" => push_line(text, "accepted"),
        "number" => push_number_line(text, "root", 18_446_744_073_709_551_615),
        "named" => push_named_line(text, "role", b"a\\\n~", 10),
        "hex" => push_hex_line(alloc, text, "artifact", "sha256", b"\x2c\xf2"),
        "text" => push_text_line(text, "issuer", b"\x1f \x7f"),
        "yes" => push_answer_line(text, "tlog", true),
        "no" => push_answer_line(text, "sct", false),
        "pair" => push_pair_line(text, "input", "root"),
        "refused" => push_refused_line(text, "tuf", 16, "TargetNotFound"),
        "printed" => push_printed(text, b"a"),
        "decimal" => push_decimal(text, 0),
        _ => Ok(()),
    }
}

// What a call adds to a text, as Debug prints it.
fn pushed<X: AllocGlobal + Abort>(rt: &X, call: &str) -> String {
    let mut text = string(rt, "> ");
    good(rt, push(rt.alloc(), &mut text, call));
    debug(rt, text)
}

// A row: a call, and the text `> ` after it.
const LINES: &str = r#"line | "> accepted\n"
number | "> root 18446744073709551615\n"
named | "> role a\\x5c\\x0a~ 10\n"
hex | "> artifact sha256 2cf2\n"
text | "> issuer \\x1f \\x7f\n"
yes | "> tlog yes\n"
no | "> sct no\n"
pair | "> input root\n"
refused | "> refused tuf 16 TargetNotFound\n"
printed | "> a"
decimal | "> 0""#;

#[test]
fn parts_of_the_program(rt: HostRuntime) {
    hold(&rt, "fault", NAMES);
    hold(&rt, "reading", READINGS);
    hold(&rt, "reading", POLICIES);
    hold(&rt, "reading", RULES);
    hold(&rt, "table", TABLES);
    hold(&rt, "sink", TAKEN);
    hold(&rt, "line", LINES);
    assert!(rt; write_all(&mut StdoutSink::new(&rt), b"").is_ok());
}

#[test]
fn inputs_in_memory(rt: HostRuntime) {
    let mut inputs = MemoryInputs::new(failures(&rt, "4"));
    inputs.put(InputFile::Root, bytes(&rt, b"hello"));
    read_all(&rt, &mut inputs, MEMORY);
    drop(inputs);
    let mut gathered = MemoryInputs::new(failures(&rt, ""));
    gather_all(&rt, &mut gathered, GATHERED);
    drop(gathered);
}

#[test]
fn files_are_inputs(rt: HostRuntime) {
    good(&rt, fs::write(&rt, "an_input", "hello"));
    let mut inputs = file_inputs(&rt);
    read_all(&rt, &mut inputs, FILES);
    good(&rt, fs::remove_file(&rt, "an_input"));
    drop(inputs);
}
