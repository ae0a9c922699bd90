// Which paths a delegation is for, by patterns and by hash prefixes, and whose keys sign for it.
use crate::places;
use crate::words::{good, hold, printed, string, there};
use foundation::Sequence;
use serde_json::Value;
use sigstore_tuf_parts::*;
use sigstore_types_parts::{FromValue, Text};
use std::process::Abort;

/// The answer of a call that is given a text; for any other name that of a call of places.
pub fn answer<X: AllocGlobal + Abort>(rt: &X, call: &str, given: &str) -> String {
    match call {
        "pattern" => pattern(rt, given),
        "delegation" => delegation(rt, given),
        "role keys" => role_keys(rt, given),
        _ => places::answer(rt, call, given),
    }
}

// A delegation with these members beside its name, ids and threshold.
fn role<X: AllocGlobal + Abort>(rt: &X, members: &str) -> DelegatedRole {
    let text = good(
        rt,
        format!(in rt.alloc();
            "{{\"name\":\"d\",\"keyids\":[\"k\",\"l\"],\"threshold\":2{members}}}"
        ),
    );
    let value = good(rt, Value::from_str(rt.alloc(), text.as_str()));
    let role = good(rt, DelegatedRole::from_value(rt.alloc(), &value));
    drop(text);
    drop(value);
    role
}

// A row: the members of a delegation, and a path.
fn delegation<X: AllocGlobal + Abort>(rt: &X, row: &str) -> String {
    let (members, path) = there(rt, row.rsplit_once(" | "));
    let role = role(rt, members);
    let answer = role.matches_path(rt.alloc(), path);
    drop(role);
    match answer {
        Ok(found) => printed(rt, found),
        Err(refusal) => printed(rt, refusal),
    }
}

// A row: the one pattern of a delegation, and a path.
fn pattern<X: AllocGlobal + Abort>(rt: &X, row: &str) -> String {
    let (pattern, path) = there(rt, row.rsplit_once(" | "));
    let given = good(
        rt,
        format!(in rt.alloc(); ",\"paths\":[\"{pattern}\"] | {path}"),
    );
    let answer = delegation(rt, given.as_str());
    drop(given);
    answer
}

const PATTERNS: &str = r#"* | a => true
* |  => true
* | a/b => false
? | a => true
? |  => false
? | ab => false
? | é => true
?? | é => false
a?c | abc => true
a?c | ac => false
[abc] | b => true
[abc] | d => false
[a-c] | c => true
[a-c] | d => false
[c-a] | b => false
[!a-c] | d => true
[!a-c] | b => false
[!a-c] |  => false
[a-] | - => true
[a-] | b => false
[-a] | - => true
[a-c-e] | d => false
[a-c-e] | - => true
[α-γ] | β => true
[]] | ] => true
[]] | a => false
[!]] | a => true
[!]] | ] => false
[a!] | ! => true
[[] | [ => true
[?*] | ? => true
[?*] | a => false
] | ] => true
[ | [ => Malformed(Pattern)
[] | [] => Malformed(Pattern)
[!] | [!] => Malformed(Pattern)
[ab | a => Malformed(Pattern)
[a/b] | a => Malformed(Pattern)
x[a | x => Malformed(Pattern)
** | ab => true
** |  => true
** | a/b => false
a/** | a/b => true
a/** | a/b/c => false
**/b | a/b => true
a** | a => Malformed(Pattern)
*** | a => Malformed(Pattern)
x/y/a** | z => Malformed(Pattern)
*a*b* | xaybz => true
*a*b* | xbyaz => false
*é | éé => true
*a*a*a*a*a*a*a*a*a*a*b | aaaaaaaaaaaaaaaaaaaaaaaaaaaaaaaaaaaaaaaaaaaaaaaaaaaaaaaaaaaaaaaa => false
releases/*/* | releases/x/x_v1 => true
releases/*/* | releases/x => false
releases/** | releases/package => true
releases/** | releases/stable/package => false
release-**.json | anything => Malformed(Pattern)
foo-[!0-9].tgz | foo-a.tgz => true
foo-[!0-9].tgz | foo-2.tgz => false
foo-[/].tgz | foo-/.tgz => Malformed(Pattern)
targets/*.json | targets/a.json => true
targets/*.json | targets/.json => true
targets/*.json | targets/a.jsonx => false
targets/*.json | targets/a/b.json => false
targets/*.json | other/targets/a.json => false
targets/*.json | targets => false
a | a => true
a | A => false
 |  => true
 | a => false
a/ | a/ => true
a/ | a => false
/ |  => false"#;

// SHA-256 of `a`, by a script: ca978112ca1bbdcafac231b39a23dc4da786eff8147c4e72b9807785afee48bb.
const DELEGATIONS: &str = r#","paths":["b","a"] | a => true
,"paths":["a","["] | a => true
,"paths":["b","["] | a => Malformed(Pattern)
,"paths":[] | a => false
,"terminating":true | a => false
,"path_hash_prefixes":["ca97"] | a => true
,"path_hash_prefixes":["cb","ca"] | a => true
,"path_hash_prefixes":["CA97"] | a => false
,"path_hash_prefixes":["978112"] | a => false
,"path_hash_prefixes":["ca978112ca1bbdcafac231b39a23dc4da786eff8147c4e72b9807785afee48bb"] | a => true
,"path_hash_prefixes":["ca978112ca1bbdcafac231b39a23dc4da786eff8147c4e72b9807785afee48bb0"] | a => false
,"path_hash_prefixes":[""] | a => true
,"path_hash_prefixes":[],"paths":["a"] | a => false
,"path_hash_prefixes":[],"paths":["*"] | a => false
,"path_hash_prefixes":["cb"],"paths":["a"] | a => false
,"path_hash_prefixes":["a"],"paths":["*"] | a => false
,"path_hash_prefixes":["ca"],"paths":["["] | a => true"#;

// The ids and the threshold of the keys that sign for a delegated role.
fn role_keys<X: AllocGlobal + Abort>(rt: &X, members: &str) -> String {
    let role = role(rt, members);
    let keys = good(rt, role.role_keys(rt.alloc()));
    drop(role);
    let ids = joined(rt, &keys.keyids);
    let answer = good(rt, format!(in rt.alloc(); "{ids}{}", keys.threshold));
    drop(ids);
    drop(keys);
    answer
}

// Each text, with a blank after it.
fn joined<X: AllocGlobal + Abort>(rt: &X, texts: &Sequence<Text>) -> String {
    let mut joined = string(rt, "");
    for text in texts.as_slice() {
        good(rt, joined.push_str(text.as_str()));
        good(rt, joined.push(' '));
    }
    joined
}

const ROLE_KEYS: &str = r#","terminating":true => k l 2"#;

#[test]
fn patterns(rt: HostRuntime) {
    hold(&rt, "pattern", PATTERNS);
    hold(&rt, "delegation", DELEGATIONS);
    hold(&rt, "role keys", ROLE_KEYS);
}
