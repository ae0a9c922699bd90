// The parts of the fixture where its targets document lists nothing, and delegates the trust file: to d, which
// lists it, to e, which lists nothing, or to u, which isn't pinned.
use crate::tables::{good, string};
use std::process::Abort;

pub(crate) const SNAPSHOT: &str =
    r#"{"_type":"snapshot","expires":"2031-01-01T00:00:00Z","meta":{"d.json":{"version":3},"e.json":{"version":1},"targets.json":{"version":1}},"spec_version":"1.0.0","version":1}"#;

// The document of d.
pub(crate) const LISTING: &str =
    r#"{"_type":"targets","expires":"2031-01-01T00:00:00Z","spec_version":"1.0.0","targets":{"trusted_root.json":{"hashes":{"sha256":"44136fa355b3678a1146ad16f7e8649e94fb4fc21fe77e8310c060f61caaff8a"},"length":2}},"version":3}"#;

// The document of e.
pub(crate) const EMPTY: &str =
    r#"{"_type":"targets","expires":"2031-01-01T00:00:00Z","spec_version":"1.0.0","targets":{},"version":1}"#;

// A delegation, by the role's name, and a last `!` where it is terminating.
fn delegation<X: AllocGlobal + Abort>(rt: &X, word: &str) -> String {
    let (name, ends) = match word.strip_suffix('!') {
        Some(name) => (name, true),
        None => (word, false),
    };
    let text = format!(in rt.alloc();
        r#"{{"keyids":["k"],"name":"{name}","paths":["trusted_root.json"],"terminating":{ends},"threshold":1}}"#
    );
    good(rt, text)
}

fn roles<X: AllocGlobal + Abort>(rt: &X, words: &str) -> String {
    let mut roles = string(rt, "");
    for word in words.split_whitespace() {
        if !roles.is_empty() {
            good(rt, roles.push(','));
        }
        let role = delegation(rt, word);
        good(rt, roles.push_str(role.as_str()));
        drop(role);
    }
    roles
}

// The targets document that delegates to these roles, by a key.
pub(crate) fn delegating<X: AllocGlobal + Abort>(rt: &X, words: &str, key: &str) -> String {
    let roles = roles(rt, words);
    let text = format!(in rt.alloc();
        r#"{{"_type":"targets","delegations":{{"keys":{{"k":{{"keytype":"ecdsa","keyval":{{"public":"der:{key}"}},"scheme":"ecdsa-sha2-nistp256"}}}},"roles":[{roles}]}},"expires":"2031-01-01T00:00:00Z","spec_version":"1.0.0","targets":{{}},"version":1}}"#
    );
    drop(roles);
    good(rt, text)
}
