// Policies for certificates, and the names that they ask for.
use crate::tables::{answered, check, debug, display, good, halves, number, text, there};
use certificate_claims::SubjectAltName;
use foundation::Duplicate;
use sigstore_judgement::{IdentityMatcher, VerificationPolicy};
use sigstore_policy::fits_exactly;
use std::num::NonZeroU8;
use std::process::Abort;

// A policy that asks for a number of logs of certificates, or else of transparency logs.
fn counted<X: Abort>(
    rt: &X,
    policy: VerificationPolicy,
    call: &str,
    count: &str,
) -> VerificationPolicy {
    let count = there(rt, NonZeroU8::new(number(rt, count).min(255) as u8));
    if call == "require_scts" {
        policy.require_scts(count)
    } else {
        policy.require_logs(count)
    }
}

// A policy with a step taken.
fn stepped<X: AllocGlobal + Abort>(
    rt: &X,
    policy: VerificationPolicy,
    step: &str,
) -> VerificationPolicy {
    if let Some((call, count)) = step.split_once('=') {
        return counted(rt, policy, call, count);
    }
    match step {
        "identity" => policy.require_identity(IdentityMatcher::from(text(rt, "c"))),
        "email-like" => policy.require_identity(IdentityMatcher::EmailLike(text(rt, "*@c"))),
        "uri-like" => policy.require_identity(IdentityMatcher::UriLike(text(rt, "c/**"))),
        "issuer" => policy.require_issuer(text(rt, "d")),
        "skip_tlog_unsafe" => policy.skip_tlog_unsafe(),
        "skip_certificate_chain" => policy.skip_certificate_chain(),
        "skip_sct" => policy.skip_sct(),
        _ => panic!(rt; "no step {step}"),
    }
}

// The policy of these words: the first makes it, and the others are steps.
fn policy<X: AllocGlobal + Abort>(rt: &X, first: &str, steps: &str) -> VerificationPolicy {
    let mut policy = match first {
        "new" => {
            let identity = IdentityMatcher::Email(text(rt, "a"));
            VerificationPolicy::new(rt.alloc(), identity, text(rt, "b"))
        }
        _ => VerificationPolicy::any_identity(rt.alloc()),
    };
    for step in steps.split_whitespace() {
        policy = stepped(rt, policy, step);
    }
    policy
}

// What it asks for, whether the log is verified, what of the certificate is, how many logs of certificates and transparency
// logs are asked for, and whether a copy equals it.
fn asked<X: AllocGlobal + Abort>(rt: &X, first: &str, steps: &str) -> String {
    let policy = policy(rt, first, steps);
    let copy = good(rt, policy.duplicate(rt.alloc()));
    let is_copied = copy == policy;
    drop(copy);
    let (identity, issuer) = (policy.identity(), policy.issuer());
    let (log, certificate) = (policy.verifies_tlog(), policy.certificate());
    let (chain, sct) = (certificate.verifies_chain(), certificate.verifies_sct());
    let (scts, logs) = (policy.scts(), policy.logs());
    let shown = format!(in rt.alloc();
        "{identity:?} {issuer:?} {log} {chain} {sct} {scts} {logs} {is_copied}"
    );
    drop(policy);
    good(rt, shown)
}

// A row: how a policy is made, its steps, and the identity and the issuer that it asks for, whether log, chain and
// timestamps are verified, how many logs of certificates and transparency logs are asked for, and whether a copy equals it.
const POLICIES: &str = "new: | Some(Email(\"a\")) Some(\"b\") true true true 1 1 true
any: | None None true true true 1 1 true
any: identity | Some(Exact(\"c\")) None true true true 1 1 true
any: email-like | Some(EmailLike(\"*@c\")) None true true true 1 1 true
any: uri-like | Some(UriLike(\"c/**\")) None true true true 1 1 true
any: issuer | None Some(\"d\") true true true 1 1 true
new: issuer identity | Some(Exact(\"c\")) Some(\"d\") true true true 1 1 true
new: skip_tlog_unsafe | Some(Email(\"a\")) Some(\"b\") false true true 1 1 true
new: skip_sct | Some(Email(\"a\")) Some(\"b\") true true false 1 1 true
new: skip_certificate_chain | Some(Email(\"a\")) Some(\"b\") true false false 1 1 true
new: skip_certificate_chain skip_sct | Some(Email(\"a\")) Some(\"b\") true false false 1 1 true
new: skip_sct skip_certificate_chain | Some(Email(\"a\")) Some(\"b\") true false false 1 1 true
any: skip_tlog_unsafe skip_sct issuer | None Some(\"d\") false true false 1 1 true
any: require_scts=1 require_logs=1 | None None true true true 1 1 true
any: require_scts=2 | None None true true true 2 1 true
any: require_logs=255 | None None true true true 1 255 true
new: require_scts=3 require_logs=2 issuer identity | Some(Exact(\"c\")) Some(\"d\") true true true 3 2 true
new: require_logs=2 require_scts=3 | Some(Email(\"a\")) Some(\"b\") true true true 3 2 true
any: require_scts=3 require_scts=2 require_logs=5 require_logs=4 | None None true true true 2 4 true
any: require_scts=2 require_logs=3 skip_sct | None None true true false 2 3 true
any: require_scts=2 require_logs=3 skip_certificate_chain | None None true false false 2 3 true
any: require_scts=2 require_logs=3 skip_tlog_unsafe | None None false true true 2 3 true
any: skip_tlog_unsafe skip_sct require_scts=2 require_logs=3 | None None false true false 2 3 true";

#[test]
fn policies_ask_for_what_is_named(rt: HostRuntime) {
    for row in POLICIES.lines() {
        let (given, wanted) = answered(&rt, row);
        let (first, steps) = halves(&rt, given, ":");
        check(&rt, row, wanted, asked(&rt, first, steps));
    }
}

fn name<X: AllocGlobal + Abort>(rt: &X, sort: &str, told: &str) -> SubjectAltName {
    match sort {
        "email" => SubjectAltName::Email(text(rt, told)),
        _ => SubjectAltName::Uri(text(rt, told)),
    }
}

fn matcher<X: AllocGlobal + Abort>(rt: &X, sort: &str, told: &str) -> IdentityMatcher {
    match sort {
        "exact" => IdentityMatcher::from(text(rt, told)),
        "email-like" => IdentityMatcher::EmailLike(text(rt, told)),
        "uri-like" => IdentityMatcher::UriLike(text(rt, told)),
        _ => IdentityMatcher::from(name(rt, sort, told)),
    }
}

// Whether the first name, or pattern, asks for the second.
fn matches<X: AllocGlobal + Abort>(rt: &X, asked: &str, actual: &str) -> String {
    let (sort, told) = halves(rt, asked, " ");
    let matcher = matcher(rt, sort, told);
    let (sort, told) = halves(rt, actual, " ");
    let name = name(rt, sort, told);
    let is_it = good(rt, matcher.matches(rt.alloc(), &name));
    drop(name);
    drop(matcher);
    debug(rt, is_it)
}

// A row: what is asked for, the name in the certificate, and whether it is the one.
const NAMES: &str = "exact a@b, email a@b | true
exact a@b, uri a@b | true
email a@b, email a@b | true
email a@b, uri a@b | false
uri a@b, uri a@b | true
uri a@b, email a@b | false
exact a@b, email A@b | false
email a@b, email a@b. | false
uri a:b, uri a: | false
uri v*, uri v1 | false
uri v*, uri v* | true
exact v*, uri v1 | false
email ?@b, email a@b | false";

// The same of patterns; a line that begins with `#` is a comment.
const PATTERNS: &str = "# A workflow at its tags.
uri-like https://github.com/o/r/.github/workflows/release.yml@refs/tags/v*, uri https://github.com/o/r/.github/workflows/release.yml@refs/tags/v1 | true
uri-like https://github.com/o/r/.github/workflows/release.yml@refs/tags/v*, uri https://github.com/o/r/.github/workflows/release.yml@refs/tags/v1.2.3 | true
uri-like https://github.com/o/r/.github/workflows/release.yml@refs/tags/v*, uri https://github.com/o/r/.github/workflows/release.yml@refs/tags/v | true
uri-like https://github.com/o/r/.github/workflows/release.yml@refs/tags/v*, uri https://github.com/o/r/.github/workflows/release.yml@refs/tags/v1/x | false
uri-like https://github.com/o/r/.github/workflows/release.yml@refs/tags/v*, uri https://github.com/o/r/.github/workflows/release.yml@refs/tags/1 | false
uri-like https://github.com/o/r/.github/workflows/release.yml@refs/tags/v*, uri https://github.com/o/r/.github/workflows/release.yml@refs/heads/v1 | false
uri-like https://github.com/o/r/.github/workflows/release.yml@refs/tags/v*, uri https://github.com/o/r/.github/workflows/release.yml@refs/heads/main | false
uri-like https://github.com/o/r/.github/workflows/release.yml@refs/tags/v*, uri https://github.com/p/r/.github/workflows/release.yml@refs/tags/v1 | false
uri-like https://github.com/o/r/.github/workflows/release.yml@refs/tags/v*, uri https://GitHub.com/o/r/.github/workflows/release.yml@refs/tags/v1 | false
uri-like https://github.com/o/r/.github/workflows/release.yml@refs/tags/v*, email https://github.com/o/r/.github/workflows/release.yml@refs/tags/v1 | false
uri-like https://github.com/o/*/.github/workflows/release.yml@refs/tags/v*, uri https://github.com/o/r/.github/workflows/release.yml@refs/tags/v1 | true
uri-like https://github.com/o/*/.github/workflows/release.yml@refs/tags/v*, uri https://github.com/o/r/x/.github/workflows/release.yml@refs/tags/v1 | false
uri-like https://github.com/o/r/.github/workflows/release.yml@refs/tags/**, uri https://github.com/o/r/.github/workflows/release.yml@refs/tags/v1/x | true
uri-like https://github.com/o/**@refs/tags/v?, uri https://github.com/o/r/.github/workflows/release.yml@refs/tags/v1 | true
uri-like https://github.com/o/**@refs/tags/v?, uri https://github.com/o/r/.github/workflows/release.yml@refs/tags/v12 | false
# The whole identity: neither a front of it, nor a part, nor an end.
uri-like a/b, uri a/b | true
uri-like a/b, uri a/bc | false
uri-like a/b, uri xa/b | false
uri-like a/b, uri xa/bc | false
uri-like a/*, uri a/b/c | false
uri-like */c, uri a/b/c | false
uri-like *b*, uri a/b/c | false
uri-like **b**, uri a/b/c | true
uri-like *b, uri abab | true
uri-like *b, uri abba | false
uri-like b*, uri abba | false
# A run without the slash, any run, and an empty one.
uri-like *, uri abc | true
uri-like *, uri a/c | false
uri-like *, uri / | false
uri-like *, uri  | true
uri-like **, uri a/c | true
uri-like **, uri / | true
uri-like **, uri  | true
uri-like a*c, uri ac | true
uri-like a*c, uri a/c | false
uri-like a**c, uri ac | true
uri-like a**c, uri a/b//c | true
uri-like a*/*c, uri a/c | true
uri-like a*/*c, uri a/b/c | false
uri-like a/**/c, uri a/c | false
uri-like a/**/c, uri a//c | true
uri-like a/**/c, uri a/b/b/c | true
# One octet that isn't a slash.
uri-like ?, uri a | true
uri-like ?, uri / | false
uri-like ?, uri  | false
uri-like ?, uri ab | false
uri-like a?c, uri abc | true
uri-like a?c, uri a/c | false
uri-like a?c, uri ac | false
uri-like a?, uri a | false
uri-like ?, uri \u{e9} | false
uri-like ??, uri \u{e9} | true
uri-like *, uri \u{e9} | true
uri-like \u{e9}, uri \u{e9} | true
# Stars beside one another, and many.
uri-like ***, uri a/b | true
uri-like a***, uri a/b/c | true
uri-like ****, uri a/b | true
uri-like *?*, uri / | false
uri-like *?*, uri abc | true
uri-like **?*, uri a/b | true
uri-like **?*, uri a/ | false
uri-like *a*a*a*a*b, uri aaaab | true
uri-like *a*a*a*a*b, uri aaab | false
uri-like *a*a*a*a*b, uri aaaaaaaaaaaaaaaaaaaaaaaaaaaaaaaa | false
uri-like **a**a**a**a**b, uri a/a/a/a/b | true
uri-like *a*a*a*a*b, uri a/a/a/a/b | false
# Every other octet is itself.
uri-like a.c, uri abc | false
uri-like a.c, uri a.c | true
uri-like [ab], uri a | false
uri-like [ab], uri [ab] | true
uri-like a\\*, uri a\\b | true
uri-like a\\*, uri a* | false
uri-like a|b, uri a | false
uri-like ^a$, uri a | false
uri-like A*, uri ab | false
uri-like a b, uri a b | true
uri-like , uri  | true
uri-like , uri a | false
# Addresses.
email-like *@example.com, email ann@example.com | true
email-like *@example.com, email ann.other@example.com | true
email-like *@example.com, email ann@example.com.example.org | false
email-like *@example.com, email ann@other.example.com | false
email-like *@example.com, email ann@Example.com | false
email-like *@example.com, email a/b@example.com | false
email-like *@example.com, email @example.com | true
email-like *@example.com, uri ann@example.com | false
email-like ann@*, email ann@example.com | true";

fn compare<X: AllocGlobal + Abort>(rt: &X, rows: &str) {
    for row in rows.lines() {
        if !row.starts_with('#') {
            let (given, wanted) = answered(rt, row);
            let (asked, actual) = halves(rt, given, ", ");
            check(rt, row, wanted, matches(rt, asked, actual));
        }
    }
}

#[test]
fn patterns_are_of_the_whole_identity(rt: HostRuntime) {
    compare(&rt, PATTERNS);
    fits_exactly();
    for (sort, shown) in [
        ("email-like", "email like *@a"),
        ("uri-like", "URI like *@a"),
    ] {
        check(&rt, sort, shown, display(&rt, matcher(&rt, sort, "*@a")));
    }
}

#[test]
fn names_are_compared_octet_by_octet(rt: HostRuntime) {
    compare(&rt, NAMES);
    check(
        &rt,
        "exact",
        "a b",
        display(&rt, matcher(&rt, "exact", "a b")),
    );
    check(
        &rt,
        "email",
        "email a",
        display(&rt, matcher(&rt, "email", "a")),
    );
    check(&rt, "uri", "URI a", display(&rt, matcher(&rt, "uri", "a")));
}
