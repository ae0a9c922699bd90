// What certificates with Fulcio's extensions say; the values are those that were put in.
use crate::claim_data::{
    BARE, BOTH, CUT, DNS, ISSUER_1, ISSUER_8, NONE, OLDER, SAN, SAN_BEHIND, SAN_SECOND, SORT,
};
use crate::tables::{
    displayed, equals, good, halves, hex_of, hold, octets, place, printed, string,
};
use certificate_claims::{CertificateInfo, FulcioCiClaims, SubjectAltName, parse_certificate_info};
use sigstore_types_parts::{DerCertificate, Text};
use std::process::Abort;

const SAID: &str = "\
both identity => Uri https://forge.example/a/b/.build/release.yml@refs/heads/main
both issuer => https://tokens.forge.example
both not_before => 2026-11-27T22:59:11Z
both not_after => 2026-12-27T22:59:11Z
both public_key => 3059301306072a8648ce3d020106082a8648ce3d0301070342000409b81c548c43071d847682e5404b2074eebe26694a148c7e17cdd627cb31ff67be55ec1659e0f38278c916c349e5bb0724dee68ae9859715a1b56de9252b9ee7
both key_algorithm => EcdsaP256
both workflow_trigger => release
both workflow_sha => 76543210fedcba9876543210fedcba9876543210
both workflow_name => Zusammenbau ä
both workflow_repository => a/b
both workflow_ref => refs/tags/v1
both build_signer_uri => https://forge.example/a/b/.build/release.yml@refs/heads/main
both build_signer_digest => 0123456789abcdef0123456789abcdef01234567
both runner_environment => hosted
both source_repository_uri => https://forge.example/a/b
both source_repository_digest => 89abcdef0123456789abcdef0123456789abcdef
both source_repository_ref => refs/heads/main
both source_repository_identifier => 70001
both source_repository_owner_uri => https://forge.example/a
both source_repository_owner_identifier => 80002
both build_config_uri => https://forge.example/a/b/.build/top.yml@refs/heads/main
both build_config_digest => fedcba9876543210fedcba9876543210fedcba98
both build_trigger => push
both run_invocation_uri => https://forge.example/a/b/runs/3/attempts/1
both source_repository_visibility_at_signing => public
both deployment_environment => production
both token_subject => repo:a/b:ref:refs/heads/main
both is_empty => false false
older identity => Email a@forge.example
older issuer => https://old.example
older workflow_trigger => push
older workflow_sha => none
older workflow_name => none
older build_signer_uri => none
older build_signer_digest => none
older is_empty => false false
bare identity => none
bare issuer => https://old.example
bare is_empty => true true
none identity => none
none issuer => none
none is_empty => true true
dns identity => none
issuer_1 issuer => InvalidCertificate(Issuer)
issuer_8 issuer => InvalidCertificate(Issuer)
san issuer => InvalidCertificate(San)
san_second identity => InvalidCertificate(San)
san_behind identity => InvalidCertificate(San)
sort identity => InvalidKey(Algorithm)
cut identity => InvalidCertificate(Der)";

const NAMES: &str = "\
both older bare none dns issuer_1 issuer_8 san san_second san_behind sort";

// The certificate of a name in hexadecimal.
fn hexadecimal(name: &str) -> &'static str {
    match place(name, NAMES) {
        0 => BOTH,
        1 => OLDER,
        2 => BARE,
        3 => NONE,
        4 => DNS,
        5 => ISSUER_1,
        6 => ISSUER_8,
        7 => SAN,
        8 => SAN_SECOND,
        9 => SAN_BEHIND,
        10 => SORT,
        _ => CUT,
    }
}

fn or_none<X: AllocGlobal + Abort>(rt: &X, text: &Option<Text>) -> String {
    match text {
        Some(text) => string(rt, text.as_str()),
        None => string(rt, "none"),
    }
}

fn identity<X: AllocGlobal + Abort>(rt: &X, identity: &Option<SubjectAltName>) -> String {
    match identity {
        Some(SubjectAltName::Email(name)) => behind(rt, "Email ", name.as_str()),
        Some(SubjectAltName::Uri(name)) => behind(rt, "Uri ", name.as_str()),
        None => string(rt, "none"),
    }
}

fn behind<X: AllocGlobal + Abort>(rt: &X, sort: &str, name: &str) -> String {
    let mut shown = string(rt, sort);
    good(rt, shown.push_str(name));
    shown
}

const CLAIMS: &str = "\
build_signer_uri build_signer_digest runner_environment source_repository_uri \
source_repository_digest source_repository_ref source_repository_identifier \
source_repository_owner_uri source_repository_owner_identifier build_config_uri build_config_digest \
build_trigger run_invocation_uri source_repository_visibility_at_signing deployment_environment \
token_subject workflow_trigger workflow_sha workflow_name workflow_repository workflow_ref";

fn claim<'a>(claims: &'a FulcioCiClaims, name: &str) -> &'a Option<Text> {
    match place(name, CLAIMS) {
        0 => &claims.build_signer_uri,
        1 => &claims.build_signer_digest,
        2 => &claims.runner_environment,
        3 => &claims.source_repository_uri,
        4 => &claims.source_repository_digest,
        5 => &claims.source_repository_ref,
        6 => &claims.source_repository_identifier,
        7 => &claims.source_repository_owner_uri,
        8 => &claims.source_repository_owner_identifier,
        9 => &claims.build_config_uri,
        10 => &claims.build_config_digest,
        11 => &claims.build_trigger,
        12 => &claims.run_invocation_uri,
        13 => &claims.source_repository_visibility_at_signing,
        14 => &claims.deployment_environment,
        15 => &claims.token_subject,
        16 => &claims.deprecated_github.workflow_trigger,
        17 => &claims.deprecated_github.workflow_sha,
        18 => &claims.deprecated_github.workflow_name,
        19 => &claims.deprecated_github.workflow_repository,
        _ => &claims.deprecated_github.workflow_ref,
    }
}

const PARTS: &str = "identity issuer not_before not_after public_key key_algorithm is_empty";

fn part<X: AllocGlobal + Abort>(rt: &X, info: &CertificateInfo, name: &str) -> String {
    match place(name, PARTS) {
        0 => identity(rt, &info.identity),
        1 => or_none(rt, &info.issuer),
        2 => displayed(rt, info.not_before),
        3 => displayed(rt, info.not_after),
        4 => hex_of(rt, info.public_key.as_bytes()),
        5 => printed(rt, info.key_algorithm),
        6 => empties(rt, &info.ci_claims),
        _ => or_none(rt, claim(&info.ci_claims, name)),
    }
}

// Whether nothing is claimed, and nothing of the older claims.
fn empties<X: AllocGlobal + Abort>(rt: &X, claims: &FulcioCiClaims) -> String {
    let (all, older) = (claims.is_empty(), claims.deprecated_github.is_empty());
    good(rt, format!(in rt.alloc(); "{all} {older}"))
}

/// A part of what a certificate says, or the refusal.
pub fn said<X: AllocGlobal + Abort>(rt: &X, given: &str) -> String {
    let (name, wanted) = halves(rt, given, " ");
    let certificate = DerCertificate::new(octets(rt, hexadecimal(name)));
    let info = parse_certificate_info(rt.alloc(), &certificate);
    drop(certificate);
    match info {
        Ok(info) => part_of(rt, info, wanted),
        Err(refusal) => printed(rt, refusal),
    }
}

fn part_of<X: AllocGlobal + Abort>(rt: &X, info: CertificateInfo, wanted: &str) -> String {
    let part = part(rt, &info, wanted);
    drop(info);
    part
}

#[test]
fn certificates_say_what_was_put_in(rt: HostRuntime) {
    hold(&rt, "said", SAID);
    equals(&rt, FulcioCiClaims::none(), FulcioCiClaims::default());
}
