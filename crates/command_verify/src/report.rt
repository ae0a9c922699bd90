// The report of an accepted bundle.
ghost use Rattle.std.specs.Prelude.{◌≡◌, ◌≢◌, ◌++◌, [], length, codes, Ok, Err, IfOk, IfErr, OnOk, string_bytes, option_copied};
ghost use Rattle.command_files.specs.Printed.{line_of, pair_line, number_line};
ghost use Rattle.command_verify.specs.Report.{version_of, root_version, timestamp_version, snapshot_version, targets_version, versions_of, versions_text, role_added, roles_added, digests_added, seconds_of, times_added, issuer_text, integrated_text, identity_text, names_text, answers_text, times_text, chain_text, result_added, report_of, rule_report_of};

use certificate_claims::SubjectAltName;
use command_files::{
    push_answer_line, push_hex_line, push_line, push_named_line, push_number_line, push_pair_line,
    push_text_line,
};
use foundation::NoMemory;
use jiff::Timestamp;
use sigstore_tuf::{RoleDoc, TrustChain};
use sigstore_tuf_parts::{Error, Metadata, Role, Root, Snapshot, Targets};
use sigstore_types_parts::ArtifactDigest;
use sigstore_verify::{RuleAcceptance, VerificationResult};
use std::alloc::Global;

/// The versions of the documents in force.
#[derive(Clone, Copy, Debug, PartialEq, Eq, Drop)]
pub struct Versions {
    pub root: u64,
    pub timestamp: u64,
    pub snapshot: u64,
}

// The version of the document that bytes read as.
#[tactic(auto, unfolding(crate::specs::Report::version_of))]
fn version_read<T: Role>(alloc: Global, bytes: &[u8]) -> Result<u64, Error>
    ensures ok { IfOk result (λ v. version_of T.kind T.reads T.version_in bytes.now ≡ Ok v) }
    ensures err { IfErr result (λ e. e ≢ Error.NoMemory → version_of T.kind T.reads T.version_in bytes.now ≡ Err e) }
{
    match Metadata::<T>::from_slice(alloc, bytes) {
        Ok(document) => Ok(document.signed().version()),
        Err(e) => Err(e),
    }
}

#[tactic(auto, unfolding(crate::specs::Report::root_version))]
fn root_version(alloc: Global, bytes: &[u8]) -> Result<u64, Error>
    ensures ok { IfOk result (λ v. root_version bytes.now ≡ Ok v) }
    ensures err { IfErr result (λ e. e ≢ Error.NoMemory → root_version bytes.now ≡ Err e) }
{
    match version_read::<Root>(alloc, bytes) {
        Ok(version) => Ok(version),
        Err(e) => Err(e),
    }
}

#[tactic(auto, unfolding(crate::specs::Report::timestamp_version))]
fn timestamp_version(alloc: Global, bytes: &[u8]) -> Result<u64, Error>
    ensures ok { IfOk result (λ v. timestamp_version bytes.now ≡ Ok v) }
    ensures err { IfErr result (λ e. e ≢ Error.NoMemory → timestamp_version bytes.now ≡ Err e) }
{
    match version_read::<sigstore_tuf_parts::Timestamp>(alloc, bytes) {
        Ok(version) => Ok(version),
        Err(e) => Err(e),
    }
}

#[tactic(auto, unfolding(crate::specs::Report::snapshot_version))]
fn snapshot_version(alloc: Global, bytes: &[u8]) -> Result<u64, Error>
    ensures ok { IfOk result (λ v. snapshot_version bytes.now ≡ Ok v) }
    ensures err { IfErr result (λ e. e ≢ Error.NoMemory → snapshot_version bytes.now ≡ Err e) }
{
    match version_read::<Snapshot>(alloc, bytes) {
        Ok(version) => Ok(version),
        Err(e) => Err(e),
    }
}

#[tactic(auto, unfolding(crate::specs::Report::targets_version))]
fn targets_version(alloc: Global, bytes: &[u8]) -> Result<u64, Error>
    ensures ok { IfOk result (λ v. targets_version bytes.now ≡ Ok v) }
    ensures err { IfErr result (λ e. e ≢ Error.NoMemory → targets_version bytes.now ≡ Err e) }
{
    match version_read::<Targets>(alloc, bytes) {
        Ok(version) => Ok(version),
        Err(e) => Err(e),
    }
}

#[tactic(auto, unfolding(crate::specs::Report::versions_of))]
fn versions_in_force(alloc: Global, chain: &TrustChain) -> Result<Versions, Error>
    ensures ok { IfOk result (λ v. versions_of chain.now ≡ Ok v) }
    ensures err { IfErr result (λ e. e ≢ Error.NoMemory → versions_of chain.now ≡ Err e) }
{
    let Some(root) = chain.roots.as_slice().last() else {
        return Err(Error::NotRefreshed);
    };
    Ok(Versions {
        root: root_version(alloc, root.as_bytes())?,
        timestamp: timestamp_version(alloc, chain.timestamp.as_bytes())?,
        snapshot: snapshot_version(alloc, chain.snapshot.as_bytes())?,
    })
}

fn push_versions(text: &mut String, versions: &Versions) -> Result<(), NoMemory>
    ensures { OnOk result (string_bytes text.new ≡ string_bytes text.old ++ versions_text versions.now) }
{
    push_number_line(text, "root", versions.root)?;
    push_number_line(text, "timestamp", versions.timestamp)?;
    push_number_line(text, "snapshot", versions.snapshot)
}

// Adds the line of a visit whose document is there.
fn push_role(alloc: Global, text: &mut String, role: &RoleDoc) -> Result<(), Error>
    ensures ok { OnOk result (role_added (string_bytes text.old) role.now.name role.now.bytes ≡ Ok (string_bytes text.new)) }
    ensures err { IfErr result (λ e. e ≢ Error.NoMemory → role_added (string_bytes text.old) role.now.name role.now.bytes ≡ Err e) }
{
    match &role.bytes {
        None => Ok(()),
        Some(bytes) => {
            let version = targets_version(alloc, bytes.as_bytes())?;
            push_named_line(text, "role", role.name.as_str().as_bytes(), version)?;
            Ok(())
        }
    }
}

fn push_roles(alloc: Global, text: &mut String, roles: &[RoleDoc]) -> Result<(), Error>
    ensures ok { OnOk result (roles_added (string_bytes text.old) roles.now ≡ Ok (string_bytes text.new)) }
    ensures err { IfErr result (λ e. e ≢ Error.NoMemory → roles_added (string_bytes text.old) roles.now ≡ Err e) }
{
    'roles: for role in roles {
        match push_role(alloc, text, role) {
            Ok(()) => (),
            Err(e) => return Err(e),
        }
    }
    Ok(())
}

/// Adds a line for each digest of the artifact.
pub fn push_digests(
    alloc: Global,
    text: &mut String,
    digests: &[ArtifactDigest],
) -> Result<(), NoMemory>
    ensures { OnOk result (string_bytes text.new ≡ digests_added (string_bytes text.old) digests.now) }
{
    'digests: for digest in digests {
        let name = digest.algorithm().as_rekor_str();
        push_hex_line(alloc, text, "artifact", name, digest.as_bytes())?;
    }
    Ok(())
}

#[tactic(auto, unfolding(command_files::specs::Printed::pair_line))]
fn push_seconds_line(text: &mut String, word: &str, time: Timestamp) -> Result<(), NoMemory>
    ensures { OnOk result (string_bytes text.new ≡ string_bytes text.old ++ pair_line word.now (seconds_of time)) }
{
    let seconds = time.as_second();
    text.push_str(word)?;
    text.push(' ')?;
    write!(text, "{seconds}")?;
    text.push('\n')?;
    Ok(())
}

fn push_times(text: &mut String, times: &[Timestamp]) -> Result<(), NoMemory>
    ensures { OnOk result (string_bytes text.new ≡ times_added (string_bytes text.old) times.now) }
{
    'times: for time in times {
        push_seconds_line(text, "time", *time)?;
    }
    Ok(())
}

fn push_issuer(text: &mut String, issuer: Option<&str>) -> Result<(), NoMemory>
    ensures { OnOk result (string_bytes text.new ≡ string_bytes text.old ++ issuer_text (option_copied issuer.entry)) }
{
    match issuer {
        None => push_pair_line(text, "issuer", "none"),
        Some(issuer) => push_text_line(text, "issuer", issuer.as_bytes()),
    }
}

fn push_identity(text: &mut String, identity: Option<&SubjectAltName>) -> Result<(), NoMemory>
    ensures { OnOk result (string_bytes text.new ≡ string_bytes text.old ++ identity_text (option_copied identity.entry)) }
{
    match identity {
        None => push_pair_line(text, "identity", "none"),
        Some(SubjectAltName::Email(name)) => {
            push_text_line(text, "identity email", name.as_str().as_bytes())
        }
        Some(SubjectAltName::Uri(name)) => {
            push_text_line(text, "identity uri", name.as_str().as_bytes())
        }
    }
}

fn push_integrated(text: &mut String, time: Option<Timestamp>) -> Result<(), NoMemory>
    ensures { OnOk result (string_bytes text.new ≡ string_bytes text.old ++ integrated_text time) }
{
    match time {
        None => push_pair_line(text, "integrated", "none"),
        Some(time) => push_seconds_line(text, "integrated", time),
    }
}

fn push_names(text: &mut String, shown: &VerificationResult) -> Result<(), NoMemory>
    ensures { OnOk result (string_bytes text.new ≡ string_bytes text.old ++ names_text shown.now) }
{
    push_identity(text, shown.identity())?;
    push_issuer(text, shown.issuer())
}

fn push_answers(text: &mut String, shown: &VerificationResult) -> Result<(), NoMemory>
    ensures { OnOk result (string_bytes text.new ≡ string_bytes text.old ++ answers_text shown.now) }
{
    push_answer_line(text, "certificate", shown.certificate_verified)?;
    push_answer_line(text, "sct", shown.sct_verified)?;
    push_answer_line(text, "tlog", shown.tlog_verified)?;
    push_answer_line(text, "policy", shown.identity_policy_checked)
}

fn push_all_times(text: &mut String, shown: &VerificationResult) -> Result<(), NoMemory>
    ensures { OnOk result (string_bytes text.new ≡ times_text (string_bytes text.old) shown.now) }
{
    push_integrated(text, shown.integrated_time)?;
    push_number_line(text, "times", shown.verified_timestamps.len() as u64)?;
    push_times(text, shown.verified_timestamps.as_slice())
}

/// Adds the lines of a result: whom the certificate names, what was verified, and the times.
pub fn push_result(text: &mut String, shown: &VerificationResult) -> Result<(), NoMemory>
    ensures { OnOk result (string_bytes text.new ≡ result_added (string_bytes text.old) shown.now) }
{
    push_names(text, shown)?;
    push_answers(text, shown)?;
    push_all_times(text, shown)
}

/// A first line, and the lines on a chain: the versions in force, a line for each visit whose document is there, and
/// the target's length. Errors: a document of the chain that isn't read; `NoMemory`.
#[tactic(auto, unfolding(crate::specs::Report::chain_text))]
pub fn report_chain(alloc: Global, first: &str, chain: &TrustChain) -> Result<String, Error>
    ensures ok { IfOk result (λ text. chain_text first.now chain.now ≡ Ok (string_bytes text)) }
    ensures err { IfErr result (λ e. e ≢ Error.NoMemory → chain_text first.now chain.now ≡ Err e) }
{
    let versions = versions_in_force(alloc, chain)?;
    let mut text = String::new(alloc);
    push_line(&mut text, first)?;
    push_versions(&mut text, &versions)?;
    push_roles(alloc, &mut text, chain.roles.as_slice())?;
    push_number_line(&mut text, "target", chain.target.length)?;
    Ok(text)
}

/// The report of a chain, the artifact's digests and a result. Errors: a document of the chain that
/// isn't read; `NoMemory`.
#[tactic(auto, unfolding(crate::specs::Report::report_of))]
pub fn report(
    alloc: Global,
    chain: &TrustChain,
    digests: &[ArtifactDigest],
    shown: &VerificationResult,
) -> Result<String, Error>
    ensures ok { IfOk result (λ text. report_of chain.now digests.now shown.now ≡ Ok (string_bytes text)) }
    ensures err { IfErr result (λ e. e ≢ Error.NoMemory → report_of chain.now digests.now shown.now ≡ Err e) }
{
    let mut text = report_chain(alloc, "accepted", chain)?;
    push_digests(alloc, &mut text, digests)?;
    push_result(&mut text, shown)?;
    Ok(text)
}

/// The report of an acceptance under rules. Where there are several, its last line tells which accepts. Errors as
/// `report`.
#[tactic(auto, unfolding(crate::specs::Report::rule_report_of))]
pub fn report_by_rule(
    alloc: Global,
    several: bool,
    accepted: &RuleAcceptance,
) -> Result<String, Error>
    ensures ok { IfOk result (λ text. rule_report_of several accepted.now ≡ Ok (string_bytes text)) }
    ensures err { IfErr result (λ e. e ≢ Error.NoMemory → rule_report_of several accepted.now ≡ Err e) }
{
    let rooted = &accepted.acceptance;
    let mut text = report(
        alloc,
        &rooted.chain,
        rooted.digests.as_slice(),
        &rooted.result,
    )?;
    if several {
        push_number_line(&mut text, "rule", accepted.rule as u64)?;
    }
    Ok(text)
}
