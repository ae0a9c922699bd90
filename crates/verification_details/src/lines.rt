// The lines, each with one fact.
ghost use Rattle.std.specs.Prelude.{◌≡◌, ◌++◌, Some, OnOk, string_bytes, option_copied};
ghost use Rattle.certificate_claims.specs.ClaimNames.{claim_in};
ghost use Rattle.command_files.specs.Printed.{pair_line};
ghost use Rattle.command_verify.specs.Report.{seconds_of};
ghost use Rattle.verification_details.specs.Lines.{name_line, subject_line, statement_lines, time_lines, parted_lines, source_lines, counted_line, count_lines, claim_line, claim_lines, every_name, certificate_lines, result_lines};

use crate::statement::{NamedSubject, ToldStatement};
use crate::subject::{artifact_among, digits_of};
use certificate_claims::{CertificateInfo, ClaimName, FulcioCiClaims};
use command_files::{push_number_line, push_printed, push_text_line};
use foundation::NoMemory;
use jiff::Timestamp;
use sigstore_judgement::VerificationResult;
use sigstore_types_parts::{ArtifactDigest, Text};
use std::alloc::Global;

// ---- the statement

fn push_name(text: &mut String, name: &Option<Text>) -> Result<(), NoMemory>
    ensures { OnOk result (string_bytes text.new ≡ string_bytes text.old ++ name_line name.now) }
{
    match name {
        Some(name) => push_text_line(text, "subject", name.as_str().as_bytes()),
        None => Ok(()),
    }
}

// Adds the name of the subject that is the artifact, where there is one.
fn push_subject(text: &mut String, named: Option<&NamedSubject>) -> Result<(), NoMemory>
    ensures { OnOk result (string_bytes text.new ≡ string_bytes text.old ++ subject_line (option_copied named.entry)) }
{
    match named {
        Some(named) => push_name(text, &named.name),
        None => Ok(()),
    }
}

/// Adds the type of a statement's predicate, and the name of the subject that is the artifact with these digests.
pub(crate) fn push_statement(
    alloc: Global,
    text: &mut String,
    digests: &[ArtifactDigest],
    statement: &Option<ToldStatement>,
) -> Result<(), NoMemory>
    ensures { OnOk result (string_bytes text.new ≡ string_bytes text.old ++ statement_lines digests.now statement.now) }
{
    match statement {
        Some(statement) => {
            push_text_line(
                text,
                "predicate",
                statement.predicate_type.as_str().as_bytes(),
            )?;
            let digits = digits_of(alloc, digests)?;
            let pushed = push_subject(text, artifact_among(&digits, statement.subjects.as_slice()));
            drop(digits);
            pushed
        }
        None => Ok(()),
    }
}

// ---- the times

#[tactic(auto, unfolding(command_files::specs::Printed::pair_line))]
fn push_time(text: &mut String, word: &str, time: Timestamp) -> Result<(), NoMemory>
    ensures { OnOk result (string_bytes text.new ≡ string_bytes text.old ++ pair_line word.now (seconds_of time)) }
{
    let seconds = time.as_second();
    text.push_str(word)?;
    text.push(' ')?;
    write!(text, "{seconds}")?;
    text.push('\n')?;
    Ok(())
}

fn push_times(text: &mut String, word: &str, times: &[Timestamp]) -> Result<(), NoMemory>
    ensures { OnOk result (string_bytes text.new ≡ string_bytes text.old ++ time_lines word.now times.now) }
{
    'times: for time in times {
        push_time(text, word, *time)?;
    }
    Ok(())
}

// Adds so many of the times behind one word, and the others behind another one.
#[tactic(auto, using(std::proofs::lemmas::List::take_min))]
fn push_parted(
    text: &mut String,
    first: &str,
    second: &str,
    count: usize,
    times: &[Timestamp],
) -> Result<(), NoMemory>
    ensures { OnOk result (string_bytes text.new
        ≡ string_bytes text.old ++ parted_lines first.now second.now count times.now) }
{
    let (front, behind) = times.split_at(count.min(times.len()));
    push_times(text, first, front)?;
    push_times(text, second, behind)
}

// Adds each time, as an authority's or a log's.
fn push_sources(
    text: &mut String,
    tokens: usize,
    certificate: &Option<CertificateInfo>,
    times: &[Timestamp],
) -> Result<(), NoMemory>
    ensures { OnOk result (string_bytes text.new ≡ string_bytes text.old ++ source_lines tokens certificate.now times.now) }
{
    match certificate {
        Some(_) => push_parted(text, "stamped", "promised", tokens, times),
        None => {
            let promised = times.len().saturating_sub(tokens);
            push_parted(text, "promised", "stamped", promised, times)
        }
    }
}

// ---- the logs

fn push_counted(text: &mut String, word: &str, verified: bool, count: u64) -> Result<(), NoMemory>
    ensures { OnOk result (string_bytes text.new ≡ string_bytes text.old ++ counted_line word.now verified count) }
{
    if verified {
        push_number_line(text, word, count)
    } else {
        Ok(())
    }
}

fn push_counts(text: &mut String, shown: &VerificationResult) -> Result<(), NoMemory>
    ensures { OnOk result (string_bytes text.new ≡ string_bytes text.old ++ count_lines shown.now) }
{
    push_counted(text, "logs", shown.tlog_verified, shown.log_count)?;
    push_counted(text, "scts", shown.sct_verified, shown.sct_count)
}

// ---- the claims

#[tactic(auto, unfolding(command_files::specs::Printed::pair_line))]
fn push_claim_line(text: &mut String, name: ClaimName, claim: &str) -> Result<(), NoMemory>
    ensures { OnOk result (string_bytes text.new ≡ string_bytes text.old ++ claim_line name (Some claim.now)) }
{
    text.push_str("claim")?;
    text.push(' ')?;
    text.push_str(name.as_str())?;
    text.push(' ')?;
    push_printed(text, claim.as_bytes())?;
    text.push('\n')?;
    Ok(())
}

// Adds the claim of a name, where it is there.
fn push_claim(text: &mut String, claims: &FulcioCiClaims, name: ClaimName) -> Result<(), NoMemory>
    ensures { OnOk result (string_bytes text.new ≡ string_bytes text.old ++ claim_line name (claim_in claims.now name)) }
{
    match claims.get(name) {
        Some(claim) => push_claim_line(text, name, claim),
        None => Ok(()),
    }
}

fn push_each(
    text: &mut String,
    claims: &FulcioCiClaims,
    names: &[ClaimName],
) -> Result<(), NoMemory>
    ensures { OnOk result (string_bytes text.new ≡ string_bytes text.old ++ claim_lines claims.now names.now) }
{
    'names: for name in names {
        push_claim(text, claims, *name)?;
    }
    Ok(())
}

// Adds the claims that are there, in the order of the extensions' numbers.
fn push_claims(text: &mut String, claims: &FulcioCiClaims) -> Result<(), NoMemory>
    ensures { OnOk result (string_bytes text.new ≡ string_bytes text.old ++ claim_lines claims.now every_name) }
{
    let names = [
        ClaimName::GithubWorkflowTrigger,
        ClaimName::GithubWorkflowSha,
        ClaimName::GithubWorkflowName,
        ClaimName::GithubWorkflowRepository,
        ClaimName::GithubWorkflowRef,
        ClaimName::BuildSignerUri,
        ClaimName::BuildSignerDigest,
        ClaimName::RunnerEnvironment,
        ClaimName::SourceRepositoryUri,
        ClaimName::SourceRepositoryDigest,
        ClaimName::SourceRepositoryRef,
        ClaimName::SourceRepositoryIdentifier,
        ClaimName::SourceRepositoryOwnerUri,
        ClaimName::SourceRepositoryOwnerIdentifier,
        ClaimName::BuildConfigUri,
        ClaimName::BuildConfigDigest,
        ClaimName::BuildTrigger,
        ClaimName::RunInvocationUri,
        ClaimName::SourceRepositoryVisibility,
    ];
    push_each(text, claims, &names)
}

fn push_certificate(
    text: &mut String,
    certificate: &Option<CertificateInfo>,
) -> Result<(), NoMemory>
    ensures { OnOk result (string_bytes text.new ≡ string_bytes text.old ++ certificate_lines certificate.now) }
{
    match certificate {
        Some(info) => push_claims(text, &info.ci_claims),
        None => Ok(()),
    }
}

// ---- those of a result

/// Adds who tells each verified time, how many logs vouch, and what the certificate claims.
pub(crate) fn push_result(
    text: &mut String,
    tokens: usize,
    shown: &VerificationResult,
) -> Result<(), NoMemory>
    ensures { OnOk result (string_bytes text.new ≡ string_bytes text.old ++ result_lines tokens shown.now) }
{
    push_sources(
        text,
        tokens,
        &shown.certificate,
        shown.verified_timestamps.as_slice(),
    )?;
    push_counts(text, shown)?;
    push_certificate(text, &shown.certificate)
}
