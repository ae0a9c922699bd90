// What a verification finds beside what its run says: what a refusal holds; or what the certificate says of its owner,
// the whole result, how many logs vouched, and the lines behind the report.
use crate::fault::Fault;
use crate::objects::Objects;
use command_files::{Gather, Gathered};
use command_verify::{VerifyRequest, verify_request};
use foundation::Duplicate;
use jiff::Timestamp;
use sigstore_judgement::{JudgedBundle, JudgedByRule};
use sigstore_keys::Providers;
use sigstore_pem::PemArmor;
use sigstore_verify::{Error, RootFault, RuleAcceptance, RulesFault, VerificationResult};
use std::alloc::Global;
use verification_details::push_details;

// The window of the certificate and its key, in a line; none where a key signed.
fn push_certificate(
    alloc: Global,
    text: &mut String,
    accepted: &VerificationResult,
) -> Result<(), Fault> {
    if let Some(info) = accepted.certificate() {
        let key = info.public_key.to_base64(alloc)?;
        let (start, end, key) = (info.not_before, info.not_after, key.as_str());
        write!(text, "certificate {start} {end} {key}\n")?;
    }
    Ok(())
}

// The names, the four flags, the integrated time and the verified times.
fn push_names(text: &mut String, accepted: &VerificationResult) -> Result<(), Fault> {
    let (identity, issuer) = (accepted.identity(), accepted.issuer());
    let (chain, sct) = (accepted.certificate_verified(), accepted.sct_verified());
    let (log, names) = (accepted.tlog_verified(), accepted.identity_policy_checked());
    let (integrated, times) = (accepted.integrated_time(), accepted.verified_timestamps());
    write!(
        text,
        "result {identity:?} {issuer:?} {chain} {sct} {log} {names} {integrated:?} {times:?}\n"
    )?;
    Ok(())
}

/// Adds what an acceptance holds.
pub fn push_result(
    alloc: Global,
    text: &mut String,
    accepted: &VerificationResult,
) -> Result<(), Fault> {
    push_certificate(alloc, text, accepted)?;
    push_names(text, accepted)?;
    let (scts, logs) = (accepted.sct_count(), accepted.log_count());
    write!(text, "scts {scts}\nlogs {logs}\n")?;
    Ok(())
}

// Adds the lines behind the report of a bundle that a rule accepts.
fn push_behind(
    alloc: Global,
    text: &mut String,
    bundle: &[u8],
    ruled: &RuleAcceptance,
) -> Result<(), Fault> {
    let judged = JudgedByRule {
        rule: ruled.rule,
        judged: JudgedBundle {
            result: ruled.acceptance.result.duplicate(alloc)?,
            digests: ruled.acceptance.digests.duplicate(alloc)?,
        },
    };
    let pushed = push_details(alloc, text, bundle, &judged);
    drop(judged);
    pushed?;
    Ok(())
}

fn push_accepted(
    alloc: Global,
    text: &mut String,
    bundle: &[u8],
    ruled: &RuleAcceptance,
) -> Result<(), Fault> {
    push_result(alloc, text, &ruled.acceptance.result)?;
    push_behind(alloc, text, bundle, ruled)
}

/// Adds what a refusal of a bundle holds.
pub fn push_refusal(text: &mut String, refusal: &Error) -> Result<(), Fault> {
    let number = refusal.number();
    write!(text, "refusal {number} {refusal:?}\n")?;
    Ok(())
}

fn push_refused(text: &mut String, refusal: &sigstore_tuf::Error) -> Result<(), Fault> {
    let number = refusal.number();
    write!(text, "refusal {number} {refusal:?}\n")?;
    Ok(())
}

// Adds what each rule's refusal holds.
fn push_refusals(text: &mut String, faults: &[Error]) -> Result<(), Fault> {
    'faults: for fault in faults {
        push_refusal(text, fault)?;
    }
    Ok(())
}

fn push_judged(
    alloc: Global,
    text: &mut String,
    bundle: &[u8],
    judged: &Result<RuleAcceptance, RulesFault>,
) -> Result<(), Fault> {
    match judged {
        Ok(ruled) => push_accepted(alloc, text, bundle, ruled),
        Err(RulesFault::Root(RootFault::Verify { fault, .. })) => push_refusal(text, fault),
        Err(RulesFault::Root(RootFault::Tuf(refusal))) => push_refused(text, refusal),
        Err(RulesFault::Root(RootFault::NoMemory)) => Err(Fault::NoMemory),
        Err(RulesFault::Each { faults, .. }) => push_refusals(text, faults.as_slice()),
    }
}

/// Verifies from the root at a moment, with armoured texts as they are read and not as the provider file lists them, and
/// adds what is found; nothing where an input is outside its grammar.
pub fn push_found(
    alloc: Global,
    objects: &mut Objects,
    now: Timestamp,
    text: &mut String,
) -> Result<(), Fault> {
    let Ok(gathered) = Gathered::gather(alloc, &mut objects.inputs) else {
        return Ok(());
    };
    let request = VerifyRequest {
        rules: gathered.rules.as_slice(),
        root: gathered.root.as_bytes(),
        bundle: gathered.bundle.as_bytes(),
        moment: now,
    };
    let providers = Providers {
        provider: &gathered.tables.provider,
        armor: &PemArmor,
    };
    let judged = verify_request(
        alloc,
        &request,
        providers,
        &mut objects.repository,
        &mut objects.store,
        &mut objects.artifact,
    );
    let pushed = push_judged(alloc, text, request.bundle, &judged);
    drop(judged);
    pushed
}
