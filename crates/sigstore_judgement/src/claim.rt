// What a bundle says of its artifact, and which of the artifact's digests that needs.
ghost use Rattle.std.specs.Prelude.{◌≡◌, ◌≢◌, Ok, Err, IfOk, IfErr, OnOk, option_copied};
ghost use Rattle.std.specs.List.{list_any};
ghost use Rattle.sigstore_types_parts.specs.HashAlgorithm.{same_algorithm, with_optional};
ghost use Rattle.sigstore_envelopes.specs.Statement.{statement_of_bytes, algorithms_of};
ghost use Rattle.sigstore_judgement.specs.Artifact.{digest_among};
ghost use Rattle.sigstore_judgement.specs.Claim.{claim_as, typed_of, or_invalid, subjects_of, digested_of, statement_judged_of, stated_of, claim_of, algorithm_told, needed_of, is_told, tells_digest, is_bound};

use crate::artifact::taken;
use crate::error::Error;
use foundation::{NoMemory, Sequence};
use sigstore_envelopes::{DsseEnvelope, Statement, Subject};
use sigstore_keys::SigningScheme;
use sigstore_types::{MessageDigest, SignatureContent};
use sigstore_types_parts::{ArtifactDigest, HashAlgorithm, PayloadBytes, Text, TypesError};
use std::alloc::Global;

/// What a bundle says of its artifact: of a message its digest, where it tells one; of an envelope its statement.
#[derive(Drop)]
pub(crate) enum Claim<'b> {
    Digest(Option<&'b MessageDigest>),
    Statement(Statement),
}

// The payload is a statement: what was signed for another reader isn't taken for one.
fn check_type(payload_type: &Text) -> Result<(), Error>
    ensures exact { result ≡ typed_of payload_type.now }
    ensures never { IfErr result (λ e. e ≢ Error.NoMemory) }
{
    if payload_type.as_str() == "application/vnd.in-toto+json" {
        Ok(())
    } else {
        Err(Error::UnsupportedBundle)
    }
}

fn read_statement(alloc: Global, payload: &PayloadBytes) -> Result<Statement, Error>
    ensures ok { IfOk result (λ statement. or_invalid (statement_of_bytes payload.now) ≡ Ok statement) }
    ensures err { IfErr result (λ e. e ≢ Error.NoMemory → or_invalid (statement_of_bytes payload.now) ≡ Err e) }
{
    match Statement::from_json(alloc, payload.as_bytes()) {
        Ok(statement) => Ok(statement),
        Err(TypesError::NoMemory) => Err(Error::NoMemory),
        Err(_) => Err(Error::InvalidBundle),
    }
}

fn check_subjects(subjects: &[Subject]) -> Result<(), Error>
    ensures { result ≡ subjects_of subjects.now }
{
    match subjects {
        [] => Err(Error::InvalidBundle),
        _ => Ok(()),
    }
}

fn check_digested(algorithms: &[HashAlgorithm]) -> Result<(), Error>
    ensures { result ≡ digested_of algorithms.now }
{
    match algorithms {
        [] => Err(Error::UnsupportedBundle),
        _ => Ok(()),
    }
}

// A statement is of something, and some digest ties that to an artifact.
fn check_statement(alloc: Global, statement: &Statement) -> Result<(), Error>
    ensures ok { IfOk result (λ x. statement_judged_of statement.now ≡ Ok x) }
    ensures err { IfErr result (λ e. e ≢ Error.NoMemory → statement_judged_of statement.now ≡ Err e) }
{
    check_subjects(statement.subjects.as_slice())?;
    let algorithms = statement.subject_algorithms(alloc)?;
    check_digested(algorithms.as_slice())
}

// The statement of an envelope.
#[tactic(auto, unfolding(crate::specs::Claim::stated_of))]
fn stated(alloc: Global, envelope: &DsseEnvelope) -> Result<Statement, Error>
    ensures ok { IfOk result (λ statement. stated_of envelope.now ≡ Ok statement) }
    ensures err { IfErr result (λ e. e ≢ Error.NoMemory → stated_of envelope.now ≡ Err e) }
    ensures memory { IfErr result (λ e. e ≡ Error.NoMemory → typed_of envelope.now.payload_type ≡ Ok tt) }
{
    check_type(&envelope.payload_type)?;
    let statement = read_statement(alloc, &envelope.payload)?;
    match check_statement(alloc, &statement) {
        Ok(()) => Ok(statement),
        Err(e) => {
            drop(statement);
            Err(e)
        }
    }
}

/// What a bundle says of its artifact. Errors, of an envelope, in order: `UnsupportedBundle` for a payload of another
/// type than in-toto's, `InvalidBundle` for one that is no statement or has no subject, `UnsupportedBundle` where no
/// subject tells a digest that can be had.
pub(crate) fn read_claim<'b>(
    alloc: Global,
    content: &'b SignatureContent,
) -> Result<Claim<'b>, Error>
    ensures ok { IfOk result (λ claim. claim_of content.now ≡ Ok (claim_as claim)) }
    ensures err { IfErr result (λ e. e ≢ Error.NoMemory → claim_of content.now ≡ Err e) }
{
    match content {
        SignatureContent::MessageSignature(message) => {
            Ok(Claim::Digest(message.message_digest.as_ref()))
        }
        SignatureContent::DsseEnvelope(envelope) => match stated(alloc, envelope) {
            Ok(statement) => Ok(Claim::Statement(statement)),
            Err(e) => Err(e),
        },
    }
}

// The algorithm of the digest that the bundle tells of its message.
fn algorithm_told(told: Option<&MessageDigest>) -> Option<HashAlgorithm>
    ensures { result ≡ algorithm_told (option_copied told.entry) }
{
    match told {
        None => None,
        Some(told) => Some(told.algorithm),
    }
}

fn is_among(list: &[HashAlgorithm], algorithm: HashAlgorithm) -> bool
    ensures { result ≡ list_any (same_algorithm algorithm) list.now }
{
    list.iter().any(|other| algorithm.is_same(*other))
}

// Puts an algorithm behind a list, unless it stands there already.
pub(crate) fn add(
    list: &mut Sequence<HashAlgorithm>,
    algorithm: Option<HashAlgorithm>,
) -> Result<(), NoMemory>
    ensures { OnOk result (list.new ≡ with_optional list.old algorithm) }
{
    match algorithm {
        Some(algorithm) => {
            if is_among(list.as_slice(), algorithm) {
                return Ok(());
            }
            list.push(algorithm)?;
            Ok(())
        }
        None => Ok(()),
    }
}

/// The digests that are needed of the artifact. Of a message SHA-256 always, since each form of entry names it;
/// that of the digest that the bundle tells; and the one that the scheme signs. Of a statement those that its
/// subjects tell.
pub(crate) fn needed(
    alloc: Global,
    scheme: SigningScheme,
    claim: &Claim<'_>,
) -> Result<Sequence<HashAlgorithm>, NoMemory>
    ensures { IfOk result (λ list. list ≡ needed_of scheme (claim_as claim.now)) }
{
    match claim {
        Claim::Digest(told) => {
            let mut list = Sequence::new(alloc);
            list.push(HashAlgorithm::Sha2256)?;
            add(&mut list, algorithm_told(*told))?;
            add(&mut list, scheme.hash_algorithm())?;
            Ok(list)
        }
        Claim::Statement(statement) => Ok(statement.subject_algorithms(alloc)?),
    }
}

// The digest that the bundle tells of its message is the artifact's by that algorithm.
fn is_told(told: Option<&MessageDigest>, digests: &[ArtifactDigest]) -> bool
    ensures { result ≡ is_told (option_copied told.entry) (digest_among digests.now) }
{
    match told {
        None => true,
        Some(told) => match taken(digests, told.algorithm) {
            Some(digest) => told.digest.as_bytes() == digest.as_bytes(),
            None => false,
        },
    }
}

// Some subject tells the artifact's digest by an algorithm.
fn tells_digest(statement: &Statement, algorithm: HashAlgorithm, digests: &[ArtifactDigest]) -> bool
    ensures { result ≡ tells_digest statement.now algorithm (digest_among digests.now algorithm) }
{
    match taken(digests, algorithm) {
        Some(digest) => statement.tells(algorithm, digest.as_bytes()),
        None => false,
    }
}

/// What the bundle says is of the artifact.
pub(crate) fn is_bound(claim: &Claim<'_>, digests: &[ArtifactDigest]) -> bool
    ensures { result ≡ is_bound (claim_as claim.now) (digest_among digests.now) }
{
    match claim {
        Claim::Digest(told) => is_told(*told, digests),
        Claim::Statement(statement) => {
            tells_digest(statement, HashAlgorithm::Sha2256, digests)
                || tells_digest(statement, HashAlgorithm::Sha2512, digests)
        }
    }
}
