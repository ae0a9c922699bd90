// What Fulcio's extensions claim of a certificate's identity.
ghost use Rattle.std.specs.Prelude.{◌≡◌, ◌≢◌, ◌↔◌, true, None, IfOk, IfErr, Ok, Err, option_copied};
ghost use Rattle.der_grammar.specs.Grammar.{read_all};
ghost use Rattle.der_core.specs.Strings.{utf8_type};
ghost use Rattle.x509_views.specs.Walk.{coming};
ghost use Rattle.sigstore_keys.specs.declared.error.Error.TheVariants.{NoMemory as NoRoom};
ghost use Rattle.certificate_claims.specs.Claims.{fulcio_value, utf8_string_of, old_text_of, new_claim, old_claim, claim_of, old_claim_of, old_claims_of, claims_of, no_old_claims, no_claims, or_issuer, issuer_of};

use certificate_fields::extension_value;
use der_core::{DerError, Reader, tag};
use foundation::{Duplicate, NoMemory};
use sigstore_keys::{CertificateFault, Error};
use sigstore_types_parts::Text;
use std::alloc::Global;
use x509_views::Extensions;

/// What a certificate claims of the run that built an artifact (Fulcio's extensions 9 to 24, and the older ones).
#[derive(Debug, Default, PartialEq, Eq, Drop)]
pub struct FulcioCiClaims {
    pub build_signer_uri: Option<Text>,
    pub build_signer_digest: Option<Text>,
    pub runner_environment: Option<Text>,
    pub source_repository_uri: Option<Text>,
    pub source_repository_digest: Option<Text>,
    pub source_repository_ref: Option<Text>,
    pub source_repository_identifier: Option<Text>,
    pub source_repository_owner_uri: Option<Text>,
    pub source_repository_owner_identifier: Option<Text>,
    pub build_config_uri: Option<Text>,
    pub build_config_digest: Option<Text>,
    pub build_trigger: Option<Text>,
    pub run_invocation_uri: Option<Text>,
    pub source_repository_visibility_at_signing: Option<Text>,
    pub deployment_environment: Option<Text>,
    pub token_subject: Option<Text>,
    pub deprecated_github: DeprecatedGitHubClaims,
}

/// What a certificate claims of a GitHub workflow by Fulcio's older extensions, 2 to 6.
#[derive(Debug, Default, PartialEq, Eq, Drop)]
pub struct DeprecatedGitHubClaims {
    pub workflow_trigger: Option<Text>,
    pub workflow_sha: Option<Text>,
    pub workflow_name: Option<Text>,
    pub workflow_repository: Option<Text>,
    pub workflow_ref: Option<Text>,
}

// Copies of four claims.
fn copies(
    alloc: Global,
    first: &Option<Text>,
    second: &Option<Text>,
    third: &Option<Text>,
    fourth: &Option<Text>,
) -> Result<(Option<Text>, Option<Text>, Option<Text>, Option<Text>), NoMemory>
    ensures { IfOk result (λ claims. claims ≡ (first.now, second.now, third.now, fourth.now)) }
{
    Ok((
        first.duplicate(alloc)?,
        second.duplicate(alloc)?,
        third.duplicate(alloc)?,
        fourth.duplicate(alloc)?,
    ))
}

impl Duplicate for FulcioCiClaims {
    fn duplicate(&self, alloc: Global) -> Result<FulcioCiClaims, NoMemory> {
        let signer = copies(
            alloc,
            &self.build_signer_uri,
            &self.build_signer_digest,
            &self.runner_environment,
            &self.source_repository_uri,
        )?;
        let source = copies(
            alloc,
            &self.source_repository_digest,
            &self.source_repository_ref,
            &self.source_repository_identifier,
            &self.source_repository_owner_uri,
        )?;
        let build = copies(
            alloc,
            &self.source_repository_owner_identifier,
            &self.build_config_uri,
            &self.build_config_digest,
            &self.build_trigger,
        )?;
        let run = copies(
            alloc,
            &self.run_invocation_uri,
            &self.source_repository_visibility_at_signing,
            &self.deployment_environment,
            &self.token_subject,
        )?;
        let deprecated_github = self.deprecated_github.duplicate(alloc)?;
        Ok(FulcioCiClaims {
            build_signer_uri: signer.0,
            build_signer_digest: signer.1,
            runner_environment: signer.2,
            source_repository_uri: signer.3,
            source_repository_digest: source.0,
            source_repository_ref: source.1,
            source_repository_identifier: source.2,
            source_repository_owner_uri: source.3,
            source_repository_owner_identifier: build.0,
            build_config_uri: build.1,
            build_config_digest: build.2,
            build_trigger: build.3,
            run_invocation_uri: run.0,
            source_repository_visibility_at_signing: run.1,
            deployment_environment: run.2,
            token_subject: run.3,
            deprecated_github,
        })
    }
}

impl Duplicate for DeprecatedGitHubClaims {
    fn duplicate(&self, alloc: Global) -> Result<DeprecatedGitHubClaims, NoMemory> {
        Ok(DeprecatedGitHubClaims {
            workflow_trigger: self.workflow_trigger.duplicate(alloc)?,
            workflow_sha: self.workflow_sha.duplicate(alloc)?,
            workflow_name: self.workflow_name.duplicate(alloc)?,
            workflow_repository: self.workflow_repository.duplicate(alloc)?,
            workflow_ref: self.workflow_ref.duplicate(alloc)?,
        })
    }
}

fn are_none(
    first: &Option<Text>,
    second: &Option<Text>,
    third: &Option<Text>,
    fourth: &Option<Text>,
) -> bool
    ensures { result ≡ true ↔ ((first.now ≡ None) × (second.now ≡ None) × (third.now ≡ None) × (fourth.now ≡ None)) }
{
    first.is_none() && second.is_none() && third.is_none() && fourth.is_none()
}

impl FulcioCiClaims {
    /// No claim.
    pub fn none() -> FulcioCiClaims
        ensures { result ≡ no_claims }
    {
        FulcioCiClaims::default()
    }

    /// Whether there is no claim, the older ones included.
    pub fn is_empty(&self) -> bool
        ensures { result ≡ true ↔ self.now ≡ no_claims }
    {
        are_none(
            &self.build_signer_uri,
            &self.build_signer_digest,
            &self.runner_environment,
            &self.source_repository_uri,
        ) && are_none(
            &self.source_repository_digest,
            &self.source_repository_ref,
            &self.source_repository_identifier,
            &self.source_repository_owner_uri,
        ) && are_none(
            &self.source_repository_owner_identifier,
            &self.build_config_uri,
            &self.build_config_digest,
            &self.build_trigger,
        ) && are_none(
            &self.run_invocation_uri,
            &self.source_repository_visibility_at_signing,
            &self.deployment_environment,
            &self.token_subject,
        ) && self.deprecated_github.is_empty()
    }
}

impl DeprecatedGitHubClaims {
    /// No claim.
    pub fn none() -> DeprecatedGitHubClaims
        ensures { result ≡ no_old_claims }
    {
        DeprecatedGitHubClaims::default()
    }

    /// Whether there is no claim.
    pub fn is_empty(&self) -> bool
        ensures { result ≡ true ↔ self.now ≡ no_old_claims }
    {
        *self == DeprecatedGitHubClaims::none()
    }
}

// The value of Fulcio's extension of that number, 1.3.6.1.4.1.57264.1.number.
fn fulcio_value<'a>(extensions: Extensions<'a>, number: u8) -> Option<&'a [u8]>
    ensures { option_copied result ≡ fulcio_value number (coming extensions.entry) }
{
    let oid = [0x2b, 0x06, 0x01, 0x04, 0x01, 0x83, 0xbf, 0x30, 0x01, number];
    extension_value(extensions, &oid)
}

fn text_in(contents: &[u8]) -> Result<&str, DerError>
    ensures ok { IfOk result (λ text. utf8_type.grammar.value 12 contents.now ≡ Ok text.now) }
    ensures err { IfErr result (λ e. utf8_type.grammar.value 12 contents.now ≡ Err e) }
{
    match str::from_utf8(contents) {
        Ok(text) => Ok(text),
        Err(_) => Err(DerError::Value),
    }
}

// The text of a UTF8String (X.690, 8.23.10); no memory is taken.
#[tactic(auto, unfolding(der_grammar::specs::Grammar::read, der_grammar::specs::Grammar::read_all))]
fn read_utf8_string(value: &[u8]) -> Result<&str, DerError>
    ensures ok { IfOk result (λ text. read_all utf8_type.grammar value.now ≡ Ok text.now) }
    ensures err { IfErr result (λ e. read_all utf8_type.grammar value.now ≡ Err e) }
{
    let mut reader = Reader::new(value);
    let tlv = reader.read_tlv()?;
    if tlv.tag.0 != tag::UTF8 {
        return Err(DerError::Tag);
    }
    let text = text_in(tlv.value)?;
    reader.finish()?;
    Ok(text)
}

fn utf8_string(value: &[u8]) -> Option<&str>
    ensures { option_copied result ≡ utf8_string_of value.now }
{
    match read_utf8_string(value) {
        Ok(text) => Some(text),
        Err(_) => None,
    }
}

fn old_text(value: &[u8]) -> Option<&str>
    ensures { option_copied result ≡ old_text_of value.now }
{
    match utf8_string(value) {
        Some(text) => Some(text),
        None => match str::from_utf8(value) {
            Ok(text) => Some(text),
            Err(_) => None,
        },
    }
}

fn new_claim(value: Option<&[u8]>) -> Option<&str>
    ensures { option_copied result ≡ new_claim (option_copied value.entry) }
{
    match value {
        Some(value) => utf8_string(value),
        None => None,
    }
}

fn old_claim(value: Option<&[u8]>) -> Option<&str>
    ensures { option_copied result ≡ old_claim (option_copied value.entry) }
{
    match value {
        Some(value) => old_text(value),
        None => None,
    }
}

fn copied(alloc: Global, text: Option<&str>) -> Result<Option<Text>, Error>
    ensures ok { IfOk result (λ copy. copy ≡ option_copied text.entry) }
    ensures err { IfErr result (λ e. e ≡ NoRoom) }
{
    match text {
        Some(text) => Ok(Some(Text::new(alloc, text)?)),
        None => Ok(None),
    }
}

#[tactic(auto, unfolding(crate::specs::Claims::claim_of))]
fn claim(alloc: Global, extensions: Extensions, number: u8) -> Result<Option<Text>, Error>
    ensures ok { IfOk result (λ text. text ≡ claim_of (coming extensions.entry) number) }
    ensures err { IfErr result (λ e. e ≡ NoRoom) }
{
    copied(alloc, new_claim(fulcio_value(extensions, number)))
}

#[tactic(auto, unfolding(crate::specs::Claims::old_claim_of))]
fn old_claim_at(alloc: Global, extensions: Extensions, number: u8) -> Result<Option<Text>, Error>
    ensures ok { IfOk result (λ text. text ≡ old_claim_of (coming extensions.entry) number) }
    ensures err { IfErr result (λ e. e ≡ NoRoom) }
{
    copied(alloc, old_claim(fulcio_value(extensions, number)))
}

#[tactic(auto, unfolding(crate::specs::Claims::old_claims_of))]
fn old_claims(alloc: Global, extensions: Extensions) -> Result<DeprecatedGitHubClaims, Error>
    ensures ok { IfOk result (λ claims. claims ≡ old_claims_of (coming extensions.entry)) }
    ensures err { IfErr result (λ e. e ≡ NoRoom) }
{
    Ok(DeprecatedGitHubClaims {
        workflow_trigger: old_claim_at(alloc, extensions, 2)?,
        workflow_sha: old_claim_at(alloc, extensions, 3)?,
        workflow_name: old_claim_at(alloc, extensions, 4)?,
        workflow_repository: old_claim_at(alloc, extensions, 5)?,
        workflow_ref: old_claim_at(alloc, extensions, 6)?,
    })
}

// The claims of four numbers.
fn four(
    alloc: Global,
    extensions: Extensions,
    numbers: (u8, u8, u8, u8),
) -> Result<(Option<Text>, Option<Text>, Option<Text>, Option<Text>), Error>
    ensures ok { IfOk result (λ claims. claims ≡ (
      claim_of (coming extensions.entry) numbers.0,
      claim_of (coming extensions.entry) numbers.1,
      claim_of (coming extensions.entry) numbers.2,
      claim_of (coming extensions.entry) numbers.3,
    )) }
    ensures err { IfErr result (λ e. e ≡ NoRoom) }
{
    Ok((
        claim(alloc, extensions, numbers.0)?,
        claim(alloc, extensions, numbers.1)?,
        claim(alloc, extensions, numbers.2)?,
        claim(alloc, extensions, numbers.3)?,
    ))
}

/// The claims of a certificate's extensions. Errors: `NoMemory` alone, since what is unreadable is none.
#[tactic(auto, unfolding(crate::specs::Claims::claims_of))]
pub fn read_claims(alloc: Global, extensions: Extensions) -> Result<FulcioCiClaims, Error>
    ensures ok { IfOk result (λ claims. claims ≡ claims_of (coming extensions.entry)) }
    ensures err { IfErr result (λ e. e ≡ NoRoom) }
{
    let signer = four(alloc, extensions, (9, 10, 11, 12))?;
    let source = four(alloc, extensions, (13, 14, 15, 16))?;
    let build = four(alloc, extensions, (17, 18, 19, 20))?;
    let run = four(alloc, extensions, (21, 22, 23, 24))?;
    let deprecated_github = old_claims(alloc, extensions)?;
    Ok(FulcioCiClaims {
        build_signer_uri: signer.0,
        build_signer_digest: signer.1,
        runner_environment: signer.2,
        source_repository_uri: signer.3,
        source_repository_digest: source.0,
        source_repository_ref: source.1,
        source_repository_identifier: source.2,
        source_repository_owner_uri: source.3,
        source_repository_owner_identifier: build.0,
        build_config_uri: build.1,
        build_config_digest: build.2,
        build_trigger: build.3,
        run_invocation_uri: run.0,
        source_repository_visibility_at_signing: run.1,
        deployment_environment: run.2,
        token_subject: run.3,
        deprecated_github,
    })
}

fn or_issuer(alloc: Global, text: Option<&str>) -> Result<Option<Text>, Error>
    ensures ok { IfOk result (λ issuer. or_issuer (option_copied text.entry) ≡ Ok issuer) }
    ensures err { IfErr result (λ e. e ≢ Error.NoMemory → or_issuer (option_copied text.entry) ≡ Err e) }
{
    match text {
        Some(text) => Ok(Some(Text::new(alloc, text)?)),
        None => Err(Error::InvalidCertificate(CertificateFault::Issuer)),
    }
}

/// Who issued the identity, by Fulcio's extension 8 or else 1. Errors: `InvalidCertificate(Issuer)` where the one
/// that counts is unreadable.
#[tactic(auto, unfolding(crate::specs::Claims::issuer_of))]
pub fn read_issuer(alloc: Global, extensions: Extensions) -> Result<Option<Text>, Error>
    ensures ok { IfOk result (λ issuer. issuer_of (coming extensions.entry) ≡ Ok issuer) }
    ensures err { IfErr result (λ e. e ≢ Error.NoMemory → issuer_of (coming extensions.entry) ≡ Err e) }
{
    match fulcio_value(extensions, 8) {
        Some(value) => or_issuer(alloc, utf8_string(value)),
        None => match fulcio_value(extensions, 1) {
            Some(value) => or_issuer(alloc, old_text(value)),
            None => Ok(None),
        },
    }
}
