// The names of Fulcio's claims, as policies write them.
ghost use Rattle.std.specs.Prelude.{◌≡◌, option_copied};
ghost use Rattle.certificate_claims.specs.ClaimNames.{name_of, claim_named, claim_in};

use crate::claims::FulcioCiClaims;
use sigstore_types_parts::Text;

/// A claim of Fulcio's that a policy may ask for (Fulcio, "Sigstore OID information", 1.3.6.1.4.1.57264.1.2 to .22).
#[derive(Clone, Copy, Debug, PartialEq, Eq, Drop)]
pub enum ClaimName {
    /// By the older extension, what started the run (.2).
    GithubWorkflowTrigger,
    /// By the older extension, the commit (.3).
    GithubWorkflowSha,
    /// By the older extension, the workflow's name (.4).
    GithubWorkflowName,
    /// By the older extension, the repository (.5).
    GithubWorkflowRepository,
    /// By the older extension, the branch or tag (.6).
    GithubWorkflowRef,
    /// The workflow that built, which may be another repository's (.9).
    BuildSignerUri,
    /// The commit of that workflow (.10).
    BuildSignerDigest,
    /// Whether the platform's machines built, or the owner's own (.11).
    RunnerEnvironment,
    /// The repository whose source was built (.12).
    SourceRepositoryUri,
    /// The commit that was built (.13).
    SourceRepositoryDigest,
    /// The branch or tag that was built (.14).
    SourceRepositoryRef,
    /// The repository's number, which stays where it is renamed (.15).
    SourceRepositoryIdentifier,
    /// The repository's owner (.16).
    SourceRepositoryOwnerUri,
    /// The owner's number (.17).
    SourceRepositoryOwnerIdentifier,
    /// The top-level workflow of the run (.18).
    BuildConfigUri,
    /// The commit of that workflow (.19).
    BuildConfigDigest,
    /// What started the run (.20).
    BuildTrigger,
    /// The run itself (.21).
    RunInvocationUri,
    /// Whether the repository was public when it was signed (.22).
    SourceRepositoryVisibility,
}

impl ClaimName {
    /// The claim of that name.
    pub fn from_name(text: &str) -> Option<ClaimName>
        ensures { result ≡ claim_named text.now }
    {
        match text {
            "github-workflow-trigger" => Some(ClaimName::GithubWorkflowTrigger),
            "github-workflow-sha" => Some(ClaimName::GithubWorkflowSha),
            "github-workflow-name" => Some(ClaimName::GithubWorkflowName),
            "github-workflow-repository" => Some(ClaimName::GithubWorkflowRepository),
            "github-workflow-ref" => Some(ClaimName::GithubWorkflowRef),
            "build-signer-uri" => Some(ClaimName::BuildSignerUri),
            "build-signer-digest" => Some(ClaimName::BuildSignerDigest),
            "runner-environment" => Some(ClaimName::RunnerEnvironment),
            "source-repository-uri" => Some(ClaimName::SourceRepositoryUri),
            "source-repository-digest" => Some(ClaimName::SourceRepositoryDigest),
            "source-repository-ref" => Some(ClaimName::SourceRepositoryRef),
            "source-repository-identifier" => Some(ClaimName::SourceRepositoryIdentifier),
            "source-repository-owner-uri" => Some(ClaimName::SourceRepositoryOwnerUri),
            "source-repository-owner-identifier" => Some(
                ClaimName::SourceRepositoryOwnerIdentifier,
            ),
            "build-config-uri" => Some(ClaimName::BuildConfigUri),
            "build-config-digest" => Some(ClaimName::BuildConfigDigest),
            "build-trigger" => Some(ClaimName::BuildTrigger),
            "run-invocation-uri" => Some(ClaimName::RunInvocationUri),
            "source-repository-visibility" => Some(ClaimName::SourceRepositoryVisibility),
            _ => None,
        }
    }

    /// Its name.
    pub fn as_str(self) -> &'static str
        ensures { result.now ≡ name_of self }
    {
        match self {
            ClaimName::GithubWorkflowTrigger => "github-workflow-trigger",
            ClaimName::GithubWorkflowSha => "github-workflow-sha",
            ClaimName::GithubWorkflowName => "github-workflow-name",
            ClaimName::GithubWorkflowRepository => "github-workflow-repository",
            ClaimName::GithubWorkflowRef => "github-workflow-ref",
            ClaimName::BuildSignerUri => "build-signer-uri",
            ClaimName::BuildSignerDigest => "build-signer-digest",
            ClaimName::RunnerEnvironment => "runner-environment",
            ClaimName::SourceRepositoryUri => "source-repository-uri",
            ClaimName::SourceRepositoryDigest => "source-repository-digest",
            ClaimName::SourceRepositoryRef => "source-repository-ref",
            ClaimName::SourceRepositoryIdentifier => "source-repository-identifier",
            ClaimName::SourceRepositoryOwnerUri => "source-repository-owner-uri",
            ClaimName::SourceRepositoryOwnerIdentifier => "source-repository-owner-identifier",
            ClaimName::BuildConfigUri => "build-config-uri",
            ClaimName::BuildConfigDigest => "build-config-digest",
            ClaimName::BuildTrigger => "build-trigger",
            ClaimName::RunInvocationUri => "run-invocation-uri",
            ClaimName::SourceRepositoryVisibility => "source-repository-visibility",
        }
    }
}

fn text_in(claim: &Option<Text>) -> Option<&str>
    ensures { option_copied result ≡ claim.now }
{
    match claim {
        Some(text) => Some(text.as_str()),
        None => None,
    }
}

impl FulcioCiClaims {
    /// What is claimed under a name.
    pub fn get(&self, name: ClaimName) -> Option<&str>
        ensures { option_copied result ≡ claim_in self.now name }
    {
        let older = &self.deprecated_github;
        text_in(match name {
            ClaimName::GithubWorkflowTrigger => &older.workflow_trigger,
            ClaimName::GithubWorkflowSha => &older.workflow_sha,
            ClaimName::GithubWorkflowName => &older.workflow_name,
            ClaimName::GithubWorkflowRepository => &older.workflow_repository,
            ClaimName::GithubWorkflowRef => &older.workflow_ref,
            ClaimName::BuildSignerUri => &self.build_signer_uri,
            ClaimName::BuildSignerDigest => &self.build_signer_digest,
            ClaimName::RunnerEnvironment => &self.runner_environment,
            ClaimName::SourceRepositoryUri => &self.source_repository_uri,
            ClaimName::SourceRepositoryDigest => &self.source_repository_digest,
            ClaimName::SourceRepositoryRef => &self.source_repository_ref,
            ClaimName::SourceRepositoryIdentifier => &self.source_repository_identifier,
            ClaimName::SourceRepositoryOwnerUri => &self.source_repository_owner_uri,
            ClaimName::SourceRepositoryOwnerIdentifier => &self.source_repository_owner_identifier,
            ClaimName::BuildConfigUri => &self.build_config_uri,
            ClaimName::BuildConfigDigest => &self.build_config_digest,
            ClaimName::BuildTrigger => &self.build_trigger,
            ClaimName::RunInvocationUri => &self.run_invocation_uri,
            ClaimName::SourceRepositoryVisibility => &self.source_repository_visibility_at_signing,
        })
    }
}
