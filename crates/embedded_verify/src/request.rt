// What a call is given.
ghost use Rattle.std.specs.Prelude.{◌≡◌, None, IfSome};
ghost use Rattle.jiff_core.specs.declared.timestamp.Timestamp.{Timestamp as Instant};
ghost use Rattle.embedded_verify.specs.Handed.{IsMoment};

use given_objects::{File, GivenInputs, GivenRepository, Name};
use jiff::Timestamp;

/// What a call is given: the inputs, the files of the repository and of the store, what is known of signatures, and
/// the verification time.
#[repr(C)]
#[derive(Clone, Copy)]
pub struct Request<'a> {
    /// The pinned root of TUF, a JSON text of at most 512,000 bytes.
    pub root: &'a [u8],
    /// The bundle, a JSON text of at most 16 MiB.
    pub bundle: &'a [u8],
    /// The artifact, of at most 1 TiB.
    pub artifact: &'a [u8],
    /// The policy file, of at most 64 KiB.
    pub policy: &'a [u8],
    /// Files of the repository's folder, targets below `targets/`.
    pub repository: &'a [File<'a>],
    /// Names of files that the repository doesn't have.
    pub absent: &'a [Name<'a>],
    /// Files of the store's folder.
    pub store: &'a [File<'a>],
    /// Rows of the signatures that are good, as a provider file.
    pub good: &'a [u8],
    /// Rows of those that aren't, as a provider file.
    pub bad: &'a [u8],
    /// The verification time, in seconds since the start of 1970.
    pub seconds: i64,
    /// The nanoseconds behind these.
    pub nanoseconds: u32,
    /// Whether the repository has no files but those.
    pub whole: bool,
}

impl<'a> Request<'a> {
    /// The inputs that are read: the root, the bundle, the policy, and the rows of the good signatures.
    pub fn inputs(&self) -> GivenInputs<'a>
        ensures root { result.root.now ≡ self.now.root.now }
        ensures bundle { result.bundle.now ≡ self.now.bundle.now }
        ensures policy { result.policy.now ≡ self.now.policy.now }
        ensures provider { result.provider.now ≡ self.now.good.now }
        ensures missing { result.missing ≡ None }
    {
        GivenInputs::new(self.root, self.bundle, self.policy, self.good)
    }

    /// The repository.
    pub fn repository(&self) -> GivenRepository<'a>
        ensures files { result.files.now ≡ self.now.repository.now }
        ensures faults { result.faults ≡ 0 }
    {
        GivenRepository::new(self.repository, self.absent, self.whole)
    }

    /// The verification time, where there is such an instant.
    pub fn moment(&self) -> Option<Timestamp>
        ensures some { IfSome result (IsMoment self.now) }
        ensures none { result ≡ None → (now : Instant) → IsMoment self.now now → ⊥ }
    {
        let nanosecond = self.seconds as i128 * 1_000_000_000 + self.nanoseconds as i128;
        Timestamp::from_nanosecond(nanosecond).ok()
    }
}
