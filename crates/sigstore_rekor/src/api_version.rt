// Versions of Rekor's API.
ghost use Rattle.std.specs.Prelude.{◌≡◌};
ghost use Rattle.sigstore_rekor.specs.ApiVersion.{major_of, version_of_major};
ghost use Rattle.sigstore_rekor.specs.declared.api_version.RekorApiVersion.TheVariants.{V1};

/// A version of Rekor's API, with its kinds of entries.
#[derive(Clone, Copy, Debug, PartialEq, Eq, Hash, Drop)]
pub enum RekorApiVersion {
    /// Entries of hashedrekord and dsse, version 0.0.1.
    V1,
    /// Entries of hashedrekord, version 0.0.2 (C2SP tlog-tiles).
    V2,
}

impl RekorApiVersion {
    /// The version's number.
    pub fn major(self) -> u32
        ensures { result ≡ major_of self }
    {
        match self {
            RekorApiVersion::V1 => 1,
            RekorApiVersion::V2 => 2,
        }
    }

    /// The version of a number, if it is known.
    pub fn from_major(major: u32) -> Option<RekorApiVersion>
        ensures { result ≡ version_of_major major }
    {
        match major {
            1 => Some(RekorApiVersion::V1),
            2 => Some(RekorApiVersion::V2),
            _ => None,
        }
    }
}

impl Default for RekorApiVersion {
    ghost is_default = { λ version. version ≡ V1 };

    fn default() -> RekorApiVersion {
        RekorApiVersion::V1
    }
}
