// The limits of an updater.
ghost use Rattle.std.specs.Prelude.{◌≡◌};
ghost use Rattle.sigstore_tuf_rules.specs.Config.{default_config};

/// The limits of an updater: the greatest lengths in bytes of a root, a timestamp, a snapshot, a targets
/// document and a target, the greatest number of next roots in one refresh, and the greatest number of
/// visits in one search for a target.
#[derive(Clone, Copy, Debug, PartialEq, Eq, Drop)]
pub struct UpdaterConfig {
    pub root_max_length: u64,
    pub timestamp_max_length: u64,
    pub snapshot_max_length: u64,
    pub targets_max_length: u64,
    pub target_max_length: u64,
    pub max_root_rotations: u32,
    pub max_delegations: u32,
}

impl Default for UpdaterConfig {
    ghost is_default = { λ c. c ≡ default_config };

    fn default() -> UpdaterConfig {
        UpdaterConfig {
            root_max_length: 512_000,
            timestamp_max_length: 16_384,
            snapshot_max_length: 2_000_000,
            targets_max_length: 5_000_000,
            target_max_length: 50_000_000,
            max_root_rotations: 32,
            max_delegations: 32,
        }
    }
}
