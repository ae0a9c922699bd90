// Which paths a delegation is for, and whose keys sign for it.
ghost use Rattle.std.specs.Prelude.{◌≡◌, ◌≢◌, Ok, Err, IfOk, IfErr};
ghost use Rattle.sigstore_tuf_parts.specs.Delegation.{any_matches, has_prefix, matches_path_of};
ghost use Rattle.sigstore_tuf_parts.specs.Targets.{role_keys_in};

use crate::keys::RoleKeys;
use crate::targets::DelegatedRole;
use foundation::{Duplicate, NoMemory};
use sigstore_keys::sha256;
use sigstore_tuf_text::{Error, matches};
use sigstore_types_parts::{Text, TextMap};
use std::alloc::Global;

impl DelegatedRole {
    /// Whether this delegation is for a path. Where it has hash prefixes, the path's SHA-256 value in
    /// lower-case hexadecimal begins with one of them; else one of its patterns matches, the first that
    /// does; without either it is for no path. Errors: `Malformed(Pattern)` for a pattern outside its
    /// grammar that comes before one that matches.
    #[tactic(auto, unfolding(crate::specs::Delegation::matches_path_of))]
    pub fn matches_path(&self, alloc: Global, path: &str) -> Result<bool, Error>
        ensures ok { IfOk result (λ b. matches_path_of self.now path.now ≡ Ok b) }
        ensures err { IfErr result
            (λ e. e ≢ Error.NoMemory → matches_path_of self.now path.now ≡ Err e) }
    {
        if let Some(prefixes) = &self.path_hash_prefixes {
            return Ok(has_prefix(alloc, path, prefixes.as_slice())?);
        }
        match &self.paths {
            Some(patterns) => Ok(any_matches(alloc, path, patterns.as_slice())?),
            None => Ok(false),
        }
    }

    /// The keys that sign for this role: the delegation's ids and threshold, and no more members.
    pub fn role_keys(&self, alloc: Global) -> Result<RoleKeys, NoMemory>
        ensures { IfOk result (λ keys. keys ≡ role_keys_in self.now) }
    {
        Ok(RoleKeys {
            keyids: self.keyids.duplicate(alloc)?,
            threshold: self.threshold,
            extra: TextMap::new(alloc),
        })
    }
}

// Whether the hexadecimal SHA-256 value of the path begins with one of the prefixes.
fn has_prefix(alloc: Global, path: &str, prefixes: &[Text]) -> Result<bool, NoMemory>
    ensures { IfOk result (λ b. b ≡ has_prefix path.now prefixes.now) }
{
    let digest = sha256(path.as_bytes()).to_hex(alloc)?;
    let digits = digest.as_str().as_bytes();
    for prefix in prefixes {
        if digits.starts_with(prefix.as_str().as_bytes()) {
            return Ok(true);
        }
    }
    Ok(false)
}

// The patterns, in order until one matches.
fn any_matches(alloc: Global, path: &str, patterns: &[Text]) -> Result<bool, Error>
    ensures ok { IfOk result (λ b. any_matches path.now patterns.now ≡ Ok b) }
    ensures err { IfErr result (λ e. e ≢ Error.NoMemory → any_matches path.now patterns.now ≡ Err e) }
{
    for pattern in patterns {
        if matches(alloc, pattern.as_str(), path)? {
            return Ok(true);
        }
    }
    Ok(false)
}
