// Whether a document meets a role.
ghost use Rattle.std.specs.Prelude.{◌≡◌, ◌≢◌, [], Ok, Err, IfOk, IfErr, map, count_by};
ghost use Rattle.sigstore_keys.specs.Crypto.{crypto_by};
ghost use Rattle.sigstore_tuf_parts.specs.Threshold.{ids_of, second_after, is_accepted, threshold_of, no_second, enough_of, meets_of};

use crate::accepted::is_accepted;
use crate::counted::{counted, second_id};
use crate::document::{Metadata, Signature};
use crate::keys::{Key, RoleKeys};
use crate::signed_text::SignedText;
use foundation::NoMemory;
use sigstore_keys::CryptoProvider;
use sigstore_tuf_text::{Error, Rule};
use sigstore_types_parts::{Armor, Text, TextMap};
use std::alloc::Global;

impl<T> Metadata<T> {
    /// Whether enough keys of a role signed this document. Errors, the first that holds:
    /// `Malformed(Threshold)` for a threshold of 0, `DuplicateSignature` for an id of the role that
    /// signed twice, `ThresholdNotMet`.
    #[tactic(auto, unfolding(crate::specs::Threshold::meets_of))]
    pub fn verify_threshold<C: CryptoProvider, M: Armor>(
        &self,
        alloc: Global,
        provider: &C,
        armor: &M,
        keys: &TextMap<Key>,
        role_keys: &RoleKeys,
        role: &str,
    ) -> Result<(), Error>
        ensures ok { IfOk result (λ v.
            meets_of (crypto_by C.CryptoProvider M.Armor provider.now armor.now)
            keys.now role_keys.now role.now self.now ≡ Ok v) }
        ensures err { IfErr result (λ e. e ≢ Error.NoMemory →
            meets_of (crypto_by C.CryptoProvider M.Armor provider.now armor.now)
            keys.now role_keys.now role.now self.now ≡ Err e) }
    {
        let signatures = self.signatures();
        let text = SignedText::new(self.signed_canonical());
        check_threshold(role_keys.threshold)?;
        let counting = counted(alloc, role_keys, signatures)?;
        let counting = counting.as_slice();
        check_once(alloc, role, counting)?;
        let found = count_accepted(alloc, provider, armor, keys, counting, &text)?;
        check_enough(alloc, role, found, role_keys.threshold)?;
        Ok(())
    }
}

fn check_threshold(threshold: u64) -> Result<(), Error>
    ensures { result ≡ threshold_of threshold }
{
    if threshold == 0 {
        Err(Error::Malformed(Rule::Threshold))
    } else {
        Ok(())
    }
}

fn check_once(alloc: Global, role: &str, signatures: &[&Signature]) -> Result<(), Error>
    ensures ok { IfOk result (λ v.
        no_second role.now (second_after [] (ids_of (map (λ s. s.now) signatures.now))) ≡ Ok v) }
    ensures err { IfErr result (λ e. e ≢ Error.NoMemory →
        no_second role.now (second_after [] (ids_of (map (λ s. s.now) signatures.now))) ≡ Err e) }
{
    match second_id(alloc, signatures)? {
        Some(id) => Err(Error::DuplicateSignature {
            role: Text::new(alloc, role)?,
            key_id: Text::new(alloc, id.as_str())?,
        }),
        None => Ok(()),
    }
}

fn count_accepted<C: CryptoProvider, M: Armor>(
    alloc: Global,
    provider: &C,
    armor: &M,
    keys: &TextMap<Key>,
    signatures: &[&Signature],
    text: &SignedText<'_>,
) -> Result<u64, NoMemory>
    ensures { IfOk result (λ n. n ≡ count_by
        (is_accepted (crypto_by C.CryptoProvider M.Armor provider.now armor.now) keys.now text.now)
        (map (λ s. s.now) signatures.now)) }
{
    let mut found = 0u64;
    for signature in signatures {
        if is_accepted(alloc, provider, armor, keys, text, signature)? {
            found += 1;
        }
    }
    Ok(found)
}

fn check_enough(alloc: Global, role: &str, found: u64, threshold: u64) -> Result<(), Error>
    ensures ok { IfOk result (λ v. enough_of role.now found threshold ≡ Ok v) }
    ensures err { IfErr result (λ e. e ≢ Error.NoMemory → enough_of role.now found threshold ≡ Err e) }
{
    if threshold <= found {
        return Ok(());
    }
    Err(Error::ThresholdNotMet {
        role: Text::new(alloc, role)?,
        found,
        threshold,
    })
}
