// A ring of keys by their ids.
ghost use Rattle.std.specs.Prelude.{◌≡◌, ◌≢◌, None, ℕ, List, [], length, ◌==◌, nat_eq, Some, option_copied, OnOk, OnErr, IfOk, IfErr};
ghost use Rattle.std.specs.List.{starts_with};
ghost use Rattle.sigstore_keys.specs.declared.error.Error.TheVariants.{NoMemory, Verification};
ghost use Rattle.sigstore_keys.specs.declared.error.VerificationFault.TheVariants.{NoKey};
ghost use Rattle.sigstore_keys.specs.Keyring.{held_at, with_held, is_used_at, is_used_by, key_in, key_at, key_by, is_meant, keys_meant, is_key_of, has_key_of, is_signer, least_signer_of, verified_with, GoodUnder};
ghost use Rattle.sigstore_keys.specs.Coming.{coming};

use crate::error::{Error, VerificationFault};
use crate::hashed::HashedMessage;
use crate::key::VerificationKey;
use crate::provider::CryptoProvider;
use crate::scheme::SigningScheme;
use jiff::Timestamp;
use sigstore_types_parts::{Hash, KeyHint, Sha256Hash, SignatureBytes, TimeRange};
use std::alloc::Global;
use std::collections::BTreeMap;
use std::collections::btree_map::Iter;
use std::marker::Model;

/// A key, and the window in which it is used.
#[derive(Debug, PartialEq, Eq, Drop)]
pub struct HeldKey {
    pub key: VerificationKey,
    pub validity: Option<TimeRange>,
}

/// Keys by their ids; contracts see the ids with their keys in ascending order of the ids' bytes.
#[derive(Drop)]
pub struct Keyring {
    keys: BTreeMap<Sha256Hash, HeldKey>,
}

impl Model for Keyring {
    ghost use Rattle.std.specs.Prelude.{ℕ, List};
    ghost use Rattle.sigstore_keys.specs.declared.keyring.HeldKey.{HeldKey};

    ghost Value = { List (List ℕ × HeldKey) };

    ghost view = { λ ring. ring.keys.entries };
}

// Whether a moment lies in a window.
fn is_used_at(time: Timestamp, window: Option<TimeRange>) -> bool
    ensures { result ≡ is_used_at time window }
{
    match window {
        Some(window) => window.contains(time),
        None => true,
    }
}

// Whether a window has started by a moment.
fn is_used_by(time: Timestamp, window: Option<TimeRange>) -> bool
    ensures { result ≡ is_used_by time window }
{
    match window {
        Some(window) => window.has_started_by(time),
        None => true,
    }
}

impl Keyring {
    /// A ring without keys; takes no memory.
    pub fn new(alloc: Global) -> Keyring
        ensures { result ≡ [] }
    {
        Keyring {
            keys: BTreeMap::new(alloc),
        }
    }

    /// The number of ids.
    pub fn len(&self) -> usize
        ensures { result ≡ length self.now }
    {
        self.keys.len()
    }

    /// Whether there is no key.
    pub fn is_empty(&self) -> bool
        ensures { result ≡ (length self.now == 0) }
    {
        self.keys.is_empty()
    }

    /// Holds a key under an id at any time, in place of the one there. Errors: `NoMemory`, and the ring is
    /// as before.
    pub fn add_key(&mut self, id: Sha256Hash, key: VerificationKey) -> Result<(), Error>
        ensures ok { OnOk result (self.new ≡ with_held id (record { key = key; validity = None }) self.old) }
        ensures here { OnOk result (held_at id self.new ≡ Some (record { key = key; validity = None })) }
        ensures others { OnOk result ((other : List ℕ) → other ≢ id → held_at other self.new ≡ held_at other self.old) }
        ensures err { IfErr result (λ e. (e ≡ NoMemory) × (self.new ≡ self.old)) }
    {
        match self.add_key_with_validity(id, key, None) {
            Ok(()) => Ok(()),
            Err(refusal) => Err(refusal),
        }
    }

    /// Holds a key under an id, and its window where one is given, in place of the one there. Errors:
    /// `NoMemory`, and the ring is as before.
    pub fn add_key_with_validity(
        &mut self,
        id: Sha256Hash,
        key: VerificationKey,
        validity: Option<TimeRange>,
    ) -> Result<(), Error>
        ensures ok { OnOk result (self.new ≡ with_held id (record { key = key; validity = validity }) self.old) }
        ensures here { OnOk result (held_at id self.new ≡ Some (record { key = key; validity = validity })) }
        ensures others { OnOk result ((other : List ℕ) → other ≢ id → held_at other self.new ≡ held_at other self.old) }
        ensures err { IfErr result (λ e. (e ≡ NoMemory) × (self.new ≡ self.old)) }
    {
        match self.keys.insert(id, HeldKey { key, validity }) {
            Ok(_) => Ok(()),
            Err(_) => Err(Error::NoMemory),
        }
    }

    fn held(&self, id: &Sha256Hash) -> Option<&HeldKey>
        ensures { option_copied result ≡ held_at id.now self.now }
    {
        self.keys.get(id)
    }

    /// The key under an id.
    pub fn key(&self, id: &Sha256Hash) -> Option<&VerificationKey>
        ensures { option_copied result ≡ key_in id.now self.now }
    {
        match self.held(id) {
            Some(held) => Some(&held.key),
            None => None,
        }
    }

    /// The key under an id, where its window has the moment.
    pub fn key_at(&self, id: &Sha256Hash, time: Timestamp) -> Option<&VerificationKey>
        ensures { option_copied result ≡ key_at id.now time self.now }
    {
        match self.held(id) {
            Some(held) if is_used_at(time, held.validity) => Some(&held.key),
            _ => None,
        }
    }

    /// The key under an id, where its window has started by the moment.
    pub fn key_started_by(&self, id: &Sha256Hash, time: Timestamp) -> Option<&VerificationKey>
        ensures { option_copied result ≡ key_by id.now time self.now }
    {
        match self.held(id) {
            Some(held) if is_used_by(time, held.validity) => Some(&held.key),
            _ => None,
        }
    }
}

// Whether a key is of the sort that signs under a scheme.
fn is_key_of(scheme: SigningScheme, held: &HeldKey) -> bool
    ensures { result ≡ is_key_of scheme held.now }
{
    held.key.scheme.key_algorithm() == scheme.key_algorithm()
}

fn verify_with<C: CryptoProvider>(
    key: Option<&VerificationKey>,
    provider: &C,
    message: &[u8],
    signature: &SignatureBytes,
) -> Result<(), Error>
    ensures { result ≡ verified_with (C.accepts provider.now) (option_copied key.entry) message.now signature.now }
{
    match key {
        Some(key) => match key.verify(provider, message, signature) {
            Ok(()) => Ok(()),
            Err(refusal) => Err(refusal),
        },
        None => Err(Error::Verification(VerificationFault::NoKey)),
    }
}

impl Keyring {
    /// Whether the signature of a message is good by the key under an id. Errors: `Verification(NoKey)` where
    /// there is none, and then those of `VerificationKey::verify`.
    pub fn verify_with_key_id<C: CryptoProvider>(
        &self,
        provider: &C,
        id: &Sha256Hash,
        message: &[u8],
        signature: &SignatureBytes,
    ) -> Result<(), Error>
        ensures { result ≡ verified_with (C.accepts provider.now) (key_in id.now self.now) message.now signature.now }
    {
        verify_with(self.key(id), provider, message, signature)
    }

    /// Whether the signature of a message is good by the key that is used under an id at a moment. Errors:
    /// `Verification(NoKey)` where there is none, and then those of `VerificationKey::verify`.
    pub fn verify_with_key_id_at<C: CryptoProvider>(
        &self,
        provider: &C,
        id: &Sha256Hash,
        time: Timestamp,
        message: &[u8],
        signature: &SignatureBytes,
    ) -> Result<(), Error>
        ensures { result ≡ verified_with (C.accepts provider.now) (key_at id.now time self.now) message.now signature.now }
    {
        verify_with(self.key_at(id, time), provider, message, signature)
    }

    /// The id of some key by which the signature of a message is good. Errors: `Verification(NoKey)` exactly
    /// where there is none.
    pub fn verify_any<C: CryptoProvider>(
        &self,
        provider: &C,
        message: &[u8],
        signature: &SignatureBytes,
    ) -> Result<Sha256Hash, Error>
        ensures ok { IfOk result (λ id. GoodUnder (C.accepts provider.now) self.now message.now signature.now id) }
        ensures err { IfErr result (λ e. (e ≡ Verification NoKey)
            × ((id : List ℕ) → GoodUnder (C.accepts provider.now) self.now message.now signature.now id → ⊥)) }
    {
        'keys: for (id, held) in self.keys.iter() {
            if held.key.verify(provider, message, signature).is_ok() {
                return Ok(Hash::new(*id.as_array()));
            }
        }
        Err(Error::Verification(VerificationFault::NoKey))
    }

    /// The least id, by its bytes, of those that begin with a hint, whose window has started by a moment and by whose
    /// key the signature of a message is good: of several keys that a hint of four bytes means, it is always the same
    /// one that counts. None where there is no such id.
    pub fn least_signer<C: CryptoProvider>(
        &self,
        provider: &C,
        hint: &KeyHint,
        time: Timestamp,
        message: &[u8],
        signature: &SignatureBytes,
    ) -> Option<Sha256Hash>
        ensures { result ≡ least_signer_of (C.accepts provider.now) hint.now time message.now signature.now self.now }
    {
        self.least_signer_hashed(
            provider,
            hint,
            time,
            &HashedMessage::new(message),
            signature,
        )
    }

    /// `least_signer` for a message whose digests are taken. The keys are in ascending order, so no signature is
    /// judged after the first that is good.
    pub fn least_signer_hashed<C: CryptoProvider>(
        &self,
        provider: &C,
        hint: &KeyHint,
        time: Timestamp,
        message: &HashedMessage<'_>,
        signature: &SignatureBytes,
    ) -> Option<Sha256Hash>
        ensures { result ≡ least_signer_of (C.accepts provider.now) hint.now time message.now signature.now self.now }
    {
        'keys: for (id, held) in self.keys.iter() {
            if is_signer(provider, hint, time, message, signature, id, held) {
                return Some(Hash::new(*id.as_array()));
            }
        }
        None
    }

    /// Whether some key, under any id and at any time, is of the sort that signs under a scheme, whichever scheme
    /// it is held with.
    pub fn has_key_of(&self, scheme: SigningScheme) -> bool
        ensures { result ≡ has_key_of scheme self.now }
    {
        self.keys.iter().any(|(_, held)| is_key_of(scheme, held))
    }

    /// The keys whose id begins with a hint and whose window has started by a moment, in ascending order of
    /// their ids.
    pub fn keys_by_hint(&self, hint: &KeyHint, time: Timestamp) -> KeysByHint<'_>
        ensures { coming result ≡ keys_meant hint.now time self.now }
    {
        KeysByHint {
            entries: self.keys.iter(),
            hint: Hash::new(*hint.as_array()),
            time,
        }
    }
}

/// The keys of a ring that a hint means, in ascending order of their ids; no memory is taken.
#[derive(Drop)]
pub struct KeysByHint<'a> {
    entries: Iter<'a, Sha256Hash, HeldKey>,
    hint: KeyHint,
    time: Timestamp,
}

// Whether an id begins with a hint, and a window has started by a moment.
fn is_meant(hint: &KeyHint, time: Timestamp, id: &Sha256Hash, held: &HeldKey) -> bool
    ensures { result ≡ is_meant hint.now time (id.now, held.now) }
{
    id.as_bytes().starts_with(hint.as_bytes()) && is_used_by(time, held.validity)
}

// Whether a hint means a key, and the signature of a message is good by it.
fn is_signer<C: CryptoProvider>(
    provider: &C,
    hint: &KeyHint,
    time: Timestamp,
    message: &HashedMessage<'_>,
    signature: &SignatureBytes,
    id: &Sha256Hash,
    held: &HeldKey,
) -> bool
    ensures { result ≡ is_signer (C.accepts provider.now) hint.now time message.now signature.now (id.now, held.now) }
{
    is_meant(hint, time, id, held) && held.key.verify_hashed(provider, message, signature).is_ok()
}

impl<'a> Iterator for KeysByHint<'a> {
    ghost use Rattle.std.specs.Iterator.{at_most, YieldsFirstBy};
    ghost use Rattle.std.specs.Prelude.{length};
    ghost use Rattle.sigstore_keys.specs.Coming.{coming};

    type Item = &'a VerificationKey;

    ghost next_gives = { YieldsFirstBy (λ key. key.now) coming };

    ghost remaining = { λ keys. at_most (length keys.entries) };

    fn next(&mut self) -> Option<&'a VerificationKey> {
        'entries: loop {
            match self.entries.next() {
                Some((id, held)) => {
                    if is_meant(&self.hint, self.time, id, held) {
                        return Some(&held.key);
                    }
                }
                None => return None,
            }
        }
    }
}
