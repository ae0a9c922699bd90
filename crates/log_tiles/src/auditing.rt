// The audit of a log: whether a newer checkpoint's tree grew from an older one's.
ghost use Rattle.std.specs.Prelude.{◌≡◌, ◌≢◌, Ok, Err, IfOk, IfErr};
ghost use Rattle.sigstore_keys.specs.Key.{spki_key_of};
ghost use Rattle.sigstore_entries.specs.declared.checkpoint.Checkpoint.{Checkpoint};
ghost use Rattle.log_tiles.specs.Source.{Leaves};
ghost use Rattle.log_tiles.specs.Proving.{IsProof, Serves, Gives};
ghost use Rattle.log_tiles.specs.Auditing.{or_refusal, checkpoint_as, pair_of, signed_as, of_one_log, pair_signed};
ghost use Rattle.log_tiles.specs.Auditing.{signed_pair, Audits, AreOfTree};
ghost use Rattle.log_tiles.specs.Joining.{Joins, JoinsSigned};
ghost use Rattle.log_tiles.specs.declared.error.TileError.TheVariants as refusal;

use crate::error::{TileError, WhichTree};
use crate::judge::verify_consistency;
use crate::proving::consistency;
use crate::source::TileSource;
use foundation::Sequence;
use sigstore_entries::Checkpoint;
use sigstore_keys::{CryptoProvider, Error, VerificationKey};
use sigstore_log::CheckpointVerifyExt;
use sigstore_types_parts::{DerPublicKey, Sha256Hash, TypesError};
use std::alloc::Global;

/// What an audit found of two checkpoints: the size of the older one's tree, that of the newer one's, and the consistency
/// proof between them.
#[derive(PartialEq, Drop)]
pub struct Growth {
    pub first: u64,
    pub second: u64,
    pub proof: Sequence<Sha256Hash>,
}

// The checkpoint that a text is.
fn read_as(alloc: Global, which: WhichTree, text: &[u8]) -> Result<Checkpoint, TileError>
    ensures ok { IfOk result (λ checkpoint. checkpoint_as which text.now ≡ Ok checkpoint) }
    ensures err { IfErr result (λ e. e ≢ refusal.NoMemory → checkpoint_as which text.now ≡ Err e) }
{
    match Checkpoint::from_text(alloc, text) {
        Ok(checkpoint) => Ok(checkpoint),
        Err(TypesError::NoMemory) => Err(TileError::NoMemory),
        Err(_) => Err(TileError::Checkpoint { which }),
    }
}

// Both checkpoints.
#[tactic(auto, unfolding(crate::specs::Auditing::pair_of))]
fn read_pair(
    alloc: Global,
    first: &[u8],
    second: &[u8],
) -> Result<(Checkpoint, Checkpoint), TileError>
    ensures ok { IfOk result (λ pair. pair_of first.now second.now ≡ Ok (pair.0, pair.1)) }
    ensures err { IfErr result (λ e. e ≢ refusal.NoMemory → pair_of first.now second.now ≡ Err e) }
{
    let older = read_as(alloc, WhichTree::First, first)?;
    let newer = read_as(alloc, WhichTree::Second, second)?;
    Ok((older, newer))
}

// The key that the octets are.
fn read_key(alloc: Global, key: &DerPublicKey) -> Result<VerificationKey, TileError>
    ensures ok { IfOk result (λ read. or_refusal (spki_key_of key.now) refusal.Key ≡ Ok read) }
    ensures err { IfErr result (λ e. e ≢ refusal.NoMemory → or_refusal (spki_key_of key.now) refusal.Key ≡ Err e) }
{
    match VerificationKey::from_spki(alloc, key) {
        Ok(read) => Ok(read),
        Err(Error::NoMemory) => Err(TileError::NoMemory),
        Err(_) => Err(TileError::Key),
    }
}

// Whether a checkpoint is signed under the key.
fn check_signed<C: CryptoProvider>(
    alloc: Global,
    provider: &C,
    key: &DerPublicKey,
    which: WhichTree,
    checkpoint: &Checkpoint,
) -> Result<(), TileError>
    ensures ok { IfOk result (λ x. signed_as (C.accepts provider.now) key.now which checkpoint.now ≡ Ok x) }
    ensures err { IfErr result (λ e. e ≢ refusal.NoMemory → signed_as (C.accepts provider.now) key.now which checkpoint.now ≡ Err e) }
{
    match checkpoint.verify_signature(alloc, provider, key) {
        Ok(()) => Ok(()),
        Err(Error::NoMemory) => Err(TileError::NoMemory),
        Err(_) => Err(TileError::Signature { which }),
    }
}

// Whether both checkpoints are of one log.
fn check_origins(older: &Checkpoint, newer: &Checkpoint) -> Result<(), TileError>
    ensures { result ≡ of_one_log older.now newer.now }
{
    if older.origin() == newer.origin() {
        Ok(())
    } else {
        Err(TileError::Origin)
    }
}

// Whether both checkpoints are signed under the key, and of one log.
#[tactic(auto, unfolding(crate::specs::Auditing::pair_signed))]
fn check_pair<C: CryptoProvider>(
    alloc: Global,
    provider: &C,
    key: &DerPublicKey,
    older: &Checkpoint,
    newer: &Checkpoint,
) -> Result<(), TileError>
    ensures ok { IfOk result (λ x. pair_signed (C.accepts provider.now) key.now older.now newer.now ≡ Ok x) }
    ensures err { IfErr result (λ e. e ≢ refusal.NoMemory → pair_signed (C.accepts provider.now) key.now older.now newer.now ≡ Err e) }
{
    let _ = read_key(alloc, key)?;
    check_signed(alloc, provider, key, WhichTree::First, older)?;
    check_signed(alloc, provider, key, WhichTree::Second, newer)?;
    Ok(check_origins(older, newer)?)
}

// The sizes of two checkpoints with the proof between them, where it is accepted for their roots.
fn joined<T: TileSource>(
    alloc: Global,
    older: &Checkpoint,
    newer: &Checkpoint,
    tiles: &mut T,
) -> Result<Growth, TileError>
    ensures { Joins older.now newer.now (T.seen tiles.old) (T.seen tiles.new) result }
{
    let (first, second) = (older.tree_size(), newer.tree_size());
    let proof = consistency(alloc, tiles, first, second)?;
    match verify_consistency(
        first,
        older.root_hash(),
        second,
        newer.root_hash(),
        proof.as_slice(),
    ) {
        Ok(()) => Ok(Growth {
            first,
            second,
            proof: Sequence::from_vec(proof),
        }),
        Err(e) => Err(e),
    }
}

// The same of two checkpoints of one log that are signed.
fn signed_joined<C: CryptoProvider, T: TileSource>(
    alloc: Global,
    provider: &C,
    key: &DerPublicKey,
    older: &Checkpoint,
    newer: &Checkpoint,
    tiles: &mut T,
) -> Result<Growth, TileError>
    ensures { JoinsSigned (C.accepts provider.now) key.now older.now newer.now (T.seen tiles.old) (T.seen tiles.new) result }
{
    match check_pair(alloc, provider, key, older, newer) {
        Ok(()) => joined(alloc, older, newer, tiles),
        Err(e) => Err(e),
    }
}

// The same of two texts, where they are signed checkpoints of one log.
fn audited<C: CryptoProvider, T: TileSource>(
    alloc: Global,
    provider: &C,
    key: &DerPublicKey,
    first: &[u8],
    second: &[u8],
    tiles: &mut T,
) -> Result<Growth, TileError>
    ensures { Audits (C.accepts provider.now) key.now first.now second.now (T.seen tiles.old) (T.seen tiles.new) result }
{
    match read_pair(alloc, first, second) {
        Ok((older, newer)) => signed_joined(alloc, provider, key, &older, &newer, tiles),
        Err(e) => Err(e),
    }
}

/// The sizes of two checkpoints of a log, and the consistency proof between them from its tiles: the newer tree grew from the older one.
/// Errors, in order: `Checkpoint` where the first text is no checkpoint, then the second; `Key` where the key isn't read;
/// `Signature` where the first checkpoint isn't signed under it, then the second; `Origin` where they are of different logs;
/// `Sizes`, `TileAbsent`, `TileFailed` and `TileLength` of `consistency`; `PathLength` and `RootMismatch` of
/// `verify_consistency`; and `NoMemory`.
pub fn audit<C: CryptoProvider, T: TileSource>(
    alloc: Global,
    provider: &C,
    key: &DerPublicKey,
    first: &[u8],
    second: &[u8],
    tiles: &mut T,
) -> Result<Growth, TileError>
    ensures audits { Audits (C.accepts provider.now) key.now first.now second.now (T.seen tiles.old) (T.seen tiles.new) result }
    ensures served { (leaves : Leaves) (older newer : Checkpoint)
        → signed_pair (C.accepts provider.now) key.now first.now second.now ≡ Ok (older, newer)
        → AreOfTree older newer leaves → Serves leaves newer.tree_size (T.seen tiles.old) (T.seen tiles.new)
        → Gives (λ found. IsProof older.tree_size newer.tree_size leaves found.proof) result }
{
    audited(alloc, provider, key, first, second, tiles)
}
