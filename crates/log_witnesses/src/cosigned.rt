// How many witnesses cosigned a checkpoint.
ghost use Rattle.std.specs.Prelude.{◌≡◌, ◌≢◌, ◌≤◌, ◌++◌, ◌∷◌, [], codes, length, filter_map, Ok, Err, IfOk, IfErr, OnOk};
ghost use Rattle.std.specs.List.{cons_option};
ghost use Rattle.sigstore_keys.specs.Distinct.{each_once};
ghost use Rattle.sigstore_log.specs.Signed.{looked_at};
ghost use Rattle.log_witnesses.specs.Witness.{key_id_of};
ghost use Rattle.log_witnesses.specs.Cosigned.{cosigned_text, is_named, is_good_by, has_cosigned, cosigner, cosigned_by, enough_witnesses, cosigned_judged};
ghost use Rattle.log_witnesses.specs.IsCosigned.{IsCosigned};
ghost use Rattle.log_witnesses.specs.Cause.{WitnessCause};
ghost use Rattle.log_witnesses.specs.declared.error.WitnessError.TheVariants.{NoMemory as Want};

use crate::error::WitnessError;
use crate::witness::Witness;
use foundation::NoMemory;
use sigstore_entries::{Checkpoint, CheckpointSignature};
use sigstore_keys::{CryptoProvider, DistinctIds, SigningScheme, Threshold};
use sigstore_types_parts::{Bytes, KeyHint};
use std::alloc::Global;

// The lines that are looked at.
#[tactic(auto, using(crate::proofs::Looking::first_hundred))]
fn looked_at(lines: &[CheckpointSignature]) -> &[CheckpointSignature]
    ensures { result.now ≡ looked_at lines.now }
{
    let (first, _) = lines.split_at(100usize.min(lines.len()));
    first
}

// What a witness signs at a moment.
fn cosigned_text(alloc: Global, moment: u64, text: &[u8]) -> Result<Bytes, NoMemory>
    ensures { IfOk result (λ signed. signed ≡ cosigned_text moment text.now) }
{
    let mut head = String::new(alloc);
    head.push_str("cosignature/v1\ntime ")?;
    write!(head, "{moment}")?;
    head.push('\n')?;
    let mut octets = head.into_bytes();
    octets.extend_from_slice(text)?;
    Ok(Bytes::from_vec(octets))
}

// Whether a line is a witness's, as it says.
fn is_named(witness: &Witness, id: &KeyHint, line: &CheckpointSignature) -> bool
    requires { id.now ≡ key_id_of witness.now }
    ensures { result ≡ is_named witness.now line.now }
{
    line.name.as_str() == witness.name() && line.key_id == *id
}

// Whether octets are a moment and the witness's signature of the text at that moment.
fn is_good_by<C: CryptoProvider>(
    alloc: Global,
    provider: &C,
    witness: &Witness,
    text: &[u8],
    octets: &[u8],
) -> Result<bool, NoMemory>
    ensures { IfOk result (λ good. good ≡ is_good_by (C.accepts provider.now) witness.now text.now octets.now) }
{
    if octets.len() != 72 {
        return Ok(false);
    }
    let (front, signature) = octets.split_at(8);
    let mut moment = [0u8; 8];
    moment.copy_from_slice(front);
    let signed = cosigned_text(alloc, u64::from_be_bytes(moment), text)?;
    Ok(provider.verify_raw(
        SigningScheme::Ed25519,
        witness.key(),
        signed.as_bytes(),
        signature,
    ))
}

// Whether a witness cosigned a checkpoint.
fn has_cosigned<C: CryptoProvider>(
    alloc: Global,
    provider: &C,
    witness: &Witness,
    checkpoint: &Checkpoint,
) -> Result<bool, NoMemory>
    ensures { IfOk result (λ good. good ≡ has_cosigned (C.accepts provider.now) checkpoint.now witness.now) }
{
    let id = witness.key_id();
    let text = checkpoint.signed_data();
    'lines: for line in looked_at(checkpoint.signatures()) {
        if is_named(witness, &id, line)
            && is_good_by(alloc, provider, witness, text, line.signature.as_bytes())?
        {
            return Ok(true);
        }
    }
    Ok(false)
}

// The keys of those before, and that of a witness, where it cosigned.
fn add_cosigner<C: CryptoProvider>(
    alloc: Global,
    provider: &C,
    checkpoint: &Checkpoint,
    witness: &Witness,
    keys: &mut DistinctIds,
) -> Result<(), NoMemory>
    ensures { OnOk result (keys.new.ids ≡ each_once keys.old.ids (cons_option (cosigner (C.accepts provider.now) checkpoint.now witness.now) [])) }
{
    if has_cosigned(alloc, provider, witness, checkpoint)? {
        keys.add(alloc, witness.key())?;
    }
    Ok(())
}

/// How many of these witnesses cosigned a checkpoint: each key counts once, however many lines or names it has. Of a
/// checkpoint the first hundred lines are looked at, and the provider is asked of those that have the witness's name and key
/// ID, over the moment that the line tells and exactly this checkpoint's text (C2SP tlog-cosignature).
pub fn cosigned_by<C: CryptoProvider>(
    alloc: Global,
    provider: &C,
    witnesses: &[Witness],
    checkpoint: &Checkpoint,
) -> Result<u64, NoMemory>
    ensures { IfOk result (λ count. count ≡ cosigned_by (C.accepts provider.now) witnesses.now checkpoint.now) }
{
    let mut keys = DistinctIds::new(alloc);
    'witnesses: for witness in witnesses {
        add_cosigner(alloc, provider, checkpoint, witness, &mut keys)?;
    }
    Ok(keys.count())
}

// As many as are asked for.
fn enough_witnesses(asked: Threshold, found: u64) -> Result<u64, WitnessError>
    ensures { result ≡ enough_witnesses asked found }
{
    if asked.is_met_by(found) {
        Ok(found)
    } else {
        Err(WitnessError::TooFew {
            asked: asked.number(),
            found,
        })
    }
}

// The judgement of a checkpoint.
fn cosigned_judged<C: CryptoProvider>(
    alloc: Global,
    provider: &C,
    asked: Threshold,
    witnesses: &[Witness],
    checkpoint: &Checkpoint,
) -> Result<u64, WitnessError>
    ensures ok { IfOk result (λ count. cosigned_judged (C.accepts provider.now) asked witnesses.now checkpoint.now ≡ Ok count) }
    ensures err { IfErr result (λ e. e ≢ Want → cosigned_judged (C.accepts provider.now) asked witnesses.now checkpoint.now ≡ Err e) }
{
    if witnesses.len() > 64 {
        return Err(WitnessError::TooMany);
    }
    let found = cosigned_by(alloc, provider, witnesses, checkpoint)?;
    Ok(enough_witnesses(asked, found)?)
}

/// How many different witnesses cosigned a checkpoint, as many as are asked for or more: a log alone could sign two trees,
/// and these saw this one. Errors, in order: `TooMany` for more than 64 witnesses, `TooFew` where fewer cosigned; and
/// `NoMemory`.
pub fn check_cosigned<C: CryptoProvider>(
    alloc: Global,
    provider: &C,
    asked: Threshold,
    witnesses: &[Witness],
    checkpoint: &Checkpoint,
) -> Result<u64, WitnessError>
    ensures ok { IfOk result (λ count. cosigned_judged (C.accepts provider.now) asked witnesses.now checkpoint.now ≡ Ok count) }
    ensures err { IfErr result (λ e. e ≢ Want → cosigned_judged (C.accepts provider.now) asked witnesses.now checkpoint.now ≡ Err e) }
    ensures cosigned { OnOk result (IsCosigned (C.accepts provider.now) asked.value witnesses.now checkpoint.now) }
    ensures cause { IfErr result (WitnessCause (C.accepts provider.now) asked witnesses.now checkpoint.now) }
    ensures complete { length witnesses.now ≤ 64 → IsCosigned (C.accepts provider.now) asked.value witnesses.now checkpoint.now
        → IfErr result (λ e. e ≡ Want) }
{
    cosigned_judged(alloc, provider, asked, witnesses, checkpoint)
}
