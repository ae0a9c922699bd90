// A run of `audit`.
ghost use Rattle.std.specs.Prelude.{◌≡◌, ◌++◌, ◌∷◌, codes, Ok, IfOk, OnOk, string_bytes};
ghost use Rattle.std.specs.Fmt.{decimal};
ghost use Rattle.command_files.specs.Printed.{pair_line};
ghost use Rattle.command_files.specs.Rows.{accepts_of};
ghost use Rattle.command_audit.specs.Run.{log_by, environment_by, judge_of, consistent_answer, refused_answer, unread_answer, Judges, AuditsSecond, Audits, Says, Means};
ghost use Rattle.command_audit.specs.Complete.{Completes};

use crate::layout::{AuditLayout, audit_layout};
use command_files::{
    Answer, Inputs, Sink, Started, Status, TableProvider, Tables, WholeFault, finish, pair,
    push_decimal, read_whole, refusal, start,
};
use foundation::NoMemory;
use log_tiles::{TileError, TileSource, audit};
use sigstore_keys::ArtifactSource;
use sigstore_types_parts::{DerPublicKey, Text};
use std::alloc::Global;

// The greatest length of a checkpoint in bytes: 64 KiB.
const MAX_CHECKPOINT: u64 = 65_536;

/// The two checkpoints of an audit: the older one, and the newer one.
#[derive(Drop)]
pub struct Checkpoints<A, B> {
    pub first: A,
    pub second: B,
}

// Why nothing was found: an input's line, or a refusal's.
fn refused(alloc: Global, e: &TileError) -> Result<Answer, NoMemory>
    ensures { IfOk result (λ said. said ≡ refused_answer e.now) }
{
    match e {
        TileError::TileFailed => pair(alloc, Status::Input, "input", "tiles"),
        _ => refusal(alloc, "audit", e.number(), e.name()),
    }
}

// That the trees of two checkpoints are consistent, by their sizes.
#[tactic(auto, unfolding(command_files::specs::Printed::pair_line))]
fn consistent(alloc: Global, first: u64, second: u64) -> Result<Answer, NoMemory>
    ensures { IfOk result (λ said. said ≡ consistent_answer first second) }
{
    let mut text = String::new(alloc);
    text.push_str("consistent ")?;
    push_decimal(&mut text, first)?;
    text.push(' ')?;
    push_decimal(&mut text, second)?;
    text.push('\n')?;
    Ok(Answer {
        status: Status::Accepted,
        text: Text::from_string(text),
    })
}

// The judgement of two checkpoints.
fn judged<T: TileSource>(
    alloc: Global,
    provider: &TableProvider,
    key: &DerPublicKey,
    first: &[u8],
    second: &[u8],
    tiles: &mut T,
) -> Result<Answer, NoMemory>
    ensures { IfOk result (Judges (accepts_of provider.now.rows) key.now first.now second.now (T.seen tiles.old) (T.seen tiles.new)) }
{
    match audit(alloc, provider, key, first, second, tiles) {
        Ok(found) => {
            let (older, newer) = (found.first, found.second);
            drop(found);
            consistent(alloc, older, newer)
        }
        Err(TileError::NoMemory) => Err(NoMemory),
        Err(e) => {
            let said = refused(alloc, &e);
            drop(e);
            said
        }
    }
}

// What is said of a checkpoint that can't be read, or is too long.
fn unread(alloc: Global, word: &str) -> Result<Answer, NoMemory>
    ensures { IfOk result (λ said. said ≡ unread_answer word.now) }
{
    pair(alloc, Status::Input, "input", word)
}

// The newer checkpoint is read to its end, and both are judged.
fn second_audited<B: ArtifactSource, T: TileSource>(
    alloc: Global,
    provider: &TableProvider,
    key: &DerPublicKey,
    first: &[u8],
    second: &mut B,
    tiles: &mut T,
) -> Result<Answer, NoMemory>
    ensures { IfOk result (AuditsSecond (accepts_of provider.now.rows) key.now first.now (B.seen second.old) (B.seen second.new)
        (T.seen tiles.old) (T.seen tiles.new)) }
{
    match read_whole(alloc, second, MAX_CHECKPOINT) {
        Ok(newer) => {
            let said = judged(alloc, provider, key, first, newer.as_bytes(), tiles);
            drop(newer);
            said
        }
        Err(WholeFault::NoMemory) => Err(NoMemory),
        Err(WholeFault::Failed) => unread(alloc, "second"),
        Err(WholeFault::TooLong) => unread(alloc, "second"),
    }
}

// The checkpoints are read to their ends, one after the other, and judged.
fn audited<A: ArtifactSource, B: ArtifactSource, T: TileSource>(
    alloc: Global,
    provider: &TableProvider,
    key: &DerPublicKey,
    checkpoints: &mut Checkpoints<A, B>,
    tiles: &mut T,
) -> Result<Answer, NoMemory>
    ensures { IfOk result (Audits (accepts_of provider.now.rows) key.now
        (log_by (A.seen checkpoints.old.first) (B.seen checkpoints.old.second) (T.seen tiles.old))
        (log_by (A.seen checkpoints.new.first) (B.seen checkpoints.new.second) (T.seen tiles.new))) }
{
    match read_whole(alloc, &mut checkpoints.first, MAX_CHECKPOINT) {
        Ok(older) => {
            let newer = &mut checkpoints.second;
            let said = second_audited(alloc, provider, key, older.as_bytes(), newer, tiles);
            drop(older);
            said
        }
        Err(WholeFault::NoMemory) => Err(NoMemory),
        Err(WholeFault::Failed) => unread(alloc, "first"),
        Err(WholeFault::TooLong) => unread(alloc, "first"),
    }
}

// The words and the provider's tables, then the checkpoints.
fn decide<I: Inputs, A: ArtifactSource, B: ArtifactSource, T: TileSource>(
    alloc: Global,
    words: &[Text],
    inputs: &mut I,
    checkpoints: &mut Checkpoints<A, B>,
    tiles: &mut T,
) -> Result<Answer, NoMemory>
    ensures { Says words.now
        (environment_by (I.seen inputs.old) (A.seen checkpoints.old.first) (B.seen checkpoints.old.second) (T.seen tiles.old))
        (environment_by (I.seen inputs.new) (A.seen checkpoints.new.first) (B.seen checkpoints.new.second) (T.seen tiles.new)) result }
{
    match start::<AuditLayout, Tables, I>(alloc, audit_layout(alloc, words), inputs) {
        Ok(Started::Asked(layout, tables)) => {
            let said = audited(alloc, &tables.provider, &layout.key, checkpoints, tiles);
            drop(tables);
            drop(layout);
            said
        }
        Ok(Started::Stopped(said)) => Ok(said),
        Err(e) => Err(e),
    }
}

/// Runs `audit` over its words and the objects of the outside: reads the words, the input provider, then both checkpoints,
/// of at most 64 KiB, to their ends, and writes `consistent M N`, with the sizes of both trees, where `audit` of log_tiles
/// gives a proof for them. A refusal, `usage` or `input` is one line. Status 4 where a write failed, 5 where memory was
/// wanting; then nothing was written.
pub fn run_audit<I: Inputs, A: ArtifactSource, B: ArtifactSource, T: TileSource, K: Sink>(
    alloc: Global,
    words: &[Text],
    inputs: &mut I,
    checkpoints: &mut Checkpoints<A, B>,
    tiles: &mut T,
    out: &mut K,
) -> Status
    ensures means { Means words.now
        (environment_by (I.seen inputs.old) (A.seen checkpoints.old.first) (B.seen checkpoints.old.second) (T.seen tiles.old))
        (environment_by (I.seen inputs.new) (A.seen checkpoints.new.first) (B.seen checkpoints.new.second) (T.seen tiles.new))
        (K.seen out.old) (K.seen out.new) result }
    ensures complete { Completes words.now
        (environment_by (I.seen inputs.old) (A.seen checkpoints.old.first) (B.seen checkpoints.old.second) (T.seen tiles.old))
        (environment_by (I.seen inputs.new) (A.seen checkpoints.new.first) (B.seen checkpoints.new.second) (T.seen tiles.new))
        (K.seen out.old) (K.seen out.new) result }
{
    let said = decide(alloc, words, inputs, checkpoints, tiles);
    finish(&said, out)
}
