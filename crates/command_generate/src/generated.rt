// The command that verifies a workload.
ghost use Rattle.std.specs.Prelude.{◌≡◌, ◌≢◌, ◌<◌, ◌≤◌, Ok, Err, IfOk, IfErr};
ghost use Rattle.std.specs.Result.{result_ok};
ghost use Rattle.command_generate.specs.Generate.{below_of, count_of, asked_in, asked_of, is_generate, SaysOf, GenerateMeans};

use crate::summary::summarise;
use command_files::{
    Answer, CommandStop, Sink, Status, UsageFault, finish, named_words, stopped, text_at,
};
use foundation::NoMemory;
use sigstore_entries::shortest_decimal;
use sigstore_types_parts::{Text, TextMap};
use std::alloc::Global;

/// What is asked for: the number that draws, and how many items.
#[derive(Clone, Copy, Debug, PartialEq, Eq, Drop)]
pub struct Asked {
    pub number: u32,
    pub count: u32,
}

// The shortest decimal of a number below a limit.
fn below(limit: u64, text: &str) -> Result<u32, UsageFault>
    requires { limit ≤ 4294967296 }
    ensures { result ≡ below_of limit text.now }
{
    match shortest_decimal(text) {
        Some(number) => if number < limit {
            Ok(number as u32)
        } else {
            Err(UsageFault::Usage)
        },
        None => Err(UsageFault::Usage),
    }
}

fn count(text: &str) -> Result<u32, UsageFault>
    ensures value { result ≡ count_of text.now }
    ensures some { IfOk result (λ n. 0 < n) }
    ensures most { IfOk result (λ n. n ≤ 4096) }
{
    match below(4097, text) {
        Ok(0) => Err(UsageFault::Usage),
        Ok(count) => Ok(count),
        Err(e) => Err(e),
    }
}

fn asked_in(alloc: Global, found: &TextMap<Text>) -> Result<Asked, UsageFault>
    ensures ok { IfOk result (λ asked. asked_in found.now ≡ Ok asked) }
    ensures err { IfErr result (λ e. e ≢ UsageFault.NoMemory → asked_in found.now ≡ Err e) }
    ensures some { IfOk result (λ asked. 0 < asked.count) }
    ensures most { IfOk result (λ asked. asked.count ≤ 4096) }
{
    let number = text_at(alloc, found, "--number")?;
    let number = below(4_294_967_296, number.as_str())?;
    let many = text_at(alloc, found, "--count")?;
    let count = count(many.as_str())?;
    Ok(Asked { number, count })
}

// What the words ask for.
#[tactic(auto, unfolding(crate::specs::Generate::asked_of))]
fn read_asked(alloc: Global, words: &[Text]) -> Result<Asked, UsageFault>
    ensures ok { IfOk result (λ asked. asked_of words.now ≡ Ok asked) }
    ensures err { IfErr result (λ e. e ≢ UsageFault.NoMemory → asked_of words.now ≡ Err e) }
    ensures some { IfOk result (λ asked. 0 < asked.count) }
    ensures most { IfOk result (λ asked. asked.count ≤ 4096) }
{
    match named_words(alloc, "generate", &["--number", "--count"], &[], words) {
        Ok(found) => {
            let asked = asked_in(alloc, &found);
            drop(found);
            asked
        }
        Err(e) => Err(e),
    }
}

/// Whether the first word is `generate`.
pub fn is_generate(words: &[Text]) -> bool
    ensures { result ≡ is_generate words.now }
{
    match words {
        [word, ..] => word.as_str() == "generate",
        [] => false,
    }
}

// The summary of the workload that the words ask for, or that they are outside their grammar.
fn answered(alloc: Global, words: &[Text]) -> Result<Answer, NoMemory>
    ensures { IfOk result (SaysOf words.now) }
{
    match read_asked(alloc, words) {
        Ok(asked) => {
            let text = summarise(alloc, asked.number, asked.count)?;
            Ok(Answer {
                status: Status::Accepted,
                text,
            })
        }
        Err(UsageFault::Usage) => stopped(alloc, CommandStop::Words),
        Err(UsageFault::NoMemory) => Err(NoMemory),
    }
}

/// Verifies a workload and writes its summary. Nothing but the sink is called.
pub fn run_generate<K: Sink>(alloc: Global, words: &[Text], out: &mut K) -> Status
    ensures { GenerateMeans words.now (K.seen out.old) (K.seen out.new) result }
{
    let said = answered(alloc, words);
    finish(&said, out)
}
