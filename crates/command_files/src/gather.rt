// The inputs of a run.
ghost use Rattle.std.specs.Prelude.{◌≡◌, ◌≢◌, Result, Ok, Err, IfOk, IfErr};
ghost use Rattle.command_files.specs.Inputs.{Held};
ghost use Rattle.command_files.specs.declared.inputs.InputFile.TheVariants.{Policy, Provider};
ghost use Rattle.command_files.specs.declared.gather.CommandStop.{CommandStop};
ghost use Rattle.command_files.specs.declared.gather.CommandStop.TheVariants.{Memory};
ghost use Rattle.command_files.specs.Rules.{rules_of};
ghost use Rattle.command_files.specs.Tables.{tables_of};
ghost use Rattle.command_files.specs.Gather.{limit_of, word_of, stop_of, by_form, input_of, rules_in, tables_in, anchored_of, governed_of, with_bundle, gathered_of, ReadsAs};

use crate::inputs::{InputFault, InputFile, Inputs};
use crate::rules::read_rules;
use crate::tables::{Tables, read_provider};
use crate::usage_fault::UsageFault;
use foundation::Sequence;
use sigstore_policy::SigningPolicy;
use sigstore_types_parts::Bytes;
use std::alloc::Global;
use std::{error, fmt};

/// Why a run ends before the verification: its words are outside their grammar, an input is outside
/// its own, an input isn't there, can't be read or is too long, or memory is wanting.
#[derive(Clone, Copy, Debug, PartialEq, Eq, Drop)]
pub enum CommandStop {
    /// The words are outside their grammar.
    Words,
    /// The input is outside its grammar.
    Malformed(InputFile),
    /// The input isn't there, can't be read or is too long.
    Input(InputFile),
    /// An allocation was refused.
    Memory,
}

/// What the inputs of a command hold.
pub trait Gather: Sized + Drop {
    /// What told inputs hold, or the first refusal.
    ghost gathered: { Held → Result Self CommandStop };

    /// Reads the inputs, one after the other. Errors: `Malformed` or `Input` of the first that is refused; `Memory`.
    fn gather<I: Inputs>(alloc: Global, inputs: &mut I) -> Result<Self, CommandStop>
        ensures { ReadsAs gathered (I.seen inputs.old) (I.seen inputs.new) result };
}

/// The inputs of a run that judges one bundle, in their order: the policy's rules, the provider's tables, the root, the bundle.
#[derive(Drop)]
pub struct Gathered {
    pub rules: Sequence<SigningPolicy>,
    pub tables: Tables,
    pub root: Bytes,
    pub bundle: Bytes,
}

/// The inputs of a run that judges documents alone, in their order: who decides signatures, and the pinned root.
#[derive(Drop)]
pub struct Anchored {
    pub tables: Tables,
    pub root: Bytes,
}

/// The inputs of a run that judges many artifacts, in their order: the policy's rules, and by what it is judged.
#[derive(Drop)]
pub struct Governed {
    pub rules: Sequence<SigningPolicy>,
    pub anchored: Anchored,
}

impl InputFile {
    /// The input's name.
    pub fn word(self) -> &'static str
        ensures { result.now ≡ word_of self }
    {
        match self {
            InputFile::Root => "root",
            InputFile::Bundle => "bundle",
            InputFile::Policy => "policy",
            InputFile::Provider => "provider",
        }
    }

    /// The greatest length of the input in bytes.
    pub fn limit(self) -> u64
        ensures { result ≡ limit_of self }
    {
        match self {
            InputFile::Root => 512_000,
            InputFile::Bundle => 16_777_216,
            InputFile::Policy => 65_536,
            InputFile::Provider => 16_777_216,
        }
    }
}

// What a fault of an input stops the run with.
fn stop_of(which: InputFile, fault: InputFault) -> CommandStop
    ensures { result ≡ stop_of which fault }
{
    match fault {
        InputFault::NoMemory => CommandStop::Memory,
        _ => CommandStop::Input(which),
    }
}

// An input within its limit.
fn take_input<I: Inputs>(
    alloc: Global,
    inputs: &mut I,
    which: InputFile,
) -> Result<Bytes, CommandStop>
    ensures { ReadsAs (input_of which) (I.seen inputs.old) (I.seen inputs.new) result }
{
    match inputs.read(alloc, which, which.limit()) {
        Ok(bytes) => Ok(bytes),
        Err(fault) => Err(stop_of(which, fault)),
    }
}

fn formed_rules(alloc: Global, bytes: Bytes) -> Result<Sequence<SigningPolicy>, CommandStop>
    ensures ok { IfOk result (λ rules. by_form Policy (rules_of bytes) ≡ Ok rules) }
    ensures err { IfErr result (λ e. e ≢ Memory → by_form Policy (rules_of bytes) ≡ Err e) }
{
    match read_rules(alloc, bytes.as_bytes()) {
        Ok(rules) => Ok(rules),
        Err(UsageFault::Usage) => Err(CommandStop::Malformed(InputFile::Policy)),
        Err(UsageFault::NoMemory) => Err(CommandStop::Memory),
    }
}

fn formed_tables(alloc: Global, bytes: Bytes) -> Result<Tables, CommandStop>
    ensures ok { IfOk result (λ tables. by_form Provider (tables_of bytes) ≡ Ok tables) }
    ensures err { IfErr result (λ e. e ≢ Memory → by_form Provider (tables_of bytes) ≡ Err e) }
{
    match read_provider(alloc, bytes.as_bytes()) {
        Ok(tables) => Ok(tables),
        Err(UsageFault::Usage) => Err(CommandStop::Malformed(InputFile::Provider)),
        Err(UsageFault::NoMemory) => Err(CommandStop::Memory),
    }
}

fn take_rules<I: Inputs>(
    alloc: Global,
    inputs: &mut I,
) -> Result<Sequence<SigningPolicy>, CommandStop>
    ensures { ReadsAs rules_in (I.seen inputs.old) (I.seen inputs.new) result }
{
    match take_input(alloc, inputs, InputFile::Policy) {
        Ok(bytes) => match formed_rules(alloc, bytes) {
            Ok(rules) => Ok(rules),
            Err(e) => Err(e),
        },
        Err(e) => Err(e),
    }
}

impl Gather for Tables {
    ghost gathered = { tables_in };

    fn gather<I: Inputs>(alloc: Global, inputs: &mut I) -> Result<Tables, CommandStop> {
        match take_input(alloc, inputs, InputFile::Provider) {
            Ok(bytes) => match formed_tables(alloc, bytes) {
                Ok(tables) => Ok(tables),
                Err(e) => Err(e),
            },
            Err(e) => Err(e),
        }
    }
}

impl Gather for Anchored {
    ghost gathered = { anchored_of };

    fn gather<I: Inputs>(alloc: Global, inputs: &mut I) -> Result<Anchored, CommandStop> {
        match Tables::gather(alloc, inputs) {
            Ok(tables) => match take_input(alloc, inputs, InputFile::Root) {
                Ok(root) => Ok(Anchored { tables, root }),
                Err(e) => Err(e),
            },
            Err(e) => Err(e),
        }
    }
}

impl Gather for Governed {
    ghost gathered = { governed_of };

    fn gather<I: Inputs>(alloc: Global, inputs: &mut I) -> Result<Governed, CommandStop> {
        match take_rules(alloc, inputs) {
            Ok(rules) => match Anchored::gather(alloc, inputs) {
                Ok(anchored) => Ok(Governed { rules, anchored }),
                Err(e) => Err(e),
            },
            Err(e) => Err(e),
        }
    }
}

// The same with a bundle.
fn with_bundle(governed: Governed, bundle: Bytes) -> Gathered
    ensures { result ≡ with_bundle governed bundle }
{
    let Governed { rules, anchored } = governed;
    let Anchored { tables, root } = anchored;
    Gathered {
        rules,
        tables,
        root,
        bundle,
    }
}

impl Gather for Gathered {
    ghost gathered = { gathered_of };

    fn gather<I: Inputs>(alloc: Global, inputs: &mut I) -> Result<Gathered, CommandStop> {
        match Governed::gather(alloc, inputs) {
            Ok(governed) => match take_input(alloc, inputs, InputFile::Bundle) {
                Ok(bundle) => Ok(with_bundle(governed, bundle)),
                Err(e) => Err(e),
            },
            Err(e) => Err(e),
        }
    }
}

impl fmt::Display for CommandStop {
    fn fmt<W: fmt::Write>(&self, f: &mut fmt::Formatter<W>) -> fmt::Result {
        f.write_str(match self {
            CommandStop::Words => "Words",
            CommandStop::Malformed(_) => "Malformed",
            CommandStop::Input(_) => "Input",
            CommandStop::Memory => "Memory",
        })
    }
}

impl error::Error for CommandStop {}
