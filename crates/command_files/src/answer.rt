// What a command says: a status and a text.
ghost use Rattle.std.specs.Prelude.{◌≡◌, Some, IfOk, IfErr};
ghost use Rattle.command_files.specs.Answer.{code_of, stop_answer};
ghost use Rattle.command_files.specs.declared.answer.Status.TheVariants.{Refused, Memory};
ghost use Rattle.command_files.specs.Printed.{line_of, pair_line, refused_line};

use crate::gather::CommandStop;
use crate::printed::{push_line, push_pair_line, push_refused_line};
use foundation::NoMemory;
use sigstore_types_parts::Text;
use std::alloc::Global;

/// How a command ends: the bundle is accepted, or the questions are asked; the bundle is refused; the
/// words or a file are outside their grammar; an input isn't there, can't be read or is too long; a write
/// failed; or memory was wanting.
#[derive(Clone, Copy, Debug, PartialEq, Eq, Drop)]
pub enum Status {
    /// The bundle is accepted, and the report was written whole; of a run that only asks: the questions
    /// were written whole.
    Accepted,
    /// The bundle is refused, and the line that says why was written whole.
    Refused,
    /// The words or a file are outside their grammar.
    Usage,
    /// An input isn't there, can't be read or is too long.
    Input,
    /// A write failed.
    Output,
    /// An allocation was refused, and nothing was written.
    Memory,
}

/// What a command says: its status where the text is taken whole, and the text.
#[derive(Debug, PartialEq, Drop)]
pub struct Answer {
    pub status: Status,
    pub text: Text,
}

impl Status {
    /// The exit status.
    pub fn code(self) -> u8
        ensures { result ≡ code_of self }
    {
        match self {
            Status::Accepted => 0,
            Status::Refused => 1,
            Status::Usage => 2,
            Status::Input => 3,
            Status::Output => 4,
            Status::Memory => 5,
        }
    }
}

/// The exit status of a program: of a run that ended so, or where its objects couldn't be made for want of memory.
pub fn exit_code(ended: Result<Status, NoMemory>) -> u8
    ensures ended { IfOk ended (λ status. result ≡ code_of status) }
    ensures memory { IfErr ended (λ e. result ≡ code_of Memory) }
{
    match ended {
        Ok(status) => status.code(),
        Err(NoMemory) => Status::Memory.code(),
    }
}

fn line(alloc: Global, status: Status, word: &str) -> Result<Answer, NoMemory>
    ensures { IfOk result (λ said. said ≡ record { status = status; text = line_of word.now }) }
{
    let mut text = String::new(alloc);
    push_line(&mut text, word)?;
    Ok(Answer {
        status,
        text: Text::from_string(text),
    })
}

/// What is said in a line of two words.
pub fn pair(alloc: Global, status: Status, word: &str, other: &str) -> Result<Answer, NoMemory>
    ensures { IfOk result (λ said. said ≡ record { status = status; text = pair_line word.now other.now }) }
{
    let mut text = String::new(alloc);
    push_pair_line(&mut text, word, other)?;
    Ok(Answer {
        status,
        text: Text::from_string(text),
    })
}

/// What is said of a refusal of this layer, by its number and name.
pub fn refusal(alloc: Global, layer: &str, number: u8, name: &str) -> Result<Answer, NoMemory>
    ensures { IfOk result (λ said. said ≡ record { status = Refused; text = refused_line layer.now number name.now }) }
{
    let mut text = String::new(alloc);
    push_refused_line(&mut text, layer, number, name)?;
    Ok(Answer {
        status: Status::Refused,
        text: Text::from_string(text),
    })
}

/// What is said where a run ends before its judgement.
#[tactic(auto, unfolding(crate::specs::Answer::stop_answer))]
pub fn stopped(alloc: Global, stop: CommandStop) -> Result<Answer, NoMemory>
    ensures { IfOk result (λ said. stop_answer stop ≡ Some said) }
{
    match stop {
        CommandStop::Words => Ok(line(alloc, Status::Usage, "usage")?),
        CommandStop::Malformed(which) => Ok(pair(alloc, Status::Usage, "usage", which.word())?),
        CommandStop::Input(which) => Ok(pair(alloc, Status::Input, "input", which.word())?),
        CommandStop::Memory => Err(NoMemory),
    }
}
