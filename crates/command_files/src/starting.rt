// The start of every command: its words, and then its inputs.
ghost use Rattle.command_files.specs.Starting.{Starts, AreRead};
ghost use Rattle.command_files.specs.declared.usage_fault.UsageFault.{UsageFault};
ghost use Rattle.std.specs.Prelude.{Result};

use crate::answer::{Answer, stopped};
use crate::gather::{CommandStop, Gather};
use crate::inputs::Inputs;
use crate::usage_fault::UsageFault;
use foundation::NoMemory;
use std::alloc::Global;

/// What the words and the inputs of a command ask for; or what is said where one of them stops it.
#[derive(Drop)]
pub enum Started<L, T> {
    Asked(L, T),
    Stopped(Answer),
}

/// Starts a command whose words were read so: reads its inputs, where the words are those of the command. Errors: `NoMemory`.
pub fn start<L: Drop, T: Gather, I: Inputs>(
    alloc: Global,
    words: Result<L, UsageFault>,
    inputs: &mut I,
) -> Result<Started<L, T>, NoMemory>
    ensures { (of : Result L UsageFault) → AreRead of words → Starts of T.gathered (I.seen inputs.old) (I.seen inputs.new) result }
{
    match words {
        Ok(layout) => match T::gather(alloc, inputs) {
            Ok(given) => Ok(Started::Asked(layout, given)),
            Err(stop) => {
                drop(layout);
                match stopped(alloc, stop) {
                    Ok(said) => Ok(Started::Stopped(said)),
                    Err(e) => Err(e),
                }
            }
        },
        Err(UsageFault::Usage) => match stopped(alloc, CommandStop::Words) {
            Ok(said) => Ok(Started::Stopped(said)),
            Err(e) => Err(e),
        },
        Err(UsageFault::NoMemory) => Err(NoMemory),
    }
}
