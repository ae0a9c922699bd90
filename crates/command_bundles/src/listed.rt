// The inputs of a run over a list of bundles.
ghost use Rattle.command_files.specs.declared.inputs.InputFile.TheVariants.{Bundle};
ghost use Rattle.command_files.specs.Gather.{stop_of, ReadsAs};
ghost use Rattle.command_bundles.specs.Listed.{list_in, listed_in};
ghost use Rattle.std.specs.Prelude.{◌≡◌};

use command_files::{CommandStop, Gather, Governed, InputFault, InputFile, Inputs};
use sigstore_types_parts::Bytes;
use std::alloc::Global;

/// The greatest length of a list in bytes: 64 MiB.
pub const MAX_LIST: u64 = 67_108_864;

/// The inputs of a run over a list of bundles, in their order: the policy's rules and by what the bundles are judged, and the
/// list, which is the input `bundle`.
#[derive(Drop)]
pub struct Listed {
    pub governed: Governed,
    pub list: Bytes,
}

// What a fault of the list stops the run with.
fn stop_of(fault: InputFault) -> CommandStop
    ensures { result ≡ stop_of Bundle fault }
{
    match fault {
        InputFault::NoMemory => CommandStop::Memory,
        _ => CommandStop::Input(InputFile::Bundle),
    }
}

// The list within its limit.
fn take_list<I: Inputs>(alloc: Global, inputs: &mut I) -> Result<Bytes, CommandStop>
    ensures { ReadsAs list_in (I.seen inputs.old) (I.seen inputs.new) result }
{
    match inputs.read(alloc, InputFile::Bundle, MAX_LIST) {
        Ok(list) => Ok(list),
        Err(fault) => Err(stop_of(fault)),
    }
}

impl Gather for Listed {
    ghost gathered = { listed_in };

    fn gather<I: Inputs>(alloc: Global, inputs: &mut I) -> Result<Listed, CommandStop> {
        match Governed::gather(alloc, inputs) {
            Ok(governed) => match take_list(alloc, inputs) {
                Ok(list) => Ok(Listed { governed, list }),
                Err(e) => Err(e),
            },
            Err(e) => Err(e),
        }
    }
}
