// Inputs in files.
ghost use Rattle.std.specs.Prelude.{◌≡◌, None, OnOk, OnErr};
ghost use Rattle.foundation.specs.Watched.{Rose};
ghost use Rattle.command_files.specs.Inputs.{Gives, WithinLimit, path_of, untold_inputs};

use crate::inputs::{InputFault, InputFile, Inputs};
use sigstore_types_parts::{Bytes, FileFault, Text, read_file};
use std::alloc::Global;
use std::rt::Files;

/// Inputs in files; they tell nothing but which one was last not given.
#[derive(Drop)]
pub struct FileInputs<'r, X: Files> {
    rt: &'r X,
    root: Text,
    bundle: Text,
    policy: Text,
    provider: Text,
    faults: u64,
    missing: Option<InputFile>,
}

impl<'r, X: Files> FileInputs<'r, X> {
    /// The inputs in the files at these paths.
    pub fn new(
        rt: &'r X,
        root: Text,
        bundle: Text,
        policy: Text,
        provider: Text,
    ) -> FileInputs<'r, X>
        ensures root { result.root ≡ root }
        ensures bundle { result.bundle ≡ bundle }
        ensures policy { result.policy ≡ policy }
        ensures provider { result.provider ≡ provider }
        ensures faults { result.faults ≡ 0 }
        ensures missing { result.missing ≡ None }
    {
        FileInputs {
            rt,
            root,
            bundle,
            policy,
            provider,
            faults: 0,
            missing: None,
        }
    }

    fn path(&self, which: InputFile) -> &str
        ensures { result.now ≡ path_of self.now.root self.now.bundle self.now.policy self.now.provider which }
    {
        match which {
            InputFile::Root => self.root.as_str(),
            InputFile::Bundle => self.bundle.as_str(),
            InputFile::Policy => self.policy.as_str(),
            InputFile::Provider => self.provider.as_str(),
        }
    }
}

fn read_input<X: Files>(rt: &X, alloc: Global, path: &str, max: u64) -> Result<Bytes, InputFault>
    ensures { WithinLimit max result }
{
    match read_file(rt, alloc, path, max) {
        Ok(bytes) => Ok(bytes),
        Err(FileFault::Absent) => Err(InputFault::Absent),
        Err(FileFault::TooLong { seen }) => Err(InputFault::TooLong { seen }),
        Err(FileFault::Failed) => Err(InputFault::Failed),
        Err(FileFault::NoMemory) => Err(InputFault::NoMemory),
    }
}

impl<X: Files> Inputs for FileInputs<'_, X> {
    ghost seen = { λ i. untold_inputs i.faults i.missing };

    fn read(&mut self, alloc: Global, which: InputFile, max: u64) -> Result<Bytes, InputFault>
        ensures gives { Gives which (untold_inputs self.old.faults self.old.missing) (untold_inputs self.new.faults self.new.missing) max result }
        ensures fails { OnErr result (Rose self.old.faults self.new.faults) }
        ensures serves { OnOk result (self.new.faults ≡ self.old.faults) }
    {
        let answer = read_input(self.rt, alloc, self.path(which), max);
        if answer.is_err() {
            self.faults = self.faults.saturating_add(1);
            self.missing = Some(which);
        }
        answer
    }
}
