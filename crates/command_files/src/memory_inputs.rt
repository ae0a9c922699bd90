// Inputs in memory.
ghost use Rattle.std.specs.Prelude.{◌≡◌, ◌≢◌, ◌+◌, ◌-◌, ◌^◌, [], min, true, false, Some, None, Err};
ghost use Rattle.std.specs.Option.{option_copied};
ghost use Rattle.foundation.specs.Watched.{Rose};
ghost use Rattle.sigstore_types_parts.specs.Calls.{fails_next};
ghost use Rattle.command_files.specs.declared.inputs.InputFile.{InputFile};
ghost use Rattle.command_files.specs.Inputs.{Held, Gives, held_of, told_inputs};

use crate::inputs::{InputFault, InputFile, Inputs};
use foundation::Duplicate;
use sigstore_types_parts::{Bytes, Calls, FailList};
use std::alloc::Global;

/// Inputs in memory, each of which may be there.
#[derive(Drop)]
pub struct MemoryInputs {
    root: Option<Bytes>,
    bundle: Option<Bytes>,
    policy: Option<Bytes>,
    provider: Option<Bytes>,
    calls: Calls,
    missing: Option<InputFile>,
}

impl MemoryInputs {
    /// No input; the calls that the list names fail.
    pub fn new(failures: FailList) -> MemoryInputs
        ensures held { (held_of result.root result.bundle result.policy result.provider) ≡ (λ _. None) }
        ensures failures { result.calls.failures ≡ failures }
        ensures made { result.calls.made ≡ 0 }
        ensures faults { result.calls.faults ≡ 0 }
        ensures missing { result.missing ≡ None }
    {
        MemoryInputs {
            root: None,
            bundle: None,
            policy: None,
            provider: None,
            calls: Calls::new(failures),
            missing: None,
        }
    }

    /// Sets an input; the others stay.
    pub fn put(&mut self, which: InputFile, bytes: Bytes)
        ensures calls { self.new.calls ≡ self.old.calls }
        ensures missing { self.new.missing ≡ self.old.missing }
        ensures put { held_of self.new.root self.new.bundle self.new.policy self.new.provider which ≡ Some bytes }
        ensures others { (other : InputFile) → other ≢ which →
            held_of self.new.root self.new.bundle self.new.policy self.new.provider other
            ≡ held_of self.old.root self.old.bundle self.old.policy self.old.provider other }
    {
        match which {
            InputFile::Root => self.root = Some(bytes),
            InputFile::Bundle => self.bundle = Some(bytes),
            InputFile::Policy => self.policy = Some(bytes),
            InputFile::Provider => self.provider = Some(bytes),
        }
    }

    fn get(&self, which: InputFile) -> Option<&Bytes>
        ensures { option_copied result ≡ held_of self.now.root self.now.bundle self.now.policy self.now.provider which }
    {
        match which {
            InputFile::Root => self.root.as_ref(),
            InputFile::Bundle => self.bundle.as_ref(),
            InputFile::Policy => self.policy.as_ref(),
            InputFile::Provider => self.provider.as_ref(),
        }
    }
}

impl Inputs for MemoryInputs {
    ghost seen = { λ i. told_inputs i.root i.bundle i.policy i.provider i.calls.faults i.missing };

    fn read(&mut self, alloc: Global, which: InputFile, max: u64) -> Result<Bytes, InputFault>
        ensures gives { Gives which
            (told_inputs self.old.root self.old.bundle self.old.policy self.old.provider self.old.calls.faults self.old.missing)
            (told_inputs self.new.root self.new.bundle self.new.policy self.new.provider self.new.calls.faults self.new.missing)
            max result }
        ensures failures { self.new.calls.failures ≡ self.old.calls.failures }
        ensures made { self.new.calls.made ≡ min (self.old.calls.made + 1) (2 ^ 64 - 1) }
        ensures fails { fails_next self.old.calls.failures self.old.calls.made ≡ true →
            (result ≡ Err InputFault.Failed) × Rose self.old.calls.faults self.new.calls.faults }
        ensures serves { fails_next self.old.calls.failures self.old.calls.made ≡ false →
            (result ≢ Err InputFault.Failed) × (self.new.calls.faults ≡ self.old.calls.faults) }
        ensures never { self.old.calls.failures ≡ [] → (result ≢ Err InputFault.Failed) × (self.new.calls.faults ≡ self.old.calls.faults) }
    {
        // (it counts as missing until it is given)
        let before = self.missing;
        self.missing = Some(which);
        if self.calls.next_fails() {
            return Err(InputFault::Failed);
        }
        match self.get(which) {
            None => Err(InputFault::Absent),
            Some(input) => {
                let seen = input.as_bytes().len() as u64;
                if seen > max {
                    return Err(InputFault::TooLong { seen });
                }
                let copy = input.duplicate(alloc)?;
                self.missing = before;
                Ok(copy)
            }
        }
    }
}
