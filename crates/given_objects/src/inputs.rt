// Inputs that are handed in.
ghost use Rattle.std.specs.Prelude.{◌≡◌, Some, None};
ghost use Rattle.command_files.specs.Inputs.{held_of, told_inputs};

use command_files::{InputFault, InputFile, Inputs};
use sigstore_types_parts::Bytes;
use std::alloc::Global;

/// Inputs in memory, which they tell.
#[derive(Drop)]
pub struct GivenInputs<'a> {
    root: &'a [u8],
    bundle: &'a [u8],
    policy: &'a [u8],
    provider: &'a [u8],
    missing: Option<InputFile>,
}

impl<'a> GivenInputs<'a> {
    /// These inputs.
    pub fn new(
        root: &'a [u8],
        bundle: &'a [u8],
        policy: &'a [u8],
        provider: &'a [u8],
    ) -> GivenInputs<'a>
        ensures root { result.root.now ≡ root.now }
        ensures bundle { result.bundle.now ≡ bundle.now }
        ensures policy { result.policy.now ≡ policy.now }
        ensures provider { result.provider.now ≡ provider.now }
        ensures missing { result.missing ≡ None }
    {
        GivenInputs {
            root,
            bundle,
            policy,
            provider,
            missing: None,
        }
    }

    fn input(&self, which: InputFile) -> &'a [u8]
        ensures { held_of (Some self.now.root.now) (Some self.now.bundle.now) (Some self.now.policy.now) (Some self.now.provider.now) which ≡ Some result.now }
    {
        match which {
            InputFile::Root => self.root,
            InputFile::Bundle => self.bundle,
            InputFile::Policy => self.policy,
            InputFile::Provider => self.provider,
        }
    }
}

impl Inputs for GivenInputs<'_> {
    ghost seen = { λ i. told_inputs (Some i.root.now) (Some i.bundle.now) (Some i.policy.now) (Some i.provider.now) 0 i.missing };

    fn read(&mut self, alloc: Global, which: InputFile, max: u64) -> Result<Bytes, InputFault> {
        // (it counts as missing until it is given)
        let before = self.missing;
        self.missing = Some(which);
        let input = self.input(which);
        let seen = input.len() as u64;
        if seen > max {
            return Err(InputFault::TooLong { seen });
        }
        let copy = Bytes::new(alloc, input)?;
        self.missing = before;
        Ok(copy)
    }
}
