//! Runs the worlds of the files that the words name, and says of each file how many there are, and of each world that ends
//! otherwise than it is to end what was said. Some are also asked of the library that asks. The status is 0 where each ends
//! so, 1 where one doesn't, and 2 where they can't be tried.
#![tactic(auto)]

mod asked;
mod details;
mod fault;
mod handed;
mod objects;
mod trial;
mod world;

use crate::fault::Fault;
use crate::trial::try_worlds;
use crate::world::worlds_in;
use sigstore_types_parts::read_file;
use std::env;
use std::process::ExitCode;
use std::rt::Runtime;

// The greatest length of a file of worlds in bytes.
const MAX_LENGTH: u64 = 67_108_864;

// Tries the worlds of a file; whether each ends as it is to end.
fn try_file<X: Runtime + AllocGlobal>(
    rt: &X,
    path: &str,
    report: &mut String,
) -> Result<bool, Fault> {
    let file = read_file(rt, rt.alloc(), path, MAX_LENGTH).map_err(|_| Fault::File)?;
    let worlds = worlds_in(rt.alloc(), file.as_bytes())?;
    try_worlds(rt.alloc(), path, &worlds, report)
}

// Tries the worlds of each file that a word names.
fn try_files<X: Runtime + AllocGlobal>(rt: &X, report: &mut String) -> Result<bool, Fault> {
    let paths = env::args(rt).map_err(|_| Fault::File)?;
    let mut is_right = true;
    for path in paths.skip(1) {
        is_right = try_file(rt, path.as_str(), report)? && is_right;
    }
    Ok(is_right)
}

fn main(rt: HostRuntime) -> ExitCode {
    let mut report = String::new(rt.alloc());
    let ended = try_files(&rt, &mut report);
    let written = print!(rt; "{report}");
    match (ended, written) {
        (Ok(true), Ok(())) => ExitCode::SUCCESS,
        (Ok(false), Ok(())) => ExitCode::from(1),
        (Err(fault), Ok(())) => {
            let _told = println!(rt; "the worlds can't be tried: {fault:?}");
            ExitCode::from(2)
        }
        _ => ExitCode::from(2),
    }
}
