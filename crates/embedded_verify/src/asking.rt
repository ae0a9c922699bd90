// How a request is read.
ghost use Rattle.std.specs.Prelude.{◌≡◌, Ok, IfOk, IfErr};
ghost use Rattle.command_files.specs.Gather.{gathered_of};
ghost use Rattle.embedded_verify.specs.Handed.{held_in, IsMoment};
ghost use Rattle.embedded_verify.specs.Means.{IsAsking};
ghost use Rattle.embedded_verify.specs.Unread.{IsUnread};

use crate::asked::Asked;
use crate::request::Request;
use command_files::{Answer, Gathered, Started, Status, UsageFault, pair, read_provider, start};
use foundation::NoMemory;
use jiff::Timestamp;
use std::alloc::Global;

/// What a request asks for, or what is said of the part of it that isn't read.
#[derive(Drop)]
pub enum Asking<'a> {
    Asked(Asked<'a>),
    Stopped(Answer),
}

// The inputs, where they are read; else what is said of them.
fn gathered(alloc: Global, request: &Request<'_>) -> Result<Result<Gathered, Answer>, NoMemory>
    ensures read { IfOk result (λ read. IfOk read (λ gathered. gathered_of (held_in request.now) ≡ Ok gathered)) }
    ensures unread { IfOk result (λ read. IfErr read (IsUnread request.now)) }
{
    match start(alloc, Ok(()), &mut request.inputs()) {
        Ok(Started::Asked((), gathered)) => Ok(Ok(gathered)),
        Ok(Started::Stopped(said)) => Ok(Err(said)),
        Err(e) => Err(e),
    }
}

// The same, with the rows that don't hold, at this moment.
fn asked_at<'a>(
    alloc: Global,
    request: &'a Request<'a>,
    moment: Timestamp,
    gathered: Gathered,
) -> Result<Asking<'a>, NoMemory>
    requires read { gathered_of (held_in request.now) ≡ Ok gathered }
    requires at { IsMoment request.now moment }
    ensures { IfOk result (IsAsking request.now) }
{
    match read_provider(alloc, request.bad) {
        Ok(bad) => Ok(Asking::Asked(Asked {
            request,
            gathered,
            bad,
            moment,
        })),
        Err(UsageFault::Usage) => {
            drop(gathered);
            Ok(Asking::Stopped(pair(alloc, Status::Usage, "usage", "bad")?))
        }
        Err(UsageFault::NoMemory) => {
            drop(gathered);
            Err(NoMemory)
        }
    }
}

/// Reads a request.
pub fn ask<'a>(alloc: Global, request: &'a Request<'a>) -> Result<Asking<'a>, NoMemory>
    ensures { IfOk result (IsAsking request.now) }
{
    let Some(moment) = request.moment() else {
        return Ok(Asking::Stopped(pair(alloc, Status::Usage, "usage", "moment")?));
    };
    match gathered(alloc, request)? {
        Ok(gathered) => asked_at(alloc, request, moment, gathered),
        Err(said) => Ok(Asking::Stopped(said)),
    }
}
