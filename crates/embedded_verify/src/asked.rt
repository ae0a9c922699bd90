// What a request asks for.
ghost use Rattle.std.specs.Prelude.{◌≡◌, Ok};
ghost use Rattle.command_files.specs.Gather.{gathered_of};
ghost use Rattle.command_files.specs.Tables.{tables_of};
ghost use Rattle.embedded_verify.specs.Handed.{held_in, IsMoment};

use crate::request::Request;
use command_files::{Gathered, Tables};
use jiff::Timestamp;

/// What a request asks for: its inputs, as they are read, the rows of the signatures that aren't good, and its moment.
#[derive(Drop)]
pub struct Asked<'a> {
    pub request: &'a Request<'a>,
    pub gathered: Gathered,
    pub bad: Tables,
    pub moment: Timestamp,
    pub ghost read: { gathered_of (held_in request.now) ≡ Ok gathered },
    pub ghost bad_read: { tables_of request.now.bad.now ≡ Ok bad },
    pub ghost at: { IsMoment request.now moment },
}
