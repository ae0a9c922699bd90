// What the commands write.
ghost use Rattle.command_archive.specs.Output.{status_of, octets_of};

use command_files::{Answer, Said, Status};
use sigstore_types_parts::Bytes;

/// What a command writes: a line or lines, with the status that they have where they are taken whole; or an archive.
#[derive(Debug, PartialEq, Drop)]
pub enum Output {
    Lines(Answer),
    Archive(Bytes),
}

impl Said for Output {
    ghost status_said = { status_of };

    ghost octets_said = { octets_of };

    fn status(&self) -> Status {
        match self {
            Output::Lines(said) => said.status,
            Output::Archive(_) => Status::Accepted,
        }
    }

    fn octets(&self) -> &[u8] {
        match self {
            Output::Lines(said) => said.text.as_str().as_bytes(),
            Output::Archive(bytes) => bytes.as_bytes(),
        }
    }
}
