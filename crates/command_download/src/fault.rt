// Why a download isn't done.
ghost use Rattle.std.specs.Prelude.{◌≡◌};
ghost use Rattle.command_download.specs.Client.{fault_of, fault_of_shelf};

use crate::shelf::ShelfFault;
use sigstore_tuf_parts::Error;

/// Why a download isn't done: the client refused, its file couldn't be put in place, or memory was wanting.
#[derive(Drop)]
pub enum DownloadFault {
    /// The client refused; never for want of memory.
    Tuf(Error),
    /// The file couldn't be put in its place.
    Unplaced,
    /// An allocation was refused.
    NoMemory,
}

// What a refusal of the client is.
pub(crate) fn fault_of(e: Error) -> DownloadFault
    ensures { result ≡ fault_of e }
{
    match e {
        Error::NoMemory => DownloadFault::NoMemory,
        e => DownloadFault::Tuf(e),
    }
}

// What a fault of the shelf is.
pub(crate) fn fault_of_shelf(fault: ShelfFault) -> DownloadFault
    ensures { result ≡ fault_of_shelf fault }
{
    match fault {
        ShelfFault::Failed => DownloadFault::Unplaced,
        ShelfFault::NoMemory => DownloadFault::NoMemory,
    }
}
