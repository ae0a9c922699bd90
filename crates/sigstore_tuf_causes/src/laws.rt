// Laws of the definitions. A call does nothing.
ghost use Rattle.sigstore_tuf_causes.specs.Laws.{SeedsAreSigned, RecallsArePinned};
ghost use Rattle.sigstore_tuf_causes.specs.Succession.{StoreCarriesFloor};

/// The laws of a store: a document of it is put in force only where it meets its role in the root in force,
/// a next root also its own; and a file of it is given only with its listed length and digests.
pub fn stored_is_signed()
    ensures documents { SeedsAreSigned }
    ensures files { RecallsArePinned }
{}

/// The law of a store between clients: where each call of both carries the floor (`CarriesFloor`), a later client
/// under the same root trusts no timestamp below the earlier one's, over the store that the earlier one had from
/// before its first refresh and that nobody else wrote. In no call was memory wanting, or did the store fail.
pub fn store_carries_the_floor()
    ensures { StoreCarriesFloor }
{}
