// Laws of the definitions. A call does nothing.
ghost use Rattle.sigstore_tuf_rules.specs.Floor.{FloorsHold};
ghost use Rattle.sigstore_tuf_rules.specs.SearchLaws.{SearchesByList, SearchesDeepEnough, SearchesBounded, OneOrder};

/// The laws of a search: it goes by one list of what is pending, it may go deeper than it has visits left, it
/// makes at most as many visits as are allowed, and documents that agree give one order.
pub fn search_laws()
    ensures by_list { SearchesByList }
    ensures deep_enough { SearchesDeepEnough }
    ensures bounded { SearchesBounded }
    ensures one { OneOrder }
{}

/// The law of floors: calls join. Where the documents in force after each call keep the floor of those before it
/// (`StaysAuthorised`, `UpdatesSet`), all later ones keep that of the first: while the root stays, the
/// timestamp's version and the version by which the snapshot pins each name don't fall.
pub fn floors_hold()
    ensures { FloorsHold }
{}
