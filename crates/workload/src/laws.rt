// Laws of the definitions. A call does nothing.
ghost use Rattle.workload.specs.Law.{RepositoryOffers};

/// The law of the repository: it offers its chain to whoever accepts the signatures of its documents and reads the
/// text of its key.
pub fn repository_offers()
    ensures { RepositoryOffers }
{}
