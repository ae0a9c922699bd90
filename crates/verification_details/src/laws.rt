// Laws of the lines. A call does nothing.
ghost use Rattle.verification_details.specs.Laws.{SourcesAreTold, SubjectsAreJudged};

/// The law of times: of a bundle that is accepted exactly the times of its tokens are told as stamped, and exactly those
/// that logs promised as promised.
pub fn sources_are_told()
    ensures { SourcesAreTold }
{}

/// The law of subjects: the one that is told has one of the digests that were judged, and the judgement takes no other
/// for the artifact before it.
pub fn subjects_are_judged()
    ensures { SubjectsAreJudged }
{}
