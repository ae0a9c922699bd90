// Laws of the definitions. A call does nothing.
ghost use Rattle.sigstore_verify.specs.ByDigests.{DigestsStandForBytes};
ghost use Rattle.sigstore_verify.specs.ByRules.{OneRuleAlone};
ghost use Rattle.sigstore_verify.specs.OnePlace.{OnePlaceOneContent};

/// The law of told digests: over digests of bytes the verdict is the one over the bytes, where each digest that a rule
/// needs is told. So who tells an image's digest learns what a verification of the image would say.
pub fn digests_stand_for_bytes()
    ensures { DigestsStandForBytes }
{}

/// The law of places in a log: two bundles that are accepted, under whatever policies that verify the log, with
/// entries of one kind at one place of one tree, have one signature over one content, or two different byte
/// strings with one SHA-256 value are named, of which `extract_collision` of `sigstore_merkle` gives those that
/// lie in the tree.
pub fn one_place_one_content()
    ensures { OnePlaceOneContent }
{}

/// The law of one rule: what is answered under one rule means what `verify_from_root` means under its policy alone.
pub fn one_rule_alone()
    ensures { OneRuleAlone }
{}
