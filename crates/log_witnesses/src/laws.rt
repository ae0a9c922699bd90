// The law of the definitions. A call does nothing.
ghost use Rattle.log_witnesses.specs.IsCosigned.{CosignedExactly};

/// The law of cosigned checkpoints: the count reaches a number exactly where as many different keys of witnesses each have a
/// good cosignature over the checkpoint's text.
pub fn cosigned_exactly()
    ensures { CosignedExactly }
{}
