// Laws of the definitions. A call does nothing.
ghost use Rattle.sigstore_binding.specs.Cause.{RefusalsHaveCauses};
ghost use Rattle.sigstore_binding.specs.Described.{DescribesExactly};

/// An entry is of a signature exactly where its body is read, its kind has a row for what was signed, and everything
/// that the row names is the signature's, told without an order.
pub fn describes_exactly()
    ensures { DescribesExactly }
{}

/// Each refusal of an entry has its cause: no row, an unread body, or something that the row names and that isn't
/// read or is another.
pub fn refusals_have_causes()
    ensures { RefusalsHaveCauses }
{}
