// Laws of the definitions. A call does nothing.
ghost use Rattle.sigstore_tsa.specs.Authorities.{TokensExactly, CountedIsStamped, RefusedTokens};
ghost use Rattle.sigstore_tsa.specs.Cause.{RefusedStamps};
ghost use Rattle.sigstore_tsa.specs.Stamped.{StampedExactly, OutsideExactly};

/// The law of tokens: the judgement under an authority gives a time exactly where the token is stamped then, told
/// without any order of checks, and refuses by the authority's window exactly where this alone hasn't the time.
pub fn stamped_exactly()
    ensures stamped { StampedExactly }
    ensures outside { OutsideExactly }
{}

/// The law of refusals: the judgement under an authority refuses only where the cause of its refusal holds, told without
/// any order of checks.
pub fn refusals_have_causes()
    ensures { RefusedStamps }
{}

/// The law of authorities: a time is given exactly where one of them stamped the token then; a window is the
/// refusal only where none did and one's window alone hasn't the token's time, and `Invalid` only where neither is so.
/// The authority whose a token counts as is one of them that stamped it.
pub fn tokens_exactly()
    ensures accepted { TokensExactly }
    ensures counted { CountedIsStamped }
    ensures refused { RefusedTokens }
{}
