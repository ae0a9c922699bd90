// A text that is asked for.
ghost use Rattle.std.specs.Prelude.{◌≡◌, Some, IfOk, option_copied};
ghost use Rattle.sigstore_policy.specs.Matcher.{text_matches, is_matched, text_shown};

use crate::pattern::matches_like;
use certificate_claims::ClaimName;
use foundation::{Duplicate, NoMemory};
use sigstore_types_parts::Text;
use std::alloc::Global;
use std::fmt;

/// A text that is asked for.
#[derive(Debug, PartialEq, Eq, Drop)]
pub enum TextMatcher {
    /// That text, octet by octet.
    Exact(Text),
    /// A text of that pattern.
    Like(Text),
}

/// A claim that is asked for: what a certificate has to tell under a name.
#[derive(Debug, PartialEq, Eq, Drop)]
pub struct ClaimMatcher {
    pub name: ClaimName,
    pub text: TextMatcher,
}

impl Duplicate for TextMatcher {
    fn duplicate(&self, alloc: Global) -> Result<TextMatcher, NoMemory> {
        match self {
            TextMatcher::Exact(text) => Ok(TextMatcher::Exact(text.duplicate(alloc)?)),
            TextMatcher::Like(pattern) => Ok(TextMatcher::Like(pattern.duplicate(alloc)?)),
        }
    }
}

impl Duplicate for ClaimMatcher {
    fn duplicate(&self, alloc: Global) -> Result<ClaimMatcher, NoMemory> {
        Ok(ClaimMatcher {
            name: self.name,
            text: self.text.duplicate(alloc)?,
        })
    }
}

impl fmt::Display for TextMatcher {
    ghost output = { λ matcher. Some (text_shown matcher) };

    fn fmt<W: fmt::Write>(&self, f: &mut fmt::Formatter<W>) -> fmt::Result {
        match self {
            TextMatcher::Exact(text) => fmt::Display::fmt(text, f),
            TextMatcher::Like(pattern) => write!(f, "like {pattern}"),
        }
    }
}

impl TextMatcher {
    // Whether a text is the one that is asked for, or the whole of it is of the pattern.
    fn matches(&self, alloc: Global, text: &str) -> Result<bool, NoMemory>
        ensures { IfOk result (λ b. b ≡ text_matches self.now text.now) }
    {
        match self {
            TextMatcher::Exact(own) => Ok(own.as_str() == text),
            TextMatcher::Like(pattern) => matches_like(alloc, pattern.as_str(), text),
        }
    }

    /// Whether what is told is asked for. What isn't told matches nothing, not even a pattern of any text.
    pub fn is_matched(&self, alloc: Global, told: Option<&str>) -> Result<bool, NoMemory>
        ensures { IfOk result (λ b. b ≡ is_matched self.now (option_copied told.entry)) }
    {
        match told {
            Some(text) => self.matches(alloc, text),
            None => Ok(false),
        }
    }
}
