// Spans of time in which a key or a certificate is used.
ghost use Rattle.std.specs.Prelude.{◌≡◌};
ghost use Rattle.sigstore_types_parts.specs.TimeRange.{has_started, contains};

use jiff::Timestamp;

/// From a moment on, and to another where it ends; both belong to it (Sigstore's common definitions, TimeRange).
#[derive(Clone, Copy, Debug, PartialEq, Eq, Drop)]
pub struct TimeRange {
    pub start: Timestamp,
    pub end: Option<Timestamp>,
}

impl TimeRange {
    /// The range from a moment on, to another where one is given.
    pub fn new(start: Timestamp, end: Option<Timestamp>) -> TimeRange
        ensures start { result.start ≡ start }
        ensures end { result.end ≡ end }
    {
        TimeRange { start, end }
    }

    /// Whether it has begun by a moment.
    pub fn has_started_by(&self, moment: Timestamp) -> bool
        ensures { result ≡ has_started self.now moment }
    {
        self.start <= moment
    }

    /// Whether a moment lies in it.
    pub fn contains(&self, moment: Timestamp) -> bool
        ensures { result ≡ contains self.now moment }
    {
        if !self.has_started_by(moment) {
            return false;
        }
        match self.end {
            Some(end) => moment <= end,
            None => true,
        }
    }
}
