// A repository that answers what it was made to answer.
ghost use Rattle.std.specs.Prelude.{◌≡◌, ◌≤◌, drop};
ghost use Rattle.foundation.specs.Watched.{Rose, untold};
ghost use Rattle.sigstore_tuf_outside.specs.Repository.{Fetches, FailsOnly, WithinLimit, metadata_files, target_files};
ghost use Rattle.tuf_tests.specs.Lying.{next_reply, answer_of, faults_after};

use sigstore_tuf_outside::{FetchFault, Repository};
use sigstore_types_parts::Bytes;
use std::alloc::Global;
use std::collections::VecDeque;

/// What a lying repository answers to one fetch.
#[derive(Debug, PartialEq, Eq, Drop)]
pub enum Reply {
    /// These bytes are there.
    File(Bytes),
    /// Nothing is there.
    Absent,
    /// The call fails.
    Failed,
}

/// A repository that gives one reply after the other, whatever is asked, and then has nothing; it tells
/// nothing. So a caller is tried whose repository changes between two calls, or answers with another file.
#[derive(Drop)]
pub struct LyingRepository {
    replies: VecDeque<Reply>,
    faults: u64,
}

impl LyingRepository {
    /// The repository with these replies, one to each fetch; takes no memory.
    pub fn new(replies: Vec<Reply>) -> LyingRepository
        ensures replies { result.replies.items ≡ replies.items }
        ensures faults { result.faults ≡ 0 }
    {
        LyingRepository {
            replies: VecDeque::from_vec(replies),
            faults: 0,
        }
    }

    // The next reply as an answer; a failure is counted.
    fn reply(&mut self, max: u64) -> Result<Option<Bytes>, FetchFault>
        ensures later { self.old.faults ≤ self.new.faults }
        ensures failed { FailsOnly (Rose self.old.faults self.new.faults) result }
        ensures limit { WithinLimit max result }
        ensures answers { result ≡ answer_of (next_reply self.old.replies.items) max }
        ensures rest { self.new.replies.items ≡ drop 1 self.old.replies.items }
        ensures faults { self.new.faults ≡ faults_after (next_reply self.old.replies.items) self.old.faults }
    {
        match self.replies.pop_front() {
            Some(Reply::File(bytes)) => {
                let seen = bytes.as_bytes().len() as u64;
                if seen > max {
                    return Err(FetchFault::TooLong { seen });
                }
                Ok(Some(bytes))
            }
            Some(Reply::Failed) => {
                self.faults = self.faults.saturating_add(1);
                Err(FetchFault::Failed)
            }
            Some(Reply::Absent) => Ok(None),
            None => Ok(None),
        }
    }
}

impl Repository for LyingRepository {
    ghost seen = { λ r. untold r.faults };

    fn fetch_metadata(
        &mut self,
        _alloc: Global,
        name: &str,
        max: u64,
    ) -> Result<Option<Bytes>, FetchFault>
        ensures fetches { Fetches metadata_files (untold self.old.faults) (untold self.new.faults) name.now max result }
        ensures answers { result ≡ answer_of (next_reply self.old.replies.items) max }
        ensures rest { self.new.replies.items ≡ drop 1 self.old.replies.items }
        ensures faults { self.new.faults ≡ faults_after (next_reply self.old.replies.items) self.old.faults }
    {
        self.reply(max)
    }

    fn fetch_target(
        &mut self,
        _alloc: Global,
        path: &str,
        max: u64,
    ) -> Result<Option<Bytes>, FetchFault>
        ensures fetches { Fetches target_files (untold self.old.faults) (untold self.new.faults) path.now max result }
        ensures answers { result ≡ answer_of (next_reply self.old.replies.items) max }
        ensures rest { self.new.replies.items ≡ drop 1 self.old.replies.items }
        ensures faults { self.new.faults ≡ faults_after (next_reply self.old.replies.items) self.old.faults }
    {
        self.reply(max)
    }
}
