//! What the ranks agree on by their votes: a bucket and its phase.
ghost use Rattle.std.specs.Prelude.{◌≡◌, ◌<◌, min};
ghost use Rattle.std.specs.List.{fold, list_any};
ghost use Rattle.pg_agenda.specs.Shares.{NONE};
ghost use Rattle.pg_agenda.specs.BucketPhases.{least_vote, has_sent, has_heavy, next_agreement};

use crate::NONE;
use pg_group::Vote;

/// What all ranks agreed on: a bucket, and whether its light arcs are relaxed, or the heavy arcs of all places that are
/// pending for them.
#[derive(Clone, Copy, Debug, PartialEq, Eq)]
pub(crate) struct Agreement {
    pub(crate) bucket: u64,
    pub(crate) light: bool,
}

impl Agreement {
    /// The agreement after these votes, one of each rank.
    pub(crate) fn after(self, votes: &[Vote]) -> Agreement
        ensures next { result ≡ next_agreement votes.now self }
        ensures below { self.bucket < NONE → result.bucket < NONE }
    {
        let least = least_bucket(votes);
        if is_sent(votes) || (least != NONE && least <= self.bucket) {
            Agreement {
                bucket: least.min(self.bucket),
                light: true,
            }
        } else if is_heavy(votes) {
            Agreement {
                bucket: self.bucket,
                light: false,
            }
        } else if least != NONE {
            Agreement {
                bucket: least,
                light: true,
            }
        } else {
            self
        }
    }
}

// The least bucket that a vote names, or NONE.
fn least_bucket(votes: &[Vote]) -> u64
    ensures { result ≡ least_vote votes.now }
{
    let mut least = NONE;
    for vote in votes {
        least = least.min(vote.a);
    }
    least
}

// Whether some rank sent a message.
fn is_sent(votes: &[Vote]) -> bool
    ensures { result ≡ has_sent votes.now }
{
    votes.iter().any(|vote| vote.b % 2 == 1)
}

// Whether some rank has a place that is pending for its heavy arcs.
fn is_heavy(votes: &[Vote]) -> bool
    ensures { result ≡ has_heavy votes.now }
{
    votes.iter().any(|vote| vote.b == 2 || vote.b == 3)
}
