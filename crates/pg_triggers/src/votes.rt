//! What each member of a pair reads of the pair's votes.
ghost use Rattle.std.specs.Prelude.{◌≡◌, ◌≤◌, length, map, take};
ghost use Rattle.pg_triggers.specs.Mine.{first_vote, second_vote};

use pg_base::MAX_RANKS;
use pg_group::Vote;

const LIMIT: usize = MAX_RANKS as usize;

// A vote of zeros.
pub const ZEROS: Vote = Vote {
    a: 0,
    b: 0,
    c: 0,
    d: 0,
};

// What the first member of a pair reads of these votes.
pub fn first_votes(votes: &[Vote]) -> [Vote; LIMIT]
    requires { length votes.now ≤ 32 }
    ensures { take (length votes.now) result ≡ map first_vote votes.now }
{
    let mut read = [ZEROS; LIMIT];
    for i in 0..votes.len() {
        let vote = votes[i];
        read[i] = Vote {
            a: vote.a,
            b: vote.b,
            c: 0,
            d: 0,
        };
    }
    read
}

// What the second member of a pair reads of these votes.
pub fn second_votes(votes: &[Vote]) -> [Vote; LIMIT]
    requires { length votes.now ≤ 32 }
    ensures { take (length votes.now) result ≡ map second_vote votes.now }
{
    let mut read = [ZEROS; LIMIT];
    for i in 0..votes.len() {
        let vote = votes[i];
        read[i] = Vote {
            a: vote.c,
            b: vote.d,
            c: 0,
            d: 0,
        };
    }
    read
}
