//! The block rule by which labels are divided among ranks.
ghost use Rattle.std.specs.Prelude.{◌≡◌, ◌+◌, ◌/◌, ◌%◌, ◌<◌, ◌≤◌};
ghost use Rattle.pg_base.specs.declared.TheConstants.{MAX_VERTICES, MAX_RANKS};
ghost use Rattle.pg_dist.specs.Blocks.{count_of, first_of};

/// The first label of a rank of a group, which has to reduce its keys.
pub(crate) fn first_label(n: u32, ranks: u32, rank: u32) -> u32
    requires few { n ≤ MAX_VERTICES }
    requires rank { rank < ranks }
    ensures value { result ≡ first_of (n / ranks) (n % ranks) rank }
    ensures first { 1 ≤ result }
    ensures within { result + count_of (n / ranks) (n % ranks) rank ≤ n + 1 }
{
    rank * (n / ranks) + rank.min(n % ranks) + 1
}

/// How many labels the rank has.
pub(crate) fn count_labels(n: u32, ranks: u32, rank: u32) -> u32
    requires { rank < ranks }
    ensures { result ≡ count_of (n / ranks) (n % ranks) rank }
{
    if rank < n % ranks {
        n / ranks + 1
    } else {
        n / ranks
    }
}
