//! Sums over the parts of a division.
ghost use Rattle.std.specs.Prelude.{◌≡◌, length};
ghost use Rattle.std.specs.List.{sum_by};
ghost use Rattle.pg_bench.specs.Counts.{capped, arcs_in, cells_in, holders_in};

use pg_adj::Part;

/// How much the ranks have together.
#[derive(Clone, Copy, Debug, PartialEq, Eq)]
pub struct Totals {
    /// The arcs of their own vertices.
    pub arcs: u64,
    /// Their ghosts.
    pub ghosts: u64,
    /// The holders of their own vertices.
    pub holders: u64,
}

impl Totals {
    /// How much these parts have together.
    pub fn of_parts(parts: &[Part]) -> Totals
        ensures arcs { result.arcs ≡ capped (sum_by arcs_in parts.now) }
        ensures ghosts { result.ghosts ≡ capped (sum_by (λ p. length p.ghosts) parts.now) }
        ensures holders { result.holders ≡ capped (sum_by holders_in parts.now) }
    {
        let mut totals = Totals {
            arcs: 0,
            ghosts: 0,
            holders: 0,
        };
        for part in parts {
            totals.arcs = totals.arcs.saturating_add(arc_count(part));
            totals.ghosts = totals.ghosts.saturating_add(part.ghosts().len() as u64);
            totals.holders = totals.holders.saturating_add(holder_count(part));
        }
        totals
    }
}

/// How many cells the maps over these parts have together: one for each own vertex and each ghost.
pub fn cell_count(parts: &[Part]) -> u64
    ensures { result ≡ capped (sum_by cells_in parts.now) }
{
    let mut count = 0u64;
    for part in parts {
        count = count
            .saturating_add(part.count() as u64)
            .saturating_add(part.ghosts().len() as u64);
    }
    count
}

/// How many ghosts these parts have together.
pub fn ghost_count(parts: &[Part]) -> u64
    ensures { result ≡ capped (sum_by (λ p. length p.ghosts) parts.now) }
{
    let mut count = 0u64;
    for part in parts {
        count = count.saturating_add(part.ghosts().len() as u64);
    }
    count
}

// How many arcs the places of a part have.
fn arc_count(part: &Part) -> u64
    ensures { result ≡ capped (arcs_in part.now) }
{
    let mut count = 0u64;
    for i in 0..part.count() {
        count = count.saturating_add(part.arcs(i).len() as u64);
    }
    count
}

// How many holders the places of a part have.
fn holder_count(part: &Part) -> u64
    ensures { result ≡ capped (holders_in part.now) }
{
    let mut count = 0u64;
    for i in 0..part.count() {
        count = count.saturating_add(part.holders(i).len() as u64);
    }
    count
}
