//! Groups of programs over the ranks of a divided graph.
ghost use Rattle.std.specs.Prelude.{◌≡◌, ◌≤◌, All, length, map, IfOk};
ghost use Rattle.pg_group.specs.Entries.{Each};
ghost use Rattle.pg_run.specs.Driven.{AreReady};
ghost use Rattle.pg_run.specs.Machines.{machines_of, opening_of, HasRoom};
ghost use Rattle.pg_bench.specs.Counts.{items_taken};
ghost use Rattle.pg_bench.specs.declared.counted.Counted.{Counted};
ghost use Rattle.pg_bench.specs.Divisions.{AreInOrder};
ghost use Rattle.pg_bench.specs.Pairs.{EachPair};

use crate::counted::Counted;
use crate::makers::Maker;
use pg_adj::Part;
use pg_base::OutOfMemory;
use pg_group::Program;
use pg_lane::RingLanes;
use pg_run::{Group, assemble};
use std::alloc::Global;

// How many messages a lane holds, as in a run of `pbgl` where no word says it.
const CAPACITY: u32 = 1024;

/// New programs of the parts, in their order, that count their items, ready to run.
pub fn group_of<P: Program + Send + Drop, M: Maker<P>>(
    alloc: Global,
    parts: Vec<Part>,
    maker: &M,
) -> Result<Group<Counted<P>, RingLanes>, OutOfMemory>
    requires at_least_one { 1 ≤ length parts.items }
    requires at_most { length parts.items ≤ 32 }
    requires order { AreInOrder parts.items }
    requires takes { All (λ part. M.Takes maker.now part) parts.items }
    ensures ready { IfOk result (λ group. AreReady (machines_of group)) }
    ensures room { IfOk result (λ group. HasRoom group) }
    ensures count { IfOk result (λ group. length (machines_of group) ≡ length parts.items) }
    ensures is_of { IfOk result (λ group. EachPair (λ part (p : Counted P). M.IsOf maker.now part p.program) parts.items (map opening_of (machines_of group))) }
{
    let programs = programs_of(alloc, parts, maker)?;
    let group = assemble::<Counted<P>, RingLanes>(&(), alloc, programs, CAPACITY)?;
    Ok(group)
}

// New programs of the parts, in their order, that count their items.
fn programs_of<P: Program + Send + Drop, M: Maker<P>>(
    alloc: Global,
    parts: Vec<Part>,
    maker: &M,
) -> Result<Vec<Counted<P>>, OutOfMemory>
    requires { All (λ part. M.Takes maker.now part) parts.items }
    ensures count { IfOk result (λ programs. length programs.items ≡ length parts.items) }
    ensures new { IfOk result (λ programs. Each (λ rank p. P.IsNew p.program × (items_taken p ≡ 0)) programs.items) }
    ensures own { IfOk result (λ programs. EachPair (λ part p. P.own p.program ≡ part.rank) parts.items programs.items) }
    ensures size { IfOk result (λ programs. EachPair (λ part p. P.size p.program ≡ part.ranks) parts.items programs.items) }
    ensures is_of { IfOk result (λ programs. EachPair (λ part p. M.IsOf maker.now part p.program) parts.items programs.items) }
{
    let mut programs = Vec::new(alloc);
    for part in parts {
        let program = maker.make(alloc, part)?;
        let Ok(()) = programs.push(Counted::new(program)) else {
            return Err(OutOfMemory);
        };
    }
    Ok(programs)
}
