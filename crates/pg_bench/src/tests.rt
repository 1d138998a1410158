//! Whole runs over several ranks: pairs of rolls, relaxations, a forest and a colouring.
ghost use Rattle.std.specs.Prelude.{◌≡◌, ◌≤◌, All, IfOk, length};
ghost use Rattle.pg_group.specs.Entries.{Each};
ghost use Rattle.pg_bench.specs.Divisions.{AreInOrder, HasEdgesBelow};

use crate::agendas::{ByBucket, ByLevel};
use crate::chosen::{colour_count, edge_count};
use crate::counted::item_count;
use crate::groups::group_of;
use crate::makers::{Colourings, Forests, Relaxations};
use crate::sites::blocks;
use crate::totals::ghost_count;
use crate::traffic::message_count;
use pg_adj::Part;
use pg_agenda::{Buckets, Levels};
use pg_base::{Edge, EdgeList, OpenGate, OutOfMemory, RankNo, Ranks, laws};
use pg_boruvka::Dense;
use pg_colour::Colouring;
use pg_group::{Program, Roll};
use pg_label::{Hops, Weight};
use pg_lane::RingLanes;
use pg_relax::Relax;
use pg_run::{Turn, assemble, drive, run};
use pg_triggers::Pair;
use std::alloc::{AllocGlobal, Global};
use std::num::NonZeroU32;
use std::test::Fail;
use std::thread::Threads;

type Rolls = Pair<Roll, Roll>;

type Lanes = RingLanes;

// For each rank of a group a roll of one round with a roll of two.
fn pairs(alloc: Global, ranks: Ranks) -> Result<Vec<Rolls>, OutOfMemory>
    ensures count { IfOk result (λ pairs. length pairs.items ≡ ranks) }
    ensures new { IfOk result (λ pairs. Each (λ rank p. ⟦<Rolls as Program>⟧.IsNew p) pairs.items) }
    ensures own { IfOk result (λ pairs. Each (λ rank p. ⟦<Rolls as Program>⟧.own p ≡ rank) pairs.items) }
    ensures size { IfOk result (λ pairs. Each (λ rank p. ⟦<Rolls as Program>⟧.size p ≡ ranks) pairs.items) }
{
    let mut pairs = Vec::new(alloc);
    for rank in 0..ranks.count() {
        let first = Roll::new(RankNo(rank), ranks, 1);
        let second = Roll::new(RankNo(rank), ranks, 2);
        let Ok(()) = pairs.push(Pair::new(first, second)) else {
            return Err(OutOfMemory);
        };
    }
    Ok(pairs)
}

#[test]
fn each_lane_of_two_ranks_has_three_items_and_two_marks(rt: HostRuntime) -> Result<(), Fail> {
    let ranks = Ranks::new(2).ok_or("no number of ranks")?;
    let programs = pairs(rt.alloc(), ranks)?;
    let group = assemble::<Rolls, Lanes>(&(), rt.alloc(), programs, 4)?;
    let finished = run(&rt, group, 1, &OpenGate);
    assert_eq!(rt; finished.programs.len(), 2);
    for program in &finished.programs {
        assert_eq!(rt; program.first().taken(), 1);
        assert_eq!(rt; program.second().taken(), 2);
    }
    assert_eq!(rt; finished.lanes.len(), 2);
    for lane in &finished.lanes {
        assert_eq!(rt; lane.pushed(), 5);
        assert_eq!(rt; lane.left(), 0);
    }
    Ok(())
}

#[test]
fn a_pair_of_three_ranks_takes_what_the_two_others_send(rt: HostRuntime) -> Result<(), Fail> {
    let ranks = Ranks::new(3).ok_or("no number of ranks")?;
    let programs = pairs(rt.alloc(), ranks)?;
    let group = assemble::<Rolls, Lanes>(&(), rt.alloc(), programs, 1)?;
    let finished = run(&rt, group, 1, &OpenGate);
    for program in &finished.programs {
        assert_eq!(rt; program.first().taken(), 2);
        assert_eq!(rt; program.second().taken(), 4);
    }
    assert_eq!(rt; finished.lanes.len(), 6);
    for lane in &finished.lanes {
        assert_eq!(rt; lane.pushed(), 5);
        assert_eq!(rt; lane.left(), 0);
    }
    Ok(())
}

#[test]
fn a_pair_on_one_rank_ends_without_lanes(rt: HostRuntime) -> Result<(), Fail> {
    let ranks = Ranks::new(1).ok_or("no number of ranks")?;
    let programs = pairs(rt.alloc(), ranks)?;
    let mut group = assemble::<Rolls, Lanes>(&(), rt.alloc(), programs, 1)?;
    let machine = group.machines().first_mut().ok_or("no machine")?;
    assert_eq!(rt; machine.turn(), Turn::Moved);
    assert_eq!(rt; machine.turn(), Turn::Done);
    assert_eq!(rt; machine.turn(), Turn::Done);
    drive(&rt, group.machines(), &OpenGate);
    let machine = group.machines().first_mut().ok_or("no machine")?;
    assert_eq!(rt; machine.turn(), Turn::Done);
    assert_eq!(rt; machine.next_turn(), 3);
    Ok(())
}

#[test]
fn a_search_of_a_path_over_two_ranks_offers_once_to_each_ghost(
    rt: HostRuntime,
) -> Result<(), Fail> {
    let parts = path_parts(&rt)?;
    assert_eq!(rt; ghost_count(&parts), 2);
    let maker = Relaxations {
        label: Hops { source: 1 },
        agendas: ByLevel,
    };
    let group = group_of::<Relax<Hops, Levels>, _>(rt.alloc(), parts, &maker)?;
    let finished = run(&rt, group, 2, &OpenGate);
    assert_eq!(rt; item_count(&finished.programs), 2);
    assert!(rt; message_count(&finished.lanes) > 2);
    Ok(())
}

#[test]
fn least_weights_of_a_path_over_two_ranks_offer_once_to_each_ghost(
    rt: HostRuntime,
) -> Result<(), Fail> {
    let parts = path_parts(&rt)?;
    let maker = Relaxations {
        label: Weight { source: 1 },
        agendas: ByBucket { delta: 4 },
    };
    let group = group_of::<Relax<Weight, Buckets>, _>(rt.alloc(), parts, &maker)?;
    let finished = run(&rt, group, 1, &OpenGate);
    assert_eq!(rt; item_count(&finished.programs), 2);
    Ok(())
}

#[test]
fn a_forest_of_a_path_over_two_ranks_has_its_edges(rt: HostRuntime) -> Result<(), Fail> {
    let parts = path_parts(&rt)?;
    let group = group_of::<Dense, _>(rt.alloc(), parts, &Forests { edges: 2 })?;
    let finished = run(&rt, group, 2, &OpenGate);
    assert_eq!(rt; edge_count(rt.alloc(), &finished.programs)?, 2);
    Ok(())
}

#[test]
fn a_colouring_of_a_path_over_two_ranks_has_two_colours(rt: HostRuntime) -> Result<(), Fail> {
    let parts = path_parts(&rt)?;
    let group = group_of::<Colouring, _>(rt.alloc(), parts, &Colourings)?;
    let finished = run(&rt, group, 2, &OpenGate);
    assert_eq!(rt; colour_count(&finished.programs), 2);
    Ok(())
}

// The parts of the path 1, 2, 3 beside a vertex of its own, in blocks of two ranks.
fn path_parts<W: Threads + Sync + AllocGlobal>(rt: &W) -> Result<Vec<Part>, Fail>
    ensures count { IfOk result (λ parts. length parts.items ≡ 2) }
    ensures order { IfOk result (λ parts. AreInOrder parts.items) }
    ensures edges { IfOk result (λ parts. All (HasEdgesBelow 2) parts.items) }
{
    let first = Edge { u: 1, v: 2, w: 5 };
    let second = Edge { u: 2, v: 3, w: 2 };
    let edges = vec![in rt.alloc(); first, second]?;
    laws::graphs();
    let graph = EdgeList::new(4, edges);
    let ranks = Ranks::new(2).ok_or("no number of ranks")?;
    Ok(blocks(rt, rt.alloc(), NonZeroU32::MIN, &graph, ranks)?)
}
