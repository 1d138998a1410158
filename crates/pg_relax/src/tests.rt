//! Searches of one and two ranks, driven through their ports by hand.
ghost use Rattle.std.specs.Prelude.{IfOk, length, ◌≡◌, ◌≤◌, ◌∷◌, false, [], replicate};
ghost use Rattle.pg_base.specs.Graph.{IsGraph};
ghost use Rattle.pg_base.specs.Examples.{edge, graph};
ghost use Rattle.pg_group.specs.Entries.{Each};
ghost use Rattle.pg_group.specs.Supersteps.{AreUnmarked};

use super::*;
use crate::tables::Table;
use pg_adj::{Part, split};
use pg_agenda::Levels;
use pg_base::{Edge, EdgeList, RankNo, Ranks, Vertex};
use pg_dist::Block;
use pg_group::{Envelope, Mailbox, Next, Polled, Port, Program, Vote, Worked, ports};
use pg_label::{Hops, MAX_AMOUNT, MAX_HOPS, Value};
use pg_lane::{LaneKind, RingLanes};
use std::alloc::Global;
use std::test::Fail;

type Search = Relax<Hops, Levels>;

type Values = Vec<Option<Value>>;

const LEFT: RankNo = RankNo(0);

const RIGHT: RankNo = RankNo(1);

// A rank's search at its port.
#[derive(Drop)]
struct Site<M: Mailbox<Offer>> {
    search: Search,
    port: M,
    ghost own: { M.own port ≡ search.part.rank },
    ghost size: { M.size port ≡ search.part.ranks },
    ghost unmarked: { AreUnmarked (M.marks_sent port) },
}

impl<M: Mailbox<Offer> + Drop> Site<M> {
    // The search over the part of this rank from a vertex.
    fn new(
        alloc: Global,
        part: Part,
        rank: usize,
        ranks: Ranks,
        port: M,
        source: u32,
    ) -> Result<Site<M>, &'static str>
        requires own { M.own port ≡ rank }
        requires size { M.size port ≡ ranks }
        requires unmarked { M.marks_sent port ≡ replicate ranks false }
    {
        if part.rank().0 as usize != rank || part.ranks().count() != ranks.count() {
            return Err("another rank's part");
        }
        let levels = Levels::new(alloc, part.count()).map_err(|_| "no memory")?;
        let search = Relax::new(alloc, part, Hops { source }, levels).map_err(|_| "no memory")?;
        Ok(Site { search, port })
    }
}

impl<M: Mailbox<Offer>> Site<M> {
    // One call of `work`.
    fn work(&mut self) -> Result<Worked, &'static str> {
        if self.search.cast.is_some() {
            return Err("the vote is cast");
        }
        Ok(self.search.work(&mut self.port))
    }

    // Works until no item is left or a lane is full.
    fn work_on(&mut self) -> Result<Worked, &'static str> {
        for _ in 0..100 {
            let worked = self.work()?;
            if worked != Worked::More {
                return Ok(worked);
            }
        }
        Err("no end of work")
    }

    // Handles an offer that came from another rank.
    fn handle(&mut self, from: RankNo, offer: Offer) -> Result<(), &'static str> {
        let own = self.search.rank();
        if from == own || from.0 >= self.search.ranks().count() {
            return Err("no other rank");
        }
        self.search.handle(from, offer);
        Ok(())
    }

    // The next offer of another rank, which is handled, if there is one.
    fn take(&mut self, from: RankNo) -> Result<Option<Offer>, &'static str> {
        let own = self.search.rank();
        if from == own || from.0 >= self.search.ranks().count() {
            return Err("no other rank");
        }
        match self.port.poll(from) {
            Polled::Item(offer) => {
                self.search.handle(from, offer);
                Ok(Some(offer))
            }
            Polled::Empty => Ok(None),
            Polled::Mark(_) | Polled::Closed => Err("a mark"),
        }
    }

    // Handles all that the other of two ranks has sent, and answers how many offers that is.
    fn take_all(&mut self, from: RankNo) -> Result<u32, &'static str> {
        for count in 0..100 {
            if self.take(from)?.is_none() {
                return Ok(count);
            }
        }
        Err("no end of offers")
    }

    fn vote(&mut self) -> Result<Vote, &'static str> {
        if !self.search.idle || self.search.cast.is_some() {
            return Err("not ready to vote");
        }
        Ok(self.search.vote())
    }

    fn round_end(&mut self, votes: &[Vote]) -> Result<Next, &'static str> {
        if self.search.ended || votes.len() != self.search.ranks().count() as usize {
            return Err("no votes of a round");
        }
        let mine = votes[self.search.rank().0 as usize];
        let cast = self.search.cast;
        match cast {
            Some(cast) if cast == mine => Ok(self.search.round_end(votes)),
            _ => Err("another vote"),
        }
    }

    fn value(&self, place: u32) -> Result<Option<Value>, &'static str> {
        if place >= self.search.part.count() {
            return Err("no such place");
        }
        Ok(self.search.value(place))
    }
}

const fn edge(u: u32, v: u32) -> Edge
    ensures { result ≡ edge u v 1 }
{
    Edge { u, v, w: 1 }
}

const fn value(amount: u64, hops: u32) -> Value {
    Value {
        class: 0,
        hops,
        amount,
    }
}

// What so many arcs lead to.
fn after(arcs: u32) -> Option<Value> {
    Some(value(arcs as u64, arcs))
}

// 1 - 2 - 3
// |   |   |
// 4 - 5 - 6
fn mesh(alloc: Global) -> Result<EdgeList, Fail> {
    let edges = vec![in alloc;
        edge(1, 2),
        edge(1, 4),
        edge(2, 3),
        edge(2, 5),
        edge(3, 6),
        edge(4, 5),
        edge(5, 6),
    ]?;
    are_graphs();
    Ok(EdgeList::new(6, edges))
}

// Vertex 1 is joined to all others.
fn star(alloc: Global) -> Result<EdgeList, Fail> {
    let edges = vec![in alloc; edge(1, 2), edge(1, 3), edge(1, 4)]?;
    are_graphs();
    Ok(EdgeList::new(4, edges))
}

// Vertices 1, 2 and 3 are joined two by two.
fn triangle(alloc: Global) -> Result<EdgeList, Fail> {
    let edges = vec![in alloc; edge(1, 2), edge(1, 3), edge(2, 3)]?;
    are_graphs();
    Ok(EdgeList::new(4, edges))
}

// The edges above are those of graphs.
fn are_graphs()
    ensures mesh { IsGraph (graph 6 (edge 1 2 1 ∷ edge 1 4 1 ∷ edge 2 3 1 ∷ edge 2 5 1 ∷ edge 3 6 1 ∷ edge 4 5 1 ∷ edge 5 6 1 ∷ [])) }
    ensures triangle { IsGraph (graph 4 (edge 1 2 1 ∷ edge 1 3 1 ∷ edge 2 3 1 ∷ [])) }
    ensures star { IsGraph (graph 4 (edge 1 2 1 ∷ edge 1 3 1 ∷ edge 1 4 1 ∷ [])) }
{}

// The parts of a graph in blocks.
fn parts(alloc: Global, graph: &EdgeList, ranks: Ranks) -> Result<Vec<Part>, &'static str> {
    split(alloc, graph, &Block::new(graph.n(), ranks)).map_err(|_| "no memory")
}

// The searches over these parts, at the mailboxes of their ranks.
fn seated<M: Mailbox<Offer> + Drop>(
    alloc: Global,
    parts: Vec<Part>,
    mailboxes: Vec<M>,
    ranks: Ranks,
    source: u32,
) -> Result<Vec<Site<M>>, Fail>
    requires own { Each (λ rank m. M.own m ≡ rank) mailboxes.items }
    requires size { Each (λ rank m. M.size m ≡ ranks) mailboxes.items }
    requires unmarked { Each (λ rank m. M.marks_sent m ≡ replicate ranks false) mailboxes.items }
{
    let mut parts = parts;
    parts.reverse();
    let mut sites = Vec::new(alloc);
    for mailbox in mailboxes {
        let part = parts.pop().ok_or("no part")?;
        let rank = sites.len();
        sites.push(Site::new(alloc, part, rank, ranks, mailbox, source)?)?;
    }
    Ok(sites)
}

// The searches of so many ranks over the blocks of a graph, from a vertex.
fn sites<K: LaneKind<Envelope<Offer>>>(
    token: &K::Token,
    alloc: Global,
    graph: &EdgeList,
    count: u32,
    capacity: u32,
    source: u32,
) -> Result<Vec<Site<Port<Offer, K>>>, Fail>
    requires at_least { 1 ≤ capacity }
    requires at_most { capacity ≤ 1024 }
    ensures { IfOk result (λ sites. length sites.items ≡ count) }
{
    let ranks = Ranks::new(count).ok_or("no number of ranks")?;
    let parts = parts(alloc, graph, ranks)?;
    let group = ports::<Offer, K>(token, alloc, ranks, capacity)?;
    let sites = seated(alloc, parts, group, ranks, source)?;
    if sites.len() != count as usize {
        Err("not one site for each rank")?;
    }
    Ok(sites)
}

// The work of a round of one or two ranks: each works and handles what the other sent, until nothing is left.
fn work_round<M: Mailbox<Offer>>(sites: &mut [Site<M>]) -> Result<(), &'static str> {
    for _ in 0..100 {
        if !work_each(sites)? {
            return Ok(());
        }
    }
    Err("no end of a round")
}

// Whether something was done.
fn work_each<M: Mailbox<Offer>>(sites: &mut [Site<M>]) -> Result<bool, &'static str> {
    let mut did = false;
    for k in 0..sites.len() {
        did |= sites[k].work_on()? != Worked::Idle;
        if sites.len() == 2 {
            did |= sites[k].take_all(RankNo(1 - k as u32))? > 0;
        }
    }
    Ok(did)
}

// One round of one or two ranks. Answers whether it was the last.
fn round<M: Mailbox<Offer>>(alloc: Global, sites: &mut [Site<M>]) -> Result<bool, Fail> {
    work_round(sites)?;
    let mut votes = Vec::with_capacity(alloc, sites.len())?;
    for k in 0..sites.len() {
        votes.push(sites[k].vote()?)?;
    }
    let mut stops = true;
    for k in 0..sites.len() {
        stops &= sites[k].round_end(&votes)? == Next::Stop;
    }
    Ok(stops)
}

// Rounds up to the last. Answers how many there were.
fn run<M: Mailbox<Offer>>(alloc: Global, sites: &mut [Site<M>]) -> Result<u32, Fail> {
    for before in 0..100 {
        if round(alloc, sites)? {
            return Ok(before + 1);
        }
    }
    Err("no end of rounds".into())
}

// The values of all vertices, rank after rank.
fn values<M: Mailbox<Offer>>(alloc: Global, sites: &[Site<M>]) -> Result<Values, Fail> {
    let mut values = Vec::new(alloc);
    for site in sites {
        for place in 0..site.search.part.count() {
            values.push(site.value(place)?)?;
        }
    }
    Ok(values)
}

#[test]
fn one_rank_finds_the_distances_of_a_mesh(rt: HostRuntime) -> Result<(), Fail> {
    let alloc = rt.alloc();
    let mut sites = sites::<RingLanes>(&(), alloc, &mesh(alloc)?, 1, 1, 1)?;
    let rounds = run(alloc, &mut sites)?;
    assert_eq!(rt; rounds, 4);
    let expected = [after(0), after(1), after(2), after(1), after(2), after(3)];
    assert_eq!(rt; values(alloc, &sites)?.as_slice(), expected.as_slice());
    Ok(())
}

#[test]
fn two_ranks_find_the_distances_that_one_finds(rt: HostRuntime) -> Result<(), Fail> {
    let alloc = rt.alloc();
    let graph = mesh(alloc)?;
    for source in 1..7 {
        let mut one = sites::<RingLanes>(&(), alloc, &graph, 1, 1, source)?;
        run(alloc, &mut one)?;
        for capacity in [1, 2, 64] {
            let mut two = sites::<RingLanes>(&(), alloc, &graph, 2, capacity, source)?;
            run(alloc, &mut two)?;
            assert_eq!(rt;
                values(alloc, &two)?.as_slice(),
                values(alloc, &one)?.as_slice()
            );
        }
    }
    Ok(())
}

#[test]
fn a_vertex_that_no_walk_leads_to_has_no_value(rt: HostRuntime) -> Result<(), Fail> {
    let alloc = rt.alloc();
    let graph = EdgeList::new(3, Vec::new(alloc));
    let mut sites = sites::<RingLanes>(&(), alloc, &graph, 2, 1, 3)?;
    run(alloc, &mut sites)?;
    let expected = [None, None, after(0)];
    assert_eq!(rt; values(alloc, &sites)?.as_slice(), expected.as_slice());
    Ok(())
}

#[test]
fn an_offer_that_comes_while_its_vertex_is_being_relaxed_is_not_lost(
    rt: HostRuntime,
) -> Result<(), Fail> {
    let alloc = rt.alloc();
    let mut sites = sites::<RingLanes>(&(), alloc, &star(alloc)?, 2, 64, 2)?;
    assert!(rt; !round(alloc, &mut sites)?);
    // Vertex 1 is taken up, and offers its value to vertex 3.
    assert_eq!(rt; sites[0].work()?, Worked::More);
    assert_eq!(rt; sites[0].work()?, Worked::More);
    assert!(rt; sites[0].search.ahead.is_some());
    let offer = Offer {
        to: Vertex(1),
        place: 0,
        value: value(0, 5),
    };
    sites[0].handle(RIGHT, offer)?;
    run(alloc, &mut sites)?;
    let lower = Some(value(1, 6));
    let expected = [Some(value(0, 5)), after(0), lower, lower];
    assert_eq!(rt; values(alloc, &sites)?.as_slice(), expected.as_slice());
    Ok(())
}

#[test]
fn an_offer_with_a_wrong_place_or_past_the_limits_changes_nothing(
    rt: HostRuntime,
) -> Result<(), Fail> {
    let alloc = rt.alloc();
    let mut sites = sites::<RingLanes>(&(), alloc, &star(alloc)?, 2, 64, 1)?;
    for (v, place, amount, hops) in [
        (3, 1, 0, 0),
        (3, 2, 0, 0),
        (1, 0, 0, 0),
        (3, u32::MAX, 0, 0),
        (3, 0, MAX_AMOUNT + 1, 0),
        (3, 0, 0, MAX_HOPS + 1),
        (3, 0, u64::MAX, u32::MAX),
    ] {
        let offer = Offer {
            to: Vertex(v),
            place,
            value: value(amount, hops),
        };
        let right = sites.get_mut(1).ok_or("no second site")?;
        right.handle(LEFT, offer)?;
        assert_eq!(rt; right.value(0)?, None);
        assert_eq!(rt; right.value(1)?, None);
    }
    let right = sites.get_mut(1).ok_or("no second site")?;
    assert_eq!(rt; right.work()?, Worked::Idle);
    assert_eq!(rt; sites[1].vote()?.a, u64::MAX);
    Ok(())
}

#[test]
fn a_value_at_the_limits_is_taken(rt: HostRuntime) -> Result<(), Fail> {
    let alloc = rt.alloc();
    let mut sites = sites::<RingLanes>(&(), alloc, &star(alloc)?, 2, 64, 1)?;
    let offer = Offer {
        to: Vertex(3),
        place: 0,
        value: value(MAX_AMOUNT, MAX_HOPS),
    };
    sites[1].handle(LEFT, offer)?;
    assert_eq!(rt; sites[1].value(0)?, Some(offer.value));
    Ok(())
}

#[test]
fn a_full_lane_of_one_message_blocks_until_it_is_emptied(rt: HostRuntime) -> Result<(), Fail> {
    let alloc = rt.alloc();
    let mut sites = sites::<RingLanes>(&(), alloc, &star(alloc)?, 2, 1, 1)?;
    let blocked = Worked::Blocked { to: RIGHT };
    assert_eq!(rt; sites[0].work_on()?, blocked);
    assert_eq!(rt; sites[0].work()?, blocked);
    let first = Offer {
        to: Vertex(3),
        place: 0,
        value: value(1, 1),
    };
    assert_eq!(rt; sites[1].take(LEFT)?, Some(first));
    assert_eq!(rt; sites[1].take(LEFT)?, None);
    assert_eq!(rt; sites[0].work_on()?, Worked::Idle);
    let second = Offer {
        to: Vertex(4),
        place: 1,
        ..first
    };
    assert_eq!(rt; sites[1].take(LEFT)?, Some(second));
    assert!(rt; !round(alloc, &mut sites)?);
    Ok(())
}

#[test]
fn an_offer_no_better_than_one_before_is_not_sent(rt: HostRuntime) -> Result<(), Fail> {
    let alloc = rt.alloc();
    let mut sites = sites::<RingLanes>(&(), alloc, &triangle(alloc)?, 2, 64, 1)?;
    assert_eq!(rt; sites[0].work_on()?, Worked::Idle);
    assert_eq!(rt; sites[1].take_all(LEFT)?, 1);
    assert!(rt; !round(alloc, &mut sites)?);
    // Vertex 2 has an arc to 3 as well, and would offer more.
    assert_eq!(rt; sites[0].work_on()?, Worked::Idle);
    assert_eq!(rt; sites[1].take_all(LEFT)?, 0);
    run(alloc, &mut sites)?;
    let expected = [after(0), after(1), after(1), None];
    assert_eq!(rt; values(alloc, &sites)?.as_slice(), expected.as_slice());
    Ok(())
}

#[test]
fn a_cell_takes_sixteen_bytes(rt: HostRuntime) -> Result<(), Fail> {
    let table = Table::new(rt.alloc(), 3)?;
    assert_eq!(rt; table.value(2), None);
    assert_eq!(rt; size_of::<Value>(), 16);
    Ok(())
}
