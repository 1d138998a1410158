//! Colourings of one and two ranks, driven through their ports by hand.
ghost use Rattle.std.specs.Prelude.{IfOk, length, ◌≡◌, ◌≤◌, ◌∷◌, false, [], replicate};
ghost use Rattle.pg_base.specs.Graph.{IsGraph};
ghost use Rattle.pg_base.specs.Examples.{edge, graph};
ghost use Rattle.pg_group.specs.Entries.{Each};
ghost use Rattle.pg_group.specs.Supersteps.{AreUnmarked};

use super::*;
use pg_adj::{Part, split};
use pg_base::{Edge, EdgeList, RankNo, Ranks};
use pg_cells::CellBody;
use pg_dist::Block;
use pg_group::{Envelope, Mailbox, Next, Polled, Port, Program, Vote, Worked, ports};
use pg_lane::{LaneKind, RingLanes};
use std::alloc::Global;
use std::test::Fail;

type Colours = Vec<Option<u32>>;

const LEFT: RankNo = RankNo(0);

// A rank's colouring at its port.
#[derive(Drop)]
struct Site<M: Mailbox<CellBody>> {
    colouring: Colouring,
    port: M,
    ghost own: { M.own port ≡ colouring.part.rank },
    ghost size: { M.size port ≡ colouring.part.ranks },
    ghost unmarked: { AreUnmarked (M.marks_sent port) },
}

impl<M: Mailbox<CellBody> + Drop> Site<M> {
    // The colouring of the part of this rank.
    fn new(
        alloc: Global,
        part: Part,
        rank: usize,
        ranks: Ranks,
        port: M,
    ) -> Result<Site<M>, &'static str>
        requires own { M.own port ≡ rank }
        requires size { M.size port ≡ ranks }
        requires unmarked { M.marks_sent port ≡ replicate ranks false }
    {
        if part.rank().0 as usize != rank || part.ranks().count() != ranks.count() {
            return Err("another rank's part");
        }
        let colouring = Colouring::new(alloc, part).map_err(|_| "no memory")?;
        Ok(Site { colouring, port })
    }
}

impl<M: Mailbox<CellBody>> Site<M> {
    // One call of `work`.
    fn work(&mut self) -> Result<Worked, &'static str> {
        if self.colouring.cast.is_some() {
            return Err("the vote is cast");
        }
        Ok(self.colouring.work(&mut self.port))
    }

    // Works until no item is left or a lane is full, and answers how many items were done.
    fn work_on(&mut self) -> Result<u32, &'static str> {
        for done in 0..100 {
            if self.work()? != Worked::More {
                return Ok(done);
            }
        }
        Err("no end of work")
    }

    // Handles a body that came from another rank.
    fn handle(&mut self, from: RankNo, body: CellBody) -> Result<(), &'static str> {
        let own = self.colouring.rank();
        if from == own || from.0 >= self.colouring.ranks().count() {
            return Err("no other rank");
        }
        self.colouring.handle(from, body);
        Ok(())
    }

    // The next body of another rank, which is handled, if there is one.
    fn take(&mut self, from: RankNo) -> Result<Option<CellBody>, &'static str> {
        let own = self.colouring.rank();
        if from == own || from.0 >= self.colouring.ranks().count() {
            return Err("no other rank");
        }
        match self.port.poll(from) {
            Polled::Item(body) => {
                self.colouring.handle(from, body);
                Ok(Some(body))
            }
            Polled::Empty => Ok(None),
            Polled::Mark(_) | Polled::Closed => Err("a mark"),
        }
    }

    // Handles all that the other of two ranks has sent, and answers how many bodies that is.
    fn take_all(&mut self, from: RankNo) -> Result<u32, &'static str> {
        for count in 0..100 {
            if self.take(from)?.is_none() {
                return Ok(count);
            }
        }
        Err("no end of bodies")
    }

    fn vote(&mut self) -> Result<Vote, &'static str> {
        if !self.colouring.idle || self.colouring.cast.is_some() {
            return Err("not ready to vote");
        }
        Ok(self.colouring.vote())
    }

    fn round_end(&mut self, votes: &[Vote]) -> Result<Next, &'static str> {
        if self.colouring.ended || votes.len() != self.colouring.ranks().count() as usize {
            return Err("no votes of a round");
        }
        let mine = votes[self.colouring.rank().0 as usize];
        let cast = self.colouring.cast;
        match cast {
            Some(cast) if cast == mine => Ok(self.colouring.round_end(votes)),
            _ => Err("another vote"),
        }
    }

    fn colour(&self, place: u32) -> Result<Option<u32>, &'static str> {
        if place >= self.colouring.part.count() {
            return Err("no such place");
        }
        Ok(self.colouring.colour(place))
    }
}

const fn edge(u: u32, v: u32) -> Edge
    ensures { result ≡ edge u v 1 }
{
    Edge { u, v, w: 1 }
}

// 1 - 2 - 3
// |   |   |
// 4 - 5 - 6
fn mesh(alloc: Global) -> Result<EdgeList, Fail> {
    let edges = vec![in alloc;
        edge(1, 2),
        edge(1, 4),
        edge(2, 3),
        edge(2, 5),
        edge(3, 6),
        edge(4, 5),
        edge(5, 6),
    ]?;
    are_graphs();
    Ok(EdgeList::new(6, edges))
}

// 1 - 3 - 2
fn path(alloc: Global) -> Result<EdgeList, Fail> {
    let edges = vec![in alloc; edge(1, 3), edge(2, 3)]?;
    are_graphs();
    Ok(EdgeList::new(3, edges))
}

// Vertex 1 is joined to all others.
fn star(alloc: Global) -> Result<EdgeList, Fail> {
    let edges = vec![in alloc; edge(1, 2), edge(1, 3), edge(1, 4)]?;
    are_graphs();
    Ok(EdgeList::new(4, edges))
}

// Vertices 1, 2 and 3 are joined two by two.
fn triangle(alloc: Global) -> Result<EdgeList, Fail> {
    let edges = vec![in alloc; edge(1, 2), edge(1, 3), edge(2, 3)]?;
    are_graphs();
    Ok(EdgeList::new(3, edges))
}

// The edges above are those of graphs.
fn are_graphs()
    ensures mesh { IsGraph (graph 6 (edge 1 2 1 ∷ edge 1 4 1 ∷ edge 2 3 1 ∷ edge 2 5 1 ∷ edge 3 6 1 ∷ edge 4 5 1 ∷ edge 5 6 1 ∷ [])) }
    ensures path { IsGraph (graph 3 (edge 1 3 1 ∷ edge 2 3 1 ∷ [])) }
    ensures triangle { IsGraph (graph 3 (edge 1 2 1 ∷ edge 1 3 1 ∷ edge 2 3 1 ∷ [])) }
    ensures star { IsGraph (graph 4 (edge 1 2 1 ∷ edge 1 3 1 ∷ edge 1 4 1 ∷ [])) }
{}

// The parts of a graph in blocks.
fn parts(alloc: Global, graph: &EdgeList, ranks: Ranks) -> Result<Vec<Part>, &'static str> {
    split(alloc, graph, &Block::new(graph.n(), ranks)).map_err(|_| "no memory")
}

// The colourings of these parts, at the mailboxes of their ranks.
fn seated<M: Mailbox<CellBody> + Drop>(
    alloc: Global,
    parts: Vec<Part>,
    mailboxes: Vec<M>,
    ranks: Ranks,
) -> Result<Vec<Site<M>>, Fail>
    requires own { Each (λ rank m. M.own m ≡ rank) mailboxes.items }
    requires size { Each (λ rank m. M.size m ≡ ranks) mailboxes.items }
    requires unmarked { Each (λ rank m. M.marks_sent m ≡ replicate ranks false) mailboxes.items }
{
    let mut parts = parts;
    parts.reverse();
    let mut sites = Vec::new(alloc);
    for mailbox in mailboxes {
        let part = parts.pop().ok_or("no part")?;
        let rank = sites.len();
        sites.push(Site::new(alloc, part, rank, ranks, mailbox)?)?;
    }
    Ok(sites)
}

// The colourings of so many ranks over the blocks of a graph.
fn sites<K: LaneKind<Envelope<CellBody>>>(
    token: &K::Token,
    alloc: Global,
    graph: &EdgeList,
    count: u32,
    capacity: u32,
) -> Result<Vec<Site<Port<CellBody, K>>>, Fail>
    requires at_least { 1 ≤ capacity }
    requires at_most { capacity ≤ 1024 }
    ensures { IfOk result (λ sites. length sites.items ≡ count) }
{
    let ranks = Ranks::new(count).ok_or("no number of ranks")?;
    let parts = parts(alloc, graph, ranks)?;
    let group = ports::<CellBody, K>(token, alloc, ranks, capacity)?;
    let sites = seated(alloc, parts, group, ranks)?;
    if sites.len() != count as usize {
        Err("not one site for each rank")?;
    }
    Ok(sites)
}

// The work of a round of one or two ranks: each works and handles what the other sent, until nothing is left. Answers
// how many items were done.
fn work_round<M: Mailbox<CellBody>>(sites: &mut [Site<M>]) -> Result<u32, &'static str> {
    let mut done: u32 = 0;
    for _ in 0..100 {
        let more = work_each(sites)?;
        if more == 0 {
            return Ok(done);
        }
        done = done.saturating_add(more);
    }
    Err("no end of a round")
}

// How many items were done.
fn work_each<M: Mailbox<CellBody>>(sites: &mut [Site<M>]) -> Result<u32, &'static str> {
    let mut done: u32 = 0;
    for k in 0..sites.len() {
        done = done.saturating_add(sites[k].work_on()?);
        if sites.len() == 2 {
            sites[k].take_all(RankNo(1 - k as u32))?;
        }
    }
    Ok(done)
}

// The end of a round. Answers whether it was the last.
fn end_round<M: Mailbox<CellBody>>(alloc: Global, sites: &mut [Site<M>]) -> Result<bool, Fail> {
    let mut votes = Vec::with_capacity(alloc, sites.len())?;
    for k in 0..sites.len() {
        votes.push(sites[k].vote()?)?;
    }
    let mut stops = true;
    for k in 0..sites.len() {
        stops &= sites[k].round_end(&votes)? == Next::Stop;
    }
    Ok(stops)
}

// Rounds up to the last. Answers how many items were done in each.
fn run<M: Mailbox<CellBody>>(alloc: Global, sites: &mut [Site<M>]) -> Result<Vec<u32>, Fail> {
    let mut done = Vec::new(alloc);
    for _ in 0..100 {
        done.push(work_round(sites)?)?;
        if end_round(alloc, sites)? {
            return Ok(done);
        }
    }
    Err("no end of rounds".into())
}

// The colours of all vertices, rank after rank.
fn colours<M: Mailbox<CellBody>>(alloc: Global, sites: &[Site<M>]) -> Result<Colours, Fail> {
    let mut colours = Vec::new(alloc);
    for site in sites {
        for place in 0..site.colouring.part.count() {
            colours.push(site.colour(place)?)?;
        }
    }
    Ok(colours)
}

// Whether these are the colours of a graph by one rank or two, after a whole run.
fn are_colours(
    alloc: Global,
    graph: &EdgeList,
    count: u32,
    capacity: u32,
    expected: &[Option<u32>],
) -> Result<bool, Fail>
    requires at_least { 1 ≤ capacity }
    requires at_most { capacity ≤ 1024 }
{
    let mut sites = sites::<RingLanes>(&(), alloc, graph, count, capacity)?;
    run(alloc, &mut sites)?;
    Ok(colours(alloc, &sites)?.as_slice() == expected)
}

#[test]
fn one_rank_colours_a_path_by_first_fit(rt: HostRuntime) -> Result<(), Fail> {
    let alloc = rt.alloc();
    let expected = [Some(0), Some(0), Some(1)];
    assert!(rt; are_colours(alloc, &path(alloc)?, 1, 1, &expected)?);
    Ok(())
}

#[test]
fn one_rank_colours_a_triangle_by_first_fit(rt: HostRuntime) -> Result<(), Fail> {
    let alloc = rt.alloc();
    let expected = [Some(0), Some(1), Some(2)];
    assert!(rt; are_colours(alloc, &triangle(alloc)?, 1, 1, &expected)?);
    Ok(())
}

#[test]
fn one_rank_colours_a_star_by_first_fit(rt: HostRuntime) -> Result<(), Fail> {
    let alloc = rt.alloc();
    let expected = [Some(0), Some(1), Some(1), Some(1)];
    assert!(rt; are_colours(alloc, &star(alloc)?, 1, 1, &expected)?);
    Ok(())
}

#[test]
fn a_vertex_that_clashes_with_a_lesser_one_is_coloured_twice(rt: HostRuntime) -> Result<(), Fail> {
    let alloc = rt.alloc();
    // Vertices 1 and 2 are the first rank's. 3 gets colour 0 as they do, and goes through its list again.
    let mut sites = sites::<RingLanes>(&(), alloc, &path(alloc)?, 2, 1)?;
    assert_eq!(rt;
        run(alloc, &mut sites)?.as_slice(),
        [3, 3, 1, 3, 0].as_slice()
    );
    let expected = [Some(0), Some(0), Some(1)];
    assert_eq!(rt; colours(alloc, &sites)?.as_slice(), expected.as_slice());
    Ok(())
}

#[test]
fn two_ranks_colour_a_mesh_with_lanes_of_one_message(rt: HostRuntime) -> Result<(), Fail> {
    let alloc = rt.alloc();
    // 4, 5 and 6 clash with 1, 2 and 3. Then 4 differs from 1 and 5, 5 from 2, 4 and 6, and 6 from 3 and 5.
    let expected = [Some(0), Some(1), Some(0), Some(2), Some(3), Some(1)];
    assert!(rt; are_colours(alloc, &mesh(alloc)?, 2, 1, &expected)?);
    Ok(())
}

#[test]
fn two_ranks_colour_a_mesh_with_wide_lanes(rt: HostRuntime) -> Result<(), Fail> {
    let alloc = rt.alloc();
    let expected = [Some(0), Some(1), Some(0), Some(2), Some(3), Some(1)];
    assert!(rt; are_colours(alloc, &mesh(alloc)?, 2, 64, &expected)?);
    Ok(())
}

#[test]
fn two_ranks_without_edges_need_one_pass(rt: HostRuntime) -> Result<(), Fail> {
    let alloc = rt.alloc();
    let graph = EdgeList::new(3, Vec::new(alloc));
    let mut sites = sites::<RingLanes>(&(), alloc, &graph, 2, 1)?;
    assert_eq!(rt; run(alloc, &mut sites)?.as_slice(), [3, 0, 0].as_slice());
    let expected = [Some(0), Some(0), Some(0)];
    assert_eq!(rt; colours(alloc, &sites)?.as_slice(), expected.as_slice());
    Ok(())
}

#[test]
fn a_graph_without_vertices_ends_with_its_first_round(rt: HostRuntime) -> Result<(), Fail> {
    let alloc = rt.alloc();
    let graph = EdgeList::new(0, Vec::new(alloc));
    let mut sites = sites::<RingLanes>(&(), alloc, &graph, 2, 1)?;
    assert_eq!(rt; run(alloc, &mut sites)?.as_slice(), [0].as_slice());
    Ok(())
}

#[test]
fn a_put_from_another_rank_changes_no_colour(rt: HostRuntime) -> Result<(), Fail> {
    let alloc = rt.alloc();
    let mut sites = sites::<RingLanes>(&(), alloc, &path(alloc)?, 2, 1)?;
    let put = CellBody::Put { place: 0, value: 7 };
    let right = sites.get_mut(1).ok_or("no second site")?;
    right.handle(LEFT, put)?;
    assert_eq!(rt; right.colour(0)?, None);
    Ok(())
}
