//! Maps of two and three ranks, driven through their ports by hand.
ghost use Rattle.std.specs.Prelude.{◌≡◌, ◌≤◌, ◌∷◌, [], All, IfOk, length};
ghost use Rattle.pg_base.specs.Graph.{IsGraph};
ghost use Rattle.pg_base.specs.Examples.{edge, graph};
ghost use Rattle.pg_group.specs.Entries.{Each};
ghost use Rattle.pg_group.specs.Ranked.{IsOther};
ghost use Rattle.pg_group.specs.Supersteps.{AreUnmarked};

use pg_adj::{Part, split};
use pg_base::{Edge, EdgeList, RankNo, Ranks, Vertex};
use pg_cells::*;
use pg_dist::Block;
use pg_group::{Envelope, Mailbox, Polled, Port, Worked, ports};
use pg_lane::{LaneKind, RingLanes};
use std::alloc::Global;
use std::process::Abort;
use std::test::Fail;

type Lanes = RingLanes;

type Values = Vec<Option<u64>>;

const FIRST: Vertex = Vertex(1);

// What a cell holds at first where the least value wins.
const START: u64 = u64::MAX;

// The least value wins, and a cell starts at this one.
#[derive(Clone, Copy, Debug)]
struct LeastFrom {
    start: u64,
}

impl Resolver for LeastFrom {
    ghost use Rattle.pg_cells.specs.Joins.{min-assoc};
    ghost use Rattle.std.specs.Prelude.{min};

    ghost start = { λ r _. r.start };

    ghost join = { λ _ old new. min old new };

    ghost associative = { λ _ a b c. min-assoc a b c };

    fn start(&self, _v: Vertex) -> u64 {
        self.start
    }

    fn join(&self, old: u64, new: u64) -> u64 {
        old.min(new)
    }
}

// A rank's map at its port.
#[derive(Drop)]
struct Site<R, M: Mailbox<CellBody>> {
    rank: RankNo,
    ranks: Ranks,
    cells: Cells<R>,
    port: M,
    ghost part_rank: { cells.part.value.rank ≡ rank.0 },
    ghost part_ranks: { cells.part.value.ranks ≡ ranks },
    ghost own: { M.own port ≡ rank.0 },
    ghost size: { M.size port ≡ ranks },
    ghost unmarked: { AreUnmarked (M.marks_sent port) },
}

impl<R: Resolver, M: Mailbox<CellBody> + Drop> Site<R, M> {
    // The map over the part of this rank.
    fn new(
        alloc: Global,
        part: &Part,
        rank: RankNo,
        port: M,
        resolver: R,
        flags: Flags,
    ) -> Result<Site<R, M>, &'static str>
        requires own { M.own port ≡ rank.0 }
        requires size { M.size port ≡ part.now.ranks }
        requires unmarked { AreUnmarked (M.marks_sent port) }
    {
        if part.rank() != rank {
            return Err("another rank's part");
        }
        let cells = Cells::new(alloc, part, resolver, flags).map_err(|_| "no memory")?;
        Ok(Site {
            rank,
            ranks: part.ranks(),
            cells,
            port,
        })
    }
}

impl<R: Resolver, M: Mailbox<CellBody>> Site<R, M> {
    // Puts a value, if that may be.
    fn put(&mut self, v: Vertex, x: u64) -> Result<(), &'static str> {
        if !self.cells.knows(v) || self.cells.phase() != Phase::Filling {
            return Err("nothing may be put there now");
        }
        self.cells.put(v, x);
        Ok(())
    }

    // The value of a vertex, if it has a cell here.
    fn get(&self, v: Vertex) -> Result<Option<u64>, &'static str> {
        if !self.cells.knows(v) {
            return Err("no cell of this vertex");
        }
        Ok(self.cells.get(v))
    }

    // Begins a synchronize.
    fn close(&mut self) -> Result<(), &'static str> {
        if self.cells.phase() != Phase::Filling {
            return Err("closed before");
        }
        self.cells.close();
        Ok(())
    }

    // Sends all that is left, and answers how many bodies that is.
    fn send_all(&mut self) -> Result<u32, &'static str> {
        for count in 0..100 {
            match self.cells.work(&mut self.port) {
                Worked::More => {}
                Worked::Idle => return Ok(count),
                Worked::Blocked { .. } => return Err("a full lane"),
            }
        }
        Err("no end of sending")
    }

    // Handles all that the other ranks have sent.
    fn take_all(&mut self) -> Result<(), &'static str> {
        for from in 0..self.ranks.count() {
            if from != self.rank.0 {
                self.take_from(RankNo(from))?;
            }
        }
        Ok(())
    }

    // Handles a body that came from another rank.
    fn handle(&mut self, from: RankNo, body: CellBody) {
        self.cells.handle(from, body);
    }

    // Ends a round, and answers whether a synchronize has ended.
    fn end_round(&mut self) -> Result<bool, &'static str> {
        if self.cells.work(&mut self.port) != Worked::Idle {
            return Err("something is left");
        }
        Ok(self.cells.end_round())
    }

    // Handles all that another rank has sent.
    fn take_from(&mut self, from: RankNo) -> Result<(), &'static str>
        requires { IsOther self.old.rank.0 self.old.ranks from.0 }
        ensures { self.new.ranks ≡ self.old.ranks }
    {
        for _ in 0..100 {
            match self.port.poll(from) {
                Polled::Item(body) => self.cells.handle(from, body),
                Polled::Empty => return Ok(()),
                Polled::Mark(_) | Polled::Closed => return Err("a mark"),
            }
        }
        Err("no end of messages")
    }
}

// One round of all ranks: each sends all that is left, handles what the others sent, and ends the round. Answers
// whether a synchronize has ended with it.
fn round<R: Resolver, M: Mailbox<CellBody>>(
    sites: &mut [Site<R, M>],
) -> Result<bool, &'static str> {
    send_each(sites)?;
    take_each(sites)?;
    let mut ended = true;
    for k in 0..sites.len() {
        ended = sites[k].end_round()? && ended;
    }
    Ok(ended)
}

fn send_each<R: Resolver, M: Mailbox<CellBody>>(
    sites: &mut [Site<R, M>],
) -> Result<(), &'static str> {
    for k in 0..sites.len() {
        sites[k].send_all()?;
    }
    Ok(())
}

fn take_each<R: Resolver, M: Mailbox<CellBody>>(
    sites: &mut [Site<R, M>],
) -> Result<(), &'static str> {
    for k in 0..sites.len() {
        sites[k].take_all()?;
    }
    Ok(())
}

// A synchronize of all ranks.
fn synchronize<R: Resolver, M: Mailbox<CellBody>>(
    sites: &mut [Site<R, M>],
) -> Result<(), &'static str> {
    for k in 0..sites.len() {
        sites[k].close()?;
    }
    if round(sites)? || round(sites)? {
        return Ok(());
    }
    Err("no end of the synchronize")
}

// The value of vertex 1 at each rank.
fn firsts<R: Resolver, M: Mailbox<CellBody>>(
    alloc: Global,
    sites: &[Site<R, M>],
) -> Result<Values, Fail> {
    let mut values = Vec::with_capacity(alloc, sites.len())?;
    for site in sites {
        values.push(site.get(FIRST)?)?;
    }
    Ok(values)
}

// 1 - 2
fn edge_graph(alloc: Global) -> Result<EdgeList, Fail> {
    let edges = vec![in alloc; edge(1, 2, 1)]?;
    are_graphs();
    Ok(EdgeList::new(2, edges))
}

// Vertices 1, 2 and 3 are joined two by two.
fn triangle(alloc: Global) -> Result<EdgeList, Fail> {
    let edges = vec![in alloc; edge(1, 2, 1), edge(1, 3, 1), edge(2, 3, 1)]?;
    are_graphs();
    Ok(EdgeList::new(3, edges))
}

fn edge(u: u32, v: u32, w: u32) -> Edge
    ensures { result ≡ edge u v w }
{
    Edge { u, v, w }
}

// The edges above are those of graphs.
fn are_graphs()
    ensures pair { IsGraph (graph 2 (edge 1 2 1 ∷ [])) }
    ensures triangle { IsGraph (graph 3 (edge 1 2 1 ∷ edge 1 3 1 ∷ edge 2 3 1 ∷ [])) }
{}

// The parts of a graph in blocks.
fn parts(alloc: Global, graph: &EdgeList, ranks: Ranks) -> Result<Vec<Part>, &'static str>
    ensures { IfOk result (λ parts. All (λ p. p.ranks ≡ ranks) parts.items) }
{
    split(alloc, graph, &Block::new(graph.n(), ranks)).map_err(|_| "no memory")
}

// The maps over these parts, at the mailboxes of their ranks.
fn seated<R: Resolver + Copy, M: Mailbox<CellBody> + Drop>(
    alloc: Global,
    parts: &[Part],
    mailboxes: Vec<M>,
    resolver: R,
    flags: Flags,
) -> Result<Vec<Site<R, M>>, Fail>
    requires few { length mailboxes.items ≤ 32 }
    requires own { Each (λ rank m. M.own m ≡ rank) mailboxes.items }
    requires size { Each (λ rank m. All (λ p. p.ranks ≡ M.size m) parts.now) mailboxes.items }
    requires unmarked { Each (λ rank m. AreUnmarked (M.marks_sent m)) mailboxes.items }
{
    let mut sites = Vec::new(alloc);
    for mailbox in mailboxes {
        let rank = sites.len();
        let part = parts.get(rank).ok_or("no part")?;
        let rank = RankNo(rank as u32);
        sites.push(Site::new(alloc, part, rank, mailbox, resolver, flags)?)?;
    }
    Ok(sites)
}

// The maps of so many ranks over the blocks of a graph.
fn sites<R: Resolver + Copy, K: LaneKind<Envelope<CellBody>>>(
    token: &K::Token,
    alloc: Global,
    graph: &EdgeList,
    count: u32,
    resolver: R,
    flags: Flags,
) -> Result<Vec<Site<R, Port<CellBody, K>>>, Fail> {
    let ranks = Ranks::new(count).ok_or("no number of ranks")?;
    let parts = parts(alloc, graph, ranks)?;
    let group = ports::<CellBody, K>(token, alloc, ranks, 64)?;
    seated(alloc, &parts, group, resolver, flags)
}

// The maps of two ranks with a vertex each, which one edge joins.
fn pair<R: Resolver + Copy, K: LaneKind<Envelope<CellBody>>>(
    token: &K::Token,
    alloc: Global,
    resolver: R,
    flags: Flags,
) -> Result<Vec<Site<R, Port<CellBody, K>>>, Fail> {
    let graph = edge_graph(alloc)?;
    sites::<R, K>(token, alloc, &graph, 2, resolver, flags)
}

// The maps of three ranks with a vertex each, all of them joined.
fn trio<R: Resolver + Copy, K: LaneKind<Envelope<CellBody>>>(
    token: &K::Token,
    alloc: Global,
    resolver: R,
    flags: Flags,
) -> Result<Vec<Site<R, Port<CellBody, K>>>, Fail> {
    let graph = triangle(alloc)?;
    sites::<R, K>(token, alloc, &graph, 3, resolver, flags)
}

// Puts a value at a rank.
fn put<R: Resolver, M: Mailbox<CellBody>>(
    sites: &mut [Site<R, M>],
    rank: usize,
    v: Vertex,
    x: u64,
) -> Result<(), &'static str> {
    if rank >= sites.len() {
        return Err("no such rank");
    }
    sites[rank].put(v, x)
}

// A rank handles a body from another one.
fn handle<R: Resolver, M: Mailbox<CellBody>>(
    sites: &mut [Site<R, M>],
    rank: usize,
    from: RankNo,
    body: CellBody,
) -> Result<(), &'static str> {
    if rank >= sites.len() {
        return Err("no such rank");
    }
    sites[rank].handle(from, body);
    Ok(())
}

// The flags of words in the order of `Flags::new`.
fn flags(words: [bool; 5]) -> Result<Flags, BadFlags> {
    let [forward, backward, flush, reset, clear] = words;
    Flags::new(forward, backward, flush, reset, clear)
}

const NONE: [bool; 5] = [false, false, false, false, false];

const FORWARD: [bool; 5] = [true, false, false, false, false];

const FLUSH: [bool; 5] = [false, false, true, false, false];

const RESET: [bool; 5] = [false, false, false, true, false];

const CLEAR: [bool; 5] = [false, false, false, false, true];

#[test]
fn two_ranks_hold_what_the_flags_say_after_a_synchronize(rt: HostRuntime) -> Result<(), Fail> {
    let cases = [
        (Flags::bidirectional(), Some(3), Some(3)),
        (flags(NONE).map_err(|_| "refused flags")?, Some(4), Some(3)),
        (
            flags(RESET).map_err(|_| "refused flags")?,
            Some(4),
            Some(START),
        ),
        (flags(CLEAR).map_err(|_| "refused flags")?, Some(4), None),
    ];
    for (flags, owner, other) in cases {
        let mut sites = pair::<LeastWins, Lanes>(&(), rt.alloc(), LeastWins, flags)?;
        put(&mut sites, 0, FIRST, 4)?;
        put(&mut sites, 1, FIRST, 5)?;
        put(&mut sites, 1, FIRST, 3)?;
        synchronize(&mut sites)?;
        assert_eq!(rt;
            firsts(rt.alloc(), &sites)?.as_slice(),
            [owner, other].as_slice()
        );
    }
    Ok(())
}

#[test]
fn three_ranks_hold_what_each_permitted_combination_says(rt: HostRuntime) -> Result<(), Fail> {
    let cases = [
        // (forward, backward, flush, reset, clear), then vertex 1 at its owner, and at the two ranks that have it as a
        // ghost
        (
            [false, false, false, false, false],
            Some(6),
            Some(3),
            Some(4),
        ),
        (
            [false, false, false, true, false],
            Some(6),
            Some(START),
            Some(START),
        ),
        ([false, false, false, false, true], Some(6), None, None),
        (
            [false, true, false, false, false],
            Some(6),
            Some(6),
            Some(6),
        ),
        (
            [true, false, false, false, false],
            Some(3),
            Some(3),
            Some(4),
        ),
        (
            [true, false, false, true, false],
            Some(3),
            Some(START),
            Some(START),
        ),
        ([true, false, false, false, true], Some(3), None, None),
        ([true, true, false, false, false], Some(3), Some(3), Some(3)),
        (
            [false, false, true, false, false],
            Some(3),
            Some(3),
            Some(4),
        ),
        (
            [false, false, true, true, false],
            Some(3),
            Some(START),
            Some(START),
        ),
        ([false, false, true, false, true], Some(3), None, None),
        ([false, true, true, false, false], Some(3), Some(3), Some(3)),
    ];
    for (words, owner, second, third) in cases {
        let flags = flags(words).map_err(|_| "refused flags")?;
        let mut sites = trio::<LeastWins, Lanes>(&(), rt.alloc(), LeastWins, flags)?;
        put(&mut sites, 0, FIRST, 6)?;
        put(&mut sites, 1, FIRST, 5)?;
        put(&mut sites, 1, FIRST, 3)?;
        put(&mut sites, 2, FIRST, 4)?;
        synchronize(&mut sites)?;
        assert_eq!(rt;
            firsts(rt.alloc(), &sites)?.as_slice(),
            [owner, second, third].as_slice()
        );
    }
    Ok(())
}

#[test]
fn flags_that_contradict_each_other_are_refused(rt: HostRuntime) -> Result<(), Fail> {
    let both = [false, true];
    for (forward, flush) in [(false, false), (false, true), (true, false), (true, true)] {
        for backward in both {
            for (reset, clear) in [(false, false), (false, true), (true, false), (true, true)] {
                let left_to = backward as u32 + reset as u32 + clear as u32;
                let permitted = !(forward && flush) && left_to <= 1;
                assert_eq!(rt;
                    flags([forward, backward, flush, reset, clear]).is_ok(),
                    permitted
                );
            }
        }
    }
    Ok(())
}

#[test]
fn an_own_cell_gets_what_was_put_with_forward_and_the_ghost_with_flush(
    rt: HostRuntime,
) -> Result<(), Fail> {
    for (words, owner) in [(FORWARD, 5), (FLUSH, 1)] {
        let flags = flags(words).map_err(|_| "refused flags")?;
        let mut sites = pair::<LeastWins, Lanes>(&(), rt.alloc(), LeastWins, flags)?;
        handle(
            &mut sites,
            1,
            RankNo(0),
            CellBody::Refresh { slot: 0, value: 1 },
        )?;
        put(&mut sites, 1, FIRST, 5)?;
        synchronize(&mut sites)?;
        assert_eq!(rt;
            firsts(rt.alloc(), &sites)?.as_slice(),
            [Some(owner), Some(1)].as_slice()
        );
    }
    Ok(())
}

#[test]
fn an_emptied_ghost_takes_its_first_put_as_it_is(rt: HostRuntime) -> Result<(), Fail> {
    let flags = flags(CLEAR).map_err(|_| "refused flags")?;
    let mut sites = pair::<LeastFrom, Lanes>(&(), rt.alloc(), LeastFrom { start: 7 }, flags)?;
    put(&mut sites, 1, FIRST, 9)?;
    assert_eq!(rt;
        firsts(rt.alloc(), &sites)?.as_slice(),
        [Some(7), Some(7)].as_slice()
    );
    synchronize(&mut sites)?;
    assert_eq!(rt;
        firsts(rt.alloc(), &sites)?.as_slice(),
        [Some(7), None].as_slice()
    );
    put(&mut sites, 1, FIRST, 9)?;
    assert_eq!(rt;
        firsts(rt.alloc(), &sites)?.as_slice(),
        [Some(7), Some(9)].as_slice()
    );
    Ok(())
}

#[test]
fn a_body_out_of_range_changes_nothing(rt: HostRuntime) -> Result<(), Fail> {
    let flags = flags(NONE).map_err(|_| "refused flags")?;
    let mut sites = pair::<GreatestWins, Lanes>(&(), rt.alloc(), GreatestWins, flags)?;
    handle(
        &mut sites,
        0,
        RankNo(1),
        CellBody::Put { place: 1, value: 5 },
    )?;
    handle(
        &mut sites,
        1,
        RankNo(0),
        CellBody::Refresh {
            slot: u32::MAX,
            value: 5,
        },
    )?;
    assert_eq!(rt;
        firsts(rt.alloc(), &sites)?.as_slice(),
        [Some(0), Some(0)].as_slice()
    );
    handle(
        &mut sites,
        0,
        RankNo(1),
        CellBody::Put { place: 0, value: 5 },
    )?;
    handle(
        &mut sites,
        1,
        RankNo(0),
        CellBody::Refresh { slot: 0, value: 6 },
    )?;
    assert_eq!(rt;
        firsts(rt.alloc(), &sites)?.as_slice(),
        [Some(5), Some(6)].as_slice()
    );
    Ok(())
}

#[test]
fn the_last_value_wins_where_it_should(rt: HostRuntime) -> Result<(), Fail> {
    let flags = Flags::bidirectional();
    let mut sites = pair::<LastWins, Lanes>(&(), rt.alloc(), LastWins { start: 8 }, flags)?;
    assert_eq!(rt;
        firsts(rt.alloc(), &sites)?.as_slice(),
        [Some(8), Some(8)].as_slice()
    );
    put(&mut sites, 0, FIRST, 2)?;
    put(&mut sites, 1, FIRST, 9)?;
    put(&mut sites, 1, FIRST, 4)?;
    synchronize(&mut sites)?;
    assert_eq!(rt;
        firsts(rt.alloc(), &sites)?.as_slice(),
        [Some(4), Some(4)].as_slice()
    );
    Ok(())
}

// A rank sends all that is left, and answers how many bodies that is.
fn send<R: Resolver, M: Mailbox<CellBody>>(
    sites: &mut [Site<R, M>],
    rank: usize,
) -> Result<u32, &'static str> {
    if rank >= sites.len() {
        return Err("no such rank");
    }
    sites[rank].send_all()
}

#[test]
fn several_puts_are_owed_as_one_and_cells_go_to_each_holder_once(
    rt: HostRuntime,
) -> Result<(), Fail> {
    let flags = Flags::bidirectional();
    let mut sites = trio::<LeastWins, Lanes>(&(), rt.alloc(), LeastWins, flags)?;
    put(&mut sites, 1, FIRST, 5)?;
    put(&mut sites, 1, FIRST, 3)?;
    put(&mut sites, 1, Vertex(2), 3)?;
    put(&mut sites, 1, Vertex(3), 3)?;
    assert_eq!(rt; send(&mut sites, 1)?, 2);
    assert_eq!(rt; send(&mut sites, 1)?, 0);
    for site in &mut sites {
        site.close()?;
    }
    assert!(rt; !round(&mut sites)?);
    assert_eq!(rt; send(&mut sites, 0)?, 2);
    assert_eq!(rt; send(&mut sites, 0)?, 0);
    assert!(rt; round(&mut sites)?);
    Ok(())
}

#[test]
fn a_rank_knows_its_own_vertices_and_its_ghosts(rt: HostRuntime) -> Result<(), Fail> {
    let sites = trio::<LeastWins, Lanes>(
        &(),
        rt.alloc(),
        LeastWins,
        flags(NONE).map_err(|_| "refused flags")?,
    )?;
    for site in &sites {
        for v in 0..5 {
            assert_eq!(rt; site.cells.knows(Vertex(v)), 1 <= v && v <= 3);
        }
        assert_eq!(rt; site.cells.phase(), Phase::Filling);
    }
    Ok(())
}

#[test]
fn a_map_of_one_rank_has_no_ghosts_and_sends_nothing(rt: HostRuntime) -> Result<(), Fail> {
    let graph = edge_graph(rt.alloc())?;
    let flags = Flags::bidirectional();
    let mut sites = sites::<LeastWins, Lanes>(&(), rt.alloc(), &graph, 1, LeastWins, flags)?;
    assert_eq!(rt; sites.len(), 1);
    put(&mut sites, 0, FIRST, 7)?;
    assert_eq!(rt; send(&mut sites, 0)?, 0);
    synchronize(&mut sites)?;
    assert_eq!(rt;
        firsts(rt.alloc(), &sites)?.as_slice(),
        [Some(7)].as_slice()
    );
    Ok(())
}
