//! Property maps of all ranks of a group, driven through their ports by hand: a colouring puts to own cells alone, so
//! that its runs send no value forward that could be measured.
ghost use Rattle.std.specs.Prelude.{◌≡◌, ◌≤◌, All, IfOk, length};
ghost use Rattle.pg_group.specs.Entries.{Each};
ghost use Rattle.pg_group.specs.Ranked.{IsOther};
ghost use Rattle.pg_group.specs.Supersteps.{AreUnmarked};
ghost use Rattle.pg_cells.specs.declared.phases.Phase.TheVariants.{Filling};
ghost use Rattle.pg_adj.specs.Division.{Divided};
ghost use Rattle.pg_bench.specs.Divisions.{HasEdgesBelow};
ghost use Rattle.pg_bench.specs.Pairs.{EachPair};

use pg_adj::{Part, split_on_threads};
use pg_base::{EdgeList, OutOfMemory, RankNo, Ranks};
use pg_cells::{CellBody, Cells, Flags, LeastWins, Phase};
use pg_dist::{Block, Distribution};
use pg_group::{Envelope, Mailbox, Polled, Port, Worked, ports};
use pg_lane::LaneKind;
use std::alloc::Global;
use std::num::NonZeroU32;
use std::thread::Threads;

// How many messages a lane holds.
const CAPACITY: u32 = 1024;

/// The map of one rank at its port.
#[derive(Drop)]
pub struct Site<'a, M: Mailbox<CellBody>> {
    part: &'a Part,
    cells: Cells<LeastWins>,
    port: M,
    ghost same_part: { cells.part.value ≡ part.now },
    ghost own: { M.own port ≡ part.now.rank },
    ghost size: { M.size port ≡ part.now.ranks },
    ghost unmarked: { AreUnmarked (M.marks_sent port) },
}

/// The maps didn't go through a synchronize as they should: one was closed before, a lane held a mark or was closed, a
/// body was left at the end of a round, or two rounds didn't end it.
#[derive(Clone, Copy, Debug, PartialEq, Eq)]
pub struct Astray;

impl<'a, M: Mailbox<CellBody> + Drop> Site<'a, M> {
    // The map over a part, with forward and backward, at the port of its rank.
    fn new(alloc: Global, part: &'a Part, port: M) -> Result<Site<'a, M>, OutOfMemory>
        requires own { M.own port ≡ part.now.rank }
        requires size { M.size port ≡ part.now.ranks }
        requires unmarked { AreUnmarked (M.marks_sent port) }
    {
        let cells = Cells::new(alloc, part, LeastWins, Flags::bidirectional())?;
        Ok(Site { part, cells, port })
    }
}

impl<'a, M: Mailbox<CellBody>> Site<'a, M> {
    // Puts a value to each own vertex and to each ghost, and closes.
    fn fill(&mut self) -> Result<(), Astray> {
        if self.cells.phase() != Phase::Filling {
            return Err(Astray);
        }
        fill_own(&mut self.cells, self.part);
        fill_ghosts(&mut self.cells, self.part);
        self.cells.close();
        Ok(())
    }

    // Sends what is left until a lane is full, and answers whether anything was sent.
    fn send(&mut self) -> bool {
        for count in 0..u32::MAX {
            if self.cells.work(&mut self.port) != Worked::More {
                return count > 0;
            }
        }
        true
    }

    // Handles what the other ranks have sent, and answers whether that was anything.
    fn take(&mut self) -> Result<bool, Astray> {
        let mut taken = false;
        let own = self.part.rank();
        for from in 0..self.part.ranks().count() {
            if from != own.0 {
                taken = self.take_from(RankNo(from))? || taken;
            }
        }
        Ok(taken)
    }

    // Handles what another rank has sent, and answers whether that was anything.
    fn take_from(&mut self, from: RankNo) -> Result<bool, Astray>
        requires { IsOther self.old.part.now.rank self.old.part.now.ranks from.0 }
        ensures part { self.new.part ≡ self.old.part }
    {
        for count in 0..u32::MAX {
            match self.port.poll(from) {
                Polled::Item(body) => self.cells.handle(from, body),
                Polled::Empty => return Ok(count > 0),
                Polled::Mark(_) | Polled::Closed => return Err(Astray),
            }
        }
        Ok(true)
    }

    // Ends the round, and answers whether a synchronize has ended with it.
    fn end_round(&mut self) -> Result<bool, Astray> {
        if self.cells.work(&mut self.port) != Worked::Idle {
            return Err(Astray);
        }
        Ok(self.cells.end_round())
    }
}

// Puts a value to each own vertex.
fn fill_own(cells: &mut Cells<LeastWins>, part: &Part)
    requires part { cells.old.part.value ≡ part.now }
    requires filling { cells.old.phase ≡ Filling }
    ensures part { cells.new.part ≡ cells.old.part }
    ensures filling { cells.new.phase ≡ Filling }
{
    for place in 0..part.count() {
        let v = part.vertex(place);
        cells.put(v, v.0 as u64);
    }
}

// Puts a value to each ghost.
fn fill_ghosts(cells: &mut Cells<LeastWins>, part: &Part)
    requires part { cells.old.part.value ≡ part.now }
    requires filling { cells.old.phase ≡ Filling }
    ensures part { cells.new.part ≡ cells.old.part }
    ensures filling { cells.new.phase ≡ Filling }
{
    for held in part.ghosts() {
        cells.put(held.vertex, held.place as u64);
    }
}

// One round of all ranks: they send and handle until nothing is left, and end the round. Answers whether a
// synchronize has ended with it.
fn round<M: Mailbox<CellBody>>(sites: &mut [Site<'_, M>]) -> Result<bool, Astray> {
    for _ in 0..u32::MAX {
        if !exchange(sites)? {
            return end_each(sites);
        }
    }
    Err(Astray)
}

// Each rank sends until a lane is full, and then each handles what it got. Answers whether there was anything.
fn exchange<M: Mailbox<CellBody>>(sites: &mut [Site<'_, M>]) -> Result<bool, Astray> {
    let sent = send_each(sites);
    let taken = take_each(sites)?;
    Ok(sent || taken)
}

// Each rank sends until a lane is full. Answers whether anything was sent.
fn send_each<M: Mailbox<CellBody>>(sites: &mut [Site<'_, M>]) -> bool {
    let mut sent = false;
    for k in 0..sites.len() {
        sent = sites[k].send() || sent;
    }
    sent
}

// Each rank handles what it got. Answers whether that was anything.
fn take_each<M: Mailbox<CellBody>>(sites: &mut [Site<'_, M>]) -> Result<bool, Astray> {
    let mut taken = false;
    for k in 0..sites.len() {
        taken = sites[k].take()? || taken;
    }
    Ok(taken)
}

// Each rank ends the round. Answers whether a synchronize has ended with it on each.
fn end_each<M: Mailbox<CellBody>>(sites: &mut [Site<'_, M>]) -> Result<bool, Astray> {
    let mut ended = true;
    for k in 0..sites.len() {
        ended = sites[k].end_round()? && ended;
    }
    Ok(ended)
}

/// The parts of a graph in blocks, by rank, made by at most so many threads.
pub fn blocks<R: Threads + Sync>(
    token: &R,
    alloc: Global,
    threads: NonZeroU32,
    graph: &EdgeList,
    ranks: Ranks,
) -> Result<Vec<Part>, OutOfMemory>
    ensures count { IfOk result (λ parts. length parts.items ≡ ranks) }
    ensures rank { IfOk result (λ parts. Each (λ rank p. p.rank ≡ rank) parts.items) }
    ensures ranks { IfOk result (λ parts. Each (λ rank p. p.ranks ≡ ranks) parts.items) }
    ensures edges { IfOk result (λ parts. All (HasEdgesBelow (length graph.now.edges)) parts.items) }
{
    divided(token, alloc, threads, graph, &Block::new(graph.n(), ranks))
}

// The parts of the graph as the distribution divides it. Each arc's edge is one of the graph's.
fn divided<R: Threads + Sync, D: Distribution + Sync>(
    token: &R,
    alloc: Global,
    threads: NonZeroU32,
    graph: &EdgeList,
    dist: &D,
) -> Result<Vec<Part>, OutOfMemory>
    requires { graph.now.n ≡ (D.sharing dist.now).n }
    ensures divided { IfOk result (λ parts. Divided (D.sharing dist.now) graph.now parts.items) }
    ensures edges { IfOk result (λ parts. All (HasEdgesBelow (length graph.now.edges)) parts.items) }
{
    // For the facts that it ensures.
    let _n = graph.n();
    let parts = split_on_threads(token, alloc, threads.get(), graph, dist)?;
    Ok(parts)
}

/// The maps over the parts of a group's ranks, with forward and backward, each at the port of its rank.
pub fn sites_of<'a, K: LaneKind<Envelope<CellBody>>>(
    token: &K::Token,
    alloc: Global,
    parts: &'a [Part],
    ranks: Ranks,
) -> Result<Vec<Site<'a, Port<CellBody, K>>>, OutOfMemory>
    requires count { length parts.now ≡ ranks }
    requires rank { Each (λ rank p. p.rank ≡ rank) parts.now }
    requires ranks { Each (λ rank p. p.ranks ≡ ranks) parts.now }
{
    let group = ports::<CellBody, K>(token, alloc, ranks, CAPACITY)?;
    seated(alloc, parts, group)
}

// The maps over these parts, each at the mailbox in its place.
fn seated<'a, M: Mailbox<CellBody> + Drop>(
    alloc: Global,
    parts: &'a [Part],
    mailboxes: Vec<M>,
) -> Result<Vec<Site<'a, M>>, OutOfMemory>
    requires count { length mailboxes.items ≤ length parts.now }
    requires own { EachPair (λ p m. M.own m ≡ p.rank) parts.now mailboxes.items }
    requires size { EachPair (λ p m. M.size m ≡ p.ranks) parts.now mailboxes.items }
    requires unmarked { EachPair (λ p m. AreUnmarked (M.marks_sent m)) parts.now mailboxes.items }
{
    let mut sites = Vec::new(alloc);
    for mailbox in mailboxes {
        let site = Site::new(alloc, &parts[sites.len()], mailbox)?;
        let Ok(()) = sites.push(site) else {
            return Err(OutOfMemory);
        };
    }
    Ok(sites)
}

/// Fills and synchronizes the maps of all ranks.
pub fn synchronize<M: Mailbox<CellBody>>(sites: &mut [Site<'_, M>]) -> Result<(), Astray> {
    for k in 0..sites.len() {
        sites[k].fill()?;
    }
    if round(sites)? || round(sites)? {
        return Ok(());
    }
    Err(Astray)
}
