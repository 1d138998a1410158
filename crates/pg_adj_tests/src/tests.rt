//! Small graphs divided in blocks and by a list, against a filter of their edges.

ghost use Rattle.std.specs.Prelude.{◌≡◌, ◌≤◌, [], ◌∷◌};
ghost use Rattle.pg_base.specs.Graph.{IsGraph};
ghost use Rattle.pg_base.specs.Examples.{edge, graph};
ghost use Rattle.pg_base.specs.declared.TheConstants.{MAX_VERTICES};

use pg_adj::{Arc, Ghost, Holder, Part, split};
use pg_base::{Edge, EdgeList, RankNo, Ranks, Vertex, laws};
use pg_dist::{Block, Distribution, Listed};
use std::alloc::{AllocError, Global};
use std::process::Abort;
use std::test::Fail;
use std::thread::Threads;

#[test]
fn a_path_is_divided_between_two_ranks(rt: HostRuntime) -> Result<(), Fail> {
    let first = Edge { u: 1, v: 2, w: 5 };
    let second = Edge { u: 2, v: 3, w: 2 };
    let edges = vec![in rt.alloc(); first, second]?;
    laws::graphs();
    let graph = EdgeList::new(4, edges);
    let ranks = Ranks::new(2).ok_or("no number of ranks")?;
    let dist = Block::new(4, ranks);
    let parts = split(rt.alloc(), &graph, &dist).ok().ok_or("no memory")?;
    assert_eq!(rt; parts.len(), 2);
    let lower = &parts[0];
    assert_eq!(rt; lower.count(), 2);
    assert_eq!(rt; lower.vertex(1), Vertex(2));
    assert_eq!(rt; lower.arcs(0), [arc(2, 0, 1, first.w, 0)].as_slice());
    assert_eq!(rt;
        lower.arcs(1),
        [arc(1, 0, 0, first.w, 0), arc(3, 1, 0, second.w, 1)].as_slice()
    );
    assert_eq!(rt; lower.ghosts(), [ghost_of(3, 1, 0)].as_slice());
    assert_eq!(rt; lower.holders(0).len(), 0);
    assert_eq!(rt; lower.holders(1), [holder(1, 0)].as_slice());
    let upper = &parts[1];
    assert_eq!(rt; upper.count(), 2);
    assert_eq!(rt; upper.rank(), RankNo(1));
    assert_eq!(rt; upper.arcs(0), [arc(2, 0, 1, second.w, 1)].as_slice());
    assert_eq!(rt; upper.arcs(1).len(), 0);
    assert_eq!(rt; upper.ghosts(), [ghost_of(2, 0, 1)].as_slice());
    assert_eq!(rt; upper.holders(0), [holder(0, 0)].as_slice());
    Ok(())
}

#[test]
fn parts_are_what_a_filter_of_the_edges_gives(rt: HostRuntime) -> Result<(), Fail> {
    let alloc = rt.alloc();
    for count in [1, 2, 3, 32] {
        let ranks = Ranks::new(count).ok_or("no number of ranks")?;
        for graph in [
            path(alloc)?,
            star(alloc)?,
            tailed_triangle(alloc)?,
            no_edges(alloc),
        ] {
            agrees(&rt, alloc, &graph, &Block::new(graph.n(), ranks))?;
            agrees(
                &rt,
                alloc,
                &graph,
                &first_and_last(alloc, graph.n(), ranks)?,
            )?;
        }
    }
    Ok(())
}

// 1 - 2 - 3 - 4 - 5
fn path(alloc: Global) -> Result<EdgeList, AllocError> {
    let edges = vec![in alloc; edge(1, 2, 3), edge(2, 3, 1), edge(3, 4, 4), edge(4, 5, 1)]?;
    are_graphs();
    Ok(EdgeList::new(5, edges))
}

// Vertex 3 is joined to all others.
fn star(alloc: Global) -> Result<EdgeList, AllocError> {
    let edges = vec![in alloc; edge(1, 3, 1), edge(2, 3, 2), edge(3, 4, 3), edge(3, 5, 4)]?;
    are_graphs();
    Ok(EdgeList::new(5, edges))
}

// Vertices 1, 2 and 3 are joined two by two, and 4 is joined to 3.
fn tailed_triangle(alloc: Global) -> Result<EdgeList, AllocError> {
    let edges = vec![in alloc; edge(1, 2, 7), edge(1, 3, 7), edge(2, 3, 7), edge(3, 4, 1)]?;
    are_graphs();
    Ok(EdgeList::new(4, edges))
}

fn no_edges(alloc: Global) -> EdgeList {
    EdgeList::new(3, Vec::new(alloc))
}

// The edges above are those of graphs.
fn are_graphs()
    ensures path { IsGraph (graph 5 (edge 1 2 3 ∷ edge 2 3 1 ∷ edge 3 4 4 ∷ edge 4 5 1 ∷ [])) }
    ensures star { IsGraph (graph 5 (edge 1 3 1 ∷ edge 2 3 2 ∷ edge 3 4 3 ∷ edge 3 5 4 ∷ [])) }
    ensures triangle { IsGraph (graph 4 (edge 1 2 7 ∷ edge 1 3 7 ∷ edge 2 3 7 ∷ edge 3 4 1 ∷ [])) }
{}

// The odd vertices are the last rank's, and the even ones the first's: those between own nothing.
fn first_and_last(alloc: Global, n: u32, ranks: Ranks) -> Result<Listed, Fail>
    requires { n ≤ MAX_VERTICES }
{
    let mut owners = Vec::new(alloc);
    for v in 1..n + 1 {
        owners.push(if v % 2 == 0 { 0 } else { ranks.count() - 1 })?;
    }
    Ok(Listed::new(alloc, owners, ranks).map_err(|_| "no memory")?)
}

// Each part is what the filters give.
fn agrees<D: Distribution + Sync>(
    rt: &(impl Abort + Threads + Sync),
    alloc: Global,
    graph: &EdgeList,
    dist: &D,
) -> Result<(), Fail> {
    assert_eq!(rt; graph.n(), dist.n());
    let owners = owners(alloc, dist)?;
    let plain = Plain {
        owners: &owners,
        edges: graph.edges(),
    };
    for threads in 1..6 {
        let parts = pg_adj::split_on_threads(rt, alloc, threads, graph, dist).map_err(
            |_| "no memory",
        )?;
        assert_eq!(rt; parts.len(), dist.ranks().count() as usize);
        for (rank, part) in parts.iter().enumerate() {
            agrees_at(rt, alloc, &plain, small(rank), part)?;
        }
    }
    Ok(())
}

fn agrees_at(
    rt: &impl Abort,
    alloc: Global,
    plain: &Plain<'_>,
    rank: u32,
    part: &Part,
) -> Result<(), Fail> {
    let vertices = plain.vertices(alloc, rank)?;
    assert_eq!(rt; part.rank(), RankNo(rank));
    assert_eq!(rt; part.n() as usize, plain.owners.len());
    assert_eq!(rt; part.count() as usize, vertices.len());
    assert_eq!(rt; part.ghosts(), plain.ghosts(alloc, rank)?.as_slice());
    for i in 0..part.count() {
        let v = part.vertex(i).0;
        assert_eq!(rt; v, vertices[i as usize]);
        assert_eq!(rt; part.arcs(i), plain.arcs(alloc, v)?.as_slice());
        let holders = plain.holders(alloc, part.ranks(), v)?;
        assert_eq!(rt; part.holders(i), holders.as_slice());
    }
    slots_agree(rt, alloc, part)
}

// Beside each arc stands the place of its end among the ghosts.
fn slots_agree(rt: &impl Abort, alloc: Global, part: &Part) -> Result<(), Fail> {
    let slots = part.slots(alloc).map_err(|_| "no memory")?;
    for i in 0..part.count() {
        let beside = part.beside(i, &slots);
        for (arc, slot) in part.arcs(i).iter().zip(beside) {
            let place = part.ghosts().iter().position(|held| held.vertex == arc.to);
            assert_eq!(rt; slot.map(|found| found as usize), place);
        }
    }
    Ok(())
}

// The owner of each vertex.
fn owners<D: Distribution>(alloc: Global, dist: &D) -> Result<Vec<u32>, AllocError> {
    let mut owners = Vec::new(alloc);
    for v in 1..dist.n() + 1 {
        owners.push(dist.owner(Vertex(v)).0)?;
    }
    Ok(owners)
}

// A graph's edges and the owners of its vertices, of which all else is filtered.
#[derive(Clone, Copy)]
struct Plain<'a> {
    owners: &'a [u32],
    edges: &'a [Edge],
}

impl Plain<'_> {
    fn owner(&self, v: u32) -> u32 {
        match self.owners.get((v as usize).wrapping_sub(1)) {
            Some(owner) => *owner,
            None => u32::MAX,
        }
    }

    // How many vertices before v have its owner.
    fn place(&self, v: u32) -> u32 {
        let owner = self.owner(v);
        let before = self
            .owners
            .iter()
            .take(v as usize)
            .filter(|other| **other == owner);
        small(before.count().saturating_sub(1))
    }

    fn vertices(&self, alloc: Global, rank: u32) -> Result<Vec<u32>, AllocError> {
        let mut vertices = Vec::new(alloc);
        for (k, owner) in self.owners.iter().enumerate() {
            if *owner == rank {
                vertices.push(small(k + 1))?;
            }
        }
        Ok(vertices)
    }

    fn arcs(&self, alloc: Global, v: u32) -> Result<Vec<Arc>, AllocError> {
        let mut arcs = Vec::new(alloc);
        for (k, edge) in self.edges.iter().enumerate() {
            if edge.u == v {
                arcs.push(self.arc_to(edge.v, edge.w, k))?;
            }
            if edge.v == v {
                arcs.push(self.arc_to(edge.u, edge.w, k))?;
            }
        }
        Ok(arcs)
    }

    fn arc_to(&self, to: u32, w: u32, index: usize) -> Arc {
        arc(to, self.owner(to), self.place(to), w, small(index))
    }

    // Whether v is another rank's and joined to a vertex of this rank.
    fn is_ghost(&self, rank: u32, v: u32) -> bool {
        let touches = |from: u32, to: u32| from == v && self.owner(to) == rank;
        self.owner(v) != rank
            && self
                .edges
                .iter()
                .any(|edge| touches(edge.u, edge.v) || touches(edge.v, edge.u))
    }

    fn ghosts(&self, alloc: Global, rank: u32) -> Result<Vec<Ghost>, AllocError> {
        let mut ghosts = Vec::new(alloc);
        for k in 0..self.owners.len() {
            let v = small(k + 1);
            if self.is_ghost(rank, v) {
                ghosts.push(ghost_of(v, self.owner(v), self.place(v)))?;
            }
        }
        Ok(ghosts)
    }

    fn holders(&self, alloc: Global, ranks: Ranks, v: u32) -> Result<Vec<Holder>, AllocError> {
        let mut holders = Vec::new(alloc);
        for rank in 0..ranks.count() {
            if self.is_ghost(rank, v) {
                let before = (1..v).filter(|other| self.is_ghost(rank, *other));
                holders.push(holder(rank, small(before.count())))?;
            }
        }
        Ok(holders)
    }
}

fn small(count: usize) -> u32 {
    u32::try_from(count).unwrap_or(u32::MAX)
}

fn edge(u: u32, v: u32, w: u32) -> Edge
    ensures { result ≡ edge u v w }
{
    Edge { u, v, w }
}

fn arc(to: u32, home: u32, place: u32, w: u32, edge: u32) -> Arc {
    Arc {
        to: Vertex(to),
        home: RankNo(home),
        place,
        w,
        edge,
    }
}

fn ghost_of(vertex: u32, home: u32, place: u32) -> Ghost {
    Ghost {
        vertex: Vertex(vertex),
        home: RankNo(home),
        place,
    }
}

fn holder(rank: u32, slot: u32) -> Holder {
    Holder {
        rank: RankNo(rank),
        slot,
    }
}
