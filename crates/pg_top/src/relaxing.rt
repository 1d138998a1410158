//! Relaxation over the ranks of a divided graph.
ghost use Rattle.std.specs.Prelude.{◌≡◌, ◌≤◌, ℕ, length, map, IfOk};
ghost use Rattle.pg_group.specs.Entries.{Each};
ghost use Rattle.pg_dist.specs.Sharing.{IsSharing};
ghost use Rattle.pg_agenda.specs.declared.shares.Share.{Share};
ghost use Rattle.pg_relax.specs.Shown.{IsNewRelax, label_in, part_in, state_of};
ghost use Rattle.pg_top.specs.Relaxed.{AreAnswers, AreInOrder, HavePlaces, IsRelaxation, IsRunOver, field_in};

use crate::agendas::Agendas;
use crate::columns::{Field, Numbers};
use crate::crews::Crew;
use pg_adj::{Part, split_on_threads};
use pg_agenda::Agenda;
use pg_base::{EdgeList, Gate, OutOfMemory, Vertex};
use pg_dist::Distribution;
use pg_label::{Label, Value};
use pg_lane::RingLanes;
use pg_relax::Relax;
use pg_run::{Finished, assemble, run};
use std::alloc::Global;
use std::sync::Wait;
use std::thread::Threads;

/// The relaxations of the parts, in their order, each with a new agenda.
pub(crate) fn programs_of<L: Label + Copy + Drop, A: Agenda + Drop, M: Agendas<A>>(
    alloc: Global,
    mut parts: Vec<Part>,
    label: L,
    agendas: &M,
) -> Result<Vec<Relax<L, A>>, OutOfMemory>
    ensures parts { IfOk result (λ programs. map part_in programs.items ≡ parts.items) }
    ensures new { IfOk result (λ programs. Each (λ rank p. IsNewRelax p) programs.items) }
    ensures labels { IfOk result (λ programs. Each (λ rank p. label_in p ≡ label) programs.items) }
    ensures shares { IfOk result (λ programs. Each (λ rank p. (share : Share) (w : ℕ) → (state_of p).takes share w ≡ M.takes agendas.now share w) programs.items) }
{
    let Ok(mut programs) = Vec::with_capacity(alloc, parts.len()) else {
        return Err(OutOfMemory);
    };
    while let Some(part) = parts.pop() {
        let agenda = agendas.agenda(alloc, part.count())?;
        programs.push_reserved(Relax::new(alloc, part, label, agenda)?);
    }
    programs.reverse();
    Ok(programs)
}

/// Relaxes the arcs of the parts, one of each rank, until all ranks have ended.
pub(crate) fn relax_parts<
    W: Threads + Wait + Sync,
    L: Label + Copy + Send + Drop,
    A: Agenda + Send + Drop,
    M: Agendas<A>,
    G: Gate,
>(
    token: &W,
    alloc: Global,
    parts: Vec<Part>,
    label: L,
    agendas: &M,
    crew: &Crew,
    gate: &G,
) -> Result<Finished<Relax<L, A>>, OutOfMemory>
    requires at_least_one { 1 ≤ length parts.items }
    requires at_most { length parts.items ≤ 32 }
    requires order { AreInOrder parts.items }
    ensures { IfOk result (λ f. IsRunOver label (M.takes agendas.now) (length parts.items) parts.items crew.now.capacity f.programs.items f.lanes.items) }
{
    let programs = programs_of(alloc, parts, label, agendas)?;
    let group = assemble::<Relax<L, A>, RingLanes>(&(), alloc, programs, crew.capacity)?;
    Ok(run(token, group, crew.threads, gate))
}

/// Divides the graph as `dist` says, and relaxes over its ranks until all have ended. The graph is freed once it is divided.
pub(crate) fn relax<
    W: Threads + Wait + Sync,
    D: Distribution + Sync,
    L: Label + Copy + Send + Drop,
    A: Agenda + Send + Drop,
    M: Agendas<A>,
    G: Gate,
>(
    token: &W,
    alloc: Global,
    graph: EdgeList,
    dist: &D,
    label: L,
    agendas: &M,
    crew: &Crew,
    gate: &G,
) -> Result<Finished<Relax<L, A>>, OutOfMemory>
    requires n { graph.n ≡ (D.sharing dist.now).n }
    ensures laws { IsSharing (D.sharing dist.now) }
    ensures found { IfOk result (λ f. IsRelaxation label (M.takes agendas.now) (D.sharing dist.now) graph crew.now.capacity f.programs.items f.lanes.items) }
{
    // For the facts that it ensures.
    let _ranks = dist.ranks();
    let parts = split_on_threads(token, alloc, crew.threads, &graph, dist)?;
    drop(graph);
    relax_parts(token, alloc, parts, label, agendas, crew, gate)
}

/// One number of the value that the programs ended with for each vertex from 1 to n, as the vertex's owner has it at the vertex's
/// place.
pub(crate) fn answers<L: Label, A: Agenda, D: Distribution>(
    alloc: Global,
    programs: &[Relax<L, A>],
    dist: &D,
    field: Field,
) -> Result<Numbers, OutOfMemory>
    requires ranks { length programs.now ≡ (D.sharing dist.now).ranks }
    requires places { HavePlaces (D.sharing dist.now) programs.now }
    ensures { IfOk result (λ answers. AreAnswers field (D.sharing dist.now) programs.now answers.of_vertices.items) }
{
    let n = dist.n();
    let Ok(mut of_vertices) = Vec::with_capacity(alloc, n as usize) else {
        return Err(OutOfMemory);
    };
    for place in 0..n {
        let v = Vertex(place + 1);
        let program = &programs[dist.owner(v).0 as usize];
        of_vertices.push_reserved(number(program.value(dist.local(v)), field));
    }
    Ok(Numbers { of_vertices })
}

/// One number of a value, if there is one.
pub(crate) fn number(value: Option<Value>, field: Field) -> Option<u64>
    ensures { result ≡ field_in field value }
{
    let value = value?;
    Some(match field {
        Field::Amount => value.amount,
        Field::Class => u64::from(value.class),
    })
}
