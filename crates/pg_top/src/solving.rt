//! A plan's algorithm over its graph: its programs, and the answers that they hold.
ghost use Rattle.std.specs.Prelude.{◌≡◌, ◌<◌, ◌≤◌, ◌^◌, All, IfOk, None, vec_len};
ghost use Rattle.std.specs.Option.{ForSome, option_map};
ghost use Rattle.pg_agenda.specs.BucketPhases.{takes_by};
ghost use Rattle.pg_agenda.specs.Shares.{takes_all};
ghost use Rattle.pg_dist.specs.Sharing.{IsSharing};
ghost use Rattle.pg_words.specs.Plan.{meaning_of};
ghost use Rattle.pg_words.specs.Built.{IsBuilt};
ghost use Rattle.pg_top.specs.Relaxed.{AreAnswers, IsRelaxation};
ghost use Rattle.pg_base.specs.Distances.{AreLeastArcs};
ghost use Rattle.pg_top.specs.Answered.{text_in};
ghost use Rattle.pg_top.specs.Text.{AreLeastWeights, AreLowest, IsInside, IsSmallGrid, IsTextOf};
ghost use Rattle.pg_top.specs.Work.{IsCarried, IsRelaxedBy, IsWork};

use crate::agendas::{Agendas, ByBucket, ByLevel};
use crate::answers::Answers;
use crate::colours::proper_colours;
use crate::columns::{Field, Numbers};
use crate::crews::Crew;
use crate::forests::least_forest;
use crate::gridding::summarize;
use crate::inputs::Input;
use crate::relaxing::{answers, relax};
use crate::weights::heaviest;
use crate::{Algorithm, Plan, Work};
use pg_agenda::{Agenda, Buckets, Levels};
use pg_base::{EdgeList, Gate, OutOfMemory, Ranks};
use pg_dist::{Block, Distribution, Listed};
use pg_label::{Hops, Label, Root, Weight};
use pg_relax::Relax;
use pg_run::Finished;
use std::alloc::Global;
use std::sync::Wait;
use std::thread::Threads;

/// What a plan's algorithm answers, and the programs and lanes that ended with it.
#[derive(Drop)]
pub(crate) struct Solved {
    pub(crate) answers: Answers,
    pub(crate) work: Work,
}

/// The answers of a relaxation, and the programs and lanes that ended with them.
#[derive(Drop)]
pub(crate) struct Relaxed<L: Label + Send, A: Agenda + Send> {
    pub(crate) answers: Numbers,
    pub(crate) finished: Finished<Relax<L, A>>,
}

/// Relaxes over the ranks among which `dist` divides the graph.
fn relax_over<
    W: Threads + Wait + Sync,
    D: Distribution + Sync,
    L: Label + Copy + Send + Drop,
    A: Agenda + Send + Drop,
    M: Agendas<A>,
    G: Gate,
>(
    token: &W,
    alloc: Global,
    graph: EdgeList,
    dist: &D,
    label: L,
    agendas: &M,
    field: Field,
    crew: &Crew,
    gate: &G,
) -> Result<Relaxed<L, A>, OutOfMemory>
    requires n { graph.n ≡ (D.sharing dist.now).n }
    ensures laws { IsSharing (D.sharing dist.now) }
    ensures relaxation { IfOk result (λ r. IsRelaxation label (M.takes agendas.now) (D.sharing dist.now) graph crew.now.capacity r.finished.programs.items r.finished.lanes.items) }
    ensures held { IfOk result (λ r. AreAnswers field (D.sharing dist.now) r.finished.programs.items r.answers.of_vertices.items) }
{
    let finished = relax(token, alloc, graph, dist, label, agendas, crew, gate)?;
    let answers = answers(alloc, &finished.programs, dist, field)?;
    Ok(Relaxed { answers, finished })
}

/// Relaxes over the ranks that own the vertices: by the list of owners, or in blocks where there is none.
fn relax_input<
    W: Threads + Wait + Sync,
    L: Label + Copy + Send + Drop,
    A: Agenda + Send + Drop,
    M: Agendas<A>,
    G: Gate,
>(
    token: &W,
    alloc: Global,
    input: Input,
    label: L,
    agendas: &M,
    field: Field,
    crew: &Crew,
    gate: &G,
) -> Result<Relaxed<L, A>, OutOfMemory>
    requires each { ForSome input.owners (λ owners. vec_len owners ≡ input.graph.n) }
    requires are_ranks { ForSome input.owners (λ owners. All (λ owner. owner < crew.now.ranks) owners.items) }
    ensures { IfOk result (λ r. IsRelaxedBy label (M.takes agendas.now) field (option_map (λ owners. owners.items) input.owners) crew.now.ranks crew.now.capacity input.graph
        r.answers.of_vertices.items r.finished.programs.items r.finished.lanes.items) }
{
    let Input { graph, owners } = input;
    match owners {
        Some(owners) => {
            let dist = Listed::new(alloc, owners, crew.ranks)?;
            relax_over(
                token, alloc, graph, &dist, label, agendas, field, crew, gate,
            )
        }
        None => {
            let dist = Block::new(graph.n(), crew.ranks);
            relax_over(
                token, alloc, graph, &dist, label, agendas, field, crew, gate,
            )
        }
    }
}

/// The crew of the plan.
pub(crate) fn crew_of(plan: &Plan) -> Crew
    requires built { IsBuilt (meaning_of plan.now) }
    ensures ranks { result.ranks ≡ plan.now.ranks }
    ensures capacity { result.capacity ≡ plan.now.capacity }
{
    let Some(ranks) = Ranks::new(plan.ranks) else {
        unreachable!()
    };
    Crew {
        ranks,
        threads: plan.threads,
        capacity: plan.capacity,
    }
}

/// The least numbers of arcs from the source.
fn least_arcs<W: Threads + Wait + Sync, G: Gate>(
    token: &W,
    alloc: Global,
    input: Input,
    source: u32,
    crew: &Crew,
    gate: &G,
) -> Result<Relaxed<Hops, Levels>, OutOfMemory>
    requires each { ForSome input.owners (λ owners. vec_len owners ≡ input.graph.n) }
    requires are_ranks { ForSome input.owners (λ owners. All (λ owner. owner < crew.now.ranks) owners.items) }
    ensures carried { IfOk result (λ r. IsCarried (record { source = source }) takes_all Field.Amount (option_map (λ owners. owners.items) input.owners) crew.now.ranks crew.now.capacity input.graph
        r.answers.of_vertices.items r.finished.programs.items r.finished.lanes.items) }
    ensures least { IfOk result (λ r. AreLeastArcs input.graph source r.answers.of_vertices.items) }
{
    // For the facts that it ensures.
    let _n = input.graph.n();
    let label = Hops { source };
    relax_input(
        token,
        alloc,
        input,
        label,
        &ByLevel,
        Field::Amount,
        crew,
        gate,
    )
}

/// The least weights of walks from the source, by buckets of this width.
pub(crate) fn least_weights<W: Threads + Wait + Sync, G: Gate>(
    token: &W,
    alloc: Global,
    input: Input,
    source: u32,
    delta: u32,
    crew: &Crew,
    gate: &G,
) -> Result<Relaxed<Weight, Buckets>, OutOfMemory>
    requires a_width { 1 ≤ delta }
    requires each { ForSome input.owners (λ owners. vec_len owners ≡ input.graph.n) }
    requires are_ranks { ForSome input.owners (λ owners. All (λ owner. owner < crew.now.ranks) owners.items) }
    ensures carried { IfOk result (λ r. IsCarried (record { source = source }) (takes_by delta) Field.Amount (option_map (λ owners. owners.items) input.owners) crew.now.ranks crew.now.capacity input.graph
        r.answers.of_vertices.items r.finished.programs.items r.finished.lanes.items) }
    ensures least { IfOk result (λ r. AreLeastWeights input.graph source r.answers.of_vertices.items) }
{
    // For the facts that it ensures.
    let _most = heaviest(&input.graph);
    let label = Weight { source };
    let buckets = ByBucket { delta };
    relax_input(
        token,
        alloc,
        input,
        label,
        &buckets,
        Field::Amount,
        crew,
        gate,
    )
}

/// The least vertex of each vertex's component.
fn lowest<W: Threads + Wait + Sync, G: Gate>(
    token: &W,
    alloc: Global,
    input: Input,
    crew: &Crew,
    gate: &G,
) -> Result<Relaxed<Root, Levels>, OutOfMemory>
    requires each { ForSome input.owners (λ owners. vec_len owners ≡ input.graph.n) }
    requires are_ranks { ForSome input.owners (λ owners. All (λ owner. owner < crew.now.ranks) owners.items) }
    ensures carried { IfOk result (λ r. IsCarried (record {}) takes_all Field.Class (option_map (λ owners. owners.items) input.owners) crew.now.ranks crew.now.capacity input.graph
        r.answers.of_vertices.items r.finished.programs.items r.finished.lanes.items) }
    ensures lowest { IfOk result (λ r. AreLowest input.graph r.answers.of_vertices.items) }
{
    // For the facts that it ensures.
    let _n = input.graph.n();
    relax_input(
        token,
        alloc,
        input,
        Root,
        &ByLevel,
        Field::Class,
        crew,
        gate,
    )
}

/// Runs the plan's algorithm over its graph. `Err` says that the run is out of memory.
pub(crate) fn solve<W: Threads + Wait + Sync, G: Gate>(
    token: &W,
    alloc: Global,
    input: Input,
    plan: &Plan,
    crew: &Crew,
    gate: &G,
) -> Result<Solved, OutOfMemory>
    requires built { IsBuilt (meaning_of plan.now) }
    requires ranks { crew.now.ranks ≡ plan.now.ranks }
    requires capacity { crew.now.capacity ≡ plan.now.capacity }
    requires each { ForSome input.owners (λ owners. vec_len owners ≡ input.graph.n) }
    requires are_ranks { ForSome input.owners (λ owners. All (λ owner. owner < crew.now.ranks) owners.items) }
    requires inside { IsInside plan.now.algorithm plan.now.source input.graph.n }
    requires in_blocks { plan.now.algorithm ≡ Algorithm.Grid → input.owners ≡ None }
    requires grid { plan.now.algorithm ≡ Algorithm.Grid → IsSmallGrid input.graph }
    ensures right { IfOk result (λ s. IsTextOf (meaning_of plan.now) input.graph (text_in s.answers)) }
    ensures work { IfOk result (λ s. IsWork (meaning_of plan.now) input.graph (option_map (λ owners. owners.items) input.owners) (text_in s.answers) s.work) }
{
    match plan.algorithm {
        Algorithm::Bfs => {
            let relaxed = least_arcs(token, alloc, input, plan.source, crew, gate)?;
            Ok(Solved {
                answers: Answers::Column(relaxed.answers),
                work: Work::Hops(relaxed.finished),
            })
        }
        Algorithm::Sssp => {
            let relaxed = least_weights(token, alloc, input, plan.source, plan.delta, crew, gate)?;
            Ok(Solved {
                answers: Answers::Column(relaxed.answers),
                work: Work::Weights(relaxed.finished),
            })
        }
        Algorithm::Components => {
            let relaxed = lowest(token, alloc, input, crew, gate)?;
            Ok(Solved {
                answers: Answers::Column(relaxed.answers),
                work: Work::Roots(relaxed.finished),
            })
        }
        Algorithm::Forest => {
            let grown = least_forest(token, alloc, input, crew, gate)?;
            Ok(Solved {
                answers: Answers::Forest(grown.tree),
                work: Work::Forest(grown.finished),
            })
        }
        Algorithm::Colour => {
            let coloured = proper_colours(token, alloc, input, crew, gate)?;
            Ok(Solved {
                answers: Answers::Column(coloured.colours),
                work: Work::Colours(coloured.finished),
            })
        }
        Algorithm::Grid => summarize(token, alloc, input.graph, plan.delta, crew, gate),
    }
}
