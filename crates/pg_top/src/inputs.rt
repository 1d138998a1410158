//! What a plan's algorithm computes with: its graph, of a file or a grid, and the owners of the vertices.
ghost use Rattle.std.specs.Prelude.{◌≡◌, ◌<◌, ◌≤◌, All, IfOk, IfErr, None, OnOk, true, false, vec_len};
ghost use Rattle.std.specs.Option.{ForSome, option_map};
ghost use Rattle.pg_make.specs.Grid.{grid_of};
ghost use Rattle.pg_words.specs.Built.{IsBuilt, IsGridBuilt};
ghost use Rattle.pg_words.specs.Plan.{meaning_of};
ghost use Rattle.pg_top.specs.Files.{HasGraph, HasInput, HasList, HasOwners, IsReadToEnd, ReadsFiles};
ghost use Rattle.pg_top.specs.Run.{InputFails, IsOutside, LoadFails, OwnersFail, PartsFail};
ghost use Rattle.pg_top.specs.Text.{IsInside, IsSmallGrid};

use crate::crews::Crew;
use crate::{Algorithm, Plan};
use pg_base::{EdgeList, OutOfMemory, Ranks};
use pg_make::grid;
use pg_metis::{read_graph_on_threads, read_parts};
use pg_outside::Inputs;
use pg_print::Fault;
use std::alloc::Global;
use std::thread::Threads;

/// A plan's graph, and the owners of its vertices where the plan names a partition file.
#[derive(Drop)]
pub(crate) struct Input {
    pub(crate) graph: EdgeList,
    /// Entry v - 1 is the rank that owns vertex v, from 0.
    pub(crate) owners: Option<Vec<u32>>,
}

/// The graph of the file of this name, read by at most `threads` threads.
fn load_graph<W: Threads + Sync, I: Inputs>(
    token: &W,
    alloc: Global,
    threads: u32,
    inputs: &mut I,
    name: &str,
) -> Result<EdgeList, Fault>
    requires threads { 1 ≤ threads }
    ensures loaded { IfOk result (λ g. HasGraph name.now (I.files inputs.old) (λ loaded. loaded ≡ g)) }
    ensures end { OnOk result (IsReadToEnd (I.files inputs.old) (I.left inputs.new)) }
    ensures fails { IfErr result (LoadFails name.now (I.files inputs.old) (I.faults inputs.old) (I.faults inputs.new)) }
    ensures later { I.faults inputs.old ≤ I.faults inputs.new }
    ensures files { I.files inputs.new ≡ I.files inputs.old }
{
    if inputs.begin(name).is_err() {
        return Err(Fault::Read);
    }
    Ok(read_graph_on_threads(token, alloc, threads, inputs)?)
}

/// The owners of `n` vertices that the partition file of this name lists.
fn load_owners<I: Inputs>(
    alloc: Global,
    inputs: &mut I,
    name: &str,
    n: u32,
    ranks: Ranks,
) -> Result<Vec<u32>, Fault>
    ensures loaded { IfOk result (λ owners. HasList name.now (I.files inputs.old) n ranks (λ loaded. loaded ≡ owners.items)) }
    ensures count { IfOk result (λ owners. vec_len owners ≡ n) }
    ensures below { IfOk result (λ owners. All (λ owner. owner < ranks) owners.items) }
    ensures end { OnOk result (IsReadToEnd (I.files inputs.old) (I.left inputs.new)) }
    ensures fails { IfErr result (OwnersFail name.now n ranks (I.files inputs.old) (I.faults inputs.old) (I.faults inputs.new)) }
    ensures later { I.faults inputs.old ≤ I.faults inputs.new }
    ensures files { I.files inputs.new ≡ I.files inputs.old }
{
    if inputs.begin(name).is_err() {
        return Err(Fault::Read);
    }
    Ok(read_parts(alloc, inputs, n, ranks)?)
}

/// The owners of `n` vertices, where the plan names a partition file.
fn owners_of<I: Inputs>(
    alloc: Global,
    inputs: &mut I,
    plan: &Plan,
    n: u32,
    ranks: Ranks,
) -> Result<Option<Vec<u32>>, Fault>
    ensures has { IfOk result (λ found. HasOwners (meaning_of plan.now).parts (I.files inputs.old) n ranks (λ owners. owners ≡ option_map (λ o. o.items) found)) }
    ensures count { IfOk result (λ found. ForSome found (λ owners. vec_len owners ≡ n)) }
    ensures below { IfOk result (λ found. ForSome found (λ owners. All (λ owner. owner < ranks) owners.items)) }
    ensures end { OnOk result (IsReadToEnd (I.files inputs.old) (I.left inputs.old) → IsReadToEnd (I.files inputs.old) (I.left inputs.new)) }
    ensures fails { IfErr result (PartsFail (meaning_of plan.now).parts n ranks (I.files inputs.old) (I.faults inputs.old) (I.faults inputs.new)) }
    ensures later { I.faults inputs.old ≤ I.faults inputs.new }
    ensures files { I.files inputs.new ≡ I.files inputs.old }
{
    match &plan.parts {
        Some(name) => match load_owners(alloc, inputs, name.as_str(), n, ranks) {
            Ok(owners) => Ok(Some(owners)),
            Err(fault) => Err(fault),
        },
        None => Ok(None),
    }
}

/// Whether the plan's algorithm has a source, and it is none of the vertices from 1 to `n`.
fn is_outside(plan: &Plan, n: u32) -> bool
    ensures outside { result ≡ true → IsOutside (meaning_of plan.now) n }
    ensures inside { result ≡ false → IsInside plan.now.algorithm plan.now.source n }
{
    match plan.algorithm {
        Algorithm::Bfs | Algorithm::Sssp => plan.source == 0 || plan.source > n,
        _ => false,
    }
}

/// The grid of the plan's size and seed, to be divided in blocks.
fn make_grid(alloc: Global, plan: &Plan) -> Result<Input, Fault>
    requires built { IsGridBuilt (meaning_of plan.now) }
    ensures graph { IfOk result (λ input. input.graph ≡ grid_of plan.now.width plan.now.height plan.now.seed) }
    ensures owners { IfOk result (λ input. input.owners ≡ None) }
    ensures small { IfOk result (λ input. IsSmallGrid input.graph) }
    ensures fails { IfErr result (λ fault. fault ≡ Fault.Memory) }
{
    match grid(alloc, plan.width, plan.height, plan.seed) {
        Ok(graph) => Ok(Input {
            graph,
            owners: None,
        }),
        Err(OutOfMemory) => Err(Fault::Memory),
    }
}

/// Reads the plan's graph and then its partition file, if it names one. The source is looked at last.
fn read_files<W: Threads + Sync, I: Inputs>(
    token: &W,
    alloc: Global,
    inputs: &mut I,
    plan: &Plan,
    crew: &Crew,
) -> Result<Input, Fault>
    requires reads { ReadsFiles plan.now.algorithm }
    requires ranks { crew.now.ranks ≡ plan.now.ranks }
    ensures has { IfOk result (λ input. HasInput (meaning_of plan.now) (I.files inputs.old)
        (λ g owners. (g ≡ input.graph) × (owners ≡ option_map (λ o. o.items) input.owners))) }
    ensures inside { IfOk result (λ input. IsInside plan.now.algorithm plan.now.source input.graph.n) }
    ensures count { IfOk result (λ input. ForSome input.owners (λ owners. vec_len owners ≡ input.graph.n)) }
    ensures below { IfOk result (λ input. ForSome input.owners (λ owners. All (λ owner. owner < crew.now.ranks) owners.items)) }
    ensures end { OnOk result (IsReadToEnd (I.files inputs.old) (I.left inputs.new)) }
    ensures fails { IfErr result (InputFails (meaning_of plan.now) (I.files inputs.old) (I.faults inputs.old) (I.faults inputs.new)) }
    ensures later { I.faults inputs.old ≤ I.faults inputs.new }
    ensures files { I.files inputs.new ≡ I.files inputs.old }
{
    let graph = load_graph(token, alloc, crew.threads, inputs, plan.file.as_str())?;
    let n = graph.n();
    let owners = owners_of(alloc, inputs, plan, n, crew.ranks)?;
    if is_outside(plan, n) {
        return Err(Fault::Source {
            source: plan.source,
        });
    }
    Ok(Input { graph, owners })
}

/// What the plan's algorithm computes with: the grid of the plan, where nothing is read, or the plan's graph and then its
/// partition file, if it names one. The source is looked at last.
pub(crate) fn read_input<W: Threads + Sync, I: Inputs>(
    token: &W,
    alloc: Global,
    inputs: &mut I,
    plan: &Plan,
    crew: &Crew,
) -> Result<Input, Fault>
    requires built { IsBuilt (meaning_of plan.now) }
    requires ranks { crew.now.ranks ≡ plan.now.ranks }
    ensures has { IfOk result (λ input. HasInput (meaning_of plan.now) (I.files inputs.old)
        (λ g owners. (g ≡ input.graph) × (owners ≡ option_map (λ o. o.items) input.owners))) }
    ensures inside { IfOk result (λ input. IsInside plan.now.algorithm plan.now.source input.graph.n) }
    ensures count { IfOk result (λ input. ForSome input.owners (λ owners. vec_len owners ≡ input.graph.n)) }
    ensures below { IfOk result (λ input. ForSome input.owners (λ owners. All (λ owner. owner < crew.now.ranks) owners.items)) }
    ensures in_blocks { IfOk result (λ input. plan.now.algorithm ≡ Algorithm.Grid → input.owners ≡ None) }
    ensures small { IfOk result (λ input. plan.now.algorithm ≡ Algorithm.Grid → IsSmallGrid input.graph) }
    ensures end { OnOk result (ReadsFiles plan.now.algorithm → IsReadToEnd (I.files inputs.old) (I.left inputs.new)) }
    ensures unread { plan.now.algorithm ≡ Algorithm.Grid → inputs.new ≡ inputs.old }
    ensures fails { IfErr result (InputFails (meaning_of plan.now) (I.files inputs.old) (I.faults inputs.old) (I.faults inputs.new)) }
    ensures later { I.faults inputs.old ≤ I.faults inputs.new }
    ensures files { I.files inputs.new ≡ I.files inputs.old }
{
    match plan.algorithm {
        Algorithm::Grid => make_grid(alloc, plan),
        _ => read_files(token, alloc, inputs, plan, crew),
    }
}
