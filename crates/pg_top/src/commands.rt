//! The program as one call: plans, reads, runs and writes.
ghost use Rattle.std.specs.Prelude.{◌≡◌, ◌<◌, ◌≤◌, ◌⊎◌, None, Some, List, ℕ, IfOk, IfErr, OnOk, OnErr};
ghost use Rattle.std.specs.Io.KnownBytes.{Appends};
ghost use Rattle.pg_outside.specs.Faults.{Rose};
ghost use Rattle.pg_outside.specs.Written.{AppendsFront};
ghost use Rattle.pg_metis.specs.Fault.{Fault as FirstFault, fault_of};
ghost use Rattle.pg_metis.specs.File.{FileOf};
ghost use Rattle.pg_metis.specs.Parts.{FirstPartsFault, parts_fault_of};
ghost use Rattle.pg_print.specs.FaultLines.{fault_line, status_of};
ghost use Rattle.pg_base.specs.Graph.{Graph};
ghost use Rattle.pg_words.specs.Built.{IsBuilt};
ghost use Rattle.pg_words.specs.Plan.{Meaning, meaning_of, plan_of, texts};
ghost use Rattle.pg_top.specs.Answered.{text_in};
ghost use Rattle.pg_top.specs.Files.{FileHolds, HasGraph, HasInput, IsReadToEnd, MissesFile, PartsHold, ReadsFiles};
ghost use Rattle.pg_top.specs.Run.{HasPlan, HasText, InputFails, IsOrNoMemory, IsOutside, PlanFails, PrepareFails, Reports, RunFails, Tells, TellsInput, TellsPartsFault, from_plan};
ghost use Rattle.pg_top.specs.Text.{IsInside};
ghost use Rattle.pg_top.specs.Work.{HasWork, IsSolved};

use crate::answers::print_answers;
use crate::inputs::read_input;
use crate::solving::{Solved, crew_of, solve};
use crate::{Algorithm, Answer, Plan, PlanFault, Work, plan};
use pg_base::{Gate, OutOfMemory, Status};
use pg_outside::{Inputs, Sink};
use pg_print::{Fault, print_fault};
use std::alloc::Global;
use std::sync::Wait;
use std::thread::Threads;

/// What a run's fault is where its words have no plan.
fn words_fault(fault: PlanFault) -> Fault
    ensures { result ≡ from_plan fault }
{
    match fault {
        PlanFault::BadWords => Fault::Words,
        PlanFault::OutOfMemory => Fault::Memory,
    }
}

/// The plan of the words, or why they have none.
fn plan_or_fault(alloc: Global, words: &[String]) -> Result<Plan, Fault>
    ensures planned { IfOk result (λ p. plan_of (texts words.now) ≡ Some (meaning_of p)) }
    ensures fails { IfErr result (PlanFails (texts words.now)) }
{
    match plan(alloc, words) {
        Ok(plan) => Ok(plan),
        Err(fault) => Err(words_fault(fault)),
    }
}

/// Reads what the plan names, and runs its algorithm.
fn find<W: Threads + Wait + Sync, I: Inputs, G: Gate>(
    token: &W,
    alloc: Global,
    inputs: &mut I,
    plan: &Plan,
    gate: &G,
) -> Result<Solved, Fault>
    requires { IsBuilt (meaning_of plan.now) }
    ensures found { IfOk result (λ s. HasInput (meaning_of plan.now) (I.files inputs.old)
        (λ g owners. IsSolved (meaning_of plan.now) g owners (text_in s.answers) s.work)) }
    ensures end { OnOk result (ReadsFiles plan.now.algorithm → IsReadToEnd (I.files inputs.old) (I.left inputs.new)) }
    ensures unread { plan.now.algorithm ≡ Algorithm.Grid → inputs.new ≡ inputs.old }
    ensures fails { IfErr result (InputFails (meaning_of plan.now) (I.files inputs.old) (I.faults inputs.old) (I.faults inputs.new)) }
    ensures later { I.faults inputs.old ≤ I.faults inputs.new }
    ensures files { I.files inputs.new ≡ I.files inputs.old }
{
    let crew = crew_of(plan);
    let input = read_input(token, alloc, inputs, plan, &crew)?;
    match solve(token, alloc, input, plan, &crew, gate) {
        Ok(solved) => Ok(solved),
        Err(OutOfMemory) => Err(Fault::Memory),
    }
}

/// Plans, reads and runs the plan's algorithm.
fn prepare<W: Threads + Wait + Sync, I: Inputs, G: Gate>(
    token: &W,
    alloc: Global,
    words: &[String],
    inputs: &mut I,
    gate: &G,
) -> Result<Solved, Fault>
    ensures found { IfOk result (λ s. HasPlan (texts words.now) (λ plan. HasInput plan (I.files inputs.old)
        (λ g owners. IsSolved plan g owners (text_in s.answers) s.work))) }
    ensures end { OnOk result (HasPlan (texts words.now) (λ plan. ReadsFiles plan.algorithm → IsReadToEnd (I.files inputs.old) (I.left inputs.new))) }
    ensures fails { IfErr result (PrepareFails (texts words.now) (I.files inputs.old) (I.faults inputs.old) (I.faults inputs.new)) }
    ensures unread { plan_of (texts words.now) ≡ None → inputs.new ≡ inputs.old }
    ensures made { (plan : Meaning) → plan_of (texts words.now) ≡ Some plan → plan.algorithm ≡ Algorithm.Grid → inputs.new ≡ inputs.old }
    ensures later { I.faults inputs.old ≤ I.faults inputs.new }
    ensures files { I.files inputs.new ≡ I.files inputs.old }
{
    let plan = plan_or_fault(alloc, words)?;
    find(token, alloc, inputs, &plan, gate)
}

/// Writes what was found to `out`.
fn write<S: Sink>(out: &mut S, solved: Solved) -> (Result<(), Fault>, Work)
    ensures printed { OnOk result.0 (Appends (S.text out.old) (S.text out.new) (text_in solved.answers)) }
    ensures front { OnErr result.0 (AppendsFront (S.text out.old) (S.text out.new) (text_in solved.answers)) }
    ensures cause { OnErr result.0 (Rose (S.faults out.old) (S.faults out.new)) }
    ensures fault { IfErr result.0 (λ fault. fault ≡ Fault.Write) }
    ensures work { result.1 ≡ solved.work }
    ensures later { S.faults out.old ≤ S.faults out.new }
{
    let Solved { answers, work } = solved;
    let written = match print_answers(out, &answers) {
        Ok(()) => Ok(()),
        Err(_) => Err(Fault::Write),
    };
    (written, work)
}

/// Plans, reads, runs the plan's algorithm and writes its answer to `out`.
fn run<W: Threads + Wait + Sync, I: Inputs, S: Sink, G: Gate>(
    token: &W,
    alloc: Global,
    words: &[String],
    inputs: &mut I,
    out: &mut S,
    gate: &G,
) -> (Result<(), Fault>, Work)
    ensures works { OnOk result.0 (HasPlan (texts words.now)
        (λ plan. HasWork plan (I.files inputs.old) result.1 (Appends (S.text out.old) (S.text out.new)))) }
    ensures works_partly { IfErr result.0 (λ fault. fault ≡ Fault.Write → HasPlan (texts words.now)
        (λ plan. HasWork plan (I.files inputs.old) result.1 (AppendsFront (S.text out.old) (S.text out.new)))) }
    ensures no_work { IfErr result.0 (λ fault. (fault ≡ Fault.Write → ⊥) → result.1 ≡ Work.None) }
    ensures printed { OnOk result.0 (HasPlan (texts words.now)
        (λ plan. HasText plan (I.files inputs.old) (Appends (S.text out.old) (S.text out.new)))) }
    ensures end { OnOk result.0 (HasPlan (texts words.now) (λ plan. ReadsFiles plan.algorithm → IsReadToEnd (I.files inputs.old) (I.left inputs.new))) }
    ensures fails { IfErr result.0 (RunFails (texts words.now) (I.files inputs.old) (record {
      inputs_before = I.faults inputs.old;
      inputs_after = I.faults inputs.new;
      out_before = S.faults out.old;
      out_after = S.faults out.new;
      text_before = S.text out.old;
      text_after = S.text out.new;
    })) }
    ensures silent { IfErr result.0 (λ fault. (fault ≡ Fault.Write → ⊥) → out.new ≡ out.old) }
    ensures unread { plan_of (texts words.now) ≡ None → inputs.new ≡ inputs.old }
    ensures made { (plan : Meaning) → plan_of (texts words.now) ≡ Some plan → plan.algorithm ≡ Algorithm.Grid → inputs.new ≡ inputs.old }
    ensures later { I.faults inputs.old ≤ I.faults inputs.new }
    ensures files { I.files inputs.new ≡ I.files inputs.old }
    ensures out_later { S.faults out.old ≤ S.faults out.new }
{
    match prepare(token, alloc, words, inputs, gate) {
        Ok(solved) => write(out, solved),
        Err(fault) => (Err(fault), Work::None),
    }
}

/// Runs the program: the words after its name, a source of files, standard output and standard error. `token` starts the
/// threads, and each rank passes `gate` before each of its turns.
///
/// With status `Ok`, `out` grew by exactly the text of the words' plan for its graph: that of which the plan's file is one,
/// or the grid that the words describe. This is a line for each vertex from 1 to n: for `bfs` the least number of arcs of a
/// walk from the source, for `sssp` the least weight of one, `-` where no walk leads there, for `components` the least
/// vertex that a walk joins to it, and for `colour` a colour from 0, at most its degree, that no neighbour has, on one rank
/// the colour of first fit. For `forest` it is a line `u v w` for each edge of the least spanning forest, ascending, ties in
/// weight going by (u, v), and then `total T` with the sum of the weights; no edges that span weigh less. For `grid` it is
/// seven lines with numbers that are counted from what the algorithms answer, distances from vertex 1; the last one says
/// that no edge has ends of one colour. But for colours the text is the same for every number of ranks and threads, every
/// capacity of lanes and every partition file. With every other status one line that names the fault was written to `errs`,
/// whose own faults change nothing.
///
/// The first fault that is met is answered, in this order: the words (`BadWords`), beginning and reading the
/// graph file (`ReadFault`, `BadGraph`), beginning and reading the partition file (`ReadFault`, `BadParts`), the source
/// (`BadSource`), the writing (`WriteFault`, after a front of the text). Being out of memory (`NoMemory`) may come
/// before the first write to `out`. Nothing is written to `out` with any status but `Ok` and `WriteFault`. Where the
/// words have no plan, and for a grid, no name is begun and nothing is read.
///
/// With `Ok` and `WriteFault` the final programs and the settled lanes of this very run are handed back, which hold what
/// the text spells.
///
/// Source: each algorithm's is named with its type: `Levels` for `bfs`, `Buckets` for `sssp`, `Relax` for `components`, `Dense`
/// for `forest`, `Colouring` for `colour`.
pub fn command<W: Threads + Wait + Sync, I: Inputs, S: Sink, E: Sink, G: Gate>(
    token: &W,
    alloc: Global,
    words: &[String],
    inputs: &mut I,
    out: &mut S,
    errs: &mut E,
    gate: &G,
) -> Answer
    ensures prints { result.status ≡ Status.Ok → HasPlan (texts words.now)
        (λ plan. HasText plan (I.files inputs.old) (Appends (S.text out.old) (S.text out.new))) }
    ensures works { result.status ≡ Status.Ok → HasPlan (texts words.now)
        (λ plan. HasWork plan (I.files inputs.old) result.work (Appends (S.text out.old) (S.text out.new))) }
    ensures works_partly { result.status ≡ Status.WriteFault → HasPlan (texts words.now)
        (λ plan. HasWork plan (I.files inputs.old) result.work (AppendsFront (S.text out.old) (S.text out.new))) }
    ensures no_work { (result.status ≡ Status.Ok → ⊥) → (result.status ≡ Status.WriteFault → ⊥) → result.work ≡ Work.None }
    ensures read_to_end { result.status ≡ Status.Ok → HasPlan (texts words.now)
        (λ plan. ReadsFiles plan.algorithm → IsReadToEnd (I.files inputs.old) (I.left inputs.new)) }
    ensures silent { (result.status ≡ Status.Ok → ⊥) → (result.status ≡ Status.WriteFault → ⊥) →
        out.new ≡ out.old }

    // Only where the cause stands.
    ensures bad_words { result.status ≡ Status.BadWords → plan_of (texts words.now) ≡ None }
    ensures bad_graph { result.status ≡ Status.BadGraph → HasPlan (texts words.now)
        (λ plan. ReadsFiles plan.algorithm × FileHolds plan.file (I.files inputs.old) (λ text. (fault : FirstFault) × (fault_of text ≡ Some fault))) }
    ensures bad_parts { result.status ≡ Status.BadParts → HasPlan (texts words.now)
        (λ plan. ReadsFiles plan.algorithm × HasGraph plan.file (I.files inputs.old) (λ g. PartsHold plan.parts (I.files inputs.old)
        (λ text. (fault : FirstPartsFault) × (parts_fault_of g.n plan.ranks text ≡ Some fault)))) }
    ensures bad_source { result.status ≡ Status.BadSource → HasPlan (texts words.now)
        (λ plan. HasInput plan (I.files inputs.old) (λ g owners. IsOutside plan g.n)) }
    ensures read_fault { result.status ≡ Status.ReadFault → HasPlan (texts words.now)
        (λ plan. ReadsFiles plan.algorithm × (Rose (I.faults inputs.old) (I.faults inputs.new) ⊎ MissesFile plan (I.files inputs.old))) }
    ensures write_fault { result.status ≡ Status.WriteFault → HasPlan (texts words.now)
        (λ plan. Rose (S.faults out.old) (S.faults out.new) ×
        HasText plan (I.files inputs.old) (AppendsFront (S.text out.old) (S.text out.new))) }

    // And wherever the cause stands, unless the run is out of memory.
    ensures no_plan { plan_of (texts words.now) ≡ None → IsOrNoMemory Status.BadWords result.status }
    ensures malformed { (plan : Meaning) (text : List ℕ) (fault : FirstFault) →
        Tells (texts words.now) (I.files inputs.old) plan text → fault_of text ≡ Some fault →
        (Rose (I.faults inputs.old) (I.faults inputs.new) → ⊥) →
        IsOrNoMemory Status.BadGraph result.status }
    ensures malformed_parts { (plan : Meaning) (g : Graph) (fault : FirstPartsFault) →
        TellsPartsFault (texts words.now) (I.files inputs.old) plan g fault →
        (Rose (I.faults inputs.old) (I.faults inputs.new) → ⊥) →
        IsOrNoMemory Status.BadParts result.status }
    ensures outside { (plan : Meaning) (g : Graph) →
        TellsInput (texts words.now) (I.files inputs.old) plan g → IsOutside plan g.n →
        (Rose (I.faults inputs.old) (I.faults inputs.new) → ⊥) →
        IsOrNoMemory Status.BadSource result.status }
    ensures complete { (plan : Meaning) (g : Graph) →
        TellsInput (texts words.now) (I.files inputs.old) plan g → IsInside plan.algorithm plan.source g.n →
        (Rose (I.faults inputs.old) (I.faults inputs.new) → ⊥) →
        (Rose (S.faults out.old) (S.faults out.new) → ⊥) → IsOrNoMemory Status.Ok result.status }
    ensures complete_grid { (plan : Meaning) → plan_of (texts words.now) ≡ Some plan → plan.algorithm ≡ Algorithm.Grid →
        (Rose (S.faults out.old) (S.faults out.new) → ⊥) → IsOrNoMemory Status.Ok result.status }

    // What is reported of a fault.
    ensures quiet { result.status ≡ Status.Ok → errs.new ≡ errs.old }
    ensures reports { (result.status ≡ Status.Ok → ⊥) → (fault : Fault) ×
        (result.status ≡ status_of fault) ×
        RunFails (texts words.now) (I.files inputs.old) (record {
          inputs_before = I.faults inputs.old;
          inputs_after = I.faults inputs.new;
          out_before = S.faults out.old;
          out_after = S.faults out.new;
          text_before = S.text out.old;
          text_after = S.text out.new;
        }) fault ×
        Reports (E.faults errs.old) (E.faults errs.new) (E.text errs.old) (E.text errs.new) (fault_line fault) }

    // What stays.
    ensures unread { plan_of (texts words.now) ≡ None → inputs.new ≡ inputs.old }
    ensures made { (plan : Meaning) → plan_of (texts words.now) ≡ Some plan → plan.algorithm ≡ Algorithm.Grid → inputs.new ≡ inputs.old }
    ensures files { I.files inputs.new ≡ I.files inputs.old }
    ensures later { I.faults inputs.old ≤ I.faults inputs.new }
    ensures out_later { S.faults out.old ≤ S.faults out.new }
    ensures errs_later { E.faults errs.old ≤ E.faults errs.new }
{
    let (ended, work) = run(token, alloc, words, inputs, out, gate);
    match ended {
        Ok(()) => Answer {
            status: Status::Ok,
            work,
        },
        Err(fault) => {
            let _ = print_fault(errs, &fault);
            Answer {
                status: fault.status(),
                work,
            }
        }
    }
}
