//! What the definitions of this crate's `specs/` say of small columns, forests and summaries, and of each fault. No
//! call does anything: each is proved to meet the laws that its clauses state.

ghost use Rattle.std.specs.Prelude.{◌≡◌, Some, None, [], ◌∷◌, codes};
ghost use Rattle.pg_print.specs.Columns.{answer_line, column_text};
ghost use Rattle.pg_base.specs.Examples.{path_edges};
ghost use Rattle.pg_print.specs.FaultLines.{fault_line, status_of};
ghost use Rattle.pg_print.specs.Forests.{edges_at, forest_text};
ghost use Rattle.pg_print.specs.Summaries.{summary_text};

use crate::Fault;
use pg_base::Status;
use pg_metis::{Kind, PartsKind};

/// The line of an answer, and the lines of a column.
pub fn answers()
    ensures zero { answer_line (Some 0) ≡ codes "0\n" }
    ensures twelve { answer_line (Some 12) ≡ codes "12\n" }
    ensures none { answer_line None ≡ codes "-\n" }
    ensures no_column { column_text [] ≡ [] }
    ensures column { column_text (Some 0 ∷ None ∷ Some 12 ∷ []) ≡ codes "0\n-\n12\n" }
{}

/// The lines of a forest, for a path with the weights 5 and 2.
pub fn forests()
    ensures no_edge { forest_text [] ≡ codes "total 0\n" }
    ensures path { forest_text path_edges ≡ codes "1 2 5\n2 3 2\ntotal 7\n" }
    ensures chosen { forest_text (edges_at path_edges (1 ∷ [])) ≡ codes "2 3 2\ntotal 2\n" }
{}

/// The lines of a summary.
pub fn summaries()
    ensures { summary_text (record {
      vertices = 4;
      edges = 3;
      hops = record { count = 3; far = 2; sum = 3 };
      weights = record { count = 3; far = 7; sum = 12 };
      components = 2;
      forest = 2;
      total = 10;
      clashes = 0;
    }) ≡ codes "vertices 4\nedges 3\nhops 3 2 3\nweights 3 7 12\ncomponents 2\nforest 2 10\nclashes 0\n" }
{}

/// The line that reports each fault.
pub fn fault_lines()
    ensures words { fault_line Fault.Words ≡ codes "bad words\n" }
    ensures graph { fault_line (Fault.Graph 3 Kind.NoMirror) ≡ codes "line 3: NoMirror\n" }
    ensures header { fault_line (Fault.Graph 1 Kind.HeaderWords) ≡ codes "line 1: HeaderWords\n" }
    ensures parts { fault_line (Fault.Parts 3 PartsKind.OutOfRange) ≡ codes "parts line 3: OutOfRange\n" }
    ensures source { fault_line (Fault.Source 0) ≡ codes "source 0: not in the graph\n" }
    ensures read { fault_line Fault.Read ≡ codes "cannot read\n" }
    ensures write { fault_line Fault.Write ≡ codes "cannot write\n" }
    ensures memory { fault_line Fault.Memory ≡ codes "no memory\n" }
{}

/// The status that a run with each fault ends with.
pub fn fault_statuses()
    ensures words { status_of Fault.Words ≡ Status.BadWords }
    ensures graph { status_of (Fault.Graph 3 Kind.NoMirror) ≡ Status.BadGraph }
    ensures parts { status_of (Fault.Parts 3 PartsKind.OutOfRange) ≡ Status.BadParts }
    ensures source { status_of (Fault.Source 0) ≡ Status.BadSource }
    ensures read { status_of Fault.Read ≡ Status.ReadFault }
    ensures write { status_of Fault.Write ≡ Status.WriteFault }
    ensures memory { status_of Fault.Memory ≡ Status.NoMemory }
{}
