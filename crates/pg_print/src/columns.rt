//! Answers for each vertex, one line each.
ghost use Rattle.std.specs.Prelude.{◌≡◌, ◌≤◌, ◌-◌, Option, List, ℕ, Some, length, slice_get, OnOk, OnErr};
ghost use Rattle.std.specs.Io.KnownBytes.{Appends};
ghost use Rattle.pg_outside.specs.Faults.{Rose};
ghost use Rattle.pg_outside.specs.Written.{AppendsFront};
ghost use Rattle.pg_print.specs.Columns.{answer_line, column_text};

use itoa::write_digits;
use pg_base::Vertex;
use pg_outside::{Failed, Sink};

/// The most digits of a number, and the newline after them.
const NUMBER_LINE: usize = 21;

/// One answer for each vertex, or none for some.
pub trait Column {
    /// The answers of the vertices 1, 2 and so on.
    ghost answers: { Self → List (Option ℕ) };

    /// The number of vertices.
    fn len(&self) -> u32
        ensures { result ≡ length (answers self.now) };

    /// The answer of a vertex from 1 to `len`, or `None` where it has none.
    fn at(&self, v: Vertex) -> Option<u64>
        requires first { 1 ≤ v.0 }
        requires last { v.0 ≤ length (answers self.now) }
        ensures { slice_get (answers self.now) (v.0 - 1) ≡ Some result };
}

/// Writes the answer of each vertex in a line of its own, `-` where there is none, each line by one call. After
/// an `Err`, which comes only where the sink's count of faults rose, a front of this text was written.
/// Source: docs/FORMAT.md, the texts of answers.
pub fn print_column<S: Sink, C: Column>(out: &mut S, column: &C) -> Result<(), Failed>
    ensures ok { OnOk result (Appends (S.text out.old) (S.text out.new) (column_text (C.answers column.now))) }
    ensures err { OnErr result (AppendsFront (S.text out.old) (S.text out.new) (column_text (C.answers column.now))) }
    ensures cause { OnErr result (Rose (S.faults out.old) (S.faults out.new)) }
    ensures later { S.faults out.old ≤ S.faults out.new }
{
    for place in 0..column.len() {
        print_answer(out, column.at(Vertex(place + 1)))?;
    }
    Ok(())
}

/// Writes one answer in a line.
fn print_answer<S: Sink>(out: &mut S, answer: Option<u64>) -> Result<(), Failed>
    ensures ok { OnOk result (Appends (S.text out.old) (S.text out.new) (answer_line answer)) }
    ensures err { OnErr result (AppendsFront (S.text out.old) (S.text out.new) (answer_line answer)) }
    ensures cause { OnErr result (Rose (S.faults out.old) (S.faults out.new)) }
    ensures later { S.faults out.old ≤ S.faults out.new }
{
    let Some(number) = answer else {
        return out.write_all(b"-\n");
    };
    let mut line = [b'\n'; NUMBER_LINE];
    let start = write_digits(number, &mut line, NUMBER_LINE - 1);
    out.write_all(&line[start..])
}
