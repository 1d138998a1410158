//! What a run answers, and its text.
ghost use Rattle.std.specs.Prelude.{◌≤◌, OnOk, OnErr};
ghost use Rattle.std.specs.Io.KnownBytes.{Appends};
ghost use Rattle.pg_outside.specs.Faults.{Rose};
ghost use Rattle.pg_outside.specs.Written.{AppendsFront};
ghost use Rattle.pg_top.specs.Answered.{text_in};

use crate::columns::{Numbers, Tree};
use pg_outside::{Failed, Sink};
use pg_print::{Summary, print_column, print_forest, print_summary};

/// What a run answers.
#[derive(Drop)]
pub(crate) enum Answers {
    Column(Numbers),
    Forest(Tree),
    Summary(Summary),
}

/// Writes the text of the answers. `Err` says that a write failed; a front of the text may be written then.
pub(crate) fn print_answers<S: Sink>(out: &mut S, answers: &Answers) -> Result<(), Failed>
    ensures ok { OnOk result (Appends (S.text out.old) (S.text out.new) (text_in answers.now)) }
    ensures err { OnErr result (AppendsFront (S.text out.old) (S.text out.new) (text_in answers.now)) }
    ensures cause { OnErr result (Rose (S.faults out.old) (S.faults out.new)) }
    ensures later { S.faults out.old ≤ S.faults out.new }
{
    match answers {
        Answers::Column(numbers) => print_column(out, numbers),
        Answers::Forest(tree) => print_forest(out, &tree.graph, &tree.indices),
        Answers::Summary(summary) => print_summary(out, summary),
    }
}
