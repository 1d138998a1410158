//! Which names a run begins.

ghost use Rattle.std.specs.Prelude.{Some};
ghost use Rattle.pg_outside.specs.MemoryInputs.{faults_of, files_of, is_begun, left_of};

use crate::running::{PATH, ROOM, texts, words_of};
use pg_base::OpenGate;
use pg_outside::{Failed, Inputs, MemoryInputs, MemorySink};
use pg_top::command;
use std::test::Fail;

/// A source that counts how often a name was begun, that of the file `B` and others apart.
#[derive(Drop)]
struct CountingInputs {
    inner: MemoryInputs,
    begun: u8,
    others: u8,
}

impl Inputs for CountingInputs {
    ghost faults = { λ inputs. faults_of inputs.inner };

    ghost files = { λ inputs. Some (files_of inputs.inner) };

    ghost begun = { λ inputs. is_begun inputs.inner };

    ghost left = { λ inputs. left_of inputs.inner };

    fn begin(&mut self, name: &str) -> Result<(), Failed> {
        if name == "B" {
            self.begun = self.begun.saturating_add(1);
        } else {
            self.others = self.others.saturating_add(1);
        }
        self.inner.begin(name)
    }

    fn read(&mut self, buf: &mut [u8]) -> Result<usize, Failed> {
        self.inner.read(buf)
    }
}

#[test]
fn no_name_is_begun_but_that_of_the_plan(rt: HostRuntime) -> Result<(), Fail> {
    let alloc = rt.alloc();
    for (line, begun) in [
        ("bfs B --source 1 ", 1),
        ("bfs B --source 9 ", 1),
        ("bfs B ", 0),
        ("bfs B --source x ", 0),
        ("bfs B --source 1 --threads 33 ", 0),
        ("bfs B --source 1 --ranks 2 ", 1),
        ("bfs B --source 1 --parts B ", 2),
        ("components B ", 1),
        ("forest B ", 1),
        ("forest B --source 1 ", 0),
        ("colour B ", 1),
        ("grid --width 2 --height 2 --seed 7 ", 0),
    ] {
        let file = Vec::from_slice(alloc, PATH.as_bytes())?;
        let files = vec![in alloc; (String::from_str(alloc, "B")?, file)]?;
        let mut inputs = CountingInputs {
            inner: MemoryInputs::new(files, 8, Vec::new(alloc)),
            begun: 0,
            others: 0,
        };
        let mut out = MemorySink::new(alloc, ROOM, Vec::new(alloc))?;
        let mut errs = MemorySink::new(alloc, ROOM, Vec::new(alloc))?;
        let words = texts(alloc, &words_of(alloc, line)?)?;
        let _ = command(
            &rt,
            alloc,
            &words,
            &mut inputs,
            &mut out,
            &mut errs,
            &OpenGate,
        );
        assert_eq!(rt; (inputs.begun, inputs.others), (begun, 0), "{line}");
    }
    Ok(())
}
