//! How often a turn lets a program work.
ghost use Rattle.std.specs.Prelude.{◌≡◌, ◌≤◌, ◌<◌, IfOk, length};
ghost use Rattle.pg_group.specs.Entries.{Each};

use pg_base::{OpenGate, OutOfMemory, RankNo, Ranks};
use pg_group::{Next, Outbox, Program, Vote, Worked};
use pg_lane::RingLanes;
use pg_run::{Turn, assemble, run};
use std::alloc::Global;
use std::test::Fail;

const ZEROS: Vote = Vote {
    a: 0,
    b: 0,
    c: 0,
    d: 0,
};

// A program of one round whose items send nothing. It counts the calls of its `work`.
#[derive(Clone, Copy, Debug)]
struct Busy {
    rank: RankNo,
    ranks: Ranks,
    left: u32,
    calls: u64,
    idle: bool,
    cast: Option<Vote>,
    ended: bool,
    ghost in_group: { rank.0 < ranks },
}

impl Busy {
    ghost use Rattle.std.specs.Prelude.{false, None};

    fn new(rank: RankNo, ranks: Ranks, items: u32) -> Busy
        requires { rank.0 < ranks }
        ensures new { ⟦<Busy as Program>⟧.IsNew result }
        ensures own { ⟦<Busy as Program>⟧.own result ≡ rank.0 }
        ensures size { ⟦<Busy as Program>⟧.size result ≡ ranks }
    {
        Busy {
            rank,
            ranks,
            left: items,
            calls: 0,
            idle: false,
            cast: None,
            ended: false,
        }
    }
}

impl Program for Busy {
    ghost use Rattle.std.specs.Prelude.{◌≡◌, ⊤, true, false, None};

    type Body = u32;

    ghost own = { λ p. p.rank.0 };

    ghost size = { λ p. p.ranks };

    ghost round = { λ p. 0 };

    ghost cast = { λ p. p.cast };

    ghost idle = { λ p. p.idle };

    ghost ended = { λ p. p.ended };

    ghost IsNew = { λ p. (p.cast ≡ None) × (p.idle ≡ false) × (p.ended ≡ false) };

    ghost Keeps = { λ start handled sent now. ⊤ };

    ghost DidItem = { λ old sent new more. more ≡ sent };

    ghost DidHandle = { λ old from body new. new ≡ old };

    ghost DidNothing = { λ old new. new.left ≡ old.left };

    ghost IsVote = { λ vote. ⊤ };

    ghost NothingLeft = { λ p. p.left ≡ 0 };

    fn rank(&self) -> RankNo {
        self.rank
    }

    fn ranks(&self) -> Ranks {
        self.ranks
    }

    fn handle(&mut self, _from: RankNo, _body: u32) {}

    fn work<O: Outbox<u32>>(&mut self, _out: &mut O) -> Worked {
        self.calls = self.calls.wrapping_add(1);
        if self.left == 0 {
            self.idle = true;
            return Worked::Idle;
        }
        self.left -= 1;
        self.idle = false;
        Worked::More
    }

    fn vote(&mut self) -> Vote {
        self.cast = Some(ZEROS);
        ZEROS
    }

    fn round_end(&mut self, _votes: &[Vote]) -> Next {
        self.ended = true;
        Next::Stop
    }
}

// A busy program for each rank of a group.
fn busy_programs(alloc: Global, ranks: Ranks, items: u32) -> Result<Vec<Busy>, OutOfMemory>
    ensures count { IfOk result (λ programs. length programs.items ≡ ranks) }
    ensures new { IfOk result (λ programs. Each (λ rank p. ⟦<Busy as Program>⟧.IsNew p) programs.items) }
    ensures own { IfOk result (λ programs. Each (λ rank p. ⟦<Busy as Program>⟧.own p ≡ rank) programs.items) }
    ensures size { IfOk result (λ programs. Each (λ rank p. ⟦<Busy as Program>⟧.size p ≡ ranks) programs.items) }
{
    let mut programs = Vec::new(alloc);
    for rank in 0..ranks.count() {
        let Ok(()) = programs.push(Busy::new(RankNo(rank), ranks, items)) else {
            return Err(OutOfMemory);
        };
    }
    Ok(programs)
}

#[test]
fn a_turn_works_256_items_that_send_nothing_and_tells_that_it_moved(
    rt: HostRuntime,
) -> Result<(), Fail> {
    let ranks = Ranks::new(2).ok_or("no number of ranks")?;
    let programs = busy_programs(rt.alloc(), ranks, 300)?;
    let mut group = assemble::<Busy, RingLanes>(&(), rt.alloc(), programs, 1)?;
    let first = group.machines().first_mut().ok_or("no machine")?;
    assert_eq!(rt; first.turn(), Turn::Moved);
    assert_eq!(rt; first.program().calls, 256);
    assert_eq!(rt; first.turn(), Turn::Moved);
    assert_eq!(rt; first.program().calls, 301);
    assert_eq!(rt; first.turn(), Turn::Waiting);
    assert_eq!(rt; first.program().calls, 301);
    Ok(())
}

#[test]
fn a_run_works_each_item_once(rt: HostRuntime) -> Result<(), Fail> {
    let ranks = Ranks::new(3).ok_or("no number of ranks")?;
    let programs = busy_programs(rt.alloc(), ranks, 1000)?;
    let group = assemble::<Busy, RingLanes>(&(), rt.alloc(), programs, 1)?;
    let finished = run(&rt, group, 1, &OpenGate);
    assert_eq!(rt; finished.programs.len(), 3);
    for program in &finished.programs {
        assert_eq!(rt; program.left, 0);
        assert_eq!(rt; program.calls, 1001);
    }
    Ok(())
}

#[test]
fn a_run_goes_on_after_a_pass_of_100_000_turns(rt: HostRuntime) -> Result<(), Fail> {
    let ranks = Ranks::new(2).ok_or("no number of ranks")?;
    let programs = busy_programs(rt.alloc(), ranks, 30_000_000)?;
    let group = assemble::<Busy, RingLanes>(&(), rt.alloc(), programs, 1)?;
    let finished = run(&rt, group, 2, &OpenGate);
    assert_eq!(rt; finished.programs.len(), 2);
    for program in &finished.programs {
        assert_eq!(rt; program.left, 0);
        assert_eq!(rt; program.calls, 30_000_001);
    }
    Ok(())
}
