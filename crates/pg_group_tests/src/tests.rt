//! Groups of ranks as they are made, a round of two ranks, and a round of rolls.
ghost use Rattle.std.specs.Prelude.{◌≡◌, ◌+◌, false, None, Some, IfSome};
ghost use Rattle.pg_group.specs.Ranked.{flag_at};
ghost use Rattle.pg_group.specs.Supersteps.{AreUnmarked};

use pg_base::{RankNo, Ranks};
use pg_group::*;
use pg_lane::{Full, RingLanes};
use std::test::*;

#[test]
fn a_group_has_a_port_for_each_rank(rt: HostRuntime) -> Result<(), Fail> {
    for count in [1, 2, 3, 32] {
        let ranks = Ranks::new(count).ok_or("no number of ranks")?;
        let narrow = ports::<u32, RingLanes>(&(), rt.alloc(), ranks, 1)?;
        assert_eq!(rt; narrow.len(), count as usize);
        let wide = ports::<u32, RingLanes>(&(), rt.alloc(), ranks, 1024)?;
        assert_eq!(rt; wide.len(), count as usize);
    }
    Ok(())
}

const LEFT: RankNo = RankNo(0);

const RIGHT: RankNo = RankNo(1);

const VOTE: Vote = Vote {
    a: 1,
    b: 2,
    c: 3,
    d: 4,
};

type Sends = (Result<(), Full<u32>>, Result<(), Full<Vote>>);

type Polls = (Polled<u32>, Polled<u32>, Polled<u32>);

// The left of two ranks sends an item and its mark, and the right one polls three times.
fn send_right<M: Mailbox<u32>>(left: &mut M, right: &mut M) -> (Sends, Polls)
    requires left { (M.own left.old ≡ 0) × (M.size left.old ≡ 2) }
    requires right { (M.own right.old ≡ 1) × (M.size right.old ≡ 2) }
    requires unmarked { flag_at (M.marks_sent left.old) 1 ≡ false }
    ensures left { (M.own left.new ≡ 0) × (M.size left.new ≡ 2) }
    ensures right { (M.own right.new ≡ 1) × (M.size right.new ≡ 2) }
    ensures unmarked { M.marks_sent right.new ≡ M.marks_sent right.old }
    ensures wiring { (M.wiring left.new ≡ M.wiring left.old) × (M.wiring right.new ≡ M.wiring right.old) }
{
    let sends = (left.send(RIGHT, 5), left.send_mark(RIGHT, VOTE));
    let polls = (right.poll(LEFT), right.poll(LEFT), right.poll(LEFT));
    (sends, polls)
}

type Answered = (Polled<u32>, Result<(), Full<Vote>>, Polled<u32>);

// The left of two ranks polls before and after the right one sends its mark.
fn mark_left<M: Mailbox<u32>>(left: &mut M, right: &mut M) -> Answered
    requires left { (M.own left.old ≡ 0) × (M.size left.old ≡ 2) }
    requires right { (M.own right.old ≡ 1) × (M.size right.old ≡ 2) }
    requires unmarked { flag_at (M.marks_sent right.old) 0 ≡ false }
    ensures left { (M.own left.new ≡ 0) × (M.size left.new ≡ 2) }
    ensures right { (M.own right.new ≡ 1) × (M.size right.new ≡ 2) }
    ensures wiring { (M.wiring left.new ≡ M.wiring left.old) × (M.wiring right.new ≡ M.wiring right.old) }
{
    let before = left.poll(RIGHT);
    let sent = right.send_mark(LEFT, VOTE);
    (before, sent, left.poll(RIGHT))
}

// Begins the next round of one of two ranks, if this one has ended.
fn end_round<M: Mailbox<u32>>(port: &mut M, other: RankNo) -> bool
    requires pair { (M.own port.old + other.0 ≡ 1) × (M.size port.old ≡ 2) }
    ensures own { M.own port.new ≡ M.own port.old }
    ensures size { M.size port.new ≡ M.size port.old }
    ensures wiring { M.wiring port.new ≡ M.wiring port.old }
{
    let ended = port.marked(other) && port.closed(other);
    if ended {
        port.next_round();
    }
    ended
}

#[test]
fn a_round_of_two_ranks_ends_with_their_marks(rt: HostRuntime) -> Result<(), Fail> {
    let ranks = Ranks::new(2).ok_or("no number of ranks")?;
    let mut group = ports::<u32, RingLanes>(&(), rt.alloc(), ranks, 2)?;
    let mut right = group.pop().ok_or("no right port")?;
    let mut left = group.pop().ok_or("no left port")?;
    let (sends, polls) = send_right(&mut left, &mut right);
    assert_eq!(rt; sends, (Ok(()), Ok(())));
    assert_eq!(rt;
        polls,
        (Polled::Item(5), Polled::Mark(VOTE), Polled::Closed)
    );
    let answered = mark_left(&mut left, &mut right);
    assert_eq!(rt; answered, (Polled::Empty, Ok(()), Polled::Mark(VOTE)));
    assert!(rt; end_round(&mut left, RIGHT));
    assert!(rt; end_round(&mut right, LEFT));
    assert_eq!(rt; right.poll(LEFT), Polled::Empty);
    group.push(left)?;
    group.push(right)?;
    let mut lanes = Vec::with_capacity(rt.alloc(), 2)?;
    close_ports(group, &mut lanes);
    assert_eq!(rt; lanes.len(), 2);
    assert_eq!(rt; (lanes[0].pushed(), lanes[0].left()), (2, 0));
    assert_eq!(rt; (lanes[1].pushed(), lanes[1].left()), (1, 0));
    Ok(())
}

type Rolled = (Worked, Vote, Result<(), Full<Vote>>, Polls);

// The left of two ranks works until no item is left, votes and sends its mark, and the right one polls three
// times. `None` where an item is left after the first.
fn roll_right<M: Mailbox<u32>>(roll: &mut Roll, left: &mut M, right: &mut M) -> Option<Rolled>
    requires roll { (roll.old.rank.0 ≡ 0) × (roll.old.ranks ≡ 2) × (roll.old.cast ≡ None) }
    requires left { (M.own left.old ≡ 0) × (M.size left.old ≡ 2) }
    requires right { (M.own right.old ≡ 1) × (M.size right.old ≡ 2) }
    requires unmarked { AreUnmarked (M.marks_sent left.old) }
    ensures same_rank { roll.new.rank.0 ≡ 0 }
    ensures same_ranks { roll.new.ranks ≡ 2 }
    ensures same_ended { roll.new.ended ≡ roll.old.ended }
    ensures cast { IfSome result (λ rolled. roll.new.cast ≡ Some rolled.1) }
{
    let first = roll.work(left);
    match roll.work(left) {
        Worked::Idle => {
            let vote = roll.vote();
            let sent = left.send_mark(RIGHT, vote);
            let polls = (right.poll(LEFT), right.poll(LEFT), right.poll(LEFT));
            Some((first, vote, sent, polls))
        }
        _ => None,
    }
}

#[test]
fn a_roll_sends_one_number_a_round_and_counts_what_it_gets(rt: HostRuntime) -> Result<(), Fail> {
    let zeros = Vote {
        a: 0,
        b: 0,
        c: 0,
        d: 0,
    };
    let ranks = Ranks::new(2).ok_or("no number of ranks")?;
    let mut group = ports::<u32, RingLanes>(&(), rt.alloc(), ranks, 2)?;
    let mut right = group.pop().ok_or("no right port")?;
    let mut left = group.pop().ok_or("no left port")?;
    let mut roll = Roll::new(LEFT, ranks, 1);
    let rolled = roll_right(&mut roll, &mut left, &mut right).ok_or("a second item")?;
    let polls = (Polled::Item(0), Polled::Mark(zeros), Polled::Closed);
    assert_eq!(rt; rolled, (Worked::More, zeros, Ok(()), polls));
    roll.handle(RIGHT, 1);
    assert_eq!(rt; roll.round_end(&[rolled.1, zeros]), Next::Stop);
    assert_eq!(rt; roll.taken(), 1);
    Ok(())
}
