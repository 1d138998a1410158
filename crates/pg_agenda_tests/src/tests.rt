//! Levels and buckets by hand: what is ready after which votes.
ghost use Rattle.std.specs.Prelude.{◌≡◌, ◌<◌, ℕ, true};

use pg_agenda::*;
use pg_group::Vote;
use std::test::Fail;

/// In place of a bucket: there is none.
const NONE: u64 = u64::MAX;

fn vote(a: u64, b: u64) -> Vote {
    Vote { a, b, c: 0, d: 0 }
}

// Marks a place, agrees on the agenda's own vote alone, and takes what is ready.
fn marked_and_taken<A: Agenda>(agenda: &mut A, place: u32) -> Option<(u32, Share)>
    requires { place < A.count agenda.old }
    ensures { A.count agenda.new ≡ A.count agenda.old }
{
    agenda.mark(place, 0);
    let vote = agenda.vote(false);
    agenda.begin(&[vote]);
    agenda.pop()
}

#[test]
fn a_marked_place_is_given_from_the_next_round_on(rt: HostRuntime) -> Result<(), Fail> {
    let mut levels = Levels::new(rt.alloc(), 2).expect(&rt, "memory");
    levels.mark(1, 0);
    assert_eq!(rt; levels.pop(), None);
    let ours = levels.vote(false);
    assert_eq!(rt; ours, vote(0, 0));
    levels.begin(&[ours]);
    assert_eq!(rt; levels.pop(), Some((1, Share::All)));
    assert_eq!(rt; levels.pop(), None);
    assert_eq!(rt; levels.vote(true), vote(NONE, 1));
    Ok(())
}

#[test]
fn every_arc_belongs_to_the_whole_share(rt: HostRuntime) -> Result<(), Fail> {
    let levels = Levels::new(rt.alloc(), 1).expect(&rt, "memory");
    assert!(rt; levels.takes(Share::All, 6));
    Ok(())
}

#[test]
fn what_is_left_in_this_level_stays_in_it(rt: HostRuntime) -> Result<(), Fail> {
    let mut levels = Levels::new(rt.alloc(), 3).expect(&rt, "memory");
    levels.mark(0, 0);
    levels.begin(&[]);
    assert_eq!(rt; marked_and_taken(&mut levels, 0), Some((0, Share::All)));
    assert_eq!(rt; marked_and_taken(&mut levels, 2), Some((2, Share::All)));
    assert_eq!(rt; levels.vote(false), vote(NONE, 0));
    Ok(())
}

// Agrees on these votes alone.
fn begun_with<A: Agenda>(agenda: &mut A, a: u64, b: u64)
    ensures { A.count agenda.new ≡ A.count agenda.old }
{
    agenda.begin(&[vote(a, b)]);
}

#[test]
fn light_arcs_come_in_the_agreed_bucket_and_heavy_arcs_after_it(
    rt: HostRuntime,
) -> Result<(), Fail> {
    let mut buckets = Buckets::new(rt.alloc(), 2, 5).expect(&rt, "memory");
    buckets.mark(0, 12);
    assert_eq!(rt; buckets.pop(), None);
    assert_eq!(rt; buckets.vote(false), vote(2, 0));
    begun_with(&mut buckets, 2, 0);
    assert_eq!(rt; buckets.pop(), Some((0, Share::Light)));
    assert_eq!(rt; buckets.pop(), None);
    assert_eq!(rt; buckets.vote(false), vote(NONE, 2));
    begun_with(&mut buckets, NONE, 2);
    assert_eq!(rt; buckets.pop(), Some((0, Share::Heavy)));
    assert_eq!(rt; buckets.pop(), None);
    assert_eq!(rt; buckets.vote(false), vote(NONE, 0));
    Ok(())
}

#[test]
fn an_arc_is_light_up_to_delta(rt: HostRuntime) -> Result<(), Fail> {
    let buckets = Buckets::new(rt.alloc(), 1, 5).expect(&rt, "memory");
    assert!(rt; buckets.takes(Share::Light, 5));
    assert!(rt; !buckets.takes(Share::Light, 6));
    assert!(rt; !buckets.takes(Share::Heavy, 5));
    assert!(rt; buckets.takes(Share::Heavy, 6));
    assert!(rt; buckets.takes(Share::All, 6));
    Ok(())
}

#[test]
fn a_far_bucket_is_agreed_on(rt: HostRuntime) -> Result<(), Fail> {
    let mut buckets = Buckets::new(rt.alloc(), 2, 1).expect(&rt, "memory");
    buckets.mark(0, 5000);
    assert_eq!(rt; buckets.pop(), None);
    assert_eq!(rt; buckets.vote(false), vote(5000, 0));
    begun_with(&mut buckets, 5000, 0);
    assert_eq!(rt; buckets.pop(), Some((0, Share::Light)));
    Ok(())
}

#[test]
fn a_place_moves_between_far_and_near_buckets(rt: HostRuntime) -> Result<(), Fail> {
    let mut buckets = Buckets::new(rt.alloc(), 2, 1).expect(&rt, "memory");
    buckets.mark(0, 5000);
    buckets.mark(0, 2);
    assert_eq!(rt; buckets.vote(false), vote(2, 0));
    buckets.mark(1, 7);
    buckets.mark(0, 7000);
    assert_eq!(rt; buckets.vote(false), vote(7, 0));
    buckets.mark(1, 6000);
    assert_eq!(rt; buckets.vote(false), vote(6000, 0));
    buckets.mark(1, 8000);
    assert_eq!(rt; buckets.vote(false), vote(7000, 0));
    begun_with(&mut buckets, 7000, 0);
    assert_eq!(rt; buckets.pop(), Some((0, Share::Light)));
    assert_eq!(rt; buckets.vote(true), vote(8000, 3));
    begun_with(&mut buckets, 8000, 0);
    assert_eq!(rt; buckets.pop(), Some((1, Share::Light)));
    assert_eq!(rt; buckets.pop(), None);
    Ok(())
}

#[test]
fn the_lesser_bucket_of_another_rank_comes_first(rt: HostRuntime) -> Result<(), Fail> {
    let mut buckets = Buckets::new(rt.alloc(), 2, 10).expect(&rt, "memory");
    buckets.mark(0, 40);
    let ours = buckets.vote(false);
    buckets.begin(&[vote(3, 0), ours]);
    assert_eq!(rt; buckets.pop(), None);
    buckets.mark(1, 38);
    assert_eq!(rt; buckets.pop(), Some((1, Share::Light)));
    // Another rank sent, and names no bucket: ours is greater, and the agreed one stays.
    let ours = buckets.vote(false);
    assert_eq!(rt; ours, vote(4, 2));
    buckets.begin(&[ours, vote(NONE, 1)]);
    assert_eq!(rt; buckets.pop(), None);
    // No rank has a place in the agreed bucket or a lesser one.
    buckets.begin(&[ours, vote(NONE, 0)]);
    assert_eq!(rt; buckets.pop(), Some((1, Share::Heavy)));
    assert_eq!(rt; buckets.pop(), None);
    buckets.begin(&[vote(4, 0), vote(6, 0)]);
    assert_eq!(rt; buckets.pop(), Some((0, Share::Light)));
    Ok(())
}

#[test]
fn a_lesser_bucket_than_the_agreed_one_is_agreed_on_once_more(rt: HostRuntime) -> Result<(), Fail> {
    let mut buckets = Buckets::new(rt.alloc(), 3, 1).expect(&rt, "memory");
    buckets.mark(0, 3000);
    begun_with(&mut buckets, 3000, 0);
    buckets.mark(1, 2);
    buckets.mark(2, 3001);
    assert_eq!(rt; buckets.vote(false), vote(2, 0));
    begun_with(&mut buckets, 2, 0);
    assert_eq!(rt; buckets.pop(), Some((1, Share::Light)));
    assert_eq!(rt; buckets.pop(), None);
    assert_eq!(rt; buckets.vote(false), vote(3000, 2));
    begun_with(&mut buckets, 3000, 0);
    assert_eq!(rt; buckets.pop(), Some((0, Share::Light)));
    begun_with(&mut buckets, 3001, 0);
    assert_eq!(rt; buckets.pop(), Some((2, Share::Light)));
    Ok(())
}

#[test]
fn a_place_marked_again_stays_pending_for_its_heavy_arcs(rt: HostRuntime) -> Result<(), Fail> {
    let mut buckets = Buckets::new(rt.alloc(), 1, 4).expect(&rt, "memory");
    buckets.mark(0, 3);
    assert_eq!(rt; buckets.pop(), Some((0, Share::Light)));
    buckets.mark(0, 1);
    assert_eq!(rt; buckets.vote(false), vote(0, 2));
    assert_eq!(rt; buckets.pop(), Some((0, Share::Light)));
    begun_with(&mut buckets, NONE, 2);
    assert_eq!(rt; buckets.pop(), Some((0, Share::Heavy)));
    assert_eq!(rt; buckets.pop(), None);
    Ok(())
}

#[test]
fn buckets_are_used_through_their_trait(rt: HostRuntime) -> Result<(), Fail> {
    let mut buckets = Buckets::new(rt.alloc(), 1, 1).expect(&rt, "memory");
    assert_eq!(rt; marked_and_taken(&mut buckets, 0), Some((0, Share::Light)));
    Ok(())
}

#[test]
fn more_places_than_can_be_numbered_beside_the_lists_are_out_of_memory(
    rt: HostRuntime,
) -> Result<(), Fail> {
    assert!(rt; Buckets::new(rt.alloc(), u32::MAX, 1).is_err());
    Ok(())
}
