//! Doubly linked lists of places.
ghost use Rattle.std.specs.Prelude.{◌≡◌, ◌≢◌, ◌+◌, ◌<◌, ◌≤◌, ◌^◌, ℕ, false, length, IfOk, IfNone, IfSome};
ghost use Rattle.pg_agenda.specs.Moves.{home, stamp, total};
ghost use Rattle.pg_agenda.specs.PlaceLists.{AreLinked, link_at, front};

use crate::moves::Moves;
use std::alloc::{AllocError, Global};

/// Lists of places, each place in at most one of them, doubly linked through numbers. A list goes by the number of its
/// head, the heads come after the places. Each call but `new` takes constant time and allocates nothing.
#[derive(Drop)]
pub(crate) struct PlaceLists {
    // For each node the next one, and the one before it. A place in no list leads to itself.
    next: Vec<u32>,
    prev: Vec<u32>,
    count: u32,
    moves: Moves,
    ghost as_many: { length prev.items ≡ length next.items },
    ghost within: { count ≤ length next.items },
    ghost numbered: { length next.items < 2 ^ 32 },
    ghost linked: { AreLinked count (length next.items) (link_at next.items) (link_at prev.items) (home moves) (stamp moves) (total moves) },
}

impl PlaceLists {
    /// Empty lists, and places below `count`, each in none.
    pub(crate) fn new(alloc: Global, count: u32, lists: u32) -> Result<PlaceLists, AllocError>
        requires { count + lists < 2 ^ 32 }
        ensures count { IfOk result (λ made. made.count ≡ count) }
        ensures nodes { IfOk result (λ made. length made.next.items ≡ count + lists) }
        ensures alone { IfOk result (λ made. (x : ℕ) → home made.moves x ≡ x) }
        ensures bare { IfOk result (λ made. (x : ℕ) → x < count + lists → link_at made.next.items x ≡ x) }
    {
        Ok(PlaceLists {
            next: own_links(alloc, count + lists)?,
            prev: own_links(alloc, count + lists)?,
            count,
            moves: Moves::None,
        })
    }

    /// The node after this one: after a head the first place of its list, after a place the next one, and the head
    /// after the last.
    pub(crate) fn after(&self, node: u32) -> u32
        requires { node < length self.now.next.items }
        ensures { result ≡ link_at self.now.next.items node }
    {
        self.next[node as usize]
    }

    /// Puts a place in front of a list, taking it out of the one where it was.
    pub(crate) fn put(&mut self, place: u32, list: u32)
        requires place { place < self.old.count }
        requires head { self.old.count ≤ list }
        requires list { list < length self.old.next.items }
        ensures here { home self.new.moves place ≡ list }
        ensures others { (x : ℕ) → x ≢ place → home self.new.moves x ≡ home self.old.moves x }
        ensures first { link_at self.new.next.items list ≡ place }
        ensures kept { (head : ℕ) → self.old.count ≤ head → head ≢ list → head ≢ home self.old.moves place → link_at self.new.next.items head ≡ link_at self.old.next.items head }
        ensures older { (x : ℕ) → x ≢ place → stamp self.new.moves x ≡ stamp self.old.moves x }
        ensures nodes { length self.new.next.items ≡ length self.old.next.items }
        ensures count { self.new.count ≡ self.old.count }
    {
        self.unlink(place);
        self.link(place, list);
    }

    /// Takes the first place out of a list, if it has one.
    pub(crate) fn take_first(&mut self, list: u32) -> Option<u32>
        requires head { self.old.count ≤ list }
        requires list { list < length self.old.next.items }
        ensures none { IfNone result ((place : ℕ) → place < self.old.count → home self.old.moves place ≢ list) }
        ensures rests { IfNone result ((x : ℕ) → home self.new.moves x ≡ home self.old.moves x) }
        ensures same_next { IfNone result (self.new.next.items ≡ self.old.next.items) }
        ensures within { IfSome result (λ place. place < self.old.count) }
        ensures some { IfSome result (λ place. home self.old.moves place ≡ list) }
        ensures alone { IfSome result (λ place. home self.new.moves place ≡ place) }
        ensures others { IfSome result (λ place. (x : ℕ) → x ≢ place → home self.new.moves x ≡ home self.old.moves x) }
        ensures kept { (head : ℕ) → self.old.count ≤ head → head ≢ list → link_at self.new.next.items head ≡ link_at self.old.next.items head }
        ensures fewer { IfSome result (λ place. front self.new.moves self.new.next.items list < front self.old.moves self.old.next.items list) }
        ensures nodes { length self.new.next.items ≡ length self.old.next.items }
        ensures count { self.new.count ≡ self.old.count }
    {
        let first = self.next[list as usize];
        if first == list {
            return None;
        }
        self.unlink(first);
        Some(first)
    }

    /// Takes the last place out of a list, the one that was put there before all others, if it has one.
    pub(crate) fn take_last(&mut self, list: u32) -> Option<u32>
        requires head { self.old.count ≤ list }
        requires list { list < length self.old.next.items }
        ensures none { IfNone result ((place : ℕ) → place < self.old.count → home self.old.moves place ≢ list) }
        ensures rests { IfNone result ((x : ℕ) → home self.new.moves x ≡ home self.old.moves x) }
        ensures same_next { IfNone result (self.new.next.items ≡ self.old.next.items) }
        ensures within { IfSome result (λ place. place < self.old.count) }
        ensures some { IfSome result (λ place. home self.old.moves place ≡ list) }
        ensures alone { IfSome result (λ place. home self.new.moves place ≡ place) }
        ensures others { IfSome result (λ place. (x : ℕ) → x ≢ place → home self.new.moves x ≡ home self.old.moves x) }
        ensures kept { (head : ℕ) → self.old.count ≤ head → head ≢ list → link_at self.new.next.items head ≡ link_at self.old.next.items head }
        ensures nodes { length self.new.next.items ≡ length self.old.next.items }
        ensures count { self.new.count ≡ self.old.count }
    {
        let last = self.prev[list as usize];
        if last == list {
            return None;
        }
        self.unlink(last);
        Some(last)
    }

    // Takes a place out of the list where it is, if it is in one.
    fn unlink(&mut self, place: u32)
        requires { place < self.old.count }
        ensures alone { home self.new.moves place ≡ place }
        ensures others { (x : ℕ) → x ≢ place → home self.new.moves x ≡ home self.old.moves x }
        ensures older { (x : ℕ) → x ≢ place → stamp self.new.moves x ≡ stamp self.old.moves x }
        ensures next { link_at self.new.next.items place ≡ place }
        ensures prev { link_at self.new.prev.items place ≡ place }
        ensures closed { place ≢ link_at self.old.prev.items place → link_at self.new.next.items (link_at self.old.prev.items place) ≡ link_at self.old.next.items place }
        ensures kept { (x : ℕ) → x ≢ place → x ≢ link_at self.old.prev.items place → link_at self.new.next.items x ≡ link_at self.old.next.items x }
        ensures nodes { length self.new.next.items ≡ length self.old.next.items }
        ensures count { self.new.count ≡ self.old.count }
    {
        let before = self.prev[place as usize];
        let after = self.next[place as usize];
        self.next[before as usize] = after;
        self.prev[after as usize] = before;
        self.next[place as usize] = place;
        self.prev[place as usize] = place;
        self.moves.add(place, place);
    }

    // Puts a place that is in no list in front of a list.
    fn link(&mut self, place: u32, list: u32)
        requires place { place < self.old.count }
        requires next { link_at self.old.next.items place ≡ place }
        requires prev { link_at self.old.prev.items place ≡ place }
        requires head { self.old.count ≤ list }
        requires list { list < length self.old.next.items }
        ensures here { home self.new.moves place ≡ list }
        ensures others { (x : ℕ) → x ≢ place → home self.new.moves x ≡ home self.old.moves x }
        ensures older { (x : ℕ) → x ≢ place → stamp self.new.moves x ≡ stamp self.old.moves x }
        ensures first { link_at self.new.next.items list ≡ place }
        ensures kept { (x : ℕ) → x ≢ place → x ≢ list → link_at self.new.next.items x ≡ link_at self.old.next.items x }
        ensures nodes { length self.new.next.items ≡ length self.old.next.items }
        ensures count { self.new.count ≡ self.old.count }
    {
        let after = self.next[list as usize];
        self.next[place as usize] = after;
        self.next[list as usize] = place;
        self.prev[after as usize] = place;
        self.prev[place as usize] = list;
        self.moves.add(place, list);
    }
}

// For each of these nodes the node itself.
fn own_links(alloc: Global, nodes: u32) -> Result<Vec<u32>, AllocError>
    ensures nodes { IfOk result (λ links. length links.items ≡ nodes) }
    ensures own { IfOk result (λ links. (x : ℕ) → x < nodes → link_at links.items x ≡ x) }
{
    let mut links = Vec::with_capacity(alloc, nodes as usize)?;
    for node in 0..nodes {
        links.push_reserved(node);
    }
    Ok(links)
}
