//! The winners of the labels, as far as keys have come.
ghost use Rattle.std.specs.Prelude.{◌≡◌, ℕ, ◌<◌, ◌≤◌, true, false, ◌↔◌, length, slice_index};
ghost use Rattle.pg_boruvka.specs.declared.messages.Message.TheVariants.{Piece as Keys};
ghost use Rattle.pg_boruvka.specs.Lowered.{AreLowered, AreBegun};

use crate::{NO_KEY, Piece};
use pg_simd::min_into;

/// Gives each label from `first` on and before `past` its key, and every other label none.
pub(crate) fn begin(winners: &mut [u64], keys: &[u64], first: usize, past: usize)
    requires order { first ≤ past }
    requires within { past ≤ length winners.old }
    requires each { length keys.now ≡ length winners.old }
    ensures begun { AreBegun keys.now first past winners.new }
    ensures same_count { length winners.new ≡ length winners.old }
{
    winners.fill(NO_KEY);
    winners[first..past].copy_from_slice(&keys[first..past]);
}

/// Lowers the winners of the labels from `first` on and before `past` to the keys that the piece gives for them.
pub(crate) fn lower(winners: &mut [u64], piece: &Piece, first: usize, past: usize)
    requires { past ≤ length winners.old }
    ensures lowered { AreLowered (Keys piece.now) first past winners.old winners.new }
    ensures same_count { length winners.new ≡ length winners.old }
{
    let base = piece.base as usize;
    let from = base.max(first);
    let to = (base + piece.keys.len()).min(past);
    if from < to {
        min_into(&mut winners[from..to], &piece.keys[from - base..to - base]);
    }
}

/// Whether no label has a winner. The entry 0 isn't a label's.
pub(crate) fn are_none(winners: &[u64]) -> bool
    requires { 1 ≤ length winners.now }
    ensures { (result ≡ true) ↔ ((l : ℕ) → 1 ≤ l → l < length winners.now → slice_index winners.now l ≡ NO_KEY) }
{
    winners[1..].iter().all(|key| *key == NO_KEY)
}
