//! The keys of labels in pieces of eight.
ghost use Rattle.std.specs.Prelude.{◌≡◌, ℕ, ◌+◌, ◌-◌, ◌<◌, ◌≤◌, true, IfNone, IfSome, length, slice_index, All, slice_range};
ghost use Rattle.pg_base.specs.declared.TheConstants.{MAX_VERTICES};
ghost use Rattle.pg_boruvka.specs.declared.messages.Message.{Message};
ghost use Rattle.pg_boruvka.specs.declared.messages.Message.TheVariants.{Piece as Keys};
ghost use Rattle.pg_boruvka.specs.Numbered.{IsPieceNo};
ghost use Rattle.pg_boruvka.specs.Winners.{piece_from};

use crate::{NO_KEY, Piece};

/// How many keys a piece has.
pub(crate) const PIECE: u32 = 8;

/// Of the labels from `first` on and before `past`, cut into pieces, the next piece with a key, from the number `at`
/// on.
pub(crate) fn next_piece(keys: &[u64], first: u32, past: u32, at: u32) -> Option<(u32, Piece)>
    requires order { first ≤ past }
    requires within { past ≤ length keys.now }
    requires few { past ≤ MAX_VERTICES + 1 }
    ensures from { IfSome result (λ found. at ≤ found.0) }
    ensures found { IfSome result (λ found. IsPieceNo (slice_index keys.now) first (past - first) found.0 (Keys found.1)) }
    ensures next { IfSome result (λ found. (number : ℕ) (m : Message) → at ≤ number → number < found.0
        → IsPieceNo (slice_index keys.now) first (past - first) number m → ⊥) }
    ensures none { IfNone result ((number : ℕ) (m : Message) → at ≤ number → IsPieceNo (slice_index keys.now) first (past - first) number m → ⊥) }
{
    let pieces = (past - first).div_ceil(PIECE);
    for number in at..pieces {
        if let Some(piece) = piece_from(keys, past, first + number * PIECE) {
            return Some((number, piece));
        }
    }
    None
}

// The piece of the labels from the base on and before `past`, if one of them has a key.
fn piece_from(keys: &[u64], past: u32, base: u32) -> Option<Piece>
    requires within { past ≤ length keys.now }
    requires some { base < past }
    requires few { past ≤ MAX_VERTICES + 1 }
    ensures is { IfSome result (λ piece. Keys piece ≡ piece_from (slice_index keys.now) past base) }
    ensures used { IfSome result (λ piece. (l : ℕ) × (base ≤ l) × (l < base + PIECE) × (l < past) × (slice_index keys.now l ≡ NO_KEY → ⊥)) }
    ensures none { IfNone result ((l : ℕ) → base ≤ l → l < base + PIECE → l < past → slice_index keys.now l ≡ NO_KEY) }
{
    let end = past.min(base + PIECE);
    let given = &keys[base as usize..end as usize];
    if given.iter().all(|key| *key == NO_KEY) {
        return None;
    }
    let mut keys = [NO_KEY; 8];
    keys[..given.len()].copy_from_slice(given);
    Some(Piece { base, keys })
}
