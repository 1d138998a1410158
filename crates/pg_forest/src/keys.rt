//! The key of an edge in one number, by which a graph's edges are ordered as by weight and ends.

ghost use Rattle.std.specs.Prelude.{◌≡◌, ◌<◌, ◌^◌, ◌*◌, ◌+◌, ◌%◌};
ghost use Rattle.pg_base.specs.declared.TheConstants.{MAX_EDGES};

use pg_base::MAX_EDGES;

/// The key of the edge with this weight and this place, from 0, in the list of edges. In one graph the edge with the
/// lesser key is the one that comes first by weight, then lesser end, then greater end.
pub const fn key_of(weight: u32, index: u32) -> u64
    requires { index < MAX_EDGES }
    ensures key { result ≡ weight * MAX_EDGES + index }
    ensures within { result < 2 ^ 55 }
{
    weight as u64 * MAX_EDGES as u64 + index as u64
}

/// The place, from 0, in the list of edges of the edge with this key.
pub const fn index_of(key: u64) -> u32
    ensures place { result ≡ key % MAX_EDGES }
    ensures below { result < MAX_EDGES }
{
    (key % MAX_EDGES as u64) as u32
}
