//! Which front of its piece a call appends to a text of fixed room.
ghost use Rattle.std.specs.Prelude.{◌≡◌, length};
ghost use Rattle.pg_outside.specs.Fronts.{planned_front, front_of};

/// The front of a piece that one call appends, and whether that call fails.
#[derive(Clone, Copy)]
pub(crate) struct Front {
    pub(crate) len: usize,
    pub(crate) fails: bool,
}

/// How many bytes the call of this number is planned to append at most, where it has a pair.
pub(crate) fn planned_front(pairs: &[(u64, usize)], call: u64) -> Option<usize>
    ensures { result ≡ planned_front call pairs.now }
{
    for (number, most) in pairs {
        if *number == call {
            return Some(*most);
        }
    }
    None
}

/// The front of a piece of `len` bytes where `left` bytes of room are left.
pub(crate) fn front_of(planned: Option<usize>, left: usize, len: usize) -> Front
    ensures { result ≡ front_of planned left len }
{
    let fitting = len.min(left);
    match planned {
        None => Front {
            len: fitting,
            fails: left < len,
        },
        Some(most) => Front {
            len: most.min(fitting),
            fails: true,
        },
    }
}
