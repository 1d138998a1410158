//! The consistency model of a property map, as five flags.

ghost use Rattle.std.specs.Prelude.{◌≡◌, ◌&&◌, ◌||◌, true, false, IfOk, OnErr};
ghost use Rattle.pg_cells.specs.Consistency.{contradicts};

/// The consistency model of a map: what its ranks send each other, and what a synchronize leaves in the ghosts.
///
/// Source: the flags have the names of the Parallel Boost Graph Library's consistency models (`cm_forward`,
/// `cm_backward`, `cm_bidirectional`, `cm_flush`, `cm_reset`, `cm_clear`); what each of them means is said here.
#[derive(Clone, Copy, Debug, PartialEq, Eq)]
pub struct Flags {
    pub(crate) forward: bool,
    pub(crate) backward: bool,
    pub(crate) flush: bool,
    pub(crate) reset: bool,
    pub(crate) clear: bool,
    ghost permitted: { contradicts forward backward flush reset clear ≡ false },
}

/// The flags contradict each other, as [`Flags::new`] says.
#[derive(Clone, Copy, Debug, PartialEq, Eq)]
pub struct BadFlags;

impl Flags {
    ghost use Rattle.pg_cells.specs.Shown.{has_forward, has_backward, has_flush, has_reset, has_clear};

    /// The consistency model with these flags:
    ///
    /// - `forward`: what is put to a ghost goes to its owner.
    /// - `backward`: at a synchronize each ghost gets its owner's value.
    /// - `flush`: at a synchronize the owner gets the value of each ghost that was put to.
    /// - `reset`: a synchronize leaves each ghost at its start value.
    /// - `clear`: a synchronize leaves each ghost without a value.
    ///
    /// `BadFlags` comes exactly where `forward` and `flush` are both set, or more than one of `backward`, `reset` and
    /// `clear`.
    pub fn new(
        forward: bool,
        backward: bool,
        flush: bool,
        reset: bool,
        clear: bool,
    ) -> Result<Flags, BadFlags>
        ensures permitted { IfOk result (λ _. contradicts forward backward flush reset clear ≡ false) }
        ensures refused { OnErr result (contradicts forward backward flush reset clear ≡ true) }
        ensures forward { IfOk result (λ flags. has_forward flags ≡ forward) }
        ensures backward { IfOk result (λ flags. has_backward flags ≡ backward) }
        ensures flush { IfOk result (λ flags. has_flush flags ≡ flush) }
        ensures reset { IfOk result (λ flags. has_reset flags ≡ reset) }
        ensures clear { IfOk result (λ flags. has_clear flags ≡ clear) }
    {
        if forward && flush || backward && (reset || clear) || reset && clear {
            return Err(BadFlags);
        }
        Ok(Flags {
            forward,
            backward,
            flush,
            reset,
            clear,
        })
    }

    /// The consistency model with forward and backward, and no other flag.
    pub fn bidirectional() -> Flags
        ensures forward { has_forward result ≡ true }
        ensures backward { has_backward result ≡ true }
        ensures flush { has_flush result ≡ false }
        ensures reset { has_reset result ≡ false }
        ensures clear { has_clear result ≡ false }
    {
        Flags {
            forward: true,
            backward: true,
            flush: false,
            reset: false,
            clear: false,
        }
    }
}
