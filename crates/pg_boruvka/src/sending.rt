//! Which messages a rank sends in a round, and in which order.
ghost use Rattle.std.specs.Prelude.{◌≡◌, ◌⊎◌, ℕ, ◌+◌, ◌<◌, ◌≤◌, ◌^◌, IfNone, IfSome};
ghost use Rattle.pg_base.specs.declared.TheConstants.{MAX_VERTICES};
ghost use Rattle.pg_group.specs.Ranked.{IsOther};

use crate::Message;
use crate::cutting::next_piece;
use crate::dense::{Dense, Stage};
use crate::hooks::next_own_hook;
use pg_base::RankNo;

impl Dense {
    ghost use Rattle.pg_boruvka.specs.declared.messages.Message.{Message};
    ghost use Rattle.pg_boruvka.specs.Known.{part_in, view_of, passed_to};
    ghost use Rattle.pg_boruvka.specs.Shown.{IsAt};
    ghost use Rattle.pg_boruvka.specs.Calls.{IsNext, IsNoneFrom, IsFurther};

    // The next message to a rank in this round, from the number `at` on, with its number.
    fn next_to(&self, to: RankNo, at: u32) -> Option<(u32, Message)>
        requires { to.0 < self.now.ranks }
        ensures next { IfSome result (λ found. IsNext (view_of self.now) to.0 at found.0 found.1) }
        ensures none { IfNone result (IsNoneFrom (view_of self.now) to.0 at) }
    {
        let tables = &self.tables;
        match self.stage {
            Stage::Up => {
                let (first, past) = self.labels_of(to);
                let (number, piece) = next_piece(&tables.keys, first, past, at)?;
                Some((number, Message::Piece(piece)))
            }
            Stage::Down => {
                let (first, past) = self.own_labels();
                let (number, piece) = next_piece(&tables.winners, first, past, at)?;
                Some((number, Message::Piece(piece)))
            }
            Stage::Hook => {
                let from = at.max(1);
                let hook = next_own_hook(&tables.keys, &tables.across, &tables.winners, from)?;
                Some((hook.source, Message::Hook(hook)))
            }
        }
    }

    // The next message of this round to the present receiver, if that is another rank.
    fn next_here(&self) -> Option<(u32, Message)>
        requires { self.now.to < self.now.ranks }
        ensures next { IfSome result (λ found. IsNext (view_of self.now) self.now.to self.now.at found.0 found.1) }
        ensures other { IfSome result (λ _. IsOther (part_in self.now).rank (part_in self.now).ranks self.now.to) }
        ensures none { IfNone result ((self.now.to ≡ (part_in self.now).rank) ⊎ IsNoneFrom (view_of self.now) self.now.to self.now.at) }
    {
        if self.to == self.rank.0 {
            return None;
        }
        self.next_to(RankNo(self.to), self.at)
    }

    // Goes on to the next message of this round.
    pub(crate) fn seek(&mut self) -> Option<(RankNo, Message)>
        ensures further { IsFurther (view_of self.old) (view_of self.new) }
        ensures other { IfSome result (λ found. IsOther (part_in self.old).rank (part_in self.old).ranks found.0.0) }
        ensures found { IfSome result (λ found. IsAt (view_of self.new) found.0.0 self.new.at found.1) }
        ensures receiver { IfSome result (λ found. self.new.to ≡ found.0.0) }
        ensures small { IfSome result (λ found. self.new.at ≤ MAX_VERTICES) }
        ensures none { IfNone result ((part_in self.new).ranks ≤ self.new.to) }
        ensures same_idle { self.new.idle ≡ self.old.idle }
    {
        while self.to < self.ranks.count() {
            if let Some((number, message)) = self.next_here() {
                self.at = number;
                return Some((RankNo(self.to), message));
            }
            self.to += 1;
            self.at = 0;
        }
        None
    }
}
