//! Where the members of a pair put their items: into the outbox of the pair.
use crate::Of2;
use pg_base::RankNo;
use pg_group::Outbox;
use pg_lane::Full;
use std::marker::PhantomData;

// Where the first member of a pair puts its items: into the outbox of the pair.
#[derive(Drop)]
pub struct FirstOut<'a, O, B> {
    pub out: &'a mut O,
    pub others: PhantomData<B>,
}

impl<'a, A: Copy + Send, B: Copy + Send, O: Outbox<Of2<A, B>>> Outbox<A> for FirstOut<'a, O, B> {
    ghost use Rattle.std.specs.Prelude.{◌≡◌, ℕ, List, [], ◌++◌, refl};
    ghost use Rattle.pg_triggers.specs.declared.items.Of2.TheVariants.{First};
    ghost use Rattle.pg_triggers.specs.Mine.{whole, post_all, first_item, first_vote};
    ghost use Rattle.std.proofs.Common.{◌∙◌};
    ghost use Rattle.pg_triggers.specs.Posts.{posts-after};

    ghost own = { λ w. O.own w.out.now };

    ghost size = { λ w. O.size w.out.now };

    ghost sent = { λ w. whole first_item first_vote (O.sent w.out.now) };

    ghost marks_sent = { λ w. O.marks_sent w.out.now };

    ghost saw_full = { λ old to new. O.saw_full old.out.now to new.out.now };

    ghost Later = { λ old new. O.Later old.out.now new.out.now };

    // The outbox is the same one, and only items of this member were sent.
    ghost SameRest = { λ old new. (new.out.ghost_name ≡ old.out.ghost_name) × O.SameRest old.out.now new.out.now
        × ((posts : List (ℕ × _)) × (O.sent new.out.now ≡ post_all First posts (O.sent old.out.now))) };

    fn send(&mut self, to: RankNo, item: A) -> Result<(), Full<A>> {
        match self.out.send(to, Of2::First(item)) {
            Ok(()) => Ok(()),
            Err(_) => Err(Full(item)),
        }
    }

    ghost later_same = { λ w. O.later_same w.out.now };

    ghost later_on = { λ u v w before after. O.later_on u.out.now v.out.now w.out.now before after };

    ghost same_rest_refl = { λ w. (refl, O.same_rest_refl w.out.now, ([], refl)) };

    ghost same_rest_trans = { λ u v w before after. (
      after.0 ∙ before.0,
      O.same_rest_trans u.out.now v.out.now w.out.now before.1 after.1,
      (before.2.0 ++ after.2.0, posts-after First before.2.0 after.2.0 _ _ _ before.2.1 after.2.1),
    ) };
}

// Where the second member of a pair puts its items: into the outbox of the pair.
#[derive(Drop)]
pub struct SecondOut<'a, O, A> {
    pub out: &'a mut O,
    pub others: PhantomData<A>,
}

impl<'a, A: Copy + Send, B: Copy + Send, O: Outbox<Of2<A, B>>> Outbox<B> for SecondOut<'a, O, A> {
    ghost use Rattle.std.specs.Prelude.{◌≡◌, ℕ, List, [], ◌++◌, refl};
    ghost use Rattle.pg_triggers.specs.declared.items.Of2.TheVariants.{Second};
    ghost use Rattle.pg_triggers.specs.Mine.{whole, post_all, second_item, second_vote};
    ghost use Rattle.std.proofs.Common.{◌∙◌};
    ghost use Rattle.pg_triggers.specs.Posts.{posts-after};

    ghost own = { λ w. O.own w.out.now };

    ghost size = { λ w. O.size w.out.now };

    ghost sent = { λ w. whole second_item second_vote (O.sent w.out.now) };

    ghost marks_sent = { λ w. O.marks_sent w.out.now };

    ghost saw_full = { λ old to new. O.saw_full old.out.now to new.out.now };

    ghost Later = { λ old new. O.Later old.out.now new.out.now };

    // The outbox is the same one, and only items of this member were sent.
    ghost SameRest = { λ old new. (new.out.ghost_name ≡ old.out.ghost_name) × O.SameRest old.out.now new.out.now
        × ((posts : List (ℕ × _)) × (O.sent new.out.now ≡ post_all Second posts (O.sent old.out.now))) };

    fn send(&mut self, to: RankNo, item: B) -> Result<(), Full<B>> {
        match self.out.send(to, Of2::Second(item)) {
            Ok(()) => Ok(()),
            Err(_) => Err(Full(item)),
        }
    }

    ghost later_same = { λ w. O.later_same w.out.now };

    ghost later_on = { λ u v w before after. O.later_on u.out.now v.out.now w.out.now before after };

    ghost same_rest_refl = { λ w. (refl, O.same_rest_refl w.out.now, ([], refl)) };

    ghost same_rest_trans = { λ u v w before after. (
      after.0 ∙ before.0,
      O.same_rest_trans u.out.now v.out.now w.out.now before.1 after.1,
      (before.2.0 ++ after.2.0, posts-after Second before.2.0 after.2.0 _ _ _ before.2.1 after.2.1),
    ) };
}
