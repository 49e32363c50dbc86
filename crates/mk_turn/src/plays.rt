//! What its seat knows after each step on the table.
ghost use Rattle.mk_turn.specs.Turns.{Tries, given, announced, Looks, one_more, newcomer, joining};
ghost use Rattle.mk_turn.specs.Turns.{spent_view};

use crate::state::TurnState;
use crate::view::Sight;
use atomic_table::{Join, Play, Split};

pub(crate) struct Take;

impl<S: TurnState> Play<Option<S>, Sight<S>> for Take {
    ghost then = { Tries S.meaning };
}

pub(crate) struct Give;

impl<S: TurnState> Play<Option<S>, Sight<S>> for Give {
    ghost then = { given S.meaning };
}

pub(crate) struct Announce;

impl<S: TurnState> Play<Option<S>, Sight<S>> for Announce {
    ghost then = { announced S.meaning };
}

pub(crate) struct Look;

impl<S: TurnState> Play<Option<S>, Sight<S>> for Look {
    ghost then = { Looks S.meaning };
}

pub(crate) struct Cut;

impl<S: TurnState> Split<Sight<S>> for Cut {
    ghost left = { one_more };

    ghost right = { newcomer };
}

pub(crate) struct Glue;

impl<S: TurnState> Join<Sight<S>> for Glue {
    ghost both = { joining };

    ghost spent = { spent_view };
}
