//! A thread's pass.

use crate::rule::Notes;
use atomic_table::Badge;
use std::marker::Model;

/// What a thread needs for its turns, and what it knows of the book. It takes no bytes and may go to
/// another thread; it names the types of the entries and of the origin, and not that of the value.
/// Contracts see which lock it is for, what it has seen, its places, whether it is inside, its share and
/// the origin. A pass that is let go takes its share with it.
#[derive(Drop)]
pub struct Pass<E, O> {
    pub(crate) badge: Badge<Notes<E, O>>,
}

impl<E, O> Model for Pass<E, O> {
    ghost use Rattle.mt_turn.specs.Known.{Known};

    ghost Value = { Known E O };

    ghost use Rattle.mt_turn.specs.Resting.{IsAtRest, known};

    ghost view = { λ pass. known pass.badge.table_id pass.badge.views };

    ghost invariant = { λ pass. IsAtRest pass.badge.views };
}
