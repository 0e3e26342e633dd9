//! Whether a map is in the grammar of states.

ghost use Rattle.std.specs.Prelude.{◌≡◌, IfOk};
ghost use Rattle.mt_grammar.specs.Grammar.{is_in_grammar};

use crate::facts::facts_hold;
use crate::kept::kept_in;
use mt_durable::{Durable, Rule};
use std::alloc::{AllocError, Global};

/// Whether a map is in the grammar of states: each key and what stands under it has its form, and what holds between
/// keys does.
pub fn is_in_grammar(alloc: Global, map: &Durable) -> Result<bool, AllocError>
    ensures { IfOk result (λ is. is ≡ is_in_grammar map.now) }
{
    match kept_in(alloc, map)? {
        Some(kept) => Ok(facts_hold(&kept)),
        None => Ok(false),
    }
}

/// The rule that a map is one of the grammar of states.
#[derive(Clone, Copy)]
pub struct States;

impl Rule for States {
    ghost admits = { is_in_grammar };

    fn admits(alloc: Global, map: &Durable) -> Result<bool, AllocError> {
        is_in_grammar(alloc, map)
    }
}
