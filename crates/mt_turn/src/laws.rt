//! One legal history, in plain words, for any value that keeps a book and whose answers the book
//! determines: each answer is the one that a single order of all calls gives.

ghost use Rattle.std.specs.Prelude.{◌≡◌, ◌++◌, ◌∷◌, [], List, false, Some, IfSome, IfNone};
ghost use mathlib.Core.List.{IsPrefix};
ghost use Rattle.mt_turn.specs.History.{InOneOrder, IsOutsideAgain, IsRecorded};
ghost use Rattle.mt_turn.specs.Known.{first_pass};

use crate::booked::Booked;
use crate::pass::Pass;
use crate::turn::Turn;
use std::sync::Wait;
use std::thread::{Threads, join};

/// A value whose answers its book determines: it records each call that it answers.
pub trait Answers: Booked {
    type Call;

    type Answer;

    /// Whether an entry records a call.
    ghost is_of: { Self.Call → Self.Entry → Type 0 };

    /// What the last call of a book is answered by one thread, which makes all its calls one after the
    /// other, from the origin.
    ghost answer_at: { Self.Origin → List Self.Entry → Self.Answer };

    /// Answers a call and records it, or does neither.
    fn answer(&mut self, call: Self::Call) -> Option<Self::Answer>
        ensures recorded { IfSome result (λ answer. (entry : Self.Entry) × is_of call entry × (Self.book self.new ≡ Self.book self.old ++ entry ∷ [])) }
        ensures answer { IfSome result (λ answer. answer ≡ answer_at (Self.origin self.new) (Self.book self.new)) }
        ensures none { IfNone result (Self.book self.new ≡ Self.book self.old) }
        ensures origin { Self.origin self.new ≡ Self.origin self.old };
}

/// One call in one turn. Where it is answered, it stands in the one book, behind all that the pass had
/// seen and behind its earlier calls, and the answer is the one that the book up to it gives. That book is
/// then what the pass has seen.
pub fn answers_are_of_one_history<T: Answers + Send, R: Wait>(
    rt: &R,
    turn: &Turn<T>,
    pass: &mut Pass<T::Entry, T::Origin>,
    call: T::Call,
) -> Option<T::Answer>
    requires own { pass.old.lock ≡ turn.now }
    requires outside { pass.old.inside ≡ false }
    ensures outside { IsOutsideAgain pass.old pass.new }
    ensures recorded { IfSome result (λ answer. (entry : T.Entry) × T.is_of call entry × IsRecorded pass.old pass.new entry) }
    ensures answer { IfSome result (λ answer. (origin : T.Origin) → pass.old.origin ≡ Some origin → answer ≡ T.answer_at origin pass.new.seen) }
    ensures seen { IsPrefix pass.old.seen pass.new.seen }
    ensures none { IfNone result (pass.new.places ≡ pass.old.places) }
{
    let mut value = turn.enter(rt, pass);
    let answer = value.answer(call);
    turn.leave(pass, value);
    answer
}

/// One call of a thread, which gives its pass back.
fn call_once<T: Answers + Send, R: Wait>(
    rt: &R,
    turn: &Turn<T>,
    mut pass: Pass<T::Entry, T::Origin>,
    call: T::Call,
) -> (Pass<T::Entry, T::Origin>, Option<T::Answer>)
    requires own { pass.lock ≡ turn.now }
    requires outside { pass.inside ≡ false }
    ensures outside { IsOutsideAgain pass result.0 }
    ensures recorded { IfSome result.1 (λ _. (entry : T.Entry) × T.is_of call entry × IsRecorded pass result.0 entry) }
    ensures answer { IfSome result.1 (λ answer. (origin : T.Origin) → pass.origin ≡ Some origin → answer ≡ T.answer_at origin result.0.seen) }
{
    let answer = answers_are_of_one_history(rt, turn, &mut pass, call);
    (pass, answer)
}

/// Two threads make a call each. Where both are answered, the book of the value that comes back has the
/// two calls and no others, in the one order or in the other, and both answers are those that one thread
/// gets which makes the calls in that order.
pub fn two_callers_have_one_order<T, R>(
    rt: &R,
    turn: Turn<T>,
    pass: Pass<T::Entry, T::Origin>,
    first: T::Call,
    second: T::Call,
) -> (T, Option<T::Answer>, Option<T::Answer>)
where
    T: Answers + Send,
    T::Call: Drop + Send,
    T::Answer: Send,
    R: Threads + Wait + Sync,
    requires new { (origin : T.Origin) × (pass ≡ first_pass turn origin) }
    ensures one_order { IfSome result.1 (λ a. IfSome result.2 (λ b. InOneOrder T.is_of T.answer_at (T.origin result.0) (T.book result.0) first second a b)) }
{
    let mut mine = pass;
    let Ok(theirs) = turn.split(&mut mine) else {
        unreachable!()
    };
    let shared = &turn;
    let ((mut mine, a), (theirs, b)) = join(
        rt,
        || -> (Pass<T::Entry, T::Origin>, Option<T::Answer>)
            requires { (mine.lock ≡ shared.now) × (mine.inside ≡ false) }
        { call_once(rt, shared, mine, first) },
        || -> (Pass<T::Entry, T::Origin>, Option<T::Answer>)
            requires { (theirs.lock ≡ shared.now) × (theirs.inside ≡ false) }
        { call_once(rt, shared, theirs, second) },
    );
    turn.join(&mut mine, theirs);
    (turn.close(mine), a, b)
}
