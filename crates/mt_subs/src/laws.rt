//! What holds of the subscriptions after each call, over the definitions alone. Each is the contract of a
//! function that does nothing.

ghost use Rattle.std.specs.Prelude.{◌≡◌, ℕ, ◌<◌, ◌≤◌, false, Bool, List};
ghost use Rattle.mt_model.specs.declared.node.state.ChangeNumber.{ChangeNumber};
ghost use Rattle.mt_model.specs.declared.rows.place.Place.{Place};
ghost use Rattle.mt_subs.specs.Changes.{IsChanges, newest_of, noted, unchanged};
ghost use Rattle.mt_subs.specs.Subscriptions.{IsSubs, added, changed, is_full, is_used, next_id, none};
ghost use Rattle.mt_subs.specs.declared.subscription.Kept.{Kept};
ghost use Rattle.mt_subs.specs.declared.subscription.Sub.{Sub};
ghost use Rattle.mt_subs.specs.Leaving.{staying};
ghost use Rattle.mt_subs.specs.declared.subscription.SubState.{SubState};
ghost use Rattle.mt_subs.specs.declared.subscription.Subscription.{Subscription};

/// What no call refuses keeps the rules on subscriptions.
pub fn valid_subscriptions_stay_valid()
    ensures none { IsSubs none }
    ensures added { (fabric : ℕ) (sub : Sub) (subs : SubState) → fabric < 256 → IsSubs subs → is_full fabric subs ≡ false → IsSubs (added fabric sub subs) }
    ensures changed { (fabric id : ℕ) (change : Kept → Kept) (subs : SubState) → IsSubs subs → IsSubs (changed fabric id change subs) }
    ensures staying { (stays : Subscription → Bool) (subs : SubState) → IsSubs subs → IsSubs (staying stays subs) }
{}

/// An id that was given is below the next one of its fabric, which rises as one is added and otherwise stays,
/// also where a subscription ends; another fabric's stays always.
pub fn ids_are_never_used_again()
    ensures given { (fabric id : ℕ) (subs : SubState) → IsSubs subs → next_id fabric subs ≤ id → is_used fabric id subs ≡ false }
    ensures rises { (fabric : ℕ) (sub : Sub) (subs : SubState) → fabric < 256 → IsSubs subs → next_id fabric subs < next_id fabric (added fabric sub subs) }
    ensures others { (fabric other : ℕ) (sub : Sub) (subs : SubState) → (fabric ≡ other → ⊥) → next_id other (added fabric sub subs) ≡ next_id other subs }
{}

/// Changes stay in their order, each place once, as one is noted that is not older than the newest.
pub fn changes_stay_in_order()
    ensures unchanged { IsChanges unchanged }
    ensures noted { (place : Place) (number : ℕ) (changes : List ChangeNumber) → IsChanges changes → newest_of changes ≤ number → IsChanges (noted place number changes) }
{}
