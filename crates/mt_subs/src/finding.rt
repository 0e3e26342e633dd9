//! What a call looks up among the subscriptions.

ghost use Rattle.std.specs.Prelude.{◌≡◌, ◌↔◌, ◌++◌, ◌==◌, ◌&&◌, [], count_by, find, option_copied, option_to_list, position, true, None};
ghost use Rattle.std.specs.List.{list_any};
ghost use Rattle.mt_subs.specs.Places.{IsPlace};
ghost use Rattle.mt_subs.specs.Subscriptions.{ids_ascend, ids_of, is_named, is_of};

use crate::subscription::Subscription;

// Where the subscription of a fabric and an id stands, None where there is none.
pub(crate) fn place_of(subs: &[Subscription], fabric: u8, id: u32) -> Option<usize>
    requires { ids_ascend subs.now ≡ true }
    ensures { IsPlace fabric id subs.now result }
{
    position_of(subs, fabric, id)
}

fn position_of(subs: &[Subscription], fabric: u8, id: u32) -> Option<usize>
    ensures { result ≡ position (is_named fabric id) subs.now }
{
    subs.iter().position(|s| is_named(fabric, id, s))
}

// The subscription of a fabric and an id.
pub(crate) fn found(subs: &[Subscription], fabric: u8, id: u32) -> Option<&Subscription>
    ensures { option_copied result ≡ find (is_named fabric id) subs.now }
{
    subs.iter().find(|s| is_named(fabric, id, s))
}

// How many a fabric has.
pub(crate) fn count_of(subs: &[Subscription], fabric: u8) -> usize
    ensures { result ≡ count_by (is_of fabric) subs.now }
{
    subs.iter().filter(|s| s.fabric == fabric).count()
}

// The first id of a fabric, None where it has none, and the subscriptions behind that one.
pub(crate) fn first_id(subs: &[Subscription], fabric: u8) -> (Option<u32>, &[Subscription])
    ensures ids { ids_of fabric subs.now ≡ option_to_list result.0 ++ ids_of fabric result.1.now }
    ensures none { result.0 ≡ None → ids_of fabric result.1.now ≡ [] }
{
    for (place, s) in subs.iter().enumerate() {
        if s.fabric == fabric {
            return (Some(s.id), &subs[place + 1..]);
        }
    }
    (None, &[])
}

fn is_named(fabric: u8, id: u32, s: &Subscription) -> bool
    ensures { result ≡ is_named fabric id s.now }
{
    s.fabric == fabric && s.id == id
}
