//! What each thread has left, taken in again.

ghost use Rattle.std.specs.Prelude.{◌≡◌, ◌≤◌, ◌+◌, ◌++◌, ◌∷◌, [], All, length, map, vec_capacity, vec_len};
ghost use Rattle.std.specs.List.{AllZip};
ghost use Rattle.mt_owners.specs.mt_shared.Shared.{IsPassOf};
ghost use Rattle.mt_crew.specs.Gathering.{Gathered, GatheredAll, TookAll, TookIn, TookOfAll, first_fault, first_of, outlet_left, queue_left, status_left};
ghost use Rattle.mt_crew.specs.Members.{HasLeft, IsLeft, lefts};
ghost use Rattle.mt_crew.specs.Ready.{queue_put};

use crate::member::Member;
use mt_durable::Keeper;
use mt_model::Verdicts;
use mt_owners::{Done, NodePass, SharedNode};
use mt_queue::JobSender;

/// Takes in what one thread has left, once what it took is compared with what was put into its queue. The answer is its outlet and its
/// status.
pub(crate) fn take_in<K: Keeper + Drop + Send, V: Verdicts + Drop, O: Drop>(
    node: &SharedNode<K, V>,
    pass: &mut NodePass,
    sender: JobSender,
    ended: Done<O>,
) -> (O, u8)
    requires own { IsPassOf node.now pass.old }
    requires back { IsLeft node.now ended }
    requires queue { ended.queue.queue ≡ sender.queue }
    ensures own { IsPassOf node.now pass.new }
    ensures result { result ≡ (ended.outlet, ended.status) }
    ensures took { TookIn pass.old pass.new ended }
    ensures taken { TookAll sender ended }
{
    let Done {
        outlet,
        pass: other,
        queue,
        status,
    } = ended;
    sender.compare_ended(queue);
    node.join(pass, other);
    (outlet, status)
}

/// Takes in what the workers have left, each with its queue, and gives back their outlets in their order. The answer is the first status
/// of theirs that is not 0, or 0.
pub(crate) fn gather<K: Keeper + Drop + Send, V: Verdicts + Drop, O: Drop>(
    node: &SharedNode<K, V>,
    pass: &mut NodePass,
    outlets: &mut Vec<O>,
    senders: &mut Vec<JobSender>,
    members: &mut Vec<Member<O>>,
) -> u8
    requires own { IsPassOf node.now pass.old }
    requires back { All (HasLeft node.now) members.old.items }
    requires queues { map queue_left (lefts members.old.items) ≡ map queue_put senders.old.items }
    requires length { length senders.old.items ≡ length members.old.items }
    requires room { vec_len outlets.old + length members.old.items ≤ vec_capacity outlets.old }
    ensures own { IsPassOf node.now pass.new }
    ensures share { pass.new.share ≡ pass.old.share + length members.old.items }
    ensures room { vec_capacity outlets.new ≡ vec_capacity outlets.old }
    ensures outlets { outlets.new.items ≡ outlets.old.items ++ map outlet_left (lefts members.old.items) }
    ensures length { length outlets.new.items ≡ length outlets.old.items + length members.old.items }
    ensures gathered { Gathered pass.old pass.new (lefts members.old.items) }
    ensures taken { AllZip TookAll senders.old.items (lefts members.old.items) }
    ensures status { result ≡ first_fault (map status_left (lefts members.old.items)) }
{
    let Some(member) = members.pop() else {
        return 0;
    };
    let Some(sender) = senders.pop() else {
        unreachable!()
    };
    let before = gather(node, pass, outlets, senders, members);
    let Some(ended) = member.into_left() else {
        unreachable!()
    };
    let (outlet, status) = take_in(node, pass, sender, ended);
    outlets.push_reserved(outlet);
    first_of(before, status)
}

/// Takes in what all have left, with their queues, of which the last is the reporter's. The answer is the first status that is not 0, of the
/// workers' by rising number and the reporter's, or 0.
pub(crate) fn gather_all<K: Keeper + Drop + Send, V: Verdicts + Drop, O: Drop>(
    node: &SharedNode<K, V>,
    pass: &mut NodePass,
    outlets: &mut Vec<O>,
    mut senders: Vec<JobSender>,
    clerk: Done<()>,
    mut members: Vec<Member<O>>,
) -> u8
    requires own { IsPassOf node.now pass.old }
    requires back { IsLeft node.now clerk × All (HasLeft node.now) members.items }
    requires queues { map queue_left (lefts members.items) ++ queue_left clerk ∷ [] ≡ map queue_put senders.items }
    requires length { length senders.items ≡ length members.items + 1 }
    requires room { (outlets.old.items ≡ []) × (length members.items ≤ vec_capacity outlets.old) }
    ensures own { IsPassOf node.now pass.new }
    ensures share { pass.new.share ≡ pass.old.share + length members.items + 1 }
    ensures outlets { outlets.new.items ≡ map outlet_left (lefts members.items) }
    ensures length { length outlets.new.items ≡ length members.items }
    ensures gathered { GatheredAll pass.old pass.new (lefts members.items) clerk }
    ensures taken { TookOfAll senders.items (lefts members.items) clerk }
    ensures status { result ≡ first_fault (map status_left (lefts members.items) ++ clerk.status ∷ []) }
{
    let Some(sender) = senders.pop() else {
        unreachable!()
    };
    let ((), last) = take_in(node, pass, sender, clerk);
    let worked = gather(node, pass, outlets, &mut senders, &mut members);
    first_of(worked, last)
}

/// The first of two statuses that is not 0.
pub(crate) fn first_of(status: u8, later: u8) -> u8
    ensures { result ≡ first_of status later }
{
    if status == 0 { later } else { status }
}
