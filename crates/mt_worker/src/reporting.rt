//! The reporter, from its first job to the end message.

ghost use Rattle.std.specs.Prelude.{◌≡◌, ◌≤◌, [], IfOk, OnOk};
ghost use Rattle.mt_model.specs.declared.limits.TheConstants.{LAST_TIME};
ghost use Rattle.mt_queue.specs.Jobs.{IsEnded, IsWithinLimits, is_end};
ghost use Rattle.mt_layer.specs.mt_shared.Shared.{IsPassOf};
ghost use Rattle.mt_turn.specs.History.{IsOutsideAgain};
ghost use Rattle.mt_worker.specs.Works.{Reported, Ticked, TickedThrough};

use crate::acting::Desk;
use crate::fault::WorkFault;
use crate::working::{Done, status_of, take_to_end};
use mt_durable::Keeper;
use mt_layer::{Call, Deed, NodePass, SharedNode, Watcher};
use mt_model::{Event, Verdicts};
use mt_outside::Gate;
use mt_queue::{Job, Jobs};
use std::sync::Wait;

/// The reporter: it takes jobs until the end message, and in each wake makes a time step. After a fault it goes on taking jobs, and does
/// nothing else. Its number is that of the workers. The watcher is told how much the node is used behind each step.
pub fn reporter<R: Wait, K: Keeper + Drop + Send, V: Verdicts + Drop, G: Gate, U: Watcher + Drop>(
    rt: &R,
    node: &SharedNode<K, V>,
    mut pass: NodePass,
    number: u32,
    mut jobs: Jobs,
    gate: &G,
    mut watcher: U,
) -> Done<()>
    requires own { IsPassOf node.now pass }
    requires fresh { jobs.taken ≡ [] }
    ensures outside { IsOutsideAgain pass result.pass }
    ensures queue { result.queue.queue ≡ jobs.queue }
    ensures ended { IsEnded result.queue.taken }
    ensures reported { Reported pass result }
{
    let desk = Desk {
        rt,
        node,
        gate,
        number,
    };
    let ended = report(&desk, &mut pass, &mut jobs, &mut watcher);
    if ended.is_err() {
        take_to_end(rt, &mut jobs);
    }
    Done {
        outlet: (),
        pass,
        queue: jobs.into_pass(),
        status: status_of(&ended),
    }
}

// The jobs up to the end message.
fn report<R: Wait, K: Keeper + Drop + Send, V: Verdicts + Drop, G: Gate, U: Watcher>(
    desk: &Desk<'_, R, K, V, G>,
    pass: &mut NodePass,
    jobs: &mut Jobs,
    watcher: &mut U,
) -> Result<(), WorkFault>
    requires own { IsPassOf desk.now.node.now pass.old }
    requires fresh { jobs.old.taken ≡ [] }
    ensures own { IsPassOf desk.now.node.now pass.new }
    ensures outside { IsOutsideAgain pass.old pass.new }
    ensures queue { jobs.new.queue ≡ jobs.old.queue }
    ensures ended { OnOk result (IsEnded jobs.new.taken) }
    ensures ticked { TickedThrough jobs.new.taken pass.old pass.new result }
{
    for _ in desk.rt.forever() {
        let job = jobs.take(desk.rt);
        if is_end_after(desk, pass, &job, watcher)? {
            return Ok(());
        }
    }
    unreachable!()
}

// A job. True at the end message.
fn is_end_after<R: Wait, K: Keeper + Drop + Send, V: Verdicts + Drop, G: Gate, U: Watcher>(
    desk: &Desk<'_, R, K, V, G>,
    pass: &mut NodePass,
    job: &Job,
    watcher: &mut U,
) -> Result<bool, WorkFault>
    requires own { IsPassOf desk.now.node.now pass.old }
    requires limits { IsWithinLimits job.now }
    ensures own { IsPassOf desk.now.node.now pass.new }
    ensures outside { IsOutsideAgain pass.old pass.new }
    ensures ticked { Ticked job.now pass.old pass.new result }
    ensures end { IfOk result (λ is. is ≡ is_end job.now) }
{
    match job {
        Job::Take { .. } => Ok(false),
        Job::Wake { now } => {
            tick(desk, pass, *now, watcher)?;
            Ok(false)
        },
        Job::End => Ok(true),
    }
}

// A time step.
fn tick<R: Wait, K: Keeper + Drop + Send, V: Verdicts + Drop, G: Gate, U: Watcher>(
    desk: &Desk<'_, R, K, V, G>,
    pass: &mut NodePass,
    now: u64,
    watcher: &mut U,
) -> Result<(), WorkFault>
    requires own { IsPassOf desk.now.node.now pass.old }
    requires time { now ≤ LAST_TIME }
    ensures own { IsPassOf desk.now.node.now pass.new }
    ensures outside { IsOutsideAgain pass.old pass.new }
    ensures ticked { Ticked (Job.Wake now) pass.old pass.new result }
{
    let call = Call {
        event: Event::Tick { ms: now },
        deed: Deed::Expire,
    };
    desk.act_watched(pass, call, watcher)?;
    Ok(())
}
