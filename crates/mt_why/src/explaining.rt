//! The causes of a line.

ghost use Rattle.std.specs.Prelude.{◌≡◌, ◌≢◌, ◌≤◌, ◌<◌, ◌∷◌, ◌++◌, [], ℕ, Some, false, true, All, IfOk, OnOk, slice_index};
ghost use Rattle.std.specs.List.{list_any};
ghost use Rattle.mt_model.specs.messages.Status.{code_of};
ghost use Rattle.mt_why.specs.Causes.{Holds, IsAccounted, IsSparedIfNone, has_code, status_of};

use crate::actors::asking;
use crate::cause::Cause;
use crate::refusals::{Wish, refusal};
use crate::scene::Scene;
use crate::silences::silence;
use mt_meta::{Asked, command_fields, has_fields};
use mt_model::{Actor, Path, Request, Status, WriteItem};
use mt_names::status_of;
use std::alloc::{AllocError, Global};

/// The causes of a line that was sent nothing or was refused something, none where neither is so. Of what is refused those
/// are told whose status is in what was sent, in the order of what was asked; behind them each status that they don't
/// account for.
pub fn explain(alloc: Global, scene: &Scene<'_>) -> Result<Vec<Cause>, AllocError>
    ensures holds { IfOk result (λ causes. All (Holds scene.now) causes.items) }
    ensures found { scene.now.is_answered ≡ false → IfOk result (λ causes. IsSparedIfNone scene.now causes.items) }
    ensures told { scene.now.is_answered ≡ true → IfOk result (λ causes. (code : ℕ) → 1 ≤ code → code < 256 → IsAccounted scene.now causes.items code) }
{
    if !scene.is_answered {
        return silent_causes(alloc, scene);
    }
    let mut causes = Vec::new(alloc);
    note_refusals(scene, &mut causes)?;
    note_answers(scene, &mut causes)?;
    Ok(causes)
}

// The cause for which nothing was sent, where there is one.
fn silent_causes(alloc: Global, scene: &Scene<'_>) -> Result<Vec<Cause>, AllocError>
    ensures holds { IfOk result (λ causes. All (Holds scene.now) causes.items) }
    ensures found { IfOk result (λ causes. IsSparedIfNone scene.now causes.items) }
{
    let mut causes = Vec::new(alloc);
    let Some(cause) = silence(scene) else {
        return Ok(causes);
    };
    add(scene, cause, &mut causes)?;
    Ok(causes)
}

// Notes what is refused of what is asked.
fn note_refusals(scene: &Scene<'_>, causes: &mut Vec<Cause>) -> Result<(), AllocError>
    requires { All (Holds scene.now) causes.old.items }
    ensures { OnOk result (All (Holds scene.now) causes.new.items) }
{
    let Some(actor) = asking(scene.state, scene.event) else {
        return Ok(());
    };
    match scene.request {
        Some(Request::Read { paths, events, .. }) => {
            note_paths(scene, actor, Asked::Read, paths.as_slice(), causes)?;
            note_paths(scene, actor, Asked::Event, events.as_slice(), causes)
        }
        Some(Request::Subscribe { paths, events, .. }) => {
            note_paths(scene, actor, Asked::Read, paths.as_slice(), causes)?;
            note_paths(scene, actor, Asked::Event, events.as_slice(), causes)
        }
        Some(Request::Write { timed, items, .. }) => {
            note_writes(scene, actor, *timed, items.as_slice(), causes)
        }
        Some(Request::Invoke { timed, command, .. }) => {
            let wish = Wish {
                actor,
                what: Asked::Command,
                place: *command,
                is_timed: *timed,
                is_item: false,
                version: None,
            };
            note(scene, &wish, causes)
        }
        _ => Ok(()),
    }
}

// The same of paths that are read. What a wildcard names and is not granted is left out and not refused.
fn note_paths(
    scene: &Scene<'_>,
    actor: Actor,
    what: Asked,
    paths: &[Path],
    causes: &mut Vec<Cause>,
) -> Result<(), AllocError>
    requires { All (Holds scene.now) causes.old.items }
    ensures { OnOk result (All (Holds scene.now) causes.new.items) }
{
    for path in paths {
        note_path(scene, actor, what, path, causes)?;
    }
    Ok(())
}

fn note_path(
    scene: &Scene<'_>,
    actor: Actor,
    what: Asked,
    path: &Path,
    causes: &mut Vec<Cause>,
) -> Result<(), AllocError>
    requires { All (Holds scene.now) causes.old.items }
    ensures { OnOk result (All (Holds scene.now) causes.new.items) }
{
    let Some(place) = path.place() else {
        return Ok(());
    };
    let wish = Wish {
        actor,
        what,
        place,
        is_timed: false,
        is_item: false,
        version: None,
    };
    note(scene, &wish, causes)
}

// The same of the items of a write.
fn note_writes(
    scene: &Scene<'_>,
    actor: Actor,
    is_timed: bool,
    items: &[WriteItem],
    causes: &mut Vec<Cause>,
) -> Result<(), AllocError>
    requires { All (Holds scene.now) causes.old.items }
    ensures { OnOk result (All (Holds scene.now) causes.new.items) }
{
    for item in items {
        note_write(scene, actor, is_timed, item, causes)?;
    }
    Ok(())
}

fn note_write(
    scene: &Scene<'_>,
    actor: Actor,
    is_timed: bool,
    item: &WriteItem,
    causes: &mut Vec<Cause>,
) -> Result<(), AllocError>
    requires { All (Holds scene.now) causes.old.items }
    ensures { OnOk result (All (Holds scene.now) causes.new.items) }
{
    let Some(place) = item.path.place() else {
        return Ok(());
    };
    let wish = Wish {
        actor,
        what: Asked::Write,
        place,
        is_timed,
        is_item: item.path.names_item(),
        version: item.version,
    };
    note(scene, &wish, causes)
}

// Notes what stands in the way of a wish, where its status is in what was sent.
fn note(scene: &Scene<'_>, wish: &Wish, causes: &mut Vec<Cause>) -> Result<(), AllocError>
    requires { All (Holds scene.now) causes.old.items }
    ensures { OnOk result (All (Holds scene.now) causes.new.items) }
{
    let Some(cause) = refusal(scene, wish) else {
        return Ok(());
    };
    if !is_sent(scene, &cause) {
        return Ok(());
    }
    add(scene, cause, causes)
}

// Adds a cause that holds.
fn add(scene: &Scene<'_>, cause: Cause, causes: &mut Vec<Cause>) -> Result<(), AllocError>
    requires all { All (Holds scene.now) causes.old.items }
    requires holds { Holds scene.now cause }
    ensures items { OnOk result (causes.new.items ≡ causes.old.items ++ cause ∷ []) }
    ensures all { OnOk result (All (Holds scene.now) causes.new.items) }
{
    causes.push(cause)?;
    Ok(())
}

// Whether the status of a cause is in what was sent.
fn is_sent(scene: &Scene<'_>, cause: &Cause) -> bool {
    match cause.status() {
        Some(status) => scene.codes[status.code() as usize] > 0,
        None => false,
    }
}

// Notes each status in what was sent that the causes so far don't account for.
fn note_answers(scene: &Scene<'_>, causes: &mut Vec<Cause>) -> Result<(), AllocError>
    requires { All (Holds scene.now) causes.old.items }
    ensures all { OnOk result (All (Holds scene.now) causes.new.items) }
    ensures told { OnOk result ((code : ℕ) → 1 ≤ code → code < 256 → IsAccounted scene.now causes.new.items code) }
{
    for code in 1..256usize {
        note_answer(scene, code, causes)?;
    }
    Ok(())
}

fn note_answer(scene: &Scene<'_>, code: usize, causes: &mut Vec<Cause>) -> Result<(), AllocError>
    requires code { code < 256 }
    requires all { All (Holds scene.now) causes.old.items }
    ensures all { OnOk result (All (Holds scene.now) causes.new.items) }
    ensures told { OnOk result (IsAccounted scene.now causes.new.items code) }
    ensures stays { OnOk result ((other : ℕ) → list_any (has_code other) causes.old.items ≡ true → list_any (has_code other) causes.new.items ≡ true) }
{
    let Some(status) = status_of(code as u8) else {
        return Ok(());
    };
    let count = scene.codes[code];
    if count == 0 {
        return Ok(());
    }
    if has_any(causes.as_slice(), code as u8) && count <= counted(causes.as_slice(), code as u8) {
        return Ok(());
    }
    add(scene, answered(scene, status), causes)
}

// Why this status, which is in what was sent, was answered, as far as what is asked tells it: INVALID_COMMAND is asked of the
// fields' form first, and then by the command's cluster.
fn answered(scene: &Scene<'_>, status: Status) -> Cause
    requires { slice_index scene.now.codes.now (code_of status) ≢ 0 }
    ensures holds { Holds scene.now result }
    ensures status { status_of result ≡ Some status }
{
    match (status, scene.request) {
        (
            Status::InvalidCommand,
            Some(
                Request::Invoke {
                    command,
                    fields,
                    ..
                },
            ),
        ) => {
            if has_fields(command_fields(command.cluster, command.leaf), fields) {
                Cause::RefusedFields { command: *command }
            } else {
                Cause::OtherForm { command: *command }
            }
        }
        _ => Cause::Answered { status },
    }
}

// Whether one of the causes has a status of this code.
fn has_any(causes: &[Cause], code: u8) -> bool
    ensures { result ≡ list_any (has_code code) causes.now }
{
    causes.iter().any(|cause| has_code(cause, code))
}

// How many causes have a status of this code.
fn counted(causes: &[Cause], code: u8) -> u64 {
    causes.iter().filter(|cause| has_code(cause, code)).count() as u64
}

fn has_code(cause: &Cause, code: u8) -> bool
    ensures { result ≡ has_code code cause.now }
{
    match cause.status() {
        Some(status) => status.code() == code,
        None => false,
    }
}
