//! The first status that stands in a command's way, and the form of its fields.

ghost use Rattle.std.specs.Prelude.{◌≡◌};
ghost use Rattle.mt_meta.specs.Finding.{find_command_of};
ghost use Rattle.mt_model.specs.rows.Seen.{seen_as};
ghost use Rattle.mt_invoke.specs.Checking.{checked, has_form, is_scoped, may_invoke, timely};

use mt_acl::grants_if_asked;
use mt_meta::{Asked, CommandMeta, command_fields, find_command, has_fields, privilege_asked};
use mt_model::{Actor, Place, Sight, Status};
use mt_tlv::Value;

/// What the table says of a command, if nothing stands in its way. `timed` says whether the request was
/// timed.
///
/// The first of these refuses it: the actor is not granted the privilege of the table, or View where
/// nothing is there; the endpoint, the cluster or the command is not there; it takes a timed request. A
/// command that acts on a fabric is not granted to PASE that has none.
pub fn check<S: Sight>(
    sight: &S,
    actor: &Actor,
    command: &Place,
    timed: bool,
) -> Result<CommandMeta, Status>
    ensures exact { let seen = seen_as actor.now.fabric (S.rows_of sight.now) (S.versions sight.now) (S.all_entries sight.now) in
        result ≡ checked seen actor.now command.now timed }
{
    if !may_invoke(sight, actor, command) {
        return Err(Status::UnsupportedAccess);
    }
    let meta = find_command(command)?;
    timely(timed, meta)
}

fn may_invoke<S: Sight>(sight: &S, actor: &Actor, command: &Place) -> bool
    ensures { let seen = seen_as actor.now.fabric (S.rows_of sight.now) (S.versions sight.now) (S.all_entries sight.now) in
        result ≡ may_invoke seen actor.now command.now }
{
    let entries = sight.entries(actor.fabric);
    let asked = privilege_asked(command, Asked::Command);
    let scoped = is_scoped(command);
    grants_if_asked(entries, actor, command, asked, scoped)
}

// A command that is not there is not scoped.
fn is_scoped(command: &Place) -> bool
    ensures { result ≡ is_scoped (find_command_of command.now) }
{
    match find_command(command) {
        Ok(meta) => meta.scoped,
        Err(_) => false,
    }
}

fn timely(timed: bool, meta: CommandMeta) -> Result<CommandMeta, Status>
    ensures { result ≡ timely timed meta }
{
    if meta.timed && !timed {
        return Err(Status::NeedsTimedInteraction);
    }
    Ok(meta)
}

/// Whether these may be the fields of a command, as the table says: a structure in which each field that must
/// be there is, and each that is there has its type, its width and, where that is fixed, its length. What the
/// table does not name is passed over. A command whose fields have another form is refused with
/// INVALID_COMMAND, once `check` has nothing against it and before its cluster is asked.
pub fn has_form(command: &Place, fields: &Value) -> bool
    ensures { result ≡ has_form command.now fields.now }
{
    has_fields(command_fields(command.cluster, command.leaf), fields)
}
