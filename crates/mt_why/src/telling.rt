//! Causes in words.

ghost use Rattle.std.specs.Prelude.{IfOk, codes, string_bytes};
ghost use Rattle.std.specs.Io.{StartsWith};

use crate::cause::Cause;
use mt_meta::Asked;
use mt_meta::clusters::{
    ADMINISTRATOR_COMMISSIONING, GROUP_KEY_MANAGEMENT, OPERATIONAL_CREDENTIALS,
    administrator_commissioning, group_key_management, operational_credentials,
};
use mt_model::{Actor, Auth, Place, Privilege, Status};
use mt_names::{
    attribute_name, cluster_name, command_name, event_name, privilege_name, status_name,
};
use std::alloc::{AllocError, Global};

/// A cause in words: `why: ` and one sentence.
pub fn told(alloc: Global, cause: &Cause) -> Result<String, AllocError>
    ensures front { IfOk result (λ text. StartsWith (string_bytes text) (codes "why: ")) }
{
    let mut text = String::from_str(alloc, "why: ")?;
    let words = words_of(alloc, cause)?;
    text.push_str(words.as_str())?;
    Ok(text)
}

fn words_of(alloc: Global, cause: &Cause) -> Result<String, AllocError> {
    let mut text = String::new(alloc);
    match cause.status() {
        Some(status) => tell_refusal(&mut text, cause, status)?,
        None => tell_silence(&mut text, cause)?,
    }
    Ok(text)
}

fn tell_silence(text: &mut String, cause: &Cause) -> Result<(), AllocError> {
    match cause {
        Cause::NoFabric { fabric } => write!(text, "fabric {fabric} is not in the table"),
        Cause::PlainEnded => text.push_str(
            "the plain PASE session has ended, and the next one comes with a restart: one plain commissioning a boot",
        ),
        Cause::Suppressed => text.push_str("the request says that it wants no answer"),
        Cause::NoHeader { .. } => {
            text.push_str("the datagram names no session, since its message header can't be read")
        }
        Cause::NotSubscribed { .. }
        | Cause::NotConfirmed { .. }
        | Cause::TooEarly { .. }
        | Cause::NothingDue { .. } => tell_subscription(text, cause),
        _ => tell_session(text, cause),
    }
}

fn tell_session(text: &mut String, cause: &Cause) -> Result<(), AllocError> {
    match cause {
        Cause::NoSession { session } => write!(text, "this boot has no session {session}"),
        Cause::SessionWaits { session } => {
            write!(text, "session {session} waits for its fabric to join")
        }
        Cause::SessionEnded { session } => write!(text, "session {session} has ended"),
        Cause::FabricLeft { session } => {
            write!(
                text,
                "session {session} has ended, and its fabric is not in the table"
            )
        }
        Cause::NotLetIn { session } => {
            write!(
                text,
                "session {session} does not let the datagram in as a new message"
            )
        }
        Cause::NothingToAnswer { session } => {
            write!(
                text,
                "session {session} let it in, and nothing in it is to be answered"
            )
        }
        Cause::NothingToResend { session } => {
            write!(
                text,
                "over session {session} nothing is due to be sent again"
            )
        }
        _ => Ok(()),
    }
}

fn tell_subscription(text: &mut String, cause: &Cause) -> Result<(), AllocError> {
    match cause {
        Cause::NotSubscribed {
            fabric,
            subscription,
        } => write!(text, "fabric {fabric} has no subscription {subscription}"),
        Cause::NotConfirmed {
            fabric,
            subscription,
        } => write!(
            text,
            "nothing is due: the latest report of subscription {subscription} of fabric {fabric} was not confirmed yet"
        ),
        Cause::TooEarly { floor, last, .. } => write!(
            text,
            "nothing is due: its floor of {floor} s has not passed since the latest report, at {last} ms"
        ),
        Cause::NothingDue { ceiling, last, .. } => write!(
            text,
            "nothing is due: no attribute that it names has changed since the latest report, at {last} ms, and its ceiling of {ceiling} s has not passed"
        ),
        _ => Ok(()),
    }
}

// Which status it is, and why.
fn tell_refusal(text: &mut String, cause: &Cause, status: Status) -> Result<(), AllocError> {
    let name = status_name(status);
    write!(text, "{name}: ")?;
    match cause {
        Cause::NoEntry {
            actor,
            what,
            privilege,
            place,
        } => tell_denial(text, actor, *what, *privilege, place),
        Cause::Missing { what, place, .. } => {
            text.push_str(missing(status))?;
            tell_place(text, *what, place)
        }
        Cause::NotWritable { place } => tell_at(text, "nobody may write ", place),
        Cause::SingleItem { place } => tell_at(text, "a single item can't be written of ", place),
        Cause::NeedsTimed { what, place } => {
            text.push_str("only a timed request may have ")?;
            tell_place(text, *what, place)
        }
        Cause::OtherVersion {
            place,
            wanted,
            version,
        } => {
            tell_at(text, "the data version of the cluster of ", place)?;
            write!(text, " is {version}, and not {wanted}")
        }
        Cause::OtherForm { command } => {
            text.push_str(
                "the fields are no structure, or one is missing or has not its type, its range or its length: ",
            )?;
            tell_place(text, Asked::Command, command)
        }
        Cause::RefusedFields { command } => {
            text.push_str(refused(command))?;
            text.push_str(": ")?;
            tell_place(text, Asked::Command, command)
        }
        _ => text.push_str(meaning(status)),
    }
}

// What a command refuses with INVALID_COMMAND whose fields have their form.
fn refused(command: &Place) -> &'static str {
    match (command.cluster, command.leaf) {
        (ADMINISTRATOR_COMMISSIONING, administrator_commissioning::OPEN_COMMISSIONING_WINDOW) =>
            "the timeout or the discriminator is out of its range",
        (
            ADMINISTRATOR_COMMISSIONING,
            administrator_commissioning::OPEN_BASIC_COMMISSIONING_WINDOW,
        ) => "the timeout is out of its range",
        (OPERATIONAL_CREDENTIALS, operational_credentials::CSR_REQUEST) => {
            "a request for an update is not made over PASE"
        }
        (OPERATIONAL_CREDENTIALS, operational_credentials::ADD_TRUSTED_ROOT_CERTIFICATE) => {
            "the configuration has no verdict on the certificate"
        }
        (GROUP_KEY_MANAGEMENT, group_key_management::KEY_SET_WRITE) => {
            "what is to be written is no group key set"
        }
        (GROUP_KEY_MANAGEMENT, group_key_management::KEY_SET_REMOVE) => {
            "the group key set 0 can't be removed"
        }
        _ => "the cluster does not take what the fields say",
    }
}

fn tell_at(text: &mut String, words: &str, place: &Place) -> Result<(), AllocError> {
    text.push_str(words)?;
    tell_place(text, Asked::Write, place)
}

// Which entry was missing.
fn tell_denial(
    text: &mut String,
    actor: &Actor,
    what: Asked,
    privilege: Privilege,
    place: &Place,
) -> Result<(), AllocError> {
    if actor.auth == Auth::Pase {
        text.push_str("over PASE without a fabric nobody changes what belongs to fabrics, as ")?;
        return tell_place(text, what, place);
    }
    let fabric = actor.fabric;
    let name = privilege_name(privilege);
    write!(text, "no entry of fabric {fabric} gives ")?;
    tell_actor(text, actor)?;
    write!(text, " {name} at ")?;
    tell_place(text, what, place)
}

fn tell_actor(text: &mut String, actor: &Actor) -> Result<(), AllocError> {
    let node = actor.node;
    write!(text, "node {node:016x}")?;
    for cat in actor.cats {
        if cat != 0 {
            let identifier = cat / 0x1_0000;
            let version = cat % 0x1_0000;
            write!(text, " or CAT {identifier:04x} in version {version}")?;
        }
    }
    Ok(())
}

fn missing(status: Status) -> &'static str {
    match status {
        Status::UnsupportedEndpoint => "there is no such endpoint: ",
        Status::UnsupportedCluster => "the endpoint has no such cluster: ",
        _ => "the cluster has nothing of that number: ",
    }
}

// The endpoint, the cluster, and the attribute, command or event.
fn tell_place(text: &mut String, what: Asked, place: &Place) -> Result<(), AllocError> {
    let endpoint = place.endpoint;
    let cluster = place.cluster;
    let leaf = place.leaf;
    write!(text, "{endpoint}/")?;
    tell_name(text, cluster_name(cluster), cluster)?;
    text.push_str("/")?;
    tell_name(text, leaf_name(what, cluster, leaf), leaf)
}

fn tell_name(text: &mut String, name: Option<&'static str>, number: u32) -> Result<(), AllocError> {
    match name {
        Some(name) => text.push_str(name),
        None => write!(text, "0x{number:x}"),
    }
}

fn leaf_name(what: Asked, cluster: u32, leaf: u32) -> Option<&'static str> {
    match what {
        Asked::Read => attribute_name(cluster, leaf),
        Asked::Write => attribute_name(cluster, leaf),
        Asked::Command => command_name(cluster, leaf),
        Asked::Event => event_name(cluster, leaf),
    }
}

// What a status means where the answer alone tells of it.
fn meaning(status: Status) -> &'static str {
    match status {
        Status::Success => "it is done",
        Status::Failure => "the cluster refuses the command, for the reason that the answer names",
        Status::UnsupportedAccess => "no entry grants what is asked for",
        Status::UnsupportedEndpoint => "there is no such endpoint",
        Status::InvalidAction => "the request is malformed, or is none that can be asked so",
        Status::UnsupportedCommand => "the cluster has no such command",
        Status::InvalidCommand => {
            "the fields have not the form of the command's, or its cluster does not take what they say"
        }
        Status::UnsupportedAttribute => "the cluster has no such attribute",
        Status::ConstraintError =>
            "a value is out of its limits, or does not go with what is there",
        Status::UnsupportedWrite => "it can't be written",
        Status::ResourceExhausted => "there is no room for one more",
        Status::NotFound => "there is none of that name",
        Status::InvalidDataType => "a value has not the type of the attribute",
        Status::DataVersionMismatch => "the cluster has another data version than the write names",
        Status::Timeout => "the time in which the timed request had to come is over",
        Status::Busy => "as many timed requests or exchanges are open as may be",
        Status::UnsupportedCluster => "the endpoint has no such cluster",
        Status::NeedsTimedInteraction => "only a timed request may have it",
        Status::UnsupportedEvent => "the cluster has no such event",
        Status::PathsExhausted => "the request has too many paths or items",
        Status::TimedRequestMismatch => {
            "the request says that it is timed and none was begun, or the other way round"
        }
        Status::FailsafeRequired => "the fail-safe is not armed by who asks",
    }
}
