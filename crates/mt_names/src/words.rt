//! The names of privileges, modes, statuses and messages.

ghost use Rattle.std.specs.Prelude.{◌≡◌, IfSome};
ghost use Rattle.std.specs.Option.{option_map};
ghost use Rattle.mt_model.specs.messages.Status.{code_of};
ghost use Rattle.mt_names.specs.Words.{auth_name, message_name, privilege_name, status_name, status_of};

use mt_model::opcode::{
    INVOKE_REQUEST, INVOKE_RESPONSE, READ_REQUEST, REPORT_DATA, STATUS_RESPONSE, SUBSCRIBE_REQUEST,
    SUBSCRIBE_RESPONSE, TIMED_REQUEST, WRITE_REQUEST, WRITE_RESPONSE,
};
use mt_model::{Auth, Privilege, Status};

/// The name of a privilege.
pub fn privilege_name(privilege: Privilege) -> &'static str
    ensures { result.now ≡ privilege_name privilege }
{
    match privilege {
        Privilege::View => "View",
        Privilege::ProxyView => "ProxyView",
        Privilege::Operate => "Operate",
        Privilege::Manage => "Manage",
        Privilege::Administer => "Administer",
    }
}

/// The name of the way in which a peer has proved who it is.
pub fn auth_name(auth: Auth) -> &'static str
    ensures { result.now ≡ auth_name auth }
{
    match auth {
        Auth::Pase => "PASE",
        Auth::Case => "CASE",
        Auth::Group => "group",
    }
}

/// The name of a status.
pub fn status_name(status: Status) -> &'static str
    ensures { result.now ≡ status_name status }
{
    match status {
        Status::Success => "SUCCESS",
        Status::Failure => "FAILURE",
        Status::UnsupportedAccess => "UNSUPPORTED_ACCESS",
        Status::UnsupportedEndpoint => "UNSUPPORTED_ENDPOINT",
        Status::InvalidAction => "INVALID_ACTION",
        Status::UnsupportedCommand => "UNSUPPORTED_COMMAND",
        Status::InvalidCommand => "INVALID_COMMAND",
        Status::UnsupportedAttribute => "UNSUPPORTED_ATTRIBUTE",
        Status::ConstraintError => "CONSTRAINT_ERROR",
        Status::UnsupportedWrite => "UNSUPPORTED_WRITE",
        Status::ResourceExhausted => "RESOURCE_EXHAUSTED",
        Status::NotFound => "NOT_FOUND",
        Status::InvalidDataType => "INVALID_DATA_TYPE",
        Status::DataVersionMismatch => "DATA_VERSION_MISMATCH",
        Status::Timeout => "TIMEOUT",
        Status::Busy => "BUSY",
        Status::UnsupportedCluster => "UNSUPPORTED_CLUSTER",
        Status::NeedsTimedInteraction => "NEEDS_TIMED_INTERACTION",
        Status::UnsupportedEvent => "UNSUPPORTED_EVENT",
        Status::PathsExhausted => "PATHS_EXHAUSTED",
        Status::TimedRequestMismatch => "TIMED_REQUEST_MISMATCH",
        Status::FailsafeRequired => "FAILSAFE_REQUIRED",
    }
}

/// The status of a code; None where no status has it.
#[tactic(auto, unfolding(crate::specs::Words::status_of))]
pub fn status_of(code: u8) -> Option<Status>
    ensures exact { result ≡ status_of code }
    // It is the status whose code this is.
    ensures found { IfSome result (λ status. code_of status ≡ code) }
{
    match code {
        0x00 => Some(Status::Success),
        0x01 => Some(Status::Failure),
        0x7e => Some(Status::UnsupportedAccess),
        0x7f => Some(Status::UnsupportedEndpoint),
        0x80 => Some(Status::InvalidAction),
        0x81 => Some(Status::UnsupportedCommand),
        0x85 => Some(Status::InvalidCommand),
        0x86 => Some(Status::UnsupportedAttribute),
        0x87 => Some(Status::ConstraintError),
        0x88 => Some(Status::UnsupportedWrite),
        0x89 => Some(Status::ResourceExhausted),
        0x8b => Some(Status::NotFound),
        0x8d => Some(Status::InvalidDataType),
        0x92 => Some(Status::DataVersionMismatch),
        0x94 => Some(Status::Timeout),
        0x9c => Some(Status::Busy),
        0xc3 => Some(Status::UnsupportedCluster),
        0xc6 => Some(Status::NeedsTimedInteraction),
        0xc7 => Some(Status::UnsupportedEvent),
        0xc8 => Some(Status::PathsExhausted),
        0xc9 => Some(Status::TimedRequestMismatch),
        0xca => Some(Status::FailsafeRequired),
        _ => None,
    }
}

/// The name of the message of an opcode of the interaction model; None where no message has it.
#[tactic(auto, unfolding(crate::specs::Words::message_name))]
pub fn message_name(opcode: u8) -> Option<&'static str>
    ensures { option_map (λ name. name.now) result ≡ message_name opcode }
{
    match opcode {
        STATUS_RESPONSE => Some("StatusResponse"),
        READ_REQUEST => Some("ReadRequest"),
        SUBSCRIBE_REQUEST => Some("SubscribeRequest"),
        SUBSCRIBE_RESPONSE => Some("SubscribeResponse"),
        REPORT_DATA => Some("ReportData"),
        WRITE_REQUEST => Some("WriteRequest"),
        WRITE_RESPONSE => Some("WriteResponse"),
        INVOKE_REQUEST => Some("InvokeRequest"),
        INVOKE_RESPONSE => Some("InvokeResponse"),
        TIMED_REQUEST => Some("TimedRequest"),
        _ => None,
    }
}
