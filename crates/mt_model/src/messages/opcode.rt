//! The opcodes of the messages of the interaction model (Matter Core Specification, section 10.2.1, Protocol
//! Opcodes).

/// StatusResponse: the status of what was received before.
pub const STATUS_RESPONSE: u8 = 0x01;

/// ReadRequest: asks for attributes and events once.
pub const READ_REQUEST: u8 = 0x02;

/// SubscribeRequest: asks for attributes and events now and whenever they change.
pub const SUBSCRIBE_REQUEST: u8 = 0x03;

/// SubscribeResponse: the subscription stands.
pub const SUBSCRIBE_RESPONSE: u8 = 0x04;

/// ReportData: attributes and events, for a read or a subscription.
pub const REPORT_DATA: u8 = 0x05;

/// WriteRequest: asks for attributes to be changed.
pub const WRITE_REQUEST: u8 = 0x06;

/// WriteResponse: the statuses of what a write asked for.
pub const WRITE_RESPONSE: u8 = 0x07;

/// InvokeRequest: asks for a command to be carried out.
pub const INVOKE_REQUEST: u8 = 0x08;

/// InvokeResponse: the response to a command, or its status.
pub const INVOKE_RESPONSE: u8 = 0x09;

/// TimedRequest: by when the next request of the exchange must come.
pub const TIMED_REQUEST: u8 = 0x0a;
