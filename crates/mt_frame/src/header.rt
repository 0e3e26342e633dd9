//! The two headers as data.

/// The header in front of a sealed message of a unicast session.
#[derive(Clone, Copy, Debug, PartialEq, Eq)]
pub struct MessageHeader {
    /// The receiver's id of the session. It is not 0, which is the unsecured session.
    pub session: u16,
    /// The sender's count of messages under this key.
    pub counter: u32,
    /// The sender's node id, where it is said.
    pub source: Option<u64>,
    /// The receiver's node id, where it is said.
    pub destination: Option<u64>,
}

/// The header in front of the payload, inside the seal.
#[derive(Clone, Copy, Debug, PartialEq, Eq)]
pub struct ProtocolHeader {
    /// Whether the sender began the exchange.
    pub initiator: bool,
    /// Whether the sender asks for an acknowledgement.
    pub reliable: bool,
    /// The kind of message, in the protocol's own numbers.
    pub opcode: u8,
    /// The exchange of which the message is a part.
    pub exchange: u16,
    /// The protocol's number; without a vendor it is one of the standard's own.
    pub protocol: u16,
    /// The vendor whose protocol it is.
    pub vendor: Option<u16>,
    /// The counter of the received message that this one acknowledges.
    pub acknowledged: Option<u32>,
}
