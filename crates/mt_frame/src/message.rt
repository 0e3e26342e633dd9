//! The message header, read and written (Matter Core Specification, section 4.4, Message Frame Format).

ghost use Rattle.std.specs.Prelude.{◌≡◌, ◌≢◌, ◌+◌, ◌^◌, ◌≤◌, ◌<◌, ℕ, List, ◌∷◌, ◌++◌, length, take, drop, slice_index, Ok, IfOk, IfErr, IfNone, IfSome};
ghost use Rattle.byteorder.specs.Endian.{little_bytes};
ghost use Rattle.mt_frame.specs.declared.header.MessageHeader.{MessageHeader};
ghost use Rattle.mt_frame.specs.Spelling.{MessageSpells, message_flags};
ghost use Rattle.mt_frame.specs.Writing.{IsMessage, IsPut, message_bytes, optional_bytes};
ghost use Rattle.mt_frame.specs.declared.fault.FrameFault.TheVariants.{NoRoom};
ghost use Rattle.mt_frame.specs.Reading.{has_reserved as has_reserved_bit, is_group as is_group_message, flags_fault as fault_of_flags, message_at, message_fault, message_length, width_where as width_of_field};

use crate::fault::FrameFault;
use crate::field::{flag, is_set, put, u64_where, width_where};
use crate::header::MessageHeader;
use byteorder::{ByteOrder, LittleEndian};

/// The fixed fields: Message Flags, Session ID, Security Flags and Message Counter.
const FIXED: usize = 8;
/// S in the Message Flags: there is a source node id.
const SOURCE: u8 = 2;
/// DSIZ, bits 0 and 1 of the Message Flags, where the destination is a node id.
const NODE_ID: u8 = 1;
/// P in the Security Flags: privacy.
const PRIVACY: u8 = 7;
/// C in the Security Flags: control message.
const CONTROL: u8 = 6;
/// MX in the Security Flags: message extensions.
const EXTENSIONS: u8 = 5;

/// Reads the message header at the front, whatever follows it: the header and how many bytes it
/// takes. What is wrong first, in the order of the format, is the fault.
pub fn read_message(bytes: &[u8]) -> Result<(MessageHeader, usize), FrameFault>
    // What is read is a header that stands in front.
    ensures found { IfOk result (λ x. (x.1 ≤ length bytes.now) × MessageSpells x.0 (take x.1 bytes.now)) }
    // A header that stands in front is read.
    ensures only { (header : MessageHeader) (len : ℕ) → len ≤ length bytes.now → MessageSpells header (take len bytes.now)
        → result ≡ Ok (header, len) }
    // Which header it is and how long, and which fault.
    ensures exact { result ≡ message_at bytes.now }
{
    front_header(bytes)
}

// The header at the front and its length.
fn front_header(bytes: &[u8]) -> Result<(MessageHeader, usize), FrameFault>
    ensures { result ≡ message_at bytes.now }
{
    if let Some(fault) = first_fault(bytes) {
        return Err(fault);
    }
    let flags = bytes[0];
    let source_there = is_set(flags, SOURCE);
    let destination_there = flags % 4 == NODE_ID;
    let optional = &bytes[FIXED..];
    let source_width = width_where(source_there, 8);
    let header = MessageHeader {
        session: LittleEndian::read_u16(&bytes[1..]),
        counter: LittleEndian::read_u32(&bytes[4..]),
        source: u64_where(source_there, optional),
        destination: u64_where(destination_there, &optional[source_width..]),
    };
    Ok((header, header_length(source_there, destination_there)))
}

/// Writes a message header to the front of `out`, and answers how many bytes it takes. The rest of
/// `out` stays, and all of it where there is no room. The session is not 0.
pub fn write_message(header: &MessageHeader, out: &mut [u8]) -> Result<usize, FrameFault>
    requires { header.now.session ≢ 0 }
    // What is written is the spelling of the header.
    ensures written { IfOk result (λ n. (n ≤ length out.new) × MessageSpells header.now (take n out.new)) }
    // What stands behind it is as before.
    ensures rest { IfOk result (λ n. drop n out.new ≡ drop n out.old) }
    // The only fault is that no spelling fits, and then nothing is written.
    ensures no_room { IfErr result (λ fault. (fault ≡ NoRoom) × (out.new ≡ out.old)
        × ((bytes : List ℕ) → MessageSpells header.now bytes → length out.old < length bytes)) }
    // Which bytes these are.
    ensures exact { IsPut (message_bytes header.now) result out.old out.new }
{
    put_header(*header, out)
}

// Puts the header to the front, where there is room.
fn put_header(header: MessageHeader, out: &mut [u8]) -> Result<usize, FrameFault>
    requires { header.session ≢ 0 }
    ensures put { IsPut (message_bytes header) result out.old out.new }
    ensures in_range { IfOk result (λ _. IsMessage header) }
{
    let length = header_length(header.source.is_some(), header.destination.is_some());
    if out.len() < length {
        return Err(FrameFault::NoRoom);
    }
    let at = put(out, 0, &fixed_fields(&header));
    let at = put_node(out, at, header.source);
    let at = put_node(out, at, header.destination);
    Ok(at)
}

// The fixed fields.
fn fixed_fields(header: &MessageHeader) -> [u8; 8]
    ensures value { result ≡ message_flags header.now ∷ (little_bytes 2 header.now.session ++ (0 ∷ little_bytes 4 header.now.counter)) }
    ensures in_range { (header.now.session < 2 ^ 16) × (header.now.counter < 2 ^ 32) }
{
    let flags = flag(SOURCE, header.source.is_some()) + flag(0, header.destination.is_some());
    let [s0, s1] = header.session.to_le_bytes();
    let [c0, c1, c2, c3] = header.counter.to_le_bytes();
    [flags, s0, s1, 0, c0, c1, c2, c3]
}

// Puts a node id behind what stands in front of the place `at`, where it is said.
fn put_node(out: &mut [u8], at: usize, node: Option<u64>) -> usize
    requires { at + length (optional_bytes 8 node) ≤ length out.old }
    ensures place { result ≡ at + length (optional_bytes 8 node) }
    ensures size { length out.new ≡ length out.old }
    ensures front { (front before : List ℕ) → length front ≡ at → out.old ≡ front ++ drop at before
        → out.new ≡ (front ++ optional_bytes 8 node) ++ drop result before }
    ensures in_range { IfSome node (λ n. n < 2 ^ 64) }
{
    let Some(id) = node else {
        return at;
    };
    put(out, at, &id.to_le_bytes())
}

// The first fault in the order of the format.
fn first_fault(bytes: &[u8]) -> Option<FrameFault>
    ensures fault { result ≡ message_fault bytes.now }
    ensures whole { IfNone result (message_length (slice_index bytes.now 0) ≤ length bytes.now) }
{
    if bytes.len() < FIXED {
        return Some(FrameFault::Short);
    }
    let flags = bytes[0];
    let session = LittleEndian::read_u16(&bytes[1..]);
    if let Some(fault) = flags_fault(flags, bytes[3], session) {
        return Some(fault);
    }
    if bytes.len() < header_length(is_set(flags, SOURCE), flags % 4 == NODE_ID) {
        return Some(FrameFault::Short);
    }
    None
}

// How many bytes a header takes, by its optional fields.
fn header_length(source_there: bool, destination_there: bool) -> usize
    ensures { result ≡ 8 + width_of_field source_there 8 + width_of_field destination_there 8 }
{
    FIXED + width_where(source_there, 8) + width_where(destination_there, 8)
}

// The first fault of the Message Flags, the Security Flags and the Session ID.
#[tactic(auto, unfolding(crate::specs::Reading::flags_fault))]
fn flags_fault(flags: u8, security: u8, session: u16) -> Option<FrameFault>
    ensures { result ≡ fault_of_flags flags security session }
{
    if flags >> 4 > 0 {
        return Some(FrameFault::Version);
    }
    if has_reserved(flags, security) {
        return Some(FrameFault::Reserved);
    }
    if is_group(flags, security) {
        return Some(FrameFault::Group);
    }
    if is_set(security, PRIVACY) {
        return Some(FrameFault::Private);
    }
    if is_set(security, CONTROL) {
        return Some(FrameFault::Control);
    }
    if is_set(security, EXTENSIONS) {
        return Some(FrameFault::Extended);
    }
    if session == 0 {
        return Some(FrameFault::Unsecured);
    }
    None
}

// Whether a reserved bit is set, or DSIZ or the session type has a reserved value.
fn has_reserved(flags: u8, security: u8) -> bool
    ensures { result ≡ has_reserved_bit flags security }
{
    is_set(flags, 3)
        || is_set(security, 2)
        || is_set(security, 3)
        || is_set(security, 4)
        || flags % 4 == 3
        || is_set(security, 1)
}

// Whether the session or the destination is a group's.
fn is_group(flags: u8, security: u8) -> bool
    ensures { result ≡ is_group_message flags security }
{
    security % 4 == 1 || flags % 4 == 2
}
