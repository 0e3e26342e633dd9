//! The protocol header, read and written (Matter Core Specification, section 4.4, Message Frame Format).

ghost use Rattle.std.specs.Prelude.{◌≡◌, ◌+◌, ◌^◌, ◌≤◌, ◌<◌, ℕ, List, ◌∷◌, ◌++◌, length, take, drop, slice_index, Ok, IfOk, IfErr, IfNone, IfSome};
ghost use Rattle.byteorder.specs.Endian.{little_bytes};
ghost use Rattle.mt_frame.specs.declared.fault.FrameFault.TheVariants.{NoRoom};
ghost use Rattle.mt_frame.specs.declared.header.ProtocolHeader.{ProtocolHeader};
ghost use Rattle.mt_frame.specs.Spelling.{ProtocolSpells, exchange_flags};
ghost use Rattle.mt_frame.specs.Writing.{IsProtocol, IsPut, optional_bytes, protocol_bytes};
ghost use Rattle.mt_frame.specs.Reading.{exchange_fault, protocol_at, protocol_fault, protocol_length, width_where as width_of_field};

use crate::fault::FrameFault;
use crate::field::{flag, is_set, put, u16_where, u32_where, width_where};
use crate::header::ProtocolHeader;
use byteorder::{ByteOrder, LittleEndian};

/// The fixed fields: Exchange Flags, Protocol Opcode, Exchange ID and Protocol ID.
const FIXED: usize = 6;
/// I in the Exchange Flags: the sender began the exchange.
const INITIATOR: u8 = 0;
/// A in the Exchange Flags: a counter is acknowledged.
const ACKNOWLEDGEMENT: u8 = 1;
/// R in the Exchange Flags: an acknowledgement is asked for.
const RELIABILITY: u8 = 2;
/// SX in the Exchange Flags: secured extensions.
const EXTENSIONS: u8 = 3;
/// V in the Exchange Flags: there is a vendor.
const VENDOR: u8 = 4;

/// Reads the protocol header at the front, whatever follows it: the header and how many bytes it
/// takes. What is wrong first, in the order of the format, is the fault.
pub fn read_protocol(bytes: &[u8]) -> Result<(ProtocolHeader, usize), FrameFault>
    // What is read is a header that stands in front.
    ensures found { IfOk result (λ x. (x.1 ≤ length bytes.now) × ProtocolSpells x.0 (take x.1 bytes.now)) }
    // A header that stands in front is read.
    ensures only { (header : ProtocolHeader) (len : ℕ) → len ≤ length bytes.now → ProtocolSpells header (take len bytes.now)
        → result ≡ Ok (header, len) }
    // Which header it is and how long, and which fault.
    ensures exact { result ≡ protocol_at bytes.now }
{
    front_header(bytes)
}

// The header at the front and its length.
fn front_header(bytes: &[u8]) -> Result<(ProtocolHeader, usize), FrameFault>
    ensures { result ≡ protocol_at bytes.now }
{
    if let Some(fault) = first_fault(bytes) {
        return Err(fault);
    }
    let flags = bytes[0];
    let vendor_there = is_set(flags, VENDOR);
    let acknowledged_there = is_set(flags, ACKNOWLEDGEMENT);
    let optional = &bytes[FIXED..];
    let vendor_width = width_where(vendor_there, 2);
    let header = ProtocolHeader {
        initiator: is_set(flags, INITIATOR),
        reliable: is_set(flags, RELIABILITY),
        opcode: bytes[1],
        exchange: LittleEndian::read_u16(&bytes[2..]),
        protocol: LittleEndian::read_u16(&bytes[4..]),
        vendor: u16_where(vendor_there, optional),
        acknowledged: u32_where(acknowledged_there, &optional[vendor_width..]),
    };
    Ok((header, header_length(vendor_there, acknowledged_there)))
}

/// Writes a protocol header to the front of `out`, and answers how many bytes it takes. The rest of
/// `out` stays, and all of it where there is no room.
pub fn write_protocol(header: &ProtocolHeader, out: &mut [u8]) -> Result<usize, FrameFault>
    // What is written is the spelling of the header.
    ensures written { IfOk result (λ n. (n ≤ length out.new) × ProtocolSpells header.now (take n out.new)) }
    // What stands behind it is as before.
    ensures rest { IfOk result (λ n. drop n out.new ≡ drop n out.old) }
    // The only fault is that no spelling fits, and then nothing is written.
    ensures no_room { IfErr result (λ fault. (fault ≡ NoRoom) × (out.new ≡ out.old)
        × ((bytes : List ℕ) → ProtocolSpells header.now bytes → length out.old < length bytes)) }
    // Which bytes these are.
    ensures exact { IsPut (protocol_bytes header.now) result out.old out.new }
{
    put_header(*header, out)
}

// Puts the header to the front, where there is room.
fn put_header(header: ProtocolHeader, out: &mut [u8]) -> Result<usize, FrameFault>
    ensures put { IsPut (protocol_bytes header) result out.old out.new }
    ensures in_range { IfOk result (λ _. IsProtocol header) }
{
    let length = header_length(header.vendor.is_some(), header.acknowledged.is_some());
    if out.len() < length {
        return Err(FrameFault::NoRoom);
    }
    let at = put(out, 0, &fixed_fields(&header));
    let at = put_vendor(out, at, header.vendor);
    let at = put_counter(out, at, header.acknowledged);
    Ok(at)
}

// The fixed fields.
fn fixed_fields(header: &ProtocolHeader) -> [u8; 6]
    ensures value { result ≡ exchange_flags header.now ∷ (header.now.opcode ∷ (little_bytes 2 header.now.exchange ++ little_bytes 2 header.now.protocol)) }
    ensures in_range { (header.now.opcode < 2 ^ 8) × (header.now.exchange < 2 ^ 16) × (header.now.protocol < 2 ^ 16) }
{
    let flags = flag(INITIATOR, header.initiator)
        + flag(ACKNOWLEDGEMENT, header.acknowledged.is_some())
        + flag(RELIABILITY, header.reliable)
        + flag(VENDOR, header.vendor.is_some());
    let [e0, e1] = header.exchange.to_le_bytes();
    let [p0, p1] = header.protocol.to_le_bytes();
    [flags, header.opcode, e0, e1, p0, p1]
}

// Puts a vendor behind what stands in front of the place `at`, where it is said.
fn put_vendor(out: &mut [u8], at: usize, vendor: Option<u16>) -> usize
    requires { at + length (optional_bytes 2 vendor) ≤ length out.old }
    ensures place { result ≡ at + length (optional_bytes 2 vendor) }
    ensures size { length out.new ≡ length out.old }
    ensures front { (front before : List ℕ) → length front ≡ at → out.old ≡ front ++ drop at before
        → out.new ≡ (front ++ optional_bytes 2 vendor) ++ drop result before }
    ensures in_range { IfSome vendor (λ n. n < 2 ^ 16) }
{
    let Some(id) = vendor else {
        return at;
    };
    put(out, at, &id.to_le_bytes())
}

// Puts an acknowledged counter behind what stands in front of the place `at`, where there is one.
fn put_counter(out: &mut [u8], at: usize, acknowledged: Option<u32>) -> usize
    requires { at + length (optional_bytes 4 acknowledged) ≤ length out.old }
    ensures place { result ≡ at + length (optional_bytes 4 acknowledged) }
    ensures size { length out.new ≡ length out.old }
    ensures front { (front before : List ℕ) → length front ≡ at → out.old ≡ front ++ drop at before
        → out.new ≡ (front ++ optional_bytes 4 acknowledged) ++ drop result before }
    ensures in_range { IfSome acknowledged (λ n. n < 2 ^ 32) }
{
    let Some(counter) = acknowledged else {
        return at;
    };
    put(out, at, &counter.to_le_bytes())
}

// The first fault in the order of the format.
fn first_fault(bytes: &[u8]) -> Option<FrameFault>
    ensures fault { result ≡ protocol_fault bytes.now }
    ensures whole { IfNone result (protocol_length (slice_index bytes.now 0) ≤ length bytes.now) }
{
    if bytes.len() < FIXED {
        return Some(FrameFault::Short);
    }
    let flags = bytes[0];
    if let Some(fault) = flags_fault(flags) {
        return Some(fault);
    }
    if bytes.len() < header_length(is_set(flags, VENDOR), is_set(flags, ACKNOWLEDGEMENT)) {
        return Some(FrameFault::Short);
    }
    None
}

// How many bytes a header takes, by its optional fields.
fn header_length(vendor_there: bool, acknowledged_there: bool) -> usize
    ensures { result ≡ 6 + width_of_field vendor_there 2 + width_of_field acknowledged_there 4 }
{
    FIXED + width_where(vendor_there, 2) + width_where(acknowledged_there, 4)
}

// The first fault of the Exchange Flags.
#[tactic(auto, unfolding(crate::specs::Reading::exchange_fault))]
fn flags_fault(flags: u8) -> Option<FrameFault>
    ensures { result ≡ exchange_fault flags }
{
    if flags >> 5 > 0 {
        return Some(FrameFault::Reserved);
    }
    if is_set(flags, EXTENSIONS) {
        return Some(FrameFault::Extended);
    }
    None
}
