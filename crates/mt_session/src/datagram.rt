//! The parts of a datagram: its nonce and its two headers.

ghost use Rattle.std.specs.Prelude.{◌≡◌, ◌≢◌, ◌+◌, ◌^◌, ◌<◌, ◌≤◌, ◌++◌, replicate, length, take, drop, IfOk, IfSome, IfNone, List, ℕ};
ghost use Rattle.mt_frame.specs.Writing.{message_bytes, protocol_bytes};
ghost use Rattle.mt_session.specs.Datagrams.{datagram as datagram_of, datagram_length as length_of_datagram, nonce as nonce_of, nonce_node as node_of_nonce, opened as opened_from, sealed, sent_header};

use mt_ccm::Cipher;
use mt_frame::{MessageHeader, ProtocolHeader, write_message, write_protocol};
use mt_model::{Auth, SessionRow};
use mt_tlv::Bytes;
use std::alloc::{AllocError, Global};

/// The bytes of a message header with no node ids.
pub const HEAD: usize = 8;

/// The bytes of the tag behind what is sealed.
pub const TAG: usize = 16;

/// The most bytes of a protocol header.
const PROTOCOL_HEAD: usize = 12;

/// The node id that a nonce names, of a sender with this node id.
pub fn nonce_node(auth: Auth, node: u64) -> u64
    ensures { result ≡ node_of_nonce auth node }
{
    match auth {
        Auth::Case => node,
        Auth::Pase => 0,
        Auth::Group => 0,
    }
}

/// The nonce of the message with this counter.
pub fn nonce(counter: u32, node: u64) -> [u8; 13]
    ensures { result ≡ nonce_of counter node }
{
    let [a, b, c, d] = counter.to_le_bytes();
    let [e, f, g, h, i, j, k, l] = node.to_le_bytes();
    [0, a, b, c, d, e, f, g, h, i, j, k, l]
}

/// The message header of a sent message.
pub fn message_head(row: &SessionRow, counter: u32) -> [u8; 8]
    requires { row.now.peer_session ≢ 0 }
    ensures { result ≡ message_bytes (sent_header row.now counter) }
{
    let header = MessageHeader {
        session: row.peer_session,
        counter,
        source: None,
        destination: None,
    };
    let mut head = [0; HEAD];
    match write_message(&header, &mut head) {
        Ok(_) => head,
        Err(_) => unreachable!(),
    }
}

/// The protocol header of a message, at the front of an array, and its length.
pub fn protocol_head(header: &ProtocolHeader) -> ([u8; 12], usize)
    ensures bytes { take result.1 result.0 ≡ protocol_bytes header.now }
    ensures length { result.1 ≡ length (protocol_bytes header.now) }
    ensures short { result.1 ≤ 12 }
{
    let mut head = [0; PROTOCOL_HEAD];
    match write_protocol(header, &mut head) {
        Ok(len) => (head, len),
        Err(_) => unreachable!(),
    }
}

/// How many bytes the datagram of a message has.
pub fn datagram_length(header: &ProtocolHeader, payload: &[u8]) -> usize
    ensures { result ≡ length_of_datagram header.now payload.now }
{
    let (_, len) = protocol_head(header);
    HEAD + len + payload.len() + TAG
}

/// The datagram of a message under this counter, by the cipher of the row's key.
pub fn datagram(
    alloc: Global,
    row: &SessionRow,
    cipher: &Cipher,
    counter: u32,
    header: &ProtocolHeader,
    payload: &[u8],
) -> Result<Bytes, AllocError>
    requires session { row.now.peer_session ≢ 0 }
    requires key { cipher.now ≡ row.now.key_out }
    requires short { length_of_datagram header.now payload.now ≤ 1232 }
    ensures { IfOk result (λ bytes. bytes ≡ datagram_of row.now counter header.now payload.now) }
{
    let head = message_head(row, counter);
    let mut bytes = plain_datagram(alloc, &head, header, payload)?;
    let nonce = nonce(counter, nonce_node(row.auth, row.own_node));
    seal_behind(cipher, &nonce, &head, &mut bytes);
    Ok(Bytes::from_vec(bytes))
}

// Seals what stands behind the message header, all but the last 16 bytes, in place.
fn seal_behind(cipher: &Cipher, nonce: &[u8; 13], head: &[u8; 8], bytes: &mut [u8])
    requires room { 24 ≤ length bytes.old }
    requires short { length bytes.old < 2 ^ 16 }
    ensures { (plain : List ℕ) → bytes.old ≡ (head.now ++ plain) ++ replicate 16 0
        → bytes.new ≡ head.now ++ sealed cipher.now nonce.now head.now plain }
{
    cipher.seal(nonce, head, &mut bytes[HEAD..]);
}

// The datagram before it is sealed, with room for the tag.
fn plain_datagram(
    alloc: Global,
    head: &[u8; 8],
    header: &ProtocolHeader,
    payload: &[u8],
) -> Result<Vec<u8>, AllocError>
    requires { length_of_datagram header.now payload.now ≤ 1232 }
    ensures { IfOk result (λ bytes. bytes.items ≡
        ((head.now ++ protocol_bytes header.now) ++ payload.now) ++ replicate 16 0) }
{
    let (protocol, len) = protocol_head(header);
    let mut bytes = Vec::with_capacity(alloc, HEAD + len + payload.len() + TAG)?;
    bytes.extend_from_slice(head)?;
    bytes.extend_from_slice(&protocol[..len])?;
    bytes.extend_from_slice(payload)?;
    bytes.extend_from_slice(&[0; TAG])?;
    Ok(bytes)
}

/// Opens what is sealed, in place: how long the plaintext is that then stands at the front.
pub fn open(cipher: &Cipher, nonce: &[u8; 13], aad: &[u8], bytes: &mut [u8]) -> Option<usize>
    requires aad { length aad.now < 65280 }
    requires length { length bytes.old < 2 ^ 16 }
    ensures plain { IfSome result (λ n. opened_from cipher.now nonce.now aad.now bytes.old ≡ Some (take n bytes.new)) }
    ensures within { IfSome result (λ n. n ≤ length bytes.new) }
    ensures none { IfNone result (opened_from cipher.now nonce.now aad.now bytes.old ≡ None) }
{
    cipher.unseal(nonce, aad, bytes)
}
