//! How many requests `decode` decodes in a second, and how many bytes of payloads `chunks` encodes in a second,
//! over a mix of reads, writes and commands and of their answers.

use crate::data::{bytes_of, text_of};
use crate::rates::rate;
use cases_page::{Page, id, short, word};
use mt_im::decode;
use mt_im_out::chunks;
use mt_model::{Index, Item, Items, Path, Place, Reply};
use mt_tlv::{Value, read};
use std::alloc::{AllocError, Global};
use std::io;
use std::time::Instant;

/// How often all requests are decoded, and all replies encoded, for one speed.
const ROUNDS: u64 = 40_000;

// A request as it is sent.
#[derive(Drop)]
struct Coded {
    opcode: u8,
    payload: Vec<u8>,
}

/// Tells how many requests are decoded, and how many bytes of payloads are encoded; with the speeds, where they
/// are asked for.
pub(crate) fn measure(rt: &HostRuntime, page: &mut Page, timed: bool) -> io::Result<()> {
    let requests = requests(rt)?;
    let replies = replies(rt)?;
    tell_counts(rt.alloc(), page, &requests, &replies);
    if timed {
        time(rt, page, &requests, &replies)
    } else {
        Ok(())
    }
}

fn tell_counts(alloc: Global, page: &mut Page, requests: &[Coded], replies: &[Reply]) {
    page.add_number(decoded_of(alloc, requests));
    page.add(" requests decoded, ");
    page.add_number(encoded_of(alloc, replies));
    page.line(" bytes of payloads encoded");
}

fn time(
    rt: &HostRuntime,
    page: &mut Page,
    requests: &[Coded],
    replies: &[Reply],
) -> io::Result<()> {
    let decoding = decoding(rt, requests)?;
    let encoding = encoding(rt, replies)? / 1_000_000;
    page.add("decode ");
    page.add_number(decoding);
    page.add(" requests/s, chunks ");
    page.add_number(encoding);
    page.line(" MB/s");
    Ok(())
}

// How many requests are decoded in a second.
fn decoding(rt: &HostRuntime, requests: &[Coded]) -> io::Result<u64> {
    let start = Instant::now(rt)?;
    let mut decoded = 0_u64;
    for _ in 0..ROUNDS {
        decoded = decoded.wrapping_add(decoded_of(rt.alloc(), requests));
    }
    rate(rt, start, decoded)
}

// How many bytes of payloads are encoded in a second.
fn encoding(rt: &HostRuntime, replies: &[Reply]) -> io::Result<u64> {
    let start = Instant::now(rt)?;
    let mut encoded = 0_u64;
    for _ in 0..ROUNDS {
        encoded = encoded.wrapping_add(encoded_of(rt.alloc(), replies));
    }
    rate(rt, start, encoded)
}

// The requests of data/.
fn requests(rt: &HostRuntime) -> io::Result<Vec<Coded>> {
    let text = text_of(rt, "requests.txt")?;
    let mut requests = Vec::new(rt.alloc());
    for line in text.as_str().lines() {
        let (opcode, payload) = line.split_once(' ').unwrap_or((line, ""));
        requests.push(Coded {
            opcode: opcode.parse::<u8>().unwrap_or(0),
            payload: bytes_of(rt.alloc(), payload)?,
        })?;
    }
    Ok(requests)
}

// The replies of data/.
fn replies(rt: &HostRuntime) -> io::Result<Vec<Reply>> {
    let text = text_of(rt, "replies.txt")?;
    let mut replies = Vec::new(rt.alloc());
    for line in text.as_str().lines() {
        let fields: Vec<&str> = line.split(' ').collect(rt.alloc())?;
        add_reply(rt.alloc(), &mut replies, &fields)?;
    }
    Ok(replies)
}

// How many of the requests are decoded.
fn decoded_of(alloc: Global, requests: &[Coded]) -> u64 {
    let mut count = 0_u64;
    for request in requests {
        if is_decoded(alloc, request) {
            count = count.wrapping_add(1);
        }
    }
    count
}

fn is_decoded(alloc: Global, request: &Coded) -> bool {
    decode(alloc, request.opcode, &request.payload).is_ok()
}

// How many bytes the payloads of the replies have.
fn encoded_of(alloc: Global, replies: &[Reply]) -> u64 {
    let mut count = 0_u64;
    for reply in replies {
        if let Ok(payloads) = chunks(alloc, reply) {
            for payload in payloads.as_slice() {
                count = count.wrapping_add(payload.bytes.as_slice().len() as u64);
            }
        }
    }
    count
}

// Adds the reply that a line tells: `report`, `written` or `invoked`, how many items it has, the endpoint, the cluster
// and the number of the first item, which those behind it follow, and the value of each.
fn add_reply(alloc: Global, replies: &mut Vec<Reply>, fields: &[&str]) -> io::Result<()> {
    let reply = match word(fields, 0) {
        "invoked" => Reply::Invoked {
            command: place(fields),
            fields: value(alloc, word(fields, 5))?,
        },
        "report" => Reply::Report {
            subscription: None,
            items: items(alloc, fields, true)?,
            suppress: true,
        },
        _ => Reply::Written {
            items: items(alloc, fields, false)?,
        },
    };
    Ok(replies.push(reply)?)
}

fn place(fields: &[&str]) -> Place {
    Place {
        endpoint: short(fields, 2),
        cluster: id(fields, 3),
        leaf: id(fields, 4),
    }
}

fn value(alloc: Global, word: &str) -> io::Result<Value> {
    let bytes = bytes_of(alloc, word)?;
    match read(alloc, &bytes) {
        Ok((_, value, _)) => Ok(value),
        Err(_) => Ok(Value::Null),
    }
}

// As many items as a line says, at its place and behind it: of its value, or refused.
fn items(alloc: Global, fields: &[&str], is_there: bool) -> io::Result<Items> {
    let mut items = Items::new(alloc);
    let value = value(alloc, word(fields, 5))?;
    let added = add_items(&mut items, fields, &value, is_there);
    drop(value);
    added?;
    Ok(items)
}

fn add_items(
    items: &mut Items,
    fields: &[&str],
    value: &Value,
    is_there: bool,
) -> Result<(), AllocError> {
    for number in 0..id(fields, 1) {
        let path = path(place(fields), number);
        items.push(if is_there {
            Item::Attribute {
                path,
                version: 1_048_577,
                value: value.copy()?,
            }
        } else {
            Item::Refused { path, code: 0 }
        })?;
    }
    Ok(())
}

// The path of this many places behind one.
fn path(place: Place, number: u32) -> Path {
    Path {
        endpoint: Some(place.endpoint),
        cluster: Some(place.cluster),
        leaf: Some(place.leaf.wrapping_add(number)),
        index: Index::Whole,
    }
}
