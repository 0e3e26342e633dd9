//! Lines of words.

use crate::fault::{Misfit, Wanted};
use crate::numbers::{
    hex_behind_mark, hex_digit, hex_number, want_number, want_octets, want_short,
};
use crate::requests::want_request;
use crate::saying::{Said, Speaker};
use crate::words::Words;
use mt_files::cut;
use mt_model::Event;
use mt_model::limits::{LAST_CALLS, LAST_FABRIC, LAST_OPERATIONAL_NODE, LAST_TIME};
use mt_outside::{Fate, Peer};
use mt_tlv::Bytes;
use std::alloc::Global;

// What a line does at its time.
const DEEDS: &[&str] = &["fabric", "pase", "tick", "report", "resend", "datagram"];

// The plain PASE session.
const PASE: Speaker = Speaker {
    fabric: 0,
    node: 0,
    cats: [0; 3],
};

const NODE: Wanted = Wanted::Kind(
    "a node: a number from 1, or 16 digits of hex, up to ffffffefffffffff, and up to three CATs, each + and 8 digits of hex whose last four are not 0",
);

/// What a line says at this time or later; None where it says nothing. With it stands the byte at which a request begins.
pub(crate) fn said(
    alloc: Global,
    words: &mut Words<'_>,
    session: Option<Speaker>,
    before: u64,
) -> Result<Option<(u64, Said)>, Misfit> {
    if words.is_done() {
        return Ok(None);
    }
    let (column, said) = match session {
        Some(speaker) => want_said_on(alloc, words, speaker, before)?,
        None => want_said(alloc, words, before)?,
    };
    if words.is_done() {
        Ok(Some((column, said)))
    } else {
        Err(words.misfit(Wanted::Kind("the end of the line, or a comment behind #")))
    }
}

fn want_said(alloc: Global, words: &mut Words<'_>, before: u64) -> Result<(u64, Said), Misfit> {
    let column = words.column();
    if words.take(b"stop") {
        return Ok((column, Said::Tells(want_stop(words)?)));
    }
    words.want(b"at", &["at", "stop"])?;
    let ms = want_time(words, before)?;
    words.take(b"ms");
    if words.take(b"fabric") {
        let by = want_speaker(words)?;
        return want_asked(alloc, words, ms, by);
    }
    if words.take(b"pase") {
        return want_asked(alloc, words, ms, PASE);
    }
    Ok((column, Said::Tells(want_deed(alloc, words, ms)?)))
}

// What is said on the session of this speaker, who need not be named.
fn want_said_on(
    alloc: Global,
    words: &mut Words<'_>,
    speaker: Speaker,
    before: u64,
) -> Result<(u64, Said), Misfit> {
    words.want(b"at", &["at"])?;
    let ms = want_time(words, before)?;
    words.take(b"ms");
    let place = *words;
    let by = if words.take(b"fabric") {
        want_speaker(words)?
    } else if words.take(b"pase") {
        PASE
    } else {
        speaker
    };
    if by != speaker {
        *words = place;
        return Err(words.misfit(Wanted::Kind("a request of the session's own peer")));
    }
    want_asked(alloc, words, ms, by)
}

// A time, which is not below that of the lines before.
fn want_time(words: &mut Words<'_>, before: u64) -> Result<u64, Misfit> {
    let place = *words;
    let ms = want_number(words, 0, LAST_TIME, "a time in ms, 0 to 281474976710655")?;
    if ms < before {
        *words = place;
        return Err(words.misfit(Wanted::Kind("a time that is not below that of a line before")));
    }
    Ok(ms)
}

// Who asks: `1 node 5+00010002`, behind `fabric`.
fn want_speaker(words: &mut Words<'_>) -> Result<Speaker, Misfit> {
    let fabric = want_fabric(words)?;
    if fabric == 0 {
        return want_no_node(words);
    }
    words.want(b"node", &["node"])?;
    match subject_of(words.peek()) {
        Some(subject) => {
            words.next();
            let cats = subject.1;
            Ok(Speaker {
                fabric,
                node: subject.0,
                cats,
            })
        }
        None => Err(words.misfit(NODE)),
    }
}

// The plain PASE session, of whose node nothing but 0 may be said.
fn want_no_node(words: &mut Words<'_>) -> Result<Speaker, Misfit> {
    if words.take(b"node") {
        if hex_number(words.peek(), 16) != Some(0) {
            return Err(words.misfit(Wanted::Kind("the node 0")));
        }
        words.next();
    }
    Ok(PASE)
}

fn want_fabric(words: &mut Words<'_>) -> Result<u8, Misfit> {
    let fabric = want_number(words, 0, LAST_FABRIC, "a fabric from 0 to 254")?;
    Ok(u8::try_from(fabric).unwrap_or(0))
}

// A node and its CATs.
fn subject_of(word: &[u8]) -> Option<(u64, [u32; 3])> {
    let Some((node, first)) = cut(b'+', word) else {
        return Some((node_of(word)?, [0; 3]));
    };
    let node = node_of(node)?;
    let Some((first, second)) = cut(b'+', first) else {
        return Some((node, [cat_of(first)?, 0, 0]));
    };
    let Some((second, third)) = cut(b'+', second) else {
        return Some((node, [cat_of(first)?, cat_of(second)?, 0]));
    };
    Some((node, [cat_of(first)?, cat_of(second)?, cat_of(third)?]))
}

// 16 digits are of hex, fewer or more are decimal.
fn node_of(word: &[u8]) -> Option<u64> {
    let node = if word.len() == 16 {
        hex_number(word, 16)?
    } else {
        mt_files::number(1, LAST_OPERATIONAL_NODE, word)?
    };
    if 1 <= node && node <= LAST_OPERATIONAL_NODE {
        Some(node)
    } else {
        None
    }
}

fn cat_of(word: &[u8]) -> Option<u32> {
    if word.len() != 8 {
        return None;
    }
    let cat = u32::try_from(hex_number(word, 8)?).ok()?;
    if cat % 0x1_0000 == 0 { None } else { Some(cat) }
}

// What is asked: a request, or a payload as it is.
fn want_asked(
    alloc: Global,
    words: &mut Words<'_>,
    ms: u64,
    by: Speaker,
) -> Result<(u64, Said), Misfit> {
    let column = words.column();
    if words.take(b"message") {
        return Ok((column, Said::Tells(want_message(alloc, words, ms, by)?)));
    }
    let request = want_request(alloc, words)?;
    Ok((column, Said::Asks { ms, by, request }))
}

// `message 0b 0x1536`: an opcode in two digits of hex, and a payload, which need be no request.
fn want_message(
    alloc: Global,
    words: &mut Words<'_>,
    ms: u64,
    by: Speaker,
) -> Result<Event, Misfit> {
    let opcode = match words.peek() {
        [high, low] => match (hex_digit(*high), hex_digit(*low)) {
            (Some(high), Some(low)) => high.wrapping_mul(16) | low,
            _ => return Err(words.misfit(Wanted::Kind("an opcode in two digits of hex"))),
        },
        _ => return Err(words.misfit(Wanted::Kind("an opcode in two digits of hex"))),
    };
    words.next();
    let payload = if words.is_done() {
        Bytes::new(alloc)
    } else {
        want_octets(alloc, words)?
    };
    let cats = by.cats;
    Ok(Event::Ask {
        ms,
        fabric: by.fabric,
        node: by.node,
        cats,
        opcode,
        payload,
    })
}

// What happens that nobody asks for.
fn want_deed(alloc: Global, words: &mut Words<'_>, ms: u64) -> Result<Event, Misfit> {
    if words.take(b"tick") {
        return Ok(Event::Tick { ms });
    }
    if words.take(b"report") {
        return want_report(words, ms);
    }
    if words.take(b"resend") {
        words.want(b"session", &["session"])?;
        let session = want_number(words, 1, u16::MAX as u64, "a session from 1 to 65535")?;
        let session = u16::try_from(session).unwrap_or(1);
        return Ok(Event::Resend { ms, session });
    }
    if words.take(b"datagram") {
        return want_datagram(alloc, words, ms);
    }
    Err(words.misfit(Wanted::Words(DEEDS)))
}

// `fabric 1 subscription 1`, behind `report`.
fn want_report(words: &mut Words<'_>, ms: u64) -> Result<Event, Misfit> {
    words.want(b"fabric", &["fabric"])?;
    let fabric = want_fabric(words)?;
    words.want(b"subscription", &["subscription"])?;
    let id = want_number(
        words,
        1,
        u32::MAX as u64,
        "a subscription from 1 to 4294967295",
    )?;
    Ok(Event::Report {
        ms,
        fabric,
        subscription: u32::try_from(id).unwrap_or(1),
    })
}

// `from PEER BYTES`, behind `datagram`.
fn want_datagram(alloc: Global, words: &mut Words<'_>, ms: u64) -> Result<Event, Misfit> {
    words.want(b"from", &["from"])?;
    let Some(peer) = peer_of(words.peek()) else {
        return Err(words.misfit(Wanted::Kind(
            "a peer in 36 digits of hex: its address, then its port",
        )));
    };
    words.next();
    let bytes = want_octets(alloc, words)?;
    Ok(Event::Datagram { ms, peer, bytes })
}

fn peer_of(word: &[u8]) -> Option<Peer> {
    if word.len() != 36 {
        return None;
    }
    let mut bytes = [0u8; 18];
    match hex::decode_to_slice(word, &mut bytes) {
        Ok(()) => {}
        Err(_) => return None,
    }
    let [a, b, c, d, e, f, g, h, i, j, k, l, m, n, o, p, high, low] = bytes;
    Some(Peer {
        ip: [a, b, c, d, e, f, g, h, i, j, k, l, m, n, o, p],
        port: u16::from_be_bytes([high, low]),
    })
}

// `call 1 torn`, behind `stop`: the call of the disk, counted over the lines from there on, and what is left of it.
fn want_stop(words: &mut Words<'_>) -> Result<Event, Misfit> {
    words.want(b"call", &["call"])?;
    let calls = want_number(words, 0, LAST_CALLS, "a number from 0 to 1000000")?;
    for fate in [Fate::Kept, Fate::Lost, Fate::Torn] {
        if words.take(fate.text().as_bytes()) {
            return Ok(Event::Stop { calls, fate });
        }
    }
    Err(words.misfit(Wanted::Words(&["kept", "lost", "torn"])))
}
