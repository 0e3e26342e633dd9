//! How long `mt_ccm` takes to seal and open messages of 1,200 and of 64 bytes, their tags among them, and how
//! many datagrams of 1,200 bytes that is in a second. What is found goes to standard error.

ghost use Rattle.std.specs.Prelude.{◌≤◌, ◌<◌, ◌^◌, length};

use crate::rates::{rate, since};
use cases_page::Page;
use mt_ccm::{seal, unseal};
use std::io;
use std::time::Instant;

const KEY: [u8; 16] = [0x51; 16];

const NONCE: [u8; 13] = [0, 0xe8, 3, 0, 0, 1, 0, 0, 0, 0, 0, 0, 0];

const HEADER: [u8; 8] = [0, 1, 0, 0, 0xe8, 3, 0, 0];

/// Seals so many datagrams and opens them, and then each in turn, and so many small messages.
pub(crate) fn measure(rt: &HostRuntime, page: &mut Page, turns: u32) -> io::Result<()> {
    let mut sealed = [0x5a; 1200];
    let sealing = sealing(rt, &mut sealed, turns)?;
    let (opening, opened) = opening(rt, &sealed, turns)?;
    page.add_number(u64::from(turns));
    page.add(" datagrams: sealed ");
    page.add_number(sealing);
    page.add(" a second, opened ");
    page.add_number(opening);
    page.line(" a second");
    page.add_number(opened);
    page.line(" were opened");
    measure_in_turn(rt, page, turns)
}

// How many are sealed in a second.
fn sealing(rt: &HostRuntime, datagram: &mut [u8; 1200], turns: u32) -> io::Result<u64> {
    let start = Instant::now(rt)?;
    for _ in 0..turns {
        seal(&KEY, &NONCE, &HEADER, datagram);
    }
    rate(rt, start, u64::from(turns))
}

// How many are opened in a second, and how many were.
fn opening(rt: &HostRuntime, sealed: &[u8; 1200], turns: u32) -> io::Result<(u64, u64)> {
    let mut opened = 0_u64;
    let start = Instant::now(rt)?;
    for _ in 0..turns {
        let mut message = *sealed;
        if unseal(&KEY, &NONCE, &HEADER, &mut message).is_some() {
            opened = opened.saturating_add(1);
        }
    }
    Ok((rate(rt, start, u64::from(turns))?, opened))
}

// Seals and opens each message in turn, as speed/ccm_scalar.c does.
fn measure_in_turn(rt: &HostRuntime, page: &mut Page, turns: u32) -> io::Result<()> {
    let whole = in_turn(rt, &mut [0x5a; 1200], turns)?;
    let short = in_turn(rt, &mut [0x5a; 64], turns)?;
    page.add("1200 bytes: ");
    page.add_number(whole);
    page.add(" ns, 64 bytes: ");
    page.add_number(short);
    page.line(" ns");
    Ok(())
}

// How many nanoseconds it takes to seal and open a message.
fn in_turn(rt: &HostRuntime, message: &mut [u8], turns: u32) -> io::Result<u64>
    requires room { 16 ≤ length message.old }
    requires length { length message.old < 2 ^ 16 }
{
    let start = Instant::now(rt)?;
    for _ in 0..turns {
        seal(&KEY, &NONCE, &HEADER, message);
        unseal(&KEY, &NONCE, &HEADER, message);
    }
    Ok(since(rt, start)? / u64::from(turns).max(1))
}
