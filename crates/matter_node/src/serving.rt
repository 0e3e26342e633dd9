//! The node on the network: one UDP socket, from which all datagrams come and over which all go.

use crate::hints::{Known, tell_hint, text_of};
use crate::watching::{Board, TakenCount, UsageLine};
use crate::{disk_named, named, place_in_use};
use mt_os::{ReaderSource, UdpIntake, UdpOutlet, WriterSink};
use mt_outside::NoGate;
use mt_top::{Files, Serve, files_of, serve_of, serve_watched};
use std::alloc::AllocError;
use std::io;
use std::net::UdpSocket;
use std::sync::Wait;
use std::thread::Threads;

// The status where there is no memory for the outlets.
const NO_MEMORY: u8 = 7;

/// Whether the words ask for serving.
pub(crate) fn is_asked(words: &[String]) -> bool {
    match words.first() {
        Some(command) => command.as_str() == "serve",
        None => false,
    }
}

/// Serves the node on the files and at the address that the words name, with threads of `threads`. The answer is the status.
pub(crate) fn serve_on<R: Threads + Wait + Sync>(
    threads: &R,
    rt: &HostRuntime,
    words: &[String],
) -> u8 {
    let files = files_of(words).ok();
    let socket = socket_named(rt, words, files.and_then(bind_of));
    match outlets_over(rt, words, &socket) {
        Ok(outlets) => serve_over(threads, rt, words, files, socket, outlets),
        Err(_) => NO_MEMORY,
    }
}

fn bind_of(files: Files) -> Option<usize> {
    files.bind
}

// The same over a socket, with an outlet for each worker.
fn serve_over<R: Threads + Wait + Sync>(
    threads: &R,
    rt: &HostRuntime,
    words: &[String],
    files: Option<Files>,
    socket: Option<UdpSocket>,
    outlets: Vec<UdpOutlet>,
) -> u8 {
    let (config, journal) = match files {
        Some(files) => (Some(files.config), files.journal),
        None => (None, None),
    };
    let file = named(rt, words, config);
    let text = text_of(config, &file);
    let mut config = ReaderSource::new(file);
    let disk = disk_named(rt, words, journal);
    let in_use = place_in_use(&disk, journal);
    let intake = UdpIntake::new(rt, socket);
    let mut out = WriterSink::new(io::writer(rt));
    let board = Board::new();
    let served = serve_watched(
        threads,
        rt.alloc(),
        words,
        &mut config,
        disk,
        intake,
        outlets,
        &NoGate,
        TakenCount { board: &board },
        UsageLine::new(rt, &board),
        &mut out,
    );
    // Where even this can't be written, the status alone tells.
    if board.has_line() {
        let _ = eprintln!(rt);
    }
    let texts = [text];
    let known = Known {
        texts: &texts,
        last_read: None,
        in_use,
    };
    let _ = tell_hint(rt, served.status, words, &known);
    let _ = eprintln!(rt; "serving ended with status {}.", served.status);
    served.status
}

// The socket at the address that the word at this place names; None where there is none, or it can't be bound. Where it is, whoever looks
// at standard error is told where it listens.
fn socket_named(rt: &HostRuntime, words: &[String], place: Option<usize>) -> Option<UdpSocket> {
    let name = words.get(place?)?;
    match UdpSocket::bind(rt, name.as_str()) {
        Ok(socket) => {
            if let Ok(address) = socket.local_addr() {
                let _ = eprintln!(rt; "listening on {address}.");
            }
            Some(socket)
        }
        Err(_) => {
            let _ = eprintln!(rt; "{name} can't be bound.");
            None
        }
    }
}

// An outlet for each worker, over the one socket.
fn outlets_over(
    rt: &HostRuntime,
    words: &[String],
    socket: &Option<UdpSocket>,
) -> Result<Vec<UdpOutlet>, AllocError> {
    let mut outlets = Vec::new(rt.alloc());
    let Ok(Serve { workers, .. }) = serve_of(words) else {
        return Ok(outlets);
    };
    for _ in 0..workers {
        outlets.push(UdpOutlet::new(cloned(socket)))?;
    }
    Ok(outlets)
}

fn cloned(socket: &Option<UdpSocket>) -> Option<UdpSocket> {
    match socket {
        Some(socket) => socket.try_clone().ok(),
        None => None,
    }
}
