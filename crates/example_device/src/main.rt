//! A device in small: a node on its journal that hears one datagram, and prints what it answers.
//!
//! What a maker brings is here too: where the journal lies, who judges certificates, and where datagrams come from and go
//! to. All else is the node's.
//!
//! - `device`: the node beside its journal: how it starts, and what it makes of one event;
//! - `judge`: a judge of certificates that knows none that is good.
#![tactic(auto)]

mod device;
mod judge;

use device::Device;
use judge::NoneIsGood;
use mt_config::config;
use mt_model::Event;
use mt_outside::{MemDisk, Peer};
use mt_tlv::Bytes;
use std::{env, fs};

// A read of On/Off over session 1 of the configuration. docs/datagram.md makes it step by step.
const REQUEST: &str =
    "00010000e803000097aa58f2bd7aeec5be87a6012cf35016862e3ebcd0ee740d42082d83c3d69f0b36e3e995eb6dd337a3502f";

// Its one word names the configuration.
fn main(rt: HostRuntime) -> anyhow::Result<()> {
    for word in env::args(&rt)?.skip(1) {
        answer(&rt, word.as_str())?;
    }
    Ok(())
}

// Starts the device of a configuration, lets it hear the request, and prints each datagram that it sends.
fn answer(rt: &HostRuntime, name: &str) -> anyhow::Result<()> {
    let alloc = rt.alloc();
    let config = config(alloc, &fs::read(rt, name)?)?;
    // On a device: FileDisk::open(rt, "node.journal") of mt_os, or a disk of one's own.
    let disk = MemDisk::new(alloc, &[], &[])?;
    let mut device = Device::start(alloc, disk, &config)?;
    let event = Event::Datagram {
        ms: 5,
        peer: local_peer(),
        bytes: Bytes::from_vec(hex::decode(alloc, REQUEST)?),
    };
    for sent in device.hear(&event, &NoneIsGood)?.as_slice() {
        println!(rt; "{}", hex::encode(alloc, sent.bytes.as_slice())?)?;
    }
    Ok(())
}

// 127.0.0.1, port 5540, as its mapped IPv6 address.
fn local_peer() -> Peer {
    Peer {
        ip: [0, 0, 0, 0, 0, 0, 0, 0, 0, 0, 0xff, 0xff, 127, 0, 0, 1],
        port: 5540,
    }
}
