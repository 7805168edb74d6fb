//! The bench session: a new server over a small bay is started, a cartridge is entered, and it is mounted.
//! Each response is printed in hexadecimal, one a line.

#![tactic(auto)]

use anyhow::anyhow;
use bay::bay::Bay;
use labels::Label;
use library::slots::{BLANK_MESSAGE, BLANK_REQUEST, MESSAGE_SLOTS, REQUEST_SLOTS};
use robots::kind::Kind;
use robots::place::Place;
use robots::robot::Robot;
use server::serving::Serving;
use std::io;

/// A library of six places needs fewer steps for any request.
const MOST_STEPS: u32 = 100;

fn print_hex(rt: HostRuntime, bytes: &[u8]) -> io::Result<()> {
    for byte in bytes {
        print!(rt; "{byte:02X}")?;
    }
    println!(rt; "")
}

/// Makes one step, and prints the final if it writes one.
fn step(rt: HostRuntime, library: &mut Serving<Bay>) -> anyhow::Result<bool> {
    let mut buffer = [0; 2048];
    let length = library.step(&mut buffer)?;
    if length == 0 {
        return Ok(false);
    }
    print_hex(rt, &buffer[0..length])?;
    Ok(true)
}

/// Sends a packet, and makes steps until its final.
fn ask(rt: HostRuntime, library: &mut Serving<Bay>, packet: &[u8]) -> anyhow::Result<()> {
    let mut buffer = [0; 2048];
    let length = library.receive(packet, &mut buffer)?;
    print_hex(rt, &buffer[0..length])?;
    for _ in 0..MOST_STEPS {
        if step(rt, library)? {
            return Ok(());
        }
    }
    Err(anyhow!("no final came"))
}

fn session(rt: HostRuntime) -> anyhow::Result<()> {
    let port = Place::empty(Kind::Port);
    let drive = Place::empty(Kind::Drive);
    let cell = Place::empty(Kind::Cell);
    let bay = Bay::new(rt.alloc(), &[port, port, drive, cell, cell, cell], 0)?;
    let mut requests = [BLANK_REQUEST; REQUEST_SLOTS];
    let mut messages = [BLANK_MESSAGE; MESSAGE_SLOTS];
    let mut library = Serving::new(rt.alloc(), bay, &mut requests, &mut messages)?;
    let label = Label::new(*b"ABC123")?;
    library.put(0, label.number())?;
    ask(rt, &mut library, &[0x03, 0x00, 0x01, 0x09])?;
    ask(rt, &mut library, &[0x03, 0x00, 0x02, 0x05])?;
    ask(
        rt,
        &mut library,
        &[
            0x1B, 0x00, 0x03, 0x07, b'A', b'B', b'C', b'1', b'2', b'3', 0x02,
        ],
    )
}

fn main(rt: HostRuntime) -> anyhow::Result<()> {
    session(rt)
}
