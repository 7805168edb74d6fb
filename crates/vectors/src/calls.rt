use crate::script::ensure;
use bay::bay::Bay;
use library::message::Message;
use library::slots::{BLANK_MESSAGE, BLANK_REQUEST};
use requests::Request;
use robots::kind::Kind;
use robots::place::Place;
use robots::robot::Robot;
use server::refusal::CallRefusal;
use server::serving::Serving;
use std::test::*;

/// A port place, a drive and a cell.
fn small_bay(rt: HostRuntime) -> Result<Bay, Fail> {
    let places = [
        Place::empty(Kind::Port),
        Place::empty(Kind::Drive),
        Place::empty(Kind::Cell),
    ];
    Ok(Bay::new(rt.alloc(), &places, 0)?)
}

/// Checks that a new server answers the packet by these bytes, and leaves the next byte as it was.
fn answered(rt: HostRuntime, packet: &[u8], expected: &[u8]) -> Result<(), Fail> {
    let mut requests = [BLANK_REQUEST; 4];
    let mut messages = [BLANK_MESSAGE; 4];
    let mut library = Serving::new(rt.alloc(), small_bay(rt)?, &mut requests, &mut messages)?;
    let mut buffer = [7; 2048];
    let length = library.receive(packet, &mut buffer)?;
    ensure(&buffer[0..length] == expected)?;
    ensure(length < 2048 && buffer[length] == 7)
}

#[test]
fn packets_answered_at_once(rt: HostRuntime) -> Result<(), Fail> {
    answered(rt, &[], &[0x1C, 0x03, 0x01, 0x01])?;
    answered(rt, &[0x02, 0x05], &[0x3E, 0x05, 0x03, 0x04, 0x01, 0x00])?;
    answered(
        rt,
        &[0x23, 0x00, 0x05, 0x02, 0x00, 0x01],
        &[0x1F, 0x00, 0x05, 0x02, 0x03, 0x0C, 0x02],
    )?;
    answered(
        rt,
        &[0x03, 0x00, 0x05, 0x08],
        &[0x2F, 0x00, 0x05, 0x08, 0x03, 0x00, 0x03],
    )?;
    answered(
        rt,
        &[0x0B, 0x00, 0x05, 0x08, b'A', b'B', b'C', b'1', b'2', b'3'],
        &[0x3F, 0x00, 0x05, 0x08, 0x03, 0x07, 0x02, 0x03],
    )?;
    answered(
        rt,
        &[0x03, 0x00, 0x05, 0x05],
        &[0x3F, 0x00, 0x05, 0x05, 0x03, 0x07, 0x02, 0x03],
    )
}

#[test]
fn buffer_lengths(rt: HostRuntime) -> Result<(), Fail> {
    let mut requests = [BLANK_REQUEST; 4];
    let mut messages = [BLANK_MESSAGE; 4];
    let mut library = Serving::new(rt.alloc(), small_bay(rt)?, &mut requests, &mut messages)?;
    let mut short = [7; 2047];
    let Err(why) = library.receive(&[], &mut short) else {
        return Err(Fail::new("2,047 bytes are refused"));
    };
    assert!(rt; u8::from(why) == 1);
    assert!(rt; short[0] == 7);
    let mut enough = [7; 2048];
    let length = library.receive(&[], &mut enough)?;
    assert!(rt; length == 4);
    Ok(())
}

#[test]
fn same_number_again(rt: HostRuntime) -> Result<(), Fail> {
    let mut requests = [BLANK_REQUEST; 4];
    let mut messages = [BLANK_MESSAGE; 4];
    let mut library = Serving::new(rt.alloc(), small_bay(rt)?, &mut requests, &mut messages)?;
    let mut buffer = [7; 2048];
    let length = library.receive(&[0x03, 0x00, 0x01, 0x09], &mut buffer)?;
    assert!(rt; length == 6);
    let Err(why) = library.receive(&[0x03, 0x00, 0x01, 0x08], &mut buffer) else {
        return Err(Fail::new("request 1 waits"));
    };
    assert!(rt; u8::from(why) == 2);
    Ok(())
}

#[test]
fn puts_refused_in_order(rt: HostRuntime) -> Result<(), Fail> {
    let mut requests = [BLANK_REQUEST; 4];
    let mut messages = [BLANK_MESSAGE; 4];
    let mut library = Serving::new(rt.alloc(), small_bay(rt)?, &mut requests, &mut messages)?;
    assert!(rt; library.put(3, 0) == Err(CallRefusal::NoPlace));
    assert!(rt; library.put(1, 0) == Err(CallRefusal::NotPort));
    assert!(rt; library.put(0, 0) == Err(CallRefusal::NoNumber));
    assert!(rt; library.put(0, 2_176_782_338) == Err(CallRefusal::NoNumber));
    assert!(rt; library.put(0, 2_176_782_337) == Ok(()));
    assert!(rt; library.put(0, 1) == Err(CallRefusal::PlaceFull));
    Ok(())
}
