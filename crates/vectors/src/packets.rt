use requests::{Body, read};
use statuses::Status;
use std::test::*;

const MOUNT: [u8; 12] = [
    0x1B, 0x01, 0x02, 0x07, 0x41, 0x42, 0x43, 0x31, 0x32, 0x33, 0x05, 0x00,
];

/// The number of the status that a packet is refused by, if it is.
fn status_of(packet: &[u8]) -> Option<u8> {
    read(packet)
        .err()
        .map(|bad| u8::from(Status::from(bad.cause)))
}

/// The detail that it is refused with, if there is one.
fn detail_of(packet: &[u8]) -> Option<u8> {
    read(packet).err()?.cause.detail()
}

#[test]
fn mount_258(rt: HostRuntime) -> Result<(), Fail> {
    let Ok(request) = read(&MOUNT[0..11]) else {
        return Err(Fail::new("the packet reads well"));
    };
    assert!(rt; request.number == 258);
    let Body::Mount { label, drive } = request.body else {
        return Err(Fail::new("it is a mount"));
    };
    assert!(rt; label.chars() == *b"ABC123");
    assert!(rt; drive == 5);
    Ok(())
}

#[test]
fn one_byte_less_and_one_more(rt: HostRuntime) -> Result<(), Fail> {
    assert!(rt; status_of(&MOUNT[0..10]) == Some(1));
    assert!(rt; status_of(&MOUNT) == Some(2));
    Ok(())
}

#[test]
fn refused_fields(rt: HostRuntime) -> Result<(), Fail> {
    assert!(rt; status_of(&[]) == Some(1));
    assert!(rt; status_of(&[0x00]) == Some(3));
    assert!(rt; status_of(&[0x03, 0x00, 0x01, 0x01]) == Some(3));
    assert!(rt; status_of(&[0x02, 0x05]) == Some(4));
    assert!(rt; detail_of(&[0x02, 0x05]) == Some(0));
    assert!(rt; status_of(&[0x83, 0x00, 0x01, 0x05]) == Some(4));
    assert!(rt; detail_of(&[0x83, 0x00, 0x01, 0x05]) == Some(7));
    assert!(rt; status_of(&[0x07, 0x00, 0x01, 0x06, 0x02]) == Some(4));
    assert!(rt; detail_of(&[0x07, 0x00, 0x01, 0x06, 0x02]) == Some(2));
    assert!(rt;
        status_of(&[0x0B, 0x00, 0x01, 0x04, b'A', b'b', b'C', b'1', b'2', b'3']) == Some(5)
    );
    assert!(rt;
        detail_of(&[0x0B, 0x00, 0x01, 0x04, b'A', b'b', b'C', b'1', b'2', b'3']) == Some(1)
    );
    assert!(rt; status_of(&[0x53, 0x00, 0x01, 0x0A, 0x02, 0x03]) == Some(6));
    Ok(())
}

#[test]
fn statuses_in_words(rt: HostRuntime) -> Result<(), Fail> {
    assert!(rt; u8::from(Status::LibraryBusy) == 13);
    assert!(rt; Status::LibraryBusy.words() == "the queue of requests is full");
    Ok(())
}
