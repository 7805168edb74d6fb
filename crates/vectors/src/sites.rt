//! Sites at a bound: the make-up, the hand, 256 places, 21 entries; and an enter cancelled half way.

use crate::script::{Call, V0, over};
use bay::bay::Bay;
use labels::UNREADABLE_NUMBER;
use robots::kind::Kind;
use robots::place::Place;
use server::refusal::CallRefusal;
use std::test::*;
use tag_frame::frame::TagFrame;

const PORT: Place = Place {
    kind: Kind::Port,
    cartridge: 0,
    in_service: true,
};

const DRIVE: Place = Place {
    kind: Kind::Drive,
    cartridge: 0,
    in_service: true,
};

const CELL: Place = Place {
    kind: Kind::Cell,
    cartridge: 0,
    in_service: true,
};

/// Start 1 has ended: cells and drives are empty.
const NOTHING_FOUND: Call = Call::Step(
    b"\x8F\x00\x01\x09\x03\x00\0\0\0\0\0\0\0\0\0\0\0\0\0\0\0\0\0\0\0\0\0\0\0\0\0\0\0\0\0\0\0\0",
);

/// A start that ends with BadMakeUp leaves the state Idle.
const UNFIT: [Call; 3] = [
    Call::Receive(b"\x03\x00\x01\x09", b"\x0F\x00\x01\x09\x01\x00"),
    Call::Step(b"\x1F\x00\x01\x09\x03\x0F\x02"),
    Call::Receive(b"\x03\x00\x02\x08", b"\x2F\x00\x02\x08\x03\x00\x03"),
];

/// 22 steps, and then Run.
const PORTS_ALONE: [Call; 4] = [
    Call::Receive(b"\x03\x00\x01\x09", b"\x0F\x00\x01\x09\x01\x00"),
    Call::Quiet(21),
    NOTHING_FOUND,
    Call::Receive(b"\x03\x00\x02\x08", b"\x2F\x00\x02\x08\x03\x00\x01"),
];

#[test]
fn make_ups(rt: HostRuntime) -> Result<(), Fail> {
    over(rt, TagFrame::new(rt.alloc(), &[], 0)?, &UNFIT)?;
    over(rt, TagFrame::new(rt.alloc(), &[PORT; 22], 0)?, &UNFIT)?;
    over(rt, TagFrame::new(rt.alloc(), &[PORT; 21], 0)?, &PORTS_ALONE)
}

/// A drive and a cell out of service.
const SHUT_CELL: [Place; 2] = [
    DRIVE,
    Place {
        kind: Kind::Cell,
        cartridge: 0,
        in_service: false,
    },
];

/// No cell is free for what the hand holds: NoFreeCell, and the state is Idle. Once the cell is in
/// service, a start sets the cartridge into it.
const HAND: [Call; 7] = [
    Call::Receive(b"\x03\x00\x01\x09", b"\x0F\x00\x01\x09\x01\x00"),
    Call::Step(b"\x1F\x00\x01\x09\x03\x10\x02"),
    Call::Receive(b"\x03\x00\x02\x08", b"\x2F\x00\x02\x08\x03\x00\x03"),
    Call::Service(1, true),
    Call::Receive(b"\x03\x00\x03\x09", b"\x0F\x00\x03\x09\x01\x00"),
    Call::Quiet(2),
    Call::Step(
        b"\x8F\x00\x03\x09\x03\x00\x02\0\0\0\0\0\0\0\0\0\0\0\0\0\0\0\0\0\0\0\0\0\0\0\0\0\0\0\0\0\0\0V00001",
    ),
];

#[test]
fn hand_without_a_cell(rt: HostRuntime) -> Result<(), Fail> {
    over(rt, Bay::new(rt.alloc(), &SHUT_CELL, V0 + 1)?, &HAND)
}

/// The cartridge at 0 is entered and the one at 1 cannot be read; then the enter is cancelled, and the
/// one at 2 stays. Hands wait for the final.
const CANCELLED: [Call; 13] = [
    Call::Put(0, V0 + 1),
    Call::Put(1, UNREADABLE_NUMBER),
    Call::Put(2, V0 + 2),
    Call::Receive(b"\x03\x00\x01\x09", b"\x0F\x00\x01\x09\x01\x00"),
    Call::Quiet(6),
    NOTHING_FOUND,
    Call::Receive(b"\x03\x00\x02\x05", b"\x0F\x00\x02\x05\x01\x00"),
    Call::Quiet(3),
    Call::Receive(b"\x23\x00\x03\x02\x00\x02", b"\x0F\x00\x03\x02\x03\x00"),
    Call::Barred(2, CallRefusal::EnterAtWork),
    Call::Step(b"\x5F\x00\x02\x05\x03\x0E\x02\x02V00001\x00\x04\x00??????\x01\x01\x18"),
    Call::Take(1, UNREADABLE_NUMBER),
    Call::Take(2, V0 + 2),
];

#[test]
fn cancelled_half_way(rt: HostRuntime) -> Result<(), Fail> {
    over(
        rt,
        TagFrame::new(rt.alloc(), &[PORT, PORT, PORT, DRIVE, CELL, CELL], 0)?,
        &CANCELLED,
    )
}

/// 21 port places, 4 drives and 231 cells. Drive 21 holds a cartridge that cannot be read, cell 25
/// `000000` and cell 255 `ZZZZZZ`.
fn large_site() -> [Place; 256] {
    let mut places = [CELL; 256];
    places[0..21].fill(PORT);
    places[21..25].fill(DRIVE);
    places[21].cartridge = UNREADABLE_NUMBER;
    places[25].cartridge = 1;
    places[255].cartridge = 2_176_782_336;
    places
}

/// The start takes 257 steps. Then each three port places get a cartridge that cannot be read, a
/// label, and that label again: only the first with the label is entered. It goes to the next free
/// cell, from 26 on.
const FULL_PORT: [Call; 27] = [
    Call::Receive(b"\x03\x00\x01\x09", b"\x0F\x00\x01\x09\x01\x00"),
    Call::Quiet(256),
    Call::Step(
        b"\x8F\x00\x01\x09\x03\x00\0\0\x20\x02\0\0\0\0\0\0\0\0\0\0\0\0\0\0\0\0\0\0\0\0\0\0\0\0\0\0\0\x80??????000000ZZZZZZ",
    ),
    Call::Put(0, UNREADABLE_NUMBER),
    Call::Put(1, V0 + 1),
    Call::Put(2, V0 + 1),
    Call::Put(3, UNREADABLE_NUMBER),
    Call::Put(4, V0 + 2),
    Call::Put(5, V0 + 2),
    Call::Put(6, UNREADABLE_NUMBER),
    Call::Put(7, V0 + 3),
    Call::Put(8, V0 + 3),
    Call::Put(9, UNREADABLE_NUMBER),
    Call::Put(10, V0 + 4),
    Call::Put(11, V0 + 4),
    Call::Put(12, UNREADABLE_NUMBER),
    Call::Put(13, V0 + 5),
    Call::Put(14, V0 + 5),
    Call::Put(15, UNREADABLE_NUMBER),
    Call::Put(16, V0 + 6),
    Call::Put(17, V0 + 6),
    Call::Put(18, UNREADABLE_NUMBER),
    Call::Put(19, V0 + 7),
    Call::Put(20, V0 + 7),
    Call::Receive(b"\x03\x00\x02\x05", b"\x0F\x00\x02\x05\x01\x00"),
    Call::Quiet(22),
    Call::Step(
        b"\x4F\x00\x02\x05\x03\x00\x15\
        ??????\x00\x00\x18V00001\x01\x1A\x00V00001\x02\x02\x12\
        ??????\x03\x03\x18V00002\x04\x1B\x00V00002\x05\x05\x12\
        ??????\x06\x06\x18V00003\x07\x1C\x00V00003\x08\x08\x12\
        ??????\x09\x09\x18V00004\x0A\x1D\x00V00004\x0B\x0B\x12\
        ??????\x0C\x0C\x18V00005\x0D\x1E\x00V00005\x0E\x0E\x12\
        ??????\x0F\x0F\x18V00006\x10\x1F\x00V00006\x11\x11\x12\
        ??????\x12\x12\x18V00007\x13\x20\x00V00007\x14\x14\x12",
    ),
];

#[test]
fn full_port_of_a_large_bay(rt: HostRuntime) -> Result<(), Fail> {
    over(rt, Bay::new(rt.alloc(), &large_site(), 0)?, &FULL_PORT)
}
