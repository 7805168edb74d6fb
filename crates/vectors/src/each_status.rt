//! Each status that the worked sessions do not meet, and the refusal of hands while an enter is at work:
//! one script, over both robots.

use crate::script::{Call, V0, over};
use bay::bay::Bay;
use labels::UNREADABLE_NUMBER;
use robots::kind::Kind;
use robots::place::Place;
use server::refusal::CallRefusal;
use std::test::*;
use tag_frame::frame::TagFrame;

/// Two port places, the second out of service; an empty drive, and one with a cartridge that
/// cannot be read; cells with `V00001`, twice `V00002`, and, out of service, `V00003`.
/// So no cell is free.
const PLACES: [Place; 8] = [
    Place {
        kind: Kind::Port,
        cartridge: 0,
        in_service: true,
    },
    Place {
        kind: Kind::Port,
        cartridge: 0,
        in_service: false,
    },
    Place {
        kind: Kind::Drive,
        cartridge: 0,
        in_service: true,
    },
    Place {
        kind: Kind::Drive,
        cartridge: UNREADABLE_NUMBER,
        in_service: true,
    },
    Place {
        kind: Kind::Cell,
        cartridge: V0 + 1,
        in_service: true,
    },
    Place {
        kind: Kind::Cell,
        cartridge: V0 + 2,
        in_service: true,
    },
    Place {
        kind: Kind::Cell,
        cartridge: V0 + 2,
        in_service: true,
    },
    Place {
        kind: Kind::Cell,
        cartridge: V0 + 3,
        in_service: false,
    },
];

const SCRIPT: [Call; 74] = [
    // Idle before the start: AlreadySo and NoDrive; then the start.
    Call::Receive(b"\x03\x00\x01\x06", b"\x1F\x00\x01\x06\x03\x0B\x02"),
    Call::Receive(b"\x07\x00\x02\x06\x01", b"\x1F\x00\x02\x06\x03\x0B\x02"),
    Call::Receive(b"\x53\x00\x03\x0A\x02\x01", b"\x1F\x00\x03\x0A\x03\x0B\x02"),
    Call::Receive(
        b"\x53\x00\x04\x0A\x04\x02",
        b"\x3F\x00\x04\x0A\x03\x09\x02\x04",
    ),
    Call::Receive(b"\x03\x00\x05\x09", b"\x0F\x00\x05\x09\x01\x00"),
    Call::Quiet(8),
    Call::Step(
        b"\x8F\x00\x05\x09\x03\x00\xF8\0\0\0\0\0\0\0\0\0\0\0\0\0\0\0\0\0\0\0\0\0\0\0\0\0\0\0\0\0\0\0??????V00001V00002V00002V00003",
    ),
    // At receipt: AlreadySo, NoDrive at a port place and past the last place, NoVolume, SeveralVolumes.
    Call::Receive(b"\x03\x00\x06\x09", b"\x1F\x00\x06\x09\x03\x0B\x02"),
    Call::Receive(
        b"\x1B\x00\x07\x07V00001\x00",
        b"\x3F\x00\x07\x07\x03\x09\x02\x00",
    ),
    Call::Receive(
        b"\x1B\x00\x08\x03V00001\x08",
        b"\x3F\x00\x08\x03\x03\x09\x02\x08",
    ),
    Call::Receive(b"\x0B\x00\x09\x08V00004", b"\x1F\x00\x09\x08\x03\x11\x02"),
    Call::Receive(b"\x0B\x00\x0A\x08V00002", b"\x1F\x00\x0A\x08\x03\x12\x02"),
    // Mounts: NoVolume, SeveralVolumes, DriveInUse, and LibraryFailure at the lift and at the set,
    // after which the cartridge is back.
    Call::Receive(b"\x1B\x00\x0B\x07V00004\x02", b"\x0F\x00\x0B\x07\x01\x00"),
    Call::Step(b"\x1F\x00\x0B\x07\x03\x11\x02"),
    Call::Receive(b"\x1B\x00\x0C\x07V00002\x02", b"\x0F\x00\x0C\x07\x01\x00"),
    Call::Step(b"\x1F\x00\x0C\x07\x03\x12\x02"),
    Call::Receive(b"\x1B\x00\x0D\x07V00001\x03", b"\x0F\x00\x0D\x07\x01\x00"),
    Call::Step(b"\x3F\x00\x0D\x07\x03\x14\x02\x03"),
    Call::Receive(b"\x1B\x00\x0E\x07V00003\x02", b"\x0F\x00\x0E\x07\x01\x00"),
    Call::Step(b"\x3F\x00\x0E\x07\x03\x19\x03\x07"),
    Call::Service(2, false),
    Call::Receive(b"\x1B\x00\x0F\x07V00001\x02", b"\x0F\x00\x0F\x07\x01\x00"),
    Call::Step(b"\x3F\x00\x0F\x07\x03\x19\x03\x02"),
    Call::Receive(
        b"\x0B\x00\x10\x08V00001",
        b"\x4F\x00\x10\x08\x03\x00\x01V00001\x04\x04\x00",
    ),
    Call::Service(2, true),
    // Dismounts: DriveEmpty, NoFreeCell with the cartridge back in its drive, OtherVolume of a
    // cartridge that cannot be read, LibraryFailure before NoFreeCell.
    Call::Receive(b"\x1B\x00\x11\x03V00001\x02", b"\x0F\x00\x11\x03\x01\x00"),
    Call::Step(b"\x3F\x00\x11\x03\x03\x15\x02\x02"),
    Call::Receive(
        b"\x1F\x00\x12\x03\x01V00001\x03",
        b"\x0F\x00\x12\x03\x01\x00",
    ),
    Call::Step(b"\x1F\x00\x12\x03\x03\x10\x02"),
    Call::Receive(b"\x1B\x00\x13\x03V00001\x03", b"\x0F\x00\x13\x03\x01\x00"),
    Call::Step(b"\x3F\x00\x13\x03\x03\x16\x02\x03"),
    Call::Service(3, false),
    Call::Receive(
        b"\x1F\x00\x14\x03\x01V00001\x03",
        b"\x0F\x00\x14\x03\x01\x00",
    ),
    Call::Step(b"\x3F\x00\x14\x03\x03\x19\x03\x03"),
    Call::Service(3, true),
    // Ejects: NoVolume, SeveralVolumes, LibraryFailure, and NoPortPlace once the port place in
    // service is full.
    Call::Receive(b"\x0B\x00\x15\x04V00004", b"\x0F\x00\x15\x04\x01\x00"),
    Call::Step(b"\x1F\x00\x15\x04\x03\x11\x02"),
    Call::Receive(b"\x0B\x00\x16\x04V00002", b"\x0F\x00\x16\x04\x01\x00"),
    Call::Step(b"\x1F\x00\x16\x04\x03\x12\x02"),
    Call::Receive(b"\x0B\x00\x17\x04V00003", b"\x0F\x00\x17\x04\x01\x00"),
    Call::Step(b"\x3F\x00\x17\x04\x03\x19\x03\x07"),
    Call::Put(0, V0 + 3),
    Call::Receive(b"\x0B\x00\x18\x04V00001", b"\x0F\x00\x18\x04\x01\x00"),
    Call::Step(b"\x1F\x00\x18\x04\x03\x17\x02"),
    // Enters, in which every cartridge stays: SeveralVolumes and UnreadableLabel, then NoFreeCell and
    // LibraryFailure. Hands do not reach the port while one is at work.
    Call::Put(1, UNREADABLE_NUMBER),
    Call::Receive(b"\x03\x00\x19\x05", b"\x0F\x00\x19\x05\x01\x00"),
    Call::Quiet(1),
    Call::Barred(0, CallRefusal::EnterAtWork),
    Call::Quiet(2),
    Call::Step(b"\x4F\x00\x19\x05\x03\x00\x02V00003\x00\x00\x12??????\x01\x01\x18"),
    Call::Take(0, V0 + 3),
    Call::Take(1, UNREADABLE_NUMBER),
    Call::Put(0, V0 + 4),
    Call::Put(1, V0 + 5),
    Call::Receive(b"\x03\x00\x1A\x05", b"\x0F\x00\x1A\x05\x01\x00"),
    Call::Quiet(3),
    Call::Step(b"\x4F\x00\x1A\x05\x03\x00\x02V00004\x00\x00\x10V00005\x01\x01\x19"),
    // LibraryBusy with both slots in use, in Run and in Idle; AlreadySo of a drive; two aborted requests.
    Call::Receive(b"\x0B\x00\x1B\x04V00001", b"\x0F\x00\x1B\x04\x01\x00"),
    Call::Receive(b"\x03\x00\x1C\x05", b"\x0F\x00\x1C\x05\x01\x00"),
    Call::Receive(
        b"\x1B\x00\x1D\x07V00001\x02",
        b"\x1F\x00\x1D\x07\x03\x0D\x02",
    ),
    Call::Receive(
        b"\x1B\x00\x1E\x03V00001\x03",
        b"\x1F\x00\x1E\x03\x03\x0D\x02",
    ),
    Call::Receive(b"\x0B\x00\x1F\x04V00001", b"\x1F\x00\x1F\x04\x03\x0D\x02"),
    Call::Receive(b"\x03\x00\x20\x05", b"\x1F\x00\x20\x05\x03\x0D\x02"),
    Call::Receive(b"\x03\x00\x21\x06", b"\x1F\x00\x21\x06\x03\x0D\x02"),
    Call::Receive(b"\x53\x00\x22\x0A\x02\x02", b"\x0F\x00\x22\x0A\x03\x00"),
    Call::Receive(b"\x53\x00\x23\x0A\x02\x02", b"\x1F\x00\x23\x0A\x03\x0B\x02"),
    Call::Receive(b"\x07\x00\x24\x06\x01", b"\x0F\x00\x24\x06\x03\x00"),
    Call::Receive(b"\x03\x00\x25\x09", b"\x1F\x00\x25\x09\x03\x0D\x02"),
    Call::Receive(b"\x23\x00\x26\x02\x00\x1B", b"\x1F\x00\x26\x02\x03\x0C\x02"),
    Call::Step(b"\x3F\x00\x1B\x04\x03\x07\x02\x03"),
    Call::Step(b"\x7F\x00\x1C\x05\x03\x07\x02\x03\x00"),
    Call::Quiet(1),
    Call::Take(0, V0 + 4),
    Call::Take(1, V0 + 5),
];

#[test]
fn refusals_over_a_bay(rt: HostRuntime) -> Result<(), Fail> {
    over(rt, Bay::new(rt.alloc(), &PLACES, 0)?, &SCRIPT)
}

#[test]
fn refusals_over_a_tag_frame(rt: HostRuntime) -> Result<(), Fail> {
    over(rt, TagFrame::new(rt.alloc(), &PLACES, 0)?, &SCRIPT)
}
