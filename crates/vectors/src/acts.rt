//! Each act's refusals in their order, on both robots from the same table.

use bay::bay::Bay;
use robots::act::{Act, Answer, perform};
use robots::fault::Fault;
use robots::kind::Kind;
use robots::place::Place;
use robots::robot::{Questions, Robot};
use std::test::*;
use tag_frame::frame::TagFrame;

/// An empty port place, a full cell, an empty drive out of service, and a full cell out of service.
const PLACES: [Place; 4] = [
    Place {
        kind: Kind::Port,
        cartridge: 0,
        in_service: true,
    },
    Place {
        kind: Kind::Cell,
        cartridge: 5,
        in_service: true,
    },
    Place {
        kind: Kind::Drive,
        cartridge: 0,
        in_service: false,
    },
    Place {
        kind: Kind::Cell,
        cartridge: 6,
        in_service: false,
    },
];

/// What is done in turn, and the fault that it must have.
const TABLE: [(Act, Option<Fault>); 24] = [
    (Act::Lift(4), Some(Fault::NoPlace(4))),
    (Act::Lift(3), Some(Fault::OutOfService(3))),
    (Act::Lift(0), Some(Fault::PlaceEmpty(0))),
    (Act::Set(4), Some(Fault::NoPlace(4))),
    (Act::Set(3), Some(Fault::HandEmpty(3))),
    (Act::Put(4, 0), Some(Fault::NoPlace(4))),
    (Act::Put(1, 0), Some(Fault::BadNumber(1))),
    (Act::Put(1, 2_176_782_338), Some(Fault::BadNumber(1))),
    (Act::Put(1, 2_176_782_337), Some(Fault::PlaceFull(1))),
    (Act::Take(4), Some(Fault::NoPlace(4))),
    (Act::Take(2), Some(Fault::PlaceEmpty(2))),
    (Act::Switch(4, true), Some(Fault::NoPlace(4))),
    (Act::Lift(1), None),
    (Act::Lift(4), Some(Fault::NoPlace(4))),
    (Act::Lift(2), Some(Fault::HandFull(2))),
    (Act::Set(4), Some(Fault::NoPlace(4))),
    (Act::Set(3), Some(Fault::OutOfService(3))),
    (Act::Switch(3, true), None),
    (Act::Set(3), Some(Fault::PlaceFull(3))),
    (Act::Set(0), None),
    (Act::Take(0), None),
    (Act::Put(2, 2_176_782_337), None),
    (Act::Take(3), None),
    (Act::Take(2), None),
];

fn fault_in(answer: Answer) -> Option<Fault> {
    match answer {
        Answer::Number(Err(fault)) => Some(fault),
        Answer::Done(Err(fault)) => Some(fault),
        _ => None,
    }
}

fn follows_table<R: Robot>(robot: &mut R) -> bool {
    for (act, fault) in TABLE {
        if fault_in(perform(robot, act)) != fault {
            return false;
        }
    }
    true
}

#[test]
fn bay_by_the_table(rt: HostRuntime) -> Result<(), Fail> {
    let mut bay = Bay::new(rt.alloc(), &PLACES, 0)?;
    assert!(rt; follows_table(&mut bay));
    Ok(())
}

#[test]
fn tag_frame_by_the_table(rt: HostRuntime) -> Result<(), Fail> {
    let mut frame = TagFrame::new(rt.alloc(), &PLACES, 0)?;
    assert!(rt; follows_table(&mut frame));
    Ok(())
}

#[test]
fn full_tag_frame(rt: HostRuntime) -> Result<(), Fail> {
    let full = Place {
        kind: Kind::Cell,
        cartridge: 36,
        in_service: true,
    };
    let mut frame = TagFrame::new(rt.alloc(), &[full; 256], 2_176_782_337)?;
    assert!(rt; frame.places() == 256 && frame.in_hand() == 2_176_782_337);
    assert!(rt; frame.cartridge(255) == Some(36) && frame.cartridge(256) == None);
    assert!(rt; frame.put(255, 37) == Err(Fault::PlaceFull(255)));
    assert!(rt; frame.take(0) == Ok(36) && frame.set(0) == Ok(()));
    assert!(rt; frame.cartridge(0) == Some(2_176_782_337) && frame.in_hand() == 0);
    let more = [full; 257];
    assert!(rt; TagFrame::new(rt.alloc(), &more, 0).is_err());
    Ok(())
}
