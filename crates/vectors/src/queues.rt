//! The queue at every turn: rings of 0, 1, 2, 3 and 5 slots, the oldest record at every place.

use ring::Ring;
use std::test::*;

/// Moves the place of the oldest on by so many.
fn advance(ring: &mut Ring<u8>, times: usize) {
    for _ in 0..times {
        let _ = ring.push(200);
        let _ = ring.pop();
    }
}

/// Adds 0, 1, 2 and so on until the ring is full, and tells how many went in.
fn fill(ring: &mut Ring<u8>) -> usize {
    (0..9u8).filter(|record| ring.push(*record).is_ok()).count()
}

/// Whether the records are 0, 1, 2 and so on, by number and as they leave.
fn leaves_in_order(ring: &mut Ring<u8>, count: u8) -> bool {
    for record in 0..count {
        match (ring.get(0), ring.pop()) {
            (Some(first), Some(taken)) => {
                if first != record || taken != record {
                    return false;
                }
            }
            _ => return false,
        }
    }
    ring.pop().is_none()
}

/// One ring of `size` slots out of 8, its oldest record at `head`.
fn turns(size: u8, head: usize) -> bool {
    let mut slots = [99; 8];
    let mut ring = Ring::new(&mut slots, usize::from(size));
    advance(&mut ring, head);
    let accepted = fill(&mut ring);
    if accepted != usize::from(size) || !ring.is_full() || ring.len() != accepted {
        return false;
    }
    if ring.any(|record| record == size) || (size > 0 && !ring.any(|record| record == size - 1)) {
        return false;
    }
    leaves_in_order(&mut ring, size)
}

/// Changes at every turn: each record, and one of them.
fn changes(size: u8, head: usize) -> bool {
    let mut slots = [99; 8];
    let mut ring = Ring::new(&mut slots, usize::from(size));
    advance(&mut ring, head);
    let _ = fill(&mut ring);
    ring.each(|_| 7);
    if ring.any(|record| record == 0) {
        return false;
    }
    if ring.replace(usize::from(size), 8).is_ok() {
        return false;
    }
    if size == 0 {
        return true;
    }
    let last = usize::from(size - 1);
    ring.replace(last, 8).is_ok()
        && ring.get(last) == Some(8)
        && (last == 0 || ring.get(0) == Some(7))
}

#[test]
fn every_size_and_head(rt: HostRuntime) -> Result<(), Fail> {
    for size in [0u8, 1, 2, 3, 5] {
        for head in 0..6 {
            assert!(rt; turns(size, head));
            assert!(rt; changes(size, head));
        }
    }
    Ok(())
}

#[test]
fn slots_past_the_limit_stay(rt: HostRuntime) -> Result<(), Fail> {
    let mut slots = [99u8; 8];
    let mut ring = Ring::new(&mut slots, 3);
    advance(&mut ring, 2);
    let _ = fill(&mut ring);
    assert!(rt; slots[0] != 99 && slots[1] != 99 && slots[2] != 99);
    assert!(rt; slots[3..8] == [99, 99, 99, 99, 99]);
    Ok(())
}
