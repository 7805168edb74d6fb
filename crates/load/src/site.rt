use robots::kind::Kind;
use robots::place::Place;
use std::alloc::{AllocError, Global};

/// A place as C tells it, by numbers: kind 0 is a cell, 1 a drive, any other a port place.
#[derive(Clone, Copy)]
#[repr(C)]
pub struct Spot {
    pub cartridge: u32,
    pub kind: u8,
    pub in_service: bool,
}

impl From<Spot> for Place {
    fn from(spot: Spot) -> Place {
        Place {
            kind: match spot.kind {
                0 => Kind::Cell,
                1 => Kind::Drive,
                _ => Kind::Port,
            },
            cartridge: spot.cartridge,
            in_service: spot.in_service,
        }
    }
}

/// The places of a site.
pub fn places_of(heap: Global, site: &[Spot]) -> Result<Vec<Place>, AllocError> {
    site.iter().map(|spot| Place::from(*spot)).collect(heap)
}
