//! What a frame keeps of its places beside their cartridges.

ghost use Rattle.std.specs.Prelude.{◌≡◌, map, IfOk};
ghost use Rattle.tag_frame.specs.Sites.{site_of};

use robots::kind::Kind;
use robots::place::Place;
use std::alloc::{AllocError, Global};

/// A place without what it holds.
#[derive(Clone, Copy, PartialEq, Eq, Debug)]
pub struct Site {
    pub kind: Kind,
    pub in_service: bool,
}

impl From<&Place> for Site {
    ghost from_gives = { λ place site. site ≡ site_of place.now };

    fn from(place: &Place) -> Site {
        Site {
            kind: place.kind,
            in_service: place.in_service,
        }
    }
}

/// The sites of these places.
pub(crate) fn sites_of(heap: Global, places: &[Place]) -> Result<Vec<Site>, AllocError>
    ensures { IfOk result (λ sites. sites.items ≡ map site_of places.now) }
{
    places.iter().map(|place| Site::from(place)).collect(heap)
}
