ghost use Rattle.robots.specs.Acts.{place_of};
ghost use Rattle.std.specs.Prelude.{◌≡◌};

/// Why a robot refused an act, and at which place.
#[derive(Clone, Copy, PartialEq, Eq, Debug)]
pub enum Fault {
    NoPlace(u16),
    HandFull(u16),
    HandEmpty(u16),
    OutOfService(u16),
    PlaceEmpty(u16),
    PlaceFull(u16),
    BadNumber(u16),
}

impl Fault {
    /// The place that the act named.
    pub fn place(self) -> u16
        ensures { result ≡ place_of self }
    {
        match self {
            Fault::NoPlace(p)
            | Fault::HandFull(p)
            | Fault::HandEmpty(p)
            | Fault::OutOfService(p)
            | Fault::PlaceEmpty(p)
            | Fault::PlaceFull(p)
            | Fault::BadNumber(p) => p,
        }
    }
}
