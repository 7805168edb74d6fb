ghost use Rattle.robots.specs.Acts.{lift_answer, lifted, put_answer, put_in, set_answer, set_down, switch_answer, switched, take_answer, taken};
ghost use Rattle.robots.specs.Meaning.{Meaning, Sound, cartridge_asked, count, kind_asked, service_asked};
ghost use Rattle.std.specs.Prelude.{◌≡◌};

use crate::fault::Fault;
use crate::kind::Kind;

/// What can be asked of a robot. A question changes nothing.
pub trait Questions {
    ghost meaning: { Self → Meaning };

    /// How many places there are.
    fn places(&self) -> u16
        ensures { result ≡ count (meaning self.now) };

    /// The number of the cartridge in the hand, or 0.
    fn in_hand(&self) -> u32
        ensures { result ≡ (meaning self.now).hand };

    /// What the place is for, if there is such a place.
    fn kind(&self, p: u16) -> Option<Kind>
        ensures { result ≡ kind_asked (meaning self.now) p };

    /// The number of the cartridge at the place, or 0.
    fn cartridge(&self, p: u16) -> Option<u32>
        ensures { result ≡ cartridge_asked (meaning self.now) p };

    /// Whether the place is in service.
    fn in_service(&self, p: u16) -> Option<bool>
        ensures { result ≡ service_asked (meaning self.now) p };

    ghost sound: { (x : Self) → Sound (meaning x) };
}

/// What a robot can do. A refused act changes nothing.
pub trait Robot: Questions {
    /// Takes the cartridge at the place into the hand, and tells its number.
    fn lift(&mut self, p: u16) -> Result<u32, Fault>
        ensures answer { result ≡ lift_answer (Self.Questions.meaning self.old) p }
        ensures after { Self.Questions.meaning self.new ≡ lifted (Self.Questions.meaning self.old) p };

    /// Sets the cartridge in the hand down at the place.
    fn set(&mut self, p: u16) -> Result<(), Fault>
        ensures answer { result ≡ set_answer (Self.Questions.meaning self.old) p }
        ensures after { Self.Questions.meaning self.new ≡ set_down (Self.Questions.meaning self.old) p };

    /// A person puts a cartridge in.
    fn put(&mut self, p: u16, number: u32) -> Result<(), Fault>
        ensures answer { result ≡ put_answer (Self.Questions.meaning self.old) p number }
        ensures after { Self.Questions.meaning self.new ≡ put_in (Self.Questions.meaning self.old) p number };

    /// A person takes the cartridge out, and its number is told.
    fn take(&mut self, p: u16) -> Result<u32, Fault>
        ensures answer { result ≡ take_answer (Self.Questions.meaning self.old) p }
        ensures after { Self.Questions.meaning self.new ≡ taken (Self.Questions.meaning self.old) p };

    /// Puts the place into service, or out of it.
    fn switch(&mut self, p: u16, on: bool) -> Result<(), Fault>
        ensures answer { result ≡ switch_answer (Self.Questions.meaning self.old) p }
        ensures after { Self.Questions.meaning self.new ≡ switched (Self.Questions.meaning self.old) p on };
}
