//! Cartridge labels and cartridge numbers. A label is six characters out of 0-9 and A-Z; its
//! number is one more than the label read in base 36. One number more stands for any cartridge
//! whose label cannot be read, and 0 for no cartridge.

#![tactic(auto)]

ghost use Rattle.labels.specs.Characters.{all_right};
ghost use Rattle.std.specs.Prelude.{◌≡◌, true, bytes_eq, Decides};
ghost use Rattle.std.specs.Cmp.Rules.{comparing};
ghost use Rattle.std.proofs.Common.{rules, arith};
ghost use Rattle.std.specs.Cmp as Keys;

mod characters;
mod examples;
mod numbers;
mod six;
mod words;

pub use examples::worked_numbers;
pub use six::{number_of_six, six_for};

/// Six question marks, which stand for a label that cannot be read.
pub const UNREADABLE: [u8; 6] = *b"??????";

/// The cartridge number of "ZZZZZZ", the highest that a label has.
pub const HIGHEST_NUMBER: u32 = 2_176_782_336;

/// The cartridge number of any cartridge whose label cannot be read.
pub const UNREADABLE_NUMBER: u32 = 2_176_782_337;

/// Six characters out of 0-9 and A-Z.
#[derive(Clone, Copy, Eq, Debug)]
pub struct Label {
    chars: [u8; 6],
    ghost right: { all_right chars ≡ true },
}

/// A derived comparison would promise nothing of the characters.
impl PartialEq for Label {
    ghost eq = { λ x y. bytes_eq x.chars y.chars };

    ghost laws = { Prim.search (comparing, rules) };

    fn eq(&self, other: &Label) -> bool
        ensures value { result ≡ bytes_eq self.now.chars other.now.chars }
        ensures decides { Decides result (self.now ≡ other.now) }
    {
        self.chars == other.chars
    }
}

/// Where the first character stands that no label has, counted from 0.
#[derive(Clone, Copy, PartialEq, Eq, Debug)]
pub struct WrongCharacter {
    pub index: u8,
}

/// A number that no label has.
#[derive(Clone, Copy, PartialEq, Eq, Debug)]
pub struct NoLabel {
    pub number: u32,
}
