//! The cartridge number of a label, and back.

ghost use Rattle.std.specs.Prelude.{◌≡◌, ◌<◌, true, Some};
ghost use Rattle.labels.specs.Characters.{right};
ghost use Rattle.labels.specs.Labels.{LabelRead, is_label_number, numbered};
ghost use Rattle.labels.specs.Numbers.{character_of, digit_of, number_of};

use crate::{HIGHEST_NUMBER, Label, NoLabel};

/// What a right character counts: 0 to 9 as they stand, A as 10.
fn digit(b: u8) -> u32
    requires { right b ≡ true }
    ensures is { result ≡ digit_of b }
    ensures bound { result < 36 }
{
    if b <= b'9' {
        u32::from(b - b'0')
    } else {
        u32::from(b - b'A') + 10
    }
}

/// The character that counts `d`.
fn character(d: u32) -> u8
    requires { d < 36 }
    ensures is { result ≡ character_of d }
    ensures right { right result ≡ true }
{
    if d < 10 {
        b'0' + d as u8
    } else {
        b'A' + (d as u8 - 10)
    }
}

/// Whether a label has the number.
fn is_label_number(n: u32) -> bool
    ensures { result ≡ is_label_number n }
{
    n >= 1 && n <= HIGHEST_NUMBER
}

impl Label {
    /// The label's cartridge number, from which `try_from` makes the label again.
    // No `From`: `u32::from(label)` would not say which number.
    pub fn number(&self) -> u32
        ensures is { result ≡ number_of self.now.chars }
        ensures back { numbered result ≡ Some self.now }
    {
        // Written out, as the six characters of a number are below: a fold is no plainer, since that its
        // sum fits would have to be kept from character to character.
        let [a, b, c, d, e, f] = self.chars;
        let k = digit(a);
        let k = k * 36 + digit(b);
        let k = k * 36 + digit(c);
        let k = k * 36 + digit(d);
        let k = k * 36 + digit(e);
        let k = k * 36 + digit(f);
        1 + k
    }
}

/// The label with a cartridge number.
impl TryFrom<u32> for Label {
    type Error = NoLabel;

    ghost try_from_gives = { LabelRead };

    fn try_from(number: u32) -> Result<Label, NoLabel> {
        if !is_label_number(number) {
            return Err(NoLabel { number });
        }
        let k = number - 1;
        Ok(Label {
            chars: [
                character(k / 60_466_176),
                character(k / 1_679_616 % 36),
                character(k / 46_656 % 36),
                character(k / 1_296 % 36),
                character(k / 36 % 36),
                character(k % 36),
            ],
        })
    }
}
