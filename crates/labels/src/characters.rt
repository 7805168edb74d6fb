//! Which characters make a label.

ghost use Rattle.std.specs.Prelude.{◌≡◌, ◌≤◌, length, bytes_eq, Decides};
ghost use Rattle.labels.specs.Characters.{first_wrong, right};
ghost use Rattle.labels.specs.Labels.{labelled};

use crate::{Label, WrongCharacter};

/// Whether a label may have the character.
fn is_right(b: u8) -> bool
    ensures { result ≡ right b }
{
    (b >= b'0' && b <= b'9') || (b >= b'A' && b <= b'Z')
}

/// The index of the first character that no label has.
fn first_wrong(chars: &[u8]) -> Option<u8>
    requires { length chars.now ≤ 6 }
    ensures { result ≡ first_wrong 0 chars.now }
{
    // No `position`: that its index fits a byte would have to be shown by an answer.
    for (i, b) in chars.iter().enumerate() {
        if !is_right(*b) {
            return Some(i as u8);
        }
    }
    None
}

impl Label {
    /// The label of the characters, or where the first wrong one stands.
    pub fn new(chars: [u8; 6]) -> Result<Label, WrongCharacter>
        ensures { result ≡ labelled chars }
    {
        match first_wrong(&chars) {
            Some(index) => Err(WrongCharacter { index }),
            None => Ok(Label { chars }),
        }
    }

    /// Whether both are one and the same.
    pub fn is(&self, other: &Label) -> bool
        ensures value { result ≡ bytes_eq self.now.chars other.now.chars }
        ensures decides { Decides result (self.now ≡ other.now) }
    {
        self.eq(other)
    }

    /// The characters.
    pub fn chars(&self) -> [u8; 6]
        ensures { result ≡ self.now.chars }
    {
        self.chars
    }
}
