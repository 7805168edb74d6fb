//! The six bytes that stand for a cartridge in responses: its label, or six question marks.

ghost use Rattle.labels.specs.Labels.{characters_or_marks, is_cartridge_number, number_of_six, six_for};
ghost use Rattle.std.specs.Prelude.{◌≡◌, true, IfSome, Some};

use crate::{Label, UNREADABLE, UNREADABLE_NUMBER};

/// The characters of a label, question marks where there is none.
// No `map_or`: what a closure answers is found for numbers, and not for the characters of an array.
fn characters_of(label: Option<Label>) -> [u8; 6]
    ensures { result ≡ characters_or_marks label }
{
    match label {
        Some(label) => label.chars(),
        None => UNREADABLE,
    }
}

/// The six bytes that stand for the cartridge with this number.
pub fn six_for(number: u32) -> [u8; 6]
    ensures is { result ≡ six_for number }
    ensures back { is_cartridge_number number ≡ true → number_of_six result ≡ Some number }
{
    characters_of(Label::try_from(number).ok())
}

/// The cartridge number that six bytes stand for, if they stand for a cartridge.
pub fn number_of_six(six: [u8; 6]) -> Option<u32>
    ensures is { result ≡ number_of_six six }
    ensures back { IfSome result (λ n. six_for n ≡ six) }
{
    match Label::new(six) {
        Ok(label) => Some(label.number()),
        Err(_) => if six == UNREADABLE {
            Some(UNREADABLE_NUMBER)
        } else {
            None
        },
    }
}
