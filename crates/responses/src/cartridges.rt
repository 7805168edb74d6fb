//! A cartridge off the front: the number that six bytes stand for.

ghost use Rattle.byte_fields.specs.Taking.{seen};
ghost use Rattle.responses.specs.Reading.{cartridge_off};
ghost use Rattle.std.specs.Prelude.{◌≡◌};

use byte_fields::Field;
use labels::number_of_six;

pub(crate) fn take_cartridge(bytes: &[u8]) -> Option<(u32, &[u8])>
    ensures { seen result ≡ cartridge_off bytes.now }
{
    let (six, rest) = <[u8; 6]>::cut(bytes)?;
    Some((number_of_six(six)?, rest))
}
