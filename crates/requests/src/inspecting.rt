//! What is told of a packet whose request nobody asks for. No body is made, which would take as
//! long as all else.

ghost use Rattle.requests.specs.Checking.{bits_right, checked};
ghost use Rattle.requests.specs.Inspecting.{lowest_in, outlined, passed, wrong_mask};
ghost use Rattle.requests.specs.Reading.{judged, request_in};
ghost use Rattle.requests.specs.Taking.{Stands};
ghost use Rattle.requests.specs.declared.taking.Ending.TheVariants.{Exact};
ghost use Rattle.std.specs.Prelude.{◌≡◌};

use crate::checking::{command_in, label_in, none_wrong, setting_in, wrong_option};
use crate::commands::Command;
use crate::refusals::Cause;
use crate::standing::Standing;
use crate::taking::{Taken, take_fields};

/// The cause of a refusal, if there is one, and number and command where they could be read.
#[derive(Clone, Copy, PartialEq, Eq, Debug)]
pub struct Outline {
    pub fault: Result<(), Cause>,
    pub number: Option<u16>,
    pub command: Option<u8>,
}

/// The wrong bits of a map, with that of the option where it is wrong.
fn wrong_mask(command: Command, map: u8, bad: bool) -> u8
    ensures { result ≡ wrong_mask command map bad }
{
    let bits = command.bits();
    let others = (map ^ bits.needed) & (255 - bits.permitted);
    if bad { others | 4 } else { others }
}

/// The lowest wrong bit, by masks in place of a branch for each bit.
fn lowest_in(command: Command, map: u8, bad: bool) -> Option<u8>
    ensures { result ≡ lowest_in command map bad }
{
    let wrong = wrong_mask(command, map, bad);
    if wrong == 0 {
        return None;
    }
    Some(wrong.trailing_zeros() as u8)
}

/// Whether the command takes just these fields.
fn pass_bits(command: Command, f: Standing) -> Result<(), Cause>
    ensures { result ≡ bits_right command f.fields }
{
    let bad = wrong_option(f.fields.option);
    none_wrong(lowest_in(command, f.fields.map, bad))
}

/// Whether the fields make a request, or the cause for which they make none. `WRITING` is there to
/// give each caller an instance of its own, which the compiler then puts in place of the call.
pub(crate) fn pass_fields<const WRITING: bool>(f: Standing) -> Result<(), Cause>
    ensures { result ≡ passed (checked f.fields) }
{
    let command = command_in(f.fields.command)?;
    pass_bits(command, f)?;
    label_in(f.fields.label)?;
    setting_in(f.fields.drive_state)?;
    Ok(())
}

/// The same of a packet taken apart. The fact stays a clause here: `Taken` is public, and a ghost
/// field would ask more of those who make one.
fn pass(taken: Taken) -> Result<(), Cause>
    requires { taken.ending ≡ Exact → Stands taken.fields }
    ensures { result ≡ passed (judged taken) }
{
    let fields = taken.whole()?;
    pass_fields::<false>(Standing { fields })
}

/// Whether a packet reads as a request, and what `read` tells of it besides.
pub fn inspect(packet: &[u8]) -> Outline
    ensures { result ≡ outlined (request_in packet.now) }
{
    let taken = take_fields(packet);
    Outline {
        fault: pass(taken),
        number: taken.fields.number,
        command: taken.fields.command,
    }
}
