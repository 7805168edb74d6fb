//! The fields checked by the table of commands, and the request that they make.

ghost use Rattle.requests.specs.Checking.{bits_by, body_of, checked, command_field, label_field, lowest_wrong, setting_field, wrong_at, wrong_bit, wrong_option};
ghost use Rattle.std.specs.Prelude.{◌≡◌, find, is_some, None};
ghost use Rattle.std.specs.List.{range_with_len};

use crate::bodies::{Body, DriveSetting, Mark, Request};
use crate::commands::Command;
use crate::refusals::Cause;
use crate::taking::Fields;
use byte_fields::has;
use labels::Label;

/// The command of the field.
pub(crate) fn command_in(field: Option<u8>) -> Result<Command, Cause>
    ensures { result ≡ command_field field }
{
    let code = field.ok_or(Cause::UnknownCommand)?;
    Ok(Command::try_from(code)?)
}

/// Whether the field worth `worth` is missing, or not taken.
fn wrong_at(command: Command, worth: u8, stands: bool) -> bool
    ensures { result ≡ wrong_at command worth stands }
{
    if stands {
        !has(command.needed(), worth) && !has(command.permitted(), worth)
    } else {
        has(command.needed(), worth)
    }
}

/// Whether there is an option other than 1.
pub(crate) fn wrong_option(option: Option<u8>) -> bool
    ensures { result ≡ wrong_option option }
{
    option.is_some_and(|v| v != 1)
}

/// Whether the bit, counted from 0, is missing, not taken, or an option's other than 1.
fn is_wrong(command: Command, f: Fields, bit: u8) -> bool
    ensures { result ≡ wrong_bit command f bit }
{
    match bit {
        0 => wrong_at(command, 1, f.number.is_some()),
        1 => wrong_at(command, 2, f.command.is_some()),
        2 => wrong_at(command, 4, f.option.is_some()) || wrong_option(f.option),
        3 => wrong_at(command, 8, f.label.is_some()),
        4 => wrong_at(command, 16, f.place.is_some()),
        5 => wrong_at(command, 32, f.target.is_some()),
        6 => wrong_at(command, 64, f.drive_state.is_some()),
        _ => has(f.map, 128),
    }
}

/// The first bit that is wrong.
fn first_wrong(command: Command, f: Fields) -> Option<u8>
    ensures { result ≡ find (wrong_bit command f) (range_with_len 0 8) }
{
    (0..8u8).find(|bit| is_wrong(command, f, *bit))
}

/// The lowest bit that is wrong.
fn lowest_wrong(command: Command, f: Fields) -> Option<u8>
    ensures { result ≡ lowest_wrong command f }
{
    first_wrong(command, f)
}

/// Whether no bit is wrong; else the lowest is told.
pub(crate) fn none_wrong(lowest: Option<u8>) -> Result<(), Cause>
    ensures { result ≡ bits_by lowest }
{
    lowest.map_or(Ok(()), |bit| Err(Cause::WrongBit { bit }))
}

/// The label of the field, where it is there.
pub(crate) fn label_in(field: Option<[u8; 6]>) -> Result<Option<Label>, Cause>
    ensures { result ≡ label_field field }
{
    Ok(field.map(Label::new).transpose()?)
}

/// The drive setting of the field, where it is there.
pub(crate) fn setting_in(field: Option<u8>) -> Result<Option<DriveSetting>, Cause>
    ensures { result ≡ setting_field field }
{
    Ok(field.map(DriveSetting::try_from).transpose()?)
}

/// The body of a command whose fields are as it takes them.
fn make_body(
    command: Command,
    f: Fields,
    label: Option<Label>,
    setting: Option<DriveSetting>,
) -> Body
    requires bits { lowest_wrong command f ≡ None }
    requires label { is_some label ≡ is_some f.label }
    requires setting { is_some setting ≡ is_some f.drive_state }
    ensures { result ≡ body_of command f label setting }
{
    match command {
        Command::Cancel => Body::Cancel {
            target: f.target.unwrap(),
        },
        Command::Dismount => Body::Dismount {
            label: label.unwrap(),
            drive: f.place.unwrap(),
            force: f.option.is_some(),
        },
        Command::Eject => Body::Eject {
            label: label.unwrap(),
        },
        Command::Enter => Body::Enter,
        Command::Idle => Body::Idle {
            force: f.option.is_some(),
        },
        Command::Mount => Body::Mount {
            label: label.unwrap(),
            drive: f.place.unwrap(),
        },
        Command::Query => Body::Query { label },
        Command::Start => Body::Start,
        Command::Vary => Body::Vary {
            drive: f.place.unwrap(),
            setting: setting.unwrap(),
        },
    }
}

/// The request that the fields make, or the cause for which they make none.
pub fn check_fields(f: Fields) -> Result<Request, Cause>
    ensures { result ≡ checked f }
{
    let command = command_in(f.command)?;
    none_wrong(lowest_wrong(command, f))?;
    let label = label_in(f.label)?;
    let setting = setting_in(f.drive_state)?;
    Ok(Request {
        number: f.number.unwrap(),
        mark: Mark::Unmarked,
        body: make_body(command, f, label, setting),
    })
}
