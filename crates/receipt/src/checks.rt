//! The checks at receipt, in the order of their statuses.

ghost use Rattle.library.specs.Cores.{library_of};
ghost use Rattle.receipt.specs.Checking.{body_refusal, can_cancel, cancel_refusal, drive_online, drive_refusal, drive_there, idle_refusal, is_so, refusal_of, served, start_refusal, vary_refusal};
ghost use Rattle.receipt.specs.declared.refusal.NotReceived.TheVariants.{NoDrive};
ghost use Rattle.std.specs.Prelude.{◌≡◌, if◌then◌else◌, Ok, Err};
ghost use Rattle.std.specs.Result.{result_err};

use crate::refusal::NotReceived;
use library::cores::Core;
use library::marks::cancels;
use library::state::State;
use requests::{Body, DriveSetting};
use robots::kind::Kind;
use robots::robot::Robot;

/// Whether the state serves the request.
fn is_served(state: State, body: Body) -> bool
    ensures { result ≡ served state body }
{
    match (state, body) {
        (State::Run, _) => true,
        (_, Body::Cancel { .. } | Body::Query { label: None }) => true,
        (State::Recovery, _) => false,
        (_, Body::Idle { .. } | Body::Vary { .. }) => true,
        (State::IdlePending, Body::Query { .. }) => true,
        (State::Idle, Body::Start) => true,
        _ => false,
    }
}

fn check_idle(state: State, force: bool) -> Result<(), NotReceived>
    ensures { result_err result ≡ idle_refusal state force }
{
    match state {
        State::IdlePending if !force => Err(NotReceived::IdlePending),
        State::Idle => Err(NotReceived::AlreadySo),
        _ => Ok(()),
    }
}

fn check_start(state: State) -> Result<(), NotReceived>
    ensures { result_err result ≡ start_refusal state }
{
    match state {
        State::Run => Err(NotReceived::AlreadySo),
        _ => Ok(()),
    }
}

/// Whether the drive's setting is so, or pending so.
fn is_so(setting: DriveSetting, online: bool) -> bool
    ensures { result ≡ is_so setting online }
{
    match setting {
        DriveSetting::Online => online,
        DriveSetting::Offline => !online,
    }
}

fn is_online<R: Robot>(core: &Core<R>, drive: u8) -> bool
    ensures { result ≡ drive_online (library_of core.now) drive }
{
    core.drives[usize::from(drive)].is_online()
}

fn check_cancel<R: Robot>(core: &Core<R>, target: u16) -> Result<(), NotReceived>
    ensures { result_err result ≡ cancel_refusal (can_cancel (library_of core.now) target) }
{
    if core.any_request(|q| cancels(target, q)) {
        Ok(())
    } else {
        Err(NotReceived::NothingToCancel)
    }
}

/// The place of the drive, if there is such a drive.
fn drive_place<R: Robot>(core: &Core<R>, drive: u8) -> Result<u16, NotReceived>
    ensures { result ≡ (if drive_there (library_of core.now) drive then Ok drive else Err (NoDrive drive)) }
{
    let place = u16::from(drive);
    if core.stock.is_of(Kind::Drive, place) {
        Ok(place)
    } else {
        Err(NotReceived::NoDrive(place))
    }
}

fn check_drive<R: Robot>(core: &Core<R>, drive: u8) -> Result<(), NotReceived>
    ensures { result_err result ≡ drive_refusal (drive_there (library_of core.now) drive) (drive_online (library_of core.now) drive) drive }
{
    let place = drive_place(core, drive)?;
    if is_online(core, drive) {
        Ok(())
    } else {
        Err(NotReceived::NotOnline(place))
    }
}

fn check_vary<R: Robot>(core: &Core<R>, drive: u8, setting: DriveSetting) -> Result<(), NotReceived>
    ensures { result_err result ≡ vary_refusal (drive_there (library_of core.now) drive) (is_so setting (drive_online (library_of core.now) drive)) drive }
{
    let _ = drive_place(core, drive)?;
    if is_so(setting, is_online(core, drive)) {
        Err(NotReceived::AlreadySo)
    } else {
        Ok(())
    }
}

fn check_body<R: Robot>(core: &Core<R>, body: Body) -> Result<(), NotReceived>
    ensures { result_err result ≡ body_refusal body (library_of core.now) }
{
    match body {
        Body::Cancel { target } => check_cancel(core, target),
        Body::Dismount { drive, .. } | Body::Mount { drive, .. } => check_drive(core, drive),
        Body::Idle { force } => check_idle(core.state, force),
        Body::Start => check_start(core.state),
        Body::Vary { drive, setting } => check_vary(core, drive, setting),
        Body::Eject { .. } | Body::Enter | Body::Query { .. } => Ok(()),
    }
}

/// Whether a request is refused, a full queue and a query's label aside.
pub fn check<R: Robot>(core: &Core<R>, body: Body) -> Result<(), NotReceived>
    ensures { result_err result ≡ refusal_of body (library_of core.now) }
{
    if !is_served(core.state, body) {
        return Err(NotReceived::NotServed(core.state));
    }
    check_body(core, body)
}
