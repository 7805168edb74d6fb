//! What comes of a request that no check refuses.

ghost use Rattle.library.specs.Cores.{library_of};
ghost use Rattle.library.specs.Verdicts.Shown.{nothing};
ghost use Rattle.library.specs.Verdicts.{refused_by, verdict_of};
ghost use Rattle.receipt.specs.Accepting.Said.{final};
ghost use Rattle.receipt.specs.Checking.{detail_of, status_of};
ghost use Rattle.receipt.specs.Accepting.{accepted, found, queried, queued, queued_notice, queued_state, received, said_by, vary_event, with_cancelled, with_forced, with_varied};
ghost use Rattle.std.specs.Prelude.{◌≡◌};

use crate::checks::check;
use crate::refusal::NotReceived;
use labels::Label;
use library::cores::Core;
use library::drive::DriveEvent;
use library::marks::{aborted, cancelled};
use library::message::Notice;
use library::state::State;
use library::verdict::{Final, Tail, Verdict};
use requests::{Body, DriveSetting, Request};
use responses::Entry;
use robots::robot::Robot;
use statuses::Status;
use stock::refusal::Refusal;
use stock::stock::movements::{entry_for, located};

/// What a received request is answered. No `Result`: neither is a failure.
#[derive(Clone, Copy)]
pub enum Answer {
    /// It was queued.
    Acknowledge(Request),
    /// It is answered for good.
    Final(Final),
}

/// Answers the request for good.
fn finally(request: Request, verdict: Verdict) -> Answer
    ensures { said_by result ≡ final (record { request = request; ending = verdict_of verdict }) }
{
    Answer::Final(Final { request, verdict })
}

fn refuse(request: Request, why: NotReceived) -> Answer
    ensures { said_by result ≡ final (record { request = request; ending = refused_by (status_of why) (detail_of why) nothing }) }
{
    let verdict = Verdict::refused(Status::from(why), why.detail(), Tail::Nothing);
    finally(request, verdict)
}

/// The state once the request is queued.
fn queued_state(body: Body, state: State) -> State
    ensures { result ≡ queued_state body state }
{
    match body {
        Body::Start => State::Recovery,
        Body::Idle { .. } => State::IdlePending,
        _ => state,
    }
}

/// What the operator is told once the request is queued.
fn queued_notice(body: Body) -> Option<Notice>
    ensures { result ≡ queued_notice body }
{
    match body {
        Body::Idle { .. } => Some(Notice::IdlePending),
        _ => None,
    }
}

/// Queues the request and acknowledges it, unless the queue is full.
fn queue<R: Robot>(core: &mut Core<R>, request: Request) -> Answer
    ensures answer { said_by result ≡ (queued request (library_of core.old)).said }
    ensures library { library_of core.new ≡ (queued request (library_of core.old)).library }
{
    match core.waiting.push(request) {
        Ok(()) => {
            core.state = queued_state(request.body, core.state);
            core.post(queued_notice(request.body), request.number);
            Answer::Acknowledge(request)
        }
        Err(_) => refuse(request, NotReceived::LibraryBusy),
    }
}

/// Idle at once: every unmarked request is aborted, and idle is told with this number.
pub fn force_idle<R: Robot>(core: &mut Core<R>, number: u16)
    ensures { library_of core.new ≡ with_forced number (library_of core.old) }
{
    core.change_requests(aborted);
    core.state = State::Idle;
    core.post(Some(Notice::Idle), number);
}

/// Marks the request with this number; it keeps its turn.
fn cancel<R: Robot>(core: &mut Core<R>, target: u16)
    ensures { library_of core.new ≡ with_cancelled target (library_of core.old) }
{
    core.change_requests(|q| cancelled(target, q));
}

fn vary_event(setting: DriveSetting, named: bool) -> DriveEvent
    ensures { result ≡ vary_event setting named }
{
    match setting {
        DriveSetting::Online => DriveEvent::ToOnline,
        DriveSetting::Offline => DriveEvent::ToOffline(named),
    }
}

/// Varies the drive; while a waiting request names it, offline is pending.
fn vary<R: Robot>(core: &mut Core<R>, drive: u8, setting: DriveSetting)
    ensures { library_of core.new ≡ with_varied drive setting (library_of core.old) }
{
    let named = core.is_named(drive);
    core.turn_drive(drive, vary_event(setting, named));
}

/// The entry for a label that is asked for, at the place where it is filed.
fn find<R: Robot>(core: &Core<R>, label: Label) -> Result<Entry, Refusal>
    ensures { result ≡ found label (library_of core.now) }
{
    let number = label.number();
    let row = located(core.stock.volume(number))?;
    Ok(entry_for(number, row.place, row.place, Status::Success))
}

/// Tells the state, or where a label is.
fn query<R: Robot>(core: &Core<R>, label: Option<Label>) -> Verdict
    ensures { verdict_of result ≡ queried label (library_of core.now) }
{
    match label {
        None => Verdict::told(core.state),
        Some(label) => Verdict::from(find(core, label)),
    }
}

/// What an accepted request does.
fn accept<R: Robot>(core: &mut Core<R>, request: Request) -> Answer
    ensures answer { said_by result ≡ (accepted request.body request (library_of core.old)).said }
    ensures library { library_of core.new ≡ (accepted request.body request (library_of core.old)).library }
{
    match request.body {
        Body::Cancel { target } => {
            cancel(core, target);
            finally(request, Verdict::done(Tail::Nothing))
        }
        Body::Idle { force: true } => {
            force_idle(core, request.number);
            finally(request, Verdict::done(Tail::Nothing))
        }
        Body::Query { label } => finally(request, query(core, label)),
        Body::Vary { drive, setting } => {
            vary(core, drive, setting);
            finally(request, Verdict::done(Tail::Nothing))
        }
        _ => queue(core, request),
    }
}

/// Answers a request as read: by an acknowledge where it is queued, else by a final.
pub fn receive<R: Robot>(core: &mut Core<R>, request: Request) -> Answer
    ensures answer { said_by result ≡ (received request (library_of core.old)).said }
    ensures library { library_of core.new ≡ (received request (library_of core.old)).library }
{
    match check(core, request.body) {
        Err(why) => refuse(request, why),
        Ok(()) => accept(core, request),
    }
}
