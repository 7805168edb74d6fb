//! What a step makes of an unmarked request.

ghost use Rattle.labels.specs.Numbers.{number_of};
ghost use Rattle.library.specs.Turns.{course_of, going_of};
ghost use Rattle.robot_moves.specs.Search.{next_full_port};
ghost use Rattle.steps.specs.Turning.{begun, ended_at_once, enter_on, entering, gone_on, idling, quietly, start_on, start_taken};
ghost use Rattle.stock.specs.Starts.{begun as startBegun};
ghost use Rattle.std.specs.Prelude.{◌≡◌};

use library::entries::Entries;
use library::message::Notice;
use library::state::State;
use library::turn::{Goes, Progress, Turn};
use library::verdict::{Tail, Verdict};
use requests::Body;
use robots::robot::Robot;
use stock::stock::Stock;

/// Nothing is told, and the state stays.
pub fn quiet(state: State, goes: Goes) -> Turn
    ensures { course_of result ≡ quietly state (going_of goes) }
{
    Turn {
        state,
        notice: None,
        goes,
    }
}

/// What is never queued ends at once.
fn at_once(state: State) -> Turn
    ensures { course_of result ≡ ended_at_once state }
{
    quiet(state, Goes::Ends(Verdict::done(Tail::Nothing)))
}

/// The taking step of an enter only takes, and asks the operator for cartridges.
fn take_enter(state: State) -> Turn
    ensures { course_of result ≡ entering state }
{
    Turn {
        state,
        notice: Some(Notice::Input),
        goes: Goes::Stays(Progress::start()),
    }
}

/// The step of an idle.
fn become_idle() -> Turn
    ensures { course_of result ≡ idling }
{
    Turn {
        state: State::Idle,
        notice: Some(Notice::Idle),
        goes: Goes::Ends(Verdict::done(Tail::Nothing)),
    }
}

/// An enter treats the next full port place, or ends where none is left.
fn go_on_entering<R: Robot>(stock: &mut Stock<R>, state: State, progress: Progress) -> Turn
    ensures turn { course_of result ≡ (enter_on (next_full_port stock.old.robot progress.next) stock.old state progress.entries).course }
    ensures stock { stock.new ≡ (enter_on (next_full_port stock.old.robot progress.next) stock.old state progress.entries).stock }
{
    let Progress { next, entries } = progress;
    let Some(place) = stock.full_port(next) else {
        return quiet(state, Goes::Ends(Verdict::done(Tail::Many(entries))));
    };
    let entry = stock.enter(place);
    let progress = Progress {
        next: place + 1,
        entries: entries.with(entry),
    };
    quiet(state, Goes::Stays(progress))
}

/// The taking step of a start refuses a bad make-up, empties the catalogue, and sets down what the hand holds.
fn take_start<R: Robot>(stock: &mut Stock<R>, state: State) -> Turn
    ensures turn { course_of result ≡ (start_taken (startBegun stock.old) state).course }
    ensures stock { stock.new ≡ (start_taken (startBegun stock.old) state).stock }
{
    match stock.begin() {
        Ok(()) => quiet(state, Goes::Stays(Progress::start())),
        Err(why) => quiet(State::Idle, Goes::Ends(Verdict::from(why))),
    }
}

/// A start reads one place; the last one ends it.
fn go_on_reading<R: Robot>(stock: &mut Stock<R>, state: State, progress: Progress) -> Turn
    ensures turn { course_of result ≡ (start_on stock.old state progress.next progress.entries).course }
    ensures stock { stock.new ≡ (start_on stock.old state progress.next progress.entries).stock }
{
    let Progress { next, entries } = progress;
    stock.read(next);
    if u32::from(next) + 1 < u32::from(stock.places()) {
        let progress = Progress {
            next: next + 1,
            entries,
        };
        quiet(state, Goes::Stays(progress))
    } else {
        quiet(State::Run, Goes::Ends(Verdict::done(Tail::Inventory)))
    }
}

/// The taking step.
pub fn begin<R: Robot>(stock: &mut Stock<R>, state: State, body: Body) -> Turn
    ensures turn { course_of result ≡ (begun body stock.old state).course }
    ensures stock { stock.new ≡ (begun body stock.old state).stock }
{
    match body {
        Body::Mount { label, drive } => {
            let result = stock.mount(label.number(), u16::from(drive));
            quiet(state, Goes::Ends(Verdict::from(result)))
        }
        Body::Dismount {
            label,
            drive,
            force,
        } => {
            let result = stock.dismount(label.number(), force, u16::from(drive));
            quiet(state, Goes::Ends(Verdict::from(result)))
        }
        Body::Eject { label } => {
            let result = stock.eject(label.number());
            quiet(state, Goes::Ends(Verdict::from(result)))
        }
        Body::Enter => take_enter(state),
        Body::Start => take_start(stock, state),
        Body::Idle { .. } => become_idle(),
        Body::Cancel { .. } | Body::Query { .. } | Body::Vary { .. } => at_once(state),
    }
}

/// A later step.
pub fn go_on<R: Robot>(stock: &mut Stock<R>, state: State, body: Body, progress: Progress) -> Turn
    ensures turn { course_of result ≡ (gone_on body stock.old state progress.next progress.entries).course }
    ensures stock { stock.new ≡ (gone_on body stock.old state progress.next progress.entries).stock }
{
    match body {
        Body::Enter => go_on_entering(stock, state, progress),
        Body::Start => go_on_reading(stock, state, progress),
        _ => at_once(state),
    }
}
