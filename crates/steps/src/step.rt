//! One step.

ghost use Rattle.library.specs.Cores.{library_of};
ghost use Rattle.library.specs.Finals.{final_in};
ghost use Rattle.library.specs.Turns.{course_of};
ghost use Rattle.ring.specs.Queue.{records};
ghost use Rattle.std.specs.Prelude.{◌≡◌, [], Some, None};
ghost use Rattle.steps.specs.Stepping.{stepped, stepped_by};
ghost use Rattle.steps.specs.Turning.{continued, taken};

use crate::finish::finish;
use crate::marked::end_marked;
use crate::turns::{begin, go_on};
use library::cores::Core;
use library::entries::Entries;
use library::state::State;
use library::turn::{Progress, Turn};
use library::verdict::Final;
use requests::{Mark, Request};
use robots::robot::Robot;
use statuses::Status;
use stock::stock::Stock;

/// A request at its turn; a marked one ends.
fn take<R: Robot>(stock: &mut Stock<R>, state: State, request: Request) -> Turn
    ensures turn { course_of result ≡ (taken request.mark request.body stock.old state).course }
    ensures stock { stock.new ≡ (taken request.mark request.body stock.old state).stock }
{
    match request.mark {
        Mark::Unmarked => begin(stock, state, request.body),
        Mark::Cancelled => end_marked(state, request.body, Entries::new(), Status::Cancelled, None),
        Mark::Aborted => end_marked(
            state,
            request.body,
            Entries::new(),
            Status::NotServed,
            Some(u8::from(state)),
        ),
    }
}

/// The request at work; a marked one ends.
fn go_on_with<R: Robot>(
    stock: &mut Stock<R>,
    state: State,
    request: Request,
    progress: Progress,
) -> Turn
    ensures turn { course_of result ≡ (continued request.mark request.body stock.old state progress.next progress.entries).course }
    ensures stock { stock.new ≡ (continued request.mark request.body stock.old state progress.next progress.entries).stock }
{
    match request.mark {
        Mark::Unmarked => go_on(stock, state, request.body, progress),
        Mark::Cancelled => end_marked(
            state,
            request.body,
            progress.entries,
            Status::Cancelled,
            None,
        ),
        Mark::Aborted => end_marked(
            state,
            request.body,
            progress.entries,
            Status::NotServed,
            Some(u8::from(state)),
        ),
    }
}

/// Takes the oldest request that waits, if there is one.
fn take_oldest<R: Robot>(core: &mut Core<R>) -> Option<Final>
    ensures answer { final_in result ≡ (stepped_by None (records core.old.waiting) (library_of core.old)).final }
    ensures library { library_of core.new ≡ (stepped_by None (records core.old.waiting) (library_of core.old)).library }
{
    let request = core.waiting.pop()?;
    let turn = take(&mut core.stock, core.state, request);
    finish(core, request, turn)
}

/// One step: goes on with the request at work, or takes the oldest. It answers where that ends a request.
pub fn step<R: Robot>(core: &mut Core<R>) -> Option<Final>
    ensures answer { final_in result ≡ (stepped (library_of core.old)).final }
    ensures library { library_of core.new ≡ (stepped (library_of core.old)).library }
{
    match core.work {
        Some(work) => {
            let turn = go_on_with(&mut core.stock, core.state, work.request, work.progress);
            finish(core, work.request, turn)
        }
        None => take_oldest(core),
    }
}
