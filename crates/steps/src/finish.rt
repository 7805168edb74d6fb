//! What a turn leaves in the library.

ghost use Rattle.library.specs.Changes.{with_drives};
ghost use Rattle.library.specs.Cores.{library_of};
ghost use Rattle.library.specs.Finals.{final_in};
ghost use Rattle.library.specs.Turns.{course_of};
ghost use Rattle.ring.specs.Queue.{records};
ghost use Rattle.steps.specs.Stepping.{closing_notice, drive_answered, drive_answered_at, finished};
ghost use Rattle.std.specs.Prelude.{◌≡◌};

use library::cores::{Core, Work};
use library::drive::DriveEvent;
use library::message::Notice;
use library::turn::{Goes, Turn};
use library::verdict::Final;
use requests::{Body, Request};
use robots::robot::Robot;

/// Tells the drive that a request which names it is answered.
fn tell_drive<R: Robot>(core: &mut Core<R>, drive: u8)
    ensures { library_of core.new ≡ with_drives (drive_answered_at drive (records core.old.waiting) core.old.drives) (library_of core.old) }
{
    let named = core.is_named(drive);
    core.turn_drive(drive, DriveEvent::Answered(named));
}

/// Tells the drive that an answered mount or dismount names.
fn answer_drive<R: Robot>(core: &mut Core<R>, body: Body)
    ensures { library_of core.new ≡ with_drives (drive_answered body (records core.old.waiting) core.old.drives) (library_of core.old) }
{
    match body {
        Body::Mount { drive, .. } | Body::Dismount { drive, .. } => tell_drive(core, drive),
        _ => {}
    }
}

/// A final of an enter asks for what is left in the port to be removed.
fn closing_notice<R: Robot>(core: &Core<R>, body: Body, notice: Option<Notice>) -> Option<Notice>
    ensures { result ≡ closing_notice body core.now.stock.robot notice }
{
    match body {
        Body::Enter => core.stock.full_port(0).map(|_| Notice::Remove),
        _ => notice,
    }
}

/// The request stays at work, or is answered.
pub fn finish<R: Robot>(core: &mut Core<R>, request: Request, turn: Turn) -> Option<Final>
    ensures answer { final_in result ≡ (finished (library_of core.old) (records core.old.waiting) request (record { stock = core.old.stock; course = course_of turn })).final }
    ensures library { library_of core.new ≡ (finished (library_of core.old) (records core.old.waiting) request (record { stock = core.old.stock; course = course_of turn })).library }
{
    let Turn {
        state,
        notice,
        goes,
    } = turn;
    core.state = state;
    match goes {
        Goes::Stays(progress) => {
            core.work = Some(Work { request, progress });
            core.post(notice, request.number);
            None
        }
        Goes::Ends(verdict) => {
            core.work = None;
            answer_drive(core, request.body);
            let notice = closing_notice(core, request.body, notice);
            core.post(notice, request.number);
            Some(Final { request, verdict })
        }
    }
}
