//! The end of a marked request.

ghost use Rattle.library.specs.Turns.Going.{ends};
ghost use Rattle.library.specs.Turns.{course_of};
ghost use Rattle.library.specs.Verdicts.{refused_by, shown_by};
ghost use Rattle.steps.specs.Turning.{quietly, shown_marked};
ghost use Rattle.std.specs.Prelude.{◌≡◌};

use crate::turns::quiet;
use library::entries::Entries;
use library::state::State;
use library::turn::{Goes, Turn};
use library::verdict::{Tail, Verdict};
use requests::Body;
use statuses::Status;

/// Every final of an enter has its entries.
fn tail(body: Body, entries: Entries) -> Tail
    ensures { shown_by result ≡ shown_marked body entries }
{
    match body {
        Body::Enter => Tail::Many(entries),
        _ => Tail::Nothing,
    }
}

/// The request ends by this status.
pub fn end_marked(
    state: State,
    body: Body,
    entries: Entries,
    status: Status,
    detail: Option<u8>,
) -> Turn
    ensures { course_of result ≡ quietly state (ends (refused_by status detail (shown_marked body entries))) }
{
    let verdict = Verdict::refused(status, detail, tail(body, entries));
    quiet(state, Goes::Ends(verdict))
}
