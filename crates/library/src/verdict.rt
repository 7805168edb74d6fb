ghost use Rattle.library.specs.Verdicts.{done_with, moved_verdict, refused_by, shown_by, told_state, verdict_of};
ghost use Rattle.library.specs.States.{state_number};
ghost use Rattle.library.specs.Verdicts.Shown.{nothing};
ghost use Rattle.std.specs.Prelude.{◌≡◌};
ghost use Rattle.stock.specs.Refusals.{detail_of, status_of};

use crate::entries::Entries;
use crate::state::State;
use requests::Request;
use responses::Entry;
use statuses::Status;
use stock::refusal::Refusal;

/// What a final has behind its status.
#[derive(Clone, Copy)]
pub enum Tail {
    Nothing,
    One(Entry),
    Many(Entries),
    Inventory,
}

/// How a request ends, before its final is written.
#[derive(Clone, Copy)]
pub struct Verdict {
    pub status: Status,
    pub detail: Option<u8>,
    pub tail: Tail,
}

/// A final: the request that it ends, and how.
#[derive(Clone, Copy)]
pub struct Final {
    pub request: Request,
    pub verdict: Verdict,
}

/// Success, telling a state by its number.
pub fn told(state: u8) -> Verdict
    ensures { verdict_of result ≡ told_state state }
{
    Verdict {
        status: Status::Success,
        detail: Some(state),
        tail: Tail::Nothing,
    }
}

impl Verdict {
    /// Success.
    pub fn done(tail: Tail) -> Verdict
        ensures { verdict_of result ≡ done_with (shown_by tail) }
    {
        Verdict {
            status: Status::Success,
            detail: None,
            tail,
        }
    }

    /// Success, telling the server's state.
    pub fn told(state: State) -> Verdict
        ensures { verdict_of result ≡ told_state (state_number state) }
    {
        told(u8::from(state))
    }

    /// A refusal.
    pub fn refused(status: Status, detail: Option<u8>, tail: Tail) -> Verdict
        ensures { verdict_of result ≡ refused_by status detail (shown_by tail) }
    {
        Verdict {
            status,
            detail,
            tail,
        }
    }
}

/// A refusal of the robot or of the stock.
impl From<Refusal> for Verdict {
    ghost from_gives = { λ why verdict. verdict_of verdict ≡ refused_by (status_of why) (detail_of why) nothing };

    fn from(why: Refusal) -> Verdict {
        Verdict::refused(Status::from(why), why.detail(), Tail::Nothing)
    }
}

/// The end of a request that moved one cartridge, or did not.
impl From<Result<Entry, Refusal>> for Verdict {
    ghost from_gives = { λ res verdict. verdict_of verdict ≡ moved_verdict res };

    fn from(res: Result<Entry, Refusal>) -> Verdict {
        match res {
            Ok(entry) => Verdict::done(Tail::One(entry)),
            Err(why) => Verdict::from(why),
        }
    }
}
