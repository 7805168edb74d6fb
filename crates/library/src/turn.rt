ghost use Rattle.std.specs.Prelude.{◌≡◌, []};

use crate::entries::Entries;
use crate::message::Notice;
use crate::state::State;
use crate::verdict::Verdict;

/// How far a request at work has come: the next place that it treats, and its entries so far.
#[derive(Clone, Copy)]
pub struct Progress {
    pub next: u16,
    pub entries: Entries,
}

impl Progress {
    /// How far a request has come that was only taken.
    pub fn start() -> Progress
        ensures next { result.next ≡ 0 }
        ensures entries { result.entries ≡ [] }
    {
        Progress {
            next: 0,
            entries: Entries::new(),
        }
    }
}

/// Whether a request stays at work or ends. No `Result`: neither is a failure.
#[derive(Clone, Copy)]
pub enum Goes {
    /// It goes on from here.
    Stays(Progress),
    /// It gets its final.
    Ends(Verdict),
}

/// What one step makes of a request, beside what it does to robot and catalogue.
#[derive(Clone, Copy)]
pub struct Turn {
    pub state: State,
    pub notice: Option<Notice>,
    pub goes: Goes,
}
