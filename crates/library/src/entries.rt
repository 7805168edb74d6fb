ghost use Rattle.library.specs.Entering.{Rows, blank_after, count_back, entries_more, rows_back};
ghost use Rattle.responses.specs.declared.Entry.{Entry};
ghost use Rattle.std.specs.Prelude.{◌≡◌, ◌≤◌, ◌++◌, List, [], length, take};

use responses::{Entry, MOST_ENTRIES};
use statuses::Status;
use std::marker::Model;

/// What a row has that no entry is in.
const BLANK: Entry = Entry {
    cartridge: 0,
    from: 0,
    to: 0,
    status: Status::Success,
};

/// The entries of an enter, at most one for each of 21 port places, in memory of their own.
// No `ArrayVec`, which is not `Copy`.
#[derive(Clone, Copy)]
pub struct Entries {
    rows: [Entry; MOST_ENTRIES],
    count: usize,
}

/// Clauses see the list of entries. The rows behind it are blank, so that the list tells the rows.
impl Model for Entries {
    ghost Value = { List Entry };

    ghost view = { λ e. take e.count e.rows };

    ghost invariant = { λ e. Rows e.rows e.count };

    ghost inverse = { λ es. record { rows = es ++ blank_after es; count = length es } };

    ghost inverse_ok = { λ e h i. record { rows = rows_back e.rows e.count h i; count = count_back e.rows e.count h i } };
}

impl Entries {
    pub fn new() -> Entries
        ensures { result ≡ [] }
    {
        Entries {
            rows: [BLANK; MOST_ENTRIES],
            count: 0,
        }
    }

    /// The entries with one more behind them, if there is room.
    pub fn with(self, entry: Entry) -> Entries
        ensures { result ≡ entries_more entry self }
    {
        let Entries { mut rows, count } = self;
        if count >= MOST_ENTRIES {
            return Entries { rows, count };
        }
        rows[count] = entry;
        Entries {
            rows,
            count: count + 1,
        }
    }

    pub fn as_slice(&self) -> &[Entry]
        ensures value { result.now ≡ self.now }
        ensures few { length result.now ≤ 21 }
    {
        &self.rows[0..self.count]
    }
}
