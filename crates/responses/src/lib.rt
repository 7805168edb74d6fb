//! Response packets: what a response tells, how it is written into the front of a buffer, and how
//! it is read again.

#![tactic(auto)]

ghost use Rattle.responses.specs.Reading.{kind_named, told_in};
ghost use Rattle.responses.specs.Responses.{kind_number, refused_by, told};
ghost use Rattle.std.specs.Prelude.{◌≡◌, Some, None};

mod cartridges;
mod entries;
mod examples;
mod inventories;
mod items;
mod known;
mod reading;
mod writing;

pub use examples::worked_responses;
pub use reading::read;
use statuses::Status;
pub use writing::Unwritable;

/// Every response finds room in a buffer of so many bytes.
pub const ENOUGH_BYTES: usize = 2_048;

/// The most entries that a response has.
pub const MOST_ENTRIES: usize = 21;

/// The most places that an inventory has.
pub const MOST_PLACES: usize = 256;

/// Whether a request was only taken, or is answered for good.
#[derive(Clone, Copy, PartialEq, Eq, Debug)]
pub enum ResponseKind {
    Acknowledge,
    Final,
}

/// The number that stands for the kind in a response.
impl From<ResponseKind> for u8 {
    ghost from_gives = { λ kind code. code ≡ kind_number kind };

    fn from(kind: ResponseKind) -> u8 {
        match kind {
            ResponseKind::Acknowledge => 1,
            ResponseKind::Final => 3,
        }
    }
}

/// A number that stands for no kind.
#[derive(Clone, Copy, PartialEq, Eq, Debug)]
pub struct UnknownKind {
    pub code: u8,
}

/// The kind that the number stands for.
impl TryFrom<u8> for ResponseKind {
    type Error = UnknownKind;

    ghost try_from_gives = { λ code res. res ≡ kind_named code };

    fn try_from(code: u8) -> Result<ResponseKind, UnknownKind> {
        match code {
            1 => Ok(ResponseKind::Acknowledge),
            3 => Ok(ResponseKind::Final),
            _ => Err(UnknownKind { code }),
        }
    }
}

/// What became of one cartridge. The default is a blank one, for memory that is not used yet.
#[derive(Clone, Copy, PartialEq, Eq, Debug, Default)]
pub struct Entry {
    pub cartridge: u32,
    pub from: u8,
    pub to: u8,
    pub status: Status,
}

/// What a response tells before its lists. The layer is no field, since it follows from the status.
#[derive(Clone, Copy, PartialEq, Eq, Debug)]
pub struct Head {
    pub number: Option<u16>,
    pub command: Option<u8>,
    pub kind: ResponseKind,
    pub status: Status,
    pub detail: Option<u8>,
}

/// A response. The inventory has a cartridge number for each place, 0 where there is none.
#[derive(Clone, Copy, PartialEq, Eq, Debug)]
pub struct Response<'a> {
    pub head: Head,
    pub entries: Option<&'a [Entry]>,
    pub inventory: Option<&'a [u32]>,
}

impl<'a> Response<'a> {
    /// A response without entries and inventory.
    pub fn plain(head: Head) -> Response<'static>
        ensures { told result ≡ told_in head None None }
    {
        Response {
            head,
            entries: None,
            inventory: None,
        }
    }

    /// A final that refuses, with the detail where the status has one.
    pub fn refusal(
        number: Option<u16>,
        command: Option<u8>,
        status: Status,
        detail: u8,
    ) -> Response<'static>
        ensures { told result ≡ refused_by number command status detail }
    {
        Response::plain(Head {
            number,
            command,
            kind: ResponseKind::Final,
            status,
            detail: status.has_detail().then_some(detail),
        })
    }

    /// A response with entries.
    pub fn with_entries(head: Head, entries: &'a [Entry]) -> Response<'a>
        ensures { told result ≡ told_in head (Some entries.now) None }
    {
        Response {
            entries: Some(entries),
            ..Response::plain(head)
        }
    }

    /// A response with an inventory.
    pub fn with_inventory(head: Head, inventory: &'a [u32]) -> Response<'a>
        ensures { told result ≡ told_in head None (Some inventory.now) }
    {
        Response {
            inventory: Some(inventory),
            ..Response::plain(head)
        }
    }
}
