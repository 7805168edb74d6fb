//! Marks of requests, and conditions on them.

ghost use Rattle.library.specs.Marks.{aborted, cancelled, cancels, may_cancel, names_drive};
ghost use Rattle.std.specs.Prelude.{◌≡◌};

use requests::{Body, Mark, Request};

/// Whether the request is a mount or a dismount that names this drive.
pub fn names_drive(drive: u8, body: Body) -> bool
    ensures { result ≡ names_drive drive body }
{
    match body {
        Body::Mount { drive: named, .. } | Body::Dismount { drive: named, .. } => named == drive,
        _ => false,
    }
}

fn may_cancel(body: Body) -> bool
    ensures { result ≡ may_cancel body }
{
    match body {
        Body::Eject { .. } | Body::Enter => true,
        _ => false,
    }
}

/// Whether a cancel of this number marks the request.
pub fn cancels(target: u16, q: Request) -> bool
    ensures { result ≡ cancels target q }
{
    q.number == target && q.mark == Mark::Unmarked && may_cancel(q.body)
}

/// The request as a cancel of this number leaves it.
pub fn cancelled(target: u16, q: Request) -> Request
    ensures { result ≡ cancelled target q }
{
    if cancels(target, q) {
        Request {
            mark: Mark::Cancelled,
            ..q
        }
    } else {
        q
    }
}

/// The request as a forced idle leaves it: marked aborted, unless it is marked already.
pub fn aborted(q: Request) -> Request
    ensures { result ≡ aborted q }
{
    match q.mark {
        Mark::Unmarked => Request {
            mark: Mark::Aborted,
            ..q
        },
        Mark::Cancelled | Mark::Aborted => q,
    }
}
