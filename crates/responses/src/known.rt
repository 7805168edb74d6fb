//! A status by its number.

ghost use Rattle.statuses.specs.Statuses.{status_of};
ghost use Rattle.std.specs.Prelude.{◌≡◌};

use statuses::Status;

/// The status that the number stands for, if one does.
pub(crate) fn known_status(code: u8) -> Option<Status>
    ensures { result ≡ status_of code }
{
    Status::try_from(code).ok()
}
