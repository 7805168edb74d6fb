//! Fields that are there exactly where their bits stand.

ghost use Rattle.requests.specs.Taking.{Stands};

use crate::taking::Fields;

/// Fields each of which is there exactly where its bit stands in the map.
#[derive(Clone, Copy)]
pub(crate) struct Standing {
    pub(crate) fields: Fields,
    ghost stands: { Stands fields },
}
