ghost use Rattle.library.specs.Drives.{drive_after, is_online};
ghost use Rattle.std.specs.Prelude.{◌≡◌};

/// Whether a drive may be used.
#[derive(Clone, Copy, PartialEq, Eq, Debug)]
pub enum DriveState {
    Online,
    Offline,
    /// Offline once the last waiting mount or dismount that names the drive is answered.
    OfflinePending,
}

/// What happens to a drive; the flag says whether a waiting mount or dismount still names it.
#[derive(Clone, Copy, PartialEq, Eq, Debug)]
pub enum DriveEvent {
    ToOnline,
    ToOffline(bool),
    Answered(bool),
}

impl DriveState {
    /// Whether a mount or a dismount may name the drive.
    pub fn is_online(self) -> bool
        ensures { result ≡ is_online self }
    {
        self == DriveState::Online
    }

    /// The next state, which follows from the state and the event alone.
    pub fn turn(&mut self, event: DriveEvent)
        ensures { self.new ≡ drive_after self.old event }
    {
        *self = match (*self, event) {
            (_, DriveEvent::ToOnline) => DriveState::Online,
            (_, DriveEvent::ToOffline(true)) => DriveState::OfflinePending,
            (_, DriveEvent::ToOffline(false)) => DriveState::Offline,
            (DriveState::OfflinePending, DriveEvent::Answered(false)) => DriveState::Offline,
            (same, DriveEvent::Answered(_)) => same,
        };
    }
}
