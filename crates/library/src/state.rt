ghost use Rattle.library.specs.States.{state_number};
ghost use Rattle.std.specs.Prelude.{◌≡◌};

/// What the server serves, from everything to almost nothing.
#[derive(Clone, Copy, PartialEq, Eq, Debug)]
pub enum State {
    Run,
    IdlePending,
    Idle,
    Recovery,
}

/// The number that tells a state in a response.
impl From<State> for u8 {
    ghost from_gives = { λ state n. n ≡ state_number state };

    fn from(state: State) -> u8 {
        match state {
            State::Run => 1,
            State::IdlePending => 2,
            State::Idle => 3,
            State::Recovery => 4,
        }
    }
}
