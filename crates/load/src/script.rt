//! Scripts: calls as bytes, one behind the other.

ghost use Rattle.std.specs.Prelude.{◌<◌, ◌≤◌, length, IfSome};
ghost use Rattle.std.specs.Iterator.{at_most};

/// A call of a script.
#[derive(Clone, Copy, PartialEq, Eq, Debug)]
pub enum Call<'a> {
    /// The packet is received.
    Receive(&'a [u8]),
    /// The packet is received; if it is acknowledged, steps follow until one writes.
    Ask(&'a [u8]),
    /// So many steps.
    Steps(u8),
    Put(u8, u32),
    Take(u8),
    Service(u8, bool),
}

const STEPS: u8 = 0x40;

const PUT: u8 = 0x41;

const TAKE: u8 = 0x42;

const SERVICE: u8 = 0x43;

/// The packet that a code below 40 stands before: its low five bits are the length, and bit 5 says that it is asked.
#[inline]
fn packet_call(code: u8, rest: &[u8]) -> Option<(Call<'_>, &[u8])>
    ensures { IfSome result (λ p. length p.1.now ≤ length rest.now) }
{
    let length = usize::from(code % 32);
    if code >= STEPS || rest.len() < length {
        return None;
    }
    let packet = &rest[0..length];
    let call = if code < 32 {
        Call::Receive(packet)
    } else {
        Call::Ask(packet)
    };
    Some((call, &rest[length..]))
}

/// The first call of a script, and what stands behind it.
#[inline]
fn next_call(script: &[u8]) -> Option<(Call<'_>, &[u8])>
    ensures { IfSome result (λ p. length p.1.now < length script.now) }
{
    match script {
        [STEPS, count, rest @ ..] => Some((Call::Steps(*count), rest)),
        [PUT, place, a, b, c, d, rest @ ..] => {
            Some((
                Call::Put(*place, u32::from_be_bytes([*a, *b, *c, *d])),
                rest,
            ))
        }
        [TAKE, place, rest @ ..] => Some((Call::Take(*place), rest)),
        [SERVICE, place, on, rest @ ..] => Some((Call::Service(*place, *on == 1), rest)),
        [code, rest @ ..] => packet_call(*code, rest),
        [] => None,
    }
}

/// The calls of a script, up to the first bytes that are none.
#[derive(Drop)]
pub struct Calls<'a> {
    script: &'a [u8],
}

impl<'a> Calls<'a> {
    pub fn new(script: &'a [u8]) -> Calls<'a> {
        Calls { script }
    }
}

impl<'a> Iterator for Calls<'a> {
    type Item = Call<'a>;

    ghost remaining = { λ calls. at_most (length calls.script.now) };

    #[inline]
    fn next(&mut self) -> Option<Call<'a>> {
        let (call, rest) = next_call(self.script)?;
        self.script = rest;
        Some(call)
    }
}
