//! A packet read as a request.

ghost use Rattle.requests.specs.Lengths.{LengthTold};
ghost use Rattle.requests.specs.Reading.{answered, judged, request_in};
ghost use Rattle.requests.specs.RoundTrips.{WritesBack};
ghost use Rattle.std.specs.Prelude.{◌≡◌, IfOk};

use crate::bodies::Request;
use crate::checking::check_fields;
use crate::refusals::{BadPacket, Cause};
use crate::taking::{Taken, take_fields};

/// The request of a packet taken apart, or the cause of its refusal.
fn judge(taken: Taken) -> Result<Request, Cause>
    ensures { result ≡ judged taken }
{
    check_fields(taken.whole()?)
}

/// The answer to a packet taken apart. A refusal tells what could be read.
fn answer(taken: Taken) -> Result<Request, BadPacket>
    ensures { result ≡ answered taken }
{
    judge(taken).map_err(|cause| BadPacket {
        cause,
        number: taken.fields.number,
        command: taken.fields.command,
    })
}

/// Reads a packet as a request, or says why it is none.
pub fn read(packet: &[u8]) -> Result<Request, BadPacket>
    ensures answer { result ≡ request_in packet.now }
    ensures writes { IfOk result (λ q. WritesBack q packet.now) }
    ensures lengths { LengthTold packet.now result }
{
    answer(take_fields(packet))
}
