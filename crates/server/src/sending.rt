//! Responses written into the caller's buffer.

ghost use Rattle.std.specs.Prelude.{◌≡◌, ◌≤◌};
ghost use Rattle.library.specs.Finals.{final_of};
ghost use Rattle.receipt.specs.Accepting.{said_by};
ghost use Rattle.responses.specs.Responses.{told};
ghost use Rattle.responses.specs.Writing.{left};
ghost use Rattle.server.specs.Answers.{acknowledge_told, bad_told, final_told, length_in, said_told};

use library::cores::Core;
use library::verdict::{Final, Tail};
use receipt::receive::Answer;
use requests::{BadPacket, Request};
use responses::{Head, Response, ResponseKind};
use robots::robot::Robot;
use statuses::Status;

/// A response that was written; none is longer than 2,048 bytes.
#[derive(Clone, Copy)]
pub struct Sent {
    pub length: usize,
    ghost bound: { length ≤ 2048 },
}

/// Writes the response, and tells its length.
fn send(response: &Response, buffer: &mut [u8]) -> Sent
    ensures length { result.length ≡ length_in buffer.old (told response.now) }
    ensures after { buffer.new ≡ left (told response.now) buffer.old }
{
    Sent {
        length: response.write(buffer).unwrap_or(0),
    }
}

/// Writes the final that refuses a packet.
pub fn send_bad_packet(bad: BadPacket, buffer: &mut [u8]) -> Sent
    ensures length { result.length ≡ length_in buffer.old (bad_told bad) }
    ensures after { buffer.new ≡ left (bad_told bad) buffer.old }
{
    let head = Head {
        number: bad.number,
        command: bad.command,
        kind: ResponseKind::Final,
        status: Status::from(bad.cause),
        detail: bad.cause.detail(),
    };
    send(&Response::plain(head), buffer)
}

fn send_acknowledge(request: Request, buffer: &mut [u8]) -> Sent
    ensures length { result.length ≡ length_in buffer.old (acknowledge_told request) }
    ensures after { buffer.new ≡ left (acknowledge_told request) buffer.old }
{
    let head = Head {
        number: Some(request.number),
        command: Some(u8::from(request.body.command())),
        kind: ResponseKind::Acknowledge,
        status: Status::Success,
        detail: None,
    };
    send(&Response::plain(head), buffer)
}

/// Writes a final; an inventory is asked of the robot now.
pub fn send_final<R: Robot>(core: &Core<R>, ended: &Final, buffer: &mut [u8]) -> Sent
    ensures length { result.length ≡ length_in buffer.old (final_told (final_of ended.now) core.now.stock.robot) }
    ensures after { buffer.new ≡ left (final_told (final_of ended.now) core.now.stock.robot) buffer.old }
{
    let head = Head {
        number: Some(ended.request.number),
        command: Some(u8::from(ended.request.body.command())),
        kind: ResponseKind::Final,
        status: ended.verdict.status,
        detail: ended.verdict.detail,
    };
    match &ended.verdict.tail {
        Tail::Nothing => send(&Response::plain(head), buffer),
        Tail::One(entry) => send(&Response::with_entries(head, &[*entry]), buffer),
        Tail::Many(entries) => send(&Response::with_entries(head, entries.as_slice()), buffer),
        Tail::Inventory => {
            let places = core.stock.inventory();
            send(&Response::with_inventory(head, &places), buffer)
        }
    }
}

/// Writes what a received request is answered.
pub fn send_answer<R: Robot>(core: &Core<R>, answer: &Answer, buffer: &mut [u8]) -> Sent
    ensures length { result.length ≡ length_in buffer.old (said_told (said_by answer.now) core.now.stock.robot) }
    ensures after { buffer.new ≡ left (said_told (said_by answer.now) core.now.stock.robot) buffer.old }
{
    match answer {
        Answer::Acknowledge(request) => send_acknowledge(*request, buffer),
        Answer::Final(ended) => send_final(core, ended, buffer),
    }
}
