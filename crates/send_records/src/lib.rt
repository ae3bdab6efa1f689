// The records of a camera of our own: a frame's next transfer as a long record.
#![tactic(auto)]

ghost use Rattle.std.specs.Prelude.{◌≡◌, ◌≤◌, length, take};
ghost use Rattle.long_records.specs.Long.{long_size, data_most};
ghost use Rattle.sender.specs.Send.{send_of, transfer_at};
ghost use Rattle.send_records.specs.Records.{is_wrote, size_in, record_in, out_if, out_by, later_of};

use sender::{Sender, Sending, Sent};
use session_rules::Stamp;

// Inner: the frame's next transfer, as a record of kind 0 at the front of `out`; `room` is lent to the sender.
pub fn next(
    x: Sender,
    frame: &[u8],
    payload: usize,
    stamp: Stamp,
    room: &mut [u8],
    out: &mut [u8],
) -> Sent
    requires { (length room.old ≡ data_most) × (long_size ≤ length out.old) }
    ensures value { result ≡ send_of x frame.now payload stamp data_most }
    ensures out_after { out.new ≡ out_by result.sending (transfer_at payload x.fid stamp frame.now x.at) out.old }
{
    let sent = x.send(frame, payload, stamp, room);
    let sending = sent.sending;
    record(is_wrote(sending), size_in(sending), room, out);
    sent
}

fn is_wrote(sending: Sending) -> bool
    ensures { result ≡ is_wrote sending }
{
    matches!(sending, Sending::Wrote(_))
}

fn size_in(sending: Sending) -> usize
    ensures { result ≡ size_in sending }
{
    match sending {
        Sending::Refused(_) => 0,
        Sending::Done => 0,
        Sending::Wrote(n) => n,
    }
}

// A record of kind 0 with the first `n` bytes of the room, if they were written.
fn record(written: bool, n: usize, room: &[u8], out: &mut [u8])
    requires { (n ≤ length room.now) × (length room.now ≡ data_most) × (long_size ≤ length out.old) }
    ensures { out.new ≡ out_if written (take n room.now) out.old }
{
    if written {
        full(&room[0..n], out);
    }
}

fn full(transfer: &[u8], out: &mut [u8])
    requires { (length transfer.now ≤ data_most) × (long_size ≤ length out.old) }
    ensures { out.new ≡ record_in transfer.now out.old }
{
    long_records::write(out, 0, 0, transfer);
}

// The stamp of the next frame, so many ticks after this one's.
pub fn later(stamp: u32, ticks: u32) -> u32
    ensures { result ≡ later_of ticks stamp }
{
    std::num::wrapping_add_u32(stamp, ticks)
}
