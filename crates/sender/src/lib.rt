// A camera of our own: cuts frames into payload transfers, one a call, into a buffer that the caller lends.
#![tactic(auto)]

ghost use Rattle.session_rules.specs.Options.{Stamp};
ghost use Rattle.std.specs.Prelude.{◌≡◌, ◌++◌, ◌%◌, ◌<◌, ◌≤◌, min, length, drop, None, Some};
ghost use Rattle.rules.specs.Numbered.{first_row, kept};
ghost use Rattle.sizes.specs.Sizes.{payload_most};
ghost use Rattle.sender.specs.Header.{bit, size_of, written};
ghost use Rattle.sender.specs.Send.{new_sender, next_of, transfer_at, transfer_size, payload_broken, room_short, send_rows, wrote_of, send_of, room_of};
ghost use Rattle.sender.specs.Inner.{Ready};

use session_rules::Stamp;

// The bytes of a header, without a stamp and with one.
const SHORT: usize = 2;

const LONG: usize = 6;

// Which FID the frame has, and how many of its bytes are sent.
#[derive(Clone, Copy)]
pub struct Sender {
    pub fid: bool,
    pub at: usize,
}

#[derive(Clone, Copy)]
pub enum Sending {
    // 80, 81 or 82: the sender and the room are as they were.
    Refused(u8),
    // After the last transfer of the frame: nothing changes.
    Done,
    // The next transfer stands in the room's first bytes, so many.
    Wrote(usize),
}

// The sender after a call, and what it answers. (No Result: it is given back on a refusal too, as `refused-as-it-was` says.)
#[derive(Drop)]
pub struct Sent {
    pub sender: Sender,
    pub sending: Sending,
}

impl Sender {
    pub fn new() -> Sender
        ensures { result ≡ new_sender }
    {
        Sender { fid: false, at: 0 }
    }

    // Goes on to the next frame, which has the other FID.
    pub fn next(self) -> Sender
        ensures { result ≡ next_of self }
    {
        Sender {
            fid: !self.fid,
            at: 0,
        }
    }

    // Writes the frame's next transfer into the room. The stamp, or none, is that of the frame, and stands in every transfer.
    pub fn send(self, frame: &[u8], payload: usize, stamp: Stamp, room: &mut [u8]) -> Sent
        ensures value { result ≡ send_of self frame.now payload stamp (length room.old) }
        ensures room_after { room.new ≡ room_of self frame.now payload stamp room.old }
    {
        if let Err(number) = refusal(self.at, frame.len(), payload, stamp, room.len()) {
            return Sent {
                sender: self,
                sending: Sending::Refused(number),
            };
        }
        if frame.len() <= self.at {
            return Sent {
                sender: self,
                sending: Sending::Done,
            };
        }
        write(self, frame, payload, stamp, room)
    }
}

// The bytes of a header.
fn size_of(stamp: Stamp) -> usize
    ensures { result ≡ size_of stamp }
{
    match stamp {
        None => SHORT,
        Some(_) => LONG,
    }
}

// 80, 81, 82.
fn refusal(at: usize, n: usize, payload: usize, stamp: Stamp, room: usize) -> Result<(), u8>
    ensures { result ≡ kept (first_row (send_rows at n payload stamp room)) }
{
    if sizes::frame_size_broken(n) {
        return Err(80);
    }
    if payload_broken(payload, stamp) {
        return Err(81);
    }
    if room_short(at, n, payload, stamp, room) {
        return Err(82);
    }
    Ok(())
}

// 81: the payload size is not above the header, or over 65,536.
#[tactic(auto, unfolding(crate::specs::Send::payload_broken))]
fn payload_broken(payload: usize, stamp: Stamp) -> bool
    ensures { result ≡ payload_broken payload stamp }
{
    payload <= size_of(stamp) || sizes::PAYLOAD_MOST < payload
}

// 82: there is a next transfer, and the room is under it.
fn room_short(at: usize, n: usize, payload: usize, stamp: Stamp, room: usize) -> bool
    requires { (size_of stamp < payload) × (payload ≤ payload_most) }
    ensures { result ≡ room_short at n payload stamp room }
{
    if n <= at {
        return false;
    }
    let header = size_of(stamp);
    room < header + (payload - header).min(n - at)
}

// Inner: a transfer that nothing refuses.
fn write(x: Sender, frame: &[u8], payload: usize, stamp: Stamp, room: &mut [u8]) -> Sent
    requires { Ready x (length frame.now) payload stamp (length room.old) }
    ensures value { result ≡ wrote_of x (length frame.now) payload stamp }
    ensures room_after { room.new ≡ transfer_at payload x.fid stamp frame.now x.at ++ drop (transfer_size payload stamp (length frame.now) x.at) room.old }
{
    let at = x.at;
    let end = frame.len();
    let header = size_of(stamp);
    let n = (payload - header).min(end - at);
    let to = at + n;
    write_header(x.fid, to == end, stamp, room);
    copier::put(room, header, &frame[at..to]);
    Sent {
        sender: Sender { fid: x.fid, at: to },
        sending: Sending::Wrote(header + n),
    }
}

// Inner: the header into the room's first bytes; no other changes.
fn write_header(fid: bool, eof: bool, stamp: Stamp, room: &mut [u8])
    requires { size_of stamp ≤ length room.old }
    ensures { room.new ≡ written fid eof stamp ++ drop (size_of stamp) room.old }
{
    match stamp {
        None => {
            let header = short_header(fid, eof);
            room[..SHORT].copy_from_slice(&header);
        }
        Some(ticks) => {
            let header = long_header(fid, eof, ticks);
            room[..LONG].copy_from_slice(&header);
        }
    }
}

// The flags: D7 always, D0 the FID, D1 on the last transfer; D2 with a stamp.
fn short_header(fid: bool, eof: bool) -> [u8; SHORT]
    ensures { result ≡ written fid eof None }
{
    [2, 128 + weight(fid, 1) + weight(eof, 2)]
}

fn long_header(fid: bool, eof: bool, ticks: u32) -> [u8; LONG]
    ensures { result ≡ written fid eof (Some ticks) }
{
    [
        6,
        132 + weight(fid, 1) + weight(eof, 2),
        byte(ticks),
        byte(ticks / 256),
        byte(ticks / 65536),
        byte(ticks / 16777216),
    ]
}

fn weight(set: bool, n: u8) -> u8
    ensures { (result ≡ bit set n) × (result ≤ n) }
{
    if set {
        return n;
    }
    0
}

// The low byte of a number.
fn byte(x: u32) -> u8
    ensures { result ≡ x % 256 }
{
    (x % 256) as u8
}
