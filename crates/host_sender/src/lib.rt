// A camera of our own for a C host: a sender as two words that the caller keeps, one transfer a call.
#![tactic(auto)]

ghost use Rattle.std.specs.Prelude.{◌≡◌};
ghost use Rattle.sender.specs.Send.{new_sender};
ghost use Rattle.host_sender.specs.Words.{one_of, words_of, sender_in, stamp_in, sending_told, unsound_told, sent_told, words_left, room_left, next_told, next_left, worked_told, worked_words, worked_room};

use sender::{Sender, Sending};
use session_rules::Stamp;

// The FID, 0 or 1; and how many bytes of the frame are sent.
type Words = [u64; 2];

// The number of a refusal, and the bytes of the transfer that stands in the room; 0 after the last.
#[repr(C)]
#[derive(Drop)]
pub struct SentTold {
    pub number: u32,
    pub zero: u32,
    pub length: usize,
}

// A fresh sender: its first frame has FID 0.
#[unsafe(no_mangle)]
pub extern "C" fn palkodhen_send_open(w: &mut [u64; 2])
    ensures { w.new ≡ words_of new_sender }
{
    put(w, Sender::new());
}

// Goes on to the next frame, which has the other FID: 0, or unknown for words that no sender has, which stay.
#[unsafe(no_mangle)]
pub extern "C" fn palkodhen_send_next(w: &mut [u64; 2]) -> u32
    ensures value { result ≡ next_told w.old }
    ensures w_after { w.new ≡ next_left w.old }
{
    if 1 < w[0] {
        return host_told::UNKNOWN;
    }
    let x = sender_in(w);
    put(w, x.next());
    0
}

// Writes the frame's next transfer into the room; the stamp is the frame's, if `stamped` is not 0. A refusal changes nothing; unknown: words that no sender has.
#[unsafe(no_mangle)]
pub extern "C" fn palkodhen_send(
    w: &mut [u64; 2],
    frame: &[u8],
    payload: usize,
    stamped: u8,
    stamp: u32,
    room: &mut [u8],
) -> SentTold
    ensures value { result ≡ sent_told w.old frame.now payload (stamp_in stamped stamp) room.old }
    ensures w_after { w.new ≡ words_left w.old frame.now payload (stamp_in stamped stamp) room.old }
    ensures room_after { room.new ≡ room_left w.old frame.now payload (stamp_in stamped stamp) room.old }
{
    if 1 < w[0] {
        return unsound();
    }
    let s = stamp_in(stamped, stamp);
    work(w, frame, payload, s, room)
}

// The same, of a sender's words.
fn work(w: &mut [u64; 2], frame: &[u8], payload: usize, s: Stamp, room: &mut [u8]) -> SentTold
    ensures value { result ≡ worked_told w.old frame.now payload s room.old }
    ensures w_after { w.new ≡ worked_words w.old frame.now payload s room.old }
    ensures room_after { room.new ≡ worked_room w.old frame.now payload s room.old }
{
    let x = sender_in(w);
    let sent = x.send(frame, payload, s, room);
    let next = sent.sender;
    let sending = sent.sending;
    put(w, next);
    tell(sending)
}

fn tell(sending: Sending) -> SentTold
    ensures { result ≡ sending_told sending }
{
    match sending {
        Sending::Refused(n) => SentTold {
            number: n as u32,
            zero: 0,
            length: 0,
        },
        Sending::Done => SentTold {
            number: 0,
            zero: 0,
            length: 0,
        },
        Sending::Wrote(n) => SentTold {
            number: 0,
            zero: 0,
            length: n,
        },
    }
}

fn unsound() -> SentTold
    ensures { result ≡ unsound_told }
{
    SentTold {
        number: host_told::UNKNOWN,
        zero: 0,
        length: 0,
    }
}

fn stamp_in(stamped: u8, stamp: u32) -> Stamp
    ensures { result ≡ stamp_in stamped stamp }
{
    if stamped == 0 {
        return None;
    }
    Some(stamp)
}

fn sender_in(w: &Words) -> Sender
    ensures { result ≡ sender_in w.now }
{
    Sender {
        fid: w[0] == 1,
        at: w[1] as usize,
    }
}

fn put(w: &mut Words, x: Sender)
    ensures { w.new ≡ words_of x }
{
    *w = [one(x.fid), x.at as u64];
}

fn one(b: bool) -> u64
    ensures { result ≡ one_of b }
{
    if b { 1 } else { 0 }
}
