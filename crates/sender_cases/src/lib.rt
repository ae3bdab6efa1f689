// Case Y: a sender with its receiver. For each frame the transfers that are sent and what the receiver answers to each, up to a refusal or to the call after
// the last, which is made twice; then the sender. At the end what is left of the receiver, as in case E.
#![tactic(auto)]

use call_cases::calls::Next;
use call_cases::{calls, forged};
use cases::{input, print};
use sender::{Sender, Sending};
use session_rules::{Session, Stamp};
use sizes::Opening;

// Both ends after some calls.
#[derive(Drop)]
struct Ends {
    sender: Sender,
    session: Session,
}

// The same; Err where the input could not be read, or the sender does not end.
type Both = Result<Ends, Ends>;

// Both ends after one `send`, and how often the sender said that it is after the last, or 2 where it refused.
#[derive(Drop)]
struct After {
    sender: Sender,
    session: Session,
    over: u8,
}

pub fn run() -> bool {
    let opening = calls::opening();
    let buffer = input::word();
    let payload = input::word() as usize;
    let room = input::word();
    let frames = input::word();
    open(opening, buffer, payload, room, frames)
}

// The receiver's room and the one that is lent to the sender, of these lengths.
fn open(opening: Opening, n: u32, payload: usize, m: u32, frames: u32) -> bool {
    let mut buffer = [0u8; 70000];
    let mut room = [0u8; 65600];
    let k = io::count(n as isize, &buffer);
    let l = io::count(m as isize, &room);
    if k != n as usize {
        print::text(b"part too long\n");
        return false;
    }
    if l != m as usize {
        print::text(b"part too long\n");
        return false;
    }
    follow(opening, payload, frames, &mut buffer[..k], &mut room[..l])
}

fn follow(
    opening: Opening,
    payload: usize,
    frames: u32,
    buffer: &mut [u8],
    room: &mut [u8],
) -> bool {
    let session = calls::open(opening, buffer);
    let mut bytes = [0u8; 70000];
    let last = all(session, payload, frames, buffer, room, &mut bytes);
    calls::finish(last, buffer, true)
}

// So many frames, one after the other.
fn all(
    s: Session,
    payload: usize,
    frames: u32,
    buffer: &mut [u8],
    room: &mut [u8],
    bytes: &mut [u8],
) -> Next {
    let mut session = s;
    let mut sender = Sender::new();
    for _ in 0..frames {
        match one(sender, session, payload, buffer, room, bytes) {
            Ok(ends) => {
                sender = ends.sender;
                session = ends.session;
            }
            Err(ends) => return Err(ends.session),
        }
    }
    Ok(session)
}

// A frame as it stands in the input: whether the sender goes on before it, its stamp, and its bytes.
fn one(
    x: Sender,
    session: Session,
    payload: usize,
    buffer: &mut [u8],
    room: &mut [u8],
    bytes: &mut [u8],
) -> Both {
    let sender = begun(x);
    let stamp = forged::stamp();
    let Some(n) = input::part(bytes) else {
        return Err(Ends { sender, session });
    };
    sent(sender, session, payload, stamp, buffer, room, &bytes[..n])
}

fn begun(x: Sender) -> Sender {
    if input::flag() {
        return x.next();
    }
    x
}

// All transfers of a frame, and then the sender.
fn sent(
    x: Sender,
    s: Session,
    payload: usize,
    stamp: Stamp,
    buffer: &mut [u8],
    room: &mut [u8],
    frame: &[u8],
) -> Both {
    let mut sender = x;
    let mut session = s;
    let mut over: u8 = 0;
    // A proved loop has to end: every transfer has a byte of the frame, which has at most 70,000.
    for _ in 0..70_010 {
        let after = step(sender, session, over, payload, stamp, buffer, room, frame);
        sender = after.sender;
        session = after.session;
        over = after.over;
        if 1 < over {
            told(sender);
            return Ok(Ends { sender, session });
        }
    }
    told(sender);
    Err(Ends { sender, session })
}

// One call of the sender, with the hash of its room; and what the receiver answers to a transfer, with that of its own.
fn step(
    x: Sender,
    s: Session,
    over: u8,
    payload: usize,
    stamp: Stamp,
    buffer: &mut [u8],
    room: &mut [u8],
    frame: &[u8],
) -> After {
    let sent = x.send(frame, payload, stamp, room);
    let sender = sent.sender;
    let sending = sent.sending;
    match sending {
        Sending::Refused(number) => {
            print::text(b"refused");
            print::byte(number);
            print::hash(room);
            After {
                sender,
                session: s,
                over: 2,
            }
        }
        Sending::Done => {
            print::text(b"after the last");
            print::hash(room);
            After {
                sender,
                session: s,
                over: if over == 0 { 1 } else { 2 },
            }
        }
        Sending::Wrote(n) => {
            print::text(b"sent");
            print::field(n as u64);
            print::hash(room);
            let m = input::within(n, room);
            let session = calls::offer(s, buffer, &room[..m]);
            print::hash(buffer);
            After {
                sender,
                session,
                over,
            }
        }
    }
}

fn told(x: Sender) {
    print::text(b"sender");
    if x.fid {
        print::text(b" 1");
    } else {
        print::text(b" 0");
    }
    print::field(x.at as u64);
    print::end();
}
