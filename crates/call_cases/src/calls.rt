// A session, from its opening or a record through a list of calls.
use crate::shown;
use cases::{input, print};
use recorder::Recorder;
use session_rules::{Outcome, Session};
use sizes::{HeaderKind, Opening};

// The session after a call; Err, as it was, where the call could not be read or is unknown.
pub type Next = Result<Session, Session>;

// Case T: what each call answers, with the buffer's hash, then the ledger, and a small buffer.
pub fn plain() -> bool {
    run(false)
}

// Case E: the same, and the record after it.
pub fn whole() -> bool {
    run(true)
}

fn run(whole: bool) -> bool {
    let opening = opening();
    let mut buffer = [0u8; 70000];
    let Some(n) = input::part(&mut buffer) else {
        return false;
    };
    let session = open(opening, &buffer[..n]);
    follow(session, &mut buffer[..n], whole)
}

pub fn opening() -> Opening {
    let frame = input::word() as usize;
    let payload = input::word() as usize;
    let framing = input::byte();
    let kind = header_kind();
    Opening {
        frame,
        payload,
        framing,
        kind,
    }
}

// 1 is VP8, every other byte the old kind.
pub fn header_kind() -> HeaderKind {
    let kind = input::byte();
    match kind {
        1 => HeaderKind::Vp8,
        _ => HeaderKind::Old,
    }
}

pub fn open(opening: Opening, buffer: &[u8]) -> Session {
    let opened = Recorder::open(opening, buffer);
    let start = opened.start;
    match start {
        Ok(()) => print::text(b"open\n"),
        Err(number) => print::line(b"open refused", number as u64),
    }
    opened.session
}

// The calls that the input has for a session, and what they leave.
pub fn follow(s: Session, buffer: &mut [u8], whole: bool) -> bool {
    let mut transfer = [0u8; 65600];
    let calls = input::word();
    let last = all(s, buffer, &mut transfer, calls, true);
    finish(last, buffer, whole)
}

// So many calls, each with the buffer's hash after it or without.
pub fn all(s: Session, buffer: &mut [u8], transfer: &mut [u8], calls: u32, hashed: bool) -> Next {
    let mut session = s;
    for _ in 0..calls {
        session = call(session, buffer, transfer)?;
        after_call(buffer, hashed);
    }
    Ok(session)
}

fn after_call(buffer: &[u8], hashed: bool) {
    if hashed {
        print::hash(buffer);
    } else {
        print::end();
    }
}

// What is left at the end: the ledger, a small buffer, and the record where all is to be told.
pub fn finish(last: Next, buffer: &[u8], whole: bool) -> bool {
    let s = match last {
        Ok(s) => s,
        Err(s) => s,
    };
    shown::ledger(session::ledger(s));
    if buffer.len() <= 64 {
        print::hex(b"buffer", buffer);
    }
    if whole {
        shown::record(s);
    }
    last.is_ok()
}

fn call(s: Session, buffer: &mut [u8], transfer: &mut [u8]) -> Next {
    match input::kind() {
        Some(0) => take(s, buffer, transfer),
        Some(1) => Ok(lost(s)),
        Some(2) => Ok(close(s)),
        Some(_) => {
            print::text(b"unknown call\n");
            Err(s)
        }
        None => {
            print::text(b"case cut short\n");
            Err(s)
        }
    }
}

fn take(s: Session, buffer: &mut [u8], transfer: &mut [u8]) -> Next {
    let Some(n) = input::part(transfer) else {
        return Err(s);
    };
    Ok(offer(s, buffer, &transfer[..n]))
}

// The session after a transfer, and what it answers.
pub fn offer(s: Session, buffer: &mut [u8], transfer: &[u8]) -> Session {
    let taken = Recorder { session: s }.take(buffer, transfer);
    let outcome = taken.outcome;
    match outcome {
        Outcome::Refused(number) => shown::refused(number),
        Outcome::Taken(a) => shown::answer(a),
        Outcome::Handed(x) => shown::handed(x),
    }
    taken.session
}

fn lost(s: Session) -> Session {
    let reported = Recorder { session: s }.lost();
    let report = reported.report;
    let session = reported.session;
    match report {
        Err(number) => shown::refused(number),
        Ok(()) => print::text(b"lost noted"),
    }
    session
}

fn close(s: Session) -> Session {
    let closed = Recorder { session: s }.close();
    let closing = closed.closing;
    let session = closed.session;
    match closing {
        Err(number) => shown::refused(number),
        Ok(e) => {
            print::text(b"closed");
            shown::ended(e);
        }
    }
    session
}
