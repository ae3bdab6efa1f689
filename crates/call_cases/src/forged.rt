// A session record as it stands in the input: what take, lost and close say to it, or what a list of calls leads to from it.
//
// The record: eight bytes frame size, eight bytes payload size, byte framing, byte header kind, byte closed, four bytes taken, the phase, byte gap,
// the ledger's numbers of eight bytes each, the last stamp. A stamp: byte present and four bytes. A layer: byte present and two bytes. The phase: byte 0
// fresh, 2 past and byte FID, or any other and byte FID, byte fault (1 gap, 2 error, 3 clock, 4 long, 5 cut, 6 empty, 9 mixed, any other none), eight bytes data so
// far, eight bytes fill, the stamp, byte still, the layer.
use crate::{calls, shown};
use cases::{input, print};
use recorder::Recorder;
use session_rules::{
    Fault, Layer, Ledger, Numbers, Outcome, Phase, Reason, Rest, Run, Session, Stamp, Track,
};
use sizes::Opening;

// Case G: a list of calls from the record on, told as in case E.
pub fn whole() -> bool {
    let s = record();
    let mut buffer = [0u8; 70000];
    let Some(n) = input::part(&mut buffer) else {
        return false;
    };
    calls::follow(s, &mut buffer[..n], true)
}

// Case F: which of take, lost and close are refused on the record.
pub fn plain() -> bool {
    let s = record();
    let mut buffer = [0u8; 70000];
    let Some(n) = input::part(&mut buffer) else {
        return false;
    };
    let mut transfer = [0u8; 65600];
    let Some(m) = input::part(&mut transfer) else {
        return false;
    };
    take(s, &mut buffer[..n], &transfer[..m]);
    lost(s);
    close(s);
    true
}

fn record() -> Session {
    let rest = front();
    let numbers = numbers();
    let last = stamp();
    let all = with_last(rest, last);
    Session { rest: all, numbers }
}

// The rest of a session as it stands in the input: the record without the ledger's numbers.
pub fn rest() -> Rest {
    let rest = front();
    let last = stamp();
    with_last(rest, last)
}

// All before the ledger's numbers.
fn front() -> Rest {
    let frame = input::long() as usize;
    let payload = input::long() as usize;
    let framing = input::byte();
    let kind = calls::header_kind();
    let closed = input::flag();
    let taken = input::word();
    let phase = phase();
    let gap = input::flag();
    Rest {
        opening: Opening {
            frame,
            payload,
            framing,
            kind,
        },
        closed,
        taken,
        track: Track { phase, gap },
        last: None,
    }
}

fn with_last(rest: Rest, last: Stamp) -> Rest {
    let opening = rest.opening;
    let track = rest.track;
    Rest {
        opening,
        closed: rest.closed,
        taken: rest.taken,
        track,
        last,
    }
}

fn phase() -> Phase {
    let kind = input::byte();
    match kind {
        0 => Phase::Fresh,
        2 => Phase::Past(input::flag()),
        _ => Phase::Under(under()),
    }
}

fn under() -> Run {
    let fid = input::flag();
    let fault = fault(input::byte());
    let bytes = input::long();
    let fill = input::long() as usize;
    let stamp = stamp();
    let still = input::flag();
    let layer = layer();
    Run {
        fid,
        still,
        fault,
        bytes,
        fill,
        stamp,
        layer,
    }
}

fn fault(kind: u8) -> Fault {
    match kind {
        1 => Some(Reason::Gap),
        2 => Some(Reason::Error),
        3 => Some(Reason::Clock),
        4 => Some(Reason::Long),
        5 => Some(Reason::Cut),
        6 => Some(Reason::Empty),
        9 => Some(Reason::Mixed),
        _ => None,
    }
}

// Byte present and four bytes.
pub fn stamp() -> Stamp {
    let there = input::flag();
    let n = input::word();
    if there { Some(n) } else { None }
}

fn layer() -> Layer {
    let there = input::flag();
    let n = input::half();
    if there { Some(n) } else { None }
}

fn numbers() -> Numbers {
    let mut numbers = [0u64; Ledger::NUMBERS];
    for number in numbers.iter_mut() {
        *number = input::long();
    }
    numbers
}

fn take(s: Session, buffer: &mut [u8], transfer: &[u8]) {
    let taken = Recorder { session: s }.take(buffer, transfer);
    let outcome = taken.outcome;
    match outcome {
        Outcome::Refused(number) => refused(b"take", number),
        Outcome::Taken(_) => print::text(b"take taken"),
        Outcome::Handed(x) => {
            print::text(b"take ");
            shown::handed(x);
        }
    }
    print::hash(buffer);
}

fn lost(s: Session) {
    let reported = Recorder { session: s }.lost();
    let report = reported.report;
    match report {
        Err(number) => refused(b"lost", number),
        Ok(()) => print::text(b"lost taken"),
    }
    print::end();
}

fn close(s: Session) {
    let closed = Recorder { session: s }.close();
    let closing = closed.closing;
    match closing {
        Err(number) => refused(b"close", number),
        Ok(_) => print::text(b"close taken"),
    }
    print::end();
}

fn refused(name: &[u8], number: u8) {
    print::text(name);
    print::text(b" refused");
    print::field(number as u64);
}
