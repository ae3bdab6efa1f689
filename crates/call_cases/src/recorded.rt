// Case R: a call of a session whose ledger is a record, lent as it stands in the input: what it answers, with the buffer's hash; then what it leaves: the record's
// hash, its ledger or why it is none, and the rest of the session.
use crate::{forged, shown};
use cases::{input, print};
use rules::Refused;
use session_rules::{Ledger, Outcome, Rest, Session};

pub fn run() -> bool {
    let mut bytes = [0u8; 400];
    let Some(k) = input::part(&mut bytes) else {
        return false;
    };
    let rest = forged::rest();
    let mut buffer = [0u8; 70000];
    let Some(n) = input::part(&mut buffer) else {
        return false;
    };
    follow(&mut bytes[..k], rest, &mut buffer[..n])
}

fn follow(r: &mut [u8], rest: Rest, buffer: &mut [u8]) -> bool {
    let Some(next) = call(r, rest, buffer) else {
        return false;
    };
    print::hash(buffer);
    told(r, next);
    true
}

// The rest of the session after a call, if the call was read.
fn call(r: &mut [u8], rest: Rest, buffer: &mut [u8]) -> Option<Rest> {
    match input::byte() {
        0 => take(r, rest, buffer),
        1 => Some(lost(r, rest)),
        _ => Some(close(r, rest)),
    }
}

fn take(r: &mut [u8], rest: Rest, buffer: &mut [u8]) -> Option<Rest> {
    let mut transfer = [0u8; 65600];
    let m = input::part(&mut transfer)?;
    let taken = ledger_record::take(r, rest, buffer, &transfer[..m]);
    let outcome = taken.outcome;
    match outcome {
        Outcome::Refused(number) => shown::refused(number),
        Outcome::Taken(a) => shown::answer(a),
        Outcome::Handed(x) => shown::handed(x),
    }
    Some(taken.rest)
}

fn lost(r: &mut [u8], rest: Rest) -> Rest {
    let reported = ledger_record::lost(r, rest);
    let report = reported.report;
    match report {
        Err(number) => shown::refused(number),
        Ok(()) => print::text(b"lost noted"),
    }
    reported.rest
}

fn close(r: &mut [u8], rest: Rest) -> Rest {
    let closed = ledger_record::close(r, rest);
    let closing = closed.closing;
    match closing {
        Err(number) => shown::refused(number),
        Ok(e) => {
            print::text(b"closed");
            shown::ended(e);
        }
    }
    closed.rest
}

fn told(r: &[u8], rest: Rest) {
    print::text(b"bytes");
    print::hash(r);
    let held = places::read(r);
    let numbers = held.numbers;
    let verdict = held.verdict;
    match verdict {
        Ok(()) => {
            let last = rest.last;
            shown::ledger(Ledger { numbers, last });
        }
        Err(Refused { number, .. }) => print::line(b"ledger refused", number as u64),
    }
    shown::record(Session { rest, numbers });
}
