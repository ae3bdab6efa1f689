// The calls of a session whose ledger is a record of 320 bytes, lent by the host. What is not printed stays in the rest of the session, which goes by value beside it.
// 54 comes before the numbers that a session's calls meet. A refused call changes no byte of the record and none of the buffer.
#![tactic(auto)]

ghost use Rattle.std.specs.Prelude.{◌≡◌, length};
ghost use Rattle.places.specs.Places.{record_size};
ghost use Rattle.session.specs.Inner.{whole_of};
ghost use Rattle.ledger_record.specs.Recorded.{record_in, is_refused, is_refused_report, is_refused_closing, take_in, take_left, take_buffer, lost_in, lost_left, close_in, close_left};

use session::{RestClosed, RestReported, RestTaken};
use session_rules::{Closing, Ledger, Numbers, Outcome, Report, Rest};

fn is_refused(o: Outcome) -> bool
    ensures { result ≡ is_refused o }
{
    matches!(o, Outcome::Refused(_))
}

fn is_refused_report(x: Report) -> bool
    ensures { result ≡ is_refused_report x }
{
    matches!(x, Err(_))
}

fn is_refused_closing(x: Closing) -> bool
    ensures { result ≡ is_refused_closing x }
{
    matches!(x, Err(_))
}

// Makes the record that of a session: its numbers, with the frame under way in its account.
fn show(r: &mut [u8], rest: Rest, numbers: Numbers)
    requires { length r.old ≡ record_size }
    ensures { r.new ≡ record_in (whole_of rest numbers) }
{
    let last = rest.last;
    let track = rest.track;
    let phase = track.phase;
    let l = Ledger { numbers, last };
    let shown = ledger::shown(l, phase);
    let all = shown.numbers;
    places::lay(r, all);
}

// Takes one transfer, or hands out the frame that it would end by its FID alone.
pub fn take(r: &mut [u8], rest: Rest, buffer: &mut [u8], t: &[u8]) -> RestTaken
    ensures value { result ≡ take_in r.old rest (length buffer.old) t.now }
    ensures r_after { r.new ≡ take_left r.old rest (length buffer.old) t.now }
    ensures buffer_after { buffer.new ≡ take_buffer r.old rest buffer.old t.now }
{
    if places::broken(r) {
        return RestTaken {
            rest,
            outcome: Outcome::Refused(54),
        };
    }
    let mut numbers = places::numbers_of(r);
    let taken = session::take(rest, &mut numbers, buffer, t);
    let outcome = taken.outcome;
    if is_refused(outcome) {
        return taken;
    }
    let next = taken.rest;
    show(r, next, numbers);
    taken
}

// The host reports a lost transfer.
pub fn lost(r: &mut [u8], rest: Rest) -> RestReported
    ensures value { result ≡ lost_in r.old rest }
    ensures r_after { r.new ≡ lost_left r.old rest }
{
    if places::broken(r) {
        return RestReported {
            rest,
            report: Err(54),
        };
    }
    let mut numbers = places::numbers_of(r);
    let reported = session::lost(rest, &mut numbers);
    let report = reported.report;
    if is_refused_report(report) {
        return reported;
    }
    let next = reported.rest;
    show(r, next, numbers);
    reported
}

// Ends a frame under way, and the session.
pub fn close(r: &mut [u8], rest: Rest) -> RestClosed
    ensures value { result ≡ close_in r.old rest }
    ensures r_after { r.new ≡ close_left r.old rest }
{
    if places::broken(r) {
        return RestClosed {
            rest,
            closing: Err(54),
        };
    }
    let mut numbers = places::numbers_of(r);
    let closed = session::close(rest, &mut numbers);
    let closing = closed.closing;
    if is_refused_closing(closing) {
        return closed;
    }
    let next = closed.rest;
    show(r, next, numbers);
    closed
}
