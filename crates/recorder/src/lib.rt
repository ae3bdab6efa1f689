// A session by value: every call takes it in and gives the new one back with the answer.
#![tactic(auto)]

ghost use Rattle.std.specs.Prelude.{◌≡◌, length};
ghost use Rattle.session_rules.specs.Refusals.{ledger_of};
ghost use Rattle.session_rules.specs.Session.{open_of, take_of, buffer_of, lost_of, close_of};
ghost use Rattle.session.specs.Inner.{whole_of};

use session_rules::{Closed, Ledger, Numbers, Opened, Reported, Rest, Session, Taken};
use sizes::Opening;

// The session's methods stand here: its type is declared below the code that they call.
#[derive(Drop)]
pub struct Recorder {
    pub session: Session,
}

// The record, put together by field: copied as a whole, its parts would lie on the stack once more.
fn whole(rest: Rest, numbers: Numbers) -> Session
    ensures { result ≡ whole_of rest numbers }
{
    let opening = rest.opening;
    let track = rest.track;
    let last = rest.last;
    Session {
        rest: Rest {
            opening,
            closed: rest.closed,
            taken: rest.taken,
            track,
            last,
        },
        numbers,
    }
}

impl Recorder {
    // Opens a session on the negotiated sizes and framing byte and on the header kind, with the buffer that frames will be written to.
    // A refused opening gives a closed session with no sizes, which every call refuses by 50.
    pub fn open(o: Opening, buffer: &[u8]) -> Opened
        ensures { result ≡ open_of o (length buffer.now) }
    {
        session::open_for(o, buffer.len())
    }

    // The ledger, with the frame under way in its account.
    pub fn ledger(self) -> Ledger
        ensures { result ≡ ledger_of self.session }
    {
        let s = self.session;
        session::ledger(s)
    }

    // Takes one transfer, or hands out the frame that it would end by its FID alone. A refused call changes no byte of the buffer and gives the session back as it was.
    pub fn take(self, buffer: &mut [u8], t: &[u8]) -> Taken
        ensures value { result ≡ take_of self.session (length buffer.old) t.now }
        ensures buffer_after { buffer.new ≡ buffer_of self.session buffer.old t.now }
    {
        let s = self.session;
        let rest = s.rest;
        let mut numbers = s.numbers;
        let taken = session::take_for(rest, &mut numbers, buffer.len(), buffer, t);
        let next = taken.rest;
        let outcome = taken.outcome;
        Taken {
            session: whole(next, numbers),
            outcome,
        }
    }

    // The same with the buffer's length as a number, for who counts and keeps no frame: it writes nothing.
    pub fn count(self, room: usize, t: &[u8]) -> Taken
        ensures { result ≡ take_of self.session room t.now }
    {
        let s = self.session;
        let rest = s.rest;
        let mut numbers = s.numbers;
        let mut none = [0u8; 0];
        let taken = session::take_for(rest, &mut numbers, room, &mut none, t);
        let next = taken.rest;
        let outcome = taken.outcome;
        Taken {
            session: whole(next, numbers),
            outcome,
        }
    }

    // The host reports a lost transfer.
    pub fn lost(self) -> Reported
        ensures { result ≡ lost_of self.session }
    {
        let s = self.session;
        let rest = s.rest;
        let mut numbers = s.numbers;
        let reported = session::lost(rest, &mut numbers);
        let next = reported.rest;
        let report = reported.report;
        Reported {
            session: whole(next, numbers),
            report,
        }
    }

    // Ends a frame under way, and the session.
    pub fn close(self) -> Closed
        ensures { result ≡ close_of self.session }
    {
        let s = self.session;
        let rest = s.rest;
        let mut numbers = s.numbers;
        let closed = session::close(rest, &mut numbers);
        let next = closed.rest;
        let closing = closed.closing;
        Closed {
            session: whole(next, numbers),
            closing,
        }
    }
}
