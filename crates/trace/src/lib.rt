// A trace of records of either form, read as many at a time as come, and what is printed of it.
#![tactic(auto)]

ghost use Rattle.std.specs.Prelude.{◌≡◌, ◌≤◌, length};
ghost use Rattle.session_rules.specs.Accounts.{number_count};
ghost use Rattle.records.specs.Form.{size_of, most_of};
ghost use Rattle.records.specs.Record.{length_at, records_of};
ghost use Rattle.trace.specs.Record.{record_ask};
ghost use Rattle.trace.specs.Trace.{ledger_sizes, replay_sizes, begin_of, read_call, said_call, step_of, said_of, traced, good_of, report_of};
ghost use Rattle.session.specs.Inner.{whole_of};
ghost use Rattle.session_rules.specs.Call.{Ask};
ghost use Rattle.trace.specs.Inner.{going_with, good_with, number_rest, answered_by, is_decided};

use records::Form;
use session_rules::{Closing, Ledger, Numbers, Outcome, Rest, Session, Start};
use sizes::{HeaderKind, Opening};

// What the ledger program reads with: its sizes, frames that end by EOF, and the old kind of header.
pub const LEDGER: Opening = Opening {
    frame: 256,
    payload: 62,
    framing: 3,
    kind: HeaderKind::Old,
};

// What a replay reads with.
pub const REPLAY: Opening = Opening {
    frame: 61_440,
    payload: 3_072,
    framing: 3,
    kind: HeaderKind::Old,
};

// How a trace stands.
#[derive(Clone, Copy)]
pub enum State {
    Good,
    // The number, from 1, of the first bad record.
    Bad(u64),
    // The number by which the session refused a good record, and the record's number.
    Refused(u8, u64),
}

#[derive(Clone, Copy)]
pub struct Trace {
    pub session: Session,
    pub state: State,
}

// A trace of no records, and what opening its session answered: 45 or 46 where it is refused. (No Result: the trace is there then too, by `begin_of`.)
#[derive(Drop)]
pub struct Begun {
    pub trace: Trace,
    pub start: Start,
}

// What is printed: the ledger's lines, or one line in their place.
#[derive(Drop)]
pub struct Printed {
    pub state: State,
    pub ledger: Ledger,
}

// What a record's call answered: nothing for a lost report, a bad record and anything after close.
#[derive(Drop)]
pub enum Said {
    Nothing,
    Transfer(Outcome),
    Close(Closing),
}

// A trace but for its ledger's numbers, and what its last record's call answered.
#[derive(Drop)]
pub struct Going {
    pub rest: Rest,
    pub state: State,
    pub said: Said,
}

// The number of the next record, from 1.
fn number(rest: Rest) -> u64
    ensures { result ≡ number_rest rest }
{
    let taken = rest.taken as u64;
    if rest.closed {
        return taken + 2;
    }
    taken + 1
}

// A call that was refused by k, or taken where k is 0. A refused call gives the rest back as it was.
fn answered(k: u8, next: Rest, said: Said) -> Going
    ensures { result ≡ answered_by k next said }
{
    if k == 0 {
        return Going {
            rest: next,
            state: State::Good,
            said,
        };
    }
    let n = number(next);
    Going {
        rest: next,
        state: State::Refused(k, n),
        said,
    }
}

fn transfer(s: Rest, m: &mut Numbers, t: &[u8]) -> Going
    requires { length m.old ≡ number_count }
    ensures m_after { going_with result m.new ≡ read_call (whole_of s m.old) (Ask.transfer t.now) }
    ensures said_value { result.said ≡ said_call (whole_of s m.old) (Ask.transfer t.now) }
{
    let o = s.opening;
    let taken = session::count(s, m, o.frame, t);
    let outcome = taken.outcome;
    let next = taken.rest;
    match outcome {
        Outcome::Refused(k) => answered(k, next, Said::Transfer(outcome)),
        Outcome::Taken(_) => answered(0, next, Said::Transfer(outcome)),
        // With a framing byte whose D1 is set, no frame is handed out.
        Outcome::Handed(_) => answered(0, next, Said::Transfer(outcome)),
    }
}

fn lost(s: Rest, m: &mut Numbers) -> Going
    requires { length m.old ≡ number_count }
    ensures m_after { going_with result m.new ≡ read_call (whole_of s m.old) Ask.lost }
    ensures said_value { result.said ≡ said_call (whole_of s m.old) Ask.lost }
{
    let reported = session::lost(s, m);
    let report = reported.report;
    let next = reported.rest;
    match report {
        Err(k) => answered(k, next, Said::Nothing),
        Ok(()) => answered(0, next, Said::Nothing),
    }
}

fn close(s: Rest, m: &mut Numbers) -> Going
    requires { length m.old ≡ number_count }
    ensures m_after { going_with result m.new ≡ read_call (whole_of s m.old) Ask.close }
    ensures said_value { result.said ≡ said_call (whole_of s m.old) Ask.close }
{
    let closed = session::close(s, m);
    let closing = closed.closing;
    let next = closed.rest;
    match closing {
        Err(k) => answered(k, next, Said::Close(closing)),
        Ok(_) => answered(0, next, Said::Close(closing)),
    }
}

// The call of a good record.
fn call(form: Form, s: Rest, m: &mut Numbers, r: &[u8]) -> Going
    requires { (length r.now ≡ size_of form) × (length_at form r.now ≤ most_of form) × (length m.old ≡ number_count) }
    ensures m_after { going_with result m.new ≡ read_call (whole_of s m.old) (record_ask form r.now) }
    ensures said_value { result.said ≡ said_call (whole_of s m.old) (record_ask form r.now) }
{
    let kind = r[0];
    match kind {
        0 => {
            let from = form.head();
            let to = from + records::length(form, r);
            transfer(s, m, &r[from..to])
        }
        1 => lost(s, m),
        _ => close(s, m),
    }
}

// Inner: one record more of a good trace, and what its call answered. A bad record decides.
pub fn step(form: Form, s: Rest, m: &mut Numbers, r: &[u8]) -> Going
    requires { length m.old ≡ number_count }
    ensures m_after { going_with result m.new ≡ step_of form (good_with s m.old) r.now }
    ensures said_value { result.said ≡ said_of form (whole_of s m.old) r.now }
{
    if s.closed {
        return Going {
            rest: s,
            state: State::Bad(number(s)),
            said: Said::Nothing,
        };
    }
    if records::bad(form, r) {
        return Going {
            rest: s,
            state: State::Bad(number(s)),
            said: Said::Nothing,
        };
    }
    call(form, s, m, r)
}

// A bad or refused record decides a trace.
pub fn decided(state: State) -> bool
    ensures { result ≡ is_decided state }
{
    matches!(state, State::Bad(_) | State::Refused(_, _))
}

// A good trace goes on. Its ledger's numbers are taken out once, for all the records.
fn follow(form: Form, s: Session, records: &[u8]) -> Trace
    ensures { result ≡ traced form (good_of s) (records_of form records.now) }
{
    let mut numbers = s.numbers;
    let mut rest = s.rest;
    for record in records.chunks(form.size()) {
        let going = step(form, rest, &mut numbers, record);
        rest = going.rest;
        let state = going.state;
        if decided(state) {
            return Trace {
                session: Session { rest, numbers },
                state,
            };
        }
    }
    Trace {
        session: Session { rest, numbers },
        state: State::Good,
    }
}

impl Trace {
    // A trace of no records, read with these sizes, framing byte and header kind. Only the ledger is kept: no buffer is asked for.
    pub fn new(o: Opening) -> Begun
        ensures { result ≡ begin_of o }
    {
        let opened = session::open_for(o, o.frame);
        let session = opened.session;
        let start = opened.start;
        Begun {
            trace: Trace {
                session,
                state: State::Good,
            },
            start,
        }
    }

    // What the ledger program begins with.
    pub fn ledger() -> Begun
        ensures { result ≡ begin_of ledger_sizes }
    {
        Trace::new(LEDGER)
    }

    // What a replay begins with.
    pub fn replay() -> Begun
        ensures { result ≡ begin_of replay_sizes }
    {
        Trace::new(REPLAY)
    }

    // So many records more, the last of which may be partial. The first bad record decides, and nothing is read after it.
    pub fn run(self, form: Form, records: &[u8]) -> Self
        ensures { result ≡ traced form self (records_of form records.now) }
    {
        let state = self.state;
        if decided(state) {
            return self;
        }
        let s = self.session;
        follow(form, s, records)
    }

    // What is printed at the end of the input.
    pub fn finish(self) -> Printed
        ensures { result ≡ report_of self }
    {
        let state = self.state;
        let s = self.session;
        match state {
            State::Good => Printed {
                state,
                ledger: session::ledger(s),
            },
            State::Bad(_) => Printed {
                state,
                ledger: Ledger::new(),
            },
            State::Refused(_, _) => Printed {
                state,
                ledger: Ledger::new(),
            },
        }
    }
}
