// A trace that comes in reads of any size, read in constant memory, with a line for each frame that ended as it is shown.
#![tactic(auto)]

ghost use Rattle.std.specs.Prelude.{◌≡◌, ◌+◌, ◌≤◌, ◌<◌, ◌++◌, length, take};
ghost use Rattle.text.specs.Put.{Put};
ghost use Rattle.records.specs.Form.{size_of};
ghost use Rattle.endings.specs.Inner.{list_in};
ghost use Rattle.frame_lines.specs.Inner.{lines_in, counted_all};
ghost use Rattle.trace.specs.Trace.{good_of};
ghost use Rattle.replay.specs.Inner.{replay_of, begin_of, tell_said, Fits, two_lines, room_for, read_room, is_silent, Ran, Rested, Fed};

use endings::Endings;
use frame_lines::{Counted, Lines, Show};
use records::Form;
use session_rules::{Rest, Session, Start};
use sizes::Opening;
use trace::{Said, State, Trace};

// A trace as far as it is read, with the number of the next line and the stamp from which the next step is taken.
#[derive(Drop)]
pub struct Replay {
    pub trace: Trace,
    pub counted: Counted,
}

// A replay of no records, and what opening its session answered: 45 or 46 where it is refused. (No Result: the replay is there then too, by `begin_of`.)
#[derive(Drop)]
pub struct Begun {
    pub replay: Replay,
    pub start: Start,
}

// A replay of whole records, and how many bytes of the next one have come.
#[derive(Drop)]
pub struct Reader {
    pub replay: Replay,
    pub have: usize,
}

// What some records led to, and the place after their lines.
#[derive(Drop)]
pub struct Lined {
    pub replay: Replay,
    pub at: usize,
}

// What a read led to, and how many bytes its lines have.
#[derive(Drop)]
pub struct Progress {
    pub reader: Reader,
    pub wrote: usize,
}

// No records yet.
pub fn new(o: Opening) -> Begun
    ensures { result ≡ begin_of o }
{
    let begun = Trace::new(o);
    let trace = begun.trace;
    let start = begun.start;
    Begun {
        replay: Replay {
            trace,
            counted: Counted {
                number: 1,
                last: None,
            },
        },
        start,
    }
}

// The frames that a record's call ended.
fn told(form: Form, before: Rest, r: &[u8], said: Said) -> Endings
    requires { Fits form r.now said }
    ensures { result ≡ tell_said form before r.now said }
{
    match said {
        Said::Nothing => Endings {
            first: None,
            second: None,
        },
        Said::Transfer(outcome) => {
            let from = form.head();
            let to = from + records::length(form, r);
            endings::taken(before, &r[from..to], outcome)
        }
        Said::Close(closing) => endings::closed(before, closing),
    }
}

// No line is printed of any frame.
fn is_silent(show: Show) -> bool
    ensures { result ≡ is_silent show }
{
    matches!(show, Show::Nothing)
}

// Their lines. Where none is printed, nothing is asked.
fn put_lines(
    form: Form,
    show: Show,
    before: Rest,
    r: &[u8],
    said: Said,
    c: Counted,
    out: &mut [u8],
    at: usize,
) -> Lines
    requires { Fits form r.now said × (at + two_lines ≤ length out.old) }
    ensures put { Put out.old at (lines_in show c (list_in (tell_said form before r.now said))) result.at out.new }
    ensures counted_value { (result.counted ≡ counted_all show c (list_in (tell_said form before r.now said))) × (result.at ≤ at + two_lines) }
{
    if is_silent(show) {
        return Lines { counted: c, at };
    }
    let ended = told(form, before, r, said);
    frame_lines::tell(out, at, show, c, ended)
}

// A good trace goes on, record by record. Its ledger's numbers are taken out once, for all of them.
fn follow(
    form: Form,
    show: Show,
    s: Session,
    c: Counted,
    records: &[u8],
    out: &mut [u8],
    start: usize,
) -> Lined
    requires { start + room_for (length records.now) ≤ length out.old }
    ensures { Ran form show (replay_of (good_of s) c) records.now out.old start result out.new }
{
    let mut numbers = s.numbers;
    let mut rest = s.rest;
    let mut counted = c;
    let mut at = start;
    for record in records.chunks(form.size()) {
        let going = trace::step(form, rest, &mut numbers, record);
        let said = going.said;
        let lines = put_lines(form, show, rest, record, said, counted, out, at);
        rest = going.rest;
        counted = lines.counted;
        at = lines.at;
        let state = going.state;
        if trace::decided(state) {
            return Lined {
                replay: Replay {
                    trace: Trace {
                        session: Session { rest, numbers },
                        state,
                    },
                    counted,
                },
                at,
            };
        }
    }
    Lined {
        replay: Replay {
            trace: Trace {
                session: Session { rest, numbers },
                state: State::Good,
            },
            counted,
        },
        at,
    }
}

// So many records more, the last of which may be partial, and their lines.
fn run(form: Form, show: Show, p: Replay, records: &[u8], out: &mut [u8], start: usize) -> Lined
    requires { start + room_for (length records.now) ≤ length out.old }
    ensures { Ran form show p records.now out.old start result out.new }
{
    let t = p.trace;
    let c = p.counted;
    let state = t.state;
    if trace::decided(state) {
        return Lined {
            replay: p,
            at: start,
        };
    }
    let s = t.session;
    follow(form, show, s, c, records, out, start)
}

// The whole records of a read from `from` on, behind `at` bytes of lines; what is left over waits in the piece.
fn rest_of(
    form: Form,
    show: Show,
    p: Replay,
    from: usize,
    piece: &mut [u8],
    input: &[u8],
    out: &mut [u8],
    at: usize,
) -> Progress
    requires { (from ≤ length input.now) × (length piece.old ≡ size_of form) × (at + room_for (length input.now) ≤ length out.old) }
    ensures { Rested form show p from piece.old input.now out.old at result piece.new out.new }
{
    let end = cuts::end(form.size(), from, input.len());
    let lined = run(form, show, p, &input[from..end], out, at);
    let have = cuts::fill(piece, 0, &input[end..input.len()]);
    let replay = lined.replay;
    Progress {
        reader: Reader { replay, have },
        wrote: lined.at,
    }
}

// Inner: so many bytes more, and the lines of the records that they make whole, at the front of `out`. Whole records go straight from the input.
pub fn feed(
    r: Reader,
    form: Form,
    show: Show,
    piece: &mut [u8],
    input: &[u8],
    out: &mut [u8],
) -> Progress
    requires { (r.have < size_of form) × (length piece.old ≡ size_of form) × (read_room form (length input.now) ≤ length out.old) }
    ensures { Fed form show r.replay (take r.have piece.old ++ input.now) result piece.new out.old out.new }
{
    let have = r.have;
    let p = r.replay;
    if have == 0 {
        return rest_of(form, show, p, 0, piece, input, out, 0);
    }
    let k = cuts::fill(piece, have, input);
    if have + k < form.size() {
        return Progress {
            reader: Reader {
                replay: p,
                have: have + k,
            },
            wrote: 0,
        };
    }
    let lined = run(form, show, p, piece, out, 0);
    let next = lined.replay;
    rest_of(form, show, next, k, piece, input, out, lined.at)
}

// Inner: the end of the input. What is left over is a partial record.
pub fn last(r: Reader, form: Form, show: Show, piece: &[u8], out: &mut [u8]) -> Lined
    requires { (r.have < size_of form) × (length piece.now ≡ size_of form) × (room_for (size_of form) ≤ length out.old) }
    ensures { Ran form show r.replay (take r.have piece.now) out.old 0 result out.new }
{
    let have = r.have;
    let p = r.replay;
    run(form, show, p, &piece[0..have], out, 0)
}
