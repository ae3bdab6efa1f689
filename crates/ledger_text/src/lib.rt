// The printed text of a report on a trace: the ledger's lines, or the one line in their place.
#![tactic(auto)]

ghost use Rattle.std.specs.Prelude.{◌≡◌, ◌≤◌, [], length};
ghost use Rattle.io.specs.Counts.{IsPrefixLen};
ghost use Rattle.text.specs.Put.{Put};
ghost use Rattle.text.specs.Text.{lines};
ghost use Rattle.text.specs.Written.{answer_of, buffer_of};
ghost use Rattle.session_rules.specs.Accounts.{number_count};
ghost use Rattle.trace.specs.declared.State.{State};
ghost use Rattle.ledger_text.specs.Report.{room, rows, text_of, end_text, shut_text};
ghost use Rattle.ledger_text.specs.Inner.{is_unsaid};

use frame_lines::Show;
use session_rules::Ledger;
use trace::{Printed, State};

// How many bytes are enough for any report: a line has at most 64.
pub const ROOM: usize = 64 * Ledger::LINES;

// How many numbers follow the name of each line: two of an account, one of any other.
const COUNTS: [usize; Ledger::LINES] = [2, 2, 2, 2, 2, 2, 2, 2, 2, 2, 2, 2, 2, 1, 1, 1, 1, 1];

fn ledger(buf: &mut [u8], ns: &[u64]) -> usize
    requires { (length ns.now ≡ number_count) × (room ≤ length buf.old) }
    ensures { Put buf.old 0 (lines rows ns.now) result buf.new }
{
    let names: &[u8] = b"\
delivered\n\
gap\n\
error\n\
clock\n\
long\n\
cut\n\
empty\n\
still\n\
mixed\n\
under way\n\
stray\n\
unreadable\n\
headers\n\
lost\n\
idle\n\
ticks\n\
backward\n\
untimed\n\
";
    let counts = COUNTS;
    name_tables::lines(buf, 0, names, &counts, ns)
}

fn bad(buf: &mut [u8], n: u64) -> usize
    requires { room ≤ length buf.old }
    ensures { Put buf.old 0 (text_of (State.Bad n) []) result buf.new }
{
    let one = [n];
    text::line(buf, 0, b"bad record", &one)
}

fn refused(buf: &mut [u8], k: u8, n: u64) -> usize
    requires { room ≤ length buf.old }
    ensures { Put buf.old 0 (text_of (State.Refused k n) []) result buf.new }
{
    let named = text::put(buf, 0, b"refused");
    let at = text::number(buf, named, k as u64);
    let one = [n];
    text::line(buf, at, b" at record", &one)
}

fn report(buf: &mut [u8], state: State, ns: &[u64]) -> usize
    requires { (length ns.now ≡ number_count) × (room ≤ length buf.old) }
    ensures { Put buf.old 0 (text_of state ns.now) result buf.new }
{
    match state {
        State::Good => ledger(buf, ns),
        State::Bad(n) => bad(buf, n),
        State::Refused(k, n) => refused(buf, k, n),
    }
}

// The whole text at the front of buf, and its length; 0, and buf as it was, where buf has fewer than ROOM bytes.
pub fn write(buf: &mut [u8], printed: Printed) -> usize
    ensures value { result ≡ answer_of room (text_of printed.state printed.ledger.numbers) buf.old }
    ensures buf_after { buf.new ≡ buffer_of room (text_of printed.state printed.ledger.numbers) buf.old }
    ensures prefix_len { IsPrefixLen result buf.new }
{
    if buf.len() < ROOM {
        return 0;
    }
    let state = printed.state;
    let l = printed.ledger;
    let numbers = l.numbers;
    report(buf, state, &numbers)
}

// A list of frames has nothing after its lines where the trace is good.
fn is_unsaid(show: Show, state: State) -> bool
    ensures { result ≡ is_unsaid show state }
{
    matches!((show, state), (Show::Frames, State::Good))
}

// What stands after the lines of the frames, as `write` writes it.
pub fn end(buf: &mut [u8], show: Show, printed: Printed) -> usize
    ensures value { result ≡ answer_of room (end_text show printed.state printed.ledger.numbers) buf.old }
    ensures buf_after { buf.new ≡ buffer_of room (end_text show printed.state printed.ledger.numbers) buf.old }
    ensures prefix_len { IsPrefixLen result buf.new }
{
    let state = printed.state;
    if is_unsaid(show, state) {
        return 0;
    }
    write(buf, printed)
}

fn shut_text(buf: &mut [u8], number: u8) -> usize
    requires { room ≤ length buf.old }
    ensures { Put buf.old 0 (shut_text number) result buf.new }
{
    let one = [number as u64];
    let at = text::line(buf, 0, b"refused", &one);
    refusal_words::put(buf, at, number)
}

// An opening that is refused: its number and its words, as `write` writes.
pub fn shut(buf: &mut [u8], number: u8) -> usize
    ensures value { result ≡ answer_of room (shut_text number) buf.old }
    ensures buf_after { buf.new ≡ buffer_of room (shut_text number) buf.old }
    ensures prefix_len { IsPrefixLen result buf.new }
{
    if buf.len() < ROOM {
        return 0;
    }
    shut_text(buf, number)
}
