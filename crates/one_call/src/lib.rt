// Takes one transfer a call, in a session whose record C keeps: sixteen words, and the ledger's numbers.
#![tactic(auto)]

ghost use Rattle.std.specs.Prelude.{◌≡◌, length};
ghost use Rattle.session_rules.specs.Accounts.{number_count};
ghost use Rattle.session_rules.specs.Session.{take_of, buffer_of};
ghost use Rattle.one_call.specs.Words.{one_of, stamp_in, stamp_word, fault_in, reason_word, fault_word, phase_in, phase_word, no_run, run_of, fate_word, fate_length, told_of, length_of, rest_in, words_of, session_in, answered_in};

use session_rules::{Fate, Fault, Outcome, Phase, Reason, Rest, Run, Stamp, Track};
use sizes::{HeaderKind, Opening};

// The opening (of old headers) in 0 to 2, closed, taken, gap and the last stamp in 3 to 6, the phase and its FID in 7 and 8, the frame under way in 9 to 13, what
// the last call answered in 14, and the length of a frame that it handed over in 15.
type Words = [u64; 16];

// No stamp.
const ABSENT: u64 = 4294967296;

fn one(b: bool) -> u64
    ensures { result ≡ one_of b }
{
    if b { 1 } else { 0 }
}

fn stamp_in(x: u64) -> Stamp
    ensures { result ≡ stamp_in x }
{
    if x < ABSENT { Some(x as u32) } else { None }
}

fn stamp_word(s: Stamp) -> u64
    ensures { result ≡ stamp_word s }
{
    match s {
        Some(x) => x as u64,
        None => ABSENT,
    }
}

fn fault_in(x: u64) -> Fault
    ensures { result ≡ fault_in x }
{
    match x {
        0 => None,
        1 => Some(Reason::Gap),
        2 => Some(Reason::Error),
        3 => Some(Reason::Clock),
        4 => Some(Reason::Mixed),
        5 => Some(Reason::Long),
        6 => Some(Reason::Cut),
        _ => Some(Reason::Empty),
    }
}

fn reason_word(r: Reason) -> u64
    ensures { result ≡ reason_word r }
{
    match r {
        Reason::Gap => 1,
        Reason::Error => 2,
        Reason::Clock => 3,
        Reason::Mixed => 4,
        Reason::Long => 5,
        Reason::Cut => 6,
        Reason::Empty => 7,
    }
}

fn fault_word(f: Fault) -> u64
    ensures { result ≡ fault_word f }
{
    match f {
        None => 0,
        Some(why) => reason_word(why),
    }
}

fn phase_in(x: u64, run: Run) -> Phase
    ensures { result ≡ phase_in x run }
{
    match x {
        0 => Phase::Fresh,
        1 => Phase::Under(run),
        _ => Phase::Past(run.fid),
    }
}

fn phase_word(p: Phase) -> u64
    ensures { result ≡ phase_word p }
{
    match p {
        Phase::Fresh => 0,
        Phase::Under(_) => 1,
        Phase::Past(_) => 2,
    }
}

// No frame under way, with the FID of the run.
fn no_run(fid: bool) -> Run
    ensures { result ≡ no_run fid }
{
    Run {
        bytes: 0,
        fill: 0,
        stamp: None,
        fid,
        still: false,
        fault: None,
        layer: None,
    }
}

fn run_of(p: Phase) -> Run
    ensures { result ≡ run_of p }
{
    match p {
        Phase::Fresh => no_run(false),
        Phase::Under(run) => run,
        Phase::Past(fid) => no_run(fid),
    }
}

fn rest_in(w: &Words) -> Rest
    ensures { result ≡ rest_in w.now }
{
    let stamp = stamp_in(w[11]);
    let fault = fault_in(w[13]);
    let last = stamp_in(w[6]);
    let phase = phase_in(
        w[7],
        Run {
            bytes: w[9],
            fill: w[10] as usize,
            stamp,
            fid: w[8] == 1,
            still: w[12] == 1,
            fault,
            layer: None,
        },
    );
    Rest {
        opening: Opening {
            frame: w[0] as usize,
            payload: w[1] as usize,
            framing: (w[2] % 256) as u8,
            kind: HeaderKind::Old,
        },
        closed: w[3] == 1,
        taken: (w[4] % 4294967296) as u32,
        track: Track {
            phase,
            gap: w[5] == 1,
        },
        last,
    }
}

// A refusal's number; or 1 to 7 by the transfer's fate, and 8 where the frame under way is handed out before it.
fn told(o: Outcome) -> u64
    ensures { result ≡ told_of o }
{
    match o {
        Outcome::Refused(n) => n as u64,
        Outcome::Taken(a) => {
            let f = a.fate;
            fate_word(f)
        }
        Outcome::Handed(_) => 8,
    }
}

fn fate_word(f: Fate) -> u64
    ensures { result ≡ fate_word f }
{
    match f {
        Fate::Idle => 1,
        Fate::Kept => 2,
        Fate::Stray => 3,
        Fate::Delivered(_) => 4,
        Fate::Still(_) => 5,
        Fate::Dropped(_) => 6,
        Fate::Unreadable(_) => 7,
    }
}

fn fate_length(f: Fate) -> u64
    ensures { result ≡ fate_length f }
{
    match f {
        Fate::Delivered(d) => d.len,
        Fate::Still(d) => d.len,
        Fate::Idle => 0,
        Fate::Kept => 0,
        Fate::Stray => 0,
        Fate::Dropped(_) => 0,
        Fate::Unreadable(_) => 0,
    }
}

fn length_of(o: Outcome) -> u64
    ensures { result ≡ length_of o }
{
    match o {
        Outcome::Refused(_) => 0,
        Outcome::Taken(a) => {
            let f = a.fate;
            fate_length(f)
        }
        Outcome::Handed(h) => {
            let d = h.delivery;
            d.len
        }
    }
}

fn set(w: &mut Words, rest: Rest, outcome: Outcome)
    ensures { w.new ≡ words_of rest outcome }
{
    let o = rest.opening;
    let track = rest.track;
    let phase = track.phase;
    let run = run_of(phase);
    let fault = run.fault;
    let stamp = run.stamp;
    let last = rest.last;
    *w = [
        o.frame as u64,
        o.payload as u64,
        o.framing as u64,
        one(rest.closed),
        rest.taken as u64,
        one(track.gap),
        stamp_word(last),
        phase_word(phase),
        one(run.fid),
        run.bytes,
        run.fill as u64,
        stamp_word(stamp),
        one(run.still),
        fault_word(fault),
        told(outcome),
        length_of(outcome),
    ];
}

// Inner: for measuring. Takes one transfer; what is required the type of the numbers says.
#[unsafe(no_mangle)]
pub extern "C" fn palkodhen_call(w: &mut [u64; 16], m: &mut [u64; 31], buffer: &mut [u8], t: &[u8])
    requires { length m.old ≡ number_count }
    ensures w_after { w.new ≡ answered_in (take_of (session_in w.old m.old) (length buffer.old) t.now) }
    ensures m_after { m.new ≡ (take_of (session_in w.old m.old) (length buffer.old) t.now).session.numbers }
    ensures buffer_after { buffer.new ≡ buffer_of (session_in w.old m.old) buffer.old t.now }
{
    let rest = rest_in(w);
    let taken = session::take(rest, m, buffer, t);
    let next = taken.rest;
    let outcome = taken.outcome;
    set(w, next, outcome);
}
