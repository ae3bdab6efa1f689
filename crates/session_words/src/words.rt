// Laying a session's rest out in words, and reading it back.
ghost use Rattle.std.specs.Prelude.{◌≡◌, false, ◌<◌, ◌≤◌};
ghost use Rattle.rules.specs.Numbered.{any_below};
ghost use Rattle.session_words.specs.Words.{word_count, one_of, stamp_word, layer_word, reason_word, fault_word, kind_word, phase_word, no_run, run_of, marks_of, words_of};
ghost use Rattle.session_words.specs.Reading.{stamp_in, layer_in, fault_in, kind_in, phase_in, rest_in, differ_at, spare_set, read_of, Plain};

use crate::{Read, Words};
use session_rules::{Fault, Layer, Phase, Reason, Rest, Run, Stamp, Track};
use sizes::{HeaderKind, Opening};

// Where the words of the state stand.
const FRAME: usize = 9;

const PAYLOAD: usize = 10;

const FRAMING: usize = 11;

const MARKS: usize = 12;

const TAKEN: usize = 13;

const LAST: usize = 14;

const BYTES: usize = 15;

const FILL: usize = 16;

const STAMP: usize = 17;

const LAYER: usize = 18;

fn one(b: bool) -> u64
    ensures { (result ≡ one_of b) × (result ≤ 1) }
{
    if b { 1 } else { 0 }
}

fn stamp_word(s: Stamp) -> u64
    ensures { result ≡ stamp_word s }
{
    match s {
        None => 0,
        Some(stamp) => stamp as u64 + 1,
    }
}

fn layer_word(s: Layer) -> u64
    ensures { result ≡ layer_word s }
{
    match s {
        None => 0,
        Some(layer) => layer as u64 + 1,
    }
}

// Inner: a reason's number.
pub fn reason_word(why: Reason) -> u8
    ensures { (result ≡ reason_word why) × (result ≤ 7) }
{
    match why {
        Reason::Gap => 1,
        Reason::Error => 2,
        Reason::Clock => 3,
        Reason::Mixed => 4,
        Reason::Long => 5,
        Reason::Cut => 6,
        Reason::Empty => 7,
    }
}

fn fault_word(f: Fault) -> u64
    ensures { (result ≡ fault_word f) × (result ≤ 7) }
{
    match f {
        None => 0,
        Some(why) => reason_word(why) as u64,
    }
}

fn kind_word(k: HeaderKind) -> u64
    ensures { (result ≡ kind_word k) × (result ≤ 1) }
{
    match k {
        HeaderKind::Old => 0,
        HeaderKind::Vp8 => 1,
    }
}

fn phase_word(p: Phase) -> u64
    ensures { (result ≡ phase_word p) × (result ≤ 2) }
{
    match p {
        Phase::Under(_) => 0,
        Phase::Fresh => 1,
        Phase::Past(_) => 2,
    }
}

// No frame under way, with the FID of the run.
fn no_run(fid: bool) -> Run
    ensures { result ≡ no_run fid }
{
    Run {
        bytes: 0,
        fill: 0,
        stamp: None,
        fid,
        still: false,
        fault: None,
        layer: None,
    }
}

fn run_of(p: Phase) -> Run
    ensures { result ≡ run_of p }
{
    match p {
        Phase::Fresh => no_run(false),
        Phase::Under(run) => run,
        Phase::Past(fid) => no_run(fid),
    }
}

fn marks_of(r: Rest) -> u64
    ensures { result ≡ marks_of r }
{
    let o = r.opening;
    let t = r.track;
    let phase = t.phase;
    let run = run_of(phase);
    let fault = run.fault;
    let kind = o.kind;
    let fid = one(run.fid);
    let still = one(run.still);
    let why = fault_word(fault);
    let p = phase_word(phase);
    let gap = one(t.gap);
    let closed = one(r.closed);
    let k = kind_word(kind);
    fid + 2 * still + 4 * why + 32 * p + 128 * gap + 256 * closed + 512 * k
}

// Inner: the words of a session's rest.
pub fn words_of(r: Rest) -> Words
    ensures { result ≡ words_of r }
{
    let o = r.opening;
    let t = r.track;
    let phase = t.phase;
    let run = run_of(phase);
    let last = r.last;
    let stamp = run.stamp;
    let layer = run.layer;
    [
        0,
        0,
        0,
        0,
        0,
        0,
        0,
        0,
        0,
        o.frame as u64,
        o.payload as u64,
        o.framing as u64,
        marks_of(r),
        r.taken as u64,
        stamp_word(last),
        run.bytes,
        run.fill as u64,
        stamp_word(stamp),
        layer_word(layer),
    ]
}

fn stamp_in(x: u64) -> Stamp
    ensures { result ≡ stamp_in x }
{
    if x == 0 {
        return None;
    }
    Some(((x - 1) % 4294967296) as u32)
}

fn layer_in(x: u64) -> Layer
    ensures { result ≡ layer_in x }
{
    if x == 0 {
        return None;
    }
    Some(((x - 1) % 65536) as u16)
}

fn fault_in(x: u64) -> Fault
    ensures { result ≡ fault_in x }
{
    match x {
        0 => None,
        1 => Some(Reason::Gap),
        2 => Some(Reason::Error),
        3 => Some(Reason::Clock),
        4 => Some(Reason::Mixed),
        5 => Some(Reason::Long),
        6 => Some(Reason::Cut),
        _ => Some(Reason::Empty),
    }
}

fn kind_in(x: u64) -> HeaderKind
    ensures { result ≡ kind_in x }
{
    if x == 0 {
        return HeaderKind::Old;
    }
    HeaderKind::Vp8
}

fn phase_in(x: u64, run: Run) -> Phase
    ensures { result ≡ phase_in x run }
{
    match x {
        0 => Phase::Under(run),
        1 => Phase::Fresh,
        _ => Phase::Past(run.fid),
    }
}

// Inner: what words are read as, whether they are a session's or not.
pub fn rest_in(w: &Words) -> Rest
    ensures { result ≡ rest_in w.now }
{
    let marks = w[MARKS];
    let kind = kind_in(marks / 512);
    let fault = fault_in(marks / 4 % 8);
    let stamp = stamp_in(w[STAMP]);
    let layer = layer_in(w[LAYER]);
    let last = stamp_in(w[LAST]);
    let phase = phase_in(
        marks / 32 % 4,
        Run {
            bytes: w[BYTES],
            fill: w[FILL] as usize,
            stamp,
            fid: marks % 2 == 1,
            still: marks / 2 % 2 == 1,
            fault,
            layer,
        },
    );
    Rest {
        opening: Opening {
            frame: w[FRAME] as usize,
            payload: w[PAYLOAD] as usize,
            framing: (w[FRAMING] % 256) as u8,
            kind,
        },
        closed: marks / 256 % 2 == 1,
        taken: (w[TAKEN] % 4294967296) as u32,
        track: Track {
            phase,
            gap: marks / 128 % 2 == 1,
        },
        last,
    }
}

// Whether one of the first n words differs.
fn differs(w: &Words, x: &Words, n: usize) -> bool
    requires { n ≤ word_count }
    ensures { result ≡ any_below n (differ_at w.now x.now) }
{
    for k in 0..n {
        if w[k] != x[k] {
            return true;
        }
    }
    false
}

// Inner: whether a word of the ledger's rest is set (54).
pub fn spare_set(w: &Words) -> bool
    ensures { result ≡ spare_set w.now }
{
    let none = [0u64; 19];
    differs(w, &none, 9)
}

// Inner: whether the words are a session's with a frame without fault under way, of old headers, no gap and no layer: by few tests. No says nothing of them.
pub fn is_plain(w: &Words) -> bool
    requires { spare_set w.now ≡ false }
    ensures { Plain w.now result }
{
    if 3 < w[MARKS] {
        return false;
    }
    if 255 < w[FRAMING] {
        return false;
    }
    if 4294967295 < w[TAKEN] {
        return false;
    }
    if 4294967296 < w[LAST] {
        return false;
    }
    if 4294967296 < w[STAMP] {
        return false;
    }
    w[LAYER] == 0
}

// Inner: the rest that the words are laid out from, or 54 or 50.
pub fn read(w: &Words) -> Read
    ensures { result ≡ read_of w.now }
{
    if spare_set(w) {
        return Read::Broken(54);
    }
    let rest = rest_in(w);
    let x = words_of(rest);
    if differs(w, &x, 19) {
        return Read::Broken(50);
    }
    Read::Laid(rest)
}
