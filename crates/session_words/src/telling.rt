// What C is told of a call.
ghost use Rattle.std.specs.Prelude.{◌≡◌, ◌≤◌};
ghost use Rattle.session_words.specs.Told.{refused_told, plain_told, stamp_flag, layer_flag, stamp_low, layer_low, frame_told, ended_word, fate_told, handed_fate, outcome_told, report_told, closing_told, start_told};

use crate::{Told, words};
use session_rules::{Closing, Delivery, Ended, Fate, Layer, Outcome, Report, Stamp, Start};

// Inner: a refusal.
pub fn refused(k: u8) -> Told
    ensures { result ≡ refused_told k }
{
    Told {
        refused: k,
        ended: 0,
        fate: 0,
        detail: 0,
        flags: 0,
        zero: 0,
        layer: 0,
        length: 0,
        stamp: 0,
    }
}

// Inner: a call that hands no frame over.
pub fn plain(ended: u8, fate: u8, detail: u8) -> Told
    ensures { result ≡ plain_told ended fate detail }
{
    Told {
        refused: 0,
        ended,
        fate,
        detail,
        flags: 0,
        zero: 0,
        layer: 0,
        length: 0,
        stamp: 0,
    }
}

fn stamp_flag(s: Stamp) -> u8
    ensures { (result ≡ stamp_flag s) × (result ≤ 1) }
{
    match s {
        None => 0,
        Some(_) => 1,
    }
}

fn layer_flag(y: Layer) -> u8
    ensures { (result ≡ layer_flag y) × (result ≤ 2) }
{
    match y {
        None => 0,
        Some(_) => 2,
    }
}

fn stamp_low(s: Stamp) -> u32
    ensures { result ≡ stamp_low s }
{
    match s {
        None => 0,
        Some(x) => x,
    }
}

fn layer_low(y: Layer) -> u16
    ensures { result ≡ layer_low y }
{
    match y {
        None => 0,
        Some(x) => x,
    }
}

// A frame that is handed over.
fn frame(ended: u8, fate: u8, more: u8, d: Delivery) -> Told
    requires { more ≤ 4 }
    ensures { result ≡ frame_told ended fate more d }
{
    let s = d.stamp;
    let y = d.layer;
    let stamped = stamp_flag(s);
    let layered = layer_flag(y);
    let layer = layer_low(y);
    let stamp = stamp_low(s);
    Told {
        refused: 0,
        ended,
        fate,
        detail: 0,
        flags: more + stamped + layered,
        zero: 0,
        layer,
        length: (d.len % 4294967296) as u32,
        stamp,
    }
}

fn ended_word(e: Ended) -> u8
    ensures { result ≡ ended_word e }
{
    match e {
        None => 0,
        Some(why) => words::reason_word(why),
    }
}

fn fate_told(ended: u8, f: Fate) -> Told
    ensures { result ≡ fate_told ended f }
{
    match f {
        Fate::Idle => plain(ended, 0, 0),
        Fate::Kept => plain(ended, 1, 0),
        Fate::Stray => plain(ended, 2, 0),
        Fate::Delivered(d) => frame(ended, 3, 0, d),
        Fate::Still(d) => frame(ended, 4, 0, d),
        Fate::Dropped(why) => plain(ended, 5, words::reason_word(why)),
        Fate::Unreadable(k) => plain(ended, 6, k),
    }
}

fn handed_fate(still: bool) -> u8
    ensures { result ≡ handed_fate still }
{
    if still { 4 } else { 3 }
}

// Inner: what a transfer led to.
pub fn outcome(o: Outcome) -> Told
    ensures { result ≡ outcome_told o }
{
    match o {
        Outcome::Refused(k) => refused(k),
        Outcome::Taken(a) => {
            let e = a.ended;
            let f = a.fate;
            fate_told(ended_word(e), f)
        }
        Outcome::Handed(x) => {
            let d = x.delivery;
            frame(0, handed_fate(x.still), 4, d)
        }
    }
}

// Inner: 0, or what refuses a lost report.
pub fn report(x: Report) -> u8
    ensures { result ≡ report_told x }
{
    match x {
        Err(k) => k,
        Ok(()) => 0,
    }
}

// Inner: what close ended.
pub fn closing(x: Closing) -> Told
    ensures { result ≡ closing_told x }
{
    match x {
        Err(k) => refused(k),
        Ok(e) => plain(ended_word(e), 0, 0),
    }
}

// Inner: 0, or what refuses an opening.
pub fn start(x: Start) -> u32
    ensures { result ≡ start_told x }
{
    match x {
        Err(k) => k as u32,
        Ok(()) => 0,
    }
}
