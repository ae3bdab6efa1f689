// A line of text for a frame that ended: as a replay prints it, or as the list of all frames does.
#![tactic(auto)]

ghost use Rattle.std.specs.Prelude.{◌≡◌, [], ◌∷◌, ◌+◌, ◌<◌, ◌≤◌, length, Some};
ghost use Rattle.text.specs.Put.{Put};
ghost use Rattle.endings.specs.declared.How.{How};
ghost use Rattle.endings.specs.Inner.{told_in, list_in};
ghost use Rattle.session_rules.specs.declared.Step.{Step};
ghost use Rattle.frame_lines.specs.declared.Show.{Show};
ghost use Rattle.frame_lines.specs.Lines.{since_of, last_of, since_text, stamp_text, name_of, replay_text, frame_text};
ghost use Rattle.frame_lines.specs.Inner.{line_most, next_number, line_of, counted_after, lines_in, counted_all};

use endings::{Ending, Endings, How};
use session_rules::{Reason, Stamp, Step};

// What is printed of the frames: nothing by the ledger program, those that were delivered by a replay, all of them by the list.
#[derive(Clone, Copy)]
pub enum Show {
    Nothing,
    Replay,
    Frames,
}

// The number of the next line, and the stamp of the last delivered frame of film that has one.
#[derive(Clone, Copy)]
pub struct Counted {
    pub number: u64,
    pub last: Stamp,
}

#[derive(Drop)]
pub struct Lines {
    pub counted: Counted,
    // The place after them.
    pub at: usize,
}

// The number of the line after this one. No trace has so many frames that it begins again.
fn next(n: u64) -> u64
    ensures { result ≡ next_number n }
{
    std::num::wrapping_add_u64(n, 1)
}

fn step_from(last: Stamp, stamp: Stamp) -> Option<Step>
    ensures { result ≡ since_of last stamp }
{
    match (last, stamp) {
        (Some(a), Some(b)) => Some(ledger::step_between(a, b)),
        _ => None,
    }
}

// A frame with no stamp does not move it.
fn moved(last: Stamp, stamp: Stamp) -> Stamp
    ensures { result ≡ last_of last stamp }
{
    stamp.or(last)
}

// No stamp. A step that is not there has a dash of its own, in put_since.
fn put_dash(buf: &mut [u8], at: usize) -> usize
    requires { at + 2 ≤ length buf.old }
    ensures { Put buf.old at (32 ∷ 45 ∷ []) result buf.new }
{
    text::put(buf, at, b" -")
}

fn put_backward(buf: &mut [u8], at: usize, n: u32) -> usize
    requires { at + 22 ≤ length buf.old }
    ensures put { Put buf.old at (since_text (Some (Step.Backward n))) result buf.new }
    ensures upper_bound { result ≤ at + 22 }
{
    let minus = text::put(buf, at, b" -");
    text::digits(buf, minus, n as u64)
}

fn put_since(buf: &mut [u8], at: usize, s: Option<Step>) -> usize
    requires { at + 22 ≤ length buf.old }
    ensures put { Put buf.old at (since_text s) result buf.new }
    ensures upper_bound { result ≤ at + 22 }
{
    match s {
        None => text::put(buf, at, b" -"),
        Some(step) => match step {
            Step::Forward(n) => text::number(buf, at, n as u64),
            Step::Backward(n) => put_backward(buf, at, n),
        },
    }
}

// Number, length and step of a delivered frame or still.
fn put_replay(buf: &mut [u8], at: usize, n: u64, len: u64, s: Option<Step>) -> usize
    requires { at + line_most ≤ length buf.old }
    ensures put { Put buf.old at (replay_text n len s) result buf.new }
    ensures upper_bound { result ≤ at + line_most }
{
    let numbered = text::digits(buf, at, n);
    let sized = text::number(buf, numbered, len);
    let stepped = put_since(buf, sized, s);
    text::put(buf, stepped, b"\n")
}

fn put_reason(buf: &mut [u8], at: usize, why: Reason) -> usize
    requires { at + 10 ≤ length buf.old }
    ensures put { Put buf.old at (name_of (How.Dropped why)) result buf.new }
    ensures upper_bound { result ≤ at + 10 }
{
    match why {
        Reason::Gap => text::put(buf, at, b" gap"),
        Reason::Error => text::put(buf, at, b" error"),
        Reason::Clock => text::put(buf, at, b" clock"),
        Reason::Mixed => text::put(buf, at, b" mixed"),
        Reason::Long => text::put(buf, at, b" long"),
        Reason::Cut => text::put(buf, at, b" cut"),
        Reason::Empty => text::put(buf, at, b" empty"),
    }
}

fn put_how(buf: &mut [u8], at: usize, how: How) -> usize
    requires { at + 10 ≤ length buf.old }
    ensures put { Put buf.old at (name_of how) result buf.new }
    ensures upper_bound { result ≤ at + 10 }
{
    match how {
        How::Delivered => text::put(buf, at, b" delivered"),
        How::Still => text::put(buf, at, b" still"),
        How::Dropped(why) => put_reason(buf, at, why),
    }
}

fn put_stamp(buf: &mut [u8], at: usize, stamp: Stamp) -> usize
    requires { at + 21 ≤ length buf.old }
    ensures put { Put buf.old at (stamp_text stamp) result buf.new }
    ensures upper_bound { result ≤ at + 21 }
{
    match stamp {
        None => put_dash(buf, at),
        Some(n) => text::number(buf, at, n as u64),
    }
}

// Number, fate, length and stamp of any frame that ended.
fn put_frame(buf: &mut [u8], at: usize, n: u64, e: Ending) -> usize
    requires { at + line_most ≤ length buf.old }
    ensures put { Put buf.old at (frame_text n e) result buf.new }
    ensures upper_bound { result ≤ at + line_most }
{
    let how = e.how;
    let stamp = e.stamp;
    let numbered = text::digits(buf, at, n);
    let fated = put_how(buf, numbered, how);
    let sized = text::number(buf, fated, e.len);
    let stamped = put_stamp(buf, sized, stamp);
    text::put(buf, stamped, b"\n")
}

// A delivered frame, or a still, as a replay prints it.
fn replayed(buf: &mut [u8], at: usize, c: Counted, e: Ending) -> Lines
    requires { at + line_most ≤ length buf.old }
    ensures put { Put buf.old at (line_of Show.Replay c e) result.at buf.new }
    ensures counted_value { (result.counted ≡ counted_after Show.Replay c e) × (result.at ≤ at + line_most) }
{
    let how = e.how;
    let stamp = e.stamp;
    let last = c.last;
    match how {
        How::Delivered => Lines {
            at: put_replay(buf, at, c.number, e.len, step_from(last, stamp)),
            counted: Counted {
                number: next(c.number),
                last: moved(last, stamp),
            },
        },
        How::Still => Lines {
            at: put_replay(buf, at, c.number, e.len, None),
            counted: Counted {
                number: next(c.number),
                last,
            },
        },
        How::Dropped(_) => Lines { counted: c, at },
    }
}

// The line of one frame, where there is one.
fn told(buf: &mut [u8], at: usize, show: Show, c: Counted, t: Option<Ending>) -> Lines
    requires { at + line_most ≤ length buf.old }
    ensures put { Put buf.old at (lines_in show c (told_in t)) result.at buf.new }
    ensures counted_value { (result.counted ≡ counted_all show c (told_in t)) × (result.at ≤ at + line_most) }
{
    match t {
        None => Lines { counted: c, at },
        Some(e) => match show {
            Show::Nothing => Lines { counted: c, at },
            Show::Replay => replayed(buf, at, c, e),
            Show::Frames => {
                let last = c.last;
                Lines {
                    at: put_frame(buf, at, c.number, e),
                    counted: Counted {
                        number: next(c.number),
                        last,
                    },
                }
            }
        },
    }
}

// Inner: the lines of what a call ended, from `at` on.
pub fn tell(buf: &mut [u8], at: usize, show: Show, c: Counted, e: Endings) -> Lines
    requires { at + (line_most + line_most) ≤ length buf.old }
    ensures put { Put buf.old at (lines_in show c (list_in e)) result.at buf.new }
    ensures counted_value { (result.counted ≡ counted_all show c (list_in e)) × (result.at ≤ at + (line_most + line_most)) }
{
    let first = e.first;
    let second = e.second;
    let one = told(buf, at, show, c, first);
    let counted = one.counted;
    told(buf, one.at, show, counted, second)
}
