// Which frames a call ended, with their length and their first stamp: what the programs print a line for.
#![tactic(auto)]

ghost use Rattle.std.specs.Prelude.{◌≡◌, length};
ghost use Rattle.session_rules.specs.Transfer.{reading_of};
ghost use Rattle.endings.specs.Inner.{dropped_as, how_out, bytes_before, stamp_before, tell_ended, tell_dropped, tell_fate, tell_taken, tell_closed};

use session_rules::{
    Closing, Delivery, Ended, Fate, Header, Outcome, Phase, Reading, Reason, Rest, Stamp,
};
use sizes::Opening;

// What became of a frame that ended.
#[derive(Drop)]
pub enum How {
    Delivered,
    Still,
    Dropped(Reason),
}

// A frame that ended: the bytes of its data, and its first stamp.
#[derive(Drop)]
pub struct Ending {
    pub how: How,
    pub len: u64,
    pub stamp: Stamp,
}

// What a call ended, in order: a frame under way before it, or the one handed out; and the frame of its own transfer.
#[derive(Drop)]
pub struct Endings {
    pub first: Option<Ending>,
    pub second: Option<Ending>,
}

// A frame under way that a transfer's FID, or close, ended.
fn ended_frame(phase: Phase, ended: Ended) -> Option<Ending>
    ensures { result ≡ tell_ended phase ended }
{
    match ended {
        None => None,
        Some(why) => match phase {
            Phase::Fresh => None,
            Phase::Past(_) => None,
            Phase::Under(r) => {
                let stamp = r.stamp;
                Some(Ending {
                    how: How::Dropped(why),
                    len: r.bytes,
                    stamp,
                })
            }
        },
    }
}

// The bytes so far of the frame that a transfer with this header joins: those of a run of its FID, or none.
fn bytes_before(phase: Phase, fid: bool) -> u64
    ensures { result ≡ bytes_before phase fid }
{
    match phase {
        Phase::Fresh => 0,
        Phase::Past(_) => 0,
        Phase::Under(r) => {
            if r.fid == fid {
                return r.bytes;
            }
            0
        }
    }
}

// Its first stamp so far.
fn stamp_before(phase: Phase, fid: bool) -> Stamp
    ensures { result ≡ stamp_before phase fid }
{
    match phase {
        Phase::Fresh => None,
        Phase::Past(_) => None,
        Phase::Under(r) => {
            if r.fid == fid {
                return r.stamp;
            }
            None
        }
    }
}

// The frame that a transfer with this header and n bytes of data ended, dropped: with the transfer in it.
fn dropped_with(phase: Phase, h: Header, n: usize, why: Reason) -> Option<Ending>
    ensures { result ≡ dropped_as phase h n why }
{
    let so_far = bytes_before(phase, h.fid);
    let was = stamp_before(phase, h.fid);
    let len = std::num::wrapping_add_u64(so_far, n as u64);
    let stamp = was.or(h.stamp);
    Some(Ending {
        how: How::Dropped(why),
        len,
        stamp,
    })
}

fn dropped_frame(o: Opening, phase: Phase, t: &[u8], why: Reason) -> Option<Ending>
    ensures { result ≡ tell_dropped (reading_of o t.now) phase (length t.now) why }
{
    let reading = payload::read(o, t);
    match reading {
        Reading::Idle => None,
        Reading::Unreadable(_) => None,
        Reading::Readable(h) => dropped_with(phase, h, t.len() - h.len, why),
    }
}

// A frame with what the answer says of its delivery.
fn handed_out(still: bool, d: Delivery) -> Option<Ending>
    ensures { result ≡ how_out still d }
{
    let stamp = d.stamp;
    let how = if still { How::Still } else { How::Delivered };
    Some(Ending {
        how,
        len: d.len,
        stamp,
    })
}

// The frame that a transfer of this fate ended itself.
fn own_frame(o: Opening, phase: Phase, t: &[u8], fate: Fate) -> Option<Ending>
    ensures { result ≡ tell_fate (reading_of o t.now) phase (length t.now) fate }
{
    match fate {
        Fate::Idle => None,
        Fate::Kept => None,
        Fate::Stray => None,
        Fate::Unreadable(_) => None,
        Fate::Delivered(d) => handed_out(false, d),
        Fate::Still(d) => handed_out(true, d),
        Fate::Dropped(why) => dropped_frame(o, phase, t, why),
    }
}

// Which frames a take ended: of the record's rest before the call, the transfer that was offered, and what the call answered.
pub fn taken(before: Rest, t: &[u8], outcome: Outcome) -> Endings
    ensures { result ≡ tell_taken before t.now outcome }
{
    let o = before.opening;
    let track = before.track;
    let phase = track.phase;
    match outcome {
        Outcome::Refused(_) => Endings {
            first: None,
            second: None,
        },
        Outcome::Taken(a) => {
            let ended = a.ended;
            let fate = a.fate;
            let first = ended_frame(phase, ended);
            let second = own_frame(o, phase, t, fate);
            Endings { first, second }
        }
        Outcome::Handed(x) => {
            let d = x.delivery;
            Endings {
                first: handed_out(x.still, d),
                second: None,
            }
        }
    }
}

// Which frame close ended: of the record's rest before the call, and what the call answered.
pub fn closed(before: Rest, closing: Closing) -> Endings
    ensures { result ≡ tell_closed before closing }
{
    let track = before.track;
    let phase = track.phase;
    match closing {
        Err(_) => Endings {
            first: None,
            second: None,
        },
        Ok(ended) => Endings {
            first: ended_frame(phase, ended),
            second: None,
        },
    }
}
