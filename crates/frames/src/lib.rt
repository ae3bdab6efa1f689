// The frame under way: turns a readable transfer into an answer. It never sees the ledger.
#![tactic(auto)]

ghost use Rattle.std.specs.Prelude.{◌≡◌, ◌+◌, ◌<◌, ◌^◌};
ghost use Rattle.session_rules.specs.Track.{handing};
ghost use Rattle.session_rules.specs.Turns.{first_of, clash_of, begun_of, joined_of, filled_of, written_of, complete_of, ends_of, turned_why, fate_of, phase_of, join_turn, stray_turn, turn_of, ready_of, hands_of, out_of, spoilt_of, closed_of, Roomy};

use session_rules::{
    Answer, Delivery, Ended, Fate, Fault, HandOut, Header, Layer, Out, Phase, Reason, Run, Shut,
    Stamp, Track, Turn,
};
use sizes::Opening;

// The earlier fault stands.
fn first_of(f: Fault, bad: bool, why: Reason) -> Fault
    ensures { result ≡ first_of f bad why }
{
    f.or(bad.then_some(why))
}

// Inner: two stamps that differ.
pub fn clash(a: Stamp, b: Stamp) -> bool
    ensures { result ≡ clash_of a b }
{
    match (a, b) {
        (Some(x), Some(y)) => x != y,
        _ => false,
    }
}

// How much is written once n bytes have come.
fn filled(f: Fault, fill: usize, n: usize) -> usize
    requires { fill + n < 2 ^ 63 }
    ensures { result ≡ filled_of f fill n }
{
    match f {
        None => fill + n,
        Some(_) => fill,
    }
}

// How many of n bytes are written.
fn written(f: Fault, n: usize) -> usize
    ensures { result ≡ written_of f n }
{
    match f {
        None => n,
        Some(_) => 0,
    }
}

// A frame begins, with its first transfer's FID and still bit.
fn begun(gap: bool, fid: bool, still: bool) -> Run
    ensures { result ≡ begun_of gap fid still }
{
    let fault = first_of(None, gap, Reason::Gap);
    Run {
        fid,
        still,
        fault,
        bytes: 0,
        fill: 0,
        stamp: None,
        layer: None,
    }
}

// A transfer with n bytes of data joins a frame: error, clock, mixed, long, in this order.
fn joined(o: Opening, r: Run, h: Header, n: usize) -> Run
    requires { (r.bytes + n < 2 ^ 63) × (r.fill + n < 2 ^ 63) }
    ensures { result ≡ joined_of o r h n }
{
    let a = r.stamp;
    let b = h.stamp;
    let bytes = r.bytes + n as u64;
    let long = (o.frame as u64) < bytes;
    let still = r.still;
    let mixed = still != h.still;
    let f = r.fault;
    let e = first_of(f, h.error, Reason::Error);
    let c = first_of(e, clash(a, b), Reason::Clock);
    let m = first_of(c, mixed, Reason::Mixed);
    let fault = first_of(m, long, Reason::Long);
    let fill = filled(fault, r.fill, n);
    // The first stamp, and the last layer.
    let stamp = a.or(b);
    let layer = h.layer.or(r.layer);
    Run {
        fid: r.fid,
        still,
        fault,
        bytes,
        fill,
        stamp,
        layer,
    }
}

// A complete frame with its earliest fault, its bytes, its stamp, its layer and its still bit.
fn complete(f: Fault, len: u64, stamp: Stamp, layer: Layer, still: bool) -> Fate
    ensures { result ≡ complete_of f len stamp layer still }
{
    match f {
        Some(why) => Fate::Dropped(why),
        None => {
            if len == 0 {
                return Fate::Dropped(Reason::Empty);
            }
            if still {
                return Fate::Still(Delivery { len, stamp, layer });
            }
            Fate::Delivered(Delivery { len, stamp, layer })
        }
    }
}

// EOF ends a frame with D1 of the framing byte set, and is ignored with it clear.
fn ends(o: Opening, h: Header) -> bool
    ensures { result ≡ ends_of o h }
{
    sizes::by_eof(o) && h.eof
}

// What another FID calls a frame without fault that was not handed out: cut where EOF should have come, else empty.
fn turned_why(o: Opening) -> Reason
    ensures { result ≡ turned_why o }
{
    if sizes::by_eof(o) {
        Reason::Cut
    } else {
        Reason::Empty
    }
}

// The fate of a transfer of the frame r, which is r with it.
fn fate_of(eof: bool, r: Run) -> Fate
    ensures { result ≡ fate_of eof r }
{
    if eof {
        let f = r.fault;
        let stamp = r.stamp;
        let layer = r.layer;
        complete(f, r.bytes, stamp, layer, r.still)
    } else {
        Fate::Kept
    }
}

fn phase_of(eof: bool, r: Run) -> Phase
    ensures { result ≡ phase_of eof r }
{
    if eof {
        Phase::Past(r.fid)
    } else {
        Phase::Under(r)
    }
}

// A transfer with n bytes of data joins the frame r.
fn join(o: Opening, r: Run, h: Header, n: usize, ended: Ended, gone: u64) -> Turn
    requires { (r.bytes + n < 2 ^ 63) × (r.fill + n < 2 ^ 63) }
    ensures { result ≡ join_turn o r h n ended gone }
{
    let at = r.fill;
    let next = joined(o, r, h, n);
    let f = next.fault;
    let len = written(f, n);
    let bytes = next.bytes;
    let eof = ends(o, h);
    let fate = fate_of(eof, next);
    let phase = phase_of(eof, next);
    Turn {
        track: Track { phase, gap: false },
        answer: Answer { ended, fate },
        gone,
        bytes,
        at,
        len,
    }
}

// A transfer with n bytes of data after its run's frame: nothing is ended and nothing is written.
fn stray(fid: bool, n: usize) -> Turn
    ensures { result ≡ stray_turn fid n }
{
    Turn {
        track: Track {
            phase: Phase::Past(fid),
            gap: false,
        },
        answer: Answer {
            ended: None,
            fate: Fate::Stray,
        },
        gone: 0,
        bytes: n as u64,
        at: 0,
        len: 0,
    }
}

// A frame without fault so far, with data.
fn ready(f: Fault, bytes: u64) -> bool
    ensures { result ≡ ready_of f bytes }
{
    f.is_none() && bytes != 0
}

// The fate that a frame handed out has in the ledger.
pub fn fate_for(x: HandOut) -> Fate
    ensures { result ≡ handing x.still x.delivery }
{
    let d = x.delivery;
    if x.still {
        Fate::Still(d)
    } else {
        Fate::Delivered(d)
    }
}

// Whether a readable transfer with this header can't be taken before the frame under way is handed out: D1 of the framing byte clear, the other FID, no fault
// and data.
pub fn hands(track: Track, o: Opening, h: Header) -> bool
    ensures { result ≡ hands_of o track h }
{
    if sizes::by_eof(o) {
        return false;
    }
    match track.phase {
        Phase::Fresh => false,
        Phase::Past(_) => false,
        Phase::Under(r) => r.fid != h.fid && ready(r.fault, r.bytes),
    }
}

// Hands out the frame under way. What comes after it in its run is stray, as after an EOF; the gap flag stays. Where no frame is under way, nothing is in it.
pub fn hand_out(track: Track) -> Out
    ensures { result ≡ out_of track }
{
    let phase = track.phase;
    match phase {
        Phase::Fresh | Phase::Past(_) => Out {
            track,
            frame: HandOut {
                still: false,
                delivery: Delivery {
                    len: 0,
                    stamp: None,
                    layer: None,
                },
            },
        },
        Phase::Under(r) => {
            let stamp = r.stamp;
            let layer = r.layer;
            Out {
                track: Track {
                    phase: Phase::Past(r.fid),
                    gap: track.gap,
                },
                frame: HandOut {
                    still: r.still,
                    delivery: Delivery {
                        len: r.bytes,
                        stamp,
                        layer,
                    },
                },
            }
        }
    }
}

// Inner: a readable transfer with n bytes of data. The session has looked at the sizes (50).
pub fn turn(track: Track, o: Opening, h: Header, n: usize) -> Turn
    requires { (Roomy track.phase) × (n < 2 ^ 62) }
    ensures { result ≡ turn_of o track h n }
{
    let phase = track.phase;
    match phase {
        Phase::Fresh => join(o, begun(track.gap, h.fid, h.still), h, n, None, 0),
        Phase::Under(r) => {
            if r.fid == h.fid {
                return join(o, r, h, n, None, 0);
            }
            let why = r.fault.unwrap_or(turned_why(o));
            join(
                o,
                begun(track.gap, h.fid, h.still),
                h,
                n,
                Some(why),
                r.bytes,
            )
        }
        Phase::Past(fid) => {
            if fid == h.fid {
                return stray(fid, n);
            }
            join(o, begun(track.gap, h.fid, h.still), h, n, None, 0)
        }
    }
}

// After an unreadable or lost transfer: a gap for the frame under way, and for one that begins next.
pub fn spoilt(track: Track) -> Track
    ensures { result ≡ spoilt_of track }
{
    let phase = track.phase;
    match phase {
        Phase::Fresh => Track { phase, gap: true },
        Phase::Past(_) => Track { phase, gap: true },
        Phase::Under(r) => {
            let fault = first_of(r.fault, true, Reason::Gap);
            Track {
                phase: Phase::Under(Run { fault, ..r }),
                gap: true,
            }
        }
    }
}

// Close ends a frame under way.
pub fn shut(track: Track) -> Shut
    ensures { result ≡ closed_of track }
{
    let phase = track.phase;
    match phase {
        Phase::Fresh | Phase::Past(_) => Shut {
            track,
            ended: None,
            gone: 0,
        },
        Phase::Under(r) => {
            let why = r.fault.unwrap_or(Reason::Cut);
            Shut {
                track: Track {
                    phase: Phase::Past(r.fid),
                    gap: track.gap,
                },
                ended: Some(why),
                gone: r.bytes,
            }
        }
    }
}
