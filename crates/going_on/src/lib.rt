// A transfer that goes on with the frame under way: the common case of take, found by few tests on the bytes of the old kind of header.
#![tactic(auto)]

ghost use Rattle.std.specs.Prelude.{◌≡◌, true, not, ◌+◌, ◌≤◌, ◌<◌, ◌^◌, length};
ghost use Rattle.sizes.specs.declared.HeaderKind.TheVariants.{Old};
ghost use Rattle.session_rules.specs.Layouts.{header_layout};
ghost use Rattle.session_rules.specs.Transfer.{need_of, stamp_of};
ghost use Rattle.session_rules.specs.Turns.{clash_of, earlier_of};
ghost use Rattle.session_rules.specs.OldKind.{old_header};
ghost use Rattle.going_on.specs.GoingOn.{went_on};
ghost use Rattle.going_on.specs.Bytes.{is_old, one_of, marks_of, is_marked, data_of, bytes_go_on};

use session_rules::{Run, Stamp};
use sizes::{HeaderKind, Opening};

// The bits of the flag byte that are compared: FID, EOF, still, error and end of header.
const COMPARED: u8 = 227;

// End of header, and the still bit.
const ENDED: u8 = 128;

const STILL: u8 = 32;

fn is_old(kind: HeaderKind) -> bool
    ensures { result ≡ is_old kind }
{
    matches!(kind, HeaderKind::Old)
}

fn one(b: bool) -> u8
    ensures { (result ≡ one_of b) × (result ≤ 1) }
{
    if b { 1 } else { 0 }
}

// What the flag byte has at the bits that are compared: the frame's FID and still bit, end of header, and neither EOF nor error.
fn marks(fid: bool, still: bool) -> u8
    ensures { result ≡ marks_of fid still }
{
    ENDED + one(fid) + one(still) * STILL
}

// A readable header with these marks.
fn is_marked(fid: bool, still: bool, payload: usize, t: &[u8]) -> bool
    ensures { result ≡ is_marked fid still payload t.now }
{
    let n = t.len();
    if n < 2 {
        return false;
    }
    if payload < n {
        return false;
    }
    let flags = t[1];
    if flags & COMPARED != marks(fid, still) {
        return false;
    }
    let from = le::wide(t[0]);
    if n < from {
        return false;
    }
    !payload::old_too_short(from, flags as u32)
}

// No stamp that differs from the frame's. A frame that has none lets the transfer's unread.
fn agrees(was: Stamp, t: &[u8], flags: u32) -> bool
    requires { need_of (header_layout Old) flags ≤ length t.now }
    ensures { result ≡ not (clash_of was (stamp_of (header_layout Old) t.now flags)) }
{
    match was {
        None => true,
        Some(_) => !frames::clash(was, payload::old_stamp(t, flags)),
    }
}

// The first stamp of two: the frame's, or the transfer's. No `or`, which would read the transfer's stamp of each transfer.
fn first_stamp(was: Stamp, t: &[u8], flags: u32) -> Stamp
    requires { need_of (header_layout Old) flags ≤ length t.now }
    ensures { result ≡ earlier_of was (stamp_of (header_layout Old) t.now flags) }
{
    match was {
        None => payload::old_stamp(t, flags),
        Some(_) => was,
    }
}

// Inner: whether a transfer goes on with the frame under way. Of a transfer that does, every test is asked here; no says nothing of it.
pub fn goes_on(o: Opening, r: Run, t: &[u8]) -> bool
    ensures { result ≡ bytes_go_on o r t.now }
{
    if !is_old(o.kind) {
        return false;
    }
    if r.fault.is_some() {
        return false;
    }
    if !is_marked(r.fid, r.still, o.payload, t) {
        return false;
    }
    let n = t.len() - le::wide(t[0]);
    if o.frame < r.fill {
        return false;
    }
    if o.frame - r.fill < n {
        return false;
    }
    agrees(r.stamp, t, t[1] as u32)
}

// Inner: the frame with that transfer.
pub fn went_on(o: Opening, r: Run, t: &[u8]) -> Run
    requires { (bytes_go_on o r t.now ≡ true) × (r.bytes + data_of t.now < 2 ^ 63) }
    ensures { result ≡ went_on r (old_header t.now) (data_of t.now) }
{
    let n = t.len() - le::wide(t[0]);
    let stamp = first_stamp(r.stamp, t, t[1] as u32);
    Run {
        bytes: r.bytes + n as u64,
        fill: r.fill + n,
        stamp,
        fault: None,
        ..r
    }
}
