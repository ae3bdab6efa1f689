// One payload transfer: its header, or what makes it unreadable.
#![tactic(auto)]

ghost use Rattle.std.specs.Prelude.{◌≡◌, not, ◌&&◌, ◌<◌, ◌≤◌, length, ltb};
ghost use Rattle.rules.specs.IfElse.{if_else};
ghost use Rattle.rules.specs.Numbered.{first_row, kept};
ghost use Rattle.sizes.specs.declared.HeaderKind.TheVariants.{Old};
ghost use Rattle.session_rules.specs.Layouts.{Laid, header_layout};
ghost use Rattle.session_rules.specs.Transfer.{flag_of, flags_at, has_layer, layer_place, need_of, stamp_missing, stamp_of, layer_of, header_by, rows_by, sorted_by, reading_of};

use session_rules::{Header, Layer, Layout, Reading, Stamp};
use sizes::{HeaderKind, Opening};

// The bits of the flags that both kinds of header read alike.
const FID: u8 = 0;

const EOF: u8 = 1;

const PTS: u8 = 2;

const SCR: u8 = 3;

const ERROR: u8 = 6;

// D5 marks a still, and D7 announces a layer, in one kind each.
const STILL: u8 = 5;

const LAYER: u8 = 7;

// The bytes of a PTS, of an SCR and of a layer.
const PTS_BYTES: usize = 4;

const SCR_BYTES: usize = 6;

const LAYER_BYTES: usize = 2;

const OLD: Layout = Layout {
    least: 2,
    ends: 7,
    stills: true,
    layered: false,
    timed: false,
};

const VP8: Layout = Layout {
    least: 4,
    ends: 23,
    stills: false,
    layered: true,
    timed: true,
};

// Whether bit n of the flags is set.
fn flag(flags: u32, n: u8) -> bool
    requires { n < 32 }
    ensures { result ≡ flag_of flags n }
{
    (flags >> n) & 1 == 1
}

// The flags: the bytes between the header's length and its fields, as one number.
fn flags_at(l: Layout, t: &[u8]) -> u32
    requires { (Laid l) × (l.least ≤ length t.now) }
    ensures { result ≡ flags_at l t.now }
{
    let low = t[1] as u32;
    if l.least == 2 {
        return low;
    }
    let high = le::le16(t, 2) as u32;
    low + high * 256
}

// n bytes, if the flag that announces them is set.
fn held(there: bool, n: usize) -> usize
    ensures { (result ≡ if_else there n 0) × (result ≤ n) }
{
    if there { n } else { 0 }
}

// Where a layer stands: after the PTS and the SCR.
fn layer_place(l: Layout, flags: u32) -> usize
    requires { Laid l }
    ensures { (result ≡ layer_place l flags) × (result ≤ 14) }
{
    let pts = held(flag(flags, PTS), PTS_BYTES);
    let scr = held(flag(flags, SCR), SCR_BYTES);
    l.least + pts + scr
}

fn has_layer(l: Layout, flags: u32) -> bool
    ensures { result ≡ has_layer l flags }
{
    l.layered && flag(flags, LAYER)
}

// 65: the header is shorter than what its flags say it holds.
fn too_short(l: Layout, len: usize, flags: u32) -> bool
    requires { Laid l }
    ensures { result ≡ ltb len (need_of l flags) }
{
    let layer = held(has_layer(l, flags), LAYER_BYTES);
    len < layer_place(l, flags) + layer
}

// 66: no end of header.
fn unended(l: Layout, flags: u32) -> bool
    requires { Laid l }
    ensures { result ≡ not (flag_of flags l.ends) }
{
    !flag(flags, l.ends)
}

// 67: no PTS where one has to be.
fn stamp_missing(l: Layout, flags: u32) -> bool
    ensures { result ≡ stamp_missing l flags }
{
    l.timed && !flag(flags, PTS)
}

// Ok, or the first of 61 to 67 that a transfer breaks.
fn unreadable_by(l: Layout, payload: usize, t: &[u8]) -> Result<(), u8>
    requires { Laid l }
    ensures { result ≡ kept (first_row (rows_by l payload t.now)) }
{
    let n = t.len();
    if n < l.least {
        return Err(61);
    }
    if payload < n {
        return Err(62);
    }
    let len = t[0] as usize;
    if len < l.least {
        return Err(63);
    }
    if n < len {
        return Err(64);
    }
    let flags = flags_at(l, t);
    if too_short(l, len, flags) {
        return Err(65);
    }
    if unended(l, flags) {
        return Err(66);
    }
    if stamp_missing(l, flags) {
        return Err(67);
    }
    Ok(())
}

// The stamp of a header whose flags are given.
fn stamp_of(l: Layout, t: &[u8], flags: u32) -> Stamp
    requires { need_of l flags ≤ length t.now }
    ensures { result ≡ stamp_of l t.now flags }
{
    if flag(flags, PTS) {
        Some(le::le32(t, l.least))
    } else {
        None
    }
}

// The layer of a header whose flags are given.
fn layer_of(l: Layout, t: &[u8], flags: u32) -> Layer
    requires { (Laid l) × (need_of l flags ≤ length t.now) }
    ensures { result ≡ layer_of l t.now flags }
{
    if has_layer(l, flags) {
        Some(le::le16(t, layer_place(l, flags)))
    } else {
        None
    }
}

fn is_still(l: Layout, flags: u32) -> bool
    ensures { result ≡ l.stills && flag_of flags 5 }
{
    l.stills && flag(flags, STILL)
}

fn header_by(l: Layout, t: &[u8]) -> Header
    requires { (Laid l) × (l.least ≤ length t.now) × (need_of l (flags_at l t.now) ≤ length t.now) }
    ensures { result ≡ header_by l t.now }
{
    let len = le::wide(t[0]);
    let flags = flags_at(l, t);
    let fid = flag(flags, FID);
    let eof = flag(flags, EOF);
    let still = is_still(l, flags);
    let error = flag(flags, ERROR);
    let stamp = stamp_of(l, t, flags);
    let layer = layer_of(l, t, flags);
    Header {
        len,
        fid,
        eof,
        still,
        error,
        stamp,
        layer,
    }
}

// A transfer by what its kind of header says.
fn read_by(l: Layout, payload: usize, t: &[u8]) -> Reading
    requires { Laid l }
    ensures { result ≡ sorted_by l payload t.now }
{
    match unreadable_by(l, payload, t) {
        Err(number) => Reading::Unreadable(number),
        Ok(()) => Reading::Readable(header_by(l, t)),
    }
}

// Reads one transfer: idle, unreadable by its number, or its header.
pub fn read(o: Opening, t: &[u8]) -> Reading
    ensures { result ≡ reading_of o t.now }
{
    if t.len() == 0 {
        return Reading::Idle;
    }
    match o.kind {
        HeaderKind::Old => read_by(OLD, o.payload, t),
        HeaderKind::Vp8 => read_by(VP8, o.payload, t),
    }
}

// Inner: 65 of the old kind of header.
pub fn old_too_short(len: usize, flags: u32) -> bool
    ensures { result ≡ ltb len (need_of (header_layout Old) flags) }
{
    too_short(OLD, len, flags)
}

// Inner: the stamp of the old kind of header.
pub fn old_stamp(t: &[u8], flags: u32) -> Stamp
    requires { need_of (header_layout Old) flags ≤ length t.now }
    ensures { result ≡ stamp_of (header_layout Old) t.now flags }
{
    stamp_of(OLD, t, flags)
}
