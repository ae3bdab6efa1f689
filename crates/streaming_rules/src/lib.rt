// The rules of a streaming block's descriptors: 20 to 35, 39 and 40.
#![tactic(auto)]

ghost use Rattle.std.specs.Prelude.{◌≡◌, true, ◌+◌, ◌≤◌, ◌<◌, length};
ghost use Rattle.rules.specs.Numbered.{first_row, kept};
ghost use Rattle.streaming_descriptors.specs.Descriptors.{kind_at, len_at, shape, format_layout, frame_length_at, format_of};
ghost use Rattle.streaming_rules.specs.Rules.{formats_most, head_rows, is_unread, misplaced, offers_under, offers_at, default_offered, untrue_at, flag_wrong, line_wrong, kind_rows, rows};

use blocks::Limits;
use entities::ENTITIES_MOST;
use streaming_descriptors::{Format, Kind};

pub const FORMATS_MOST: usize = 8;

pub const FRAMES_MOST: usize = 64;

const LIMITS: Limits = Limits {
    least: 13,
    most: 16_384,
    total: 4,
    first: 21,
};

const OUTPUT_HEADER: u8 = 2;

const UNCOMPRESSED: u8 = 4;

const FRAME_BASED: u8 = 0x10;

// What the descriptors before one leave to its rules: whether the header's link is good, how many formats and frames came,
// the last format, and how many frames stand under it.
#[derive(Clone, Copy)]
pub struct Sofar {
    pub linked: bool,
    pub formats: usize,
    pub frames: usize,
    pub last: Format,
    pub numbered: u8,
}

// 27: a kind that is refused.
fn is_unread(kind: Kind) -> bool
    ensures { result ≡ is_unread kind }
{
    matches!(kind, Kind::Unread)
}

// 29 and 30, of the header.
fn header_rule(s: &[u8], at: usize, a: Sofar) -> Result<(), u8>
    requires { at + 13 ≤ length s.now }
    ensures { result ≡ kept (first_row (kind_rows Kind.Header s.now at a)) }
{
    let endpoint = s[at + 6];
    if (endpoint >> 7) % 2 != 1 {
        return Err(29);
    }
    if a.linked {
        return Ok(());
    }
    Err(30)
}

// 40: the flag of a frame-based format is not 0 or 1.
fn is_flag_wrong(s: &[u8], at: usize, format: u8) -> bool
    requires { at + (format_layout format).length ≤ length s.now }
    ensures { result ≡ flag_wrong format s.now at }
{
    format == FRAME_BASED && 1 < s[at + 27]
}

// 31, 35 and 40, of a format.
fn format_rule(s: &[u8], at: usize, format: u8, a: Sofar) -> Result<(), u8>
    requires { (at + (format_layout format).length ≤ length s.now) × (a.formats ≤ formats_most) }
    ensures { result ≡ kept (first_row (kind_rows (Kind.Formats format) s.now at a)) }
{
    if le::wide(s[at + 3]) != a.formats + 1 {
        return Err(31);
    }
    if is_flag_wrong(s, at, format) {
        return Err(40);
    }
    if FORMATS_MOST <= a.formats {
        return Err(35);
    }
    Ok(())
}

// 32: no format yet, or the last one is of another kind.
fn is_misplaced(format: u8, a: Sofar) -> bool
    ensures { result ≡ misplaced format a }
{
    a.formats == 0 || a.last.kind != format
}

// Whether the frame at `at`, under a format of this subtype, offers x as an interval.
fn offers_under(s: &[u8], at: usize, format: u8, x: u32) -> bool
    requires { at + frame_length_at format s.now at ≤ length s.now }
    ensures { result ≡ offers_under format s.now at x }
{
    let l = streaming_descriptors::layout_of(format);
    let place = at + l.k;
    let k = le::wide(s[place]);
    intervals::offers(s, at + 26, k, x)
}

// Inner: the same by the descriptor's own subtype. The callers have looked at its length.
pub fn offers_at(s: &[u8], at: usize, x: u32) -> bool
    requires { at + frame_length_at (format_of (kind_at s.now at)) s.now at ≤ length s.now }
    ensures { result ≡ offers_at s.now at x }
{
    let kind = streaming_descriptors::kind_of(s[at + 2]);
    let format = streaming_descriptors::format_of(kind);
    offers_under(s, at, format, x)
}

// 34: the default interval is one that the frame offers.
fn default_offered(s: &[u8], at: usize, format: u8) -> bool
    requires { at + frame_length_at format s.now at ≤ length s.now }
    ensures { result ≡ default_offered format s.now at }
{
    let l = streaming_descriptors::layout_of(format);
    let place = at + l.interval;
    offers_under(s, at, format, le::le32(s, place))
}

// 39: the sizes of a frame under this format, of subtype 4, cannot be true.
fn is_untrue(s: &[u8], at: usize, format: u8, last: Format) -> bool
    requires { at + 26 ≤ length s.now }
    ensures { result ≡ untrue_at format last s.now at }
{
    if format != UNCOMPRESSED {
        return false;
    }
    let width = le::le16(s, at + 5);
    let height = le::le16(s, at + 7);
    let size = le::le32(s, at + 17);
    pictures::untrue(last.guid, last.bits, width, height, size)
}

// 40: the format's flag is 1, and the frame's bytes per line are not 0.
fn is_line_wrong(s: &[u8], at: usize, format: u8, last: Format) -> bool
    requires { at + 26 ≤ length s.now }
    ensures { result ≡ line_wrong format last s.now at }
{
    if format != FRAME_BASED {
        return false;
    }
    let place = last.offset as usize;
    if le::byte_at(s, place + 27) != 1 {
        return false;
    }
    le::le32(s, at + 22) != 0
}

// 32 to 35, 39 and 40, of a frame.
fn frame_rule(s: &[u8], at: usize, format: u8, a: Sofar) -> Result<(), u8>
    requires { at + frame_length_at format s.now at ≤ length s.now }
    ensures { result ≡ kept (first_row (kind_rows (Kind.Frames format) s.now at a)) }
{
    if is_misplaced(format, a) {
        return Err(32);
    }
    if le::wide(s[at + 3]) != le::wide(a.numbered) + 1 {
        return Err(33);
    }
    let offered = default_offered(s, at, format);
    if !offered {
        return Err(34);
    }
    if is_untrue(s, at, format, a.last) {
        return Err(39);
    }
    if is_line_wrong(s, at, format, a.last) {
        return Err(40);
    }
    if FRAMES_MOST <= a.frames {
        return Err(35);
    }
    Ok(())
}

// 29 to 35, 39 and 40, by the kind.
fn kind_rule(s: &[u8], at: usize, kind: Kind, a: Sofar) -> Result<(), u8>
    requires at_value { (shape kind s.now at ≡ true) × (at + len_at s.now at ≤ length s.now) }
    requires formats_le_formats_most { a.formats ≤ formats_most }
    ensures { result ≡ kept (first_row (kind_rows kind s.now at a)) }
{
    match kind {
        Kind::Header => header_rule(s, at, a),
        Kind::Formats(format) => format_rule(s, at, format, a),
        Kind::Frames(format) => frame_rule(s, at, format, a),
        Kind::Unread => Ok(()),
        Kind::Other => Ok(()),
    }
}

// Inner: the first of 25 to 35, 39 and 40 that the descriptor at `at` breaks.
pub fn rule_at(s: &[u8], at: usize, a: Sofar) -> Result<(), u8>
    requires { (at < length s.now) × (a.formats ≤ formats_most) }
    ensures { result ≡ kept (first_row (rows s.now at a)) }
{
    if blocks::length_broken(s, at) {
        return Err(25);
    }
    if blocks::type_broken(s, at) {
        return Err(26);
    }
    let sub = s[at + 2];
    if sub == OUTPUT_HEADER {
        return Err(26);
    }
    let kind = streaming_descriptors::kind_of(sub);
    if is_unread(kind) {
        return Err(27);
    }
    let len = le::wide(s[at]);
    let shaped = streaming_descriptors::shape_ok(s, at, len, kind);
    if !shaped {
        return Err(28);
    }
    kind_rule(s, at, kind, a)
}

// The first of 20 to 24 that the block breaks.
pub fn head_rule(entities: usize, s: &[u8]) -> Result<(), u8>
    ensures { result ≡ kept (first_row (head_rows entities s.now)) }
{
    if ENTITIES_MOST < entities {
        return Err(20);
    }
    match blocks::whole_rule(s, LIMITS) {
        0 => Ok(()),
        number => Err(number),
    }
}
