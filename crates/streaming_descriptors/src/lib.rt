// The descriptors of a streaming block: their kinds and lengths, and what a format and a frame give.
#![tactic(auto)]

ghost use Rattle.std.specs.Prelude.{◌≡◌, true, ◌+◌, ◌^◌, ◌≤◌, ◌<◌, length, eqb};
ghost use Rattle.le.specs.Le.{byte, le32_at};
ghost use Rattle.rules.specs.IfElse.{if_else};
ghost use Rattle.streaming_descriptors.specs.Descriptors.{kind_of, len_at, shape, format_layout, sort_of, guid_at, no_format, no_frame, format_at, frame_at, is_format, is_frame, format_of};

const YUY2: [u8; 16] = *b"YUY2\x00\x00\x10\x00\x80\x00\x00\xAA\x00\x38\x9B\x71";

const NV12: [u8; 16] = *b"NV12\x00\x00\x10\x00\x80\x00\x00\xAA\x00\x38\x9B\x71";

// What a subtype number says. Formats and frames go by the format's subtype: the block's own number, which is printed as it is, and no enum that is turned back.
#[derive(Clone, Copy)]
pub enum Kind {
    Header,
    Formats(u8),
    Frames(u8),
    Unread,
    Other,
}

// Where the fields stand that differ from kind to kind. A format: its length, whether it has a GUID and bits per pixel, and its default frame.
// Its frames: whether they have a buffer size, the default interval, and k.
#[derive(Drop)]
pub struct Layout {
    pub length: usize,
    pub guided: bool,
    pub default: usize,
    pub sized: bool,
    pub interval: usize,
    pub k: usize,
}

// A format: its subtype (4, 6 or 0x10), its GUID (1 YUY2, 2 NV12, 3 other, 0 for MJPEG), and where its descriptor stands.
#[derive(Clone, Copy)]
pub struct Format {
    pub kind: u8,
    pub guid: u8,
    pub bits: u8,
    pub frames: u8,
    pub default: u8,
    pub offset: u16,
}

// A frame: the number of its format, from 1, and where its descriptor stands.
#[derive(Clone, Copy)]
pub struct Frame {
    pub format: u8,
    pub k: u8,
    pub width: u16,
    pub height: u16,
    pub offset: u16,
    pub size: u32,
    pub interval: u32,
}

// The kind, by the subtype number.
pub fn kind_of(sub: u8) -> Kind
    ensures { result ≡ kind_of sub }
{
    match sub {
        1 => Kind::Header,
        4 => Kind::Formats(4),
        5 => Kind::Frames(4),
        6 => Kind::Formats(6),
        7 => Kind::Frames(6),
        0x10 => Kind::Formats(0x10),
        0x11 => Kind::Frames(0x10),
        0x0A | 0x0C => Kind::Unread,
        0x12..=0x18 => Kind::Unread,
        _ => Kind::Other,
    }
}

// The layout, by the format's subtype; one that no descriptor has where there is none.
pub fn layout_of(format: u8) -> Layout
    ensures { result ≡ format_layout format }
{
    match format {
        4 => Layout {
            length: 27,
            guided: true,
            default: 22,
            sized: true,
            interval: 21,
            k: 25,
        },
        6 => Layout {
            length: 11,
            guided: false,
            default: 6,
            sized: true,
            interval: 21,
            k: 25,
        },
        0x10 => Layout {
            length: 28,
            guided: true,
            default: 22,
            sized: false,
            interval: 17,
            k: 21,
        },
        _ => Layout {
            length: 256,
            guided: false,
            default: 6,
            sized: true,
            interval: 21,
            k: 25,
        },
    }
}

// 1 YUY2, 2 NV12, 3 other: the GUID is compared whole.
fn guid_sort(s: &[u8], at: usize) -> u8
    requires { at + 21 ≤ length s.now }
    ensures { result ≡ sort_of (guid_at s.now at) }
{
    let from = at + 5;
    let to = at + 21;
    if check::same(&s[from..to], &YUY2) {
        return 1;
    }
    if check::same(&s[from..to], &NV12) {
        return 2;
    }
    3
}

// The header's length is 13 and p times n.
fn header_shape(s: &[u8], at: usize, len: usize) -> bool
    requires { (len ≡ len_at s.now at) × (at + len ≤ length s.now) }
    ensures { result ≡ shape Kind.Header s.now at }
{
    if len < 13 {
        return false;
    }
    len == 13 + le::wide(s[at + 3]) * le::wide(s[at + 12])
}

// The length of a format.
fn format_shape(len: usize, format: u8) -> bool
    ensures { result ≡ eqb len (format_layout format).length }
{
    let l = layout_of(format);
    len == l.length
}

// The length of a frame: 38, or 26 and four for each interval.
fn frame_shape(s: &[u8], at: usize, len: usize, format: u8) -> bool
    requires { (len ≡ len_at s.now at) × (at + len ≤ length s.now) }
    ensures { result ≡ shape (Kind.Frames format) s.now at }
{
    if len < 26 {
        return false;
    }
    let l = layout_of(format);
    let place = at + l.k;
    let k = le::wide(s[place]);
    if k == 0 {
        return len == 38;
    }
    len == 26 + 4 * k
}

// Inner: 28, the length by the kind. The callers have looked at where it ends.
pub fn shape_ok(s: &[u8], at: usize, len: usize, kind: Kind) -> bool
    requires { (len ≡ len_at s.now at) × (at + len ≤ length s.now) }
    ensures { result ≡ shape kind s.now at }
{
    match kind {
        Kind::Header => header_shape(s, at, len),
        Kind::Formats(format) => format_shape(len, format),
        Kind::Frames(format) => frame_shape(s, at, len, format),
        Kind::Unread => true,
        Kind::Other => true,
    }
}

pub fn is_format(kind: Kind) -> bool
    ensures { result ≡ is_format kind }
{
    matches!(kind, Kind::Formats(_))
}

pub fn is_frame(kind: Kind) -> bool
    ensures { result ≡ is_frame kind }
{
    matches!(kind, Kind::Frames(_))
}

// The format's subtype, of a format or a frame; 0 of what is neither.
pub fn format_of(kind: Kind) -> u8
    ensures { result ≡ format_of kind }
{
    match kind {
        Kind::Header => 0,
        Kind::Formats(format) | Kind::Frames(format) => format,
        Kind::Unread => 0,
        Kind::Other => 0,
    }
}

pub fn no_format() -> Format
    ensures { result ≡ no_format }
{
    Format {
        kind: 0,
        guid: 0,
        bits: 0,
        frames: 0,
        default: 0,
        offset: 0,
    }
}

pub fn no_frame() -> Frame
    ensures { result ≡ no_frame }
{
    Frame {
        format: 0,
        k: 0,
        width: 0,
        height: 0,
        offset: 0,
        size: 0,
        interval: 0,
    }
}

// The GUID's sort of the format at `at`, or 0.
fn guid_at(s: &[u8], at: usize, guided: bool) -> u8
    requires { guided ≡ true → at + 22 ≤ length s.now }
    ensures { result ≡ if_else guided (sort_of (guid_at s.now at)) 0 }
{
    if guided {
        return guid_sort(s, at);
    }
    0
}

// Its bits per pixel, or 0.
fn bits_at(s: &[u8], at: usize, guided: bool) -> u8
    requires { guided ≡ true → at + 22 ≤ length s.now }
    ensures { result ≡ if_else guided (byte s.now at 21) 0 }
{
    if guided {
        return s[at + 21];
    }
    0
}

// Inner: what a format's descriptor gives.
pub fn format_at(s: &[u8], at: usize, kind: Kind) -> Format
    requires { (at + (format_layout (format_of kind)).length ≤ length s.now) × (length s.now < 2 ^ 16) }
    ensures { result ≡ format_at (format_of kind) s.now at }
{
    let format = format_of(kind);
    let l = layout_of(format);
    let default = at + l.default;
    let guid = guid_at(s, at, l.guided);
    let bits = bits_at(s, at, l.guided);
    Format {
        kind: format,
        guid,
        bits,
        frames: s[at + 4],
        default: s[default],
        offset: at as u16,
    }
}

// The buffer size of the frame at `at`, or 0.
fn size_at(s: &[u8], at: usize, sized: bool) -> u32
    requires { at + 26 ≤ length s.now }
    ensures { result ≡ if_else sized (le32_at s.now (at + 17)) 0 }
{
    if sized {
        return le::le32(s, at + 17);
    }
    0
}

// Inner: what a frame's descriptor gives, under format `number`.
pub fn frame_at(s: &[u8], at: usize, kind: Kind, number: usize) -> Frame
    requires at_in_bounds { (at + 26 ≤ length s.now) × (length s.now < 2 ^ 16) }
    requires number_bound { number < 2 ^ 8 }
    ensures { result ≡ frame_at (format_of kind) number s.now at }
{
    let format = format_of(kind);
    let l = layout_of(format);
    let k = at + l.k;
    let width = le::le16(s, at + 5);
    let height = le::le16(s, at + 7);
    let size = size_at(s, at, l.sized);
    let interval = le::le32(s, at + l.interval);
    Frame {
        format: number as u8,
        k: s[k],
        width,
        height,
        offset: at as u16,
        size,
        interval,
    }
}
