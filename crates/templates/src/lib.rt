// Text with fields: `%`, a form and two digits stand for what the bytes hold at that offset, and every other byte for itself.
#![tactic(auto)]

ghost use Rattle.std.specs.Prelude.{◌≡◌, ◌+◌, ◌-◌, ◌*◌, ◌≤◌, ◌<◌, length};
ghost use Rattle.text.specs.Put.{Put};
ghost use Rattle.templates.specs.Values.{word_at, long_at, hex_digit, hex_text, shown, letter_text, hundredths, rate_text, form_of, value_of};
ghost use Rattle.templates.specs.Template.{is_field, length_at, field_at, piece_at, rendered, listed};

use configuration_rules::byte_of;

// How a field is shown.
#[derive(Drop)]
pub enum Form {
    // a number of one, two or four bytes
    Byte,
    Word,
    Long,
    // the bytes per microframe of an endpoint
    Packet,
    // two hexadecimal digits
    Hex,
    // frames per second of an interval
    Rate,
    // a letter
    Letter,
}

// Inner: the template's text of what stands at o + k, at most 6 bytes for each of the template's.
pub fn render(buf: &mut [u8], start: usize, s: &[u8], o: usize, k: usize, t: &[u8]) -> usize
    requires { (o ≤ length s.now) × (k < 65536) × (start + 6 * length t.now ≤ length buf.old) }
    ensures put { Put buf.old start (rendered s.now o k t.now) result buf.new }
    ensures upper_bound { result ≤ start + 6 * length t.now }
{
    let mut at = start;
    let mut i: usize = 0;
    // a walk: the template's bytes give the step
    while i < t.len() {
        at = piece(buf, at, s, o, k, t, i);
        i += length_at(t, i);
    }
    at
}

// Inner: the same of n things in a row, `step` bytes each, the first at o + k.
pub fn list(
    buf: &mut [u8],
    start: usize,
    s: &[u8],
    o: usize,
    k: usize,
    step: usize,
    n: u8,
    t: &[u8],
) -> usize
    requires { (o ≤ length s.now) × (k < 256) × (step < 5) × (length t.now ≤ 64) × (start + 97920 ≤ length buf.old) }
    ensures put { Put buf.old start (listed s.now o step t.now n k) result buf.new }
    ensures upper_bound { result ≤ start + 97920 }
{
    let mut at = start;
    let mut place = k;
    for _i in 0..n {
        at = render(buf, at, s, o, place, t);
        place += step;
    }
    at
}

// The piece of a template that begins at i: a field, or a byte.
fn piece(buf: &mut [u8], at: usize, s: &[u8], o: usize, k: usize, t: &[u8], i: usize) -> usize
    requires { (o ≤ length s.now) × (k < 65536) × (i < length t.now) × (at + 6 * length_at t.now i ≤ length buf.old) }
    ensures put { Put buf.old at (piece_at s.now o k t.now i) result buf.new }
    ensures upper_bound { result ≤ at + 6 * length_at t.now i }
{
    if is_field(t, i) {
        return field(buf, at, s, o, k, t, i);
    }
    let one = [t[i]];
    text::put(buf, at, &one)
}

// Whether a field begins at i: it is whole.
fn is_field(t: &[u8], i: usize) -> bool
    requires { i < length t.now }
    ensures { result ≡ is_field t.now i }
{
    if t.len() - i < 4 {
        return false;
    }
    t[i] == b'%'
}

// How many bytes of the template it takes.
fn length_at(t: &[u8], i: usize) -> usize
    requires { i < length t.now }
    ensures { result ≡ length_at t.now i }
{
    if is_field(t, i) {
        return 4;
    }
    1
}

// The field that begins at i.
fn field(buf: &mut [u8], at: usize, s: &[u8], o: usize, k: usize, t: &[u8], i: usize) -> usize
    requires { (o ≤ length s.now) × (k < 65536) × (i + 4 ≤ length t.now) × (at + 24 ≤ length buf.old) }
    ensures put { Put buf.old at (field_at s.now o k t.now i) result buf.new }
    ensures upper_bound { result ≤ at + 24 }
{
    let form = form_of(t[i + 1]);
    let tens = digit(t[i + 2]);
    let ones = digit(t[i + 3]);
    value(buf, at, s, o, k + (tens * 10 + ones), form)
}

fn digit(c: u8) -> usize
    ensures { (result ≡ c - 48) × (result < 256) }
{
    if c < 48 {
        return 0;
    }
    (c - 48) as usize
}

// The form, by its letter.
fn form_of(c: u8) -> Form
    ensures { result ≡ form_of c }
{
    if c == b'd' {
        return Form::Byte;
    }
    if c == b'w' {
        return Form::Word;
    }
    if c == b'l' {
        return Form::Long;
    }
    if c == b'p' {
        return Form::Packet;
    }
    if c == b'h' {
        return Form::Hex;
    }
    if c == b'f' {
        return Form::Rate;
    }
    Form::Letter
}

// What stands at o + k, in this form.
fn value(buf: &mut [u8], at: usize, s: &[u8], o: usize, k: usize, form: Form) -> usize
    requires { (o ≤ length s.now) × (k < 131072) × (at + 24 ≤ length buf.old) }
    ensures put { Put buf.old at (value_of form s.now o k) result buf.new }
    ensures upper_bound { result ≤ at + 24 }
{
    match form {
        Form::Byte => text::digits(buf, at, byte_of(s, o, k) as u64),
        Form::Word => text::digits(buf, at, word_at(s, o, k) as u64),
        Form::Long => text::digits(buf, at, long_at(s, o, k) as u64),
        Form::Packet => text::digits(
            buf,
            at,
            configuration_rules::packet_bytes(word_at(s, o, k)) as u64,
        ),
        Form::Hex => hex(buf, at, byte_of(s, o, k)),
        Form::Rate => rate(buf, at, long_at(s, o, k)),
        Form::Letter => letter(buf, at, byte_of(s, o, k)),
    }
}

// Inner: a number of two bytes.
pub fn word_at(s: &[u8], o: usize, k: usize) -> u16
    requires { (o ≤ length s.now) × (k < 2000000) }
    ensures { result ≡ word_at s.now o k }
{
    le::join16(byte_of(s, o, k), byte_of(s, o, k + 1))
}

fn long_at(s: &[u8], o: usize, k: usize) -> u32
    requires { (o ≤ length s.now) × (k < 1000000) }
    ensures { result ≡ long_at s.now o k }
{
    le::join32(word_at(s, o, k), word_at(s, o, k + 2))
}

fn hex_digit(d: u8) -> u8
    requires { d < 16 }
    ensures { result ≡ hex_digit d }
{
    if d < 10 {
        return 48 + d;
    }
    87 + d
}

fn hex(buf: &mut [u8], at: usize, x: u8) -> usize
    requires { at + 24 ≤ length buf.old }
    ensures put { Put buf.old at (hex_text x) result buf.new }
    ensures upper_bound { result ≤ at + 24 }
{
    let pair = [hex_digit(x / 16), hex_digit(x % 16)];
    text::put(buf, at, &pair)
}

// A byte that shows as a letter, or a point.
fn seen(x: u8) -> u8
    ensures { result ≡ shown x }
{
    if x < 33 {
        return b'.';
    }
    if 126 < x {
        return b'.';
    }
    x
}

fn letter(buf: &mut [u8], at: usize, x: u8) -> usize
    requires { at + 24 ≤ length buf.old }
    ensures put { Put buf.old at (letter_text x) result buf.new }
    ensures upper_bound { result ≤ at + 24 }
{
    let one = [seen(x)];
    text::put(buf, at, &one)
}

// Frames in 100 seconds of an interval in units of 100 ns, to the nearest; 0 of interval 0.
fn hundred_seconds(n: u32) -> u64
    ensures { result ≡ hundredths n }
{
    if n == 0 {
        return 0;
    }
    let wide = n as u64;
    (1000000000 + wide / 2) / wide
}

// Frames per second, to two places.
fn rate(buf: &mut [u8], at: usize, n: u32) -> usize
    requires { at + 24 ≤ length buf.old }
    ensures put { Put buf.old at (rate_text n) result buf.new }
    ensures upper_bound { result ≤ at + 24 }
{
    let h = hundred_seconds(n);
    let next = text::digits(buf, at, h / 100);
    let places = [b'.', 48 + (h / 10 % 10) as u8, 48 + (h % 10) as u8];
    text::put(buf, next, &places)
}
