// What is printed of one descriptor of a configuration, for a person. Descriptors of one shape have a function each, since each has a text of its own; what they
// share is `templates::render`, `sources`, `type_line` and `intervals`.
#![tactic(auto)]

ghost use Rattle.std.specs.Prelude.{◌≡◌, ◌+◌, ◌≤◌, ◌<◌, length};
ghost use Rattle.text.specs.Put.{Put};
ghost use Rattle.camera_lines.specs.Parts.{room, part_after, part_by, class_part, header_part, is_streaming, interface_part, other_part};
ghost use Rattle.camera_lines.specs.Lines.{sources_text, intervals_text, intervals_by, type_line, header_text, input_text, input_by, camera_text, terminal_text, output_text, selector_text, processing_text, extension_text, encoding_text, control_text, sized_text, sizeless_text, streaming_text, endpoint_text, endpoint_by, interface_text, class_text, type_text, text_at};

use configuration_rules::{Sought, byte_of};

// How many bytes are enough for any descriptor's text.
pub const ROOM: usize = 102400;

// The terminal type of a camera.
const CAMERA: u16 = 0x0201;

// Where a descriptor stands: in a control block, or behind the header of one of revision 1.5; in a streaming block; behind it, or in another setting; elsewhere.
#[derive(Clone, Copy)]
pub enum Part {
    Other,
    Control,
    Newest,
    Streaming,
    Setting,
}

// Inner: the text of the descriptor at o.
pub fn descriptor(buf: &mut [u8], s: &[u8], o: usize, part: Part) -> usize
    requires { (o < length s.now) × (room ≤ length buf.old) }
    ensures { Put buf.old 0 (text_at s.now o part) result buf.new }
{
    by_type(buf, s, o, part, byte_of(s, o, 1))
}

fn by_type(buf: &mut [u8], s: &[u8], o: usize, part: Part, kind: u8) -> usize
    requires { (o < length s.now) × (room ≤ length buf.old) }
    ensures { Put buf.old 0 (type_text s.now o part kind) result buf.new }
{
    if kind == 0x24 {
        return class(buf, s, o, part);
    }
    if kind == 5 {
        return endpoint(buf, s, o, part);
    }
    if kind == 4 {
        return interface(buf, s, o);
    }
    if kind == 2 {
        return templates::render(
            buf,
            0,
            s,
            o,
            0,
            b"Configuration %d05: %d04 interfaces, %w02 bytes\n",
        );
    }
    0
}

fn interface(buf: &mut [u8], s: &[u8], o: usize) -> usize
    requires { (o < length s.now) × (room ≤ length buf.old) }
    ensures { Put buf.old 0 (interface_text s.now o) result buf.new }
{
    if configuration_rules::is_sought(s, o, Sought::Control) {
        return templates::render(buf, 0, s, o, 0, b"VideoControl interface %d02\n");
    }
    if is_streaming(s, o) {
        return templates::render(
            buf,
            0,
            s,
            o,
            0,
            b"VideoStreaming interface %d02, alternate setting %d03\n",
        );
    }
    0
}

// An endpoint of a streaming interface.
fn endpoint(buf: &mut [u8], s: &[u8], o: usize, part: Part) -> usize
    requires { (o < length s.now) × (room ≤ length buf.old) }
    ensures { Put buf.old 0 (endpoint_text s.now o part) result buf.new }
{
    match part {
        Part::Other => 0,
        Part::Control => 0,
        Part::Newest => 0,
        Part::Streaming => endpoint_by(buf, s, o, byte_of(s, o, 3)),
        Part::Setting => endpoint_by(buf, s, o, byte_of(s, o, 3)),
    }
}

// By its attributes: bits 1 and 0 are the transfer type.
fn endpoint_by(buf: &mut [u8], s: &[u8], o: usize, attributes: u8) -> usize
    requires { (o < length s.now) × (room ≤ length buf.old) }
    ensures { Put buf.old 0 (endpoint_by s.now o attributes) result buf.new }
{
    if attributes % 4 == 2 {
        return templates::render(
            buf,
            0,
            s,
            o,
            0,
            b"  Endpoint 0x%h02: bulk, %w04 bytes per packet\n",
        );
    }
    templates::render(
        buf,
        0,
        s,
        o,
        0,
        b"  Endpoint 0x%h02: %p04 bytes per microframe\n",
    )
}

// A class-specific descriptor, by the block that it stands in.
fn class(buf: &mut [u8], s: &[u8], o: usize, part: Part) -> usize
    requires { (o < length s.now) × (room ≤ length buf.old) }
    ensures { Put buf.old 0 (class_text s.now o part) result buf.new }
{
    match part {
        Part::Other => 0,
        Part::Control => control(buf, s, o, byte_of(s, o, 2), false),
        Part::Newest => control(buf, s, o, byte_of(s, o, 2), true),
        Part::Streaming => streaming(buf, s, o, byte_of(s, o, 2)),
        Part::Setting => 0,
    }
}

// A descriptor of a control block, by its subtype.
fn control(buf: &mut [u8], s: &[u8], o: usize, sub: u8, newest: bool) -> usize
    requires { (o < length s.now) × (room ≤ length buf.old) }
    ensures { Put buf.old 0 (control_text s.now o sub newest) result buf.new }
{
    if sub == 1 {
        return header(buf, s, o);
    }
    if sub == 2 {
        return input(buf, s, o);
    }
    if sub == 3 {
        return output(buf, s, o);
    }
    if sub == 4 {
        return selector(buf, s, o);
    }
    if sub == 5 {
        return processing(buf, s, o);
    }
    if sub == 6 {
        return extension(buf, s, o);
    }
    if sub == 7 {
        return encoding(buf, s, o, newest);
    }
    0
}

// What feeds it: as many numbers as the byte at `count` says, from `first` on, and the line's end.
fn sources(buf: &mut [u8], at: usize, s: &[u8], o: usize, count: usize, first: usize) -> usize
    requires { (o < length s.now) × (count < 256) × (first < 256) × (at + 98000 ≤ length buf.old) }
    ensures { Put buf.old at (sources_text s.now o count first) result buf.new }
{
    let n = byte_of(s, o, count);
    let next = templates::list(buf, at, s, o, first, 1, n, b" %d00");
    text::put(buf, next, b"\n")
}

fn header(buf: &mut [u8], s: &[u8], o: usize) -> usize
    requires { (o < length s.now) × (room ≤ length buf.old) }
    ensures { Put buf.old 0 (header_text s.now o) result buf.new }
{
    let at = templates::render(
        buf,
        0,
        s,
        o,
        0,
        b"  USB Video Class %d04.%h03, clock %l07 Hz, streaming interfaces:",
    );
    sources(buf, at, s, o, 11, 12)
}

// The terminal type in words, to the line's end.
fn type_line(buf: &mut [u8], at: usize, s: &[u8], o: usize) -> usize
    requires { (o < length s.now) × (at + 48 ≤ length buf.old) }
    ensures put { Put buf.old at (type_line s.now o) result buf.new }
    ensures upper_bound { result ≤ at + 48 }
{
    let number = templates::word_at(s, o, 4);
    camera_names::terminal(buf, at, number)
}

// An input terminal, and the controls of a camera.
fn input(buf: &mut [u8], s: &[u8], o: usize) -> usize
    requires { (o < length s.now) × (room ≤ length buf.old) }
    ensures { Put buf.old 0 (input_text s.now o) result buf.new }
{
    input_by(buf, s, o, templates::word_at(s, o, 4))
}

fn input_by(buf: &mut [u8], s: &[u8], o: usize, number: u16) -> usize
    requires { (o < length s.now) × (room ≤ length buf.old) }
    ensures { Put buf.old 0 (input_by s.now o number) result buf.new }
{
    if number == CAMERA {
        return camera(buf, s, o);
    }
    terminal(buf, s, o)
}

fn terminal(buf: &mut [u8], s: &[u8], o: usize) -> usize
    requires { (o < length s.now) × (room ≤ length buf.old) }
    ensures put { Put buf.old 0 (terminal_text s.now o) result buf.new }
    ensures upper_bound { result ≤ 400 }
{
    let at = templates::render(
        buf,
        0,
        s,
        o,
        0,
        b"  Entity %d03: input terminal, type 0x%h05%h04, ",
    );
    type_line(buf, at, s, o)
}

fn camera(buf: &mut [u8], s: &[u8], o: usize) -> usize
    requires { (o < length s.now) × (room ≤ length buf.old) }
    ensures { Put buf.old 0 (camera_text s.now o) result buf.new }
{
    let named = terminal(buf, s, o);
    let at = templates::render(buf, named, s, o, 0, b"    Controls (%d14 bytes):\n");
    let n = byte_of(s, o, 14);
    camera_names::camera(buf, at, s, o, 15, n)
}

fn output(buf: &mut [u8], s: &[u8], o: usize) -> usize
    requires { (o < length s.now) × (room ≤ length buf.old) }
    ensures { Put buf.old 0 (output_text s.now o) result buf.new }
{
    let at = templates::render(
        buf,
        0,
        s,
        o,
        0,
        b"  Entity %d03: output terminal, fed by %d07, type 0x%h05%h04, ",
    );
    type_line(buf, at, s, o)
}

fn selector(buf: &mut [u8], s: &[u8], o: usize) -> usize
    requires { (o < length s.now) × (room ≤ length buf.old) }
    ensures { Put buf.old 0 (selector_text s.now o) result buf.new }
{
    let at = templates::render(buf, 0, s, o, 0, b"  Entity %d03: selector unit, fed by");
    sources(buf, at, s, o, 4, 5)
}

fn processing(buf: &mut [u8], s: &[u8], o: usize) -> usize
    requires { (o < length s.now) × (room ≤ length buf.old) }
    ensures { Put buf.old 0 (processing_text s.now o) result buf.new }
{
    let at = templates::render(
        buf,
        0,
        s,
        o,
        0,
        b"  Entity %d03: processing unit, fed by %d04\n    Controls (%d07 bytes):\n",
    );
    let n = byte_of(s, o, 7);
    camera_names::processing(buf, at, s, o, 8, n)
}

fn extension(buf: &mut [u8], s: &[u8], o: usize) -> usize
    requires { (o < length s.now) × (room ≤ length buf.old) }
    ensures { Put buf.old 0 (extension_text s.now o) result buf.new }
{
    let at = templates::render(
        buf,
        0,
        s,
        o,
        0,
        b"  Entity %d03: extension unit {%h07%h06%h05%h04-%h09%h08-%h11%h10-%h12%h13-%h14%h15%h16%h17%h18%h19}, %d20 controls, fed by",
    );
    sources(buf, at, s, o, 21, 22)
}

// An encoding unit: 1.5 has them.
fn encoding(buf: &mut [u8], s: &[u8], o: usize, newest: bool) -> usize
    requires { (o < length s.now) × (room ≤ length buf.old) }
    ensures { Put buf.old 0 (encoding_text s.now o newest) result buf.new }
{
    if newest {
        return templates::render(
            buf,
            0,
            s,
            o,
            0,
            b"  Entity %d03: encoding unit, fed by %d04\n",
        );
    }
    0
}

// A descriptor of a streaming block, by its subtype.
fn streaming(buf: &mut [u8], s: &[u8], o: usize, sub: u8) -> usize
    requires { (o < length s.now) × (room ≤ length buf.old) }
    ensures { Put buf.old 0 (streaming_text s.now o sub) result buf.new }
{
    if sub == 1 {
        return templates::render(
            buf,
            0,
            s,
            o,
            0,
            b"  %d03 formats, from entity %d08, on endpoint 0x%h06\n",
        );
    }
    if sub == 4 {
        return templates::render(
            buf,
            0,
            s,
            o,
            0,
            b"  Format %d03: '%c05%c06%c07%c08' {%h08%h07%h06%h05-%h10%h09-%h12%h11-%h13%h14-%h15%h16%h17%h18%h19%h20}, uncompressed, %d21 bits per pixel, %d04 sizes, default %d22\n",
        );
    }
    if sub == 5 {
        return sized(buf, s, o);
    }
    if sub == 6 {
        return templates::render(
            buf,
            0,
            s,
            o,
            0,
            b"  Format %d03: 'MJPG' (Motion-JPEG), compressed, %d04 sizes, default %d06\n",
        );
    }
    if sub == 7 {
        return sized(buf, s, o);
    }
    if sub == 16 {
        return templates::render(
            buf,
            0,
            s,
            o,
            0,
            b"  Format %d03: '%c05%c06%c07%c08' {%h08%h07%h06%h05-%h10%h09-%h12%h11-%h13%h14-%h15%h16%h17%h18%h19%h20}, frame based, %d21 bits per pixel, %d04 sizes, default %d22\n",
        );
    }
    if sub == 17 {
        return sizeless(buf, s, o);
    }
    0
}

// A frame with a buffer size, of an uncompressed or a Motion-JPEG format.
fn sized(buf: &mut [u8], s: &[u8], o: usize) -> usize
    requires { (o < length s.now) × (room ≤ length buf.old) }
    ensures { Put buf.old 0 (sized_text s.now o) result buf.new }
{
    let at = templates::render(
        buf,
        0,
        s,
        o,
        0,
        b"    Size: Discrete %w05x%w07, number %d03, buffer %l17 bytes, default %f21 fps\n",
    );
    intervals(buf, at, s, o, 25)
}

// A frame of a frame-based format.
fn sizeless(buf: &mut [u8], s: &[u8], o: usize) -> usize
    requires { (o < length s.now) × (room ≤ length buf.old) }
    ensures { Put buf.old 0 (sizeless_text s.now o) result buf.new }
{
    let at = templates::render(
        buf,
        0,
        s,
        o,
        0,
        b"    Size: Discrete %w05x%w07, number %d03, default %f17 fps\n",
    );
    intervals(buf, at, s, o, 21)
}

// A frame's intervals: the byte at `count` says how many are listed.
fn intervals(buf: &mut [u8], at: usize, s: &[u8], o: usize, count: usize) -> usize
    requires { (o < length s.now) × (count < 256) × (at + 98000 ≤ length buf.old) }
    ensures { Put buf.old at (intervals_text s.now o count) result buf.new }
{
    intervals_by(buf, at, s, o, byte_of(s, o, count))
}

// None is listed: there are a shortest, a longest and a step.
fn intervals_by(buf: &mut [u8], at: usize, s: &[u8], o: usize, n: u8) -> usize
    requires { (o < length s.now) × (at + 98000 ≤ length buf.old) }
    ensures { Put buf.old at (intervals_by s.now o n) result buf.new }
{
    if n == 0 {
        return templates::render(
            buf,
            at,
            s,
            o,
            0,
            b"      Interval: Stepwise %l26 - %l30 x 100 ns with step %l34 (%f30-%f26 fps)\n",
        );
    }
    templates::list(
        buf,
        at,
        s,
        o,
        26,
        4,
        n,
        b"      Interval: Discrete %l00 x 100 ns (%f00 fps)\n",
    )
}

// Inner: where the descriptor behind the one at o stands.
pub fn part_after(s: &[u8], o: usize, part: Part) -> Part
    requires { o < length s.now }
    ensures { result ≡ part_after s.now o part }
{
    part_by(s, o, part, byte_of(s, o, 1))
}

fn part_by(s: &[u8], o: usize, part: Part, kind: u8) -> Part
    requires { o < length s.now }
    ensures { result ≡ part_by s.now o part kind }
{
    if kind == 0x24 {
        return class_part(s, o, part);
    }
    if kind == 4 {
        return interface_part(s, o);
    }
    other_part(part)
}

// A video interface of the streaming subclass, whatever its setting.
fn is_streaming(s: &[u8], o: usize) -> bool
    requires { o < length s.now }
    ensures { result ≡ is_streaming s.now o }
{
    let number = byte_of(s, o, 2);
    configuration_rules::is_sought(s, o, Sought::Setting(number))
}

fn interface_part(s: &[u8], o: usize) -> Part
    requires { o < length s.now }
    ensures { result ≡ interface_part s.now o }
{
    if configuration_rules::is_sought(s, o, Sought::Control) {
        return Part::Control;
    }
    if configuration_rules::is_sought(s, o, Sought::Listed) {
        return Part::Streaming;
    }
    if is_streaming(s, o) {
        return Part::Setting;
    }
    Part::Other
}

// What is not class-specific ends a block.
fn other_part(part: Part) -> Part
    ensures { result ≡ other_part part }
{
    match part {
        Part::Other => Part::Other,
        Part::Control => Part::Other,
        Part::Newest => Part::Other,
        Part::Streaming => Part::Setting,
        Part::Setting => Part::Setting,
    }
}

// Behind the header of a control block of revision 1.5 there may be encoding units.
fn class_part(s: &[u8], o: usize, part: Part) -> Part
    requires { o < length s.now }
    ensures { result ≡ class_part s.now o part }
{
    match part {
        Part::Other => Part::Other,
        Part::Control => header_part(byte_of(s, o, 2), templates::word_at(s, o, 3)),
        Part::Newest => Part::Newest,
        Part::Streaming => Part::Streaming,
        Part::Setting => Part::Setting,
    }
}

fn header_part(sub: u8, revision: u16) -> Part
    ensures { result ≡ header_part sub revision }
{
    if sub != 1 {
        return Part::Control;
    }
    if revision == 0x0150 {
        return Part::Newest;
    }
    Part::Control
}
