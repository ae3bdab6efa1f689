// The class's names: of terminal types, and of the controls that a camera terminal and a processing unit have.
#![tactic(auto)]

ghost use Rattle.std.specs.Prelude.{◌≡◌, ◌+◌, ◌≤◌, ◌<◌, length};
ghost use Rattle.text.specs.Put.{Put};
ghost use Rattle.camera_names.specs.Names.{terminal_place, terminal_text, is_set, control_text, controls_text, camera_names, processing_names};
ghost use Rattle.camera_names.specs.Inner.{Short};

use configuration_rules::byte_of;

// How many terminal types the class names, and how many bits its maps of controls have.
const TYPES: usize = 12;

const BITS: usize = 24;

// Inner: a line with the name of a terminal type.
pub fn terminal(buf: &mut [u8], at: usize, number: u16) -> usize
    requires { at + 48 ≤ length buf.old }
    ensures put { Put buf.old at (terminal_text number) result buf.new }
    ensures upper_bound { result ≤ at + 48 }
{
    let names: &[u8] = b"\
vendor specific\n\
USB streaming\n\
vendor specific input\n\
camera sensor\n\
sequential media input\n\
vendor specific output\n\
generic display\n\
sequential media output\n\
vendor specific external\n\
composite video connector\n\
S-video connector\n\
component video connector\n\
not named by the class\n\
";
    let k = terminal_place(number);
    name_tables::line(buf, at, names, k, &[])
}

// The place of a terminal type in the class's list; its end where it is not there. (No Option: the line at the end is that of an unknown type.)
fn terminal_place(number: u16) -> usize
    ensures { result ≡ terminal_place number }
{
    let types: [u16; TYPES] = [
        0x0100, 0x0101, 0x0200, 0x0201, 0x0202, 0x0300, 0x0301, 0x0302, 0x0400, 0x0401, 0x0402,
        0x0403,
    ];
    for i in 0..TYPES {
        if types[i] == number {
            return i;
        }
    }
    TYPES
}

// Inner: a line for each control that a camera terminal has. Its map is the n bytes at k of what stands at o.
pub fn camera(buf: &mut [u8], at: usize, s: &[u8], o: usize, k: usize, n: u8) -> usize
    requires { (o ≤ length s.now) × (k < 256) × (at + 1536 ≤ length buf.old) }
    ensures put { Put buf.old at (controls_text s.now o k n camera_names 24 0) result buf.new }
    ensures upper_bound { result ≤ at + 1536 }
{
    let names: &[u8] = b"\
Scanning Mode\n\
Auto-Exposure Mode\n\
Auto-Exposure Priority\n\
Exposure Time (Absolute)\n\
Exposure Time (Relative)\n\
Focus (Absolute)\n\
Focus (Relative)\n\
Iris (Absolute)\n\
Iris (Relative)\n\
Zoom (Absolute)\n\
Zoom (Relative)\n\
PanTilt (Absolute)\n\
PanTilt (Relative)\n\
Roll (Absolute)\n\
Roll (Relative)\n\
reserved (D15)\n\
reserved (D16)\n\
Focus, Auto\n\
Privacy\n\
Focus, Simple\n\
Window\n\
Region of Interest\n\
reserved (D22)\n\
reserved (D23)\n\
";
    controls(buf, at, s, o, k, n, names)
}

// Inner: the same of a processing unit. (A function for each list: a text lies on the stack where it is used.)
pub fn processing(buf: &mut [u8], at: usize, s: &[u8], o: usize, k: usize, n: u8) -> usize
    requires { (o ≤ length s.now) × (k < 256) × (at + 1536 ≤ length buf.old) }
    ensures put { Put buf.old at (controls_text s.now o k n processing_names 24 0) result buf.new }
    ensures upper_bound { result ≤ at + 1536 }
{
    let names: &[u8] = b"\
Brightness\n\
Contrast\n\
Hue\n\
Saturation\n\
Sharpness\n\
Gamma\n\
White Balance Temperature\n\
White Balance Component\n\
Backlight Compensation\n\
Gain\n\
Power Line Frequency\n\
Hue, Auto\n\
White Balance Temperature, Auto\n\
White Balance Component, Auto\n\
Digital Multiplier\n\
Digital Multiplier Limit\n\
Analog Video Standard\n\
Analog Video Lock Status\n\
Contrast, Auto\n\
reserved (D19)\n\
reserved (D20)\n\
reserved (D21)\n\
reserved (D22)\n\
reserved (D23)\n\
";
    controls(buf, at, s, o, k, n, names)
}

// A line for each bit that is set, with its name.
fn controls(
    buf: &mut [u8],
    start: usize,
    s: &[u8],
    o: usize,
    k: usize,
    n: u8,
    names: &[u8],
) -> usize
    requires { (o ≤ length s.now) × (k < 256) × (start + 1536 ≤ length buf.old) × Short names.now }
    ensures put { Put buf.old start (controls_text s.now o k n names.now 24 0) result buf.new }
    ensures upper_bound { result ≤ start + 1536 }
{
    let mut at = start;
    for i in 0..BITS {
        at = control(buf, at, names, i, is_set(s, o, k, n, i));
    }
    at
}

// The line of one bit; nothing where it is clear.
fn control(buf: &mut [u8], at: usize, names: &[u8], i: usize, set: bool) -> usize
    requires { (i < 24) × (at + 64 ≤ length buf.old) × Short names.now }
    ensures put { Put buf.old at (control_text names.now i set) result buf.new }
    ensures upper_bound { result ≤ at + 64 }
{
    if set {
        let next = text::put(buf, at, b"      ");
        return name_tables::line(buf, next, names, i, &[]);
    }
    at
}

// Whether bit i of the map is set: the bits of a byte count from its lowest.
fn is_set(s: &[u8], o: usize, k: usize, n: u8, i: usize) -> bool
    requires { (o ≤ length s.now) × (k < 256) × (i < 24) }
    ensures { result ≡ is_set s.now o k n i }
{
    if (n as usize) <= i / 8 {
        return false;
    }
    let b = byte_of(s, o, k + i / 8);
    (b >> (i % 8)) % 2 == 1
}
