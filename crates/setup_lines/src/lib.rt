// The printed lines of the settings: a packet, what a packet asks for, a number.
#![tactic(auto)]

ghost use Rattle.std.specs.Prelude.{◌≡◌, [], ◌∷◌, ◌++◌, ◌+◌, ◌≤◌, length};
ghost use Rattle.text.specs.Decimal.{decimal};
ghost use Rattle.text.specs.Put.{Put};
ghost use Rattle.text.specs.Text.{line_most};
ghost use Rattle.nearest.specs.Word.{integer_of};
ghost use Rattle.setup_lines.specs.Lines.{setting_name, request_name, packet_line, asks_line, number_line};
ghost use Rattle.setup_lines.specs.Inner.{is_below};

use camera_settings::{Request, Setting};
use packets::SIZE;

// Inner: the bytes of a packet.
pub fn packet(buf: &mut [u8], bytes: [u8; SIZE]) -> usize
    requires { line_most ≤ length buf.old }
    ensures { Put buf.old 0 (packet_line bytes) result buf.new }
{
    let ns = [
        bytes[0] as u64,
        bytes[1] as u64,
        bytes[2] as u64,
        bytes[3] as u64,
        bytes[4] as u64,
        bytes[5] as u64,
        bytes[6] as u64,
        bytes[7] as u64,
    ];
    text::line(buf, 0, b"packet", &ns)
}

// Inner: what a packet asks for.
pub fn asks(buf: &mut [u8], unit: u8, setting: Setting, request: Request) -> usize
    requires { line_most ≤ length buf.old }
    ensures { Put buf.old 0 (asks_line unit setting request) result buf.new }
{
    let named = text::put(buf, 0, b"unit");
    let numbered = text::number(buf, named, unit as u64);
    let controlled = text::put(buf, numbered, b" control ");
    let set = setting_name(buf, controlled, setting);
    let requested = text::put(buf, set, b" request ");
    let told = request_name(buf, requested, request);
    text::put(buf, told, b"\n")
}

// Inner: the number that a setting's word stands for.
pub fn number(buf: &mut [u8], setting: Setting, word: u16) -> usize
    requires { line_most ≤ length buf.old }
    ensures { Put buf.old 0 (number_line (integer_of setting word)) result buf.new }
{
    if is_below(setting, word) {
        return spelt(buf, b"number -", 65536 - word as u64);
    }
    spelt(buf, b"number ", word as u64)
}

// The word stands for a number below zero.
fn is_below(setting: Setting, word: u16) -> bool
    ensures { result ≡ is_below setting word }
{
    camera_settings::is_signed(setting) && 32768 <= word
}

// A name, the digits of a number straight behind it, and the line's end.
fn spelt(buf: &mut [u8], name: &[u8], n: u64) -> usize
    requires { (line_most ≤ length buf.old) × (length name.now ≤ 16) }
    ensures { Put buf.old 0 (name.now ++ (decimal n ++ (10 ∷ []))) result buf.new }
{
    let named = text::put(buf, 0, name);
    let told = text::digits(buf, named, n);
    text::put(buf, told, b"\n")
}

fn setting_name(buf: &mut [u8], at: usize, setting: Setting) -> usize
    requires { at + 16 ≤ length buf.old }
    ensures put { Put buf.old at (setting_name setting) result buf.new }
    ensures upper_bound { result ≤ at + 16 }
{
    match setting {
        Setting::Brightness => text::put(buf, at, b"brightness"),
        Setting::Contrast => text::put(buf, at, b"contrast"),
        Setting::Hue => text::put(buf, at, b"hue"),
        Setting::Saturation => text::put(buf, at, b"saturation"),
    }
}

fn request_name(buf: &mut [u8], at: usize, request: Request) -> usize
    requires { at + 16 ≤ length buf.old }
    ensures put { Put buf.old at (request_name request) result buf.new }
    ensures upper_bound { result ≤ at + 16 }
{
    match request {
        Request::GetCur => text::put(buf, at, b"get_cur"),
        Request::GetMin => text::put(buf, at, b"get_min"),
        Request::GetMax => text::put(buf, at, b"get_max"),
        Request::GetRes => text::put(buf, at, b"get_res"),
        Request::GetDef => text::put(buf, at, b"get_def"),
        Request::SetCur => text::put(buf, at, b"set_cur"),
    }
}
