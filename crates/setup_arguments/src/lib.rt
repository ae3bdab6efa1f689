// The arguments of `setup`: the names of settings and requests, and the numbers of a setting as words.
#![tactic(auto)]

ghost use Rattle.std.specs.Prelude.{◌≡◌};
ghost use Rattle.setup_arguments.specs.Arguments.{SettingNamed, RequestNamed, minus_of, signed_of, word_of};

use camera_settings::{Request, Setting};

// The setting of a name.
pub fn setting_named(word: &[u8]) -> Option<Setting>
    ensures { SettingNamed word.now result }
{
    if check::same(word, b"brightness") {
        return Some(Setting::Brightness);
    }
    if check::same(word, b"contrast") {
        return Some(Setting::Contrast);
    }
    if check::same(word, b"hue") {
        return Some(Setting::Hue);
    }
    if check::same(word, b"saturation") {
        return Some(Setting::Saturation);
    }
    None
}

// The request of a name.
pub fn request_named(word: &[u8]) -> Option<Request>
    ensures { RequestNamed word.now result }
{
    if check::same(word, b"get_cur") {
        return Some(Request::GetCur);
    }
    if check::same(word, b"get_min") {
        return Some(Request::GetMin);
    }
    if check::same(word, b"get_max") {
        return Some(Request::GetMax);
    }
    if check::same(word, b"get_res") {
        return Some(Request::GetRes);
    }
    if check::same(word, b"get_def") {
        return Some(Request::GetDef);
    }
    if check::same(word, b"set_cur") {
        return Some(Request::SetCur);
    }
    None
}

// The word of 16 bits that stands for a number of the setting's type; none where the text is no such number.
pub fn word_of(setting: Setting, text: &[u8]) -> Option<u32>
    ensures { result ≡ word_of setting text.now }
{
    if camera_settings::is_signed(setting) {
        return signed(text);
    }
    arguments::read(text, 65535)
}

fn signed(text: &[u8]) -> Option<u32>
    ensures { result ≡ signed_of text.now }
{
    if text.len() == 0 {
        return None;
    }
    if text[0] == b'-' {
        return minus(arguments::read(&text[1..], 32768));
    }
    arguments::read(text, 32767)
}

fn minus(n: Option<u32>) -> Option<u32>
    ensures { result ≡ minus_of n }
{
    n.map(|m| (65536 - m % 65536) % 65536)
}
