// The words of the call. What is wrong with one is a line on standard error.
ghost use Rattle.std.specs.Prelude.{◌≡◌, List, ℕ};
ghost use Rattle.arguments.specs.Digits.{number_or, byte_of};
ghost use Rattle.setup_arguments.specs.Arguments.{SettingNamed, RequestNamed, word_of};

use camera_settings::{Request, Setting};
use console::print;
use std::env::Env;

const STDERR_FILENO: i32 = 2;

// What stands for no word of 16 bits.
const NO_WORD: u32 = 65536;

// Argument `which` as a number from 0 to 255, or 256 where it is none and a line says so. No contract can say what an argument is: here and below it is some text.
pub fn byte(rt: &impl Env, which: usize, name: &[u8]) -> u32
    ensures { (text : List ℕ) × (result ≡ byte_of text) }
{
    let mut text = [0u8; 16];
    let k = console::words::word(rt, which, &mut text);
    let n = arguments::byte_of(&text[..k]);
    if 255 < n {
        wrong(name, b": not a decimal number from 0 to 255\n");
    }
    n
}

// Argument `which` as the word of a number of the setting, or 65,536 where it is none and a line says so.
pub fn word(rt: &impl Env, which: usize, name: &[u8], setting: Setting) -> u32
    ensures { (text : List ℕ) × (result ≡ number_or 65536 (word_of setting text)) }
{
    let mut text = [0u8; 16];
    let k = console::words::word(rt, which, &mut text);
    let n = arguments::or_else(setup_arguments::word_of(setting, &text[..k]), NO_WORD);
    if 65535 < n {
        outside(name, setting);
    }
    n
}

// Argument `which` as the name of a setting.
pub fn setting(rt: &impl Env, which: usize) -> Option<Setting>
    ensures { (text : List ℕ) × SettingNamed text result }
{
    let mut text = [0u8; 16];
    let k = console::words::word(rt, which, &mut text);
    setup_arguments::setting_named(&text[..k])
}

// Argument `which` as the name of a request.
pub fn request(rt: &impl Env, which: usize) -> Option<Request>
    ensures { (text : List ℕ) × RequestNamed text result }
{
    let mut text = [0u8; 16];
    let k = console::words::word(rt, which, &mut text);
    setup_arguments::request_named(&text[..k])
}

pub fn no_setting() {
    print::problem(b"CONTROL: not brightness, contrast, hue or saturation\n");
}

pub fn no_request() {
    print::problem(b"REQUEST: not get_cur, get_min, get_max, get_res, get_def or set_cur\n");
}

fn outside(name: &[u8], setting: Setting) {
    if camera_settings::is_signed(setting) {
        wrong(name, b": not a decimal number from -32768 to 32767\n");
    } else {
        wrong(name, b": not a decimal number from 0 to 65535\n");
    }
}

fn wrong(name: &[u8], line: &[u8]) {
    io::write_all(STDERR_FILENO, name);
    print::problem(line);
}
