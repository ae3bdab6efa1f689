// `describe configuration FILE`: the control interface, the streaming interfaces and their settings, or a refusal.
use console::{files, print};
use std::rt::Runtime;

// A device descriptor, the largest number that a configuration can give as its length, and one byte more.
pub const FILE_MOST: usize = 65554;

pub fn describe(rt: &impl Runtime, which: usize) {
    let mut buf = [0u8; FILE_MOST];
    let Some(n) = files::load(rt, which, &mut buf) else {
        return;
    };
    let place = device_file::find(&buf[..n]);
    let from = place.offset;
    let to = from + place.length;
    show(rt, &buf[from..to]);
}

fn show(rt: &impl Runtime, s: &[u8]) {
    let mut text = [0u8; configuration_text::ROOM];
    let c = configuration::read(s);
    let verdict = c.verdict;
    let k = configuration_text::configuration(&mut text, s, c);
    print::answer(rt, &text[..k], block_text::is_accepted(verdict));
}
