// `describe setting FILE INTERFACE PAYLOAD`: the setting that is picked, or a refusal.
use crate::whole::FILE_MOST;
use console::{files, print, words};
use interfaces::{INTERFACES_MOST, Stream};
use std::rt::Runtime;

const STDERR_FILENO: i32 = 2;

// The largest payload size.
const PAYLOAD: u32 = 4294967295;

pub fn describe(rt: &impl Runtime, which: usize, first: usize, second: usize) {
    let mut text = [0u8; 16];
    let k = words::word(rt, first, &mut text);
    let interface = arguments::byte_of(&text[..k]);
    if 255 < interface {
        print::problem(b"INTERFACE: not a decimal number from 0 to 255\n");
        return;
    }
    let mut word = [0u8; 16];
    let m = words::word(rt, second, &mut word);
    let Some(payload) = arguments::read(&word[..m], PAYLOAD) else {
        print::problem(b"PAYLOAD: not a decimal number from 0 to 4,294,967,295\n");
        return;
    };
    let mut buf = [0u8; FILE_MOST];
    let Some(n) = files::load(rt, which, &mut buf) else {
        return;
    };
    let place = device_file::find(&buf[..n]);
    let from = place.offset;
    let to = from + place.length;
    show(rt, &buf[from..to], interface as u8, payload);
}

fn show(rt: &impl Runtime, s: &[u8], interface: u8, payload: u32) {
    let mut lines = [0u8; configuration_text::ROOM];
    let p = picking::pick(s, interface, payload);
    let verdict = p.verdict;
    let j = configuration_text::picked(&mut lines, p);
    if is_missing(s, interface) {
        io::write_all(
            STDERR_FILENO,
            b"INTERFACE: the configuration has no streaming interface of this number\n",
        );
    }
    print::answer(rt, &lines[..j], block_text::is_accepted(verdict));
}

// Whether the configuration is accepted, and lists no streaming interface of this number.
fn is_missing(s: &[u8], interface: u8) -> bool {
    let c = configuration::read(s);
    let verdict = c.verdict;
    let streams = c.streams;
    if block_text::is_accepted(verdict) {
        return !is_listed(streams, c.count, interface);
    }
    false
}

fn is_listed(streams: [Stream; INTERFACES_MOST], count: usize, interface: u8) -> bool {
    for i in 0..INTERFACES_MOST {
        if i < count && streams[i].interface == interface {
            return true;
        }
    }
    false
}
