// The cases of whole configurations and of picks: each is read from standard input, handed to its reader, and its answer printed in full.
#![tactic(auto)]

use alternate_settings::Setting;
use cases::{input, print};
use configuration::Configuration;
use interfaces::{Block, INTERFACES_MOST, Stream};
use rules::{Refused, Verdict};

// More than a configuration may have, so that one that is too long can be handed in.
const ROOM: usize = 33024;

pub fn configuration() -> bool {
    let mut s = [0u8; ROOM];
    let Some(n) = input::part(&mut s) else {
        return false;
    };
    let c = configuration::read(&s[..n]);
    told(&s[..n], c);
    true
}

fn told(s: &[u8], c: Configuration) {
    print::text(b"configuration ");
    let verdict = c.verdict;
    verdict_line(verdict);
    let b = c.control;
    block(b);
    print::line(b"streams", c.count as u64);
    let all = c.streams;
    streams(s, all, c.count);
    print::rest(rest_zero(all, c.count));
}

fn verdict_line(v: Verdict) {
    match v {
        Ok(()) => print::text(b"accepted\n"),
        Err(Refused { number, offset }) => refused(number, offset),
    }
}

fn refused(number: u8, offset: usize) {
    print::text(b"refused");
    print::byte(number);
    print::text(b" at");
    print::field(offset as u64);
    print::end();
}

fn block(b: Block) {
    print::text(b"interface");
    print::byte(b.interface);
    print::field(b.offset as u64);
    print::field(b.length as u64);
    print::end();
}

fn streams(s: &[u8], all: [Stream; INTERFACES_MOST], n: usize) {
    for e in all.iter().take(n) {
        stream(s, *e);
    }
}

fn stream(s: &[u8], e: Stream) {
    print::text(b"stream");
    print::byte(e.interface);
    print::field(e.offset as u64);
    print::field(e.length as u64);
    print::byte(e.endpoint);
    print::end();
    // An accepted configuration has at most 32; one more would show.
    // No `for`: the edit *same_setting_for_ever* tries that the count goes on, and a `for` leaves nothing to try.
    let mut k: usize = 0;
    while k < 34 {
        match alternate_settings::kth(s, e.interface, e.endpoint, k) {
            None => return,
            Some(x) => {
                setting(b"setting", x);
                k += 1;
            }
        }
    }
}

fn setting(name: &[u8], x: Setting) {
    print::text(name);
    print::byte(x.number);
    print::word(x.bytes);
    print::end();
}

// Whether every place past the used ones is all zero.
fn rest_zero(all: [Stream; INTERFACES_MOST], n: usize) -> bool {
    all.iter().skip(n).all(|e| no_stream(*e))
}

fn no_stream(e: Stream) -> bool {
    e.interface == 0 && e.endpoint == 0 && e.offset == 0 && e.length == 0
}

pub fn pick() -> bool {
    let mut s = [0u8; ROOM];
    let Some(n) = input::part(&mut s) else {
        return false;
    };
    let interface = input::byte();
    let payload = input::word();
    let p = picking::pick(&s[..n], interface, payload);
    let verdict = p.verdict;
    let x = p.setting;
    match verdict {
        Ok(()) => setting(b"pick", x),
        Err(Refused { number, offset }) => {
            print::text(b"pick ");
            refused(number, offset);
        }
    }
    true
}
