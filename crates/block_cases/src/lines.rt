// The lines of an answer. Those of entities, formats, frames, controls and refusals are those that `describe` prints.
use cases::print;
use control_map::CONTROLS_MOST;
use entities::{Revision, Table};
use rules::{Refused, Verdict};
use streaming_descriptors::{Format, Frame};
use streaming_rules::{FORMATS_MOST, FRAMES_MOST};
use text::LINE_MOST;

// A reader's verdict, after its name.
pub fn verdict(name: &[u8], v: Verdict) {
    print::text(name);
    match v {
        Ok(()) => print::text(b"accepted\n"),
        Err(Refused { number, offset }) => refused(number, offset),
    }
}

pub fn refused(number: u8, offset: usize) {
    let mut buf = [0u8; LINE_MOST];
    let n = block_lines::refused(&mut buf, 0, number, offset);
    print::front(&buf, n);
}

pub fn entities(t: Table) {
    let mut buf = [0u8; LINE_MOST * 32];
    let n = block_lines::entities(&mut buf, 0, t);
    print::front(&buf, n);
}

pub fn controls(all: [u8; CONTROLS_MOST], count: usize) {
    let mut buf = [0u8; LINE_MOST * 33];
    let n = block_lines::controls(&mut buf, 0, all, count);
    print::front(&buf, n);
}

pub fn revision(v: Revision) {
    let mut buf = [0u8; LINE_MOST];
    let n = block_lines::revision(&mut buf, 0, v);
    print::front(&buf, n);
}

// 0 is 1.0, 1 is 1.1, and anything else 1.5.
pub fn revision_of(x: u8) -> Revision {
    match x {
        0 => Revision::R10,
        1 => Revision::R11,
        _ => Revision::R15,
    }
}

pub fn formats(all: [Format; FORMATS_MOST], count: usize) {
    let mut buf = [0u8; LINE_MOST * 8];
    let n = block_lines::formats(&mut buf, 0, all, count);
    print::front(&buf, n);
}

pub fn frames(all: [Frame; FRAMES_MOST], count: usize) {
    let mut buf = [0u8; LINE_MOST * 64];
    let n = block_lines::frames(&mut buf, 0, all, count);
    print::front(&buf, n);
}
