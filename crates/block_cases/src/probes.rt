// Probe blocks.
use crate::lines;
use cases::{input, print};
use entities::Revision;
use probe::Probe;

pub fn check() -> bool {
    let mut block = [0u8; 4352];
    let Some(n) = input::part(&mut block) else {
        return false;
    };
    let c = control::read(&block[..n]);
    let table = c.table;
    let mut streaming = [0u8; 16640];
    let Some(m) = input::part(&mut streaming) else {
        return false;
    };
    let mut probe = [0u8; 64];
    let Some(k) = input::part(&mut probe) else {
        return false;
    };
    lines::verdict(
        b"check ",
        probe_check::check(table, &streaming[..m], &probe[..k]),
    );
    true
}

// Reads the block, prints its fields, and writes them into the room.
pub fn write() -> bool {
    let revision = lines::revision_of(input::byte());
    let mut block = [0u8; 64];
    let Some(n) = input::part(&mut block) else {
        return false;
    };
    let mut room = [0u8; 64];
    let Some(m) = input::part(&mut room) else {
        return false;
    };
    let read = probe::read(&block[..n], revision);
    let verdict = read.verdict;
    let p = read.probe;
    lines::verdict(b"probe ", verdict);
    fields(p);
    written(p, &mut room[..m], revision);
    true
}

fn written(p: Probe, room: &mut [u8], revision: Revision) {
    lines::verdict(b"write ", probe::write(p, room, revision));
    print::hex(b"room", room);
}

fn fields(p: Probe) {
    print::text(b"fields");
    wishes(p);
    sizes(p);
    versions(p);
    coding(p);
    let layout = p.layout;
    bytes(layout);
    print::end();
}

// hint to delay
fn wishes(p: Probe) {
    print::half(p.hint);
    print::byte(p.format);
    print::byte(p.frame);
    print::word(p.interval);
    print::half(p.key_rate);
    print::half(p.p_rate);
    print::half(p.quality);
    print::half(p.window);
    print::half(p.delay);
}

// frame size to framing
fn sizes(p: Probe) {
    print::word(p.frame_size);
    print::word(p.payload_size);
    print::word(p.clock);
    print::byte(p.framing);
}

// preferred to maximum version
fn versions(p: Probe) {
    print::byte(p.preferred);
    print::byte(p.minimum);
    print::byte(p.maximum);
}

// usage to rate modes
fn coding(p: Probe) {
    print::byte(p.usage);
    print::byte(p.luma_depth);
    print::byte(p.settings);
    print::byte(p.reference_frames);
    print::half(p.rate_modes);
}

fn bytes(l: [u8; 8]) {
    print::byte(l[0]);
    print::byte(l[1]);
    print::byte(l[2]);
    print::byte(l[3]);
    print::byte(l[4]);
    print::byte(l[5]);
    print::byte(l[6]);
    print::byte(l[7]);
}
