// The printed lines of what the readers answer: one of each entity, format and frame, of a unit's controls, of a revision and of a refusal.
#![tactic(auto)]

ghost use Rattle.std.specs.Prelude.{◌+◌, ◌*◌, ◌≤◌, length, take};
ghost use Rattle.text.specs.Put.{Put};
ghost use Rattle.text.specs.Text.{line_most, number, texts};
ghost use Rattle.entities.specs.Table.{entities_most, used};
ghost use Rattle.block_lines.specs.Lines.{entity_line, format_line, frame_line, controls_line, revision_line, refused_line};

use control_map::CONTROLS_MOST;
use entities::{ENTITIES_MOST, Entity, Revision, Table};
use streaming_descriptors::{Format, Frame};
use streaming_rules::{FORMATS_MOST, FRAMES_MOST};

// Four loops, by the type of what they print: one over a type parameter would ask of its printer, at each call, what they say here, and be no plainer.
// Inner: the lines of the used places of an entity table.
pub fn entities(buf: &mut [u8], start: usize, t: Table) -> usize
    requires { start + line_most * entities_most ≤ length buf.old }
    ensures put { Put buf.old start (texts entity_line (used t)) result buf.new }
    ensures upper_bound { result ≤ start + line_most * entities_most }
{
    let n = t.count;
    let mut at = start;
    for i in 0..ENTITIES_MOST {
        if n <= i {
            return at;
        }
        let e = t.entities[i];
        at = entity(buf, at, e);
    }
    at
}

// Inner: the lines of the first n formats.
pub fn formats(buf: &mut [u8], start: usize, all: [Format; FORMATS_MOST], n: usize) -> usize
    requires { start + line_most * 8 ≤ length buf.old }
    ensures put { Put buf.old start (texts format_line (take n all)) result buf.new }
    ensures upper_bound { result ≤ start + line_most * 8 }
{
    let mut at = start;
    for i in 0..FORMATS_MOST {
        if n <= i {
            return at;
        }
        let f = all[i];
        at = format(buf, at, f);
    }
    at
}

// Inner: the lines of the first n frames.
pub fn frames(buf: &mut [u8], start: usize, all: [Frame; FRAMES_MOST], n: usize) -> usize
    requires { start + line_most * 64 ≤ length buf.old }
    ensures put { Put buf.old start (texts frame_line (take n all)) result buf.new }
    ensures upper_bound { result ≤ start + line_most * 64 }
{
    let mut at = start;
    for i in 0..FRAMES_MOST {
        if n <= i {
            return at;
        }
        let f = all[i];
        at = frame(buf, at, f);
    }
    at
}

// Inner: an entity's line.
pub fn entity(buf: &mut [u8], at: usize, e: Entity) -> usize
    requires { at + line_most ≤ length buf.old }
    ensures put { Put buf.old at (entity_line e) result buf.new }
    ensures upper_bound { result ≤ at + line_most }
{
    let ns = [
        e.id as u64,
        e.kind as u64,
        e.terminal as u64,
        e.offset as u64,
    ];
    text::line(buf, at, b"entity", &ns)
}

// Inner: a format's line.
pub fn format(buf: &mut [u8], at: usize, f: Format) -> usize
    requires { at + line_most ≤ length buf.old }
    ensures put { Put buf.old at (format_line f) result buf.new }
    ensures upper_bound { result ≤ at + line_most }
{
    let ns = [
        f.kind as u64,
        f.guid as u64,
        f.bits as u64,
        f.frames as u64,
        f.default as u64,
        f.offset as u64,
    ];
    text::line(buf, at, b"format", &ns)
}

// Inner: a frame's line.
pub fn frame(buf: &mut [u8], at: usize, f: Frame) -> usize
    requires { at + line_most ≤ length buf.old }
    ensures put { Put buf.old at (frame_line f) result buf.new }
    ensures upper_bound { result ≤ at + line_most }
{
    let ns = [
        f.format as u64,
        f.width as u64,
        f.height as u64,
        f.size as u64,
        f.interval as u64,
        f.k as u64,
        f.offset as u64,
    ];
    text::line(buf, at, b"frame", &ns)
}

// Inner: the line of the first n control bytes.
pub fn controls(buf: &mut [u8], at: usize, all: [u8; CONTROLS_MOST], n: usize) -> usize
    requires { at + line_most * 33 ≤ length buf.old }
    ensures { Put buf.old at (controls_line n all) result buf.new }
{
    let named = text::put(buf, at, b"controls");
    let counted = numbers(buf, named, all, n);
    text::put(buf, counted, b"\n")
}

fn numbers(buf: &mut [u8], start: usize, all: [u8; CONTROLS_MOST], n: usize) -> usize
    requires { start + line_most * 32 ≤ length buf.old }
    ensures put { Put buf.old start (texts number (take n all)) result buf.new }
    ensures upper_bound { result ≤ start + line_most * 32 }
{
    let mut at = start;
    for i in 0..CONTROLS_MOST {
        if n <= i {
            return at;
        }
        let x = all[i];
        at = text::number(buf, at, x as u64);
    }
    at
}

// Inner: the line of a revision.
pub fn revision(buf: &mut [u8], at: usize, v: Revision) -> usize
    requires { at + line_most ≤ length buf.old }
    ensures put { Put buf.old at (revision_line v) result buf.new }
    ensures upper_bound { result ≤ at + line_most }
{
    match v {
        Revision::R10 => text::put(buf, at, b"revision 1.0\n"),
        Revision::R11 => text::put(buf, at, b"revision 1.1\n"),
        Revision::R15 => text::put(buf, at, b"revision 1.5\n"),
    }
}

// Inner: a refusal's line.
pub fn refused(buf: &mut [u8], at: usize, number: u8, offset: usize) -> usize
    requires { at + line_most ≤ length buf.old }
    ensures put { Put buf.old at (refused_line number offset) result buf.new }
    ensures upper_bound { result ≤ at + line_most }
{
    let named = text::put(buf, at, b"refused");
    let numbered = text::number(buf, named, number as u64);
    let ns = [offset as u64];
    text::line(buf, numbered, b" at", &ns)
}
