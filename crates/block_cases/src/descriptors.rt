// Control and streaming blocks.
use crate::lines;
use cases::{input, print};
use control_map::{CONTROLS_MOST, Map};
use entities::{Entity, Table};
use rules::Refused;
use streaming::Streaming;
use streaming_descriptors::{Format, Frame};

pub fn control() -> bool {
    let mut block = [0u8; 4352];
    let Some(n) = input::part(&mut block) else {
        return false;
    };
    let c = control::read(&block[..n]);
    let verdict = c.verdict;
    let table = c.table;
    lines::verdict(b"control ", verdict);
    print::line(b"count", table.count as u64);
    print::line(b"clock", table.clock as u64);
    lines::entities(table);
    print::rest(rest_zero(table));
    true
}

// Whether every place past the used ones is all zero.
fn rest_zero(t: Table) -> bool {
    t.entities.iter().skip(t.count).all(|e| no_entity(*e))
}

fn no_entity(e: Entity) -> bool {
    e.id == 0 && e.kind == 0 && e.terminal == 0 && e.offset == 0
}

// Case M: the controls of a unit, or why there are none.
pub fn map() -> bool {
    mapped(false)
}

// Case N: the same, and after it the map's length, the places behind it, and the block's revision.
pub fn whole_map() -> bool {
    mapped(true)
}

fn mapped(whole: bool) -> bool {
    let mut block = [0u8; 4352];
    let Some(n) = input::part(&mut block) else {
        return false;
    };
    let id = input::byte();
    let map = control_map::controls(&block[..n], id);
    let verdict = map.verdict;
    match verdict {
        Ok(()) => given(map),
        Err(Refused { number, offset }) => {
            print::text(b"map ");
            lines::refused(number, offset);
        }
    }
    if whole {
        behind(map);
        let c = control::read(&block[..n]);
        let table = c.table;
        let revision = table.revision;
        lines::revision(revision);
    }
    true
}

fn behind(map: Map) {
    let bytes = map.bytes;
    print::line(b"length", map.length as u64);
    print::rest(places_zero(bytes, map.length as usize));
}

// Whether every place from n on is zero.
fn places_zero(bytes: [u8; CONTROLS_MOST], n: usize) -> bool {
    bytes.iter().skip(n).all(|b| *b == 0)
}

fn given(map: Map) {
    let bytes = map.bytes;
    lines::controls(bytes, map.length as usize);
}

pub fn streaming() -> bool {
    let mut block = [0u8; 4352];
    let Some(n) = input::part(&mut block) else {
        return false;
    };
    let c = control::read(&block[..n]);
    let table = c.table;
    against(table)
}

// A streaming block against a table.
fn against(table: Table) -> bool {
    let mut block = [0u8; 16640];
    let Some(n) = input::part(&mut block) else {
        return false;
    };
    let s = streaming::read(table, &block[..n]);
    described(s);
    true
}

fn described(s: Streaming) {
    let verdict = s.verdict;
    lines::verdict(b"streaming ", verdict);
    print::line(b"endpoint", s.endpoint as u64);
    print::line(b"link", s.link as u64);
    let formats = s.formats;
    print::line(b"formats", s.format_count as u64);
    lines::formats(formats, s.format_count);
    let frames = s.frames;
    print::line(b"frames", s.frame_count as u64);
    lines::frames(frames, s.frame_count);
    if formats_rest(formats, s.format_count) {
        print::rest(frames_rest(frames, s.frame_count));
    } else {
        print::rest(false);
    }
}

fn formats_rest(formats: [Format; 8], n: usize) -> bool {
    formats.iter().skip(n).all(|f| no_format(*f))
}

fn no_format(f: Format) -> bool {
    f.kind == 0 && f.guid == 0 && f.bits == 0 && f.frames == 0 && f.default == 0 && f.offset == 0
}

fn frames_rest(frames: [Frame; 64], n: usize) -> bool {
    frames.iter().skip(n).all(|f| no_frame(*f))
}

fn no_frame(f: Frame) -> bool {
    f.format == 0
        && f.k == 0
        && f.width == 0
        && f.height == 0
        && f.offset == 0
        && f.size == 0
        && f.interval == 0
}

pub fn hostile() -> bool {
    against(forged_table())
}

fn forged_table() -> Table {
    let count = input::byte() as usize;
    let revision = lines::revision_of(input::byte());
    let mut table = entities::no_table();
    for place in table.entities.iter_mut() {
        *place = forged_entity();
    }
    Table {
        count,
        entities: table.entities,
        clock: 0,
        revision,
    }
}

fn forged_entity() -> Entity {
    let id = input::byte();
    let kind = input::byte();
    let terminal = input::half();
    let offset = input::half();
    Entity {
        id,
        kind,
        terminal,
        offset,
    }
}
