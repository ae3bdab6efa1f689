// Probe and commit blocks for a C host: a block's fields as words, read, written and checked, over the revision.
#![tactic(auto)]

ghost use Rattle.std.specs.Prelude.{◌≡◌};
ghost use Rattle.rules.specs.Place.{first_place};
ghost use Rattle.host_probe.specs.Words.{word_count, words_of, fields_in, layout_in, differs};
ghost use Rattle.host_probe.specs.Probe.{revision_in, read_told, read_left, verdict_left, read_as, read_left_as, wide_told, write_told, write_left, write_as, write_left_as, check_under, CheckAnswer};

use entities::{Revision, Table};
use host_told::Told;
use probe::Probe;
use rules::Verdict;

// A probe block's fields as words, in the order of the block; the eight bytes of the layout are a word each.
pub const WORDS: usize = 29;

// Reads a probe block's fields into the words; a refusal changes none. Unknown: a revision that is not 0x0100, 0x0110 or 0x0150.
#[unsafe(no_mangle)]
pub extern "C" fn palkodhen_probe_read(to: &mut [u32; WORDS], block: &[u8], revision: u16) -> Told
    ensures value { result ≡ read_told (revision_in revision) block.now }
    ensures to_after { to.new ≡ read_left (revision_in revision) block.now to.old }
{
    match revision_of(revision) {
        None => host_told::unknown(),
        Some(v) => read_as(to, block, v),
    }
}

fn read_as(to: &mut [u32; WORDS], block: &[u8], v: Revision) -> Told
    ensures value { result ≡ read_as v block.now }
    ensures to_after { to.new ≡ read_left_as v block.now to.old }
{
    let f = probe::read(block, v);
    let verdict = f.verdict;
    let p = f.probe;
    leave(to, verdict, p);
    host_told::tell(verdict)
}

// The words of the fields, where they were read.
fn leave(to: &mut [u32; WORDS], verdict: Verdict, p: Probe)
    ensures { to.new ≡ verdict_left verdict (words_of p) to.old }
{
    match verdict {
        Ok(()) => {
            *to = words_of(p);
        }
        Err(_) => {}
    }
}

// Writes the fields that the words are into the first bytes of the room; a refusal changes no byte. Unknown: such a revision; or a word over its field's width, and then its place comes with it.
#[unsafe(no_mangle)]
pub extern "C" fn palkodhen_probe_write(from: &[u32; WORDS], room: &mut [u8], revision: u16) -> Told
    ensures value { result ≡ write_told (revision_in revision) from.now room.old }
    ensures room_after { room.new ≡ write_left (revision_in revision) from.now room.old }
{
    match revision_of(revision) {
        None => host_told::unknown(),
        Some(v) => write_as(from, room, v),
    }
}

fn write_as(from: &[u32; WORDS], room: &mut [u8], v: Revision) -> Told
    ensures value { result ≡ write_as v from.now room.old }
    ensures room_after { room.new ≡ write_left_as v from.now room.old }
{
    let p = fields_in(from);
    let i = wide_at(from, words_of(p));
    if i < WORDS {
        return too_wide(i);
    }
    let verdict = probe::write(p, room, v);
    host_told::tell(verdict)
}

fn too_wide(i: usize) -> Told
    ensures { result ≡ wide_told i }
{
    Told {
        number: host_told::UNKNOWN,
        zero: 0,
        offset: i,
    }
}

// Checks a probe block against a streaming block and its control block, whose own refusal comes first.
#[unsafe(no_mangle)]
pub extern "C" fn palkodhen_probe_check(control: &[u8], block: &[u8], probe: &[u8]) -> Told
    ensures { CheckAnswer control.now block.now probe.now result }
{
    let c = control::read(control);
    let verdict = c.verdict;
    let table = c.table;
    check_under(verdict, table, block, probe)
}

fn check_under(verdict: Verdict, table: Table, block: &[u8], probe: &[u8]) -> Told
    ensures { result ≡ check_under verdict table block.now probe.now }
{
    match verdict {
        Err(_) => host_told::tell(verdict),
        Ok(()) => host_told::tell(probe_check::check(table, block, probe)),
    }
}

// The revision that a number is.
fn revision_of(n: u16) -> Option<Revision>
    ensures { result ≡ revision_in n }
{
    match n {
        0x0100 => Some(Revision::R10),
        0x0110 => Some(Revision::R11),
        0x0150 => Some(Revision::R15),
        _ => None,
    }
}

// The first word that is not that of its field, and so over its width; WORDS where none is. (No Option: `first_place` gives the number.)
fn wide_at(from: &[u32; WORDS], words: [u32; WORDS]) -> usize
    ensures { result ≡ first_place (differs from.now words) word_count }
{
    for i in 0..WORDS {
        if from[i] != words[i] {
            return i;
        }
    }
    WORDS
}

fn wide(x: u8) -> u32
    ensures { result ≡ x }
{
    x as u32
}

// The fields' words.
fn words_of(p: Probe) -> [u32; WORDS]
    ensures { result ≡ words_of p }
{
    [
        p.hint as u32,
        p.format as u32,
        p.frame as u32,
        p.interval,
        p.key_rate as u32,
        p.p_rate as u32,
        p.quality as u32,
        p.window as u32,
        p.delay as u32,
        p.frame_size,
        p.payload_size,
        p.clock,
        p.framing as u32,
        p.preferred as u32,
        p.minimum as u32,
        p.maximum as u32,
        p.usage as u32,
        p.luma_depth as u32,
        p.settings as u32,
        p.reference_frames as u32,
        p.rate_modes as u32,
        wide(p.layout[0]),
        wide(p.layout[1]),
        wide(p.layout[2]),
        wide(p.layout[3]),
        wide(p.layout[4]),
        wide(p.layout[5]),
        wide(p.layout[6]),
        wide(p.layout[7]),
    ]
}

// The fields that the words are, each in its width.
fn fields_in(w: &[u32; WORDS]) -> Probe
    ensures { result ≡ fields_in w.now }
{
    Probe {
        hint: (w[0] % 65536) as u16,
        format: (w[1] % 256) as u8,
        frame: (w[2] % 256) as u8,
        interval: w[3],
        key_rate: (w[4] % 65536) as u16,
        p_rate: (w[5] % 65536) as u16,
        quality: (w[6] % 65536) as u16,
        window: (w[7] % 65536) as u16,
        delay: (w[8] % 65536) as u16,
        frame_size: w[9],
        payload_size: w[10],
        clock: w[11],
        framing: (w[12] % 256) as u8,
        preferred: (w[13] % 256) as u8,
        minimum: (w[14] % 256) as u8,
        maximum: (w[15] % 256) as u8,
        usage: (w[16] % 256) as u8,
        luma_depth: (w[17] % 256) as u8,
        settings: (w[18] % 256) as u8,
        reference_frames: (w[19] % 256) as u8,
        rate_modes: (w[20] % 65536) as u16,
        layout: layout_in(w),
    }
}

fn layout_in(w: &[u32; WORDS]) -> [u8; 8]
    ensures { result ≡ layout_in w.now }
{
    [
        (w[21] % 256) as u8,
        (w[22] % 256) as u8,
        (w[23] % 256) as u8,
        (w[24] % 256) as u8,
        (w[25] % 256) as u8,
        (w[26] % 256) as u8,
        (w[27] % 256) as u8,
        (w[28] % 256) as u8,
    ]
}
