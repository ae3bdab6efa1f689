// What a C host asks of a camera's blocks: each question reads the bytes again, and is answered by value.
#![tactic(auto)]

ghost use Rattle.std.specs.Prelude.{◌≡◌, take};
ghost use Rattle.le.specs.Le.{byte};
ghost use Rattle.host_told.specs.Told.{kth};
ghost use Rattle.host_camera.specs.Told.{under_told, no_entity, entity_told, revision_number, revision_told, no_format, format_told, no_frame, frame_told, format_under, frame_under};
ghost use Rattle.host_camera.specs.Questions.{ControlTold, StreamingTold, EntityAnswer, ClockAnswer, RevisionAnswer, ControlsAnswer, ControlsLeft, FormatAnswer, FrameAnswer};

use control_map::CONTROLS_MOST;
use entities::{ENTITIES_MOST, Entity, Revision, Table};
use host_told::Told;
use rules::Verdict;
use streaming_descriptors::{Format, Frame};
use streaming_rules::{FORMATS_MOST, FRAMES_MOST};

// In these, `there` is 1; all is 0 past the last, and where the block is refused.
#[repr(C)]
#[derive(Drop)]
pub struct EntityTold {
    pub there: u8,
    pub id: u8,
    pub kind: u8,
    pub zero: u8,
    pub terminal: u16,
    pub offset: u16,
}

#[repr(C)]
#[derive(Drop)]
pub struct FormatTold {
    pub there: u8,
    pub kind: u8,
    pub guid: u8,
    pub bits: u8,
    pub frames: u8,
    pub default: u8,
    pub offset: u16,
}

// `number` is the frame's own, under its format.
#[repr(C)]
#[derive(Drop)]
pub struct FrameTold {
    pub there: u8,
    pub format: u8,
    pub number: u8,
    pub intervals: u8,
    pub width: u16,
    pub height: u16,
    pub size: u32,
    pub interval: u32,
}

// The number of a refusal, how many control bytes there are, and the place of the refusal.
#[repr(C)]
#[derive(Drop)]
pub struct ControlsTold {
    pub number: u32,
    pub length: u32,
    pub offset: usize,
}

// ---- verdicts

// What reading a control block says.
#[unsafe(no_mangle)]
pub extern "C" fn palkodhen_control(block: &[u8]) -> Told
    ensures { ControlTold block.now result }
{
    let c = control::read(block);
    let verdict = c.verdict;
    host_told::tell(verdict)
}

// What reading a streaming block says with its control block's table, after the control block's own refusal.
#[unsafe(no_mangle)]
pub extern "C" fn palkodhen_streaming(control: &[u8], block: &[u8]) -> Told
    ensures { StreamingTold control.now block.now result }
{
    let c = control::read(control);
    let verdict = c.verdict;
    let table = c.table;
    tell_under(verdict, table, block)
}

fn tell_under(verdict: Verdict, table: Table, block: &[u8]) -> Told
    ensures { result ≡ under_told verdict table block.now }
{
    match verdict {
        Err(_) => host_told::tell(verdict),
        Ok(()) => {
            let s = streaming::read(table, block);
            let verdict = s.verdict;
            host_told::tell(verdict)
        }
    }
}

// ---- a control block

// The entity at place k of the table, from 0.
#[unsafe(no_mangle)]
pub extern "C" fn palkodhen_entity_at(control: &[u8], k: usize) -> EntityTold
    ensures { EntityAnswer control.now k result }
{
    let c = control::read(control);
    let table = c.table;
    let entities = table.entities;
    entity_in(entities, table.count, k)
}

fn entity_in(entities: [Entity; ENTITIES_MOST], count: usize, k: usize) -> EntityTold
    ensures { result ≡ kth no_entity entity_told (take count entities) k }
{
    if count <= k {
        return no_entity();
    }
    if ENTITIES_MOST <= k {
        return no_entity();
    }
    tell_entity(entities[k])
}

fn no_entity() -> EntityTold
    ensures { result ≡ no_entity }
{
    EntityTold {
        there: 0,
        id: 0,
        kind: 0,
        zero: 0,
        terminal: 0,
        offset: 0,
    }
}

fn tell_entity(e: Entity) -> EntityTold
    ensures { result ≡ entity_told e }
{
    EntityTold {
        there: 1,
        id: e.id,
        kind: e.kind,
        zero: 0,
        terminal: e.terminal,
        offset: e.offset,
    }
}

// The clock frequency; 0 where the block is refused.
#[unsafe(no_mangle)]
pub extern "C" fn palkodhen_clock(control: &[u8]) -> u32
    ensures { ClockAnswer control.now result }
{
    let c = control::read(control);
    let table = c.table;
    table.clock
}

// The revision as the header has it, 0x0100, 0x0110 or 0x0150; 0 where the block is refused.
#[unsafe(no_mangle)]
pub extern "C" fn palkodhen_revision(control: &[u8]) -> u16
    ensures { RevisionAnswer control.now result }
{
    let c = control::read(control);
    let verdict = c.verdict;
    let table = c.table;
    let revision = table.revision;
    revision_under(verdict, revision)
}

fn revision_under(verdict: Verdict, revision: Revision) -> u16
    ensures { result ≡ revision_told verdict revision }
{
    match verdict {
        Ok(()) => revision_number(revision),
        Err(_) => 0,
    }
}

fn revision_number(revision: Revision) -> u16
    ensures { result ≡ revision_number revision }
{
    match revision {
        Revision::R10 => 0x0100,
        Revision::R11 => 0x0110,
        Revision::R15 => 0x0150,
    }
}

// The control bytes of the camera terminal or processing unit that has the ID, and 0 behind them; all 0 where it is refused.
#[unsafe(no_mangle)]
pub extern "C" fn palkodhen_controls(
    control: &[u8],
    id: u8,
    bytes: &mut [u8; CONTROLS_MOST],
) -> ControlsTold
    ensures controls_answer { ControlsAnswer control.now id result }
    ensures controls_left { ControlsLeft control.now id bytes.new }
{
    let m = control_map::controls(control, id);
    let verdict = m.verdict;
    let all = m.bytes;
    *bytes = all;
    ControlsTold {
        number: host_told::number_of(verdict) as u32,
        length: m.length as u32,
        offset: host_told::offset_of(verdict),
    }
}

// ---- a streaming block, with its control block

// The format at place k, from 0; its number is k + 1.
#[unsafe(no_mangle)]
pub extern "C" fn palkodhen_format_at(control: &[u8], block: &[u8], k: usize) -> FormatTold
    ensures { FormatAnswer control.now block.now k result }
{
    let c = control::read(control);
    let verdict = c.verdict;
    let table = c.table;
    format_under(verdict, table, block, k)
}

fn format_under(verdict: Verdict, table: Table, block: &[u8], k: usize) -> FormatTold
    ensures { result ≡ format_under verdict table block.now k }
{
    match verdict {
        Err(_) => no_format(),
        Ok(()) => {
            let s = streaming::read(table, block);
            let formats = s.formats;
            format_in(formats, s.format_count, k)
        }
    }
}

fn format_in(formats: [Format; FORMATS_MOST], count: usize, k: usize) -> FormatTold
    ensures { result ≡ kth no_format format_told (take count formats) k }
{
    if count <= k {
        return no_format();
    }
    if FORMATS_MOST <= k {
        return no_format();
    }
    tell_format(formats[k])
}

fn no_format() -> FormatTold
    ensures { result ≡ no_format }
{
    FormatTold {
        there: 0,
        kind: 0,
        guid: 0,
        bits: 0,
        frames: 0,
        default: 0,
        offset: 0,
    }
}

fn tell_format(f: Format) -> FormatTold
    ensures { result ≡ format_told f }
{
    FormatTold {
        there: 1,
        kind: f.kind,
        guid: f.guid,
        bits: f.bits,
        frames: f.frames,
        default: f.default,
        offset: f.offset,
    }
}

// The frame at place k, from 0, counted through all formats in block order.
#[unsafe(no_mangle)]
pub extern "C" fn palkodhen_frame_at(control: &[u8], block: &[u8], k: usize) -> FrameTold
    ensures { FrameAnswer control.now block.now k result }
{
    let c = control::read(control);
    let verdict = c.verdict;
    let table = c.table;
    frame_under(verdict, table, block, k)
}

fn frame_under(verdict: Verdict, table: Table, block: &[u8], k: usize) -> FrameTold
    ensures { result ≡ frame_under verdict table block.now k }
{
    match verdict {
        Err(_) => no_frame(),
        Ok(()) => {
            let s = streaming::read(table, block);
            let frames = s.frames;
            frame_in(block, frames, s.frame_count, k)
        }
    }
}

fn frame_in(block: &[u8], frames: [Frame; FRAMES_MOST], count: usize, k: usize) -> FrameTold
    ensures { result ≡ kth no_frame (frame_told block.now) (take count frames) k }
{
    if count <= k {
        return no_frame();
    }
    if FRAMES_MOST <= k {
        return no_frame();
    }
    tell_frame(block, frames[k])
}

fn no_frame() -> FrameTold
    ensures { result ≡ no_frame }
{
    FrameTold {
        there: 0,
        format: 0,
        number: 0,
        intervals: 0,
        width: 0,
        height: 0,
        size: 0,
        interval: 0,
    }
}

fn tell_frame(block: &[u8], f: Frame) -> FrameTold
    ensures { result ≡ frame_told block.now f }
{
    let number = byte_3(block, f.offset);
    FrameTold {
        there: 1,
        format: f.format,
        number,
        intervals: f.k,
        width: f.width,
        height: f.height,
        size: f.size,
        interval: f.interval,
    }
}

// Byte 3 of the descriptor at an offset.
fn byte_3(block: &[u8], offset: u16) -> u8
    ensures { result ≡ byte block.now offset 3 }
{
    le::byte_at(block, offset as usize + 3)
}
