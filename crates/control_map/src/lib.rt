// The control-map reader: the control bytes of a camera terminal or a processing unit, and how many there are.
#![tactic(auto)]

ghost use Rattle.rules.specs.Verdicts.{accept};
ghost use Rattle.std.specs.Prelude.{◌≡◌, ◌<◌};
ghost use Rattle.entities.specs.Table.{found_among};
ghost use Rattle.control_rules.specs.Descriptors.{kind_of};
ghost use Rattle.control.specs.Answer.{ControlIs};
ghost use Rattle.control_map.specs.Answer.{MapIs, controls_most, control_byte, control_bytes, controls_at, refused_map};
ghost use Rattle.control_map.specs.Inner.{camera_place, place_by, place_of, map_by};

use control_rules::CAMERA;
use entities::{ENTITIES_MOST, Entity, Table};
use rules::{Refused, Verdict};

// The most control bytes that a revision allows, and the places for them.
pub const CONTROLS_MOST: usize = 32;

// The verdict: accepted, the block's own refusal, or 16 at 0. The first `length` bytes are the controls, and the rest are 0. (No Result: `MapIs` says what they are of a refusal.)
#[derive(Clone, Copy)]
pub struct Map {
    pub verdict: Verdict,
    pub length: u8,
    pub bytes: [u8; CONTROLS_MOST],
}

// Reads the block, and the controls of the camera terminal or processing unit that has the ID.
pub fn controls(block: &[u8], id: u8) -> Map
    ensures { MapIs block.now id result }
{
    let c = control::read(block);
    let verdict = c.verdict;
    let table = c.table;
    match verdict {
        Ok(()) => find_controls(block, table, id),
        Err(Refused { number, offset }) => refused(number, offset),
    }
}

// Inner: the same in a block that was accepted with this table.
pub fn find_controls(s: &[u8], table: Table, id: u8) -> Map
    requires { ControlIs s.now (record { verdict = accept; table = table }) }
    ensures { MapIs s.now id result }
{
    let entities = table.entities;
    match place_among(entities, table.count, id) {
        None => refused(16, 0),
        Some(i) => {
            let e = table.entities[i];
            controls_of(s, e)
        }
    }
}

// The place of the ID among the table's places, which are lent to the scan.
fn place_among(entities: [Entity; ENTITIES_MOST], count: usize, id: u8) -> Option<usize>
    ensures { result ≡ found_among entities count id }
{
    entities::find_lent(&entities, count, id)
}

// The controls of a camera terminal or a processing unit; else 16.
fn controls_of(s: &[u8], e: Entity) -> Map
    ensures { result ≡ map_by s.now e (place_of e) }
{
    match controls_place(e.kind, e.terminal) {
        None => refused(16, 0),
        Some(place) => controls_at(s, e.offset, place),
    }
}

// The controls behind the control size at a place of the descriptor.
fn controls_at(s: &[u8], offset: u16, place: u8) -> Map
    ensures { result ≡ controls_at s.now offset place }
{
    let at = offset as usize + le::wide(place);
    let length = le::byte_at(s, at);
    let bytes = control_bytes(s, at + 1, le::wide(length));
    Map {
        verdict: Ok(()),
        length,
        bytes,
    }
}

// The n controls from `at` on, and 0 behind them.
fn control_bytes(s: &[u8], at: usize, n: usize) -> [u8; CONTROLS_MOST]
    requires { at < 131072 }
    ensures { result ≡ control_bytes s.now at n }
{
    let mut bytes = [0u8; CONTROLS_MOST];
    for (i, byte) in bytes.iter_mut().enumerate() {
        *byte = control_byte(s, at, n, i);
    }
    bytes
}

fn control_byte(s: &[u8], at: usize, n: usize, i: usize) -> u8
    requires { (at < 131072) × (i < controls_most) }
    ensures { result ≡ control_byte s.now at n i }
{
    if n <= i {
        return 0;
    }
    le::byte_at(s, at + i)
}

fn refused(number: u8, offset: usize) -> Map
    ensures { result ≡ refused_map number offset }
{
    let bytes = [0u8; CONTROLS_MOST];
    Map {
        verdict: Err(Refused { number, offset }),
        length: 0,
        bytes,
    }
}

// Where the control size stands in the descriptor, by the subtype.
fn controls_place(kind: u8, terminal: u16) -> Option<u8>
    ensures { result ≡ place_by (kind_of kind) terminal }
{
    match kind {
        2 => camera_place(terminal),
        5 => Some(7),
        _ => None,
    }
}

fn camera_place(terminal: u16) -> Option<u8>
    ensures { result ≡ camera_place terminal }
{
    if terminal == CAMERA {
        return Some(14);
    }
    None
}
