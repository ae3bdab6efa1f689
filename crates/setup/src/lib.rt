// Camera settings: builds the setup packets of an accepted control block's processing units, and reads them back (90, 91, 94, 95).
#![tactic(auto)]

ghost use Rattle.rules.specs.Verdicts.{accept, refuse};
ghost use Rattle.std.specs.Prelude.{◌≡◌};
ghost use Rattle.control.specs.Answer.{ControlIs};
ghost use Rattle.packets.specs.Packets.{packet_of, leaves};
ghost use Rattle.setup.specs.Setup.{ReadyIs, BuildIs, ReadIs};
ghost use Rattle.setup.specs.Inner.{asked_by, is_unit, in_map};

use camera_settings::{Request, Setting};
use control_map::Map;
use entities::Table;
use packets::Reading;
use rules::{Refused, Verdict};

// Builds the packet for a setting of a unit into the first 8 bytes of the room, and no other: the control block's own refusal, 90, 91, 94. A refusal changes no byte.
pub fn build(
    block: &[u8],
    interface: u8,
    unit: u8,
    setting: Setting,
    request: Request,
    room: &mut [u8],
) -> Verdict
    ensures build_is { BuildIs block.now unit setting room.old result }
    ensures room_after { room.new ≡ leaves result (packet_of interface unit setting request) room.old }
{
    let verdict = ready(block, unit, setting);
    match verdict {
        Ok(()) => packets::write(interface, unit, setting, request, room),
        Err(Refused { .. }) => verdict,
    }
}

// Reads a packet back: the control block's own refusal; the unit, setting and request for which just these bytes are built; else 95.
pub fn read(block: &[u8], interface: u8, bytes: &[u8]) -> Reading
    ensures { ReadIs block.now interface bytes.now result }
{
    let c = control::read(block);
    let verdict = c.verdict;
    let table = c.table;
    match verdict {
        Ok(()) => read_in(block, table, interface, bytes),
        Err(Refused { number, offset }) => Reading::Refused { number, offset },
    }
}

// Whether the block has the unit, and the unit the setting: the block's own refusal, 90, 91.
pub fn ready(block: &[u8], unit: u8, setting: Setting) -> Verdict
    ensures { ReadyIs block.now unit setting result }
{
    let c = control::read(block);
    let verdict = c.verdict;
    let table = c.table;
    match verdict {
        Ok(()) => ready_in(block, table, unit, setting),
        Err(Refused { .. }) => verdict,
    }
}

// The same in a block that was accepted with this table.
fn ready_in(s: &[u8], table: Table, unit: u8, setting: Setting) -> Verdict
    requires { ControlIs s.now (record { verdict = accept; table = table }) }
    ensures { ReadyIs s.now unit setting result }
{
    if !is_unit(table, unit) {
        return refused(90);
    }
    let map = control_map::find_controls(s, table, unit);
    if !in_map(map, setting) {
        return refused(91);
    }
    Ok(())
}

fn read_in(s: &[u8], table: Table, interface: u8, bytes: &[u8]) -> Reading
    requires { ControlIs s.now (record { verdict = accept; table = table }) }
    ensures { ReadIs s.now interface bytes.now result }
{
    let reading = packets::spelt(interface, bytes);
    match reading {
        Reading::Refused { .. } => reading,
        Reading::Asks {
            unit,
            setting,
            request,
        } => asked(ready_in(s, table, unit, setting), unit, setting, request),
    }
}

// What is asked for, if the block has it; else 95.
fn asked(verdict: Verdict, unit: u8, setting: Setting, request: Request) -> Reading
    ensures { result ≡ asked_by verdict unit setting request }
{
    match verdict {
        Ok(()) => Reading::Asks {
            unit,
            setting,
            request,
        },
        Err(Refused { .. }) => Reading::Refused {
            number: 95,
            offset: 0,
        },
    }
}

// The ID is a processing unit's.
fn is_unit(table: Table, id: u8) -> bool
    ensures { result ≡ is_unit table id }
{
    let entities = table.entities;
    match entities::find_among(entities, table.count, id) {
        None => false,
        Some(i) => {
            let e = table.entities[i];
            e.kind == entities::PROCESSING_UNIT
        }
    }
}

// The setting's bit in the first byte of a map; behind the map's end it is 0.
fn in_map(map: Map, setting: Setting) -> bool
    ensures { result ≡ in_map map setting }
{
    (map.bytes[0] >> camera_settings::bit_of(setting)) % 2 == 1
}

fn refused(number: u8) -> Verdict
    ensures { result ≡ refuse number 0 }
{
    Err(Refused { number, offset: 0 })
}
