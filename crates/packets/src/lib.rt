// The 8-byte setup packets of a setting: their bytes, and what given bytes ask for.
#![tactic(auto)]

ghost use Rattle.std.specs.Prelude.{◌≡◌};
ghost use Rattle.packets.specs.Packets.{packet_of, room_verdict, leaves, SpeltIs};
ghost use Rattle.packets.specs.Inner.{SpeltWith, SpeltBy};

use camera_settings::{Request, Setting};
use rules::{Refused, Verdict};

// The bytes of a packet.
pub const SIZE: usize = 8;

// The bytes of a setting's number, which the data stage carries: wLength.
const NUMBER: u8 = 2;

// What a packet asks for: which setting of which unit, by which request; or why it is no packet. (Theorems of setup and of its printing speak of these two cases.)
#[derive(Clone, Copy)]
pub enum Reading {
    Asks {
        unit: u8,
        setting: Setting,
        request: Request,
    },
    Refused {
        number: u8,
        offset: usize,
    },
}

// The packet for a setting of a unit, at a VideoControl interface.
pub fn packet_of(interface: u8, unit: u8, setting: Setting, request: Request) -> [u8; SIZE]
    ensures { result ≡ packet_of interface unit setting request }
{
    [
        camera_settings::type_of(request),
        camera_settings::code_of(request),
        0,
        camera_settings::selector_of(setting),
        interface,
        unit,
        NUMBER,
        0,
    ]
}

// Writes it into the first 8 bytes of the room, and no other; 94 where it has fewer, and then no byte changes.
pub fn write(
    interface: u8,
    unit: u8,
    setting: Setting,
    request: Request,
    room: &mut [u8],
) -> Verdict
    ensures value { result ≡ room_verdict room.old }
    ensures room_after { room.new ≡ leaves result (packet_of interface unit setting request) room.old }
{
    if room.len() < SIZE {
        return Err(Refused {
            number: 94,
            offset: 0,
        });
    }
    let packet = packet_of(interface, unit, setting, request);
    room[..SIZE].copy_from_slice(&packet);
    Ok(())
}

// The unit, setting and request whose packet at this interface has just these bytes; 95 where there are none.
pub fn spelt(interface: u8, bytes: &[u8]) -> Reading
    ensures { SpeltIs interface bytes.now result }
{
    match camera_settings::request_of(le::byte_at(bytes, 1)) {
        None => no_packet(),
        Some(request) => spelt_with(interface, bytes, request),
    }
}

// The same, by this request.
fn spelt_with(interface: u8, bytes: &[u8], request: Request) -> Reading
    ensures { SpeltWith interface request bytes.now result }
{
    match camera_settings::setting_of(le::byte_at(bytes, 3)) {
        None => no_packet(),
        Some(setting) => spelt_by(interface, bytes, setting, request),
    }
}

// The same, for this setting: the unit is the one that the bytes name, and they are compared whole.
fn spelt_by(interface: u8, bytes: &[u8], setting: Setting, request: Request) -> Reading
    ensures { SpeltBy interface setting request bytes.now result }
{
    let named = le::byte_at(bytes, 5);
    let packet = packet_of(interface, named, setting, request);
    if check::same(bytes, &packet) {
        return Reading::Asks {
            unit: named,
            setting,
            request,
        };
    }
    no_packet()
}

fn no_packet() -> Reading
    ensures { result ≡ Reading.Refused 95 0 }
{
    Reading::Refused {
        number: 95,
        offset: 0,
    }
}
