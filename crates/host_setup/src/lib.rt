// A camera's settings for a C host: setup packets are built and read back, and a wanted number is moved to the nearest allowed one. Settings and requests go by the class's numbers.
#![tactic(auto)]

ghost use Rattle.std.specs.Prelude.{◌≡◌};
ghost use Rattle.packets.specs.declared.Reading.{Reading};
ghost use Rattle.host_setup.specs.Setup.{SetupIs, SetupWith, asked_told, AskedAnswer, moved_told, unknown_moved, MovedIs};

use camera_settings::{Request, Setting};
use host_told::Told;
use nearest::Moved;
use packets::Reading;

// The number of a refusal, or what a packet asks for, and the place of the refusal.
#[repr(C)]
#[derive(Drop)]
pub struct AskedTold {
    pub number: u32,
    pub unit: u8,
    pub setting: u8,
    pub request: u8,
    pub zero: u8,
    pub offset: usize,
}

// The number of a refusal, or the word of the number moved to.
#[repr(C)]
#[derive(Drop)]
pub struct MovedTold {
    pub number: u32,
    pub word: u32,
}

// Builds the packet for a setting of a unit into the first 8 bytes of the room; a refusal changes no byte. Unknown: a setting or a request that is none of the class's that are set here.
#[unsafe(no_mangle)]
pub extern "C" fn palkodhen_setup(
    control: &[u8],
    interface: u8,
    unit: u8,
    setting: u8,
    request: u8,
    packet: &mut [u8],
) -> Told
    ensures { SetupIs control.now interface unit setting request packet.old result packet.new }
{
    match camera_settings::setting_of(setting) {
        None => host_told::unknown(),
        Some(s) => setup_with(control, interface, unit, s, request, packet),
    }
}

// The same, for this setting.
fn setup_with(
    control: &[u8],
    interface: u8,
    unit: u8,
    setting: Setting,
    request: u8,
    packet: &mut [u8],
) -> Told
    ensures { SetupWith control.now interface unit setting request packet.old result packet.new }
{
    match camera_settings::request_of(request) {
        None => host_told::unknown(),
        Some(q) => {
            let verdict = setup::build(control, interface, unit, setting, q, packet);
            host_told::tell(verdict)
        }
    }
}

// Reads a packet back: the unit, setting and request for which just these bytes are built.
#[unsafe(no_mangle)]
pub extern "C" fn palkodhen_setup_read(control: &[u8], interface: u8, packet: &[u8]) -> AskedTold
    ensures { AskedAnswer control.now interface packet.now result }
{
    tell_asked(setup::read(control, interface, packet))
}

fn tell_asked(reading: Reading) -> AskedTold
    ensures { result ≡ asked_told reading }
{
    match reading {
        Reading::Refused { number, offset } => AskedTold {
            number: number as u32,
            unit: 0,
            setting: 0,
            request: 0,
            zero: 0,
            offset,
        },
        Reading::Asks {
            unit,
            setting,
            request,
        } => tell_asks(unit, setting, request),
    }
}

fn tell_asks(unit: u8, setting: Setting, request: Request) -> AskedTold
    ensures { result ≡ asked_told (Reading.Asks unit setting request) }
{
    let selector = camera_settings::selector_of(setting);
    let code = camera_settings::code_of(request);
    AskedTold {
        number: 0,
        unit,
        setting: selector,
        request: code,
        zero: 0,
        offset: 0,
    }
}

// The nearest allowed number to the wanted one, as words of the data stage.
#[unsafe(no_mangle)]
pub extern "C" fn palkodhen_nearest(
    setting: u8,
    minimum: u16,
    maximum: u16,
    step: u16,
    wanted: u16,
) -> MovedTold
    ensures { MovedIs setting minimum maximum step wanted result }
{
    match camera_settings::setting_of(setting) {
        None => no_move(),
        Some(s) => tell_moved(nearest::nearest(s, minimum, maximum, step, wanted)),
    }
}

fn no_move() -> MovedTold
    ensures { result ≡ unknown_moved }
{
    MovedTold {
        number: host_told::UNKNOWN,
        word: 0,
    }
}

fn tell_moved(m: Moved) -> MovedTold
    ensures { result ≡ moved_told m }
{
    let verdict = m.verdict;
    MovedTold {
        number: host_told::number_of(verdict) as u32,
        word: m.word as u32,
    }
}
