// The cases of camera settings: each is read from standard input, and its answer printed in full.
#![tactic(auto)]

use block_cases::lines;
use camera_settings::{Request, Setting};
use cases::{input, print};
use packets::Reading;
use text::LINE_MOST;

// Which of the three is asked.
pub fn run() -> bool {
    match input::byte() {
        0 => build(),
        1 => read(),
        _ => nearest(),
    }
}

// A packet is built into the room.
fn build() -> bool {
    let mut block = [0u8; 4352];
    let Some(n) = input::part(&mut block) else {
        return false;
    };
    let interface = input::byte();
    let unit = input::byte();
    let setting = setting_of(input::byte());
    let request = request_of(input::byte());
    let mut room = [0u8; 64];
    let Some(m) = input::part(&mut room) else {
        return false;
    };
    built(
        &block[..n],
        interface,
        unit,
        setting,
        request,
        &mut room[..m],
    );
    true
}

fn built(
    block: &[u8],
    interface: u8,
    unit: u8,
    setting: Setting,
    request: Request,
    room: &mut [u8],
) {
    lines::verdict(
        b"build ",
        setup::build(block, interface, unit, setting, request, room),
    );
    print::hex(b"room", room);
}

fn read() -> bool {
    let mut block = [0u8; 4352];
    let Some(n) = input::part(&mut block) else {
        return false;
    };
    let interface = input::byte();
    let mut bytes = [0u8; 64];
    let Some(m) = input::part(&mut bytes) else {
        return false;
    };
    let reading = setup::read(&block[..n], interface, &bytes[..m]);
    print::text(b"read ");
    match reading {
        Reading::Asks {
            unit,
            setting,
            request,
        } => asks(unit, setting, request),
        Reading::Refused { number, offset } => lines::refused(number, offset),
    }
    true
}

fn asks(unit: u8, setting: Setting, request: Request) {
    let mut buf = [0u8; LINE_MOST];
    let n = setup_lines::asks(&mut buf, unit, setting, request);
    print::front(&buf, n);
}

fn nearest() -> bool {
    let setting = setting_of(input::byte());
    let minimum = input::half();
    let maximum = input::half();
    let step = input::half();
    let wanted = input::half();
    let moved = nearest::nearest(setting, minimum, maximum, step, wanted);
    let verdict = moved.verdict;
    lines::verdict(b"nearest ", verdict);
    print::line(b"word", moved.word as u64);
    let mut buf = [0u8; LINE_MOST];
    let n = setup_lines::number(&mut buf, setting, moved.word);
    print::front(&buf, n);
    true
}

// 0 is brightness, 1 contrast, 2 hue, and anything else saturation.
fn setting_of(x: u8) -> Setting {
    match x {
        0 => Setting::Brightness,
        1 => Setting::Contrast,
        2 => Setting::Hue,
        _ => Setting::Saturation,
    }
}

// 0 to 4 are GET_CUR, GET_MIN, GET_MAX, GET_RES and GET_DEF, and anything else SET_CUR.
fn request_of(x: u8) -> Request {
    match x {
        0 => Request::GetCur,
        1 => Request::GetMin,
        2 => Request::GetMax,
        3 => Request::GetRes,
        4 => Request::GetDef,
        _ => Request::SetCur,
    }
}
