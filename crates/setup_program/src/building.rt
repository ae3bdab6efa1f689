// `build CONTROL_FILE INTERFACE UNIT CONTROL REQUEST`: the eight bytes of a setup packet, or the refusal.
use crate::words;
use console::{files, print};
use std::rt::Runtime;

pub fn build(rt: &impl Runtime) {
    let interface = words::byte(rt, 3, b"INTERFACE");
    if 255 < interface {
        return;
    }
    let unit = words::byte(rt, 4, b"UNIT");
    if 255 < unit {
        return;
    }
    let Some(setting) = words::setting(rt, 5) else {
        words::no_setting();
        return;
    };
    let Some(request) = words::request(rt, 6) else {
        words::no_request();
        return;
    };
    // One byte more than a block may have shows a file that is too long.
    let mut block = [0u8; 4097];
    let Some(n) = files::load(rt, 2, &mut block) else {
        return;
    };
    let mut packet = [0u8; packets::SIZE];
    let verdict = setup::build(
        &block[..n],
        interface as u8,
        unit as u8,
        setting,
        request,
        &mut packet,
    );
    let mut text = [0u8; block_text::ROOM];
    let k = setup_text::built(&mut text, verdict, packet);
    print::answer(rt, &text[..k], block_text::is_accepted(verdict));
}
