// `read CONTROL_FILE INTERFACE PACKET_FILE`: what the bytes of a packet ask for, or the refusal.
use crate::words;
use console::{files, print};
use std::rt::Runtime;

pub fn read(rt: &impl Runtime) {
    let interface = words::byte(rt, 3, b"INTERFACE");
    if 255 < interface {
        return;
    }
    let mut block = [0u8; 4097];
    let Some(n) = files::load(rt, 2, &mut block) else {
        return;
    };
    // One byte more than a packet has shows a file that is too long.
    let mut packet = [0u8; 9];
    let Some(m) = files::load(rt, 4, &mut packet) else {
        return;
    };
    let reading = setup::read(&block[..n], interface as u8, &packet[..m]);
    let mut text = [0u8; block_text::ROOM];
    let k = setup_text::read_back(&mut text, reading);
    print::answer(rt, &text[..k], setup_text::is_asked(reading));
}
