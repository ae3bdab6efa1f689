// `describe map FILE ID`: the control bytes of a camera terminal or a processing unit, as many as it has, or the refusal.
use console::{files, print, words};
use std::rt::Runtime;

pub fn describe(rt: &impl Runtime, which: usize, word: usize) {
    let mut text = [0u8; 16];
    let k = words::word(rt, word, &mut text);
    let id = arguments::byte_of(&text[..k]);
    if 255 < id {
        print::problem(b"ID: not a decimal number from 0 to 255\n");
        return;
    }
    let mut buf = [0u8; 4097];
    let Some(n) = files::load(rt, which, &mut buf) else {
        return;
    };
    let mut lines = [0u8; block_text::ROOM];
    let answer = control_map::controls(&buf[..n], id as u8);
    let m = block_text::map(&mut lines, answer);
    print::answer(rt, &lines[..m], block_text::is_given(answer));
}
