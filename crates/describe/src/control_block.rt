// `describe control FILE`: the clock frequency and the entities of a control block, or its refusal.
use console::{files, print};
use std::rt::Runtime;

// One byte more than a block may have shows a file that is too long.
pub fn describe(rt: &impl Runtime, which: usize) {
    let mut buf = [0u8; 4097];
    let Some(n) = files::load(rt, which, &mut buf) else {
        return;
    };
    let mut text = [0u8; block_text::ROOM];
    let c = control::read(&buf[..n]);
    let verdict = c.verdict;
    let k = block_text::control(&mut text, c);
    print::answer(rt, &text[..k], block_text::is_accepted(verdict));
}
