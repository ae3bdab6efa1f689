// `nearest CONTROL MIN MAX STEP WANTED`: the nearest allowed number, or the refusal.
use crate::words;
use console::print;
use std::rt::Runtime;

pub fn nearest(rt: &impl Runtime) {
    let Some(setting) = words::setting(rt, 2) else {
        words::no_setting();
        return;
    };
    let minimum = words::word(rt, 3, b"MIN", setting);
    if 65535 < minimum {
        return;
    }
    let maximum = words::word(rt, 4, b"MAX", setting);
    if 65535 < maximum {
        return;
    }
    let step = words::word(rt, 5, b"STEP", setting);
    if 65535 < step {
        return;
    }
    let wanted = words::word(rt, 6, b"WANTED", setting);
    if 65535 < wanted {
        return;
    }
    let moved = nearest::nearest(
        setting,
        minimum as u16,
        maximum as u16,
        step as u16,
        wanted as u16,
    );
    let verdict = moved.verdict;
    let mut text = [0u8; block_text::ROOM];
    let k = setup_text::moved_to(&mut text, setting, moved);
    print::answer(rt, &text[..k], block_text::is_accepted(verdict));
}
