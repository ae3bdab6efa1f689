// `PAYLOAD [--stamp TICKS] FILE ..`: a long trace of the files' bytes as frames, cut into transfers of this size by one sender, then close.
#![tactic(auto)]

mod sending;

use console::{print, words};
use std::rt::Runtime;
use trace_arguments::Word;

// What stands for no number.
const NO_PAYLOAD: u32 = 3_073;

fn wrong() {
    print::problem(b"wrong arguments: see palkodhen --help\n");
}

// Argument `which` as a number up to `most`.
fn number(rt: &impl Runtime, which: usize, most: u32) -> Option<u32> {
    let mut text = [0u8; 32];
    let n = words::word(rt, which, &mut text);
    arguments::read(&text[..n], most)
}

// Whether argument `which` is `--stamp`.
fn is_stamp(rt: &impl Runtime, which: usize) -> bool {
    let mut text = io::buffer();
    let n = words::word(rt, which, &mut text);
    match trace_arguments::word_of(&text[..n]) {
        Word::Stamp => true,
        Word::Sizes => false,
        Word::Short => false,
        Word::Unknown => false,
        Word::File => false,
    }
}

// Whether the arguments from `first` on are all files, and there is one.
fn are_files(rt: &impl Runtime, first: usize, count: usize) -> bool {
    if count <= first {
        return false;
    }
    let mut text = io::buffer();
    for i in first..count {
        let n = words::word(rt, i, &mut text);
        if !is_file(&text[..n]) {
            return false;
        }
    }
    true
}

fn is_file(word: &[u8]) -> bool {
    match trace_arguments::word_of(word) {
        Word::File => true,
        Word::Sizes => false,
        Word::Short => false,
        Word::Stamp => false,
        Word::Unknown => false,
    }
}

fn stamped(rt: &impl Runtime, payload: usize, count: usize) {
    let Some(ticks) = number(rt, 3, u32::MAX) else {
        wrong();
        return;
    };
    if !are_files(rt, 4, count) {
        wrong();
        return;
    }
    sending::all(rt, payload, true, ticks, 4, count);
}

fn main(rt: HostRuntime) {
    let count = words::count(&rt);
    let payload = arguments::or_else(number(&rt, 1, NO_PAYLOAD - 1), NO_PAYLOAD);
    if payload == NO_PAYLOAD {
        wrong();
        return;
    }
    if is_stamp(&rt, 2) {
        stamped(&rt, payload as usize, count);
        return;
    }
    if !are_files(&rt, 2, count) {
        wrong();
        return;
    }
    sending::all(&rt, payload as usize, false, 0, 2, count);
}
