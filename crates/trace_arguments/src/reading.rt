// A call's words, one after another. No contract can say what an argument is: each step is one word.
ghost use Rattle.std.specs.Prelude.{◌≡◌};
ghost use Rattle.trace.specs.Trace.{replay_sizes};
ghost use Rattle.trace_arguments.specs.Words.{opening_of, is_right};

use crate::Word;
use records::Form;
use std::env::{Env, FillError};

// What the next word is.
#[derive(Clone, Copy)]
pub enum Awaits {
    Any,
    Frame,
    Payload,
    // A word was wrong, and no other is looked at.
    Nothing,
}

#[derive(Clone, Copy)]
pub struct Call {
    pub awaits: Awaits,
    pub frame: u32,
    pub payload: u32,
    pub form: Form,
    // Which argument names the file; 0 for standard input.
    pub file: usize,
}

// Whether no word is wrong and none is missing.
pub fn is_right(call: Call) -> bool
    ensures { result ≡ is_right call.awaits }
{
    matches!(call.awaits, Awaits::Any)
}

// No word yet: a replay's own sizes, and long records.
fn no_word() -> Call
    ensures { opening_of result.frame result.payload ≡ replay_sizes }
{
    Call {
        awaits: Awaits::Any,
        frame: 61_440,
        payload: 3_072,
        form: Form::Long,
        file: 0,
    }
}

// The call of the arguments from `first` on. Options stand in any order, before or behind the file; a later one takes an earlier one's place.
// A word too long for any option is a file.
pub fn read<R: Env>(rt: &R, first: usize) -> Call {
    let mut text = [0u8; 512];
    let mut call = no_word();
    for i in first..usize::MAX {
        match rt.arg(i, &mut text) {
            Ok(n) => call = take(call, i, &text[..n]),
            Err(FillError::TooLong) => call = take(call, i, b""),
            Err(FillError::NotPresent) => break,
        }
    }
    call
}

fn awaiting(call: Call, awaits: Awaits) -> Call {
    let form = call.form;
    Call {
        awaits,
        frame: call.frame,
        payload: call.payload,
        form,
        file: call.file,
    }
}

// Argument `i` is this word.
fn take(call: Call, i: usize, word: &[u8]) -> Call {
    let awaits = call.awaits;
    match awaits {
        Awaits::Any => any(call, i, word),
        Awaits::Frame => frame(call, arguments::read(word, u32::MAX)),
        Awaits::Payload => payload(call, arguments::read(word, u32::MAX)),
        Awaits::Nothing => call,
    }
}

fn any(call: Call, i: usize, word: &[u8]) -> Call {
    match crate::word_of(word) {
        Word::Sizes => awaiting(call, Awaits::Frame),
        Word::Short => Call {
            awaits: Awaits::Any,
            frame: call.frame,
            payload: call.payload,
            form: Form::Short,
            file: call.file,
        },
        Word::Stamp => awaiting(call, Awaits::Nothing),
        Word::Unknown => awaiting(call, Awaits::Nothing),
        Word::File => named(call, i),
    }
}

// At most one file.
fn named(call: Call, i: usize) -> Call {
    if call.file != 0 {
        return awaiting(call, Awaits::Nothing);
    }
    let form = call.form;
    Call {
        awaits: Awaits::Any,
        frame: call.frame,
        payload: call.payload,
        form,
        file: i,
    }
}

fn frame(call: Call, n: Option<u32>) -> Call {
    let form = call.form;
    match n {
        Some(x) => Call {
            awaits: Awaits::Payload,
            frame: x,
            payload: call.payload,
            form,
            file: call.file,
        },
        None => awaiting(call, Awaits::Nothing),
    }
}

fn payload(call: Call, n: Option<u32>) -> Call {
    let form = call.form;
    match n {
        Some(x) => Call {
            awaits: Awaits::Any,
            frame: call.frame,
            payload: x,
            form,
            file: call.file,
        },
        None => awaiting(call, Awaits::Nothing),
    }
}
