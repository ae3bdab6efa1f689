// The printed text of what building, reading back and moving a number answer: whole answers in a lent buffer.
#![tactic(auto)]

ghost use Rattle.std.specs.Prelude.{◌≡◌, ◌≤◌, length};
ghost use Rattle.io.specs.Counts.{IsPrefixLen};
ghost use Rattle.text.specs.Put.{Put};
ghost use Rattle.text.specs.Written.{answer_of, buffer_of};
ghost use Rattle.block_text.specs.Answers.{room};
ghost use Rattle.setup_text.specs.Answers.{built_text, read_text, moved_text, is_asked};

use block_text::ROOM;
use camera_settings::Setting;
use nearest::Moved;
use packets::{Reading, SIZE};
use rules::{Refused, Verdict};

// The whole text of a packet that was built, or of the refusal, at the front of buf, and its length; 0, and buf as it was, where buf has fewer than ROOM bytes.
pub fn built(buf: &mut [u8], verdict: Verdict, bytes: [u8; SIZE]) -> usize
    ensures value { result ≡ answer_of room (built_text verdict bytes) buf.old }
    ensures buf_after { buf.new ≡ buffer_of room (built_text verdict bytes) buf.old }
    ensures prefix_len { IsPrefixLen result buf.new }
{
    if buf.len() < ROOM {
        return 0;
    }
    put_built(buf, verdict, bytes)
}

// The same of what was read back.
pub fn read_back(buf: &mut [u8], r: Reading) -> usize
    ensures value { result ≡ answer_of room (read_text r) buf.old }
    ensures buf_after { buf.new ≡ buffer_of room (read_text r) buf.old }
    ensures prefix_len { IsPrefixLen result buf.new }
{
    if buf.len() < ROOM {
        return 0;
    }
    put_read(buf, r)
}

// The same of the number that a wanted one was moved to.
pub fn moved_to(buf: &mut [u8], setting: Setting, m: Moved) -> usize
    ensures value { result ≡ answer_of room (moved_text setting m) buf.old }
    ensures buf_after { buf.new ≡ buffer_of room (moved_text setting m) buf.old }
    ensures prefix_len { IsPrefixLen result buf.new }
{
    if buf.len() < ROOM {
        return 0;
    }
    put_moved(buf, setting, m)
}

// Whether something was read back, and no refusal.
pub fn is_asked(r: Reading) -> bool
    ensures { result ≡ is_asked r }
{
    matches!(r, Reading::Asks { .. })
}

fn put_built(buf: &mut [u8], verdict: Verdict, bytes: [u8; SIZE]) -> usize
    requires { room ≤ length buf.old }
    ensures { Put buf.old 0 (built_text verdict bytes) result buf.new }
{
    match verdict {
        Ok(()) => setup_lines::packet(buf, bytes),
        Err(Refused { number, offset }) => block_text::refused(buf, number, offset),
    }
}

fn put_read(buf: &mut [u8], r: Reading) -> usize
    requires { room ≤ length buf.old }
    ensures { Put buf.old 0 (read_text r) result buf.new }
{
    match r {
        Reading::Asks {
            unit,
            setting,
            request,
        } => setup_lines::asks(buf, unit, setting, request),
        Reading::Refused { number, offset } => block_text::refused(buf, number, offset),
    }
}

fn put_moved(buf: &mut [u8], setting: Setting, m: Moved) -> usize
    requires { room ≤ length buf.old }
    ensures { Put buf.old 0 (moved_text setting m) result buf.new }
{
    let verdict = m.verdict;
    match verdict {
        Ok(()) => setup_lines::number(buf, setting, m.word),
        Err(Refused { number, offset }) => block_text::refused(buf, number, offset),
    }
}
