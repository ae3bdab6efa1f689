// Checks a probe block against a streaming block and its entity table (41 to 46).
#![tactic(auto)]

ghost use Rattle.rules.specs.Verdicts.{refuse};
ghost use Rattle.std.specs.Prelude.{◌≡◌, ◌+◌, ◌≤◌, ◌<◌, length};
ghost use Rattle.rules.specs.Numbered.{first_row};
ghost use Rattle.streaming_descriptors.specs.Descriptors.{kind_at, format_of, frame_length_at};
ghost use Rattle.probe.specs.Fields.{fields_of};
ghost use Rattle.probe_check.specs.Answer.{format_missing, has_number, frame_rows, given, check_of};

use entities::Table;
use rules::{Refused, Verdict};
use streaming_descriptors::Frame;

// 42: the format number is not 1 to the number of formats.
fn format_missing(number: u8, count: usize) -> bool
    ensures { result ≡ format_missing number count }
{
    number == 0 || count < le::wide(number)
}

// The frame has this number, of this format. Its descriptor lies within the block.
fn has_number(block: &[u8], format: u8, number: u8, f: Frame) -> bool
    requires { f.offset + 3 < length block.now }
    ensures { result ≡ has_number block.now format number f }
{
    f.format == format && block[f.offset as usize + 3] == number
}

// 44 to 46, with the frame whose descriptor stands at `at`.
fn check_frame(block: &[u8], at: usize, asked: &[u8]) -> Verdict
    requires { (at + frame_length_at (format_of (kind_at block.now at)) block.now at ≤ length block.now) × (26 ≤ length asked.now) }
    ensures { result ≡ given (first_row (frame_rows block.now at (fields_of asked.now))) }
{
    let offered = streaming_rules::offers_at(block, at, le::le32(asked, 4));
    if !offered {
        return refused(44);
    }
    let frame_size = le::le32(asked, 18) as usize;
    if sizes::frame_size_broken(frame_size) {
        return refused(45);
    }
    let payload_size = le::le32(asked, 22) as usize;
    if sizes::payload_size_broken(payload_size) {
        return refused(46);
    }
    Ok(())
}

fn refused(number: u8) -> Verdict
    ensures { result ≡ refuse number 0 }
{
    Err(Refused { number, offset: 0 })
}

// Checks a probe block against a streaming block and its entity table: 41, the streaming block's own refusal, then 42 to 46.
pub fn check(table: Table, block: &[u8], asked: &[u8]) -> Verdict
    ensures { result ≡ check_of table block.now asked.now }
{
    let revision = table.revision;
    if asked.len() != probe::size_of(revision) {
        return refused(41);
    }
    let a = streaming::read(table, block);
    let verdict = a.verdict;
    if let Err(Refused { number, offset }) = verdict {
        return Err(Refused { number, offset });
    }
    let format = asked[2];
    if format_missing(format, a.format_count) {
        return refused(42);
    }
    let number = asked[3];
    let n = a.frame_count;
    for i in 0..n {
        let f = a.frames[i];
        if has_number(block, format, number, f) {
            let at = f.offset as usize;
            return check_frame(block, at, asked);
        }
    }
    refused(43)
}
