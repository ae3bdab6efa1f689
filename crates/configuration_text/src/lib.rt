// The printed text of a configuration and of a picked setting, in a lent buffer.
#![tactic(auto)]

ghost use Rattle.std.specs.Prelude.{◌≡◌, ◌+◌, ◌*◌, ◌≤◌, length, take};
ghost use Rattle.io.specs.Counts.{IsPrefixLen};
ghost use Rattle.text.specs.Put.{Put};
ghost use Rattle.text.specs.Text.{texts};
ghost use Rattle.text.specs.Written.{answer_of, buffer_of};
ghost use Rattle.text.specs.Text.{line_most};
ghost use Rattle.interfaces.specs.Limits.{settings_most};
ghost use Rattle.alternate_settings.specs.Inner.{settings_of};
ghost use Rattle.configuration_text.specs.Texts.{setting_line, stream_text, stream_most, listed_text, configuration_text, picked_text, room};

use alternate_settings::Setting;
use configuration::Configuration;
use interfaces::{INTERFACES_MOST, SETTINGS_MOST, Stream};
use picking::Picked;
use rules::Refused;
use text::LINE_MOST;

// How many bytes are enough: two lines, and of each streaming interface its own and those of its settings.
pub const ROOM: usize = LINE_MOST * 266;

// The whole text of a configuration's reading at the front of buf, and its length; 0, and buf as it was, where buf has fewer than ROOM bytes.
pub fn configuration(buf: &mut [u8], s: &[u8], c: Configuration) -> usize
    ensures value { result ≡ answer_of room (configuration_text s.now c) buf.old }
    ensures buf_after { buf.new ≡ buffer_of room (configuration_text s.now c) buf.old }
    ensures prefix_len { IsPrefixLen result buf.new }
{
    if buf.len() < ROOM {
        return 0;
    }
    read(buf, s, c)
}

// The same of a picked setting.
pub fn picked(buf: &mut [u8], p: Picked) -> usize
    ensures value { result ≡ answer_of room (picked_text p) buf.old }
    ensures buf_after { buf.new ≡ buffer_of room (picked_text p) buf.old }
    ensures prefix_len { IsPrefixLen result buf.new }
{
    if buf.len() < ROOM {
        return 0;
    }
    chosen(buf, p)
}

fn read(buf: &mut [u8], s: &[u8], c: Configuration) -> usize
    requires { room ≤ length buf.old }
    ensures { Put buf.old 0 (configuration_text s.now c) result buf.new }
{
    let verdict = c.verdict;
    match verdict {
        Ok(()) => listed(buf, s, c),
        Err(Refused { number, offset }) => block_text::refused(buf, number, offset),
    }
}

fn listed(buf: &mut [u8], s: &[u8], c: Configuration) -> usize
    requires { room ≤ length buf.old }
    ensures { Put buf.old 0 (listed_text s.now c) result buf.new }
{
    let told = text::put(buf, 0, b"accepted\n");
    let b = c.control;
    let ns = [b.interface as u64, b.offset as u64, b.length as u64];
    let at = text::line(buf, told, b"control", &ns);
    let all = c.streams;
    streams(buf, at, s, all, c.count)
}

// The lines of the first n streams.
fn streams(
    buf: &mut [u8],
    start: usize,
    s: &[u8],
    all: [Stream; INTERFACES_MOST],
    n: usize,
) -> usize
    requires { start + stream_most * 8 ≤ length buf.old }
    ensures { Put buf.old start (texts (stream_text s.now) (take n all)) result buf.new }
{
    let mut at = start;
    for i in 0..INTERFACES_MOST {
        if n <= i {
            return at;
        }
        let e = all[i];
        at = stream(buf, at, s, e);
    }
    at
}

// A stream's line, and those of its settings.
fn stream(buf: &mut [u8], at: usize, s: &[u8], e: Stream) -> usize
    requires { at + stream_most ≤ length buf.old }
    ensures put { Put buf.old at (stream_text s.now e) result buf.new }
    ensures upper_bound { result ≤ at + stream_most }
{
    let ns = [
        e.interface as u64,
        e.offset as u64,
        e.length as u64,
        e.endpoint as u64,
    ];
    let next = text::line(buf, at, b"streaming", &ns);
    settings(buf, next, s, e.interface, e.endpoint)
}

// The lines of the first 32 settings of an interface.
fn settings(buf: &mut [u8], start: usize, s: &[u8], interface: u8, endpoint: u8) -> usize
    requires { start + line_most * 32 ≤ length buf.old }
    ensures put { Put buf.old start (texts setting_line (take settings_most (settings_of s.now interface endpoint))) result buf.new }
    ensures upper_bound { result ≤ start + line_most * 32 }
{
    let mut at = start;
    for i in 0..SETTINGS_MOST {
        match alternate_settings::kth(s, interface, endpoint, i) {
            None => return at,
            Some(x) => at = setting(buf, at, x),
        }
    }
    at
}

fn setting(buf: &mut [u8], at: usize, x: Setting) -> usize
    requires { at + line_most ≤ length buf.old }
    ensures put { Put buf.old at (setting_line x) result buf.new }
    ensures upper_bound { result ≤ at + line_most }
{
    let ns = [x.number as u64, x.bytes as u64];
    text::line(buf, at, b"setting", &ns)
}

fn chosen(buf: &mut [u8], p: Picked) -> usize
    requires { room ≤ length buf.old }
    ensures { Put buf.old 0 (picked_text p) result buf.new }
{
    let verdict = p.verdict;
    let x = p.setting;
    match verdict {
        Ok(()) => setting(buf, 0, x),
        Err(Refused { number, offset }) => block_text::refused(buf, number, offset),
    }
}
