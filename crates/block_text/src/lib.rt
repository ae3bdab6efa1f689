// The printed text of what the readers answer: whole answers in a lent buffer.
#![tactic(auto)]

ghost use Rattle.rules.specs.Verdicts.{accept};
ghost use Rattle.std.specs.Prelude.{◌≡◌, ◌≤◌, length};
ghost use Rattle.io.specs.Counts.{IsPrefixLen};
ghost use Rattle.text.specs.Put.{Put};
ghost use Rattle.text.specs.Written.{answer_of, buffer_of};
ghost use Rattle.block_lines.specs.Lines.{controls_line};
ghost use Rattle.block_text.specs.Answers.{room, refused_text, table_text, control_by, control_text, map_text, listed_text, streaming_text, probe_text, is_accepted, is_given};

use control::Control;
use control_map::Map;
use entities::Table;
use probe::Probe;
use rules::{Refused, Verdict};
use streaming::Streaming;
use text::LINE_MOST;

// How many bytes are enough for any answer: a streaming block has the most lines.
pub const ROOM: usize = LINE_MOST * 75;

// The whole text of a control block's reading at the front of buf, and its length; 0, and buf as it was, where buf has fewer than ROOM bytes.
pub fn control(buf: &mut [u8], c: Control) -> usize
    ensures value { result ≡ answer_of room (control_text c) buf.old }
    ensures buf_after { buf.new ≡ buffer_of room (control_text c) buf.old }
    ensures prefix_len { IsPrefixLen result buf.new }
{
    if buf.len() < ROOM {
        return 0;
    }
    let verdict = c.verdict;
    let table = c.table;
    control_read(buf, verdict, table)
}

// The same of a unit's control bytes.
pub fn map(buf: &mut [u8], m: Map) -> usize
    ensures value { result ≡ answer_of room (map_text m) buf.old }
    ensures buf_after { buf.new ≡ buffer_of room (map_text m) buf.old }
    ensures prefix_len { IsPrefixLen result buf.new }
{
    if buf.len() < ROOM {
        return 0;
    }
    mapped(buf, m)
}

// The same of a streaming block's reading.
pub fn streaming(buf: &mut [u8], s: Streaming) -> usize
    ensures value { result ≡ answer_of room (streaming_text s) buf.old }
    ensures buf_after { buf.new ≡ buffer_of room (streaming_text s) buf.old }
    ensures prefix_len { IsPrefixLen result buf.new }
{
    if buf.len() < ROOM {
        return 0;
    }
    streaming_read(buf, s)
}

// The same of a probe block's fields, and of the verdict on it.
pub fn probe(buf: &mut [u8], verdict: Verdict, p: Probe) -> usize
    ensures value { result ≡ answer_of room (probe_text verdict p) buf.old }
    ensures buf_after { buf.new ≡ buffer_of room (probe_text verdict p) buf.old }
    ensures prefix_len { IsPrefixLen result buf.new }
{
    if buf.len() < ROOM {
        return 0;
    }
    probe_read(buf, verdict, p)
}

fn control_read(buf: &mut [u8], verdict: Verdict, t: Table) -> usize
    requires { room ≤ length buf.old }
    ensures { Put buf.old 0 (control_by verdict t) result buf.new }
{
    match verdict {
        Ok(()) => table(buf, t),
        Err(Refused { number, offset }) => refused(buf, number, offset),
    }
}

fn table(buf: &mut [u8], t: Table) -> usize
    requires { room ≤ length buf.old }
    ensures { Put buf.old 0 (table_text t) result buf.new }
{
    let told = text::put(buf, 0, b"accepted\n");
    let v = t.revision;
    let revised = block_lines::revision(buf, told, v);
    let clock = [t.clock as u64];
    let at = text::line(buf, revised, b"clock", &clock);
    block_lines::entities(buf, at, t)
}

fn mapped(buf: &mut [u8], m: Map) -> usize
    requires { room ≤ length buf.old }
    ensures { Put buf.old 0 (map_text m) result buf.new }
{
    let verdict = m.verdict;
    match verdict {
        Ok(()) => given(buf, m),
        Err(Refused { number, offset }) => refused(buf, number, offset),
    }
}

fn given(buf: &mut [u8], m: Map) -> usize
    requires { room ≤ length buf.old }
    ensures { Put buf.old 0 (controls_line m.length m.bytes) result buf.new }
{
    let bytes = m.bytes;
    block_lines::controls(buf, 0, bytes, m.length as usize)
}

fn streaming_read(buf: &mut [u8], s: Streaming) -> usize
    requires { room ≤ length buf.old }
    ensures { Put buf.old 0 (streaming_text s) result buf.new }
{
    let verdict = s.verdict;
    match verdict {
        Ok(()) => listed(buf, s),
        Err(Refused { number, offset }) => refused(buf, number, offset),
    }
}

fn listed(buf: &mut [u8], s: Streaming) -> usize
    requires { room ≤ length buf.old }
    ensures { Put buf.old 0 (listed_text s) result buf.new }
{
    let told = text::put(buf, 0, b"accepted\n");
    let endpoint = [s.endpoint as u64];
    let ended = text::line(buf, told, b"endpoint", &endpoint);
    let link = [s.link as u64];
    let linked = text::line(buf, ended, b"link", &link);
    let all = s.formats;
    let at = block_lines::formats(buf, linked, all, s.format_count);
    let each = s.frames;
    block_lines::frames(buf, at, each, s.frame_count)
}

fn probe_read(buf: &mut [u8], verdict: Verdict, p: Probe) -> usize
    requires { room ≤ length buf.old }
    ensures { Put buf.old 0 (probe_text verdict p) result buf.new }
{
    match verdict {
        Ok(()) => offered(buf, p),
        Err(Refused { number, offset }) => refused(buf, number, offset),
    }
}

fn offered(buf: &mut [u8], p: Probe) -> usize
    requires { room ≤ length buf.old }
    ensures { Put buf.old 0 (probe_text accept p) result buf.new }
{
    let told = text::put(buf, 0, b"accepted\n");
    probe_lines::fields(buf, told, p)
}

// Inner: a refusal's line, and its number in plain words.
pub fn refused(buf: &mut [u8], number: u8, offset: usize) -> usize
    requires { room ≤ length buf.old }
    ensures { Put buf.old 0 (refused_text number offset) result buf.new }
{
    let at = block_lines::refused(buf, 0, number, offset);
    refusal_words::put(buf, at, number)
}

// Whether a verdict is no refusal.
pub fn is_accepted(v: Verdict) -> bool
    ensures { result ≡ is_accepted v }
{
    v.is_ok()
}

// Whether controls were given.
pub fn is_given(m: Map) -> bool
    ensures { result ≡ is_given m }
{
    let verdict = m.verdict;
    is_accepted(verdict)
}
