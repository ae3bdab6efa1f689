// Reads a whole configuration: how it is laid out (70, 71, 72, 75), the control block's own rules, 73, and the streaming blocks' own.
#![tactic(auto)]

ghost use Rattle.std.specs.Prelude.{◌≡◌, ◌+◌, ◌≤◌, ◌<◌, length};
ghost use Rattle.interfaces.specs.Limits.{interfaces_most};
ghost use Rattle.interfaces.specs.Inner.{listed_in};
ghost use Rattle.streaming.specs.Inner.{streaming_of};
ghost use Rattle.configuration.specs.Inner.{entries_named, streams_by, block_verdict, LateIs, refused_by, ConfigurationIs};

use configuration_rules::Sought;
use entities::Table;
use interfaces::{Block, INTERFACES_MOST, Stream};
use rules::{Refused, Verdict};

// The verdict, the one control interface's block, and the streaming interfaces in order of appearance, unused places zero. A refused configuration gives all zero.
// (No Result: `zero-configuration` says so.)
#[derive(Drop)]
pub struct Configuration {
    pub verdict: Verdict,
    pub control: Block,
    pub count: usize,
    pub streams: [Stream; INTERFACES_MOST],
}

// Where a control header has the number of its interfaces, and their numbers.
const COUNT: usize = 11;

const ENTRIES: usize = 12;

// 73: every interface that the control header names is listed.
fn entries_named(block: &[u8], streams: [Stream; INTERFACES_MOST], count: usize) -> bool
    requires { count ≤ interfaces_most }
    ensures { result ≡ entries_named block.now streams count }
{
    let n = le::wide(le::byte_at(block, COUNT));
    for j in 0..n {
        let number = le::byte_at(block, ENTRIES + j);
        if interfaces::place_of(streams, count, number) == count {
            return false;
        }
    }
    true
}

// What a streaming block's own reader says of it. (Its tables are on the stack for this call alone.)
fn stream_verdict(table: Table, block: &[u8]) -> Verdict
    ensures { result ≡ (streaming_of table block.now).verdict }
{
    let a = streaming::read(table, block);
    a.verdict
}

// The same, at its place in the configuration: the block behind the interface descriptor at `at`.
fn block_verdict(s: &[u8], table: Table, at: usize) -> Verdict
    requires { at < length s.now }
    ensures { result ≡ block_verdict s.now table at }
{
    let b = interfaces::block_at(s, at);
    let start = b.offset;
    let end = start + b.length;
    // A closure of map_err would have to require that the sum fits, which is known of this refusal alone.
    match stream_verdict(table, &s[start..end]) {
        Ok(()) => Ok(()),
        Err(Refused { number, offset }) => Err(Refused {
            number,
            offset: start + offset,
        }),
    }
}

// The streaming blocks' own, in order of appearance: the first refused one decides.
fn streams_verdict(s: &[u8], table: Table) -> Verdict
    ensures { result ≡ streams_by s.now table (listed_in s.now) }
{
    // What the search finds is the next place.
    let mut at = interfaces::next(s, 0, Sought::Listed);
    while at < s.len() {
        block_verdict(s, table, at)?;
        at = interfaces::next(s, configuration_rules::after(s, at), Sought::Listed);
    }
    Ok(())
}

// The control block's own, 73, then the streaming blocks' own. The control interface's descriptor stands at `at`.
fn judge_blocks(s: &[u8], at: usize) -> Verdict
    requires { at < length s.now }
    ensures { LateIs s.now at result }
{
    let b = interfaces::block_at(s, at);
    let start = b.offset;
    let end = start + b.length;
    let c = control::read(&s[start..end]);
    let verdict = c.verdict;
    let table = c.table;
    if let Err(Refused { number, offset }) = verdict {
        return Err(Refused {
            number,
            offset: start + offset,
        });
    }
    let l = interfaces::listed(s);
    let streams = l.streams;
    if !entries_named(&s[start..end], streams, l.count) {
        return Err(Refused {
            number: 73,
            offset: start,
        });
    }
    streams_verdict(s, table)
}

fn refused(number: u8, offset: usize) -> Configuration
    ensures { result ≡ refused_by number offset }
{
    let no_stream = interfaces::no_stream();
    let streams = [no_stream; INTERFACES_MOST];
    let control = Block {
        interface: 0,
        offset: 0,
        length: 0,
    };
    Configuration {
        verdict: Err(Refused { number, offset }),
        control,
        count: 0,
        streams,
    }
}

// Reads a whole configuration.
pub fn read(s: &[u8]) -> Configuration
    ensures { ConfigurationIs s.now result }
{
    if let Err(Refused { number, offset }) = configuration_layout::judge(s) {
        return refused(number, offset);
    }
    let at = interfaces::next(s, 0, Sought::Control);
    if let Err(Refused { number, offset }) = judge_blocks(s, at) {
        return refused(number, offset);
    }
    let control = interfaces::block_at(s, at);
    let l = interfaces::listed(s);
    let streams = l.streams;
    Configuration {
        verdict: Ok(()),
        control,
        count: l.count,
        streams,
    }
}
