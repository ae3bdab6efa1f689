// The descriptors of a configuration one after the other: searching them, the block behind an interface descriptor, the streaming interfaces, and 75.
#![tactic(auto)]

ghost use Rattle.std.specs.Prelude.{◌≡◌, ◌≤◌, ◌<◌, Bool, length, leb};
ghost use Rattle.rules.specs.IfElse.{if_else};
ghost use Rattle.interfaces.specs.Inner.{next_of, block_at, stream_at, streams_of, place_of, one_too_many, no_counts, too_many};
ghost use Rattle.interfaces.specs.Limits.{interfaces_most, no_stream};

use configuration_rules::Sought;

// The most streaming interfaces, and the most settings of each.
pub const INTERFACES_MOST: usize = 8;

pub const SETTINGS_MOST: usize = 32;

// The number of an interface, and where its block of class-specific descriptors lies.
#[derive(Drop)]
pub struct Block {
    pub interface: u8,
    pub offset: usize,
    pub length: usize,
}

// The same of a streaming interface, with its header's endpoint.
#[derive(Clone, Copy)]
pub struct Stream {
    pub interface: u8,
    pub endpoint: u8,
    pub offset: usize,
    pub length: usize,
}

// The streaming interfaces in order of appearance, unused places zero.
#[derive(Drop)]
pub struct Streams {
    pub count: usize,
    pub streams: [Stream; INTERFACES_MOST],
}

// How many settings each interface number has so far.
type Counts = [u8; 256];

// Inner: `at` is a descriptor's place, or the end. The first descriptor from there on that is what is sought; the end where none is.
// (No Option: who walks goes on from there, and `next_of` gives the end.)
pub fn next(s: &[u8], at: usize, what: Sought) -> usize
    requires { at ≤ length s.now }
    ensures { result ≡ next_of what s.now at }
{
    // A descriptor's own length is the step.
    let mut i = at;
    while i < s.len() {
        if configuration_rules::is_sought(s, i, what) {
            return i;
        }
        i = configuration_rules::after(s, i);
    }
    s.len()
}

// Inner: an interface descriptor starts at `at`. Its number, and the 0x24 descriptors straight after it.
pub fn block_at(s: &[u8], at: usize) -> Block
    requires { at < length s.now }
    ensures { result ≡ block_at s.now at }
{
    let offset = configuration_rules::after(s, at);
    let end = next(s, offset, Sought::Outside);
    let interface = configuration_rules::byte_of(s, at, 2);
    Block {
        interface,
        offset,
        length: end - offset,
    }
}

// The same of a streaming interface: byte 6 of its block is the header's endpoint.
fn stream_at(s: &[u8], at: usize) -> Stream
    requires { at < length s.now }
    ensures { result ≡ stream_at s.now at }
{
    let b = block_at(s, at);
    let offset = b.offset;
    let endpoint = configuration_rules::byte_of(s, offset, 6);
    Stream {
        interface: b.interface,
        endpoint,
        offset,
        length: b.length,
    }
}

pub fn no_stream() -> Stream
    ensures { result ≡ no_stream }
{
    Stream {
        interface: 0,
        endpoint: 0,
        offset: 0,
        length: 0,
    }
}

// The first 8 streaming interfaces, by their descriptors of setting 0.
pub fn listed(s: &[u8]) -> Streams
    ensures { result ≡ streams_of s.now }
{
    let no_stream = no_stream();
    let mut streams = [no_stream; INTERFACES_MOST];
    let mut count: usize = 0;
    // What the search finds is the next place.
    let mut at = next(s, 0, Sought::Listed);
    while at < s.len() {
        if count == INTERFACES_MOST {
            return Streams { count, streams };
        }
        streams[count] = stream_at(s, at);
        count = count + 1;
        at = next(s, configuration_rules::after(s, at), Sought::Listed);
    }
    Streams { count, streams }
}

// Inner: the callers have at most 8 streams. The place of the first stream of this number; `count` where there is none.
// (No Option: `place_of` gives the number.)
pub fn place_of(streams: [Stream; INTERFACES_MOST], count: usize, number: u8) -> usize
    requires { count ≤ interfaces_most }
    ensures { result ≡ place_of streams count number }
{
    for i in 0..count {
        if streams[i].interface == number {
            return i;
        }
    }
    count
}

// Whether this is one more than the most.
#[tactic(auto, unfolding(rules::specs::IfElse::if_else))]
fn is_full(there: bool, seen: u8, most: u8) -> bool
    ensures { result ≡ if_else there (leb most seen) Bool.false }
{
    there && most <= seen
}

// 75: a ninth streaming descriptor of setting 0, or the 33rd of its number.
#[tactic(auto, unfolding(crate::specs::Inner::one_too_many, rules::specs::IfElse::if_else))]
fn one_too_many(s: &[u8], at: usize, listed: u8, seen: u8) -> bool
    requires { at < length s.now }
    ensures { result ≡ one_too_many s.now at listed seen }
{
    let number = configuration_rules::byte_of(s, at, 2);
    let is_listed = configuration_rules::is_sought(s, at, Sought::Listed);
    let is_setting = configuration_rules::is_sought(s, at, Sought::Setting(number));
    is_full(is_listed, listed, INTERFACES_MOST as u8)
        || is_full(is_setting, seen, SETTINGS_MOST as u8)
}

#[tactic(auto, unfolding(rules::specs::IfElse::if_else))]
fn one_if(there: bool) -> u8
    ensures { result ≡ if_else there 1 0 }
{
    u8::from(there)
}

fn no_counts() -> Counts
    ensures { result ≡ no_counts }
{
    [0u8; 256]
}

// 75: the first interface descriptor that is one too many; the end where none is.
pub fn too_many(s: &[u8]) -> usize
    ensures { result ≡ too_many s.now }
{
    let mut counts = no_counts();
    let mut listed: u8 = 0;
    // A descriptor's own length is the step.
    let mut at: usize = 0;
    while at < s.len() {
        let number = configuration_rules::byte_of(s, at, 2);
        let place = le::wide(number);
        let seen = counts[place];
        if one_too_many(s, at, listed, seen) {
            return at;
        }
        listed = listed + one_if(configuration_rules::is_sought(s, at, Sought::Listed));
        counts[place] = seen
            + one_if(configuration_rules::is_sought(s, at, Sought::Setting(number)));
        at = configuration_rules::after(s, at);
    }
    s.len()
}
