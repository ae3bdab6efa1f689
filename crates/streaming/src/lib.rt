// Reads the class-specific descriptors of a VideoStreaming interface (20 to 38).
#![tactic(auto)]

ghost use Rattle.std.specs.Prelude.{◌≡◌, ◌+◌, ◌≤◌, ◌<◌, get_or};
ghost use Rattle.streaming_descriptors.specs.Descriptors.{no_format};
ghost use Rattle.streaming_rules.specs.Rules.{formats_most};
ghost use Rattle.rules.specs.Place.{first_place};
ghost use Rattle.streaming.specs.Answer.{is_output, linked_to, refused_by};
ghost use Rattle.streaming.specs.Inner.{count_broken, default_broken, late_by, no_counts, streaming_of};

use entities::{Entity, Table};
use rules::{Refused, Verdict};
use streaming_descriptors::{Format, Frame};
use streaming_rules::{FORMATS_MOST, FRAMES_MOST, Sofar};

// The verdict, the header's endpoint and terminal link, and the formats and frames in block order, unused places zero. A refused block gives all zero. (No Result:
// `streaming_of` says so.)
#[derive(Drop)]
pub struct Streaming {
    pub verdict: Verdict,
    pub endpoint: u8,
    pub link: u8,
    pub format_count: usize,
    pub formats: [Format; FORMATS_MOST],
    pub frame_count: usize,
    pub frames: [Frame; FRAMES_MOST],
}

// How many frames stand under each format, by its number; place 0 is that of no format.
type Counts = [u8; FORMATS_MOST + 1];

// The terminal type of the output terminal that streams.
const STREAMING: u16 = 0x0101;

fn is_output(e: Entity) -> bool
    ensures { result ≡ is_output e }
{
    e.kind == entities::OUTPUT_TERMINAL && e.terminal == STREAMING
}

// 30: the first used place of the table that carries the link is an output terminal of type 0x0101.
fn is_linked(table: Table, link: u8) -> bool
    ensures { result ≡ linked_to table link }
{
    match entities::find(table, link) {
        Some(i) => is_output(table.entities[i]),
        None => false,
    }
}

// The first of the n formats that breaks 36; n where none does. (No Option: `first_place` gives the number.)
fn first_count(formats: [Format; FORMATS_MOST], n: usize, counts: &Counts) -> usize
    requires { n ≤ formats_most }
    ensures { result ≡ first_place (λ i. count_broken (get_or formats i no_format) (get_or counts.now (i + 1) 0)) n }
{
    for i in 0..n {
        let f = formats[i];
        if f.frames != counts[i + 1] {
            return i;
        }
    }
    n
}

// Whether the default is not 1 to the frame count.
fn default_broken(f: Format) -> bool
    ensures { result ≡ default_broken f }
{
    f.default == 0 || f.frames < f.default
}

// The first of the n formats that breaks 37; n where none does. (No Option: `first_place` gives the number.)
fn first_default(formats: [Format; FORMATS_MOST], n: usize) -> usize
    requires { n ≤ formats_most }
    ensures { result ≡ first_place (λ i. default_broken (get_or formats i no_format)) n }
{
    for i in 0..n {
        if default_broken(formats[i]) {
            return i;
        }
    }
    n
}

// 36 to 38, after the walk: number by number, each at the first format that breaks it.
fn late_verdict(formats: [Format; FORMATS_MOST], n: usize, counts: &Counts, p: u8) -> Verdict
    requires { n ≤ formats_most }
    ensures { result ≡ late_by (λ i. get_or formats i no_format) (λ i. get_or counts.now (i + 1) 0) n p }
{
    let i = first_count(formats, n, counts);
    if i < n {
        let f = formats[i];
        return Err(Refused {
            number: 36,
            offset: f.offset as usize,
        });
    }
    let j = first_default(formats, n);
    if j < n {
        let f = formats[j];
        return Err(Refused {
            number: 37,
            offset: f.offset as usize,
        });
    }
    if n == le::wide(p) {
        return Ok(());
    }
    Err(Refused {
        number: 38,
        offset: 0,
    })
}

// A refused block: all zero but the verdict.
fn refused(number: u8, offset: usize) -> Streaming
    ensures { result ≡ refused_by number offset }
{
    let no_format = streaming_descriptors::no_format();
    let no_frame = streaming_descriptors::no_frame();
    let formats = [no_format; FORMATS_MOST];
    let frames = [no_frame; FRAMES_MOST];
    Streaming {
        verdict: Err(Refused { number, offset }),
        endpoint: 0,
        link: 0,
        format_count: 0,
        formats,
        frame_count: 0,
        frames,
    }
}

fn no_counts() -> Counts
    ensures { result ≡ no_counts }
{
    [0u8; FORMATS_MOST + 1]
}

// Reads a streaming block against the entity table of its control block: 20 to 24, the walk over the descriptors, then 36 to 38.
// The walk stands here, and not in a function of its own, so that the tables are on the stack once.
pub fn read(table: Table, block: &[u8]) -> Streaming
    ensures { result ≡ streaming_of table block.now }
{
    let whole = streaming_rules::head_rule(table.count, block);
    if let Err(number) = whole {
        return refused(number, 0);
    }
    let linked = is_linked(table, block[8]);
    let no_format = streaming_descriptors::no_format();
    let no_frame = streaming_descriptors::no_frame();
    let mut formats = [no_format; FORMATS_MOST];
    let mut frames = [no_frame; FRAMES_MOST];
    let mut counts = no_counts();
    let mut f: usize = 0;
    let mut n: usize = 0;
    let mut last = no_format;
    let mut at: usize = 0;
    // a walk: the descriptors' own lengths give the step
    while at < block.len() {
        let numbered = counts[f];
        let a = Sofar {
            linked,
            formats: f,
            frames: n,
            last,
            numbered,
        };
        let broken = streaming_rules::rule_at(block, at, a);
        if let Err(number) = broken {
            return refused(number, at);
        }
        let next = at + le::wide(block[at]);
        let kind = streaming_descriptors::kind_of(block[at + 2]);
        if streaming_descriptors::is_format(kind) {
            let e = streaming_descriptors::format_at(block, at, kind);
            last = e;
            formats[f] = e;
            f = f + 1;
            at = next;
        } else if streaming_descriptors::is_frame(kind) {
            let e = streaming_descriptors::frame_at(block, at, kind, f);
            frames[n] = e;
            // a frame's number is the number of its format's frames so far
            counts[f] = block[at + 3];
            n = n + 1;
            at = next;
        } else {
            at = next;
        }
    }
    let verdict = late_verdict(formats, f, &counts, block[3]);
    if let Err(Refused { number, offset }) = verdict {
        return refused(number, offset);
    }
    Streaming {
        verdict: Ok(()),
        endpoint: block[6],
        link: block[8],
        format_count: f,
        formats,
        frame_count: n,
        frames,
    }
}
