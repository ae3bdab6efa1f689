// A refusal's number in plain words.
#![tactic(auto)]

ghost use Rattle.std.specs.Prelude.{◌+◌, ◌≤◌, length};
ghost use Rattle.text.specs.Put.{Put};
ghost use Rattle.refusal_words.specs.Words.{words_of};
ghost use Rattle.refusal_words.specs.Inner.{Says};

// Inner: a number's line of words, of at most 72 bytes; nothing of a number that has none.
pub fn put(buf: &mut [u8], at: usize, number: u8) -> usize
    requires { at + 72 ≤ length buf.old }
    ensures put { Put buf.old at (words_of number) result buf.new }
    ensures upper_bound { result ≤ at + 72 }
{
    let n = number as usize;
    match n {
        1..=16 => control(buf, at, n),
        20..=40 => streaming(buf, at, n),
        41..=46 => probe(buf, at, n),
        70..=75 => configuration(buf, at, n),
        80..=82 => sender(buf, at, n),
        90..=95 => setup(buf, at, n),
        _ => at,
    }
}

// The words of each group lie by themselves: a text lies on the stack where it is used.

// The line of 1 to 16: the control block and the map reader.
fn control(buf: &mut [u8], at: usize, n: usize) -> usize
    requires { (at + 72 ≤ length buf.old) × (1 ≤ n) × (n ≤ 16) }
    ensures { Put buf.old at (words_of n) result buf.new }
{
    let words: &[u8] = b"\
the control block has under 12 bytes\n\
the control block has over 4,096 bytes\n\
the control block does not start with a VideoControl header\n\
the control header gives another total length than the block has\n\
a control descriptor is shorter than 3 bytes or runs past the end\n\
a control descriptor is not of type 0x24, or a second header comes\n\
a control descriptor has not the length or the control size of its kind\n\
the camera's revision is not 1.0, 1.1 or 1.5\n\
a terminal or unit has ID 0\n\
two terminals or units have the same ID\n\
there are more than 32 terminals and units\n\
a unit has no input pin or more than 16\n\
a source names nothing\n\
a source names an output terminal\n\
a chain of sources returns to its start\n\
no camera terminal or processing unit has this ID\n\
";
    said(buf, at, words, 1, n)
}

// The line of 20 to 40: the streaming block.
fn streaming(buf: &mut [u8], at: usize, n: usize) -> usize
    requires { (at + 72 ≤ length buf.old) × (20 ≤ n) × (n ≤ 40) }
    ensures { Put buf.old at (words_of n) result buf.new }
{
    let words: &[u8] = b"\
the entity table says more than 32\n\
the streaming block has under 13 bytes\n\
the streaming block has over 16,384 bytes\n\
the streaming block does not start with an input header\n\
the input header gives another total length than the block has\n\
a streaming descriptor is shorter than 3 bytes or runs past the end\n\
a streaming descriptor is not of type 0x24, or another header comes\n\
the camera has a format that is not read here\n\
a streaming descriptor has not the length of its kind\n\
the endpoint sends to the camera instead of from it\n\
the link is to no output terminal for streaming\n\
the formats are not numbered 1, 2, .. in order\n\
a frame does not stand under a format of its kind\n\
the frames of a format are not numbered 1, 2, .. in order\n\
a frame's intervals are not sound, or its default is none of them\n\
there are more than 8 formats or 64 frames\n\
a format has not as many frames as it says\n\
a format's default frame is none of its frames\n\
the input header gives another number of formats\n\
a frame's width, height, bits or buffer size cannot be true\n\
a frame-based format's flag or its frame's bytes per line are wrong\n\
";
    said(buf, at, words, 20, n)
}

// The line of 41 to 46: the probe block.
fn probe(buf: &mut [u8], at: usize, n: usize) -> usize
    requires { (at + 72 ≤ length buf.old) × (41 ≤ n) × (n ≤ 46) }
    ensures { Put buf.old at (words_of n) result buf.new }
{
    let words: &[u8] = b"\
the probe block has not its revision's number of bytes\n\
the probe block asks for a format that the camera has not\n\
the probe block asks for a frame that its format has not\n\
the probe block asks for an interval that its frame does not offer\n\
the frame size is 0 or over 16,777,216\n\
the payload size is under 2 or over 65,536\n\
";
    said(buf, at, words, 41, n)
}

// The line of 70 to 75: the whole configuration, and picking a setting.
fn configuration(buf: &mut [u8], at: usize, n: usize) -> usize
    requires { (at + 72 ≤ length buf.old) × (70 ≤ n) × (n ≤ 75) }
    ensures { Put buf.old at (words_of n) result buf.new }
{
    let words: &[u8] = b"\
the configuration's size, first descriptor or a descriptor is wrong\n\
the configuration gives another total length than it has\n\
there is no video control interface, or there are two\n\
the control header names a streaming interface that is not there\n\
no alternate setting holds this payload size\n\
there are more than 8 streaming interfaces, or 32 settings of one\n\
";
    said(buf, at, words, 70, n)
}

// The line of 80 to 82: the sender.
fn sender(buf: &mut [u8], at: usize, n: usize) -> usize
    requires { (at + 72 ≤ length buf.old) × (80 ≤ n) × (n ≤ 82) }
    ensures { Put buf.old at (words_of n) result buf.new }
{
    let words: &[u8] = b"\
a frame has no bytes or over 16,777,216\n\
the payload size leaves no room for data, or is over 65,536\n\
there is room for fewer bytes than the next transfer has\n\
";
    said(buf, at, words, 80, n)
}

// The line of 90 to 95: camera settings.
fn setup(buf: &mut [u8], at: usize, n: usize) -> usize
    requires { (at + 72 ≤ length buf.old) × (90 ≤ n) × (n ≤ 95) }
    ensures { Put buf.old at (words_of n) result buf.new }
{
    let words: &[u8] = b"\
no processing unit has this ID\n\
the processing unit has no such control in its map\n\
the minimum is above the maximum\n\
the step is 0 or below\n\
there is room for fewer than 8 bytes\n\
the bytes are no setup packet for this camera and interface\n\
";
    said(buf, at, words, 90, n)
}

// The row of n, which is its words, where the rows are from `first` on.
fn said(buf: &mut [u8], at: usize, words: &[u8], first: usize, n: usize) -> usize
    requires { (at + 72 ≤ length buf.old) × (first ≤ n) × Says first n words.now }
    ensures { Put buf.old at (words_of n) result buf.new }
{
    let none: [u64; 0] = [];
    name_tables::line(buf, at, words, n - first, &none)
}
