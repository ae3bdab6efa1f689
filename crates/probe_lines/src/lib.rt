// The printed lines of a probe block's fields.
#![tactic(auto)]

ghost use Rattle.std.specs.Prelude.{◌≡◌, ◌+◌, ◌*◌, ◌≤◌, length};
ghost use Rattle.text.specs.Put.{Put};
ghost use Rattle.text.specs.Text.{line_most};
ghost use Rattle.probe_lines.specs.Fields.{numbers_of, layout_text, fields_text};

use probe::Probe;

// How many fields have one number each: all but the layout.
const SINGLES: usize = 21;

// Inner: the lines of a probe block's fields.
pub fn fields(buf: &mut [u8], at: usize, p: Probe) -> usize
    requires { at + line_most * 22 ≤ length buf.old }
    ensures put { Put buf.old at (fields_text p) result buf.new }
    ensures upper_bound { result ≤ at + line_most * 22 }
{
    let names: &[u8] = b"\
hint\n\
format\n\
frame\n\
interval\n\
key rate\n\
P rate\n\
quality\n\
window\n\
delay\n\
frame size\n\
payload size\n\
clock\n\
framing\n\
preferred\n\
minimum\n\
maximum version\n\
usage\n\
luma depth\n\
settings\n\
reference frames\n\
rate modes\n\
";
    let counts = [1usize; SINGLES];
    let ns = numbers(p);
    let named = name_tables::lines(buf, at, names, &counts, &ns);
    let l = p.layout;
    layout(buf, named, l)
}

// The numbers of those fields, in the block's order.
fn numbers(p: Probe) -> [u64; SINGLES]
    ensures { result ≡ numbers_of p }
{
    [
        p.hint as u64,
        p.format as u64,
        p.frame as u64,
        p.interval as u64,
        p.key_rate as u64,
        p.p_rate as u64,
        p.quality as u64,
        p.window as u64,
        p.delay as u64,
        p.frame_size as u64,
        p.payload_size as u64,
        p.clock as u64,
        p.framing as u64,
        p.preferred as u64,
        p.minimum as u64,
        p.maximum as u64,
        p.usage as u64,
        p.luma_depth as u64,
        p.settings as u64,
        p.reference_frames as u64,
        p.rate_modes as u64,
    ]
}

// The layout's line.
fn layout(buf: &mut [u8], at: usize, l: [u8; 8]) -> usize
    requires { at + line_most ≤ length buf.old }
    ensures put { Put buf.old at (layout_text l) result buf.new }
    ensures upper_bound { result ≤ at + line_most }
{
    let ns = [
        l[0] as u64,
        l[1] as u64,
        l[2] as u64,
        l[3] as u64,
        l[4] as u64,
        l[5] as u64,
        l[6] as u64,
        l[7] as u64,
    ];
    text::line(buf, at, b"layout", &ns)
}
