// Writes a record of 3,076 bytes: kind, a zero, a two-byte length, the bytes, zero fill.
#![tactic(auto)]

ghost use Rattle.std.specs.Prelude.{◌≡◌, ◌+◌, ◌≤◌, length, replicate};
ghost use Rattle.std.proofs.Math.Seq.{paste};
ghost use Rattle.text.specs.Put.{Put};
ghost use Rattle.long_records.specs.Long.{long_of, data_most, long_size};

// The bytes of a record, and the most data that it holds.
pub const SIZE: usize = 3_076;

pub const MOST: usize = 3_072;

// So many zeros from `at` on.
fn clear(buf: &mut [u8], at: usize, n: usize)
    requires { at + n ≤ length buf.old }
    ensures { buf.new ≡ paste buf.old at (replicate n 0) n }
{
    let end = at + n;
    buf[at..end].fill(0);
}

// Inner: a record of this kind with these bytes, from `at` on; answers the place after it.
pub fn write(buf: &mut [u8], at: usize, kind: u8, load: &[u8]) -> usize
    requires { (length load.now ≤ data_most) × (at + long_size ≤ length buf.old) }
    ensures { Put buf.old at (long_of kind load.now) result buf.new }
{
    let n = load.len();
    let head = [kind, 0, (n % 256) as u8, (n / 256) as u8];
    let headed = text::put(buf, at, &head);
    let told = text::put(buf, headed, load);
    let rest = MOST - n;
    clear(buf, told, rest);
    told + rest
}
