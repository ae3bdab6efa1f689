// Lines of text in a lent buffer: names, decimal numbers and line ends, one piece after the other. Each function answers the index after what it put.
#![tactic(auto)]

ghost use Rattle.std.specs.Prelude.{◌+◌, ◌*◌, ◌≤◌, length};
ghost use Rattle.text.specs.Decimal.{decimal};
ghost use Rattle.text.specs.Put.{Put};
ghost use Rattle.text.specs.Text.{number as Text·number, numbers as Text·numbers, line as Text·line};

// A line has at most so many bytes.
pub const LINE_MOST: usize = 192;

// Inner: all of src into buf from index at on; answers the index after it.
pub fn put(buf: &mut [u8], at: usize, src: &[u8]) -> usize
    requires { at + length src.now ≤ length buf.old }
    ensures { Put buf.old at src.now result buf.new }
{
    copier::put(buf, at, src);
    at + src.len()
}

// Inner: the digits of a number: at most 20.
pub fn digits(buf: &mut [u8], at: usize, n: u64) -> usize
    requires { at + 20 ≤ length buf.old }
    ensures put { Put buf.old at (decimal n) result buf.new }
    ensures upper_bound { result ≤ at + 20 }
{
    let mut digits = [0u8; 20];
    let k = io::decimal(n, &mut digits);
    put(buf, at, &digits[..k])
}

// Inner: a space and a number: at most 21 bytes.
pub fn number(buf: &mut [u8], at: usize, n: u64) -> usize
    requires { at + 21 ≤ length buf.old }
    ensures put { Put buf.old at (Text·number n) result buf.new }
    ensures upper_bound { result ≤ at + 21 }
{
    let next = put(buf, at, b" ");
    digits(buf, next, n)
}

// Inner: numbers, each after a space.
pub fn numbers(buf: &mut [u8], start: usize, ns: &[u64]) -> usize
    requires { start + 21 * length ns.now ≤ length buf.old }
    ensures put { Put buf.old start (Text·numbers ns.now) result buf.new }
    ensures upper_bound { result ≤ start + 21 * length ns.now }
{
    let mut at = start;
    for n in ns {
        at = number(buf, at, *n);
    }
    at
}

// Inner: a name, its numbers, and the line's end.
pub fn line(buf: &mut [u8], at: usize, name: &[u8], ns: &[u64]) -> usize
    requires { at + length name.now + 21 * length ns.now + 1 ≤ length buf.old }
    ensures put { Put buf.old at (Text·line name.now ns.now) result buf.new }
    ensures upper_bound { result ≤ at + length name.now + 21 * length ns.now + 1 }
{
    let named = put(buf, at, name);
    let counted = numbers(buf, named, ns);
    put(buf, counted, b"\n")
}
