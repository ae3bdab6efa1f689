// Which intervals a frame offers: those that could be its default (34 and 44). Intervals count 100 ns.
#![tactic(auto)]

ghost use Rattle.std.specs.Prelude.{◌≡◌, ◌+◌, ◌*◌, ◌≤◌, ◌<◌, length};
ghost use Rattle.intervals.specs.Intervals.{span, list_at, rises, among, stepped, offered};

// Whether the k intervals at p are nonzero and rise strictly.
fn rise(s: &[u8], p: usize, k: usize) -> bool
    requires { (p + 4 * k ≤ length s.now) × (k < 256) }
    ensures { result ≡ rises 0 (list_at s.now p k) }
{
    let mut before: u32 = 0;
    for i in 0..k {
        let interval = le::le32(s, p + 4 * i);
        if interval <= before {
            return false;
        }
        before = interval;
    }
    true
}

// Whether x is one of the k intervals at p.
fn has(s: &[u8], p: usize, k: usize, x: u32) -> bool
    requires { (p + 4 * k ≤ length s.now) × (k < 256) }
    ensures { result ≡ among x (list_at s.now p k) }
{
    for i in 0..k {
        if le::le32(s, p + 4 * i) == x {
            return true;
        }
    }
    false
}

// Whether x is shortest plus a multiple of step and at most longest; step at least 1, and shortest nonzero and at most longest.
// Six tests, each on a line as in the definition: one `&&` of all would be no plainer.
fn steps_to(shortest: u32, longest: u32, step: u32, x: u32) -> bool
    ensures { result ≡ stepped shortest longest step x }
{
    if shortest == 0 {
        return false;
    }
    if step == 0 {
        return false;
    }
    if longest < shortest {
        return false;
    }
    if x < shortest {
        return false;
    }
    if longest < x {
        return false;
    }
    (x - shortest) % step == 0
}

// Inner: whether the frame whose k intervals stand at p offers x. The callers have looked at the length.
pub fn offers(s: &[u8], p: usize, k: usize, x: u32) -> bool
    requires { (p + span k ≤ length s.now) × (k < 256) }
    ensures { result ≡ offered s.now p k x }
{
    if k == 0 {
        return steps_to(le::le32(s, p), le::le32(s, p + 4), le::le32(s, p + 8), x);
    }
    rise(s, p, k) && has(s, p, k, x)
}
