// Zero fill: the bytes behind what a record holds.
#![tactic(auto)]

ghost use Rattle.std.specs.Prelude.{◌≡◌, ◌≤◌, length, drop};
ghost use Rattle.fill.specs.Fill.{any_set};

// Inner: whether some byte from `at` on is not zero.
pub fn any_set(r: &[u8], at: usize) -> bool
    requires { at ≤ length r.now }
    ensures { result ≡ any_set (drop at r.now) }
{
    r[at..].iter().any(|b| *b != 0)
}
