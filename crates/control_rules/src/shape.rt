// Rule 7: the length and the control size that a subtype requires, by the revision.
ghost use Rattle.std.specs.Prelude.{◌≡◌, ◌+◌, ◌<◌, ◌≤◌, length, get_or};
ghost use Rattle.control_rules.specs.Descriptors.{kind_of, fixed_at, counted_at, sized_at, input_at, extension_at, shape};

use crate::CAMERA;
use entities::Revision;

// bControlSize of an encoding unit.
const CONTROL_SIZE: u8 = 3;

// Inner: `len` is bLength, and the descriptor lies in the block.
pub fn right(s: &[u8], at: usize, len: usize, sub: u8, revision: Revision) -> bool
    requires { (len ≡ get_or s.now at 0) × (at + len ≤ length s.now) }
    ensures { result ≡ shape revision (kind_of sub) s.now at }
{
    match sub {
        1 => counted(s, at, len, 12, 11),
        2 => input(s, at, len, revision),
        3 => 9 <= len,
        4 => counted(s, at, len, 6, 4),
        5 => sized(s, at, len, entities::says_of(revision).unit, 7, revision),
        6 => extension(s, at, len),
        7 => fixed(s, at, len, 13, 6),
        _ => true,
    }
}

// The length is `size`, and the control size, at `k`, is 3.
#[tactic(auto, unfolding(crate::specs::Descriptors::fixed_at))]
fn fixed(s: &[u8], at: usize, len: usize, size: usize, k: usize) -> bool
    requires len_value { (len ≡ get_or s.now at 0) × (at + len ≤ length s.now) }
    requires k_lt_size { (k < size) × (size < 256) }
    ensures { result ≡ fixed_at s.now at size k }
{
    len == size && s[at + k] == CONTROL_SIZE
}

// The length is `base` and as many more as the byte at `k` says.
#[tactic(auto, unfolding(crate::specs::Descriptors::counted_at))]
fn counted(s: &[u8], at: usize, len: usize, base: usize, k: usize) -> bool
    requires len_value { (len ≡ get_or s.now at 0) × (at + len ≤ length s.now) }
    requires k_lt_base { (k < base) × (base < 256) }
    ensures { result ≡ counted_at s.now at base k }
{
    base <= len && len == base + le::wide(s[at + k])
}

// The length is `base` and the control size, at `k`, which is as large as the revision allows.
#[tactic(auto, unfolding(crate::specs::Descriptors::sized_at))]
fn sized(s: &[u8], at: usize, len: usize, base: usize, k: usize, revision: Revision) -> bool
    requires len_value { (len ≡ get_or s.now at 0) × (at + len ≤ length s.now) }
    requires k_lt_base { (k < base) × (base < 256) }
    ensures { result ≡ sized_at revision s.now at base k }
{
    let n = le::wide(le::byte_at(s, at + k));
    let says = entities::says_of(revision);
    counted(s, at, len, base, k) && says.least <= n && n <= says.most
}

// At least 8; for a camera 15 + n, n at 14.
#[tactic(auto, using(crate::proofs::Shapes::cameras), unfolding(crate::specs::Descriptors::input_at, rules::specs::IfElse::if_else))]
fn input(s: &[u8], at: usize, len: usize, revision: Revision) -> bool
    requires { (len ≡ get_or s.now at 0) × (at + len ≤ length s.now) }
    ensures { result ≡ input_at revision s.now at }
{
    let base = entities::says_of(revision).camera;
    8 <= len && (le::le16(s, at + 4) != CAMERA || sized(s, at, len, base, 14, revision))
}

// 24 + p + n: p at 21, and n at 22 + p.
#[tactic(auto, unfolding(crate::specs::Descriptors::extension_at))]
fn extension(s: &[u8], at: usize, len: usize) -> bool
    requires { (len ≡ get_or s.now at 0) × (at + len ≤ length s.now) }
    ensures { result ≡ extension_at s.now at }
{
    if len < 24 {
        return false;
    }
    let p = le::wide(s[at + 21]);
    24 + p <= len && len == 24 + p + le::wide(s[at + 22 + p])
}
