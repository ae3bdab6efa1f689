// Rule 50: what makes a session record unsound.
#![tactic(auto)]

ghost use Rattle.std.specs.Prelude.{◌≡◌, ◌<◌, ◌^◌, None};
ghost use Rattle.rules.specs.Numbered.{any_below};
ghost use Rattle.sizes.specs.Sizes.{sizes_broken};
ghost use Rattle.session_rules.specs.Accounts.{account_count};
ghost use Rattle.ledger.specs.Inner.{ledger_with};
ghost use Rattle.session_rules.specs.Rule50.{unequal, fill_broken, counts_broken};
ghost use Rattle.rule_50.specs.Inner.{under_broken, rest_broken, posted_account, posted_broken};

use session_rules::{Fault, Ledger, Numbers, Phase};
use sizes::Opening;

#[tactic(auto, unfolding(sizes::specs::Sizes::sizes_broken))]
fn sizes_broken(o: Opening) -> bool
    ensures { result ≡ sizes_broken o }
{
    sizes::frame_size_broken(o.frame) || sizes::payload_size_broken(o.payload)
}

// In a frame without fault, fill is its bytes under way.
fn unequal_fill(f: Fault, fill: usize, bytes: u64) -> bool
    ensures { result ≡ unequal f fill bytes }
{
    match f {
        Some(_) => false,
        None => (fill as u64) != bytes,
    }
}

// Fill over the frame size, or, in a frame without fault, not its bytes under way.
#[tactic(auto, unfolding(session_rules::specs::Rule50::fill_broken))]
fn fill_broken(p: Phase, frame: usize) -> bool
    ensures { result ≡ fill_broken p frame }
{
    match p {
        Phase::Fresh => false,
        Phase::Past(_) => false,
        Phase::Under(r) => frame < r.fill || unequal_fill(r.fault, r.fill, r.bytes),
    }
}

// The account of the frame under way: over 65,536 times the transfers taken, or none is taken.
fn under_broken(p: Phase, n: u64) -> bool
    requires { n < 2 ^ 32 }
    ensures { result ≡ under_broken p n }
{
    match p {
        Phase::Fresh => false,
        Phase::Past(_) => false,
        Phase::Under(r) => n < 1 || Ledger::BYTES * n < r.bytes,
    }
}

// A posted account: its count above the transfers taken, or its bytes over 65,536 times them.
fn account_broken(m: &Numbers, n: u64, k: usize) -> bool
    requires { (n < 2 ^ 32) × (k < account_count) }
    ensures { result ≡ posted_account m.now n k }
{
    let at = 2 * k;
    k != Ledger::UNDER_WAY && (n < m[at] || Ledger::BYTES * n < m[at + 1])
}

// A for, and no `.any(..)`: a closure would say the test once more in a clause of its own.
fn accounts_broken(m: &Numbers, n: u64) -> bool
    requires { n < 2 ^ 32 }
    ensures { result ≡ any_below account_count (posted_account m.now n) }
{
    for k in 0..Ledger::ACCOUNTS {
        if account_broken(m, n, k) {
            return true;
        }
    }
    false
}

// Ticks over 2^31 times the transfers taken, or another count above them.
#[tactic(auto, unfolding(session_rules::specs::Rule50::counts_broken))]
fn counts_broken(m: &Numbers, n: u64) -> bool
    requires { n < 2 ^ 32 }
    ensures { result ≡ counts_broken (ledger_with m.now None) n }
{
    Ledger::TICKS * n < m[Ledger::RUNNING]
        || n < m[Ledger::LOST]
        || n < m[Ledger::IDLE]
        || n < m[Ledger::BACKWARD]
        || n < m[Ledger::UNTIMED]
}

// Rule 50 of what is posted.
#[tactic(auto, unfolding(crate::specs::Inner::posted_broken))]
pub fn posted_broken(m: &Numbers, taken: u32) -> bool
    ensures { result ≡ posted_broken m.now taken }
{
    let n = taken as u64;
    accounts_broken(m, n) || counts_broken(m, n)
}

// Rule 50 of the rest.
#[tactic(auto, unfolding(crate::specs::Inner::rest_broken))]
pub fn rest_broken(o: Opening, p: Phase, taken: u32) -> bool
    ensures { result ≡ rest_broken o p taken }
{
    sizes_broken(o) || fill_broken(p, o.frame) || under_broken(p, taken as u64)
}
