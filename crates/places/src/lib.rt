// A ledger's numbers in fixed places: one record of 320 bytes, eight bytes a number, the low one first, in the order of print. The rest is zero.
#![tactic(auto)]

ghost use Rattle.std.specs.Prelude.{◌≡◌, ◌+◌, ◌≤◌, length, get_or};
ghost use Rattle.places.specs.Places.{record_size, word_at, record_of, numbers_in, broken54, held_of, write_verdict, written};

use rules::{Refused, Verdict};
use session_rules::{Ledger, Numbers};

pub const SIZE: usize = 320;

// What a record holds: the numbers of its ledger. Refused, they are all zero. (No Result: `held_of` says so.)
#[derive(Drop)]
pub struct Held {
    pub verdict: Verdict,
    pub numbers: Numbers,
}

const PLACES: usize = 40;

const USED: usize = 8 * Ledger::NUMBERS;

// 54: the record has not 320 bytes, or its rest is not zero.
#[tactic(auto, unfolding(crate::specs::Places::broken54))]
pub fn broken(r: &[u8]) -> bool
    ensures { result ≡ broken54 r.now }
{
    r.len() != SIZE || fill::any_set(r, USED)
}

// The number of eight bytes, the low one first.
fn word(r: &[u8], at: usize) -> u64
    requires { at + 8 ≤ length r.now }
    ensures { result ≡ word_at r.now at }
{
    let low = le::le32(r, at);
    let high = le::le32(r, at + 4);
    (low as u64) + (high as u64) * 4294967296
}

// Inner: the numbers that a record holds.
pub fn numbers_of(r: &[u8]) -> Numbers
    requires { length r.now ≡ record_size }
    ensures { result ≡ numbers_in r.now }
{
    let mut numbers = [0u64; Ledger::NUMBERS];
    for k in 0..Ledger::NUMBERS {
        numbers[k] = word(r, 8 * k);
    }
    numbers
}

// The number of a place; the places of the rest hold 0.
fn number_at(numbers: Numbers, k: usize) -> u64
    ensures { result ≡ get_or numbers k 0 }
{
    if k < Ledger::NUMBERS {
        return numbers[k];
    }
    0
}

// Inner: makes the record that of these numbers, its rest too.
pub fn lay(r: &mut [u8], numbers: Numbers)
    requires { length r.old ≡ record_size }
    ensures { r.new ≡ record_of numbers }
{
    for k in 0..PLACES {
        let n = number_at(numbers, k);
        copier::put(r, 8 * k, &n.to_le_bytes());
    }
}

// Reads a ledger's record, or refuses it by 54.
pub fn read(r: &[u8]) -> Held
    ensures { result ≡ held_of r.now }
{
    if broken(r) {
        return Held {
            verdict: Err(Refused {
                number: 54,
                offset: 0,
            }),
            numbers: [0u64; Ledger::NUMBERS],
        };
    }
    let numbers = numbers_of(r);
    Held {
        verdict: Ok(()),
        numbers,
    }
}

// Writes a ledger's numbers as a record; a room that has not 320 bytes is refused by 54, and no byte changes.
pub fn write(r: &mut [u8], numbers: Numbers) -> Verdict
    ensures value { result ≡ write_verdict r.old }
    ensures r_after { r.new ≡ written r.old numbers }
{
    if r.len() != SIZE {
        return Err(Refused {
            number: 54,
            offset: 0,
        });
    }
    lay(r, numbers);
    Ok(())
}
