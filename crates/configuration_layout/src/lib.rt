// How a configuration is laid out: 70, 71, 72 and 75, number by number over the whole.
#![tactic(auto)]

ghost use Rattle.rules.specs.Verdicts.{refuse};
ghost use Rattle.std.specs.Prelude.{◌≡◌};
ghost use Rattle.configuration_layout.specs.Inner.{verdict70, verdict71, verdict72, verdict75, layout_verdict};

use configuration_rules::{CONFIGURATION, Sought};
use rules::{Refused, Verdict};

// The fewest bytes of a configuration, and the most.
const LEAST: usize = 9;

pub const MOST: usize = 32768;

// 70: the size, the first descriptor's type, and each descriptor in turn.
#[tactic(auto, unfolding(crate::specs::Inner::verdict70, rules::specs::IfElse::if_else))]
fn rule_70(s: &[u8]) -> Verdict
    ensures { result ≡ verdict70 s.now }
{
    let first = configuration_rules::byte_of(s, 0, 1);
    if s.len() < LEAST || MOST < s.len() || first != CONFIGURATION {
        return refused(70, 0);
    }
    let at = interfaces::next(s, 0, Sought::Broken);
    if at < s.len() {
        return refused(70, at);
    }
    Ok(())
}

// 71: bytes 2, 3 are not the number of bytes.
#[tactic(auto, unfolding(crate::specs::Inner::verdict71, rules::specs::IfElse::if_else))]
fn rule_71(s: &[u8]) -> Verdict
    ensures { result ≡ verdict71 s.now }
{
    let total = le::join16(le::byte_at(s, 2), le::byte_at(s, 3)) as usize;
    if total == s.len() {
        return Ok(());
    }
    refused(71, 0)
}

// 72: no control interface of setting 0, or a second one.
fn rule_72(s: &[u8]) -> Verdict
    ensures { result ≡ verdict72 s.now }
{
    let first = interfaces::next(s, 0, Sought::Control);
    if first < s.len() {
        let second = interfaces::next(s, configuration_rules::after(s, first), Sought::Control);
        if second < s.len() {
            return refused(72, second);
        }
        return Ok(());
    }
    refused(72, 0)
}

// 75: one interface or setting too many.
#[tactic(auto, unfolding(crate::specs::Inner::verdict75, rules::specs::IfElse::if_else))]
fn rule_75(s: &[u8]) -> Verdict
    ensures { result ≡ verdict75 s.now }
{
    let at = interfaces::too_many(s);
    if at < s.len() {
        return refused(75, at);
    }
    Ok(())
}

fn refused(number: u8, offset: usize) -> Verdict
    ensures { result ≡ refuse number offset }
{
    Err(Refused { number, offset })
}

// The first of 70, 71, 72 and 75 that the configuration breaks, at its first place.
#[tactic(auto, unfolding(crate::specs::Inner::layout_verdict))]
pub fn judge(s: &[u8]) -> Verdict
    ensures { result ≡ layout_verdict s.now }
{
    rule_70(s)?;
    rule_71(s)?;
    rule_72(s)?;
    rule_75(s)
}
