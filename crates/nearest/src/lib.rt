// Moves a wanted number to the nearest that a camera allows (92, 93). Numbers are words as they stand in the data stage.
#![tactic(auto)]

ghost use Rattle.std.specs.Prelude.{◌≡◌, ◌≤◌, ◌<◌};
ghost use Rattle.nearest.specs.Answer.{NearestIs, refused_by};
ghost use Rattle.nearest.specs.Inner.{shifted, turned, Closest};

use camera_settings::Setting;
use rules::{Refused, Verdict};

// The verdict, and the word of the nearest allowed number; 0 where it is refused. (No Result: `NearestIs` says so.)
#[derive(Drop)]
pub struct Moved {
    pub verdict: Verdict,
    pub word: u16,
}

// The nearest allowed number: minimum plus a multiple of step, at most maximum; the lower on a tie.
pub fn nearest(setting: Setting, minimum: u16, maximum: u16, step: u16, wanted: u16) -> Moved
    ensures { NearestIs setting minimum maximum step wanted result }
{
    let low = shift(setting, minimum);
    let high = shift(setting, maximum);
    if high < low {
        return refused(92);
    }
    if shift(setting, step) <= shift(setting, 0) {
        return refused(93);
    }
    let place = closest(low, high, step as u32, shift(setting, wanted));
    Moved {
        verdict: Ok(()),
        word: shift(setting, place as u16) as u16,
    }
}

fn refused(number: u8) -> Moved
    ensures { result ≡ refused_by number }
{
    Moved {
        verdict: Err(Refused { number, offset: 0 }),
        word: 0,
    }
}

// A word shifted so that the order of the shifted words is that of the setting's numbers; shifted again it is the word.
fn shift(setting: Setting, word: u16) -> u32
    ensures { (result ≡ shifted setting word) × (result < 65536) }
{
    if camera_settings::is_signed(setting) {
        return turn(word);
    }
    word as u32
}

fn turn(word: u16) -> u32
    ensures { (result ≡ turned word) × (result < 65536) }
{
    (word as u32 + 32768) % 65536
}

// The nearest to `wanted` of low, low + step, .. up to high.
fn closest(low: u32, high: u32, step: u32, wanted: u32) -> u32
    requires { (low ≤ high) × (high < 65536) × (0 < step) × (step < 65536) × (wanted < 65536) }
    ensures { Closest low high step wanted result }
{
    if wanted <= low {
        return low;
    }
    if high <= wanted {
        return high - (high - low) % step;
    }
    let below = wanted - (wanted - low) % step;
    let above = below + step;
    if high < above {
        return below;
    }
    if above - wanted < wanted - below {
        return above;
    }
    below
}
