// Picks the alternate setting for an isochronous camera at high speed: the fewest bytes per microframe that hold the payload (74 where none does).
#![tactic(auto)]

ghost use Rattle.std.specs.Prelude.{◌≡◌, ◌≤◌};
ghost use Rattle.alternate_settings.specs.Inner.{fewest_of};
ghost use Rattle.interfaces.specs.Limits.{interfaces_most};
ghost use Rattle.picking.specs.Inner.{settings_in, refused_by, answer_of, PickIs};

use alternate_settings::Setting;
use interfaces::{INTERFACES_MOST, Stream};
use rules::{Refused, Verdict};

// The verdict, and the setting's number and bytes: zero where it is refused. (No Result: `zero-pick` says so.)
#[derive(Drop)]
pub struct Picked {
    pub verdict: Verdict,
    pub setting: Setting,
}

fn refused(number: u8, offset: usize) -> Picked
    ensures { result ≡ refused_by number offset }
{
    let setting = Setting {
        number: 0,
        bytes: 0,
    };
    Picked {
        verdict: Err(Refused { number, offset }),
        setting,
    }
}

// Among the settings of the first stream of this number.
fn pick_among(
    s: &[u8],
    streams: [Stream; INTERFACES_MOST],
    count: usize,
    interface: u8,
    payload: u32,
) -> Picked
    requires { count ≤ interfaces_most }
    ensures { result ≡ answer_of (fewest_of payload (settings_in s.now streams count interface)) }
{
    let i = interfaces::place_of(streams, count, interface);
    if i == count {
        return refused(74, 0);
    }
    let e = streams[i];
    match alternate_settings::fewest(s, interface, e.endpoint, payload) {
        None => refused(74, 0),
        Some(setting) => Picked {
            verdict: Ok(()),
            setting,
        },
    }
}

// Picks a setting of the streaming interface of this number that holds the negotiated payload size, after the configuration's own refusals.
pub fn pick(s: &[u8], interface: u8, payload: u32) -> Picked
    ensures { PickIs s.now interface payload result }
{
    let c = configuration::read(s);
    let verdict = c.verdict;
    let streams = c.streams;
    let count = c.count;
    if let Err(Refused { number, offset }) = verdict {
        return refused(number, offset);
    }
    pick_among(s, streams, count, interface, payload)
}
