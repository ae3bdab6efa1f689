// The alternate settings of a streaming interface: the k-th, its bytes per microframe, and the one with the fewest that holds a payload.
#![tactic(auto)]

ghost use Rattle.std.specs.Prelude.{◌≡◌, ◌<◌, length};
ghost use Rattle.alternate_settings.specs.Inner.{bytes_at, setting_at, settings_of, kth_of, is_better, better_of, fewest_of};

use configuration_rules::{ENDPOINT, Sought};

// A setting's number, and its bytes per microframe.
#[derive(Clone, Copy)]
pub struct Setting {
    pub number: u8,
    pub bytes: u32,
}

// The bytes of the setting whose interface descriptor stands at `at`: those of the first endpoint of this address before the next interface descriptor, 0 where there is none.
fn bytes_at(s: &[u8], at: usize, endpoint: u8) -> u32
    requires { at < length s.now }
    ensures { result ≡ bytes_at s.now at endpoint }
{
    let e = interfaces::next(
        s,
        configuration_rules::after(s, at),
        Sought::Endpoint(endpoint),
    );
    if configuration_rules::byte_of(s, e, 1) != ENDPOINT {
        return 0;
    }
    let low = configuration_rules::byte_of(s, e, 4);
    let high = configuration_rules::byte_of(s, e, 5);
    configuration_rules::packet_bytes(le::join16(low, high))
}

fn setting_at(s: &[u8], at: usize, endpoint: u8) -> Setting
    requires { at < length s.now }
    ensures { result ≡ setting_at s.now endpoint at }
{
    let number = configuration_rules::byte_of(s, at, 3);
    let bytes = bytes_at(s, at, endpoint);
    Setting { number, bytes }
}

// The k-th setting, from 0, of the streaming interface of this number, in order of appearance; its bytes at this endpoint.
pub fn kth(s: &[u8], interface: u8, endpoint: u8, k: usize) -> Option<Setting>
    ensures { result ≡ kth_of (settings_of s.now interface endpoint) k }
{
    // What the search finds is the next place.
    let mut at = interfaces::next(s, 0, Sought::Setting(interface));
    let mut left = k;
    while at < s.len() {
        if left == 0 {
            return Some(setting_at(s, at, endpoint));
        }
        left = left - 1;
        at = interfaces::next(
            s,
            configuration_rules::after(s, at),
            Sought::Setting(interface),
        );
    }
    None
}

// Fewer bytes, or as many and a lower number.
fn is_better(x: Setting, y: Setting) -> bool
    ensures { result ≡ is_better x y }
{
    if x.bytes == y.bytes {
        return x.number < y.number;
    }
    x.bytes < y.bytes
}

// The better of what was found so far and one setting more, if that holds the payload.
fn better(best: Option<Setting>, x: Setting, payload: u32) -> Option<Setting>
    ensures { result ≡ better_of payload best x }
{
    if x.bytes < payload {
        return best;
    }
    match best {
        None => Some(x),
        Some(y) => { if is_better(x, y) { Some(x) } else { Some(y) } }
    }
}

// The setting with the fewest bytes that holds the payload, the lowest number on a tie.
pub fn fewest(s: &[u8], interface: u8, endpoint: u8, payload: u32) -> Option<Setting>
    ensures { result ≡ fewest_of payload (settings_of s.now interface endpoint) }
{
    let mut best = None;
    // What the search finds is the next place.
    let mut at = interfaces::next(s, 0, Sought::Setting(interface));
    while at < s.len() {
        let x = setting_at(s, at, endpoint);
        best = better(best, x, payload);
        at = interfaces::next(
            s,
            configuration_rules::after(s, at),
            Sought::Setting(interface),
        );
    }
    best
}
