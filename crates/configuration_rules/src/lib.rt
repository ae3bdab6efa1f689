// One descriptor of a configuration: 70, which descriptor follows it, what a search looks for, and the bytes per microframe of an endpoint.
#![tactic(auto)]

ghost use Rattle.std.specs.Prelude.{◌≡◌, ◌+◌, ◌≤◌, ◌<◌, length, get_or};
ghost use Rattle.configuration_rules.specs.Descriptors.{least_of, broken_at, after_at, subclass_of, is_video, is_endpoint, is_sought, packet_bytes};

// The types of the descriptors that are read.
pub const CONFIGURATION: u8 = 2;

pub const INTERFACE: u8 = 4;

pub const ENDPOINT: u8 = 5;

const CLASS_SPECIFIC: u8 = 0x24;

// The class of a video interface, and its subclasses.
const VIDEO: u8 = 0x0E;

const CONTROL: u8 = 1;

const STREAMING: u8 = 2;

// What a search looks for.
#[derive(Clone, Copy)]
pub enum Sought {
    // a descriptor that breaks 70
    Broken,
    // an interface descriptor of setting 0: of the control subclass, of the streaming one
    Control,
    Listed,
    // an interface descriptor of the streaming subclass and of this number, whatever its setting
    Setting(u8),
    // what ends a block: a descriptor that is not class-specific
    Outside,
    // the endpoint of this address, or what ends a setting: the next interface descriptor
    Endpoint(u8),
}

// Inner: `at` lies within the configuration. Byte k of what stands there, 0 past the end.
pub fn byte_of(s: &[u8], at: usize, k: usize) -> u8
    requires { at ≤ length s.now }
    ensures { result ≡ get_or s.now (at + k) 0 }
{
    if k < s.len() - at {
        return s[at + k];
    }
    0
}

// The fewest bytes of a descriptor of this type.
#[tactic(auto, unfolding(crate::specs::Descriptors::least_of, rules::specs::IfElse::if_else))]
fn least_of(kind: u8) -> usize
    ensures { result ≡ least_of kind }
{
    match kind {
        CONFIGURATION | INTERFACE => 9,
        ENDPOINT => 7,
        _ => 2,
    }
}

// Whether the descriptor breaks 70: under 2 bytes, past the end, or too short for its kind.
#[tactic(auto, unfolding(crate::specs::Descriptors::broken_at))]
fn is_broken(s: &[u8], at: usize) -> bool
    requires { at < length s.now }
    ensures { result ≡ broken_at s.now at }
{
    let len = le::wide(s[at]);
    len < 2 || s.len() - at < len || len < least_of(byte_of(s, at, 1))
}

// Inner: a descriptor starts at `at`. Where the next one starts, and the end behind one that breaks 70.
#[tactic(auto, unfolding(crate::specs::Descriptors::after_at, rules::specs::IfElse::if_else))]
pub fn after(s: &[u8], at: usize) -> usize
    requires { at < length s.now }
    ensures { result ≡ after_at s.now at }
{
    if is_broken(s, at) {
        return s.len();
    }
    at + le::wide(s[at])
}

// The subclass of a video interface's descriptor, 0 of any other descriptor.
#[tactic(auto, unfolding(crate::specs::Descriptors::subclass_of, rules::specs::IfElse::if_else))]
fn subclass_of(s: &[u8], at: usize) -> u8
    requires { at < length s.now }
    ensures { result ≡ subclass_of s.now at }
{
    if byte_of(s, at, 1) != INTERFACE {
        return 0;
    }
    if byte_of(s, at, 5) != VIDEO {
        return 0;
    }
    byte_of(s, at, 6)
}

// A video interface's descriptor of this subclass, whose byte k is this.
#[tactic(auto, unfolding(crate::specs::Descriptors::is_video, rules::specs::IfElse::if_else))]
fn is_video(s: &[u8], at: usize, subclass: u8, k: usize, x: u8) -> bool
    requires { at < length s.now }
    ensures { result ≡ is_video s.now at subclass k x }
{
    subclass_of(s, at) == subclass && byte_of(s, at, k) == x
}

// The endpoint of this address, or an interface descriptor.
#[tactic(auto, unfolding(crate::specs::Descriptors::is_endpoint))]
fn is_endpoint(s: &[u8], at: usize, address: u8) -> bool
    requires { at < length s.now }
    ensures { result ≡ is_endpoint s.now at address }
{
    let kind = byte_of(s, at, 1);
    kind == INTERFACE || (kind == ENDPOINT && byte_of(s, at, 2) == address)
}

// Inner: a descriptor starts at `at`. Whether it is what is sought.
#[tactic(auto, unfolding(crate::specs::Descriptors::is_sought))]
pub fn is_sought(s: &[u8], at: usize, what: Sought) -> bool
    requires { at < length s.now }
    ensures { result ≡ is_sought what s.now at }
{
    match what {
        Sought::Broken => is_broken(s, at),
        Sought::Control => is_video(s, at, CONTROL, 3, 0),
        Sought::Listed => is_video(s, at, STREAMING, 3, 0),
        Sought::Setting(number) => is_video(s, at, STREAMING, 2, number),
        Sought::Outside => byte_of(s, at, 1) != CLASS_SPECIFIC,
        Sought::Endpoint(address) => is_endpoint(s, at, address),
    }
}

// The bytes per microframe that wMaxPacketSize says: bits 10 to 0, times one plus bits 12 and 11.
pub fn packet_bytes(w: u16) -> u32
    ensures { result ≡ packet_bytes w }
{
    let size = (w & 0x7FF) as u32;
    let extra = ((w >> 11) & 3) as u32;
    size * (1 + extra)
}
