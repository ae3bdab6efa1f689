// The packets of one URB, a stride apart, in one call.
ghost use Rattle.std.specs.Prelude.{◌≡◌, ◌+◌, ◌≤◌, ◌<◌, [], ◌∷◌, length, drop};
ghost use Rattle.session_rules.specs.Accounts.{number_count};
ghost use Rattle.host_session.specs.Calls.{take_in, lost_in};
ghost use Rattle.host_session.specs.Packets.{packet_in, is_quiet, done_with, packets_in};
ghost use Rattle.host_session.specs.Inner.{SoundIf, Goes, Steps, Missed, Next};

use session_rules::Numbers;
use session_words::{Told, Words, telling, words};

// What a packet told, and whether what is posted is known to be sound after it.
#[derive(Drop)]
struct Step {
    told: Told,
    known: bool,
}

// Whether what is posted is sound, and the ledger's rest zero.
fn is_sound(m: &Numbers, w: &Words) -> bool
    requires { length m.now ≡ number_count }
    ensures { SoundIf result m.now w.now }
{
    if words::spare_set(w) {
        return false;
    }
    let rest = words::rest_in(w);
    !rule_50::posted_broken(m, rest.taken)
}

// The short way, where what is posted is known to be sound.
fn tries(m: &mut Numbers, w: &mut Words, buffer: &mut [u8], t: &[u8], known: bool) -> bool
    requires { (length m.old ≡ number_count) × SoundIf known m.old w.old }
    ensures { Goes result m.old w.old buffer.old t.now m.new w.new buffer.new known }
{
    if !known {
        return false;
    }
    crate::goes(m, w, buffer, t, known)
}

// A packet that came.
fn came(m: &mut Numbers, w: &mut Words, buffer: &mut [u8], t: &[u8], known: bool) -> Step
    requires { (length m.old ≡ number_count) × SoundIf known m.old w.old }
    ensures { Steps result (take_in m.old w.old buffer.old t.now) m.new w.new buffer.new }
{
    if tries(m, w, buffer, t, known) {
        return Step {
            told: telling::plain(0, 1, 0),
            known,
        };
    }
    let told = crate::long(m, w, buffer, t);
    Step {
        told,
        known: is_sound(m, w),
    }
}

// A packet that is lost.
fn missed(m: &mut Numbers, w: &mut Words) -> Step
    requires { length m.old ≡ number_count }
    ensures { Missed result (lost_in m.old w.old) m.new w.new }
{
    let k = crate::lost(m, w);
    Step {
        told: telling::refused(k),
        known: is_sound(m, w),
    }
}

// One packet of n bytes, from `at` on.
fn packet(
    m: &mut Numbers,
    w: &mut Words,
    buffer: &mut [u8],
    bytes: &[u8],
    at: usize,
    stride: usize,
    n: usize,
    known: bool,
) -> Step
    requires { (length m.old ≡ number_count) × (SoundIf known m.old w.old × (at ≤ length bytes.now)) }
    ensures { Steps result (packet_in stride n (drop at bytes.now) m.old w.old buffer.old) m.new w.new buffer.new }
{
    if stride < n {
        return missed(m, w);
    }
    if bytes.len() - at < n {
        return missed(m, w);
    }
    let end = at + n;
    came(m, w, buffer, &bytes[at..end], known)
}

fn is_quiet(x: Told) -> bool
    ensures { result ≡ is_quiet x }
{
    if x.refused != 0 {
        return false;
    }
    if x.ended != 0 {
        return false;
    }
    x.fate <= 1
}

// One more of n.
fn more(k: usize, n: usize) -> usize
    requires { k < n }
    ensures { result ≡ k + 1 }
{
    k + 1
}

// How many are done with, where the k-th of n told this.
fn done_with(x: Told, k: usize, n: usize) -> u64
    requires { k < n }
    ensures { result ≡ k + done_with x }
{
    if x.refused != 0 {
        return k as u64;
    }
    if x.flags < 4 {
        return more(k, n) as u64;
    }
    k as u64
}

// Where the next packet's bytes begin; past the end there are none.
fn next(bytes: &[u8], at: usize, stride: usize) -> usize
    requires { at ≤ length bytes.now }
    ensures { Next bytes.now at stride result }
{
    if bytes.len() - at < stride {
        return bytes.len();
    }
    at + stride
}

// Takes the packets of one URB, until one has more to tell than idle or kept; so many of them are done with. A packet over the stride, or whose bytes are not
// all there, is lost.
#[unsafe(no_mangle)]
pub extern "C" fn palkodhen_session_packets(
    m: &mut [u64; 31],
    w: &mut [u64; 19],
    buffer: &mut [u8],
    bytes: &[u8],
    stride: usize,
    lengths: &[u32],
    taken: &mut [u64; 1],
) -> Told
    requires { length m.old ≡ number_count }
    ensures value { result ≡ (packets_in m.old w.old buffer.old bytes.now stride lengths.now).left.told }
    ensures m_after { m.new ≡ (packets_in m.old w.old buffer.old bytes.now stride lengths.now).left.numbers }
    ensures w_after { w.new ≡ (packets_in m.old w.old buffer.old bytes.now stride lengths.now).left.words }
    ensures buffer_after { buffer.new ≡ (packets_in m.old w.old buffer.old bytes.now stride lengths.now).left.buffer }
    ensures taken_after { taken.new ≡ (packets_in m.old w.old buffer.old bytes.now stride lengths.now).taken ∷ [] }
{
    let mut known = is_sound(m, w);
    let mut at: usize = 0;
    for (k, length) in lengths.iter().enumerate() {
        let n = *length as usize;
        let step = packet(m, w, buffer, bytes, at, stride, n, known);
        let told = step.told;
        if !is_quiet(told) {
            let done = done_with(told, k, lengths.len());
            *taken = [done];
            return told;
        }
        known = step.known;
        at = next(bytes, at, stride);
    }
    *taken = [lengths.len() as u64];
    telling::plain(0, 0, 0)
}
