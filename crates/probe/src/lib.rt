// The probe and commit block of 26, 34 or 48 bytes, by the revision: reading and writing it (41).
#![tactic(auto)]

ghost use Rattle.std.specs.Prelude.{◌≡◌, ◌+◌, ◌≤◌, ◌<◌, length};
ghost use Rattle.probe.specs.Fields.{probe_size, bytes_at, fields_of, bytes_of, no_fields, probe_of, room_verdict, written, WritesBack, ReadsBack};
ghost use Rattle.le.specs.Le.{le16_at, le32_at};

use entities::Revision;
use rules::{Refused, Verdict};

// The bytes of the longest block, that of revision 1.5.
pub const LENGTH: usize = 48;

// The fields as they come. preferred, minimum and maximum are versions.
#[derive(Clone, Copy)]
pub struct Probe {
    pub hint: u16,
    pub format: u8,
    pub frame: u8,
    pub interval: u32,
    pub key_rate: u16,
    pub p_rate: u16,
    pub quality: u16,
    pub window: u16,
    pub delay: u16,
    pub frame_size: u32,
    pub payload_size: u32,
    pub clock: u32,
    pub framing: u8,
    pub preferred: u8,
    pub minimum: u8,
    pub maximum: u8,
    pub usage: u8,
    pub luma_depth: u8,
    pub settings: u8,
    pub reference_frames: u8,
    pub rate_modes: u16,
    pub layout: [u8; 8],
}

// What reading a block gives: the fields, all zero where it is refused. (No Result: `probe_of` says so.)
#[derive(Drop)]
pub struct Fields {
    pub verdict: Verdict,
    pub probe: Probe,
}

// The bytes of a revision's block.
pub fn size_of(revision: Revision) -> usize
    ensures { (result ≡ probe_size revision) × (26 ≤ result) × (result ≤ 48) }
{
    entities::says_of(revision).probe
}

// Numbers at a place that a shorter block lacks: 0 there.
fn late16(s: &[u8], at: usize) -> u16
    requires { at < 48 }
    ensures { result ≡ le16_at s.now at }
{
    le::join16(le::byte_at(s, at), le::byte_at(s, at + 1))
}

fn late32(s: &[u8], at: usize) -> u32
    requires { at + 2 < 48 }
    ensures { result ≡ le32_at s.now at }
{
    le::join32(late16(s, at), late16(s, at + 2))
}

// The fields of a block; those that it lacks are 0.
fn fields_of(s: &[u8]) -> Probe
    requires { 26 ≤ length s.now }
    ensures { result ≡ fields_of s.now }
{
    let hint = le::le16(s, 0);
    let interval = le::le32(s, 4);
    let key_rate = le::le16(s, 8);
    let p_rate = le::le16(s, 10);
    let quality = le::le16(s, 12);
    let window = le::le16(s, 14);
    let delay = le::le16(s, 16);
    let frame_size = le::le32(s, 18);
    let payload_size = le::le32(s, 22);
    let clock = late32(s, 26);
    let rate_modes = late16(s, 38);
    let layout = late_layout(s);
    Probe {
        hint,
        format: s[2],
        frame: s[3],
        interval,
        key_rate,
        p_rate,
        quality,
        window,
        delay,
        frame_size,
        payload_size,
        clock,
        framing: le::byte_at(s, 30),
        preferred: le::byte_at(s, 31),
        minimum: le::byte_at(s, 32),
        maximum: le::byte_at(s, 33),
        usage: le::byte_at(s, 34),
        luma_depth: le::byte_at(s, 35),
        settings: le::byte_at(s, 36),
        reference_frames: le::byte_at(s, 37),
        rate_modes,
        layout,
    }
}

fn late_layout(s: &[u8]) -> [u8; 8]
    ensures { result ≡ bytes_at s.now 40 8 }
{
    [
        le::byte_at(s, 40),
        le::byte_at(s, 41),
        le::byte_at(s, 42),
        le::byte_at(s, 43),
        le::byte_at(s, 44),
        le::byte_at(s, 45),
        le::byte_at(s, 46),
        le::byte_at(s, 47),
    ]
}

fn no_fields() -> Probe
    ensures { result ≡ no_fields }
{
    let layout = [0u8; 8];
    Probe {
        hint: 0,
        format: 0,
        frame: 0,
        interval: 0,
        key_rate: 0,
        p_rate: 0,
        quality: 0,
        window: 0,
        delay: 0,
        frame_size: 0,
        payload_size: 0,
        clock: 0,
        framing: 0,
        preferred: 0,
        minimum: 0,
        maximum: 0,
        usage: 0,
        luma_depth: 0,
        settings: 0,
        reference_frames: 0,
        rate_modes: 0,
        layout,
    }
}

// Reads a probe block: 41 unless it has exactly the revision's bytes.
pub fn read(block: &[u8], revision: Revision) -> Fields
    ensures { (result ≡ probe_of revision block.now) × WritesBack revision result.probe block.now }
{
    if block.len() == size_of(revision) {
        let probe = fields_of(block);
        return Fields {
            verdict: Ok(()),
            probe,
        };
    }
    let probe = no_fields();
    Fields {
        verdict: Err(Refused {
            number: 41,
            offset: 0,
        }),
        probe,
    }
}

// The 48 bytes of the fields.
fn bytes_of(p: Probe) -> [u8; LENGTH]
    ensures { result ≡ bytes_of p }
{
    let hint = p.hint.to_le_bytes();
    let interval = p.interval.to_le_bytes();
    let key_rate = p.key_rate.to_le_bytes();
    let p_rate = p.p_rate.to_le_bytes();
    let quality = p.quality.to_le_bytes();
    let window = p.window.to_le_bytes();
    let delay = p.delay.to_le_bytes();
    let frame_size = p.frame_size.to_le_bytes();
    let payload_size = p.payload_size.to_le_bytes();
    let clock = p.clock.to_le_bytes();
    let rate_modes = p.rate_modes.to_le_bytes();
    [
        hint[0],
        hint[1],
        p.format,
        p.frame,
        interval[0],
        interval[1],
        interval[2],
        interval[3],
        key_rate[0],
        key_rate[1],
        p_rate[0],
        p_rate[1],
        quality[0],
        quality[1],
        window[0],
        window[1],
        delay[0],
        delay[1],
        frame_size[0],
        frame_size[1],
        frame_size[2],
        frame_size[3],
        payload_size[0],
        payload_size[1],
        payload_size[2],
        payload_size[3],
        clock[0],
        clock[1],
        clock[2],
        clock[3],
        p.framing,
        p.preferred,
        p.minimum,
        p.maximum,
        p.usage,
        p.luma_depth,
        p.settings,
        p.reference_frames,
        rate_modes[0],
        rate_modes[1],
        p.layout[0],
        p.layout[1],
        p.layout[2],
        p.layout[3],
        p.layout[4],
        p.layout[5],
        p.layout[6],
        p.layout[7],
    ]
}

// Writes the first bytes of the room, as many as the revision's block has, and no other; 41 where it has fewer, and then no byte changes.
pub fn write(p: Probe, room: &mut [u8], revision: Revision) -> Verdict
    ensures value { (result ≡ room_verdict revision room.old) × (room.new ≡ written revision p room.old) }
    ensures reads_back { ReadsBack revision p room.new }
{
    let size = size_of(revision);
    if room.len() < size {
        return Err(Refused {
            number: 41,
            offset: 0,
        });
    }
    let block = bytes_of(p);
    room[..size].copy_from_slice(&block[..size]);
    Ok(())
}
