// What a C host asks of a whole configuration: its verdict, where its blocks lie, the alternate settings, and a pick.
#![tactic(auto)]

ghost use Rattle.std.specs.Prelude.{◌≡◌, ◌≤◌, take};
ghost use Rattle.interfaces.specs.Limits.{interfaces_most};
ghost use Rattle.alternate_settings.specs.Inner.{kth_of};
ghost use Rattle.picking.specs.Inner.{settings_in};
ghost use Rattle.host_told.specs.Told.{kth};
ghost use Rattle.host_configuration.specs.Told.{no_setting, setting_told, no_block, stream_words, there_of, part_at, part_there, block_at, block_there};
ghost use Rattle.host_configuration.specs.Questions.{ConfigurationTold, BlockThere, BlockAnswer, SettingAnswer, PickAnswer};

use alternate_settings::Setting;
use host_told::Told;
use interfaces::{Block, INTERFACES_MOST, Stream};
use rules::Verdict;

// `there` is 1; all is 0 past the last, and where the configuration is refused.
#[repr(C)]
#[derive(Drop)]
pub struct SettingTold {
    pub there: u8,
    pub number: u8,
    pub zero: u16,
    pub bytes: u32,
}

// The number of a refusal, the setting and its bytes, and the place of the refusal.
#[repr(C)]
#[derive(Drop)]
pub struct PickedTold {
    pub number: u16,
    pub setting: u16,
    pub bytes: u32,
    pub offset: usize,
}

// What reading a whole configuration says.
#[unsafe(no_mangle)]
pub extern "C" fn palkodhen_configuration(bytes: &[u8]) -> Told
    ensures { ConfigurationTold bytes.now result }
{
    let c = configuration::read(bytes);
    let verdict = c.verdict;
    host_told::tell(verdict)
}

// Where the block at place k lies, from 0: the control interface's, then those of the streaming interfaces, in order of appearance. 1, and the words are the interface's number, its
// endpoint (0 of the control interface), the block's place and its length; 0, and all are 0, past the last and where the configuration is refused.
#[unsafe(no_mangle)]
pub extern "C" fn palkodhen_block_at(configuration: &[u8], k: usize, to: &mut [u64; 4]) -> u32
    ensures block_there { BlockThere configuration.now k result }
    ensures block_answer { BlockAnswer configuration.now k to.new }
{
    let c = configuration::read(configuration);
    let verdict = c.verdict;
    let control = c.control;
    let streams = c.streams;
    block_in(verdict, control, streams, c.count, k, to)
}

fn block_in(
    verdict: Verdict,
    control: Block,
    streams: [Stream; INTERFACES_MOST],
    count: usize,
    k: usize,
    to: &mut [u64; 4],
) -> u32
    ensures value { result ≡ block_there verdict (take count streams) k }
    ensures to_after { to.new ≡ block_at verdict control (take count streams) k }
{
    match verdict {
        Err(_) => {
            *to = [0, 0, 0, 0];
            0
        }
        Ok(()) => part_in(control, streams, count, k, to),
    }
}

fn part_in(
    control: Block,
    streams: [Stream; INTERFACES_MOST],
    count: usize,
    k: usize,
    to: &mut [u64; 4],
) -> u32
    ensures value { result ≡ part_there (take count streams) k }
    ensures to_after { to.new ≡ part_at control (take count streams) k }
{
    if k == 0 {
        *to = [
            control.interface as u64,
            0,
            control.offset as u64,
            control.length as u64,
        ];
        return 1;
    }
    stream_in(streams, count, k - 1, to)
}

fn stream_in(streams: [Stream; INTERFACES_MOST], count: usize, k: usize, to: &mut [u64; 4]) -> u32
    ensures value { result ≡ kth 0 there_of (take count streams) k }
    ensures to_after { to.new ≡ kth no_block stream_words (take count streams) k }
{
    if count <= k {
        *to = [0, 0, 0, 0];
        return 0;
    }
    if INTERFACES_MOST <= k {
        *to = [0, 0, 0, 0];
        return 0;
    }
    put_stream(to, streams[k]);
    1
}

fn put_stream(to: &mut [u64; 4], e: Stream)
    ensures { to.new ≡ stream_words e }
{
    *to = [
        e.interface as u64,
        e.endpoint as u64,
        e.offset as u64,
        e.length as u64,
    ];
}

// The setting at place k, from 0, of the streaming interface of this number.
#[unsafe(no_mangle)]
pub extern "C" fn palkodhen_setting_at(configuration: &[u8], interface: u8, k: usize) -> SettingTold
    ensures { SettingAnswer configuration.now interface k result }
{
    let c = configuration::read(configuration);
    let streams = c.streams;
    setting_among(configuration, streams, c.count, interface, k)
}

fn setting_among(
    s: &[u8],
    streams: [Stream; INTERFACES_MOST],
    count: usize,
    interface: u8,
    k: usize,
) -> SettingTold
    requires { count ≤ interfaces_most }
    ensures { result ≡ setting_told (kth_of (settings_in s.now streams count interface) k) }
{
    let i = interfaces::place_of(streams, count, interface);
    if i == count {
        return no_setting();
    }
    let e = streams[i];
    tell_setting(alternate_settings::kth(s, interface, e.endpoint, k))
}

fn no_setting() -> SettingTold
    ensures { result ≡ no_setting }
{
    SettingTold {
        there: 0,
        number: 0,
        zero: 0,
        bytes: 0,
    }
}

fn tell_setting(c: Option<Setting>) -> SettingTold
    ensures { result ≡ setting_told c }
{
    match c {
        None => no_setting(),
        Some(x) => SettingTold {
            there: 1,
            number: x.number,
            zero: 0,
            bytes: x.bytes,
        },
    }
}

// The setting with the fewest bytes that hold the payload.
#[unsafe(no_mangle)]
pub extern "C" fn palkodhen_pick(configuration: &[u8], interface: u8, payload: u32) -> PickedTold
    ensures { PickAnswer configuration.now interface payload result }
{
    let p = picking::pick(configuration, interface, payload);
    let verdict = p.verdict;
    let x = p.setting;
    PickedTold {
        number: host_told::number_of(verdict) as u16,
        setting: x.number as u16,
        bytes: x.bytes,
        offset: host_told::offset_of(verdict),
    }
}
