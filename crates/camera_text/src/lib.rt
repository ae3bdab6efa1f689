// What is printed of a camera, for a person: what stands in front of the descriptors, then the text of one descriptor after the other.
#![tactic(auto)]

ghost use Rattle.std.specs.Prelude.{◌≡◌, ◌+◌, ◌≤◌, ◌<◌, length};
ghost use Rattle.io.specs.Counts.{IsPrefixLen};
ghost use Rattle.text.specs.Put.{Put};
ghost use Rattle.text.specs.Written.{answer_of, buffer_of};
ghost use Rattle.block_text.specs.Answers.{refused_text};
ghost use Rattle.camera_lines.specs.Parts.{room};
ghost use Rattle.camera_text.specs.Page.{device_text, behind_text, refusal_text, head_text, text_from, next_from, part_from};

use camera_lines::Part;
use rules::{Refused, Verdict};

// How many bytes are enough for each of the texts.
pub const ROOM: usize = camera_lines::ROOM;

// What stands in front, of a file and of the verdict on its configuration, at the front of buf, and its length; 0, and buf as it was, where buf has fewer than ROOM bytes.
pub fn head(buf: &mut [u8], file: &[u8], verdict: Verdict) -> usize
    ensures value { result ≡ answer_of room (head_text file.now verdict) buf.old }
    ensures buf_after { buf.new ≡ buffer_of room (head_text file.now verdict) buf.old }
    ensures prefix_len { IsPrefixLen result buf.new }
{
    if buf.len() < ROOM {
        return 0;
    }
    headed(buf, file, verdict)
}

// The same of the descriptor at `at`; nothing from the end on.
pub fn text(buf: &mut [u8], s: &[u8], at: usize, part: Part) -> usize
    ensures value { result ≡ answer_of room (text_from s.now at part) buf.old }
    ensures buf_after { buf.new ≡ buffer_of room (text_from s.now at part) buf.old }
    ensures prefix_len { IsPrefixLen result buf.new }
{
    if buf.len() < ROOM {
        return 0;
    }
    written(buf, s, at, part)
}

// Where the next descriptor stands, and the end behind the last.
pub fn after(s: &[u8], at: usize) -> usize
    ensures { result ≡ next_from s.now at }
{
    if at < s.len() {
        return configuration_rules::after(s, at);
    }
    s.len()
}

// In which block it stands.
pub fn part_after(s: &[u8], at: usize, part: Part) -> Part
    ensures { result ≡ part_from s.now at part }
{
    if at < s.len() {
        return camera_lines::part_after(s, at, part);
    }
    part
}

fn written(buf: &mut [u8], s: &[u8], at: usize, part: Part) -> usize
    requires { room ≤ length buf.old }
    ensures { Put buf.old 0 (text_from s.now at part) result buf.new }
{
    if at < s.len() {
        return camera_lines::descriptor(buf, s, at, part);
    }
    0
}

fn headed(buf: &mut [u8], file: &[u8], verdict: Verdict) -> usize
    requires { room ≤ length buf.old }
    ensures { Put buf.old 0 (head_text file.now verdict) result buf.new }
{
    let place = device_file::find(file);
    let named = device(buf, file, device_file::is_device(file));
    let told = behind(buf, named, place.behind);
    refusal(buf, told, verdict)
}

// The vendor's and the product's number, where the file has them.
fn device(buf: &mut [u8], file: &[u8], there: bool) -> usize
    requires { room ≤ length buf.old }
    ensures put { Put buf.old 0 (device_text file.now there) result buf.new }
    ensures upper_bound { result ≤ 300 }
{
    if there {
        return templates::render(buf, 0, file, 0, 0, b"Device %h09%h08:%h11%h10\n");
    }
    0
}

// A line where something stands behind the first configuration.
fn behind(buf: &mut [u8], at: usize, n: usize) -> usize
    requires { at + 100 ≤ length buf.old }
    ensures put { Put buf.old at (behind_text n) result buf.new }
    ensures upper_bound { result ≤ at + 100 }
{
    if n == 0 {
        return at;
    }
    text::put(
        buf,
        at,
        b"further configurations follow, and only the first is read\n",
    )
}

// The refusal's line, and its number in plain words.
fn refusal(buf: &mut [u8], at: usize, verdict: Verdict) -> usize
    requires { at + 400 ≤ length buf.old }
    ensures { Put buf.old at (refusal_text verdict) result buf.new }
{
    match verdict {
        Ok(()) => at,
        Err(Refused { number, offset }) => refused(buf, at, number, offset),
    }
}

fn refused(buf: &mut [u8], at: usize, number: u8, offset: usize) -> usize
    requires { at + 400 ≤ length buf.old }
    ensures { Put buf.old at (refused_text number offset) result buf.new }
{
    let next = block_lines::refused(buf, at, number, offset);
    refusal_words::put(buf, next, number)
}
