// `describe camera FILE`: the page, or a refusal.
use camera_lines::Part;
use console::{files, print, status};
use rules::Verdict;
use std::rt::Runtime;

// A device descriptor, the largest number that a configuration can give as its length, and one byte more.
const FILE_MOST: usize = 65554;

pub fn describe(rt: &impl Runtime, which: usize) {
    let mut buf = [0u8; FILE_MOST];
    let Some(n) = files::load(rt, which, &mut buf) else {
        return;
    };
    show(rt, &buf[..n]);
}

// Reads the configuration where it stands in the file.
fn show(rt: &impl Runtime, file: &[u8]) {
    let place = device_file::find(file);
    let from = place.offset;
    let to = from + place.length;
    let c = configuration::read(&file[from..to]);
    let verdict = c.verdict;
    page(rt, file, &file[from..to], verdict);
}

// What stands in front, and the descriptors of a configuration that is accepted.
fn page(rt: &impl Runtime, file: &[u8], s: &[u8], verdict: Verdict) {
    let mut lines = [0u8; camera_text::ROOM];
    let k = camera_text::head(&mut lines, file, verdict);
    if let Err(error) = rt.write_all(&lines[..k]) {
        print::not_written(&error);
        return;
    }
    if block_text::is_accepted(verdict) {
        body(rt, &mut lines, s);
    } else {
        status::refused();
    }
}

// The text of each descriptor: a configuration has no more descriptors than bytes.
fn body(rt: &impl Runtime, lines: &mut [u8], s: &[u8]) {
    let mut at: usize = 0;
    let mut part = Part::Other;
    for _ in 0..s.len() {
        let k = camera_text::text(lines, s, at, part);
        if let Err(error) = rt.write_all(&lines[..k]) {
            print::not_written(&error);
            return;
        }
        part = camera_text::part_after(s, at, part);
        at = camera_text::after(s, at);
    }
    status::answered();
}
