// `describe probe CONTROL STREAMING PROBE`: the fields of a probe block that the streaming block offers, or a refusal.
use crate::streaming_block;
use console::{files, print};
use std::rt::Runtime;

pub fn describe(rt: &impl Runtime) {
    let Some(table) = streaming_block::control_of(rt, 2) else {
        return;
    };
    let mut block = [0u8; 16385];
    let Some(n) = files::load(rt, 3, &mut block) else {
        return;
    };
    let mut bytes = [0u8; 49];
    let Some(m) = files::load(rt, 4, &mut bytes) else {
        return;
    };
    let verdict = probe_check::check(table, &block[..n], &bytes[..m]);
    let revision = table.revision;
    let read = probe::read(&bytes[..m], revision);
    let p = read.probe;
    let mut text = [0u8; block_text::ROOM];
    let k = block_text::probe(&mut text, verdict, p);
    print::answer(rt, &text[..k], block_text::is_accepted(verdict));
}
