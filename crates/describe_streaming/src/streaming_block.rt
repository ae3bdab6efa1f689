// `describe streaming CONTROL STREAMING`: the endpoint, the link, the formats and the frames of a streaming block, or a refusal.
ghost use Rattle.describe_streaming.specs.Known.{Knows};

use console::{files, print};
use control::Control;
use entities::Table;
use std::rt::Runtime;

// The table of a control block, if it was read and accepted. Where it was not, a line has said so.
pub fn control_of(rt: &impl Runtime, which: usize) -> Option<Table>
    ensures { Knows result }
{
    let mut buf = [0u8; 4097];
    let n = files::load(rt, which, &mut buf)?;
    let c = control::read(&buf[..n]);
    let table = c.table;
    let verdict = c.verdict;
    match verdict {
        Ok(()) => Some(table),
        Err(_) => {
            refused(rt, c);
            None
        }
    }
}

fn refused(rt: &impl Runtime, c: Control) {
    let mut text = [0u8; block_text::ROOM];
    let k = block_text::control(&mut text, c);
    print::answer(rt, &text[..k], false);
}

// One byte more than a block may have shows a file that is too long.
pub fn describe(rt: &impl Runtime) {
    let Some(table) = control_of(rt, 2) else {
        return;
    };
    let mut buf = [0u8; 16385];
    let Some(n) = files::load(rt, 3, &mut buf) else {
        return;
    };
    let mut text = [0u8; block_text::ROOM];
    let s = streaming::read(table, &buf[..n]);
    let verdict = s.verdict;
    let k = block_text::streaming(&mut text, s);
    print::answer(rt, &text[..k], block_text::is_accepted(verdict));
}
