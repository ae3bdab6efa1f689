// Functions that a C program can link and time: numbers and byte slices alone.
#![tactic(auto)]

mod take;

ghost use Rattle.std.specs.Prelude.{◌≡◌};
ghost use Rattle.exports.specs.Numbers.{number_of, number_under, ControlNumber, StreamingNumber, ConfigurationNumber};

use entities::Table;
use rules::{Refused, Verdict};

// 0 for accepted, else the number of the first broken rule.
fn number_of(verdict: Verdict) -> u64
    ensures { result ≡ number_of verdict }
{
    match verdict {
        Ok(()) => 0,
        Err(Refused { number, offset: _ }) => number as u64,
    }
}

// What reading a control block says.
#[unsafe(no_mangle)]
pub extern "C" fn palkodhen_control(block: &[u8]) -> u64
    ensures { ControlNumber block.now result }
{
    let c = control::read(block);
    let verdict = c.verdict;
    number_of(verdict)
}

// What reading a streaming block says with a control block's table, after the control block's own refusal.
#[unsafe(no_mangle)]
pub extern "C" fn palkodhen_streaming(control: &[u8], block: &[u8]) -> u64
    ensures { StreamingNumber control.now block.now result }
{
    let c = control::read(control);
    let verdict = c.verdict;
    let table = c.table;
    number_under(verdict, table, block)
}

fn number_under(verdict: Verdict, table: Table, block: &[u8]) -> u64
    ensures { result ≡ number_under verdict table block.now }
{
    match verdict {
        Err(Refused { number, offset: _ }) => number as u64,
        Ok(()) => {
            let s = streaming::read(table, block);
            let verdict = s.verdict;
            number_of(verdict)
        }
    }
}

// What reading a whole configuration says.
#[unsafe(no_mangle)]
pub extern "C" fn palkodhen_configuration(bytes: &[u8]) -> u64
    ensures { ConfigurationNumber bytes.now result }
{
    let c = configuration::read(bytes);
    let verdict = c.verdict;
    number_of(verdict)
}
