// What refuses a call: 45 to 47 of an opening, rule 50 of a session record, and 53, 52, 51, 55 in this order.
#![tactic(auto)]

ghost use Rattle.std.specs.Prelude.{◌≡◌, ◌||◌};
ghost use Rattle.rules.specs.Numbered.{first_row, kept};
ghost use Rattle.rule_50.specs.Inner.{rest_broken};
ghost use Rattle.session_rules.specs.Refusals.{opening_rows, close_rows_by, lost_rows_by, take_rows_by};

use session_rules::{Ledger, Rest};
use sizes::Opening;

// Ok, or the first of 45 to 47 that an opening breaks.
pub fn opening_refusal(o: Opening, room: usize) -> Result<(), u8>
    ensures { result ≡ kept (first_row (opening_rows o room)) }
{
    if sizes::frame_size_broken(o.frame) {
        return Err(45);
    }
    if sizes::payload_size_broken(o.payload) {
        return Err(46);
    }
    if room < o.frame {
        return Err(47);
    }
    Ok(())
}

// 50, 53. Posted: whether what is posted breaks rule 50.
pub fn close_refusal(posted: bool, rest: &Rest) -> Result<(), u8>
    ensures { result ≡ kept (first_row (close_rows_by (rest_broken rest.now.opening rest.now.track.phase rest.now.taken || posted) rest.now.closed)) }
{
    if rule_50::rest_broken(rest.opening, rest.track.phase, rest.taken) || posted {
        return Err(50);
    }
    if rest.closed {
        return Err(53);
    }
    Ok(())
}

// 50, 53, 52.
pub fn lost_refusal(posted: bool, rest: &Rest) -> Result<(), u8>
    ensures { result ≡ kept (first_row (lost_rows_by (rest_broken rest.now.opening rest.now.track.phase rest.now.taken || posted) rest.now.closed rest.now.taken)) }
{
    close_refusal(posted, rest)?;
    if rest.taken == Ledger::TRANSFERS {
        return Err(52);
    }
    Ok(())
}

// 50, 53, 52, 51, 55, of a transfer of n bytes.
pub fn take_refusal(posted: bool, rest: &Rest, room: usize, n: usize) -> Result<(), u8>
    ensures { result ≡ kept (first_row (take_rows_by (rest_broken rest.now.opening rest.now.track.phase rest.now.taken || posted) rest.now.closed rest.now.taken rest.now.opening.frame room n)) }
{
    lost_refusal(posted, rest)?;
    if room < rest.opening.frame {
        return Err(51);
    }
    if Ledger::BYTES < n as u64 {
        return Err(55);
    }
    Ok(())
}
