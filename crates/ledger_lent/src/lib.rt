// The ledger that a polling loop keeps: a struct of 320 bytes, lent by exclusive reference. Each thin call takes it apart and hands it to the operation by value.
#![tactic(auto)]

ghost use Rattle.std.specs.Prelude.{◌≡◌, length};
ghost use Rattle.ledger_record.specs.Recorded.{take_buffer};
ghost use Rattle.ledger_lent.specs.Lent.{taken_of, reported_of, closed_of, taken_with, reported_with, closed_with};

use session::{RestClosed, RestReported, RestTaken};
use session_rules::Rest;

// The ledger as the host program reads it.
#[derive(Drop)]
pub struct Record {
    pub bytes: [u8; 320],
}

// What a call on a record by value leaves: the record's bytes, and the rest with the answer.
#[derive(Drop)]
pub struct RecordTaken {
    pub bytes: [u8; 320],
    pub taken: RestTaken,
}

#[derive(Drop)]
pub struct RecordReported {
    pub bytes: [u8; 320],
    pub reported: RestReported,
}

#[derive(Drop)]
pub struct RecordClosed {
    pub bytes: [u8; 320],
    pub closed: RestClosed,
}

// Takes one transfer, or hands out a frame, with the record by value.
pub fn take(bytes: [u8; 320], rest: Rest, buffer: &mut [u8], t: &[u8]) -> RecordTaken
    ensures { (result ≡ taken_of bytes rest (length buffer.old) t.now) × (buffer.new ≡ take_buffer bytes rest buffer.old t.now) }
{
    let mut next = bytes;
    let taken = ledger_record::take(&mut next, rest, buffer, t);
    RecordTaken { bytes: next, taken }
}

// Notes a lost transfer, with the record by value.
pub fn lost(bytes: [u8; 320], rest: Rest) -> RecordReported
    ensures { result ≡ reported_of bytes rest }
{
    let mut next = bytes;
    let reported = ledger_record::lost(&mut next, rest);
    RecordReported {
        bytes: next,
        reported,
    }
}

// Closes the session, with the record by value.
pub fn close(bytes: [u8; 320], rest: Rest) -> RecordClosed
    ensures { result ≡ closed_of bytes rest }
{
    let mut next = bytes;
    let closed = ledger_record::close(&mut next, rest);
    RecordClosed {
        bytes: next,
        closed,
    }
}

// THE THIN CALL: takes one transfer with the ledger lent.
pub fn take_lent(l: &mut Record, rest: Rest, buffer: &mut [u8], t: &[u8]) -> RestTaken
    ensures { (taken_with l.new result ≡ taken_of l.old.bytes rest (length buffer.old) t.now) × (buffer.new ≡ take_buffer l.old.bytes rest buffer.old t.now) }
{
    let bytes = l.bytes;
    let next = take(bytes, rest, buffer, t);
    let left = next.bytes;
    l.bytes = left;
    next.taken
}

// The host reports a lost transfer with the ledger lent.
pub fn lost_lent(l: &mut Record, rest: Rest) -> RestReported
    ensures { reported_with l.new result ≡ reported_of l.old.bytes rest }
{
    let bytes = l.bytes;
    let next = lost(bytes, rest);
    let left = next.bytes;
    l.bytes = left;
    next.reported
}

// Ends a frame under way, and the session, with the ledger lent.
pub fn close_lent(l: &mut Record, rest: Rest) -> RestClosed
    ensures { closed_with l.new result ≡ closed_of l.old.bytes rest }
{
    let bytes = l.bytes;
    let next = close(bytes, rest);
    let left = next.bytes;
    l.bytes = left;
    next.closed
}
