// Takes transfers in a session.
ghost use Rattle.std.specs.Prelude.{◌≡◌};
ghost use Rattle.sizes.specs.declared.HeaderKind.TheVariants.{Old};
ghost use Rattle.exports.specs.Taking.{opened, took_all, delivered_of};

use recorder::Recorder;
use session_rules::{Account, Ledger};
use sizes::{HeaderKind, Opening};

// Opens a session, and takes the transfers of `size` bytes that lie one after another in `transfers`, all of them so many times. It answers the bytes delivered.
#[unsafe(no_mangle)]
pub extern "C" fn palkodhen_take(
    frame: usize,
    payload: usize,
    framing: u8,
    size: usize,
    times: u64,
    buffer: &mut [u8],
    transfers: &[u8],
) -> u64
    ensures value { result ≡ delivered_of (took_all size transfers.now (opened (record { frame = frame; payload = payload; framing = framing; kind = Old }) buffer.old) times) }
    ensures buffer_after { buffer.new ≡ (took_all size transfers.now (opened (record { frame = frame; payload = payload; framing = framing; kind = Old }) buffer.old) times).buffer }
{
    let start = Recorder::open(
        Opening {
            frame,
            payload,
            framing,
            kind: HeaderKind::Old,
        },
        buffer,
    );
    let s = start.session;
    let mut numbers = s.numbers;
    let mut rest = s.rest;
    if size == 0 {
        return 0;
    }
    // No transfer: so many rounds of nothing are not gone through.
    if transfers.len() < size {
        return 0;
    }
    for _round in 0..times {
        for k in 0..transfers.len() / size {
            let at = k * size;
            let end = at + size;
            let taken = session::take(rest, &mut numbers, buffer, &transfers[at..end]);
            rest = taken.rest;
        }
    }
    let last = rest.last;
    let l = Ledger { numbers, last };
    ledger::bytes(l, Account::Delivered)
}
