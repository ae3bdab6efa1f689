// A session for a host in C, which keeps the ledger's numbers and the session's words and lends them to each call.
#![tactic(auto)]

mod packets;

ghost use Rattle.std.specs.Prelude.{◌≡◌, true, false, length};
ghost use Rattle.rules.specs.Numbered.{first_row, kept};
ghost use Rattle.sizes.specs.declared.HeaderKind.TheVariants.{Old, Vp8};
ghost use Rattle.session_rules.specs.Accounts.{number_count};
ghost use Rattle.session_rules.specs.Refusals.{take_rows, record_broken};
ghost use Rattle.short_way.specs.Inner.{whole_of};
ghost use Rattle.rule_50.specs.Inner.{posted_broken};
ghost use Rattle.session_words.specs.Words.{words_of};
ghost use Rattle.session_words.specs.Reading.{spare_set, rest_in};
ghost use Rattle.host_session.specs.Calls.{take_in, lost_in, close_in, open_in, places_of, ledger_in};
ghost use Rattle.host_session.specs.Inner.{Goes};

use session_rules::{Numbers, Phase, Rest, Session};
use session_words::{Read, Told, Words, telling, words};
use sizes::{HeaderKind, Opening};

// Makes the words those of a session's rest.
fn write(w: &mut Words, r: Rest)
    ensures { w.new ≡ words_of r }
{
    let x = words::words_of(r);
    *w = x;
}

// Ok, or what refuses a transfer of n bytes; where it is known, what is posted is not asked again.
fn refusal(rest: &Rest, m: &Numbers, room: usize, n: usize, known: bool) -> Result<(), u8>
    requires { (length m.now ≡ number_count) × (known ≡ true → posted_broken m.now rest.now.taken ≡ false) }
    ensures { result ≡ kept (first_row (take_rows (whole_of rest.now m.now) room n)) }
{
    if !known {
        return short_way::refusal(rest, m, room, n);
    }
    refusals::take_refusal(false, rest, room, n)
}

// Inner: the short way, before the words are taken apart: a transfer that goes on with a frame without fault.
pub fn goes(m: &mut Numbers, w: &mut Words, buffer: &mut [u8], t: &[u8], known: bool) -> bool
    requires { (length m.old ≡ number_count) × ((spare_set w.old ≡ false) × (known ≡ true → posted_broken m.old (rest_in w.old).taken ≡ false)) }
    ensures { Goes result m.old w.old buffer.old t.now m.new w.new buffer.new known }
{
    if !words::is_plain(w) {
        return false;
    }
    let rest = words::rest_in(w);
    let opening = rest.opening;
    let track = rest.track;
    let phase = track.phase;
    if let Phase::Under(run) = phase {
        if going_on::goes_on(opening, run, t) {
            if refusal(&rest, m, buffer.len(), t.len(), known).is_ok() {
                let next = short_way::keep(rest, run, m, buffer, t);
                write(w, next);
                return true;
            }
        }
    }
    false
}

// The same of any words.
fn tries(m: &mut Numbers, w: &mut Words, buffer: &mut [u8], t: &[u8]) -> bool
    requires { length m.old ≡ number_count }
    ensures { Goes result m.old w.old buffer.old t.now m.new w.new buffer.new false }
{
    if words::spare_set(w) {
        return false;
    }
    goes(m, w, buffer, t, false)
}

// Inner: the long way, of any transfer.
pub fn long(m: &mut Numbers, w: &mut Words, buffer: &mut [u8], t: &[u8]) -> Told
    requires { length m.old ≡ number_count }
    ensures value { result ≡ (take_in m.old w.old buffer.old t.now).told }
    ensures m_after { m.new ≡ (take_in m.old w.old buffer.old t.now).numbers }
    ensures w_after { w.new ≡ (take_in m.old w.old buffer.old t.now).words }
    ensures buffer_after { buffer.new ≡ (take_in m.old w.old buffer.old t.now).buffer }
    ensures m_len { length m.new ≡ number_count }
{
    match words::read(w) {
        Read::Broken(k) => telling::refused(k),
        Read::Laid(rest) => {
            let x = session::take(rest, m, buffer, t);
            let next = x.rest;
            let outcome = x.outcome;
            write(w, next);
            telling::outcome(outcome)
        }
    }
}

// Takes one transfer. What is required, here and below, C's types say: so many words.
#[unsafe(no_mangle)]
pub extern "C" fn palkodhen_session_take(
    m: &mut [u64; 31],
    w: &mut [u64; 19],
    buffer: &mut [u8],
    t: &[u8],
) -> Told
    requires { length m.old ≡ number_count }
    ensures value { result ≡ (take_in m.old w.old buffer.old t.now).told }
    ensures m_after { m.new ≡ (take_in m.old w.old buffer.old t.now).numbers }
    ensures w_after { w.new ≡ (take_in m.old w.old buffer.old t.now).words }
    ensures buffer_after { buffer.new ≡ (take_in m.old w.old buffer.old t.now).buffer }
{
    if tries(m, w, buffer, t) {
        return telling::plain(0, 1, 0);
    }
    long(m, w, buffer, t)
}

// Inner: the host reports a lost transfer: 0, or what refuses it.
pub fn lost(m: &mut Numbers, w: &mut Words) -> u8
    requires { length m.old ≡ number_count }
    ensures value { result ≡ (lost_in m.old w.old).number }
    ensures m_after { m.new ≡ (lost_in m.old w.old).numbers }
    ensures w_after { w.new ≡ (lost_in m.old w.old).words }
    ensures m_len { length m.new ≡ number_count }
{
    match words::read(w) {
        Read::Broken(k) => k,
        Read::Laid(rest) => {
            let x = session::lost(rest, m);
            let next = x.rest;
            let report = x.report;
            write(w, next);
            telling::report(report)
        }
    }
}

// The same for C.
#[unsafe(no_mangle)]
pub extern "C" fn palkodhen_session_lost(m: &mut [u64; 31], w: &mut [u64; 19]) -> u32
    requires { length m.old ≡ number_count }
    ensures value { result ≡ (lost_in m.old w.old).number }
    ensures m_after { m.new ≡ (lost_in m.old w.old).numbers }
    ensures w_after { w.new ≡ (lost_in m.old w.old).words }
{
    lost(m, w) as u32
}

// Ends a frame under way, and the session.
#[unsafe(no_mangle)]
pub extern "C" fn palkodhen_session_close(m: &mut [u64; 31], w: &mut [u64; 19]) -> Told
    requires { length m.old ≡ number_count }
    ensures value { result ≡ (close_in m.old w.old).told }
    ensures m_after { m.new ≡ (close_in m.old w.old).numbers }
    ensures w_after { w.new ≡ (close_in m.old w.old).words }
{
    match words::read(w) {
        Read::Broken(k) => telling::refused(k),
        Read::Laid(rest) => {
            let x = session::close(rest, m);
            let next = x.rest;
            let closing = x.closing;
            write(w, next);
            telling::closing(closing)
        }
    }
}

// Opens a session on the negotiated sizes and framing byte, for a buffer of so much room.
fn open_kind(m: &mut Numbers, w: &mut Words, o: Opening, room: usize) -> u32
    ensures value { result ≡ (open_in o room).number }
    ensures m_after { m.new ≡ (open_in o room).numbers }
    ensures w_after { w.new ≡ (open_in o room).words }
{
    let x = session::open_for(o, room);
    let s = x.session;
    let rest = s.rest;
    let start = x.start;
    let numbers = s.numbers;
    *m = numbers;
    write(w, rest);
    telling::start(start)
}

// Opens a session of the class's own headers.
#[unsafe(no_mangle)]
pub extern "C" fn palkodhen_session_open(
    m: &mut [u64; 31],
    w: &mut [u64; 19],
    frame: usize,
    payload: usize,
    framing: u8,
    room: usize,
) -> u32
    ensures value { result ≡ (open_in (record { frame = frame; payload = payload; framing = framing; kind = Old }) room).number }
    ensures m_after { m.new ≡ (open_in (record { frame = frame; payload = payload; framing = framing; kind = Old }) room).numbers }
    ensures w_after { w.new ≡ (open_in (record { frame = frame; payload = payload; framing = framing; kind = Old }) room).words }
{
    open_kind(
        m,
        w,
        Opening {
            frame,
            payload,
            framing,
            kind: HeaderKind::Old,
        },
        room,
    )
}

// Opens a session of VP8 headers.
#[unsafe(no_mangle)]
pub extern "C" fn palkodhen_session_open_vp8(
    m: &mut [u64; 31],
    w: &mut [u64; 19],
    frame: usize,
    payload: usize,
    framing: u8,
    room: usize,
) -> u32
    ensures value { result ≡ (open_in (record { frame = frame; payload = payload; framing = framing; kind = Vp8 }) room).number }
    ensures m_after { m.new ≡ (open_in (record { frame = frame; payload = payload; framing = framing; kind = Vp8 }) room).numbers }
    ensures w_after { w.new ≡ (open_in (record { frame = frame; payload = payload; framing = framing; kind = Vp8 }) room).words }
{
    open_kind(
        m,
        w,
        Opening {
            frame,
            payload,
            framing,
            kind: HeaderKind::Vp8,
        },
        room,
    )
}

// Whether 50 refuses the record.
fn is_broken(rest: Rest, m: &Numbers) -> bool
    requires { length m.now ≡ number_count }
    ensures { result ≡ record_broken (whole_of rest m.now) }
{
    let opening = rest.opening;
    let track = rest.track;
    let phase = track.phase;
    if rule_50::rest_broken(opening, phase, rest.taken) {
        return true;
    }
    rule_50::posted_broken(m, rest.taken)
}

// The numbers in their forty places, the rest zero.
fn lay(to: &mut [u64; 40], numbers: &Numbers)
    requires { (length numbers.now ≡ number_count) × (length to.old ≡ 40) }
    ensures { to.new ≡ places_of numbers.now }
{
    to[..31].copy_from_slice(numbers);
    to[31..].fill(0);
}

// The ledger, with the frame under way in its account, in its forty places.
#[unsafe(no_mangle)]
pub extern "C" fn palkodhen_session_ledger(m: &[u64; 31], w: &[u64; 19], to: &mut [u64; 40]) -> u32
    requires { (length m.now ≡ number_count) × (length to.old ≡ 40) }
    ensures value { result ≡ (ledger_in m.now w.now to.old).number }
    ensures to_after { to.new ≡ (ledger_in m.now w.now to.old).places }
{
    match words::read(w) {
        Read::Broken(k) => k as u32,
        Read::Laid(rest) => {
            if is_broken(rest, m) {
                return 50;
            }
            let l = session::ledger(Session { rest, numbers: *m });
            let numbers = l.numbers;
            lay(to, &numbers);
            0
        }
    }
}
