// The ledger: for each account a count of frames or transfers and its bytes, the counts beside them, and the clock.
#![tactic(auto)]

ghost use Rattle.std.specs.Prelude.{◌≡◌, ◌+◌, ◌<◌, ◌≤◌, ◌^◌, get_or};
ghost use Rattle.session_rules.specs.Ledger.{timed_of, fated_of, answered_of, shown_of, count_of, bytes_of};
ghost use Rattle.session_rules.specs.Track.{under_count, under_bytes};
ghost use Rattle.session_rules.specs.Step.{step_of};
ghost use Rattle.session_rules.specs.Accounts.{account_count, number_count, place_of, account_for};
ghost use Rattle.ledger.specs.Inner.{plus_at, entered_in, stepped_in, ended_in, fate_bytes, ledger_with, Room, Spare};

use session_rules::{Account, Answer, Ended, Fate, Ledger, Numbers, Phase, Reason, Stamp, Step};

// The frames or transfers of an account.
pub fn count(ledger: Ledger, a: Account) -> u64
    ensures { result ≡ count_of ledger (place_of a) }
{
    let at = 2 * place(a);
    ledger.numbers[at]
}

// The bytes of an account.
pub fn bytes(ledger: Ledger, a: Account) -> u64
    ensures { result ≡ bytes_of ledger (place_of a) }
{
    let at = 2 * place(a) + 1;
    ledger.numbers[at]
}

// Inner: n more at a place. The session has looked at the bounds (50), here and below.
pub fn plus(m: &mut Numbers, at: usize, n: u64)
    requires { (at < number_count) × (get_or m.old at 0 + n < 2 ^ 64) }
    ensures { m.new ≡ plus_at m.old at n }
{
    let was = m[at];
    m[at] = was + n;
}

// Inner: one more in an account, of n bytes.
pub fn entered(m: &mut Numbers, a: Account, n: u64)
    requires { (Spare (2 ^ 63 + 2 ^ 60) m.old (place_of a)) × (n ≤ 2 ^ 50) }
    ensures { m.new ≡ entered_in m.old a n }
{
    let at = 2 * place(a);
    plus(m, at, 1);
    plus(m, at + 1, n);
}

// A step: forward adds to the ticks, backward is counted.
fn stepped(m: &mut Numbers, s: Step)
    requires { Room (2 ^ 63 + 2 ^ 61) m.old }
    ensures { m.new ≡ stepped_in m.old s }
{
    match s {
        Step::Forward(n) => plus(m, Ledger::RUNNING, n as u64),
        Step::Backward(_) => plus(m, Ledger::BACKWARD, 1),
    }
}

// The time from the last stamped delivered frame to this one; answers the last stamp.
fn timed(m: &mut Numbers, last: Stamp, s: Stamp) -> Stamp
    requires { Room (2 ^ 63 + 2 ^ 61) m.old }
    ensures { ledger_with m.new result ≡ timed_of (ledger_with m.old last) s }
{
    match s {
        None => {
            plus(m, Ledger::UNTIMED, 1);
            last
        }
        Some(b) => match last {
            None => s,
            Some(a) => {
                stepped(m, step_between(a, b));
                s
            }
        },
    }
}

// Inner: a frame of so many bytes that was ended, if there is one.
pub fn ended(m: &mut Numbers, e: Ended, gone: u64)
    requires { (Room (2 ^ 63 + 2 ^ 60) m.old) × (gone ≤ 2 ^ 50) }
    ensures { m.new ≡ ended_in m.old e gone }
{
    match e {
        None => {}
        Some(why) => entered(m, account_for(why), gone),
    }
}

// Inner: a transfer's fate, with its bytes; answers the last stamp.
pub fn fated(m: &mut Numbers, last: Stamp, f: Fate, n: u64) -> Stamp
    requires { (Room (2 ^ 63 + 2 ^ 60) m.old) × (fate_bytes f n ≤ 2 ^ 50) }
    ensures { ledger_with m.new result ≡ fated_of (ledger_with m.old last) f n }
{
    match f {
        Fate::Idle => {
            plus(m, Ledger::IDLE, 1);
            last
        }
        Fate::Kept => last,
        Fate::Stray => {
            entered(m, Account::Stray, n);
            last
        }
        Fate::Delivered(d) => {
            entered(m, Account::Delivered, d.len);
            let s = d.stamp;
            timed(m, last, s)
        }
        Fate::Still(d) => {
            entered(m, Account::Still, d.len);
            last
        }
        Fate::Dropped(why) => {
            entered(m, account_for(why), n);
            last
        }
        Fate::Unreadable(_) => {
            entered(m, Account::Unreadable, n);
            last
        }
    }
}

// Inner: posts an answer: the bytes of the frame that was ended, and those of the transfer's fate; answers the last stamp.
pub fn answered(m: &mut Numbers, last: Stamp, a: Answer, gone: u64, n: u64) -> Stamp
    requires { (Room (2 ^ 63 + 2 ^ 59) m.old) × (gone ≤ 2 ^ 50) × (fate_bytes a.fate n ≤ 2 ^ 50) }
    ensures { ledger_with m.new result ≡ answered_of (ledger_with m.old last) a gone n }
{
    let e = a.ended;
    let f = a.fate;
    ended(m, e, gone);
    fated(m, last, f, n)
}

// The ledger with the frame under way in its account.
pub fn shown(mut ledger: Ledger, p: Phase) -> Ledger
    ensures { result ≡ shown_of ledger p }
{
    let count = under_count(p);
    let bytes = under_bytes(p);
    ledger.numbers[2 * Ledger::UNDER_WAY] = count;
    ledger.numbers[2 * Ledger::UNDER_WAY + 1] = bytes;
    ledger
}

fn under_count(p: Phase) -> u64
    ensures { result ≡ under_count p }
{
    match p {
        Phase::Fresh => 0,
        Phase::Past(_) => 0,
        Phase::Under(_) => 1,
    }
}

fn under_bytes(p: Phase) -> u64
    ensures { result ≡ under_bytes p }
{
    match p {
        Phase::Fresh => 0,
        Phase::Past(_) => 0,
        Phase::Under(r) => r.bytes,
    }
}

fn place(a: Account) -> usize
    ensures { (result ≡ place_of a) × (result < account_count) }
{
    match a {
        Account::Delivered => 0,
        Account::Gap => 1,
        Account::Error => 2,
        Account::Clock => 3,
        Account::Long => 4,
        Account::Cut => 5,
        Account::Empty => 6,
        Account::Still => 7,
        Account::Mixed => 8,
        Account::UnderWay => Ledger::UNDER_WAY,
        Account::Stray => 10,
        Account::Unreadable => 11,
        Account::Headers => 12,
    }
}

// The account of a frame that was not delivered.
fn account_for(why: Reason) -> Account
    ensures { result ≡ account_for why }
{
    match why {
        Reason::Gap => Account::Gap,
        Reason::Error => Account::Error,
        Reason::Clock => Account::Clock,
        Reason::Mixed => Account::Mixed,
        Reason::Long => Account::Long,
        Reason::Cut => Account::Cut,
        Reason::Empty => Account::Empty,
    }
}

// The step between two stamps: later minus earlier modulo 2^32, read as signed.
pub fn step_between(earlier: u32, later: u32) -> Step
    ensures { result ≡ step_of earlier later }
{
    let ahead = (later as u64 + Ledger::STAMPS - earlier as u64) % Ledger::STAMPS;
    if ahead < Ledger::TICKS {
        Step::Forward(ahead as u32)
    } else {
        Step::Backward((Ledger::STAMPS - ahead) as u32)
    }
}
