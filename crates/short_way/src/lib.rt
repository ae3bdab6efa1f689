// The short way of take: what refuses the call, and a transfer that goes on with the frame under way, which is kept.
#![tactic(auto)]

ghost use Rattle.std.specs.Prelude.{◌≡◌, ◌<◌, length};
ghost use Rattle.rules.specs.Numbered.{first_row, kept};
ghost use Rattle.session_rules.specs.Accounts.{number_count};
ghost use Rattle.session_rules.specs.Refusals.{taken_most, take_rows};
ghost use Rattle.session_rules.specs.Session.{take_of, buffer_of};
ghost use Rattle.short_way.specs.Inner.{whole_of, counted_rest, kept_with, GoesOn};

use session_rules::{Account, Numbers, Phase, Rest, Run, Stamp, Track};

// Inner: Ok, or what refuses a transfer of n bytes. What is required the type of the numbers says.
pub fn refusal(rest: &Rest, m: &Numbers, room: usize, n: usize) -> Result<(), u8>
    requires { length m.now ≡ number_count }
    ensures { result ≡ kept (first_row (take_rows (whole_of rest.now m.now) room n)) }
{
    refusals::take_refusal(rule_50::posted_broken(m, rest.taken), rest, room, n)
}

// Inner: one more taken, with this track and last stamp.
pub fn counted(rest: Rest, track: Track, last: Stamp) -> Rest
    requires { rest.taken < taken_most }
    ensures { result ≡ counted_rest rest track last }
{
    let opening = rest.opening;
    Rest {
        opening,
        closed: rest.closed,
        taken: rest.taken + 1,
        track,
        last,
    }
}

// Inner: the short way but for the writing: a transfer that nothing refuses and that goes on with the frame r under way is kept.
pub fn gone_on(rest: Rest, r: Run, m: &mut Numbers, room: usize, t: &[u8]) -> Rest
    requires { GoesOn (whole_of rest m.old) r room t.now }
    ensures { kept_with result m.new ≡ take_of (whole_of rest m.old) room t.now }
{
    let len = le::wide(t[0]);
    let opening = rest.opening;
    let run = going_on::went_on(opening, r, t);
    let last = rest.last;
    ledger::entered(m, Account::Headers, len as u64);
    counted(
        rest,
        Track {
            phase: Phase::Under(run),
            gap: false,
        },
        last,
    )
}

// Inner: the same, with the data written straight after the frame's earlier data.
pub fn keep(rest: Rest, r: Run, m: &mut Numbers, buffer: &mut [u8], t: &[u8]) -> Rest
    requires { GoesOn (whole_of rest m.old) r (length buffer.old) t.now }
    ensures m_after { kept_with result m.new ≡ take_of (whole_of rest m.old) (length buffer.old) t.now }
    ensures buffer_after { buffer.new ≡ buffer_of (whole_of rest m.old) buffer.old t.now }
{
    let len = le::wide(t[0]);
    let at = r.fill;
    let next = gone_on(rest, r, m, buffer.len(), t);
    copier::lay(&mut buffer[at..], at, &t[len..]);
    next
}
