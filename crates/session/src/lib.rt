// A session: takes transfers in turn, hands out whole frames and keeps the ledger. Every call takes the rest of the record by value, with the ledger's numbers
// lent, and gives the new rest back: who makes many calls in a row copies no number.
#![tactic(auto)]

ghost use Rattle.std.specs.Prelude.{◌≡◌, ◌-◌, ◌≤◌, length};
ghost use Rattle.session_rules.specs.Accounts.{number_count};
ghost use Rattle.session_rules.specs.Rule50.{transfer_most};
ghost use Rattle.session_rules.specs.Refusals.{ledger_of};
ghost use Rattle.session_rules.specs.Session.{open_of, new_session, read_of, read_buffer, handed_of, met_of, met_buffer, take_of, buffer_of, lost_of, close_of};
ghost use Rattle.session.specs.Inner.{whole_of, Ready, kept_with, GoesOn, taken_with, reported_with, closed_with, Lent, HasRoom, Written, kept_of, unwritten_of, Goes};

use session_rules::{
    Account, Answer, Closing, Fate, Header, Ledger, Numbers, Opened, Outcome, Phase, Reading,
    Report, Rest, Run, Session, Track,
};
use sizes::{HeaderKind, Opening};

// RestTaken, RestReported and RestClosed stay three structs: the theorems over them (proofs/Lent, Unique) speak of their fields, as `taken_with` and its kin do.
#[derive(Drop)]
pub struct RestTaken {
    pub rest: Rest,
    pub outcome: Outcome,
}

// A transfer that is posted, and what of it is still to be written: `len` bytes, those from `from` on, at `at` of the buffer.
#[derive(Drop)]
struct Posted {
    taken: RestTaken,
    at: usize,
    from: usize,
    len: usize,
}

#[derive(Drop)]
pub struct RestReported {
    pub rest: Rest,
    pub report: Report,
}

#[derive(Drop)]
pub struct RestClosed {
    pub rest: Rest,
    pub closing: Closing,
}

// A session with no transfer taken and a fresh ledger.
fn with(opening: Opening, closed: bool) -> Session
    ensures { result ≡ new_session opening closed }
{
    let l = Ledger::new();
    let numbers = l.numbers;
    let last = l.last;
    Session {
        rest: Rest {
            opening,
            closed,
            taken: 0,
            track: Track {
                phase: Phase::Fresh,
                gap: false,
            },
            last,
        },
        numbers,
    }
}

// Nothing is to be written.
fn unwritten(taken: RestTaken) -> Posted
    ensures { result ≡ unwritten_of taken }
{
    Posted {
        taken,
        at: 0,
        from: 0,
        len: 0,
    }
}

// Opens a session on the negotiated sizes and framing byte and on the header kind, for a buffer of so much room.
// A refused opening gives a closed session with no sizes, which every call refuses by 50.
pub fn open_for(o: Opening, room: usize) -> Opened
    ensures { result ≡ open_of o room }
{
    match refusals::opening_refusal(o, room) {
        Err(number) => {
            let nothing = Opening {
                frame: 0,
                payload: 0,
                framing: 0,
                kind: HeaderKind::Old,
            };
            Opened {
                session: with(nothing, true),
                start: Err(number),
            }
        }
        Ok(()) => Opened {
            session: with(o, false),
            start: Ok(()),
        },
    }
}

// The ledger, with the frame under way in its account.
pub fn ledger(session: Session) -> Ledger
    ensures { result ≡ ledger_of session }
{
    let rest = session.rest;
    let numbers = session.numbers;
    let last = rest.last;
    let track = rest.track;
    let p = track.phase;
    let l = Ledger { numbers, last };
    ledger::shown(l, p)
}

// A readable transfer: its data goes straight after the frame's earlier data.
fn read(rest: Rest, m: &mut Numbers, t: &[u8], h: Header) -> Posted
    requires { (Ready (whole_of rest m.old)) × (length t.now ≤ transfer_most) × (h.len ≤ length t.now) }
    ensures m_after { taken_with result.taken m.new ≡ read_of (whole_of rest m.old) h (length t.now - h.len) }
    ensures goes { Goes (λ b. read_buffer (whole_of rest m.old) h b t.now) rest.opening.frame t.now result }
{
    let from = h.len;
    let n = t.len() - from;
    let o = rest.opening;
    let track = rest.track;
    let turn = frames::turn(track, o, h, n);
    let answer = turn.answer;
    let was = rest.last;
    ledger::entered(m, Account::Headers, from as u64);
    let last = ledger::answered(m, was, answer, turn.gone, turn.bytes);
    let next = turn.track;
    Posted {
        taken: RestTaken {
            rest: short_way::counted(rest, next, last),
            outcome: Outcome::Taken(answer),
        },
        at: turn.at,
        from,
        len: turn.len,
    }
}

// Hands out the frame under way: it is entered at once, and nothing else changes.
fn handed(rest: Rest, m: &mut Numbers) -> RestTaken
    requires { Ready (whole_of rest m.old) }
    ensures { taken_with result m.new ≡ handed_of (whole_of rest m.old) }
{
    let track = rest.track;
    let out = frames::hand_out(track);
    let frame = out.frame;
    let fate = frames::fate_for(frame);
    let d = frame.delivery;
    let was = rest.last;
    let last = ledger::fated(m, was, fate, d.len);
    let opening = rest.opening;
    let next = out.track;
    RestTaken {
        rest: Rest {
            opening,
            closed: rest.closed,
            taken: rest.taken,
            track: next,
            last,
        },
        outcome: Outcome::Handed(frame),
    }
}

// A transfer that nothing refuses.
fn met(rest: Rest, m: &mut Numbers, t: &[u8]) -> Posted
    requires { (Ready (whole_of rest m.old)) × (length t.now ≤ transfer_most) }
    ensures m_after { taken_with result.taken m.new ≡ met_of (whole_of rest m.old) t.now }
    ensures goes { Goes (λ b. met_buffer (whole_of rest m.old) b t.now) rest.opening.frame t.now result }
{
    let o = rest.opening;
    let track = rest.track;
    let was = rest.last;
    let reading = payload::read(o, t);
    match reading {
        Reading::Idle => {
            let last = ledger::fated(m, was, Fate::Idle, 0);
            unwritten(RestTaken {
                rest: short_way::counted(rest, track, last),
                outcome: Outcome::Taken(Answer {
                    ended: None,
                    fate: Fate::Idle,
                }),
            })
        }
        Reading::Unreadable(number) => {
            let last = ledger::fated(m, was, Fate::Unreadable(number), t.len() as u64);
            unwritten(RestTaken {
                rest: short_way::counted(rest, frames::spoilt(track), last),
                outcome: Outcome::Taken(Answer {
                    ended: None,
                    fate: Fate::Unreadable(number),
                }),
            })
        }
        Reading::Readable(h) => {
            if frames::hands(track, o, h) {
                return unwritten(handed(rest, m));
            }
            read(rest, m, t, h)
        }
    }
}

// The short way's answer.
fn kept(rest: Rest) -> RestTaken
    ensures { result ≡ kept_of rest }
{
    RestTaken {
        rest,
        outcome: Outcome::Taken(Answer {
            ended: None,
            fate: Fate::Kept,
        }),
    }
}

// The short way: the data is written where the buffer is lent.
fn go_on(rest: Rest, r: Run, m: &mut Numbers, room: usize, buffer: &mut [u8], t: &[u8]) -> Rest
    requires { GoesOn (whole_of rest m.old) r room t.now }
    ensures m_after { kept_with result m.new ≡ take_of (whole_of rest m.old) room t.now }
    ensures written { Written (whole_of rest m.old) room buffer.old t.now buffer.new }
{
    if buffer.len() == room {
        return short_way::keep(rest, r, m, buffer, t);
    }
    short_way::gone_on(rest, r, m, room, t)
}

// A transfer that nothing refuses: its data is written where the buffer is lent.
fn settle(rest: Rest, m: &mut Numbers, buffer: &mut [u8], t: &[u8]) -> RestTaken
    requires { (Ready (whole_of rest m.old)) × (length t.now ≤ transfer_most) × HasRoom rest.opening.frame buffer.old }
    ensures m_after { taken_with result m.new ≡ met_of (whole_of rest m.old) t.now }
    ensures buffer_after { rest.opening.frame ≤ length buffer.old → buffer.new ≡ met_buffer (whole_of rest m.old) buffer.old t.now }
{
    let posted = met(rest, m, t);
    if buffer.len() == 0 {
        return posted.taken;
    }
    let at = posted.at;
    let from = posted.from;
    let end = from + posted.len;
    copier::lay(&mut buffer[at..], at, &t[from..end]);
    posted.taken
}

// The long way, of any transfer. What refuses it is asked here as in `lost` and `close`: `short_way::refusal`, asked twice, would be a call for the short way too.
fn settle_for(rest: Rest, m: &mut Numbers, room: usize, buffer: &mut [u8], t: &[u8]) -> RestTaken
    requires { (length m.old ≡ number_count) × Lent room buffer.old }
    ensures m_after { taken_with result m.new ≡ take_of (whole_of rest m.old) room t.now }
    ensures written { Written (whole_of rest m.old) room buffer.old t.now buffer.new }
{
    let posted = rule_50::posted_broken(m, rest.taken);
    match refusals::take_refusal(posted, &rest, room, t.len()) {
        Err(number) => RestTaken {
            rest,
            outcome: Outcome::Refused(number),
        },
        Ok(()) => settle(rest, m, buffer, t),
    }
}

// Inner: takes one transfer, for a buffer of so much room. What is lent is that buffer, or one of no bytes: then nothing is written.
// A refused call changes no byte of the buffer and no number, and gives the rest back as it was. The type of the numbers says how many there are, here and below.
pub fn take_for(rest: Rest, m: &mut Numbers, room: usize, buffer: &mut [u8], t: &[u8]) -> RestTaken
    requires { (length m.old ≡ number_count) × Lent room buffer.old }
    ensures m_after { taken_with result m.new ≡ take_of (whole_of rest m.old) room t.now }
    ensures written { Written (whole_of rest m.old) room buffer.old t.now buffer.new }
{
    if let Phase::Under(r) = rest.track.phase {
        if going_on::goes_on(rest.opening, r, t)
            && short_way::refusal(&rest, m, room, t.len()).is_ok()
        {
            return kept(go_on(rest, r, m, room, buffer, t));
        }
    }
    settle_for(rest, m, room, buffer, t)
}

// Inner: takes one transfer.
pub fn take(rest: Rest, m: &mut Numbers, buffer: &mut [u8], t: &[u8]) -> RestTaken
    requires { length m.old ≡ number_count }
    ensures m_after { taken_with result m.new ≡ take_of (whole_of rest m.old) (length buffer.old) t.now }
    ensures buffer_after { buffer.new ≡ buffer_of (whole_of rest m.old) buffer.old t.now }
{
    take_for(rest, m, buffer.len(), buffer, t)
}

// Inner: the same with the buffer's length as a number: it writes nothing.
pub fn count(rest: Rest, m: &mut Numbers, room: usize, t: &[u8]) -> RestTaken
    requires { length m.old ≡ number_count }
    ensures { taken_with result m.new ≡ take_of (whole_of rest m.old) room t.now }
{
    let mut none = [0u8; 0];
    take_for(rest, m, room, &mut none, t)
}

// Inner: the host reports a lost transfer.
pub fn lost(rest: Rest, m: &mut Numbers) -> RestReported
    requires { length m.old ≡ number_count }
    ensures { reported_with result m.new ≡ lost_of (whole_of rest m.old) }
{
    let posted = rule_50::posted_broken(m, rest.taken);
    match refusals::lost_refusal(posted, &rest) {
        Err(number) => RestReported {
            rest,
            report: Err(number),
        },
        Ok(()) => {
            ledger::plus(m, Ledger::LOST, 1);
            RestReported {
                rest: Rest {
                    taken: rest.taken + 1,
                    track: frames::spoilt(rest.track),
                    ..rest
                },
                report: Ok(()),
            }
        }
    }
}

// Inner: ends a frame under way, and the session.
pub fn close(rest: Rest, m: &mut Numbers) -> RestClosed
    requires { length m.old ≡ number_count }
    ensures { closed_with result m.new ≡ close_of (whole_of rest m.old) }
{
    let posted = rule_50::posted_broken(m, rest.taken);
    match refusals::close_refusal(posted, &rest) {
        Err(number) => RestClosed {
            rest,
            closing: Err(number),
        },
        Ok(()) => {
            let shut = frames::shut(rest.track);
            ledger::ended(m, shut.ended, shut.gone);
            RestClosed {
                rest: Rest {
                    closed: true,
                    track: shut.track,
                    ..rest
                },
                closing: Ok(shut.ended),
            }
        }
    }
}
