// What a call answers, and a session's record, in words.
use cases::print;
use session_rules::{
    Answer, Delivery, Ended, Fate, HandOut, Layer, Ledger, Numbers, Phase, Reason, Run, Session,
    Stamp,
};
use sizes::HeaderKind;

pub fn refused(number: u8) {
    print::text(b"refused");
    print::field(number as u64);
}

pub fn answer(a: Answer) {
    print::text(b"taken ended");
    let e = a.ended;
    ended(e);
    print::text(b" fate");
    let f = a.fate;
    fate(f);
}

pub fn handed(x: HandOut) {
    print::text(b"handed");
    if x.still {
        print::text(b" still");
    } else {
        print::text(b" delivered");
    }
    let d = x.delivery;
    delivery(d);
}

pub fn ended(e: Ended) {
    match e {
        None => print::text(b" none"),
        Some(why) => reason(why),
    }
}

fn reason(why: Reason) {
    match why {
        Reason::Gap => print::text(b" gap"),
        Reason::Error => print::text(b" error"),
        Reason::Clock => print::text(b" clock"),
        Reason::Mixed => print::text(b" mixed"),
        Reason::Long => print::text(b" long"),
        Reason::Cut => print::text(b" cut"),
        Reason::Empty => print::text(b" empty"),
    }
}

fn fate(f: Fate) {
    match f {
        Fate::Idle => print::text(b" idle"),
        Fate::Kept => print::text(b" kept"),
        Fate::Stray => print::text(b" stray"),
        Fate::Delivered(d) => {
            print::text(b" delivered");
            delivery(d);
        }
        Fate::Still(d) => {
            print::text(b" still");
            delivery(d);
        }
        Fate::Dropped(why) => {
            print::text(b" dropped");
            reason(why);
        }
        Fate::Unreadable(number) => {
            print::text(b" unreadable");
            print::field(number as u64);
        }
    }
}

fn delivery(d: Delivery) {
    print::field(d.len);
    let s = d.stamp;
    stamp(s);
    let l = d.layer;
    layer(l);
}

fn stamp(s: Stamp) {
    match s {
        None => print::text(b" -"),
        Some(x) => print::word(x),
    }
}

fn layer(l: Layer) {
    match l {
        None => print::text(b" -"),
        Some(x) => print::half(x),
    }
}

pub fn ledger(l: Ledger) {
    let numbers = l.numbers;
    each(numbers);
}

fn each(numbers: Numbers) {
    let mut buf = [0u8; 7 + 21 * Ledger::NUMBERS];
    let n = text::line(&mut buf, 0, b"ledger", &numbers);
    print::front(&buf, n);
}

// All but the ledger: sizes, framing byte, header kind, closed, transfers taken, last stamp, gap flag, and where it is.
pub fn record(s: Session) {
    let rest = s.rest;
    let o = rest.opening;
    print::text(b"record");
    print::field(o.frame as u64);
    print::field(o.payload as u64);
    print::byte(o.framing);
    let kind = o.kind;
    match kind {
        HeaderKind::Old => print::text(b" old"),
        HeaderKind::Vp8 => print::text(b" vp8"),
    }
    flag(rest.closed);
    print::word(rest.taken);
    let last = rest.last;
    stamp(last);
    let track = rest.track;
    flag(track.gap);
    let p = track.phase;
    phase(p);
    print::end();
}

fn phase(p: Phase) {
    match p {
        Phase::Fresh => print::text(b" fresh"),
        Phase::Past(fid) => {
            print::text(b" past");
            flag(fid);
        }
        Phase::Under(r) => under(r),
    }
}

fn under(r: Run) {
    print::text(b" under");
    flag(r.fid);
    flag(r.still);
    let f = r.fault;
    match f {
        None => print::text(b" sound"),
        Some(why) => reason(why),
    }
    print::field(r.bytes);
    print::field(r.fill as u64);
    let s = r.stamp;
    stamp(s);
    let l = r.layer;
    layer(l);
}

// Yes and no as 1 and 0.
fn flag(b: bool) {
    if b {
        print::text(b" 1");
    } else {
        print::text(b" 0");
    }
}
