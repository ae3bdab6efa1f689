// The types of a session: a transfer as it is read, the frame under way, the ledger and the session record. What each call makes of them stands in specs/;
// the code stands in the crates above.
#![tactic(auto)]

ghost use Rattle.std.specs.Prelude.{◌≡◌};
ghost use Rattle.session_rules.specs.Ledger.{no_ledger};

use sizes::Opening;

// What differs between the kinds of header: the bytes of one with no field, the bit that says end of header, whether D5 marks a still, whether D7 announces a
// layer, and whether a PTS has to be there.
#[derive(Clone, Copy)]
pub struct Layout {
    pub least: usize,
    pub ends: u8,
    pub stills: bool,
    pub layered: bool,
    pub timed: bool,
}

// A presentation time, or none.
pub type Stamp = Option<u32>;

// A layer field, or none.
pub type Layer = Option<u16>;

// A readable header: its length, D0, D1, D5, D6, its stamp and its layer.
#[derive(Clone, Copy)]
pub struct Header {
    pub len: usize,
    pub fid: bool,
    pub eof: bool,
    pub still: bool,
    pub error: bool,
    pub stamp: Stamp,
    pub layer: Layer,
}

#[derive(Drop)]
pub enum Reading {
    Idle,
    // The number, 61 to 67.
    Unreadable(u8),
    Readable(Header),
}

// Why a frame was not delivered. The first five are faults.
#[derive(Clone, Copy)]
pub enum Reason {
    Gap,
    Error,
    Clock,
    Mixed,
    Long,
    Cut,
    Empty,
}

// The earliest fault of a frame, or none.
pub type Fault = Option<Reason>;

// A frame under way: its data so far, how much of it is written, its first stamp, its run's FID, its first transfer's still
// bit, its earliest fault, and its last layer.
#[derive(Clone, Copy)]
pub struct Run {
    pub bytes: u64,
    pub fill: usize,
    pub stamp: Stamp,
    pub fid: bool,
    pub still: bool,
    pub fault: Fault,
    pub layer: Layer,
}

#[derive(Clone, Copy)]
pub enum Phase {
    // No readable transfer yet.
    Fresh,
    // In a frame.
    Under(Run),
    // After a frame, in a run of this FID.
    Past(bool),
}

#[derive(Clone, Copy)]
pub struct Track {
    pub phase: Phase,
    // An unreadable or lost transfer came since the last readable one.
    pub gap: bool,
}

// Why the frame that a transfer's FID, or close, ended was not delivered; none where none was ended.
pub type Ended = Option<Reason>;

// The length, stamp and layer of a delivered frame or still.
#[derive(Clone, Copy)]
pub struct Delivery {
    pub len: u64,
    pub stamp: Stamp,
    pub layer: Layer,
}

// What became of the transfer itself. Kept: the frame is still under way, faulted or not.
#[derive(Clone, Copy)]
pub enum Fate {
    Idle,
    Kept,
    Stray,
    Delivered(Delivery),
    Still(Delivery),
    Dropped(Reason),
    // The number, 61 to 67.
    Unreadable(u8),
}

#[derive(Clone, Copy)]
pub struct Answer {
    pub ended: Ended,
    pub fate: Fate,
}

// What a transfer leads to.
#[derive(Drop)]
pub struct Turn {
    pub track: Track,
    pub answer: Answer,
    // The bytes of the frame that the FID ended, and those of the transfer's own fate: its frame's, or a stray's.
    pub gone: u64,
    pub bytes: u64,
    // How much of its data is written, and where.
    pub at: usize,
    pub len: usize,
}

// A frame that is handed out before a transfer of the other FID is taken: whether it is a still, and its length, stamp and layer.
#[derive(Clone, Copy)]
pub struct HandOut {
    pub still: bool,
    pub delivery: Delivery,
}

// What handing out the frame under way leads to.
#[derive(Drop)]
pub struct Out {
    pub track: Track,
    pub frame: HandOut,
}

// What close leads to.
#[derive(Drop)]
pub struct Shut {
    pub track: Track,
    pub ended: Ended,
    pub gone: u64,
}

// The accounts, in the order of print.
#[derive(Drop)]
pub enum Account {
    Delivered,
    Gap,
    Error,
    Clock,
    Long,
    Cut,
    Empty,
    Still,
    Mixed,
    UnderWay,
    Stray,
    Unreadable,
    Headers,
}

// The signed step between two stamps: so many ticks forward, or so many backward.
#[derive(Drop)]
pub enum Step {
    Forward(u32),
    Backward(u32),
}

// The numbers in the order of print: each account's count and bytes, then lost, idle, ticks, backward and untimed.
pub type Numbers = [u64; Ledger::NUMBERS];

// The numbers, and the stamp of the last delivered frame that has one.
// What is entered is entered in place: a session lends the numbers, and none of them is copied.
#[derive(Drop)]
pub struct Ledger {
    pub numbers: Numbers,
    pub last: Stamp,
}

impl Ledger {
    // The limits: bytes of one transfer, transfers taken, and ticks of one step.
    pub const BYTES: u64 = 65536;

    pub const TRANSFERS: u32 = 4294967295;

    pub const TICKS: u64 = 2147483648;

    // Stamps are taken modulo 2^32.
    pub const STAMPS: u64 = 4294967296;

    // How many accounts there are, and the place of the one of the frame under way.
    pub const ACCOUNTS: usize = 13;

    pub const UNDER_WAY: usize = 9;

    // Where the counts stand that are no accounts, and how many numbers and lines of print there are.
    pub const LOST: usize = 2 * Ledger::ACCOUNTS;

    pub const IDLE: usize = Ledger::LOST + 1;

    pub const RUNNING: usize = Ledger::LOST + 2;

    pub const BACKWARD: usize = Ledger::LOST + 3;

    pub const UNTIMED: usize = Ledger::LOST + 4;

    pub const NUMBERS: usize = Ledger::LOST + 5;

    pub const LINES: usize = Ledger::ACCOUNTS + 5;

    // A fresh ledger is all zero.
    pub fn new() -> Self
        ensures { result ≡ no_ledger }
    {
        let numbers = [0u64; Ledger::NUMBERS];
        Ledger {
            numbers,
            last: None,
        }
    }
}

// A session record, in two parts: taking it apart is access to a field.
#[derive(Clone, Copy)]
pub struct Session {
    pub rest: Rest,
    // What is posted so far; the frame under way is in the track.
    pub numbers: Numbers,
}

// All but the ledger's numbers.
#[derive(Clone, Copy)]
pub struct Rest {
    pub opening: Opening,
    pub closed: bool,
    // Transfers taken: idle, unreadable and lost ones too.
    pub taken: u32,
    pub track: Track,
    // The stamp of the last delivered frame that has one.
    pub last: Stamp,
}

// Opened, or refused by 45, 46 or 47.
pub type Start = Result<(), u8>;

// Opened, Taken, Reported and Closed stay four structs: OpenWhen, TakeWhen, LostWhen and CloseWhen (specs/WhenRefused) speak of their fields.
#[derive(Drop)]
pub struct Opened {
    pub session: Session,
    pub start: Start,
}

#[derive(Clone, Copy)]
pub enum Outcome {
    // 50, 53, 52, 51 or 55.
    Refused(u8),
    Taken(Answer),
    // With D1 of the framing byte clear: the frame under way is handed out, its bytes stand at the buffer's start, and the transfer is not taken. Offer it again.
    Handed(HandOut),
}

#[derive(Drop)]
pub struct Taken {
    pub session: Session,
    pub outcome: Outcome,
}

// Noted, or refused by 50, 53 or 52.
pub type Report = Result<(), u8>;

#[derive(Drop)]
pub struct Reported {
    pub session: Session,
    pub report: Report,
}

// What was ended, or refused by 50 or 53.
pub type Closing = Result<Ended, u8>;

#[derive(Drop)]
pub struct Closed {
    pub session: Session,
    pub closing: Closing,
}
