// Each file is a frame: its transfers are written as records, one by one.
ghost use Rattle.std.specs.Prelude.{◌≡◌, length};
ghost use Rattle.long_records.specs.Long.{long_size, data_most};

use console::{files, print, status};
use sender::{Sender, Sending};
use session_rules::Stamp;
use std::io::{Error, Print};
use std::rt::Runtime;

const STDOUT_FILENO: i32 = 1;

const STDERR_FILENO: i32 = 2;

// What became of a frame.
#[derive(Drop)]
enum Went {
    Sent,
    // 80 or 81.
    Refused(u8),
    NotWritten(Error),
}

// One byte more than a frame may have shows a file that is too long. It is on the stack, which is to be as large: `ulimit -s 32768`.
fn no_frame() -> [u8; 16_777_217]
    ensures { 16777217 ≡ length result }
{
    [0; 16_777_217]
}

fn no_room() -> [u8; 3072]
    ensures { 3072 ≡ length result }
{
    [0; 3072]
}

fn no_record() -> [u8; 3076]
    ensures { 3076 ≡ length result }
{
    [0; 3076]
}

// The transfers of one frame, to its last.
fn one<R: Print>(
    rt: &R,
    first: Sender,
    frame: &[u8],
    payload: usize,
    stamp: Stamp,
    room: &mut [u8],
    out: &mut [u8],
) -> Went
    requires { (length room.old ≡ data_most) × (length out.old ≡ long_size) }
{
    let mut x = first;
    // A proved loop has to end: each call sends a byte or more, and a frame has no more than this.
    for _ in 0..16_777_217u32 {
        let sent = send_records::next(x, frame, payload, stamp, room, out);
        x = sent.sender;
        let sending = sent.sending;
        match sending {
            Sending::Refused(number) => {
                return Went::Refused(number);
            }
            Sending::Done => {
                return Went::Sent;
            }
            Sending::Wrote(_) => {
                if let Err(error) = rt.write_all(out) {
                    return Went::NotWritten(error);
                }
            }
        }
    }
    Went::Sent
}

// One byte FF behind what was written, so that a trace which breaks off does not pass for a whole one.
fn break_off() {
    let stop = [255u8];
    io::write_all(STDOUT_FILENO, &stop);
}

// The number and its words.
fn refused(number: u8) {
    let mut text = io::buffer();
    let n = ledger_text::shut(&mut text, number);
    io::write_all(STDERR_FILENO, &text[..n]);
    status::refused();
}

fn close<R: Print>(rt: &R, out: &mut [u8])
    requires { length out.old ≡ long_size }
{
    long_records::write(out, 0, 2, b"");
    match rt.write_all(out) {
        Ok(()) => status::answered(),
        Err(error) => print::not_written(&error),
    }
}

fn stamp_of(stamped: bool, ticks: u32) -> Stamp {
    if stamped {
        return Some(ticks);
    }
    None
}

fn is_sent(went: Went) -> bool {
    match went {
        Went::Sent => true,
        Went::Refused(number) => {
            refused(number);
            false
        }
        Went::NotWritten(error) => {
            print::not_written(&error);
            false
        }
    }
}

// The files of the arguments from `first` on; whether all were sent.
fn frames(
    rt: &impl Runtime,
    payload: usize,
    stamped: bool,
    ticks: u32,
    first: usize,
    count: usize,
    buffer: &mut [u8],
    room: &mut [u8],
    out: &mut [u8],
) -> bool
    requires { (length room.old ≡ data_most) × (length out.old ≡ long_size) }
{
    let mut x = Sender::new();
    let mut stamp: u32 = 0;
    for i in first..count {
        let Some(n) = files::load(rt, i, buffer) else {
            return false;
        };
        let went = one(
            rt,
            x,
            &buffer[..n],
            payload,
            stamp_of(stamped, stamp),
            room,
            out,
        );
        if !is_sent(went) {
            return false;
        }
        x = x.next();
        stamp = send_records::later(stamp, ticks);
    }
    true
}

pub fn all(
    rt: &impl Runtime,
    payload: usize,
    stamped: bool,
    ticks: u32,
    first: usize,
    count: usize,
) {
    let mut buffer = no_frame();
    let mut room = no_room();
    let mut out = no_record();
    if frames(
        rt,
        payload,
        stamped,
        ticks,
        first,
        count,
        &mut buffer,
        &mut room,
        &mut out,
    ) {
        close(rt, &mut out);
    } else {
        break_off();
    }
}
