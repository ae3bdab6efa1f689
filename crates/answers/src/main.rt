// Answers cases from standard input, each in full: what a second reader is compared with.
//
// A case is a byte that names its kind, and what follows. Numbers are little-endian; a part is a length of four bytes and that many bytes.
//   C control    part block
//   M map        part block, byte ID
//   N whole map  as M, and after it the map's length, whether the places behind it are zero, and the block's revision
//   S streaming  part control block, part streaming block: the table of a refused control block is used all the same
//   H hostile    byte count, byte revision, 32 entities (byte ID, byte kind, two bytes type, two bytes offset), part streaming block
//   P check      part control block, part streaming block, part probe block
//   W write      byte revision, part probe block, part room: read, and what was read is written into the room
//   D configuration  part configuration: its reading, with the settings of each streaming interface
//   K pick       part configuration, byte interface number, four bytes payload size
//   T calls      four bytes frame size, four bytes payload size, byte framing, byte header kind (1 VP8, any other old), part buffer,
//                four bytes number of calls, and each call: byte 0 and part transfer, byte 1 (lost), byte 2 (close)
//   E whole      as T, and after it the session's record (shown.rt)
//   B room       as E, with four bytes length of the room, up to 16,777,300, in place of the buffer: zeros, and its hash after the last four calls alone
//   F forged     session record (forged.rt), part buffer, part transfer: which of take, lost and close are refused on this record
//   G calls from a record   session record, part buffer, number of calls and the calls as in T: told as in E, without the opening
//   R record     part ledger's record, the rest of a session (the session record without its numbers), part buffer, and a call as in T: what the call
//                leaves of the record and the rest
//   Y sender     the receiver's sizes, framing and header kind as in T, four bytes length of its room, up to 70,000: zeros; four bytes the sender's payload size,
//                four bytes length of the room that is lent to each `send`, up to 65,600: zeros at first; four bytes number of frames, and each frame:
//                byte next (0 not, any other: the sender goes on before it), byte stamp present, four bytes stamp, part bytes. Each call of the sender is
//                told with the hash of its room, a transfer with what the receiver answers, as in T; after the last it is asked once more
//   L trace      byte form (0 short, any other long), byte show (1 replay, 2 frames, 3 convert, any other ledger), four bytes frame size, four bytes
//                payload size, four bytes size of each read (at least 1 and at most 4,096 are taken), part trace: the text that the program prints of it; of
//                convert, which has no sizes and reads short records, how many bytes it writes, their hash, and where it stops
//   U settings   byte 0 build: part control block, bytes interface, unit, setting (0 brightness, 1 contrast, 2 hue, 3 saturation), request
//                (0 get_cur, 1 get_min, 2 get_max, 3 get_res, 4 get_def, 5 set_cur), part room
//                byte 1 read: part control block, byte interface, part bytes
//                byte 2 nearest: byte setting, two bytes each minimum, maximum, step and wanted
// A case that is cut short, a part that is too long and an unknown kind end the run with one line.
#![tactic(auto)]

use block_cases::{descriptors, probes};
use call_cases::{calls, forged, recorded, rooms};
use cases::{input, print};

fn case(kind: u8) -> bool {
    match kind {
        b'C' => descriptors::control(),
        b'M' => descriptors::map(),
        b'N' => descriptors::whole_map(),
        b'S' => descriptors::streaming(),
        b'H' => descriptors::hostile(),
        b'P' => probes::check(),
        b'W' => probes::write(),
        b'D' => configuration_cases::configuration(),
        b'K' => configuration_cases::pick(),
        b'T' => calls::plain(),
        b'E' => calls::whole(),
        b'B' => rooms::run(),
        b'F' => forged::plain(),
        b'G' => forged::whole(),
        b'R' => recorded::run(),
        b'Y' => sender_cases::run(),
        b'L' => trace_cases::run(),
        b'U' => setup_cases::run(),
        _ => {
            print::text(b"unknown kind\n");
            false
        }
    }
}

fn main() {
    // A proved loop has to end, and nothing says that the input does: no run uses this number up.
    for before in 0..u64::MAX {
        let Some(kind) = input::kind() else {
            return;
        };
        print::text(b"case");
        print::field(before + 1);
        print::end();
        if !case(kind) {
            return;
        }
    }
}
