// A refusal's number in plain words, for a C host: a text that ends with a zero.
#![tactic(auto)]

ghost use Rattle.std.specs.Prelude.{◌≡◌};
ghost use Rattle.host_words.specs.Words.{length_in, left_in};

// The bytes that a room must have: the longest words, and the zero.
const ROOM: usize = 72;

// Writes a number's words and a zero behind them, and answers their length without it. 0, and the room as it was, where the number has no words or the room is under 72 bytes.
#[unsafe(no_mangle)]
pub extern "C" fn palkodhen_words(number: u32, room: &mut [u8]) -> usize
    ensures value { result ≡ length_in number room.old }
    ensures room_after { room.new ≡ left_in number room.old }
{
    if room.len() < ROOM {
        return 0;
    }
    if 255 < number {
        return 0;
    }
    let end = refusal_words::put(room, 0, number as u8);
    if end == 0 {
        return 0;
    }
    room[end - 1] = 0;
    end - 1
}
