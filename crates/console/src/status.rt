// What the launcher hands on as its own status: one digit, written to the descriptor that it opened for it. Where that is not open nothing happens.
const STATUS_FILENO: i32 = 3;

pub fn answered() {
    io::write_all(STATUS_FILENO, b"0");
}

// A refusal, or a bad record.
pub fn refused() {
    io::write_all(STATUS_FILENO, b"1");
}

// A wrong call, a file that can't be read, or output that can't be written.
pub fn failed() {
    io::write_all(STATUS_FILENO, b"2");
}
