// The lines that are printed.
ghost use Rattle.std.specs.Prelude.{◌≤◌, length};

const STDOUT_FILENO: i32 = 1;

pub fn text(bytes: &[u8]) {
    io::write_all(STDOUT_FILENO, bytes);
}

pub fn end() {
    text(b"\n");
}

// A space and the number.
pub fn field(n: u64) {
    text(b" ");
    io::print_decimal(STDOUT_FILENO, n);
}

pub fn byte(n: u8) {
    field(n as u64);
}

pub fn half(n: u16) {
    field(n as u64);
}

pub fn word(n: u32) {
    field(n as u64);
}

// Inner: the first n bytes.
pub fn front(bytes: &[u8], n: usize)
    requires { n ≤ length bytes.now }
{
    text(&bytes[..n]);
}

// Inner: a name, a number, and the line's end.
pub fn line(name: &[u8], n: u64)
    requires { length name.now ≤ 40 }
{
    let mut buf = [0u8; 64];
    let ns = [n];
    let m = text::line(&mut buf, 0, name, &ns);
    front(&buf, m);
}

pub fn rest(zero: bool) {
    if zero {
        text(b"rest zero\n");
    } else {
        text(b"rest set\n");
    }
}

// Bytes in hexadecimal.
pub fn hex(name: &[u8], bytes: &[u8]) {
    text(name);
    text(b" ");
    for b in bytes {
        io::print_hex(STDOUT_FILENO, *b as u64, 2);
    }
    end();
}

// A hash of the bytes, as it ends a line.
pub fn hash(bytes: &[u8]) {
    let h = hashed(2166136261, bytes);
    text(b" hash");
    field(h);
    end();
}

// The hash of some bytes, from that of all before them: times 16,777,619 plus the byte, modulo 2^32. That of none is 2,166,136,261.
pub fn hashed(from: u64, bytes: &[u8]) -> u64 {
    let mut h: u64 = from % 4294967296;
    for b in bytes {
        h = (h * 16777619 + *b as u64) % 4294967296;
    }
    h
}
