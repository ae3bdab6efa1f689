// The sizes that a probe block may ask for and a session may be opened with (45 and 46), named once, and what an opening is.
#![tactic(auto)]

ghost use Rattle.std.specs.Prelude.{◌≡◌};
ghost use Rattle.sizes.specs.Sizes.{frame_size_broken, payload_size_broken};
ghost use Rattle.sizes.specs.Framing.{by_eof};

pub const FRAME_MOST: usize = 16_777_216;

pub const PAYLOAD_LEAST: usize = 2;

pub const PAYLOAD_MOST: usize = 65_536;

// The bit of the framing byte that says that EOF may be present.
const EOF_PRESENT: u8 = 1;

// How a camera's payload headers are laid out: as USB Video Class 1.5 has them, or as its VP8 payload has.
#[derive(Clone, Copy)]
pub enum HeaderKind {
    Old,
    Vp8,
}

// What a session is opened with, passed whole: the negotiated frame size and payload size, the probe block's framing byte, and the header kind.
#[derive(Clone, Copy)]
pub struct Opening {
    pub frame: usize,
    pub payload: usize,
    pub framing: u8,
    pub kind: HeaderKind,
}

// D1 of the framing byte: frames end by EOF. With D1 clear EOF is ignored, and a frame ends where the FID turns.
pub fn by_eof(o: Opening) -> bool
    ensures { result ≡ by_eof o }
{
    (o.framing >> EOF_PRESENT) & 1 == 1
}

// 45: the frame size is 0 or over 16,777,216.
#[tactic(auto, unfolding(crate::specs::Sizes::frame_size_broken))]
pub fn frame_size_broken(n: usize) -> bool
    ensures { result ≡ frame_size_broken n }
{
    n == 0 || FRAME_MOST < n
}

// 46: the payload size is under 2 or over 65,536.
#[tactic(auto, unfolding(crate::specs::Sizes::payload_size_broken))]
pub fn payload_size_broken(n: usize) -> bool
    ensures { result ≡ payload_size_broken n }
{
    n < PAYLOAD_LEAST || PAYLOAD_MOST < n
}
