// A stream that comes in reads of any size, cut into records of one size. What is left over waits at the front of a lent piece.
#![tactic(auto)]

ghost use Rattle.std.specs.Prelude.{◌≡◌, ◌-◌, ◌%◌, ◌≤◌, ◌<◌, length, take};
ghost use Rattle.std.proofs.Math.Seq.{paste};
ghost use Rattle.cuts.specs.Cuts.{least_of, next_of};

// Inner: as much of the input as the piece has room for behind its first bytes; answers how much that is.
pub fn fill(piece: &mut [u8], have: usize, input: &[u8]) -> usize
    requires { have ≤ length piece.old }
    ensures value { result ≡ least_of (length input.now) (length piece.old - have) }
    ensures piece_after { piece.new ≡ paste piece.old have (take result input.now) result }
{
    let n = input.len().min(piece.len() - have);
    copier::put(piece, have, &input[0..n]);
    n
}

// Inner: where the whole records end that begin at `from`.
pub fn end(size: usize, from: usize, len: usize) -> usize
    requires { (0 < size) × (from ≤ len) }
    ensures { result ≡ len - (len - from) % size }
{
    len - (len - from) % size
}

// Inner: where the record ends that begins at `at`.
pub fn next(size: usize, at: usize, len: usize) -> usize
    requires { at ≤ len }
    ensures { result ≡ next_of size at len }
{
    if len - at < size {
        return len;
    }
    at + size
}
