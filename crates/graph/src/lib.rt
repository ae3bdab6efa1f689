// Chains in a graph of `PLACES` places, whose edges are drawn as rows of bits: bit j of row i is the edge from i to j.
#![tactic(auto)]

ghost use Rattle.std.specs.Prelude.{◌≡◌, ◌↔◌, ℕ, ◌<◌, length};
ghost use Rattle.rules.specs.Chain.{Chain, FirstLoop};
ghost use Rattle.bits.specs.Bits.{has_bit};
ghost use Rattle.graph.specs.Rows.{places, Edge, Through};

// The places of a graph, and the bits of a row.
pub const PLACES: usize = 32;

// The first place on a loop, or `PLACES`. (No Option: `FirstLoop` is of a number.)
pub fn first_loop(rows: [u32; PLACES]) -> usize
    ensures { FirstLoop (Edge rows) places result }
{
    let mut m = rows;
    close(&mut m);
    for (i, x) in m.iter().enumerate() {
        if bit(*x, i) {
            return i;
        }
    }
    PLACES
}

// The rows become the chains: one round for each place that a chain may lead through.
fn close(m: &mut [u32; PLACES])
    requires { length m.old ≡ places }
    ensures m_len { length m.new ≡ places }
    ensures by_index { (i j : ℕ) → Edge m.new i j ↔ Chain (Edge m.old) i j }
{
    for k in 0..PLACES {
        if m[k] != 0 {
            round(m, k);
        }
    }
}

// Each row that leads to k takes in row k.
fn round(m: &mut [u32; PLACES], k: usize)
    requires { (k < places) × (length m.old ≡ places) }
    ensures m_len { length m.new ≡ places }
    ensures by_index { (i j : ℕ) → Edge m.new i j ↔ Through (Edge m.old) k i j }
{
    for i in 0..PLACES {
        let x = m[i];
        if bit(x, k) {
            m[i] = x | m[k];
        }
    }
}

fn bit(x: u32, j: usize) -> bool
    requires { j < places }
    ensures { result ≡ has_bit x j }
{
    bits::has(x as u64, j)
}
