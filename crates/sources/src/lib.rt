// Rules 13 to 15: what the sources of a block's entities name.
#![tactic(auto)]

mod links;

ghost use Rattle.std.specs.Prelude.{◌≡◌, ◌&&◌, not, ◌+◌, ◌≤◌, eqb};
ghost use Rattle.rules.specs.IfElse.{if_else};
ghost use Rattle.entities.specs.Table.{entities_most, used};
ghost use Rattle.sources.specs.Sources.{Judged};

use entities::Table;
use graph::PLACES;
use rules::{Refused, Verdict};

// Inner: the table is that of a block that was walked, so it says no more than it has places.
// 13, then 14, then 15, each at the first entity in block order that breaks it.
pub fn judge(s: &[u8], t: Table) -> Verdict
    requires { t.count ≤ entities_most }
    ensures { Judged s.now (used t) result }
{
    let n = t.count;
    let mut rows = [0u32; PLACES];
    let mut output: usize = 0;
    for i in 0..n {
        let e = t.entities[i];
        let l = links::gather(s, t, e);
        if l.lost {
            return Err(Refused {
                number: 13,
                offset: e.offset as usize,
            });
        }
        rows[i] = l.row;
        output = first_of(output, i, l.output);
    }
    if output < n {
        let e = t.entities[output];
        return Err(Refused {
            number: 14,
            offset: e.offset as usize,
        });
    }
    let start = graph::first_loop(rows);
    if start < n {
        let e = t.entities[start];
        return Err(Refused {
            number: 15,
            offset: e.offset as usize,
        });
    }
    Ok(())
}

// The first place of those up to and with i that breaks a rule, or i + 1: `first` is that of those before i.
#[tactic(auto, unfolding(rules::specs::IfElse::if_else))]
fn first_of(first: usize, i: usize, broken: bool) -> usize
    requires { i ≤ entities_most }
    ensures { result ≡ if_else (eqb first i && not broken) (i + 1) first }
{
    if first == i && !broken { i + 1 } else { first }
}
