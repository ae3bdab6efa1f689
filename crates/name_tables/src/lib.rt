// Tables of names: one byte string, each name on a line of its own. One loop finds a name, and one prints a line for each.
#![tactic(auto)]

ghost use Rattle.std.specs.Prelude.{◌+◌, ◌*◌, ◌≤◌, length};
ghost use Rattle.text.specs.Put.{Put};
ghost use Rattle.text.specs.Text.{line as Text·line, lines as Text·lines};
ghost use Rattle.name_tables.specs.Tables.{name_at, rows_of, Enough};
ghost use Rattle.name_tables.specs.Inner.{Ends, Begins};

// Where the name that begins at `from` ends: at the first line end, or with the table.
fn end(names: &[u8], from: usize) -> usize
    requires { from ≤ length names.now }
    ensures { Ends names.now from result }
{
    for i in from..names.len() {
        if names[i] == b'\n' {
            return i;
        }
    }
    names.len()
}

// Where the k-th name begins, from 0 on; the table's end where it has fewer.
fn begin(names: &[u8], k: usize) -> usize
    ensures { Begins names.now k result }
{
    let mut at = 0;
    for _i in 0..k {
        let to = end(names, at);
        if to == names.len() {
            return to;
        }
        at = to + 1;
    }
    at
}

// Inner: a line: the k-th name from 0 on, and the numbers. The name is empty where the table has fewer.
pub fn line(buf: &mut [u8], at: usize, names: &[u8], k: usize, ns: &[u64]) -> usize
    requires { at + length (name_at k names.now) + 21 * length ns.now + 1 ≤ length buf.old }
    ensures { Put buf.old at (Text·line (name_at k names.now) ns.now) result buf.new }
{
    let from = begin(names, k);
    let to = end(names, from);
    text::line(buf, at, &names[from..to], ns)
}

// Inner: a line for each name: the i-th has counts[i] numbers, which are taken from the front.
pub fn lines(buf: &mut [u8], start: usize, names: &[u8], counts: &[usize], ns: &[u64]) -> usize
    requires { Enough names.now counts.now (length ns.now) × (start + length names.now + 21 * length ns.now ≤ length buf.old) }
    ensures put { Put buf.old start (Text·lines (rows_of names.now counts.now) ns.now) result buf.new }
    ensures upper_bound { result ≤ start + length names.now + 21 * length ns.now }
{
    let mut at = start;
    let mut name = 0;
    let mut from = 0;
    for count in counts {
        let named = end(names, name);
        let to = from + *count;
        at = text::line(buf, at, &names[name..named], &ns[from..to]);
        name = named + 1;
        from = to;
    }
    at
}
