// The sources of one entity: whether one names nothing, whether one names an output terminal, and the places that they name.
ghost use Rattle.std.specs.Prelude.{◌≡◌, true, ◌↔◌, ℕ, ◌<◌, ◌≤◌, None, Some};
ghost use Rattle.bits.specs.Bits.{Bit};
ghost use Rattle.entities.specs.Table.{entities_most, output_terminal, used, entity_at};
ghost use Rattle.control_rules.specs.Descriptors.{kind_of, source_count, source_place};
ghost use Rattle.sources.specs.Links.{LinksOf};

use entities::{Entity, OUTPUT_TERMINAL, Table};

#[derive(Drop)]
pub struct Links {
    pub lost: bool,
    pub output: bool,
    // Bit j is set where a source names the entity at j.
    pub row: u32,
}

// Inner: the table says no more than it has places.
pub fn gather(s: &[u8], t: Table, e: Entity) -> Links
    requires { t.count ≤ entities_most }
    ensures { LinksOf s.now (used t) e result.lost result.output result.row }
{
    let all = t.entities;
    let kind = e.kind;
    let at = e.offset as usize;
    let count = source_count(s, at, kind);
    let place = at + source_place(kind);
    let mut lost = false;
    let mut output = false;
    let mut row: u32 = 0;
    for q in 0..count {
        let f = entities::find_among(all, t.count, le::byte_at(s, place + q));
        lost = lost | f.is_none();
        output = output | names_output(t, f);
        row = row | place_bit(f);
    }
    Links { lost, output, row }
}

fn names_output(t: Table, f: Option<usize>) -> bool
    requires { ((j : ℕ) → f ≡ Some j → j < t.count) × (t.count ≤ entities_most) }
    ensures { (result ≡ true) ↔ ((j : ℕ) × (f ≡ Some j) × ((entity_at (used t) j).kind ≡ output_terminal)) }
{
    match f {
        None => false,
        Some(j) => {
            let e = t.entities[j];
            e.kind == OUTPUT_TERMINAL
        }
    }
}

fn place_bit(f: Option<usize>) -> u32
    requires { (j : ℕ) → f ≡ Some j → j < entities_most }
    ensures { (j : ℕ) → Bit result j ↔ (f ≡ Some j) }
{
    match f {
        None => 0,
        Some(j) => 1u32 << j,
    }
}

// How many sources the descriptor at `at` has, by its subtype.
fn source_count(s: &[u8], at: usize, kind: u8) -> usize
    requires { at < 65536 }
    ensures { (result ≡ source_count (kind_of kind) s.now at) × (result < 256) }
{
    match kind {
        3 => 1,
        4 => le::wide(le::byte_at(s, at + 4)),
        5 => 1,
        6 => le::wide(le::byte_at(s, at + 21)),
        7 => 1,
        _ => 0,
    }
}

// Where the first of them stands in it.
fn source_place(kind: u8) -> usize
    ensures { (result ≡ source_place (kind_of kind)) × (result < 23) }
{
    match kind {
        3 => 7,
        4 => 5,
        5 => 4,
        6 => 22,
        7 => 4,
        _ => 0,
    }
}
