// The entity table of a control block: terminals and units in block order, unused places zero.
#![tactic(auto)]

ghost use Rattle.std.specs.Prelude.{◌≡◌, [], leb, take, set};
ghost use Rattle.rules.specs.IfElse.{if_else};
ghost use Rattle.rules.specs.Pad.{pad};
ghost use Rattle.entities.specs.Table.{entities_most, no_entity, found_in, found_among, no_table};
ghost use Rattle.entities.specs.Revisions.{says_of};

// Ours: the most entities of a block, and the places of its table.
pub const ENTITIES_MOST: usize = 32;

// The kinds that the rules name, by their subtype number.
pub const OUTPUT_TERMINAL: u8 = 3;

pub const PROCESSING_UNIT: u8 = 5;

pub const ENCODING_UNIT: u8 = 7;

// A terminal or a unit: its ID, its subtype number, its terminal type or 0, and where its descriptor stands. (The subtype is a number, since what each requires
// is decided by its number, with one case for everything unknown.)
#[derive(Clone, Copy)]
pub struct Entity {
    pub id: u8,
    pub kind: u8,
    pub terminal: u16,
    pub offset: u16,
}

// The revision of the class that a camera keeps to, 1.0, 1.1 or 1.5: there is no fourth.
#[derive(Clone, Copy)]
pub enum Revision {
    R10,
    R11,
    R15,
}

// What a revision says where the three differ.
#[derive(Drop)]
pub struct Says {
    // A camera terminal and a processing unit are this long, and longer by the control size.
    pub camera: usize,
    pub unit: usize,
    // The control size is from `least` to `most`.
    pub least: usize,
    pub most: usize,
    // Whether there are encoding units, of subtype 7.
    pub encoding: bool,
    // The bytes of a probe block.
    pub probe: usize,
}

// The first `count` places are used. A table is input too: it may hold anything, but for a fourth revision.
#[derive(Clone, Copy)]
pub struct Table {
    pub count: usize,
    pub entities: [Entity; ENTITIES_MOST],
    pub clock: u32,
    pub revision: Revision,
}

// The one table of what differs.
pub fn says_of(revision: Revision) -> Says
    ensures { result ≡ says_of revision }
{
    match revision {
        Revision::R10 => Says {
            camera: 15,
            unit: 9,
            least: 0,
            most: 32,
            encoding: false,
            probe: 26,
        },
        Revision::R11 => Says {
            camera: 15,
            unit: 10,
            least: 0,
            most: 32,
            encoding: false,
            probe: 34,
        },
        Revision::R15 => Says {
            camera: 15,
            unit: 10,
            least: 3,
            most: 3,
            encoding: true,
            probe: 48,
        },
    }
}

// The table of no entities, all zero; its revision is 1.5.
pub fn no_table() -> Table
    ensures { result ≡ no_table }
{
    Table {
        count: 0,
        entities: no_places(),
        clock: 0,
        revision: Revision::R15,
    }
}

// The first used place of a table whose entity carries the ID.
pub fn find(t: Table, id: u8) -> Option<usize>
    ensures { result ≡ found_in t id }
{
    let entities = t.entities;
    find_among(entities, t.count, id)
}

// The lookup, of places by value: the first of the first `count` whose entity carries the ID.
pub fn find_among(entities: [Entity; ENTITIES_MOST], count: usize, id: u8) -> Option<usize>
    ensures { result ≡ found_among entities count id }
{
    for (i, e) in entities.iter().enumerate() {
        if count <= i {
            return None;
        }
        if e.id == id {
            return Some(i);
        }
    }
    None
}

// The same over lent places, as many as a table has: a thin scan takes them apart, and the lookup goes by value.
pub fn find_lent(entities: &[Entity], count: usize, id: u8) -> Option<usize>
    ensures { result ≡ found_among (take entities_most entities.now) count id }
{
    find_placed(taken_apart(entities), entities.len(), count, id)
}

// The lookup where so many places were lent.
fn find_placed(all: [Entity; ENTITIES_MOST], places: usize, count: usize, id: u8) -> Option<usize>
    ensures { result ≡ if_else (leb places count) (found_among all places id) (found_among all count id) }
{
    if places <= count {
        return find_among(all, places, id);
    }
    find_among(all, count, id)
}

// The lent places by value, as many as a table has.
fn taken_apart(entities: &[Entity]) -> [Entity; ENTITIES_MOST]
    ensures { result ≡ pad entities_most no_entity (take entities_most entities.now) }
{
    let mut all = no_places();
    for (i, e) in entities.iter().enumerate() {
        let next = with_place(all, i, *e);
        all = next;
    }
    all
}

fn no_places() -> [Entity; ENTITIES_MOST]
    ensures { result ≡ pad entities_most no_entity [] }
{
    let none = Entity {
        id: 0,
        kind: 0,
        terminal: 0,
        offset: 0,
    };
    [none; ENTITIES_MOST]
}

// With this entity at a place; a place that the table has not stays out.
fn with_place(all: [Entity; ENTITIES_MOST], i: usize, e: Entity) -> [Entity; ENTITIES_MOST]
    ensures { result ≡ set all i e }
{
    let mut all = all;
    if i < ENTITIES_MOST {
        all[i] = e;
    }
    all
}
