// The descriptors of a VideoControl block: rules 1 to 4 of the block, rules 5 to 12 of one descriptor, and the entity that it is.
#![tactic(auto)]

mod shape;

ghost use Rattle.std.specs.Prelude.{◌≡◌, ◌+◌, ◌<◌, ◌≤◌, length, true};
ghost use Rattle.le.specs.Le.{byte};
ghost use Rattle.rules.specs.Numbered.{first_row, kept};
ghost use Rattle.used_ids.specs.Marks.{marked};
ghost use Rattle.control_rules.specs.Descriptors.{len_at, revision_by, revision_of, known_as, kind_of, kind_at, is_entity, terminal_of, Shaped};
ghost use Rattle.control_rules.specs.Rules.{limits, head_rows, rows_in, kind_rows, entity_rows, is_revision, revision_right, pin_count, pins_right, entity_of};

use blocks::Limits;
use entities::{ENCODING_UNIT, ENTITIES_MOST, Entity, Revision};
use used_ids::Marks;

const LIMITS: Limits = Limits {
    least: 12,
    most: 4096,
    total: 5,
    first: 1,
};

const PINS_MOST: u8 = 16;

// bcdUVC of the three revisions.
const REVISION_10: u16 = 0x0100;

const REVISION_11: u16 = 0x0110;

const REVISION_15: u16 = 0x0150;
// The terminal type of a camera.
pub const CAMERA: u16 = 0x0201;

// The first of rules 1 to 4 that the block breaks.
pub fn head_rule(s: &[u8]) -> Result<(), u8>
    ensures { result ≡ kept (first_row (head_rows s.now)) }
{
    match blocks::whole_rule(s, LIMITS) {
        0 => Ok(()),
        number => Err(number),
    }
}

// Inner: the block has its header's bytes. The revision that it is read by.
pub fn revision_of(s: &[u8]) -> Revision
    requires { 4 < length s.now }
    ensures { result ≡ revision_of s.now }
{
    revision_by(le::le16(s, 3))
}

#[tactic(auto, unfolding(crate::specs::Descriptors::revision_by, rules::specs::IfElse::if_else))]
fn revision_by(bcd: u16) -> Revision
    ensures { result ≡ revision_by bcd }
{
    if bcd == REVISION_10 {
        return Revision::R10;
    }
    if bcd == REVISION_11 {
        return Revision::R11;
    }
    Revision::R15
}

// The subtype as the revision reads it: 0, which is unknown, for an encoding unit where there are none.
#[tactic(auto, unfolding(crate::specs::Descriptors::known_as, rules::specs::IfElse::if_else))]
pub fn known_as(revision: Revision, sub: u8) -> u8
    ensures { result ≡ known_as revision sub }
{
    if sub != ENCODING_UNIT {
        return sub;
    }
    if entities::says_of(revision).encoding {
        return ENCODING_UNIT;
    }
    0
}

// Inner: a descriptor starts at `at`, and the revision is the block's.
// The first of rules 5 to 12 that it breaks, after `count` entities whose IDs are marked.
pub fn rule_at(
    s: &[u8],
    at: usize,
    count: usize,
    marks: &Marks,
    revision: Revision,
) -> Result<(), u8>
    requires { (at < length s.now) × (revision ≡ revision_of s.now) }
    ensures { result ≡ kept (first_row (rows_in revision s.now at (marked marks.now (byte s.now at 3)) count)) }
{
    if blocks::length_broken(s, at) {
        return Err(5);
    }
    if blocks::type_broken(s, at) {
        return Err(6);
    }
    let sub = known_as(revision, s[at + 2]);
    kind_rule(s, at, sub, count, marks, revision)
}

// Inner: the descriptor at `at` is that of an entity, and lies in the block.
pub fn entity_at(s: &[u8], at: usize) -> Entity
    requires at_le_most { (at ≤ limits.most) × Shaped (kind_at s.now at) s.now at }
    requires at_value { is_entity (kind_at s.now at) ≡ true }
    ensures { result ≡ entity_of s.now at }
{
    let sub = s[at + 2];
    let terminal = terminal_of(s, at, sub);
    Entity {
        id: s[at + 3],
        kind: sub,
        terminal,
        offset: at as u16,
    }
}

// Whether the subtype is that of a terminal or a unit.
pub fn is_entity(sub: u8) -> bool
    ensures { result ≡ is_entity (kind_of sub) }
{
    matches!(sub, 2..=7)
}

// Rules 7 to 12, of a descriptor of this subtype that lies in the block.
fn kind_rule(
    s: &[u8],
    at: usize,
    sub: u8,
    count: usize,
    marks: &Marks,
    revision: Revision,
) -> Result<(), u8>
    requires bound { (3 ≤ len_at s.now at) × (at + len_at s.now at ≤ length s.now) }
    requires revision_value { revision ≡ revision_of s.now }
    ensures { result ≡ kept (first_row (kind_rows revision (kind_of sub) s.now at (marked marks.now (byte s.now at 3)) count)) }
{
    let len = le::wide(s[at]);
    let shaped = shape::right(s, at, len, sub, revision);
    if !shaped {
        return Err(7);
    }
    let known = revision_right(s, at, sub);
    if !known {
        return Err(8);
    }
    entity_rule(s, at, sub, count, marks)
}

// Rule 8: the header's revision is one of the three.
fn revision_right(s: &[u8], at: usize, sub: u8) -> bool
    requires { Shaped (kind_of sub) s.now at }
    ensures { result ≡ revision_right (kind_of sub) s.now at }
{
    match sub {
        1 => is_revision(le::le16(s, at + 3)),
        _ => true,
    }
}

#[tactic(auto, unfolding(crate::specs::Rules::is_revision))]
fn is_revision(bcd: u16) -> bool
    ensures { result ≡ is_revision bcd }
{
    bcd == REVISION_10 || bcd == REVISION_11 || bcd == REVISION_15
}

// Rules 9 to 12, of an entity.
fn entity_rule(s: &[u8], at: usize, sub: u8, count: usize, marks: &Marks) -> Result<(), u8>
    requires { Shaped (kind_of sub) s.now at }
    ensures { result ≡ kept (first_row (entity_rows (kind_of sub) s.now at (marked marks.now (byte s.now at 3)) count)) }
{
    let entity = is_entity(sub);
    if !entity {
        return Ok(());
    }
    let id = s[at + 3];
    if id == 0 {
        return Err(9);
    }
    if used_ids::has(marks, id) {
        return Err(10);
    }
    if ENTITIES_MOST <= count {
        return Err(11);
    }
    if pins_right(s, at, sub) {
        return Ok(());
    }
    Err(12)
}

// Rule 12: the number of input pins of a selector or an extension unit.
fn pins_right(s: &[u8], at: usize, sub: u8) -> bool
    requires { Shaped (kind_of sub) s.now at }
    ensures { result ≡ pins_right (kind_of sub) s.now at }
{
    match sub {
        4 => pin_count(s[at + 4]),
        6 => pin_count(s[at + 21]),
        _ => true,
    }
}

#[tactic(auto, unfolding(crate::specs::Rules::pin_count))]
fn pin_count(p: u8) -> bool
    ensures { result ≡ pin_count p }
{
    1 <= p && p <= PINS_MOST
}

// The terminal type, or 0.
fn terminal_of(s: &[u8], at: usize, sub: u8) -> u16
    requires { Shaped (kind_of sub) s.now at }
    ensures { result ≡ terminal_of (kind_of sub) s.now at }
{
    match sub {
        2 | 3 => le::le16(s, at + 4),
        _ => 0,
    }
}
