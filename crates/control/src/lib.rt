// Reads the class-specific descriptors of a VideoControl interface: rules 1 to 15, and the entity table.
#![tactic(auto)]

ghost use Rattle.std.specs.Prelude.{◌≡◌, ◌<◌};
ghost use Rattle.rules.specs.Numbered.{NoneOf};
ghost use Rattle.control_rules.specs.Rules.{head_rows};
ghost use Rattle.control.specs.Answer.{ControlIs, refused_by};

use entities::Table;
use rules::{Refused, Verdict};

// The verdict, and the entity table: all zero, and of revision 1.5, where the block is refused. (No Result: `zero-table` says so of the table.)
#[derive(Drop)]
pub struct Control {
    pub verdict: Verdict,
    pub table: Table,
}

// Reads a control block.
pub fn read(block: &[u8]) -> Control
    ensures { ControlIs block.now result }
{
    if let Err(number) = control_rules::head_rule(block) {
        return refused(number, 0);
    }
    walk(block)
}

// The walk over the descriptors, header first; then their sources.
fn walk(s: &[u8]) -> Control
    requires { NoneOf (head_rows s.now) }
    ensures { ControlIs s.now result }
{
    let revision = control_rules::revision_of(s);
    let mut table = entities::no_table();
    let mut marks = used_ids::none();
    // A descriptor's own length is the step.
    let mut at: usize = 0;
    while at < s.len() {
        let count = table.count;
        if let Err(number) = control_rules::rule_at(s, at, count, &marks, revision) {
            return refused(number, at);
        }
        if control_rules::is_entity(control_rules::known_as(revision, s[at + 2])) {
            used_ids::with(&mut marks, s[at + 3]);
            table.entities[count] = control_rules::entity_at(s, at);
            table.count = count + 1;
        }
        at = at + le::wide(s[at]);
    }
    match sources::judge(s, table) {
        Ok(()) => {
            let table = Table {
                count: table.count,
                entities: table.entities,
                clock: le::le32(s, 7),
                revision,
            };
            Control {
                verdict: Ok(()),
                table,
            }
        }
        Err(Refused { number, offset }) => refused(number, offset),
    }
}

fn refused(number: u8, offset: usize) -> Control
    ensures { result ≡ refused_by number offset }
{
    let table = entities::no_table();
    Control {
        verdict: Err(Refused { number, offset }),
        table,
    }
}
