// REMOVE ELEMENT AND TRUNCATE (7Ch): its seven checks, in document 01's order.
#![tactic(auto)]

ghost use Rattle.std.specs.Prelude.{◌≡◌};
ghost use Rattle.cells.specs.Rulings.{ruled};
ghost use Rattle.removal.specs.Remove as remove;

use cells::{Cells, Mark, Position, Removal, Ruling, Seen, Store, goes, quiet};
use paper::{Answer, Command, ElementId, Lba, Registers, Security};
use table::Table;

// The LBA, or the difference if the LBA is 0.
fn new_max(difference: u64, lba: Lba) -> Lba
    ensures { result ≡ remove.or_difference difference lba }
{
    if lba.0 == 0 { Lba(difference) } else { lba }
}

// Whether a limit is reported and as many elements are at FFh.
fn limit_met(limit: u16, removed: u16) -> bool
    ensures { result ≡ remove.limit_met limit removed }
{
    limit != 0 && limit <= removed
}

// Checks 6 and 7.
fn judge_room(at: Position, old: Lba, id: ElementId, lba: Lba, blocks: u64) -> Ruling
    ensures { ruled result ≡ remove.judge_room at old id lba blocks }
{
    if old.0 <= blocks {
        return quiet(Answer::InvalidField, at);
    }
    let difference = old.0 - blocks;
    if difference < lba.0 {
        return quiet(Answer::InvalidField, at);
    }
    let new = new_max(difference, lba);
    goes(
        Store::Noted(Removal {
            element: id,
            old,
            new,
        }),
        Position::Work1,
    )
}

// Checks 3 to 7, of what the search sees.
#[tactic(auto, unfolding(crate::specs::Remove::judge_found))]
fn judge_found(
    t: Table,
    c: Cells,
    at: Position,
    id: ElementId,
    lba: Lba,
    seen: Option<Seen>,
) -> Ruling
    ensures { ruled result ≡ remove.judge_found t c at id lba seen }
{
    let Some(s) = seen else {
        return quiet(Answer::InvalidField, at);
    };
    if s.part.kind != 1 {
        return quiet(Answer::InvalidField, at);
    }
    if s.health == 0xFF {
        return goes(Store::FailedTo(Mark::Clear), at);
    }
    if limit_met(t.limit, table::removed(c.healths, t.count)) {
        return quiet(Answer::InvalidField, at);
    }
    judge_room(at, c.native, id, lba, s.part.blocks)
}

// What 7Ch rules over a table, its cells and the position: checks 1 and 2, then the others.
pub fn rule_remove(
    t: Table,
    c: Cells,
    at: Position,
    security: Security,
    registers: Registers,
) -> Ruling
    ensures { ruled result ≡ remove.rule_remove t c at security registers }
{
    if paper::is_aborted(Command::Remove, security) {
        return quiet(Answer::SecurityLocked, at);
    }
    let note = c.note;
    if note.is_full() {
        return quiet(Answer::InProgress, at);
    }
    let id = registers.identifier();
    let lba = registers.lba;
    let s = cells::found(t, c, id);
    judge_found(t, c, at, id, lba.low48(), s)
}
