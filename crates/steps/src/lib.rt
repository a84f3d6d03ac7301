// Work steps, winding up and grades: what each rules over a table, its cells and the position.
#![tactic(auto)]

ghost use Rattle.std.specs.Prelude.{◌≡◌, false};
ghost use Rattle.cells.specs.Rulings.{ruled};
ghost use Rattle.cells.specs.Sights.{see_in};
ghost use Rattle.paper.specs.Answers.{number_of};
ghost use Rattle.steps.specs.Private as private;
ghost use Rattle.steps.specs.Steps as steps;

use cells::{Cells, Mark, Note, Position, Removal, Ruling, Seen, Store, goes, quiet};
use paper::{Answer, ElementId, Lba};
use table::Table;

// The step after this one.
fn next_of(at: Position) -> Position
    ensures { result ≡ steps.next_of at }
{
    match at {
        Position::Work1 => Position::Work2,
        Position::Work2 => Position::Work3,
        Position::Work3 => Position::Work4,
        Position::Work4 => Position::Work5,
        Position::Work5 => Position::Work1,
        Position::Wind1 => Position::Wind2,
        Position::Wind2 => Position::Wind3,
        Position::Wind3 => Position::Wind4,
        Position::Wind4 => Position::Work1,
    }
}

// Whether a step looks at the noted element: the marking one, and the first two of winding up.
fn does_look(at: Position) -> bool
    ensures { result ≡ false → private.Blind at }
{
    matches!(at, Position::Work3 | Position::Wind1 | Position::Wind2)
}

// The marking store; no such element, no store.
fn marking(seen: Option<Seen>) -> Store
    ensures { result ≡ steps.marking seen }
{
    match seen {
        Some(s) => Store::Marked(s.place),
        None => Store::Nothing,
    }
}

// Where winding up takes the addresses.
fn wound_to(seen: Option<Seen>, w: Removal) -> Lba
    ensures { result ≡ steps.wound_to seen w }
{
    match seen {
        Some(s) if s.health == 0xFF => w.new,
        _ => w.old,
    }
}

// The store of a step.
fn store_from(seen: Option<Seen>, w: Removal, at: Position) -> Store
    ensures { result ≡ steps.store_from seen w at }
{
    match at {
        Position::Work1 => Store::NativeTo(w.new),
        Position::Work2 => Store::AccessibleTo(w.new),
        Position::Work3 => marking(seen),
        Position::Work4 => Store::FailedTo(Mark::Clear),
        Position::Work5 => Store::NoteEmptied,
        Position::Wind1 => Store::NativeTo(wound_to(seen, w)),
        Position::Wind2 => Store::AccessibleTo(wound_to(seen, w)),
        Position::Wind3 => Store::FailedTo(Mark::Set),
        Position::Wind4 => Store::NoteEmptied,
    }
}

// The store of a step, which looks at the noted element only if it needs to.
fn stored(t: Table, c: Cells, w: Removal, at: Position) -> Store
    ensures { result ≡ steps.store_from (see_in t c w.element) w at }
{
    if does_look(at) {
        store_from(cells::found(t, c, w.element), w, at)
    } else {
        store_from(None, w, at)
    }
}

// A work step, or a step of winding up.
pub fn rule_step(t: Table, c: Cells, at: Position) -> Ruling
    ensures { ruled result ≡ steps.rule_step t c at c.note }
{
    let note = c.note;
    match note {
        Note::Empty => quiet(Answer::NoRemoval, at),
        Note::Full(w) => goes(stored(t, c, w, at), next_of(at)),
    }
}

// An error or a cut: to the first winding-up step if a removal is under way, else this answer.
pub fn rule_stop(note: Note, at: Position, idle: Answer) -> Ruling
    ensures { ruled result ≡ steps.rule_stop at (number_of idle) note }
{
    match note {
        Note::Empty => quiet(idle, at),
        Note::Full(_) => goes(Store::Nothing, Position::Wind1),
    }
}

#[tactic(auto, unfolding(crate::specs::Steps::grade_seen))]
pub fn rule_grade(t: Table, c: Cells, at: Position, id: ElementId, health: u8) -> Ruling
    ensures { ruled result ≡ steps.rule_grade t c at id health }
{
    let Some(s) = cells::found(t, c, id) else {
        return quiet(Answer::GradeRefused, at);
    };
    if s.health == 0xFF {
        return quiet(Answer::GradeRefused, at);
    }
    if 0xCF < health {
        return quiet(Answer::GradeRefused, at);
    }
    goes(Store::Graded(s.place, health), at)
}
