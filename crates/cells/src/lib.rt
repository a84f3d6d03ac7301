// The cells of a device and the stores that write them; what the search sees of an element; what a call rules.
#![tactic(auto)]

ghost use Rattle.std.specs.Prelude.{◌≡◌};
ghost use Rattle.paper.specs.Answers.{number_of};
ghost use Rattle.cells.specs.Cells.{make, is_full, is_set};
ghost use Rattle.cells.specs.Rulings as rulings;
ghost use Rattle.cells.specs.Rulings.{ruled};
ghost use Rattle.cells.specs.Sights.{look_in, see_in, seen_at};

use paper::{Answer, ElementId, Lba};
use table::{Part, Sight, Table};

// What a note holds of the removal under way.
#[derive(Clone, Copy)]
pub struct Removal {
    pub element: ElementId,
    pub old: Lba,
    pub new: Lba,
}

// An enum of its own and no Option: empty and full are the document's words for this cell, and its stores and questions are named by them.
#[derive(Clone, Copy)]
pub enum Note {
    Empty,
    Full(Removal),
}

// The failed mark.
#[derive(Clone, Copy)]
pub enum Mark {
    Clear,
    Set,
}

// The next step of the step list: five work steps, four winding-up steps.
#[derive(Clone, Copy)]
pub enum Position {
    Work1,
    Work2,
    Work3,
    Work4,
    Work5,
    Wind1,
    Wind2,
    Wind3,
    Wind4,
}

// "Cells that survive power loss, each written whole or not at all". A health is a cell of its own, that of its place in the table: so the healths
// are an array beside the table's parts, and 128, in fixed memory.
#[derive(Clone, Copy)]
pub struct Cells {
    pub native: Lba,
    pub accessible: Lba,
    pub healths: [u8; 128],
    pub failed: Mark,
    pub note: Note,
}

// A store writes one cell whole; a health by its place. `Marked` is the marking store.
#[derive(Clone, Copy)]
pub enum Store {
    Nothing,
    NativeTo(Lba),
    AccessibleTo(Lba),
    Marked(usize),
    Graded(usize, u8),
    FailedTo(Mark),
    Noted(Removal),
    NoteEmptied,
}

// What a call rules: its answer, its one store, the position after it.
#[derive(Clone, Copy)]
pub struct Ruling {
    pub answer: Answer,
    pub store: Store,
    pub next: Position,
}

// What the search sees where it stops: the part, the place and the health there.
#[derive(Clone, Copy)]
pub struct Seen {
    pub part: Part,
    pub place: usize,
    pub health: u8,
}

// ---- Each cell after a store, whatever the others are

fn native_after(old: Lba, store: Store) -> Lba
    ensures { (c : Cells) → old ≡ c.native → result ≡ (make store c).native }
{
    match store {
        Store::NativeTo(x) => x,
        _ => old,
    }
}

fn accessible_after(old: Lba, store: Store) -> Lba
    ensures { (c : Cells) → old ≡ c.accessible → result ≡ (make store c).accessible }
{
    match store {
        Store::AccessibleTo(x) => x,
        _ => old,
    }
}

fn healths_after(old: [u8; 128], store: Store) -> [u8; 128]
    ensures { (c : Cells) → old ≡ c.healths → result ≡ (make store c).healths }
{
    match store {
        Store::Marked(place) => table::with_health(old, place, 0xFF),
        Store::Graded(place, health) => table::with_health(old, place, health),
        _ => old,
    }
}

fn failed_after(old: Mark, store: Store) -> Mark
    ensures { (c : Cells) → old ≡ c.failed → result ≡ (make store c).failed }
{
    match store {
        Store::FailedTo(m) => m,
        _ => old,
    }
}

// A full note, built field by field. Copied whole in two arms, a removal would be one copy through a pointer to either, and for that pointer
// the compiler would keep the whole device in memory.
fn full(w: Removal) -> Note
    ensures { result ≡ Note.Full w }
{
    let element = w.element;
    let old = w.old;
    let new = w.new;
    Note::Full(Removal { element, old, new })
}

// The note as it is, built likewise.
fn same(note: Note) -> Note
    ensures { result ≡ note }
{
    match note {
        Note::Empty => Note::Empty,
        Note::Full(w) => full(w),
    }
}

fn note_after(old: Note, store: Store) -> Note
    ensures { (c : Cells) → old ≡ c.note → result ≡ (make store c).note }
{
    match store {
        Store::Noted(w) => full(w),
        Store::NoteEmptied => Note::Empty,
        _ => same(old),
    }
}

impl Note {
    pub fn is_full(self) -> bool
        ensures { result ≡ is_full self }
    {
        matches!(self, Note::Full(_))
    }
}

impl Mark {
    #[tactic(auto, unfolding(crate::specs::Cells::is_set))]
    pub fn is_set(self) -> bool
        ensures { result ≡ is_set self }
    {
        matches!(self, Mark::Set)
    }
}

impl Cells {
    // The cells with one store made. The healths come last, so that their 128 bytes are moved at the end of every path alike.
    pub fn after(self, store: Store) -> Cells
        ensures { result ≡ make store self }
    {
        let old_native = self.native;
        let old_accessible = self.accessible;
        let old_healths = self.healths;
        let old_failed = self.failed;
        let old_note = self.note;
        let native = native_after(old_native, store);
        let accessible = accessible_after(old_accessible, store);
        let failed = failed_after(old_failed, store);
        let note = note_after(old_note, store);
        let healths = healths_after(old_healths, store);
        Cells {
            native,
            accessible,
            healths,
            failed,
            note,
        }
    }
}

// ---- The rulings

// An answer and no store; the position afterwards is this one.
pub fn quiet(answer: Answer, at: Position) -> Ruling
    ensures { ruled result ≡ rulings.quiet (number_of answer) at }
{
    Ruling {
        answer,
        store: Store::Nothing,
        next: at,
    }
}

// Answer 0 with one store, and on to a position.
pub fn goes(store: Store, next: Position) -> Ruling
    ensures { ruled result ≡ rulings.goes store next }
{
    Ruling {
        answer: Answer::Done,
        store,
        next,
    }
}

fn seen_at(c: Cells, sight: Sight) -> Seen
    ensures { result ≡ seen_at c sight }
{
    Seen {
        part: sight.part,
        place: sight.place,
        health: table::health_at(c.healths, sight.place),
    }
}

// What the search for an identifier sees where it stops, as a hit or as a miss.
#[tactic(auto, unfolding(crate::specs::Sights::look_in))]
pub fn see(t: Table, c: Cells, id: ElementId) -> Result<Seen, Seen>
    ensures { result ≡ look_in t c id }
{
    match t.sight(id) {
        Ok(sight) => Ok(seen_at(c, sight)),
        Err(sight) => Err(seen_at(c, sight)),
    }
}

// What the search sees of an element, if it is in the table.
#[tactic(auto, using(crate::proofs::Sights::told_hit))]
pub fn found(t: Table, c: Cells, id: ElementId) -> Option<Seen>
    ensures { result ≡ see_in t c id }
{
    see(t, c, id).ok()
}
