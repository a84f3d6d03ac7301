// The device as C keeps it: numbers alone, and a field for every byte, so that any bytes are a device. A call reads the device, makes the call by
// value, and puts down in the image what that may have changed.
#![tactic(auto)]

ghost use Rattle.std.specs.Prelude.{◌≡◌};
ghost use Rattle.device.specs.Machine as machine;
ghost use Rattle.paper.specs.Output.{wrote};
ghost use Rattle.paper.specs.Told.{tells, said};
ghost use Rattle.sender.specs.Sent.{sent};
ghost use Rattle.status.specs.Page.{shown};
ghost use Rattle.image.specs.Calls.{told_of, made_by};
ghost use Rattle.image.specs.Keeping as keeping;
ghost use Rattle.image.specs.Keeping.{flag_for, place_for, element_for, old_for, new_for, keeps};
ghost use Rattle.image.specs.Private as private;
ghost use Rattle.image.specs.Reading.{security_of, mark_of, note_of, position_of, place_of, device_of};

use cells::{Cells, Mark, Note, Position, Removal};
use device::Device;
use offer::{Element, Offer};
use paper::{Answer, ElementId, Lba, Registers, Security, Unwritten};
use query::Query;
use request::Request;
use table::{Part, Table};

// The table as built is `parts`, `count` and `limit`; `element`, `old` and `new` are the note's while it is full.
#[repr(C)]
#[derive(Clone, Copy)]
pub struct Image {
    pub parts: [Part; 128],
    pub native: Lba,
    pub accessible: Lba,
    pub old: Lba,
    pub new: Lba,
    pub element: ElementId,
    pub count: u32,
    pub limit: u16,
    pub full: u8,
    pub failed: u8,
    pub position: u32,
    pub healths: [u8; 128],
}

// What a call hands back: the image after it, and its number in document 01's table.
#[derive(Clone, Copy)]
pub struct Imaged {
    pub image: Image,
    pub answer: u8,
}

// ---- What the numbers say. They are C's, which the crates of these types do not know, so that none is a `From` of theirs.

fn security_of(state: u8) -> Security
    ensures { result ≡ security_of state }
{
    match state {
        0 => Security::Locked,
        1 => Security::Unlocked,
        2 => Security::Frozen,
        _ => Security::Locked,
    }
}

fn mark_of(flag: u8) -> Mark
    ensures { result ≡ mark_of flag }
{
    if paper::is_on(flag) {
        Mark::Set
    } else {
        Mark::Clear
    }
}

fn note_of(flag: u8, element: ElementId, old: Lba, new: Lba) -> Note
    ensures { result ≡ note_of flag (record { element = element; old = old; new = new }) }
{
    if paper::is_on(flag) {
        Note::Full(Removal { element, old, new })
    } else {
        Note::Empty
    }
}

fn position_of(place: u32) -> Position
    ensures { result ≡ position_of place }
{
    match place {
        0 => Position::Work1,
        1 => Position::Work2,
        2 => Position::Work3,
        3 => Position::Work4,
        4 => Position::Work5,
        6 => Position::Wind2,
        7 => Position::Wind3,
        8 => Position::Wind4,
        _ => Position::Wind1,
    }
}

fn place_of(at: Position) -> u32
    ensures { result ≡ place_of at }
{
    match at {
        Position::Work1 => 0,
        Position::Work2 => 1,
        Position::Work3 => 2,
        Position::Work4 => 3,
        Position::Work5 => 4,
        Position::Wind1 => 5,
        Position::Wind2 => 6,
        Position::Wind3 => 7,
        Position::Wind4 => 8,
    }
}

// ---- What is put down: a number that says so already stays as it is

fn flag_for(flag: u8, on: bool) -> u8
    ensures { result ≡ flag_for flag on }
{
    if !on {
        return 0;
    }
    if flag == 0 { 1 } else { flag }
}

fn place_for(place: u32, at: Position) -> u32
    ensures { result ≡ place_for place at }
{
    let next = place_of(at);
    if place_of(position_of(place)) == next {
        place
    } else {
        next
    }
}

fn element_for(was: ElementId, note: Note) -> ElementId
    ensures { result ≡ element_for was note }
{
    match note {
        Note::Empty => was,
        Note::Full(w) => w.element,
    }
}

fn old_for(was: Lba, note: Note) -> Lba
    ensures { result ≡ old_for was note }
{
    match note {
        Note::Empty => was,
        Note::Full(w) => w.old,
    }
}

fn new_for(was: Lba, note: Note) -> Lba
    ensures { result ≡ new_for was note }
{
    match note {
        Note::Empty => was,
        Note::Full(w) => w.new,
    }
}

// A table as built, with nothing in its cells yet.
fn built(table: Table) -> Image
    ensures { result ≡ keeping.built table }
{
    let parts = table.parts;
    Image {
        parts,
        native: Lba(0),
        accessible: Lba(0),
        old: Lba(0),
        new: Lba(0),
        element: ElementId(0),
        count: table::bounded(table.count) as u32,
        limit: table.limit,
        full: 0,
        failed: 0,
        position: 0,
        healths: [0; 128],
    }
}

impl Image {
    // The device that this is.
    fn device(self) -> Device
        ensures { result ≡ device_of self }
    {
        let parts = self.parts;
        let native = self.native;
        let accessible = self.accessible;
        let healths = self.healths;
        let failed = mark_of(self.failed);
        let note = note_of(self.full, self.element, self.old, self.new);
        let position = position_of(self.position);
        Device {
            table: Table {
                parts,
                count: self.count as usize,
                limit: self.limit,
            },
            cells: Cells {
                native,
                accessible,
                healths,
                failed,
                note,
            },
            position,
        }
    }

    fn with_addresses(mut self, native: Lba, accessible: Lba) -> Image
        ensures { result ≡ private.with_addresses native accessible self }
    {
        self.native = native;
        self.accessible = accessible;
        self
    }

    fn with_healths(mut self, healths: [u8; 128]) -> Image
        ensures { result ≡ private.with_healths healths self }
    {
        self.healths = healths;
        self
    }

    fn with_mark(mut self, mark: Mark) -> Image
        ensures { result ≡ private.with_mark mark self }
    {
        self.failed = flag_for(self.failed, mark.is_set());
        self
    }

    fn with_note(mut self, note: Note) -> Image
        ensures { result ≡ private.with_note note self }
    {
        self.element = element_for(self.element, note);
        self.old = old_for(self.old, note);
        self.new = new_for(self.new, note);
        self.full = flag_for(self.full, note.is_full());
        self
    }

    fn at_position(mut self, at: Position) -> Image
        ensures { result ≡ private.at_position at self }
    {
        self.position = place_for(self.position, at);
        self
    }

    // All that a step may change, in the order that costs the compiler no copy of the image.
    fn keep(self, d: Device) -> Image
        ensures { result ≡ keeps self d }
    {
        let cells = d.cells;
        let position = d.position;
        let note = cells.note;
        let mark = cells.failed;
        let healths = cells.healths;
        let there = self.at_position(position);
        let noted = there.with_note(note);
        let marked = noted.with_mark(mark);
        let graded = marked.with_healths(healths);
        graded.with_addresses(cells.native, cells.accessible)
    }

    // ---- The calls

    // This image and an answer's number.
    fn with_answer(self, answer: Answer) -> Imaged
        ensures { tells result.answer result.image ≡ said answer self }
    {
        Imaged {
            image: self,
            answer: u8::from(answer),
        }
    }

    // A new device in the place of this one, or 8.
    pub fn make(self, elements: [Element; 128], count: usize, limit: u16) -> Imaged
        ensures { tells result.answer result.image ≡ made_by self (record { elements = elements; count = count; limit = limit }) }
    {
        let o = Offer {
            elements,
            count,
            limit,
        };
        let s = making::make_device(self.device(), o);
        if u8::from(s.answer) != 0 {
            return self.with_answer(s.answer);
        }
        let image = built(s.device.table).keep(s.device);
        image.with_answer(s.answer)
    }

    // A step stores into any cell; a refusal is left here, so that a step has one way to put down what it stored.
    pub fn step(self) -> Imaged
        ensures { tells result.answer result.image ≡ told_of self machine.step }
    {
        let s = self.device().step();
        let answer = u8::from(s.answer);
        if answer != 0 {
            return Imaged {
                image: self,
                answer,
            };
        }
        let image = self.keep(s.device);
        Imaged { image, answer }
    }

    // An error or a cut sets the position alone.
    pub fn media_error(self) -> Imaged
        ensures { tells result.answer result.image ≡ told_of self machine.media_error }
    {
        let s = self.device().media_error();
        let image = self.at_position(s.device.position);
        image.with_answer(s.answer)
    }

    pub fn power_cut(self) -> Imaged
        ensures { tells result.answer result.image ≡ told_of self machine.power_cut }
    {
        let s = self.device().power_cut();
        let image = self.at_position(s.device.position);
        image.with_answer(s.answer)
    }

    // A reset changes nothing.
    pub fn comreset(self) -> Imaged
        ensures { tells result.answer result.image ≡ told_of self machine.comreset }
    {
        let s = self.device().comreset();
        self.with_answer(s.answer)
    }

    pub fn hardware_reset(self) -> Imaged
        ensures { tells result.answer result.image ≡ told_of self machine.hardware_reset }
    {
        let s = self.device().hardware_reset();
        self.with_answer(s.answer)
    }

    pub fn software_reset(self) -> Imaged
        ensures { tells result.answer result.image ≡ told_of self machine.software_reset }
    {
        let s = self.device().software_reset();
        self.with_answer(s.answer)
    }

    // A grade stores a health alone.
    pub fn grade(self, id: ElementId, health: u8) -> Imaged
        ensures { tells result.answer result.image ≡ told_of self (machine.grade id health) }
    {
        let s = self.device().grade(id, health);
        let image = self.with_healths(s.device.cells.healths);
        image.with_answer(s.answer)
    }

    // A command stores the note, with the first position, or clears the mark.
    pub fn command(self, security: u8, registers: Registers, room: usize) -> Imaged
        ensures { tells result.answer result.image ≡ told_of self (machine.command (security_of security) registers room) }
    {
        let s = commands::command(self.device(), security_of(security), registers, room);
        let after = s.device;
        let marked = self.with_mark(after.cells.failed);
        let there = marked.at_position(after.position);
        let image = there.with_note(after.cells.note);
        image.with_answer(s.answer)
    }

    // The status page.
    pub fn show(self, security: u8, request: Request, buf: &mut [u8]) -> u8
        ensures { tells result buf.new ≡ shown (device_of self) (security_of security) request buf.old }
    {
        u8::from(status::show(self.device(), security_of(security), request, buf))
    }

    // The data for a SCSI host.
    pub fn send(self, query: Query, allocation: u32, buf: &mut [u8]) -> Result<usize, Unwritten>
        ensures { wrote result buf.new ≡ sent (device_of self) query allocation buf.old }
    {
        sender::send(self.device(), query, allocation, buf)
    }
}
