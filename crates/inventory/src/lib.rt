// What the bench says of a device: a line of its cells and one for each element, stored straight into a lent buffer.
#![tactic(auto)]

ghost use Rattle.std.specs.Prelude.{◌≡◌, min};
ghost use Rattle.writing.specs.Private as writing·private;
ghost use Rattle.writing.specs.Writing.{stored_in, ended_in};
ghost use Rattle.inventory.specs.Inventory.{removal_text, note_text, position_text, cells_line, element_line, elements_below, cells_of};
ghost use Rattle.inventory.specs.Private as private;

use cells::{Cells, Mark, Note, Position, Removal};
use device::Device;
use paper::Lba;
use table::Part;

// ---- The cells

fn put_removal(out: &mut [u8], at: usize, w: Removal) -> usize
    ensures { writing·private.Puts out.old at (removal_text w) out.new result }
{
    let id = writing::hex8(w.element.0);
    let a = writing::word(out, at, &id);
    let b = writing::field(out, a, b" ", w.old.0);
    writing::field(out, b, b" ", w.new.0)
}

fn put_note(out: &mut [u8], at: usize, note: Note) -> usize
    ensures { writing·private.Puts out.old at (note_text note) out.new result }
{
    match note {
        Note::Empty => writing::word(out, at, b"-"),
        Note::Full(w) => put_removal(out, at, w),
    }
}

fn step_name(p: Position) -> [u8; 5]
    ensures { result ≡ position_text p }
{
    match p {
        Position::Work1 => *b"work1",
        Position::Work2 => *b"work2",
        Position::Work3 => *b"work3",
        Position::Work4 => *b"work4",
        Position::Work5 => *b"work5",
        Position::Wind1 => *b"wind1",
        Position::Wind2 => *b"wind2",
        Position::Wind3 => *b"wind3",
        Position::Wind4 => *b"wind4",
    }
}

fn put_limits(out: &mut [u8], at: usize, limit: u16, native: Lba, accessible: Lba) -> usize
    ensures { writing·private.Puts out.old at (private.limits_of limit native accessible) out.new result }
{
    let a = writing::field(out, at, b"limit ", limit as u64);
    let b = writing::field(out, a, b" native ", native.0);
    writing::field(out, b, b" accessible ", accessible.0)
}

fn put_failed(out: &mut [u8], at: usize, mark: Mark) -> usize
    ensures { writing·private.Puts out.old at (private.failed_of mark) out.new result }
{
    let failed = slices::bit(mark.is_set());
    writing::field(out, at, b" failed ", failed as u64)
}

// The cells' line up to the failed mark.
fn put_numbers(
    out: &mut [u8],
    at: usize,
    limit: u16,
    native: Lba,
    accessible: Lba,
    mark: Mark,
) -> usize
    ensures { writing·private.Puts out.old at (private.numbers_of limit native accessible mark) out.new result }
{
    let a = put_limits(out, at, limit, native, accessible);
    put_failed(out, a, mark)
}

// Its end.
fn put_end(out: &mut [u8], at: usize, p: Position) -> usize
    ensures { writing·private.Puts out.old at (private.end_of p) out.new result }
{
    let name = step_name(p);
    let a = writing::word(out, at, b" position ");
    let b = writing::word(out, a, &name);
    writing::word(out, b, b"\n")
}

fn put_line(out: &mut [u8], at: usize, limit: u16, c: Cells, p: Position) -> usize
    ensures { writing·private.Puts out.old at (cells_line limit c p) out.new result }
{
    let native = c.native;
    let accessible = c.accessible;
    let mark = c.failed;
    let note = c.note;
    let a = put_numbers(out, at, limit, native, accessible, mark);
    let b = writing::word(out, a, b" note ");
    let d = put_note(out, b, note);
    put_end(out, d, p)
}

// ---- The elements

// An element's line up to the health.
fn head(p: Part, health: u8) -> [u8; 14]
    ensures { result ≡ private.head_of p health }
{
    let i = writing::hex8(p.id.0);
    let k = writing::hex2(p.kind);
    let h = writing::hex2(health);
    [
        i[0], i[1], i[2], i[3], i[4], i[5], i[6], i[7], 32, k[0], k[1], 32, h[0], h[1],
    ]
}

fn put_element(out: &mut [u8], at: usize, p: Part, health: u8) -> usize
    ensures { writing·private.Puts out.old at (element_line p health) out.new result }
{
    let begun = head(p, health);
    let flag = slices::bit(paper::is_on(p.unreported)) as u64;
    let a = writing::word(out, at, &begun);
    let b = writing::field(out, a, b" ", p.blocks);
    writing::numbered(out, b, b" ", flag)
}

// The lines of the first `count` elements.
fn put_elements(
    out: &mut [u8],
    from: usize,
    ps: [Part; 128],
    healths: [u8; 128],
    count: usize,
) -> usize
    ensures { writing·private.Puts out.old from (elements_below ps healths (min count 128)) out.new result }
{
    let n = table::bounded(count);
    let mut at = from;
    for i in 0..n {
        at = put_element(out, at, ps[i], healths[i]);
    }
    at
}

// ---- The whole text

// Stores it from a place on and answers where it ends; nothing, where fewer than 6,000 bytes are there, which are enough for every device.
pub fn put_cells(out: &mut [u8], at: usize, d: Device) -> usize
    ensures out_after { out.new ≡ stored_in 6000 out.old at (cells_of d) }
    ensures value { result ≡ ended_in 6000 out.old at (cells_of d) }
{
    if !slices::does_fit(6000, at, out.len()) {
        return at;
    }
    let t = d.table;
    let c = d.cells;
    let position = d.position;
    let begun = put_line(out, at, t.limit, c, position);
    let ps = t.parts;
    let healths = c.healths;
    put_elements(out, begun, ps, healths, t.count)
}
