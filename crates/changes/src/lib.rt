// The line of a difference, stored straight into a lent buffer.
#![tactic(auto)]

ghost use Rattle.std.specs.Prelude.{[], ◌∷◌, ◌≡◌, length};
ghost use Rattle.slices.specs.Lists.{fits, stored, ended};
ghost use Rattle.writing.specs.Private as writing·private;
ghost use Rattle.changes.specs.Changes as paper;
ghost use Rattle.changes.specs.Private as private;

use compare::Line;
use layout::Descriptor;
use paper::ElementId;
use words::Order;

// The descriptor that a line hands out.
fn handed<'a>(older: &'a [u8], newer: &'a [u8], line: Line) -> Descriptor
    ensures { result ≡ paper.handed older.now newer.now line }
{
    Descriptor::read(parts::part(older, newer, line), Order::Little)
}

// How long a line is.
pub fn line_width<'a>(older: &'a [u8], newer: &'a [u8], line: Line) -> usize
    ensures { result ≡ length (paper.line_of older.now newer.now line) }
{
    let width = 2 + rows::descriptor_width(handed(older, newer, line));
    match line {
        Line::OnlyOlder(_) => width,
        Line::OnlyNewer(_) => width,
        Line::Changed(at) => width
            + 4
            + rows::values_width(handed(older, newer, Line::OnlyOlder(at.older))),
    }
}

// Whether a line fits from a place on. Each fits 68 bytes, so that where these are there nothing is measured.
fn has_room<'a>(older: &'a [u8], newer: &'a [u8], line: Line, at: usize, room: usize) -> bool
    ensures { result ≡ fits (length (paper.line_of older.now newer.now line)) at room }
{
    if slices::does_fit(68, at, room) {
        return true;
    }
    slices::does_fit(line_width(older, newer, line), at, room)
}

// The descriptor at a number, as a line hands it out.
fn handed_at(page: &[u8], k: u32) -> Descriptor
    ensures { result ≡ private.handed_at page.now k }
{
    Descriptor::read(parts::descriptor_part(page, k), Order::Little)
}

// As `handed`, straight from the page that has it: it has one caller, and is compiled into it.
fn shown(older: &[u8], newer: &[u8], line: Line) -> Descriptor
    ensures { result ≡ paper.handed older.now newer.now line }
{
    match line {
        Line::OnlyOlder(k) => handed_at(older, k),
        Line::OnlyNewer(k) => handed_at(newer, k),
        Line::Changed(places) => handed_at(newer, places.newer),
    }
}

fn sign_of(line: Line) -> u8
    ensures { result ≡ private.sign_of line }
{
    match line {
        Line::OnlyOlder(_) => b'-',
        Line::OnlyNewer(_) => b'+',
        Line::Changed(_) => b'~',
    }
}

// A sign and the identifier, each with the space after it.
fn head(sign: u8, id: ElementId) -> [u8; 11]
    ensures { result ≡ private.head_of sign id.0 }
{
    let i = writing::hex8(id.0);
    [sign, 32, i[0], i[1], i[2], i[3], i[4], i[5], i[6], i[7], 32]
}

// A sign, then the element as the listing has it.
fn put_signed(out: &mut [u8], at: usize, sign: u8, d: Descriptor) -> usize
    ensures { writing·private.Puts out.old at (paper.signed (sign ∷ 32 ∷ []) d) out.new result }
{
    let begun = head(sign, d.id);
    let a = writing::word(out, at, &begun);
    rows::put_values(out, a, d)
}

// The older values, after an arrow.
fn put_older(older: &[u8], k: u32, out: &mut [u8], at: usize) -> usize
    ensures { writing·private.Puts out.old at (private.older_text older.now k) out.new result }
{
    let a = writing::word(out, at, b" <- ");
    rows::put_values(out, a, handed_at(older, k))
}

// What a line says, without its end: of a changed element the newer values come first.
fn put_body<'a>(older: &'a [u8], newer: &'a [u8], line: Line, out: &mut [u8], at: usize) -> usize
    ensures { writing·private.Puts out.old at (paper.body_of older.now newer.now line) out.new result }
{
    let a = put_signed(out, at, sign_of(line), shown(older, newer, line));
    match line {
        Line::OnlyOlder(_) => a,
        Line::OnlyNewer(_) => a,
        Line::Changed(places) => put_older(older, places.older, out, a),
    }
}

// Stores a line from a place on and answers where it ends; nothing, if it does not fit.
pub fn put_line<'a>(
    older: &'a [u8],
    newer: &'a [u8],
    line: Line,
    out: &mut [u8],
    at: usize,
) -> usize
    ensures out_after { out.new ≡ stored out.old at (paper.line_of older.now newer.now line) }
    ensures value { result ≡ ended out.old at (paper.line_of older.now newer.now line) }
{
    if !has_room(older, newer, line, at, out.len()) {
        return at;
    }
    let a = put_body(older, newer, line, out, at);
    writing::word(out, a, b"\n")
}
