// The text of a comparison: a line for each difference, and a last one if a page was cut short; or which page was refused.
#![tactic(auto)]

ghost use Rattle.std.specs.Prelude.{◌≡◌, ◌^◌, ◌<◌, leb, length, IfOk};
ghost use Rattle.compare.specs.Walk.{first, frame_of};
ghost use Rattle.io.specs.Counts.{IsPrefixLen};
ghost use Rattle.paper.specs.Output.{wrote, written};
ghost use Rattle.reach.specs.Opening.{heard, judged};
ghost use Rattle.writing.specs.Private as writing·private;
ghost use Rattle.comparison.specs.Comparison as paper;
ghost use Rattle.comparison.specs.Private as private;

use compare::{Cursor, Frame, Hit};
use paper::{ElementId, Unwritten};
use reach::Turn;

// The next difference of two pages, if they were accepted.
fn next_of(older: &[u8], newer: &[u8], frame: Frame, accepted: bool, at: Cursor) -> Option<Hit>
    requires { frame ≡ frame_of older.now newer.now }
    ensures { result ≡ private.step_of accepted older.now newer.now at }
{
    if accepted {
        compare::next_to(older, newer, frame, at)
    } else {
        None
    }
}

// How long the lines of all differences are. It walks by `next`, so that `next_of` has one caller, `put_lines`, and is compiled
// into that loop.
fn measure<'a>(older: &'a [u8], newer: &'a [u8], accepted: bool) -> usize
    requires { length (private.lines_from accepted older.now newer.now first) < 2 ^ 64 }
    ensures { result ≡ length (private.lines_from accepted older.now newer.now first) }
{
    if !accepted {
        return 0;
    }
    let mut size: usize = 0;
    let mut at = Cursor::first();
    while let Some(hit) = compare::next(older, newer, at) {
        size += changes::line_width(older, newer, hit.line);
        at = hit.next;
    }
    size
}

// Whether the whole text fits. Each fits 160,000 bytes, so that for these nothing is measured.
fn has_room<'a>(
    older: &'a [u8],
    newer: &'a [u8],
    opening: Result<Option<ElementId>, Turn>,
    room: usize,
) -> bool
    requires { heard opening ≡ judged older.now newer.now }
    ensures { result ≡ leb (length (paper.comparison_of older.now newer.now)) room }
{
    if 160000 <= room {
        return true;
    }
    measure(older, newer, opening.is_ok()) + ending::last_width(opening) <= room
}

// Stores the lines of all differences at the front, and answers where they end.
fn put_lines<'a>(older: &'a [u8], newer: &'a [u8], accepted: bool, out: &mut [u8]) -> usize
    ensures { writing·private.Puts out.old 0 (private.lines_from accepted older.now newer.now first) out.new result }
{
    let frame = compare::frame_of(older, newer);
    let mut size: usize = 0;
    let mut at = Cursor::first();
    while let Some(hit) = next_of(older, newer, frame, accepted, at) {
        size = changes::put_line(older, newer, hit.line, out, size);
        at = hit.next;
    }
    size
}

// The whole text, or nothing where it does not fit.
pub fn write<'a>(older: &'a [u8], newer: &'a [u8], out: &mut [u8]) -> Result<usize, Unwritten>
    ensures out_after { wrote result out.new ≡ written (paper.comparison_of older.now newer.now) out.old }
    ensures prefix_len { IfOk result (λ size. IsPrefixLen size out.new) }
{
    let opening = reach::judge(older, newer);
    if !has_room(older, newer, opening, out.len()) {
        return Err(Unwritten::SmallBuffer);
    }
    let lines = put_lines(older, newer, opening.is_ok(), out);
    let size = ending::put_last(opening, out, lines);
    Ok(size)
}
