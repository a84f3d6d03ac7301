// The line that a comparison ends with, stored straight into a lent buffer: how far two pages were compared, or which of them was refused.
#![tactic(auto)]

ghost use Rattle.std.specs.Prelude.{◌≡◌, length};
ghost use Rattle.reach.specs.Opening.{heard};
ghost use Rattle.slices.specs.Lists.{stored, ended};
ghost use Rattle.writing.specs.Private as writing·private;
ghost use Rattle.ending.specs.Ending.{bound_line, refused_line, last_line};

use paper::ElementId;
use reach::Turn;

// How long the last line is.
pub fn last_width(opening: Result<Option<ElementId>, Turn>) -> usize
    ensures { result ≡ length (last_line (heard opening).state) }
{
    match opening {
        Ok(None) => 0,
        Ok(Some(_)) => 24,
        Err(_) => 16,
    }
}

fn put_bound(out: &mut [u8], at: usize, id: ElementId) -> usize
    ensures { writing·private.Puts out.old at (bound_line id.0) out.new result }
{
    let i = writing::hex8(id.0);
    let a = writing::word(out, at, b"compared up to ");
    let b = writing::word(out, a, &i);
    writing::word(out, b, b"\n")
}

// Apart from `put_opening`: the proof does not close over a turn in the pattern of a refusal.
fn put_refused(out: &mut [u8], at: usize, turn: Turn) -> usize
    ensures { writing·private.Puts out.old at (refused_line turn) out.new result }
{
    match turn {
        Turn::Older => writing::word(out, at, b"refused 9 older\n"),
        Turn::Newer => writing::word(out, at, b"refused 9 newer\n"),
    }
}

fn put_opening(out: &mut [u8], at: usize, opening: Result<Option<ElementId>, Turn>) -> usize
    ensures { writing·private.Puts out.old at (last_line (heard opening).state) out.new result }
{
    match opening {
        Ok(None) => at,
        Ok(Some(id)) => put_bound(out, at, id),
        Err(turn) => put_refused(out, at, turn),
    }
}

// Stores the last line from a place on and answers where it ends; nothing, if it does not fit.
pub fn put_last(opening: Result<Option<ElementId>, Turn>, out: &mut [u8], at: usize) -> usize
    ensures out_after { out.new ≡ stored out.old at (last_line (heard opening).state) }
    ensures value { result ≡ ended out.old at (last_line (heard opening).state) }
{
    if !slices::does_fit(last_width(opening), at, out.len()) {
        return at;
    }
    put_opening(out, at, opening)
}
