// The line that a listing begins with, the header's or a refusal's, stored straight into a lent buffer.
#![tactic(auto)]

ghost use Rattle.std.specs.Prelude.{◌≡◌, length};
ghost use Rattle.rows.specs.Rows.{header_line, refused_line};
ghost use Rattle.slices.specs.Lists.{stored, ended};
ghost use Rattle.writing.specs.Private as writing·private;
ghost use Rattle.heading.specs.Private as private;

use layout::Header;

// How long the header's line is.
pub fn header_width(h: Header) -> usize
    ensures { result ≡ length (header_line h) }
{
    let counts = writing::width(h.number as u64) + writing::width(h.returned as u64);
    let limits = writing::width(h.limit as u64) + writing::width(h.removed as u64);
    48 + counts + limits
}

fn put_busy(out: &mut [u8], at: usize, h: Header) -> usize
    ensures { writing·private.Puts out.old at (private.busy_of h) out.new result }
{
    let id = writing::hex8(h.busy.0);
    let a = writing::word(out, at, b" busy ");
    writing::word(out, a, &id)
}

// The header's line up to the busy identifier.
fn put_counts(out: &mut [u8], at: usize, h: Header) -> usize
    ensures { writing·private.Puts out.old at (private.counts_of h) out.new result }
{
    let a = writing::field(out, at, b"number ", h.number as u64);
    let b = writing::field(out, a, b" returned ", h.returned as u64);
    put_busy(out, b, h)
}

// The rest of it.
fn put_limits(out: &mut [u8], at: usize, h: Header) -> usize
    ensures { writing·private.Puts out.old at (private.limits_of h) out.new result }
{
    let a = writing::field(out, at, b" limit ", h.limit as u64);
    writing::numbered(out, a, b" removed ", h.removed as u64)
}

// Stores the header's line from a place on and answers where it ends; nothing, if it does not fit.
pub fn put_header(out: &mut [u8], at: usize, h: Header) -> usize
    ensures out_after { out.new ≡ stored out.old at (header_line h) }
    ensures value { result ≡ ended out.old at (header_line h) }
{
    if !slices::does_fit(header_width(h), at, out.len()) {
        return at;
    }
    let begun = put_counts(out, at, h);
    put_limits(out, begun, h)
}

// Stores the line of a refusal from a place on and answers where it ends; nothing, if it does not fit.
pub fn put_refused(out: &mut [u8], at: usize, place: usize) -> usize
    ensures out_after { out.new ≡ stored out.old at (refused_line place) }
    ensures value { result ≡ ended out.old at (refused_line place) }
{
    writing::numbered(out, at, b"refused 9 at ", place as u64)
}
