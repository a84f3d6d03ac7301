// The text of a listing, of a page or of SCSI data, in a lent buffer: the whole of it, or nothing where it does not fit.
#![tactic(auto)]

ghost use Rattle.std.specs.Prelude.{◌≡◌, leb, length, IfOk};
ghost use Rattle.io.specs.Counts.{IsPrefixLen};
ghost use Rattle.paper.specs.Output.{wrote, written};
ghost use Rattle.rows.specs.Rows.{refused_line};
ghost use Rattle.sheet.specs.Sheet.{sheet_of};

use layout::Header;
use paper::Unwritten;
use tally::Tally;
use words::Order;

// The line of a refusal. It has at least a byte, so that its end tells whether it was stored.
pub fn refuse(place: usize, out: &mut [u8]) -> Result<usize, Unwritten>
    ensures out_after { wrote result out.new ≡ written (refused_line place) out.old }
    ensures prefix_len { IfOk result (λ size. IsPrefixLen size out.new) }
{
    match heading::put_refused(out, 0, place) {
        0 => Err(Unwritten::SmallBuffer),
        size => Ok(size),
    }
}

// Whether a sheet fits. Its first line has at most 128 bytes, a descriptor's 36, the last one 50: where these are there nothing is measured.
fn has_room(bytes: &[u8], o: Order, header: Header, tally: Tally, room: usize) -> bool
    ensures { result ≡ leb (length (sheet_of o bytes.now header tally.whole tally.number tally.torn)) room }
{
    if 178 + 36 * (tally.whole as usize) <= room {
        return true;
    }
    let lines = entries::width(bytes, tally.whole, o);
    heading::header_width(header) + lines + tally.width() <= room
}

// The sheet of a list that was taken, of whose descriptors so many are there whole.
pub fn write(
    bytes: &[u8],
    o: Order,
    header: Header,
    tally: Tally,
    out: &mut [u8],
) -> Result<usize, Unwritten>
    ensures out_after { wrote result out.new ≡ written (sheet_of o bytes.now header tally.whole tally.number tally.torn) out.old }
    ensures prefix_len { IfOk result (λ size. IsPrefixLen size out.new) }
{
    if !has_room(bytes, o, header, tally, out.len()) {
        return Err(Unwritten::SmallBuffer);
    }
    let first = heading::put_header(out, 0, header);
    let lines = entries::put(bytes, tally.whole, o, out, first);
    Ok(tally.put(out, lines))
}
