// SCSI data as a page.
ghost use Rattle.std.specs.Prelude.{◌≡◌};
ghost use Rattle.convert.specs.Convert as paper;

use crate::{Refusal, put_turned, unless};
use layout::Header;
use offences::Offence;
use paper::PageCount;
use query::Query;
use scsi::Reading;
use words::Order;

// Whether the list is there whole, and fits so many pages.
fn is_convertible(r: Reading, pages: PageCount) -> bool
    ensures { result ≡ paper.fits_pages r.whole r.header.number pages.0 }
{
    if r.whole != r.header.number {
        return false;
    }
    r.header.number as usize + 1 <= 16 * (pages.0 as usize)
}

// The reader's offence, or that the list is cut or too long.
fn offence_of(bytes: &[u8], query: Query, pages: PageCount) -> Result<(), Offence>
    ensures { result ≡ paper.ata_offence bytes.now query pages.0 }
{
    let r = scsi::read(bytes, query)?;
    unless(is_convertible(r, pages))
}

// The data that answers a request, as so many pages.
pub fn to_ata(
    bytes: &[u8],
    query: Query,
    pages: PageCount,
    buf: &mut [u8],
) -> Result<usize, Refusal>
    ensures { paper.heard result buf.new ≡ paper.to_ata bytes.now query pages.0 buf.old }
{
    offence_of(bytes, query, pages)?;
    let size = 512 * (pages.0 as usize);
    if buf.len() < size {
        return Err(Refusal::SmallBuffer);
    }
    let h = Header::read(bytes, Order::Big);
    put_turned(bytes, h.number, Order::Big, buf);
    slices::clear(buf, 32 + 32 * (h.number as usize), size);
    Ok(size)
}
