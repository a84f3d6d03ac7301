// A page as SCSI data.
ghost use Rattle.std.specs.Prelude.{◌≡◌};
ghost use Rattle.convert.specs.Convert as paper;

use crate::{Refusal, put_turned, unless};
use layout::Header;
use offences::Offence;
use request::Request;
use words::Order;

// The reader's offence, or that the list is cut.
fn offence_of(page: &[u8], request: Request) -> Result<(), Offence>
    ensures { result ≡ paper.scsi_offence page.now request }
{
    let h = reader::read(page, request)?;
    unless(h.returned == h.number)
}

// The page that answers a request.
// It shares `put_turned` alone with the other way: reader, checks, size and padding differ.
pub fn to_scsi(page: &[u8], request: Request, buf: &mut [u8]) -> Result<usize, Refusal>
    ensures { paper.heard result buf.new ≡ paper.to_scsi page.now request buf.old }
{
    offence_of(page, request)?;
    let h = Header::read(page, Order::Little);
    let size = 32 + 32 * (h.number as usize);
    if buf.len() < size {
        return Err(Refusal::SmallBuffer);
    }
    put_turned(page, h.number, Order::Little, buf);
    Ok(size)
}
