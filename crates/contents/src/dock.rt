// What the bench says of the SCSI data that it reads.
ghost use Rattle.std.specs.Prelude.{◌≡◌};
ghost use Rattle.scsi.specs.Judgement.{reading, heard};
ghost use Rattle.writing.specs.Private as writing·private;
ghost use Rattle.writing.specs.Writing.{stored_in, ended_in};
ghost use Rattle.contents.specs.DockContents.{scsi_reading_for, scsi_reading_of};

use crate::put_list;
use offences::Offence;
use query::Query;
use scsi::Reading;
use tally::Tally;
use words::Order;

// What is there of the list, and how much of it that is.
fn put_read(out: &mut [u8], at: usize, bytes: &[u8], r: Reading) -> usize
    ensures { writing·private.Puts out.old at (scsi_reading_for bytes.now (reading r.header r.whole r.torn)) out.new result }
{
    let h = r.header;
    let end = put_list(out, at, bytes, h, r.whole, Order::Big);
    let tally = Tally {
        whole: r.whole,
        number: h.number,
        torn: r.torn,
    };
    tally.put(out, end)
}

fn put_judged(out: &mut [u8], at: usize, bytes: &[u8], answer: Result<Reading, Offence>) -> usize
    ensures { writing·private.Puts out.old at (scsi_reading_for bytes.now (heard answer).state) out.new result }
{
    match answer {
        Ok(r) => put_read(out, at, bytes, r),
        Err(offence) => writing::numbered(out, at, b"9 at ", offence.0 as u64),
    }
}

// Stored as `put_reading` stores its text.
pub fn put_scsi_reading(out: &mut [u8], at: usize, bytes: &[u8], query: Query) -> usize
    ensures out_after { out.new ≡ stored_in 80000 out.old at (scsi_reading_of bytes.now query) }
    ensures value { result ≡ ended_in 80000 out.old at (scsi_reading_of bytes.now query) }
{
    if !slices::does_fit(80000, at, out.len()) {
        return at;
    }
    let kept = slices::head(bytes, 65536);
    put_judged(out, at, kept, scsi::read(kept, query))
}
