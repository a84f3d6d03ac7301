// The listing of a status page: a line for the header and one for each descriptor, or the place of the first offence.
#![tactic(auto)]

ghost use Rattle.std.specs.Prelude.{◌≡◌, IfOk};
ghost use Rattle.io.specs.Counts.{IsPrefixLen};
ghost use Rattle.paper.specs.Output.{wrote};
ghost use Rattle.reader.specs.Judgement.{heard};
ghost use Rattle.listing.specs.Listing.{judged, listed};

use layout::Header;
use offences::Offence;
use paper::{PageCount, Unwritten};
use tally::Tally;
use words::Order;

// The reader's answer; a longer input does not reach it.
fn judge(input: &[u8]) -> Result<Header, Offence>
    ensures { heard result ≡ judged input.now }
{
    if 65536 < input.len() {
        return Err(Offence(65536));
    }
    let pages = PageCount((input.len() / 512) as u16);
    reader::read(input, request::request_for(pages))
}

// The whole listing, or nothing where it does not fit. Of what was returned none is missing.
pub fn list(input: &[u8], out: &mut [u8]) -> Result<usize, Unwritten>
    ensures out_after { wrote result out.new ≡ listed input.now out.old }
    ensures prefix_len { IfOk result (λ size. IsPrefixLen size out.new) }
{
    match judge(input) {
        Ok(h) => {
            let tally = Tally {
                whole: h.returned,
                number: h.returned,
                torn: false,
            };
            sheet::write(input, Order::Little, h, tally, out)
        }
        Err(offence) => sheet::refuse(offence.0, out),
    }
}
