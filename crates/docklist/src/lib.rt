// The listing of SCSI data: a line for the header, one for each descriptor that is there whole, and what is missing; or the place of the first
// offence.
#![tactic(auto)]

ghost use Rattle.std.specs.Prelude.{◌≡◌, IfOk};
ghost use Rattle.io.specs.Counts.{IsPrefixLen};
ghost use Rattle.paper.specs.Output.{wrote};
ghost use Rattle.scsi.specs.Judgement.{heard};
ghost use Rattle.docklist.specs.Docklist.{judged, listed};

use offences::Offence;
use paper::Unwritten;
use scsi::Reading;
use tally::Tally;
use words::Order;

// The reader's answer; a longer input does not reach it.
fn judge(input: &[u8]) -> Result<Reading, Offence>
    ensures { heard result ≡ judged input.now }
{
    if 65536 < input.len() {
        return Err(Offence(65536));
    }
    scsi::read(input, query::plain())
}

// The whole listing, or nothing where it does not fit.
pub fn list(input: &[u8], out: &mut [u8]) -> Result<usize, Unwritten>
    ensures out_after { wrote result out.new ≡ listed input.now out.old }
    ensures prefix_len { IfOk result (λ size. IsPrefixLen size out.new) }
{
    match judge(input) {
        Ok(r) => {
            let h = r.header;
            let tally = Tally {
                whole: r.whole,
                number: h.number,
                torn: r.torn,
            };
            sheet::write(input, Order::Big, h, tally, out)
        }
        Err(offence) => sheet::refuse(offence.0, out),
    }
}
