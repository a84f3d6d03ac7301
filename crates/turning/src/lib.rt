// What a file is converted to, in a lent buffer: a page to SCSI data, or SCSI data to pages.
#![tactic(auto)]

ghost use Rattle.std.specs.Prelude.{◌≡◌};
ghost use Rattle.convert.specs.Convert.{heard};
ghost use Rattle.turning.specs.Turning.{within, scsi_of, ata_of};

use convert::Refusal;
use offences::Offence;
use paper::PageCount;

// An input that is longer than may be converted does not reach the reader.
fn check_length(input: &[u8]) -> Result<(), Offence>
    ensures { result ≡ within input.now }
{
    if 65536 < input.len() {
        return Err(Offence(65536));
    }
    Ok(())
}

// The page that the input is, as SCSI data.
pub fn to_scsi(input: &[u8], buf: &mut [u8]) -> Result<usize, Refusal>
    ensures { heard result buf.new ≡ scsi_of input.now buf.old }
{
    check_length(input)?;
    let pages = PageCount((input.len() / 512) as u16);
    convert::to_scsi(input, request::request_for(pages), buf)
}

// The data that the input is, as so many pages.
pub fn to_ata(input: &[u8], pages: PageCount, buf: &mut [u8]) -> Result<usize, Refusal>
    ensures { heard result buf.new ≡ ata_of input.now pages.0 buf.old }
{
    check_length(input)?;
    convert::to_ata(input, query::plain(), pages, buf)
}
