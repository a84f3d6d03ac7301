// A SCSI host's request for status data: which are due 4, and the ATA request of the same fields.
#![tactic(auto)]

ghost use Rattle.std.specs.Prelude.{◌≡◌};
ghost use Rattle.query.specs.Queries as spec;
ghost use Rattle.query.specs.Queries.{due_four, asked_for};

use paper::{ElementId, Lba, PageCount};
use request::Request;

// Each field as it came.
#[repr(C)]
#[derive(Clone, Copy)]
pub struct Query {
    pub filter: u8,
    pub report: u8,
    pub start: ElementId,
}

impl Query {
    // Whether the request is due 4.
    pub fn is_refused(self) -> bool
        ensures { result ≡ due_four self }
    {
        if 1 < self.filter {
            return true;
        }
        1 < self.report
    }

    // The ATA request of these fields, for some pages.
    pub fn for_pages(self, pages: PageCount) -> Request
        ensures { result ≡ asked_for pages.0 self }
    {
        let filter = (self.filter % 4) as u16;
        let report = (self.report % 16) as u16;
        Request {
            feature: filter * 16384 + report * 256,
            count: pages,
            lba: Lba(self.start.0 as u64),
        }
    }
}

// What the listing reads its input as an answer to.
pub fn plain() -> Query
    ensures { result ≡ spec.plain }
{
    Query {
        filter: 0,
        report: 0,
        start: ElementId(0),
    }
}
