// The calls of request 2026-03, each from the words of its line.
ghost use Rattle.std.specs.Prelude.{◌≡◌};
ghost use Rattle.arguments.specs.DockCalls as spec;

use crate::{Dock, DockCall, Line, PageCall, Send, ToAta};
use lines::field_at;
use paper::{ElementId, PageCount};
use query::Query;
use registers::request_at;

// FILTER, TYPE and START, from a line's second word on.
#[tactic(auto, unfolding(crate::specs::DockCalls::query_in))]
fn query_in(line: &[u8]) -> Option<Query>
    ensures { result ≡ spec.query_in line.now }
{
    let filter = field_at(line, 1, 0xFF)?;
    let report = field_at(line, 2, 0xFF)?;
    let start = field_at(line, 3, 0xFFFF_FFFF)?;
    Some(Query {
        filter: filter as u8,
        report: report as u8,
        start: ElementId(start as u32),
    })
}

#[tactic(auto, unfolding(crate::specs::DockCalls::scsi_of))]
pub fn scsi_call(line: &[u8]) -> Option<Line>
    ensures { result ≡ spec.scsi_of line.now }
{
    let query = query_in(line)?;
    let allocation = field_at(line, 4, 0xFFFF_FFFF)?;
    let length = field_at(line, 5, 0x1_0000)?;
    Some(Line::Dock(Dock {
        call: DockCall::Send(Send {
            query,
            allocation: allocation as u32,
        }),
        length: length as usize,
    }))
}

#[tactic(auto, unfolding(crate::specs::DockCalls::scsiread_of))]
pub fn scsiread_call(line: &[u8]) -> Option<Line>
    ensures { result ≡ spec.scsiread_of line.now }
{
    Some(Line::Page(PageCall::ReadScsi(query_in(line)?)))
}

#[tactic(auto, unfolding(crate::specs::DockCalls::toscsi_of))]
pub fn toscsi_call(line: &[u8]) -> Option<Line>
    ensures { result ≡ spec.toscsi_of line.now }
{
    let asked = request_at(line, 1)?;
    let length = field_at(line, 4, 0x1_0000)?;
    Some(Line::Dock(Dock {
        call: DockCall::ToScsi(asked),
        length: length as usize,
    }))
}

#[tactic(auto, unfolding(crate::specs::DockCalls::toata_of))]
pub fn toata_call(line: &[u8]) -> Option<Line>
    ensures { result ≡ spec.toata_of line.now }
{
    let query = query_in(line)?;
    let pages = field_at(line, 4, 0xFFFF)?;
    let length = field_at(line, 5, 0x1_0000)?;
    Some(Line::Dock(Dock {
        call: DockCall::ToAta(ToAta {
            query,
            pages: PageCount(pages as u16),
        }),
        length: length as usize,
    }))
}
