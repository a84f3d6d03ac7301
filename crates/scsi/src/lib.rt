// The host's reader of SCSI data: the data and the request that it answers, checked in request 2026-03's order. Data is read in
// place, and may be cut anywhere after its header, the first 32 bytes.
#![tactic(auto)]

ghost use Rattle.std.specs.Prelude.{◌≡◌};
ghost use Rattle.words.specs.declared.Order.TheVariants.{Big};
ghost use Rattle.scsi.specs.Data.{whole_of, torn_of, contents_of};
ghost use Rattle.scsi.specs.Judgement as paper;

use layout::{Descriptor, Header};
use offences::Offence;
use paper::PageCount;
use query::Query;
use words::Order;

// The header's numbers, how many whole descriptors are there, and whether one was cut through.
#[derive(Clone, Copy)]
pub struct Reading {
    pub header: Header,
    pub whole: u32,
    pub torn: bool,
}

// How many of N descriptors are there whole.
fn whole_of(number: u32, size: usize) -> u32
    ensures { result ≡ whole_of number size }
{
    if size < 32 {
        return 0;
    }
    slices::smaller(number as usize, (size - 32) / 32) as u32
}

// Whether one of N is cut through.
fn is_torn(number: u32, size: usize) -> bool
    ensures { result ≡ torn_of number size }
{
    if 32 + 32 * (number as usize) <= size {
        return false;
    }
    size % 32 != 0
}

// The first offence of the whole descriptors, and of what follows the list: any byte, where a page has padding to look at.
fn check_contents(
    bytes: &[u8],
    query: Query,
    number: u32,
    whole: u32,
    o: Order,
) -> Result<(), Offence>
    ensures { result ≡ contents_of o bytes.now query number whole }
{
    let request = query.for_pages(PageCount(0));
    offences::check_list(bytes, request, whole, o)?;
    let end = 32 + 32 * (number as usize);
    if end < bytes.len() {
        return Err(Offence(end));
    }
    Ok(())
}

// Data as the answer to a request: what was read, or the first offence.
pub fn read(bytes: &[u8], query: Query) -> Result<Reading, Offence>
    ensures { paper.heard result ≡ paper.read_of Big bytes.now query }
{
    if bytes.len() < 32 {
        return Err(Offence(0));
    }
    if query.is_refused() {
        return Err(Offence(0));
    }
    let h = Header::read(bytes, Order::Big);
    if h.returned != h.number {
        return Err(Offence(4));
    }
    let whole = whole_of(h.number, bytes.len());
    check_contents(bytes, query, h.number, whole, Order::Big)?;
    Ok(Reading {
        header: h,
        whole,
        torn: is_torn(h.number, bytes.len()),
    })
}

// Descriptor k of some data; none where it is not there whole.
pub fn descriptor(bytes: &[u8], k: u32) -> Option<Descriptor>
    ensures { result ≡ paper.slot_of Big bytes.now k }
{
    let h = Header::read(bytes, Order::Big);
    if whole_of(h.number, bytes.len()) <= k {
        return None;
    }
    Some(offences::descriptor_at(bytes, k, Order::Big))
}
