// The host's reader of a status page: the page and the request that it answers, checked in document 01's order. A page is read in place.
#![tactic(auto)]

ghost use Rattle.std.specs.Prelude.{◌≡◌, ◌+◌, ◌-◌, ◌*◌, ◌≤◌, length};
ghost use Rattle.layout.specs.Bytes.{returned_of};
ghost use Rattle.offences.specs.First.{first_below};
ghost use Rattle.words.specs.declared.Order.TheVariants.{Little};
ghost use Rattle.reader.specs.Judgement as paper;
ghost use Rattle.reader.specs.Page.{padding_at, contents_of};

use layout::{Descriptor, Header};
use offences::Offence;
use paper::PageCount;
use request::Request;
use words::Order;

// The first byte from a place on that is not 0.
fn check_padding(page: &[u8], from: usize) -> Result<(), Offence>
    requires { from ≤ length page.now }
    ensures { result ≡ first_below (length page.now - from) (padding_at page.now from) }
{
    for (i, byte) in page[from..].iter().enumerate() {
        if *byte != 0 {
            return Err(Offence(from + i));
        }
    }
    Ok(())
}

// The first offence of the descriptors and of the padding after them.
fn check_contents(page: &[u8], request: Request, count: u32, o: Order) -> Result<(), Offence>
    requires { 32 + 32 * count ≤ length page.now }
    ensures { result ≡ contents_of o page.now request count }
{
    offences::check_list(page, request, count, o)?;
    check_padding(page, 32 + 32 * (count as usize))
}

fn returned_of(number: u32, pages: PageCount) -> usize
    requires { 1 ≤ pages.0 }
    ensures { result ≡ returned_of number pages.0 }
{
    slices::smaller(number as usize, 16 * (pages.0 as usize) - 1)
}

// A page as the answer to a request: the header's numbers, or the first offence. To be put into its callers: called apart, a listing of a page with
// much padding takes half as much again.
#[inline]
pub fn read(page: &[u8], request: Request) -> Result<Header, Offence>
    ensures { paper.heard result ≡ paper.read_of Little page.now request }
{
    if request.is_refused() {
        return Err(Offence(0));
    }
    if page.len() != 512 * (request.count.0 as usize) {
        return Err(Offence(0));
    }
    let h = Header::read(page, Order::Little);
    if h.returned as usize != returned_of(h.number, request.count) {
        return Err(Offence(4));
    }
    check_contents(page, request, h.returned, Order::Little)?;
    Ok(h)
}

// Descriptor k of a page; none at or above returned. A byte past the end counts as 0.
pub fn descriptor(page: &[u8], k: u32) -> Option<Descriptor>
    ensures { result ≡ paper.slot_of Little page.now k }
{
    let h = Header::read(page, Order::Little);
    if h.returned <= k {
        return None;
    }
    Some(offences::descriptor_at(page, k, Order::Little))
}
