// How far a status page reaches; how far two are compared, or which of them is refused.
#![tactic(auto)]

ghost use Rattle.std.specs.Prelude.{◌≡◌};
ghost use Rattle.offences.specs.Checks.{last_before};
ghost use Rattle.words.specs.declared.Order.TheVariants.{Little};
ghost use Rattle.reach.specs.Opening.{heard, open_of, judged};
ghost use Rattle.reach.specs.Pages.{reach_of, smallest, bound_of, end_of};

use layout::Header;
use paper::{ElementId, PageCount};
use request::Request;
use words::Order;

// Which of the two pages the reader refuses.
#[derive(Clone, Copy)]
pub enum Turn {
    Older,
    Newer,
}

// The identifier before descriptor k, 0 before the first.
fn id_before(page: &[u8], k: u32) -> ElementId
    ensures { result.0 ≡ last_before Little page.now k }
{
    if k == 0 {
        return ElementId(0);
    }
    let last = offences::descriptor_at(page, k - 1, Order::Little);
    last.id
}

// The bound of one page: its last identifier if it was cut short, none if it is whole.
pub fn reach(page: &[u8]) -> Option<ElementId>
    ensures { result ≡ reach_of page.now }
{
    let h = Header::read(page, Order::Little);
    if h.returned < h.number {
        Some(id_before(page, h.returned))
    } else {
        None
    }
}

fn smallest_of(a: Option<ElementId>, b: Option<ElementId>) -> Option<ElementId>
    ensures { result ≡ smallest a b }
{
    match (a, b) {
        (Some(x), Some(y)) => if x.0 < y.0 { a } else { b },
        _ => a.or(b),
    }
}

// Up to which identifier two pages are compared, itself included; none, if both are whole.
// Two pages go as a pair of slices, the older first, here and in every crate above: in a struct they were no plainer, since each contract speaks of
// either by itself.
fn bound_of(older: &[u8], newer: &[u8]) -> Option<ElementId>
    ensures { result ≡ bound_of older.now newer.now }
{
    smallest_of(reach(older), reach(newer))
}

// Whether two pages can be compared as answers to one request, and up to which identifier.
pub fn open(older: &[u8], newer: &[u8], request: Request) -> Result<Option<ElementId>, Turn>
    ensures { heard result ≡ open_of older.now newer.now request }
{
    reader::read(older, request).or(Err(Turn::Older))?;
    reader::read(newer, request).or(Err(Turn::Newer))?;
    Ok(bound_of(older, newer))
}

// Both pages as answers to the listing's request, with as many pages as the older has.
pub fn judge(older: &[u8], newer: &[u8]) -> Result<Option<ElementId>, Turn>
    ensures { heard result ≡ judged older.now newer.now }
{
    if 65536 < older.len() {
        return Err(Turn::Older);
    }
    let pages = PageCount((older.len() / 512) as u16);
    open(older, newer, request::request_for(pages))
}

// The last identifier that is compared.
pub fn last_compared(older: &[u8], newer: &[u8]) -> ElementId
    ensures { result ≡ end_of (bound_of older.now newer.now) }
{
    bound_of(older, newer).unwrap_or(ElementId(0xFFFF_FFFF))
}
