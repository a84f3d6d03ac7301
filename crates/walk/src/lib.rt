// A host's walk over small pages: what it does after a page, by the page that came and the request that it answers, and its next request.
#![tactic(auto)]

ghost use Rattle.std.specs.Prelude.{◌≡◌, Ok};
ghost use Rattle.paper.specs.Told.{tells};
ghost use Rattle.walk.specs.Next.{heard, after, next_of, next_request};

use offences::Offence;
use paper::{ElementId, Lba, PageCount};
use request::Request;

// The last identifier plus one, if it is one.
fn start_after(last: ElementId) -> Option<ElementId>
    ensures { heard (Ok result) ≡ tells 0 (after last) }
{
    let next = last.0.checked_add(1)?;
    Some(ElementId(next))
}

// What the walk does after a page, as the answer to a request: where the next request starts, none where the walk ends; or the page's first offence.
pub fn next(page: &[u8], request: Request) -> Result<Option<ElementId>, Offence>
    ensures { heard result ≡ next_of page.now request }
{
    reader::read(page, request)?;
    let Some(last) = reach::reach(page) else {
        return Ok(None);
    };
    Ok(start_after(last))
}

// The request after one, from a start on and for so many pages.
pub fn next_request(request: Request, start: ElementId, pages: PageCount) -> Request
    ensures { result ≡ next_request request start pages }
{
    Request {
        feature: request.feature,
        count: pages,
        lba: Lba(start.0 as u64),
    }
}
