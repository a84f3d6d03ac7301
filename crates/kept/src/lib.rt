// The page that the bench keeps: the calls on it, and the page that an answer wrote.
#![tactic(auto)]

ghost use Rattle.std.specs.Prelude.{◌≡◌, min, length};
ghost use Rattle.slices.specs.Lists.{stored};
ghost use Rattle.kept.specs.Kept.{lengthened, poked, kept_after, page_after, replaced, kept_with, kept_data, page_data};

use arguments::{PageCall, Poke};

// Cuts the kept page, or lengthens it with zeros, and returns its length.
fn set_length(page: &mut [u8], kept: usize, size: usize) -> usize
    ensures { (result ≡ min size (length page.old)) × (page.new ≡ lengthened kept (min size (length page.old)) page.old) }
{
    let n = size.min(page.len());
    slices::clear(page, kept, n);
    n
}

fn poke(page: &mut [u8], kept: usize, p: Poke)
    ensures { page.new ≡ poked kept p page.old }
{
    if kept <= p.place {
        return;
    }
    slices::put(page, p.place, &[p.byte]);
}

// Makes a call on the kept page, and returns how long it then is.
pub fn call(page: &mut [u8], kept: usize, call: PageCall) -> usize
    ensures { (result ≡ kept_after call kept page.old) × (page.new ≡ page_after call kept page.old) }
{
    match call {
        PageCall::Length(n) => set_length(page, kept, n),
        PageCall::Poke(p) => {
            poke(page, kept, p);
            kept
        }
        PageCall::Read(_) | PageCall::Next(_) | PageCall::ReadScsi(_) => kept,
    }
}

// Puts some bytes in the page's place, if there is room, and returns how long the kept page then is.
fn replace(page: &mut [u8], kept: usize, written: &[u8]) -> usize
    ensures { (result ≡ replaced kept written.now page.old) × (page.new ≡ stored page.old 0 written.now) }
{
    slices::put(page, 0, written);
    if page.len() < written.len() {
        return kept;
    }
    written.len()
}

// Keeps the page that an answer wrote, if it wrote one and there is room, and returns how long the kept page then is.
pub fn keep(page: &mut [u8], kept: usize, written: &[u8]) -> usize
    ensures { (result ≡ kept_with kept written.now page.old) × (page.new ≡ stored page.old 0 written.now) }
{
    if written.is_empty() {
        return kept;
    }
    replace(page, kept, written)
}

// Keeps the bytes that an answer wrote, also where there are none, if its number is 0 and there is room; and returns how long the kept page then is.
pub fn keep_data(page: &mut [u8], kept: usize, number: u8, written: &[u8]) -> usize
    ensures { (result ≡ kept_data number kept written.now page.old) × (page.new ≡ page_data number written.now page.old) }
{
    if number != 0 {
        return kept;
    }
    replace(page, kept, written)
}
