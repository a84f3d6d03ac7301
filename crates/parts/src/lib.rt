// The descriptor itself that a line of a comparison speaks of, as part of the page that it came from.
#![tactic(auto)]

ghost use Rattle.std.specs.Prelude.{◌≡◌};
ghost use Rattle.parts.specs.Parts.{descriptor_part, part_of};

use compare::Line;
use layout::Header;
use words::Order;

// The 32 bytes of descriptor k; none where the page has no such descriptor.
pub fn descriptor_part(page: &[u8], k: u32) -> &[u8]
    ensures { result.now ≡ descriptor_part page.now k }
{
    let h = Header::read(page, Order::Little);
    if h.returned <= k {
        return &page[..0];
    }
    let base = 32 + 32 * (k as usize);
    if page.len() < base + 32 {
        return &page[..0];
    }
    &page[base..base + 32]
}

// The descriptor that a line speaks of, as part of the page that it came from, the newer if it is in both.
pub fn part<'a>(older: &'a [u8], newer: &'a [u8], line: Line) -> &'a [u8]
    ensures { result.now ≡ part_of older.now newer.now line }
{
    match line {
        Line::OnlyOlder(k) => descriptor_part(older, k),
        Line::OnlyNewer(k) => descriptor_part(newer, k),
        Line::Changed(at) => descriptor_part(newer, at.newer),
    }
}
