// The descriptors of a status page, in either byte order: the one at a number, and the first offence of a list, in document 01's order.
#![tactic(auto)]

ghost use Rattle.std.specs.Prelude.{◌≡◌, true, ℕ, ◌+◌, ◌^◌, ◌≤◌, ◌<◌, length, drop};
ghost use Rattle.layout.specs.Bytes.{descriptor_in};
ghost use Rattle.offences.specs.Checks.{descriptor_at, in_turn, earned, check_of, offence_at};
ghost use Rattle.offences.specs.First.{first_below};
ghost use Rattle.offences.specs.Private as private;

use layout::Descriptor;
use paper::ElementId;
use request::Request;
use words::Order;

// What a check refuses: the byte place of an offence, counted from the page's first byte.
#[derive(Clone, Copy)]
pub struct Offence(pub usize);

// Where a list is taken up: a descriptor's place, and the identifier before it, 0 being none.
#[derive(Clone, Copy)]
struct Place {
    at: usize,
    last: ElementId,
}

// Whether an identifier may follow the last one, 0 being none: 0 itself follows nothing.
fn is_in_turn(request: Request, last: ElementId, id: ElementId) -> bool
    ensures { result ≡ in_turn request last.0 id.0 }
{
    if !request.takes_id(id) {
        return false;
    }
    last.0 < id.0
}

// Whether the restoration bit is clear or the element is removed.
fn is_earned(d: Descriptor) -> bool
    ensures { result ≡ earned d }
{
    if !d.restorable {
        return true;
    }
    d.health == 0xFF
}

// The first offence of a descriptor that starts at `base`, after the last identifier.
fn judge(d: Descriptor, request: Request, last: ElementId, base: usize) -> Result<(), Offence>
    requires { base + 32 < 2 ^ 64 }
    ensures { result ≡ check_of request last.0 base d }
{
    let id = d.id;
    if !is_in_turn(request, last, id) {
        return Err(Offence(base + 4));
    }
    if !is_earned(d) {
        return Err(Offence(base + 13));
    }
    if !request.takes_type(d.kind) {
        return Err(Offence(base + 14));
    }
    if !request.takes_health(d.health) {
        return Err(Offence(base + 15));
    }
    Ok(())
}

// Descriptor k of a page, in an order. A byte past the end counts as 0.
pub fn descriptor_at(page: &[u8], k: u32, o: Order) -> Descriptor
    ensures { result ≡ descriptor_at o page.now k }
{
    let base = 32 + 32 * (k as usize);
    Descriptor::read_at(page, base, o)
}

// ---- Past plain descriptors

// Whether a descriptor is clean and its restoration bit clear. What is promised is that it is clean, and of any other nothing.
fn is_plain(d: Descriptor, request: Request, last: ElementId) -> bool
    ensures { result ≡ true → (base : ℕ) → check_of request last.0 base d ≡ Ok tt }
{
    let id = d.id;
    if !is_in_turn(request, last, id) {
        return false;
    }
    if d.restorable {
        return false;
    }
    if !request.takes_type(d.kind) {
        return false;
    }
    request.takes_health(d.health)
}

// The descriptor at a place, whose bytes are there, so that none is tested for.
fn whole_at(page: &[u8], at: usize, o: Order) -> Descriptor
    requires { at + 32 ≤ length page.now }
    ensures { result ≡ descriptor_in o (drop at page.now) }
{
    Descriptor::read(&page[at..at + 32], o)
}

// Past plain descriptors, two a turn, if the list is all there. An odd last one is left.
// No `for` over pairs: the place where a turn ends is the answer, and would be counted beside them.
fn past_plain(page: &[u8], request: Request, count: u32, o: Order, from: Place) -> Place
    requires { private.Swept o page.now request count from.at from.last.0 }
    ensures { (from.at ≤ result.at) × private.Swept o page.now request count result.at result.last.0 }
{
    let last_at = 32 * (count as usize);
    if page.len() < last_at + 32 {
        return from;
    }
    let mut last = from.last;
    let mut at = from.at;
    while at < last_at {
        let d = whole_at(page, at, o);
        if !is_plain(d, request, last) {
            return Place { at, last };
        }
        let id = d.id;
        let next = at + 32;
        let e = whole_at(page, next, o);
        if !is_plain(e, request, id) {
            return Place { at: next, last: id };
        }
        last = e.id;
        at = next + 32;
    }
    Place { at, last }
}

// ---- The list

// The first offence of the first `count` descriptors: past plain ones, and what is left judged one by one.
// No `for`: how far a turn goes is told only by the plain descriptors that it finds.
pub fn check_list(page: &[u8], request: Request, count: u32, o: Order) -> Result<(), Offence>
    ensures { result ≡ first_below count (offence_at o page.now request) }
{
    let end = 32 + 32 * (count as usize);
    let mut next = Place {
        at: 32,
        last: ElementId(0),
    };
    loop {
        next = past_plain(page, request, count, o, next);
        let at = next.at;
        if end <= at {
            return Ok(());
        }
        let d = Descriptor::read_at(page, at, o);
        judge(d, request, next.last, at)?;
        next = Place {
            at: at + 32,
            last: d.id,
        };
    }
}
