// Two status pages compared: by ascending identifier what is only in the older, only in the newer, or in both and changed.
#![tactic(auto)]

ghost use Rattle.std.specs.Prelude.{◌≡◌, true, ◌+◌, ◌-◌, ◌*◌, ◌^◌, ◌≤◌, ◌<◌, leb, length};
ghost use Rattle.compare.specs.Differences.{alike};
ghost use Rattle.compare.specs.Private as private;
ghost use Rattle.compare.specs.Walk as paper;
ghost use Rattle.compare.specs.Walk.{first, frame_of, key_at, found_by, step_at, next_to, next_of};
ghost use Rattle.reach.specs.Pages.{element_at};

use layout::{Descriptor, Header};
use paper::ElementId;
use words::Order;

// A place in each page: how many of its descriptors lie before.
#[repr(C)]
#[derive(Clone, Copy)]
pub struct Cursor {
    pub older: u32,
    pub newer: u32,
}

// A difference: the number of the descriptor in the page that has it, or in both.
#[derive(Clone, Copy)]
pub enum Line {
    OnlyOlder(u32),
    OnlyNewer(u32),
    Changed(Cursor),
}

// Where a walk ends: the place past the last descriptor of each page, and the last identifier that is compared.
#[derive(Clone, Copy)]
pub struct Frame {
    pub last: Cursor,
    pub end: ElementId,
}

// What the walk hits: a difference, and where it goes on. Where there is none any more, a walk is done.
#[derive(Clone, Copy)]
pub struct Hit {
    pub line: Line,
    pub next: Cursor,
}

impl Cursor {
    pub fn first() -> Cursor
        ensures { result ≡ first }
    {
        Cursor { older: 0, newer: 0 }
    }
}

// ---- A descriptor

// Whether the bytes of descriptor k are there.
fn is_there(page: &[u8], k: u32) -> bool
    ensures { result ≡ leb (64 + 32 * k) (length page.now) }
{
    64 + 32 * (k as usize) <= page.len()
}

// Descriptor k, whose bytes are there: none is tested for.
fn whole_at(page: &[u8], k: u32) -> Descriptor
    requires { 64 + 32 * k ≤ length page.now }
    ensures { result ≡ element_at page.now k }
{
    let base = 32 + 32 * (k as usize);
    Descriptor::read(&page[base..base + 32], Order::Little)
}

// The identifier of descriptor k: where its bytes are there, no other is read.
fn id_at(page: &[u8], k: u32) -> ElementId
    ensures { result ≡ (element_at page.now k).id }
{
    if is_there(page, k) {
        whole_at(page, k).id
    } else {
        offences::descriptor_at(page, k, Order::Little).id
    }
}

// The key of place k, by which the pages are merged, of a page with `count` descriptors. After a key up to the end there is a place.
fn key_at(page: &[u8], count: u32, k: u32, end: ElementId) -> usize
    ensures { (result ≡ key_at page.now count k end) × (result ≤ end.0 → k + 1 < 2 ^ 32) }
{
    if k < count {
        id_at(page, k).0 as usize
    } else {
        end.0 as usize + 1
    }
}

// Unchanged: of all fields but the identifier, so no derived `==`.
fn is_alike(d: Descriptor, e: Descriptor) -> bool
    ensures { result ≡ alike d e }
{
    d.kind == e.kind
        && d.health == e.health
        && d.restorable == e.restorable
        && d.capacity == e.capacity
}

// ---- Past what agrees

// Whether both pages have a descriptor at the cursor. Then there is a place after it.
fn is_inside(last: Cursor, at: Cursor) -> bool
    ensures { (result ≡ private.is_inside last at) × (result ≡ true → (at.older + 1 < 2 ^ 32) × (at.newer + 1 < 2 ^ 32)) }
{
    at.older < last.older && at.newer < last.newer
}

// Whether two descriptors are one element, not above the end, and unchanged.
fn do_agree(d: Descriptor, e: Descriptor, end: ElementId) -> bool
    ensures { result ≡ private.agree_by d e end }
{
    d.id.0 == e.id.0 && d.id.0 <= end.0 && is_alike(d, e)
}

// Past what agrees, of pages that may be short.
fn past(older: &[u8], newer: &[u8], frame: Frame, from: Cursor) -> Cursor
    ensures { result ≡ paper.past older.now newer.now frame (frame.last.older - from.older) from }
{
    let mut at = from;
    while is_inside(frame.last, at) {
        let d = offences::descriptor_at(older, at.older, Order::Little);
        let e = offences::descriptor_at(newer, at.newer, Order::Little);
        if !do_agree(d, e, frame.end) {
            break;
        }
        at = Cursor {
            older: at.older + 1,
            newer: at.newer + 1,
        };
    }
    at
}

// ---- A step

fn found(line: Line, older: u32, newer: u32) -> Hit
    ensures { result ≡ paper.found line older newer }
{
    Hit {
        line,
        next: Cursor { older, newer },
    }
}

// The difference at the cursor, where the older's key is a, the newer's b. After the nearer one there is a place.
fn found_by(a: usize, b: usize, at: Cursor) -> Hit
    requires { (a ≤ b → at.older + 1 < 2 ^ 32) × (b ≤ a → at.newer + 1 < 2 ^ 32) }
    ensures { result ≡ found_by a b at }
{
    let i = at.older;
    let j = at.newer;
    if a < b {
        return found(Line::OnlyOlder(i), i + 1, j);
    }
    if b < a {
        return found(Line::OnlyNewer(j), i, j + 1);
    }
    found(Line::Changed(at), i + 1, j + 1)
}

// What stands at the cursor, where the older's key is a, the newer's b. After a key up to the end there is a place.
fn step_by(a: usize, b: usize, end: ElementId, at: Cursor) -> Option<Hit>
    requires { (a ≤ end.0 → at.older + 1 < 2 ^ 32) × (b ≤ end.0 → at.newer + 1 < 2 ^ 32) }
    ensures { result ≡ private.step_by a b end at }
{
    if (end.0 as usize) < a.min(b) {
        return None;
    }
    Some(found_by(a, b, at))
}

// What stands at the cursor, where the pages do not agree.
fn step_at(older: &[u8], newer: &[u8], frame: Frame, at: Cursor) -> Option<Hit>
    ensures { result ≡ step_at older.now newer.now frame at }
{
    let end = frame.end;
    let a = key_at(older, frame.last.older, at.older, end);
    let b = key_at(newer, frame.last.newer, at.newer, end);
    step_by(a, b, end, at)
}

// What stands at the cursor, by the two descriptors there, where they do not agree. After each there is a place. Whether they are one element is
// asked first, as `do_agree` asks it, so that the compiled code asks it once.
fn step_of(d: Descriptor, e: Descriptor, end: ElementId, at: Cursor) -> Option<Hit>
    requires { (at.older + 1 < 2 ^ 32) × (at.newer + 1 < 2 ^ 32) }
    ensures { result ≡ private.step_by d.id.0 e.id.0 end at }
{
    let a = d.id;
    let b = e.id;
    if a.0 != b.0 {
        return step_by(a.0 as usize, b.0 as usize, end, at);
    }
    if end.0 < a.0 {
        return None;
    }
    Some(found(Line::Changed(at), at.older + 1, at.newer + 1))
}

// ---- The next difference

// Whether the bytes of the first `count` descriptors are there.
fn is_whole(page: &[u8], count: u32) -> bool
    ensures { result ≡ leb (32 + 32 * count) (length page.now) }
{
    32 + 32 * (count as usize) <= page.len()
}

// So many places lie ahead in both pages.
fn in_both(last: Cursor, from: Cursor) -> u32
    ensures { private.Both last from result }
{
    let n = last.older.saturating_sub(from.older);
    let m = last.newer.saturating_sub(from.newer);
    n.min(m)
}

// So many pairs of descriptors lie ahead, whose bytes are there: none, where a page is too short for its count.
fn pairs(older: &[u8], newer: &[u8], last: Cursor, from: Cursor) -> u32
    ensures { private.Pairs older.now newer.now last from result }
{
    if is_whole(older, last.older) && is_whole(newer, last.newer) {
        in_both(last, from)
    } else {
        0
    }
}

// The next difference, of pages that may be short.
fn next_part(older: &[u8], newer: &[u8], frame: Frame, from: Cursor) -> Option<Hit>
    ensures { result ≡ next_to older.now newer.now frame from }
{
    let at = past(older, newer, frame, from);
    step_at(older, newer, frame, at)
}

// Where a walk over two pages ends.
pub fn frame_of(older: &[u8], newer: &[u8]) -> Frame
    ensures { result ≡ frame_of older.now newer.now }
{
    let h = Header::read(older, Order::Little);
    let g = Header::read(newer, Order::Little);
    Frame {
        last: Cursor {
            older: h.returned,
            newer: g.returned,
        },
        end: reach::last_compared(older, newer),
    }
}

// The next difference from a cursor on, in a frame that was made once for the whole walk. Pairs that are there are not tested for one by one; past
// them the rest of the way is `next_part`'s.
pub fn next_to(older: &[u8], newer: &[u8], frame: Frame, from: Cursor) -> Option<Hit>
    ensures { result ≡ next_to older.now newer.now frame from }
{
    let n = pairs(older, newer, frame.last, from);
    for k in 0..n {
        let at = Cursor {
            older: from.older + k,
            newer: from.newer + k,
        };
        let d = whole_at(older, at.older);
        let e = whole_at(newer, at.newer);
        if !do_agree(d, e, frame.end) {
            return step_of(d, e, frame.end, at);
        }
    }
    let rest = Cursor {
        older: from.older + n,
        newer: from.newer + n,
    };
    next_part(older, newer, frame, rest)
}

// The next difference from a cursor on; what lies before the cursor counts as not there.
pub fn next(older: &[u8], newer: &[u8], from: Cursor) -> Option<Hit>
    ensures { result ≡ next_of older.now newer.now from }
{
    let frame = frame_of(older, newer);
    next_to(older, newer, frame, from)
}
