// What a status page shows of an element, whether a request asks for it, the noted element; and the bytes of the header and of an element.
#![tactic(auto)]

ghost use Rattle.std.specs.Prelude.{◌≡◌};
ghost use Rattle.layout.specs.Bytes.{header_bytes, descriptor_bytes};
ghost use Rattle.slices.specs.Lists.{stored};
ghost use Rattle.view.specs.Shown.{capacity_of, shown_of, asks, busy_of};

use cells::Note;
use layout::{Descriptor, Header};
use paper::ElementId;
use request::Request;
use table::Part;
use words::Order;

fn capacity(p: Part) -> u64
    ensures { result ≡ capacity_of p }
{
    if paper::is_on(p.unreported) {
        0xFFFF_FFFF_FFFF_FFFF
    } else {
        p.blocks
    }
}

// What a page shows of an element: its part, and the health of its place.
pub fn shown_of(p: Part, health: u8) -> Descriptor
    ensures { result ≡ shown_of p health }
{
    let id = p.id;
    Descriptor {
        id,
        restorable: false,
        kind: p.kind,
        health,
        capacity: capacity(p),
    }
}

// Whether a request asks for the element of this part and health.
pub fn does_ask(request: Request, p: Part, health: u8) -> bool
    ensures { result ≡ asks request (shown_of p health) }
{
    let x = shown_of(p, health);
    if !request.takes_id(x.id) {
        return false;
    }
    if !request.takes_type(x.kind) {
        return false;
    }
    request.takes_health(x.health)
}

pub fn busy(note: Note) -> ElementId
    ensures { result ≡ record { 0 = busy_of note } }
{
    match note {
        Note::Empty => ElementId(0),
        Note::Full(w) => w.element,
    }
}

// ---- In the lent buffer

// Stores a page's header, if it fits.
pub fn put_header(header: Header, buf: &mut [u8])
    ensures { buf.new ≡ stored buf.old 0 (header_bytes Order.Little header) }
{
    let row = header.row(Order::Little);
    row.put(buf, 0);
}

// Stores the descriptor of the element of this part and health from a place on, in either byte order, if it fits there.
pub fn put_shown(p: Part, health: u8, at: usize, o: Order, buf: &mut [u8])
    ensures { buf.new ≡ stored buf.old at (descriptor_bytes o (shown_of p health)) }
{
    let x = shown_of(p, health);
    let row = x.row(o);
    row.put(buf, at);
}
