// GET PHYSICAL ELEMENT STATUS: the list and the filled page. The device is only read.
#![tactic(auto)]

ghost use Rattle.std.specs.Prelude.{◌≡◌, ◌++◌, ◌+◌, ◌-◌, ◌*◌, ◌≤◌, length, drop, replicate};
ghost use Rattle.device.specs.Record.{removed_number};
ghost use Rattle.layout.specs.Bytes.{descriptor_bytes};
ghost use Rattle.paper.specs.Told.{said};
ghost use Rattle.request.specs.Requests.{pages_of};
ghost use Rattle.slices.specs.Lists.{flat, stored};
ghost use Rattle.status.specs.Page.{headed, page_of, shown};
ghost use Rattle.status.specs.Private as private;

use device::Device;
use layout::Header;
use paper::{Answer, Security};
use request::Request;
use table::Part;
use words::Order;

// The header of a list of this number, of which so many are returned. The number at FFh is of the whole table.
pub fn header_of(d: Device, number: u32, returned: u32) -> Header
    ensures { result ≡ headed number returned d.cells.note d.table.limit (removed_number d) }
{
    let cells = d.cells;
    let note = cells.note;
    let hs = cells.healths;
    Header {
        number,
        returned,
        busy: view::busy(note),
        limit: d.table.limit,
        removed: table::removed(hs, d.table.count),
    }
}

// Stores the descriptors of the elements at the first of the places.
fn put_list(ps: [Part; 128], hs: [u8; 128], places: [u8; 128], returned: usize, buf: &mut [u8])
    requires { (returned ≤ 128) × (32 + 32 * returned ≤ length buf.old) × private.Slots places }
    ensures { buf.new ≡ stored buf.old 32 (flat (descriptor_bytes Order.Little) (private.shown_there ps hs places returned)) }
{
    for k in 0..returned {
        let j = places[k] as usize;
        view::put_shown(ps[j], hs[j], 32 + 32 * k, Order::Little, buf);
    }
}

// Stores zeros behind the descriptors, to the end of the page. A zero that the compiler knows would turn the loop into a call of memset, which may
// store a byte twice. This one is 0 because at most 128 elements are listed, which the compiler does not see.
fn put_zeros(number: usize, returned: usize, pages: usize, buf: &mut [u8])
    requires { (number ≤ 128) × (returned + 1 ≤ 16 * pages) × (pages ≤ 65535) }
    ensures { buf.new ≡ stored buf.old (32 + 32 * returned) (replicate (512 * pages - (32 + 32 * returned)) 0) }
{
    let zero = (number / 4096) as u32;
    let rows = 16 * pages - 1 - returned;
    strokes::put_times(buf, 32 + 32 * returned, zero, 8 * rows);
}

// Fills the page, in ascending order, each byte once: the header, the descriptors, the zeros.
// The places of what is asked for are put down first, so that each element is judged once.
fn fill(d: Device, request: Request, buf: &mut [u8])
    requires { (1 ≤ pages_of request) × (512 * pages_of request ≤ length buf.old) }
    ensures { buf.new ≡ page_of d request ++ drop (512 * pages_of request) buf.old }
{
    let ps = d.table.parts;
    let hs = d.cells.healths;
    let n = table::bounded(d.table.count);
    let mut places: [u8; 128] = [0; 128];
    let mut number: usize = 0;
    for i in 0..n {
        places[number] = i as u8;
        number += view::does_ask(request, ps[i], hs[i]) as usize;
    }
    let returned = slices::smaller(number, 16 * (request.count.0 as usize) - 1);
    let header = header_of(d, number as u32, returned as u32);
    view::put_header(header, buf);
    put_list(ps, hs, places, returned, buf);
    put_zeros(number, returned, request.count.0 as usize, buf);
}

// The answer, and the page if it is 0.
pub fn show(d: Device, security: Security, request: Request, buf: &mut [u8]) -> Answer
    ensures { said result buf.new ≡ shown d security request buf.old }
{
    let answer = request::judge(security, request, buf.len());
    if u8::from(answer) == 0 {
        fill(d, request, buf);
    }
    answer
}
