// The data of a device for a SCSI host, cut at an allocation length.
#![tactic(auto)]

ghost use Rattle.std.specs.Prelude.{◌≡◌, ◌+◌, ◌-◌, ◌*◌, ◌≤◌, length, take};
ghost use Rattle.layout.specs.Bytes.{descriptor_bytes};
ghost use Rattle.paper.specs.Output.{wrote};
ghost use Rattle.slices.specs.Lists.{flat, stored};
ghost use Rattle.status.specs.Page.{list_of};
ghost use Rattle.sender.specs.Private as private;
ghost use Rattle.sender.specs.Sent.{sent};

use device::Device;
use paper::{PageCount, Unwritten};
use query::Query;
use request::Request;
use words::Order;

// How many elements are asked for.
fn number_asked(d: Device, request: Request) -> usize
    ensures { (result ≡ length (list_of d request)) × (result ≤ 128) }
{
    let ps = d.table.parts;
    let hs = d.cells.healths;
    let n = table::bounded(d.table.count);
    let mut number: usize = 0;
    for i in 0..n {
        number += view::does_ask(request, ps[i], hs[i]) as usize;
    }
    number
}

// Stores behind the header the descriptors of the elements asked for, and of the first that does not fit what there is room for.
fn put_asked(d: Device, request: Request, part: &mut [u8])
    requires { length part.old ≤ 32 + 32 * length (list_of d request) }
    ensures { part.new ≡ stored part.old 32
        (take (length part.old - 32) (flat (descriptor_bytes Order.Big) (list_of d request))) }
{
    let ps = d.table.parts;
    let hs = d.cells.healths;
    let n = table::bounded(d.table.count);
    let mut at: usize = 32;
    for i in 0..n {
        if !view::does_ask(request, ps[i], hs[i]) {
            continue;
        }
        if part.len() < at + 32 {
            let row = view::shown_of(ps[i], hs[i]).row(Order::Big);
            row.put_some(part, at);
            return;
        }
        view::put_shown(ps[i], hs[i], at, Order::Big, part);
        at += 32;
    }
}

// Fills a part with the front of the data, of which it has no more than all.
fn fill_part(d: Device, request: Request, number: usize, part: &mut [u8])
    requires { (number ≡ length (list_of d request)) × (number ≤ 128) × (length part.old ≤ 32 + 32 * number) }
    ensures { part.new ≡ take (length part.old) (private.data_for d request) }
{
    let count = number as u32;
    let header = status::header_of(d, count, count);
    let row = header.row(Order::Big);
    row.put_some(part, 0);
    put_asked(d, request, part);
}

// How many bytes were written: "the smaller of the allocation length and 32 + 32N".
pub fn send(d: Device, query: Query, allocation: u32, buf: &mut [u8]) -> Result<usize, Unwritten>
    ensures { wrote result buf.new ≡ sent d query allocation buf.old }
{
    if query.is_refused() {
        return Err(Unwritten::InvalidField);
    }
    let request = query.for_pages(PageCount(0));
    let number = number_asked(d, request);
    let size = slices::smaller(allocation as usize, 32 + 32 * number);
    if buf.len() < size {
        return Err(Unwritten::SmallBuffer);
    }
    fill_part(d, request, number, &mut buf[0..size]);
    Ok(size)
}
