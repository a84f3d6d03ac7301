// An ATA page as SCSI data, and back, between lent buffers: the same elements and header numbers in the other byte order.
#![tactic(auto)]

mod from_data;
mod from_page;

ghost use Rattle.std.specs.Prelude.{◌≡◌, ◌+◌, ◌*◌, ◌≤◌, length};
ghost use Rattle.layout.specs.Bytes.{header_in, descriptor_bytes, laid};
ghost use Rattle.offences.specs.First as first;
ghost use Rattle.slices.specs.Lists.{flat, stored};
ghost use Rattle.convert.specs.Convert.{list_in};
ghost use Rattle.convert.specs.Private as private;
ghost use Rattle.convert.specs.declared.Refusal.TheVariants as refusals;

pub use from_data::to_ata;
pub use from_page::to_scsi;
use layout::{Descriptor, Header};
use offences::Offence;
use strokes::Row;
use words::Order;

// Why nothing is written: the buffer is too short, or the source's first offence.
#[derive(Clone, Copy)]
pub enum Refusal {
    SmallBuffer,
    Offence(Offence),
}

impl From<Offence> for Refusal {
    ghost from_gives = { λ offence refusal. refusal ≡ refusals.Offence offence };

    fn from(offence: Offence) -> Refusal {
        Refusal::Offence(offence)
    }
}

// An offence at 4, where the returned number stands, unless a list can be converted.
fn unless(convertible: bool) -> Result<(), Offence>
    ensures { result ≡ first.unless convertible 4 }
{
    if convertible { Ok(()) } else { Err(Offence(4)) }
}

fn other(o: Order) -> Order
    ensures { result ≡ private.other o }
{
    match o {
        Order::Little => Order::Big,
        Order::Big => Order::Little,
    }
}

// The descriptor of a part in another order; its reserved bytes are zeros, whatever stood there.
fn turned_part(part: &[u8], from: Order, to: Order) -> Row
    ensures { private.Turned from to part.now result }
{
    let d = Descriptor::read(part, from);
    d.row(to)
}

// Stores the first `count` descriptors in the other order behind the header. All their bytes are there.
fn put_list(bytes: &[u8], count: u32, from: Order, buf: &mut [u8])
    requires { (32 + 32 * count ≤ length bytes.now) × (32 + 32 * count ≤ length buf.old) }
    ensures { buf.new ≡ stored buf.old 32 (flat (descriptor_bytes (private.other from)) (list_in from bytes.now count)) }
{
    let to = other(from);
    for k in 0..count as usize {
        let at = 32 + 32 * k;
        let row = turned_part(&bytes[at..at + 32], from, to);
        row.put(&mut buf[at..at + 32], 0);
    }
}

// The header, and the list behind it.
fn put_turned(bytes: &[u8], count: u32, from: Order, buf: &mut [u8])
    requires { (32 + 32 * count ≤ length bytes.now) × (32 + 32 * count ≤ length buf.old) }
    ensures { buf.new ≡ stored buf.old 0 (laid (private.other from) (header_in from bytes.now) (list_in from bytes.now count)) }
{
    let h = Header::read(bytes, from);
    let row = h.row(other(from));
    row.put(buf, 0);
    put_list(bytes, count, from, buf);
}
