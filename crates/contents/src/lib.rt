// What the bench says of the page or the SCSI data that it reads: what it holds, or where it is refused; stored straight into a lent buffer.
#![tactic(auto)]

mod dock;

ghost use Rattle.std.specs.Prelude.{◌≡◌};
ghost use Rattle.reader.specs.Judgement.{heard};
ghost use Rattle.writing.specs.Private as writing·private;
ghost use Rattle.writing.specs.Writing.{stored_in, ended_in};
ghost use Rattle.contents.specs.Contents.{held_line, slot_line, slots_below, list_text, reading_for, reading_of};
ghost use Rattle.contents.specs.Private as private;

pub use dock::put_scsi_reading;
use layout::{Descriptor, Header};
use offences::Offence;
use request::Request;
use words::Order;

// ---- A descriptor's line

// Its identifier and bit, each with the space after it.
fn head(d: Descriptor) -> [u8; 11]
    ensures { result ≡ private.head_of d }
{
    let i = writing::hex8(d.id.0);
    let bit = 48 + slices::bit(d.restorable);
    [i[0], i[1], i[2], i[3], i[4], i[5], i[6], i[7], 32, bit, 32]
}

fn put_held(out: &mut [u8], at: usize, d: Descriptor) -> usize
    ensures { writing·private.Puts out.old at (held_line d) out.new result }
{
    let begun = head(d);
    let a = writing::word(out, at, &begun);
    let b = rows::put_values(out, a, d);
    writing::word(out, b, b"\n")
}

fn put_slot(out: &mut [u8], at: usize, slot: Option<Descriptor>) -> usize
    ensures { writing·private.Puts out.old at (slot_line slot) out.new result }
{
    match slot {
        None => at,
        Some(d) => put_held(out, at, d),
    }
}

// The descriptor at a number, of a page or of SCSI data.
fn slot_at(bytes: &[u8], k: u32, o: Order) -> Option<Descriptor>
    ensures { result ≡ private.slot_at o bytes.now k }
{
    match o {
        Order::Little => reader::descriptor(bytes, k),
        Order::Big => scsi::descriptor(bytes, k),
    }
}

// The lines of the first `count` descriptors.
fn put_slots(out: &mut [u8], from: usize, bytes: &[u8], count: u32, o: Order) -> usize
    ensures { writing·private.Puts out.old from (slots_below (private.slot_at o bytes.now) count) out.new result }
{
    let mut at = from;
    for k in 0..count {
        at = put_slot(out, at, slot_at(bytes, k, o));
    }
    at
}

// ---- The whole text

// The header's line, and the lines of the first `count` descriptors.
fn put_list(out: &mut [u8], at: usize, bytes: &[u8], h: Header, count: u32, o: Order) -> usize
    ensures { writing·private.Puts out.old at (list_text h (private.slot_at o bytes.now) count) out.new result }
{
    let a = writing::word(out, at, b"0\n");
    let b = heading::put_header(out, a, h);
    put_slots(out, b, bytes, count, o)
}

fn put_judged(out: &mut [u8], at: usize, page: &[u8], answer: Result<Header, Offence>) -> usize
    ensures { writing·private.Puts out.old at (reading_for page.now (heard answer).state) out.new result }
{
    match answer {
        Ok(h) => put_list(out, at, page, h, h.returned, Order::Little),
        Err(offence) => writing::numbered(out, at, b"9 at ", offence.0 as u64),
    }
}

// Stores it from a place on and answers where it ends; nothing, where fewer than 80,000 bytes are there, which are enough for every page.
pub fn put_reading(out: &mut [u8], at: usize, page: &[u8], request: Request) -> usize
    ensures out_after { out.new ≡ stored_in 80000 out.old at (reading_of page.now request) }
    ensures value { result ≡ ended_in 80000 out.old at (reading_of page.now request) }
{
    if !slices::does_fit(80000, at, out.len()) {
        return at;
    }
    let kept = slices::head(page, 65536);
    put_judged(out, at, kept, reader::read(kept, request))
}
