// "The firmware keeps one device record in place and lends it to each call": the calls by value, over what is lent. A call that changes the
// device copies it out, makes the call by value and stores back the device that it hands back; one that only reads stores nothing.
#![tactic(auto)]

ghost use Rattle.std.specs.Prelude.{None, ◌≡◌, cond, leb, length, take, replicate};
ghost use Rattle.conduct.specs.Fits.{Fits};
ghost use Rattle.device.specs.Machine as machine;
ghost use Rattle.device.specs.Machine.{told};
ghost use Rattle.making.specs.Making.{made_of};
ghost use Rattle.offer.specs.Check.{check_of, verdict};
ghost use Rattle.offer.specs.Elements.{blank};
ghost use Rattle.offer.specs.Search as search;
ghost use Rattle.paper.specs.Output.{output};
ghost use Rattle.paper.specs.Told.{said};
ghost use Rattle.status.specs.Lent.{lent};
ghost use Rattle.status.specs.Page.{shown};
ghost use Rattle.sender.specs.Sent.{sent};
ghost use Rattle.calls.specs.Offered.{array_of, check_list, find_list, made_from};

use device::{Device, Stepped};
use offer::{Element, Offer};
use paper::{Answer, ElementId, Lba, Registers, Security, Written};
use query::Query;
use request::Request;

// ---- The device, changed in place

// Stores back the device that a call by value hands back.
fn stored_back(s: Stepped, d: &mut Device) -> Answer
    ensures answer { result ≡ s.answer }
    ensures device { d.new ≡ s.device }
{
    *d = s.device;
    s.answer
}

pub fn remove(d: &mut Device, security: Security, feature: u16, count: u16, lba: Lba) -> Answer
    ensures { said result d.new ≡ told d.old (machine.command security (record { code = 0x7C; feature = feature; count = count; lba = lba }) 0) }
{
    stored_back((*d).remove(security, feature, count, lba), d)
}

pub fn step(d: &mut Device) -> Answer
    ensures { said result d.new ≡ told d.old machine.step }
{
    stored_back((*d).step(), d)
}

pub fn media_error(d: &mut Device) -> Answer
    ensures { said result d.new ≡ told d.old machine.media_error }
{
    stored_back((*d).media_error(), d)
}

pub fn power_cut(d: &mut Device) -> Answer
    ensures { said result d.new ≡ told d.old machine.power_cut }
{
    stored_back((*d).power_cut(), d)
}

pub fn comreset(d: &mut Device) -> Answer
    ensures { said result d.new ≡ told d.old machine.comreset }
{
    stored_back((*d).comreset(), d)
}

pub fn hardware_reset(d: &mut Device) -> Answer
    ensures { said result d.new ≡ told d.old machine.hardware_reset }
{
    stored_back((*d).hardware_reset(), d)
}

pub fn software_reset(d: &mut Device) -> Answer
    ensures { said result d.new ≡ told d.old machine.software_reset }
{
    stored_back((*d).software_reset(), d)
}

pub fn grade(d: &mut Device, id: ElementId, health: u8) -> Answer
    ensures { said result d.new ≡ told d.old (machine.grade id health) }
{
    stored_back((*d).grade(id, health), d)
}

// The front call. The page of 12h is filled by `show` below: called from two places, the call by value would be compiled apart, and take a
// copy of the device. The registers come one by one: as a struct they would be read back from memory, 6 instructions more on every path.
pub fn command(
    d: &mut Device,
    security: Security,
    code: u8,
    feature: u16,
    count: u16,
    lba: Lba,
    buf: &mut [u8],
) -> Answer
    ensures { (said result d.new ≡ told d.old (machine.command security (record { code = code; feature = feature; count = count; lba = lba }) (length buf.old)))
        × (buf.new ≡ lent d.old security (record { code = code; feature = feature; count = count; lba = lba }) buf.old) }
{
    let registers = Registers {
        code,
        feature,
        count,
        lba,
    };
    let r = commands::command(*d, security, registers, buf.len());
    *d = r.device;
    if code == 0x12 {
        show(d, security, Request::from(registers), buf);
    }
    r.answer
}

// ---- The device, read

// The status page.
pub fn show(d: &Device, security: Security, request: Request, buf: &mut [u8]) -> Answer
    ensures { said result buf.new ≡ shown d.now security request buf.old }
{
    status::show(*d, security, request, buf)
}

// The data for a SCSI host. No `Result` comes back: that goes through memory, and each element sent costs two instructions more.
pub fn send(d: &Device, query: Query, allocation: u32, buf: &mut [u8]) -> Written
    ensures { said result.answer (output result.count buf.new) ≡ sent d.now query allocation buf.old }
{
    Written::of(sender::send(*d, query, allocation, buf))
}

// ---- The caller's own list of records

fn blanks() -> [Element; 128]
    ensures { result ≡ replicate 128 blank }
{
    [offer::blank(); 128]
}

// The records of a list in an array, with blanks after them.
pub fn copied(list: &[Element]) -> [Element; 128]
    ensures { result ≡ array_of list.now }
{
    let n = table::bounded(list.len());
    let mut es = blanks();
    for i in 0..n {
        es[i] = list[i];
    }
    es
}

fn check_in(elements: [Element; 128], count: usize, limit: u16) -> Option<u64>
    ensures { verdict result ≡ check_of (record { elements = elements; count = count; limit = limit }) }
{
    let o = Offer {
        elements,
        count,
        limit,
    };
    o.check()
}

fn find_in(elements: [Element; 128], count: usize, id: ElementId) -> Option<Element>
    ensures { result ≡ cond (leb count 128) (search.find id.0 (take count elements)) None }
{
    if 128 < count {
        return None;
    }
    let o = Offer {
        elements,
        count,
        limit: 0,
    };
    o.find(id)
}

fn make_in(there: Device, elements: [Element; 128], count: usize, limit: u16) -> Stepped
    ensures { said result.answer result.device ≡ made_of there (record { elements = elements; count = count; limit = limit }) }
{
    let o = Offer {
        elements,
        count,
        limit,
    };
    making::make_device(there, o)
}

// Where document 01 accepts a list as a table, its blocks in all.
pub fn check(list: &[Element], limit: u16) -> Option<u64>
    ensures { verdict result ≡ check_list list.now limit }
{
    check_in(copied(list), list.len(), limit)
}

// The element of an identifier in a list.
pub fn find(list: &[Element], id: ElementId) -> Option<Element>
    ensures { result ≡ find_list id.0 list.now }
{
    find_in(copied(list), list.len(), id)
}

// A new device of a list in the device's place, or 8. What every record of the code has, that its numbers fit their types, is promised here,
// where each run begins.
pub fn make_device(d: &mut Device, list: &[Element], limit: u16) -> Answer
    ensures { (said result d.new ≡ made_from d.old list.now limit) × Fits d.new }
{
    let r = make_in(*d, copied(list), list.len(), limit);
    stored_back(r, d)
}
