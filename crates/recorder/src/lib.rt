// The calls of the library that C links (crate `recorder_c` exports them): c/recorder.h declares these functions and their structs. The device's
// calls are thin over those of an image by value, as crate `calls` is over those of a device; the host's hand on what theirs say, in numbers.
#![tactic(auto)]

ghost use Rattle.std.specs.Prelude.{◌≡◌, length};
ghost use Rattle.compare.specs.Walk as comparing;
ghost use Rattle.conduct.specs.Fits.{Fits};
ghost use Rattle.convert.specs.Convert.{buffer_of, to_scsi, to_ata};
ghost use Rattle.device.specs.Machine as machine;
ghost use Rattle.docklist.specs.Docklist as docklist;
ghost use Rattle.image.specs.Calls.{told_of};
ghost use Rattle.image.specs.Reading.{security_of, device_of};
ghost use Rattle.listing.specs.Listing as listing;
ghost use Rattle.paper.specs.Answers as paper;
ghost use Rattle.paper.specs.Output.{output};
ghost use Rattle.paper.specs.Told.{tells};
ghost use Rattle.reach.specs.Opening.{open_of};
ghost use Rattle.reader.specs.Judgement as pages;
ghost use Rattle.scsi.specs.Judgement as dock;
ghost use Rattle.sender.specs.Sent as sender;
ghost use Rattle.spelt.specs.Spans as spans;
ghost use Rattle.spelt.specs.Spelt as spelt;
ghost use Rattle.status.specs.Lent.{lent};
ghost use Rattle.status.specs.Page.{shown};
ghost use Rattle.walk.specs.Next as walk;
ghost use Rattle.words.specs.declared.Order.TheVariants.{Little, Big};
ghost use Rattle.recorder.specs.Made.{made_in};

use calls::copied;
use compare::Cursor;
use image::{Image, Imaged};
use offer::Element;
use paper::{ElementId, Lba, PageCount, Registers, Written};
use query::Query;
use request::Request;
use spelt::{Count, Difference, Onward, Opened, Reading, Sense, Span, Stand, Turned};

// ---- The device

// Stores back the image that a call by value hands back.
fn stored_back(r: Imaged, d: &mut Image) -> u8
    ensures answer { result ≡ r.answer }
    ensures image { d.exit.now ≡ r.image }
{
    *d = r.image;
    r.answer
}

// What every record of the code has, that its numbers fit their types, is promised here, where each run begins.
pub fn recorder_make(d: &mut Image, list: &[Element], limit: u16) -> u8
    ensures { (tells result d.exit.now ≡ made_in d.entry.now list.now limit) × Fits (device_of d.exit.now) }
{
    let r = (*d).make(copied(list), list.len(), limit);
    stored_back(r, d)
}

pub fn recorder_step(d: &mut Image) -> u8
    ensures { tells result d.exit.now ≡ told_of d.entry.now machine.step }
{
    stored_back((*d).step(), d)
}

pub fn recorder_media_error(d: &mut Image) -> u8
    ensures { tells result d.exit.now ≡ told_of d.entry.now machine.media_error }
{
    stored_back((*d).media_error(), d)
}

pub fn recorder_power_cut(d: &mut Image) -> u8
    ensures { tells result d.exit.now ≡ told_of d.entry.now machine.power_cut }
{
    stored_back((*d).power_cut(), d)
}

pub fn recorder_comreset(d: &mut Image) -> u8
    ensures { tells result d.exit.now ≡ told_of d.entry.now machine.comreset }
{
    stored_back((*d).comreset(), d)
}

pub fn recorder_hardware_reset(d: &mut Image) -> u8
    ensures { tells result d.exit.now ≡ told_of d.entry.now machine.hardware_reset }
{
    stored_back((*d).hardware_reset(), d)
}

pub fn recorder_software_reset(d: &mut Image) -> u8
    ensures { tells result d.exit.now ≡ told_of d.entry.now machine.software_reset }
{
    stored_back((*d).software_reset(), d)
}

pub fn recorder_grade(d: &mut Image, id: ElementId, health: u8) -> u8
    ensures { tells result d.exit.now ≡ told_of d.entry.now (machine.grade id health) }
{
    stored_back((*d).grade(id, health), d)
}

pub fn recorder_command(
    d: &mut Image,
    security: u8,
    code: u8,
    feature: u16,
    count: u16,
    lba: Lba,
    buf: &mut [u8],
) -> u8
    ensures { (tells result d.exit.now ≡ told_of d.entry.now (machine.command (security_of security) (record { code = code; feature = feature; count = count; lba = lba }) (length buf.old)))
        × (buf.new ≡ lent (device_of d.entry.now) (security_of security) (record { code = code; feature = feature; count = count; lba = lba }) buf.old) }
{
    let registers = Registers {
        code,
        feature,
        count,
        lba,
    };
    let r = (*d).command(security, registers, buf.len());
    *d = r.image;
    if code == 0x12 {
        recorder_show(d, security, Request::from(registers), buf);
    }
    r.answer
}

pub fn recorder_show(d: &Image, security: u8, request: Request, buf: &mut [u8]) -> u8
    ensures { tells result buf.new ≡ shown (device_of d.now) (security_of security) request buf.old }
{
    (*d).show(security, request, buf)
}

pub fn recorder_send(d: &Image, query: Query, allocation: u32, buf: &mut [u8]) -> Count
    ensures { tells result.answer (output result.count buf.new) ≡ sender.sent (device_of d.now) query allocation buf.old }
{
    sent(*d, query, allocation, buf)
}

fn sent(d: Image, query: Query, allocation: u32, buf: &mut [u8]) -> Count
    ensures { tells result.answer (output result.count buf.new) ≡ sender.sent (device_of d) query allocation buf.old }
{
    spelt::count_of(Written::of(d.send(query, allocation, buf)))
}

pub fn recorder_sense(number: u8) -> Sense
    ensures { result ≡ spelt.sense_of (paper.sense_of number) }
{
    spelt::sense_of(paper::sense_at(number))
}

// ---- The host

pub fn recorder_read(page: &[u8], request: Request) -> Reading
    ensures { result ≡ spelt.page_reading (pages.read_of Little page.now request) }
{
    spelt::page_reading(reader::read(page, request))
}

pub fn recorder_descriptor(page: &[u8], k: u32) -> Stand
    ensures { result ≡ spelt.stand_of (pages.slot_of Little page.now k) }
{
    spelt::stand_of(reader::descriptor(page, k))
}

pub fn recorder_scsi_read(bytes: &[u8], query: Query) -> Reading
    ensures { result ≡ spelt.data_reading (dock.read_of Big bytes.now query) }
{
    spelt::data_reading(scsi::read(bytes, query))
}

pub fn recorder_scsi_descriptor(bytes: &[u8], k: u32) -> Stand
    ensures { result ≡ spelt.stand_of (dock.slot_of Big bytes.now k) }
{
    spelt::stand_of(scsi::descriptor(bytes, k))
}

pub fn recorder_list(page: &[u8], out: &mut [u8]) -> Count
    ensures { tells result.answer (output result.count out.new) ≡ listing.listed page.now out.old }
{
    spelt::count_of(Written::of(listing::list(page, out)))
}

pub fn recorder_scsi_list(bytes: &[u8], out: &mut [u8]) -> Count
    ensures { tells result.answer (output result.count out.new) ≡ docklist.listed bytes.now out.old }
{
    spelt::count_of(Written::of(docklist::list(bytes, out)))
}

pub fn recorder_to_scsi(page: &[u8], request: Request, out: &mut [u8]) -> Turned
    ensures { (result ≡ spelt.turned_of (to_scsi page.now request out.old))
        × (out.new ≡ buffer_of (to_scsi page.now request out.old).state) }
{
    spelt::turned_of(convert::to_scsi(page, request, out))
}

pub fn recorder_to_ata(bytes: &[u8], query: Query, pages: PageCount, out: &mut [u8]) -> Turned
    ensures { (result ≡ spelt.turned_of (to_ata bytes.now query pages.0 out.old))
        × (out.new ≡ buffer_of (to_ata bytes.now query pages.0 out.old).state) }
{
    spelt::turned_of(convert::to_ata(bytes, query, pages, out))
}

pub fn recorder_next(page: &[u8], request: Request) -> Onward
    ensures { result ≡ spelt.onward_of (walk.next_of page.now request) }
{
    spelt::onward_of(walk::next(page, request))
}

pub fn recorder_next_request(request: Request, start: ElementId, pages: PageCount) -> Request
    ensures { result ≡ walk.next_request request start pages }
{
    walk::next_request(request, start, pages)
}

// ---- Two pages compared

pub fn recorder_open(older: &[u8], newer: &[u8], request: Request) -> Opened
    ensures { result ≡ spelt.opened_of (open_of older.now newer.now request) }
{
    spelt::opened_of(reach::open(older, newer, request))
}

pub fn recorder_next_difference(older: &[u8], newer: &[u8], from: Cursor) -> Difference
    ensures { result ≡ spelt.difference_of (comparing.next_of older.now newer.now from) }
{
    spelt::difference_of(compare::next(older, newer, from))
}

pub fn recorder_span(older: &[u8], newer: &[u8], difference: Difference) -> Span
    ensures { result ≡ spans.span_of older.now newer.now difference }
{
    spelt::span_of(older, newer, difference)
}
