// The library that C links: each call of `recorder` under its own name, with its clauses. A slice is two arguments in C, a pointer and a length
// (c/recorder.h).
#![tactic(auto)]

ghost use Rattle.std.specs.Prelude.{◌≡◌, length};
ghost use Rattle.compare.specs.Walk as comparing;
ghost use Rattle.conduct.specs.Fits.{Fits};
ghost use Rattle.convert.specs.Convert.{buffer_of, to_scsi, to_ata};
ghost use Rattle.device.specs.Machine as machine;
ghost use Rattle.docklist.specs.Docklist as docklist;
ghost use Rattle.image.specs.Calls.{told_of};
ghost use Rattle.image.specs.Reading.{security_of, device_of};
ghost use Rattle.listing.specs.Listing as listing;
ghost use Rattle.paper.specs.Answers as paper;
ghost use Rattle.paper.specs.Output.{output};
ghost use Rattle.paper.specs.Told.{tells};
ghost use Rattle.reach.specs.Opening.{open_of};
ghost use Rattle.reader.specs.Judgement as pages;
ghost use Rattle.scsi.specs.Judgement as dock;
ghost use Rattle.sender.specs.Sent as sender;
ghost use Rattle.spelt.specs.Spans as spans;
ghost use Rattle.spelt.specs.Spelt as spelt;
ghost use Rattle.status.specs.Lent.{lent};
ghost use Rattle.status.specs.Page.{shown};
ghost use Rattle.walk.specs.Next as walk;
ghost use Rattle.words.specs.declared.Order.TheVariants.{Little, Big};
ghost use Rattle.recorder.specs.Made.{made_in};

use compare::Cursor;
use image::Image;
use offer::Element;
use paper::{ElementId, Lba, PageCount};
use query::Query;
use request::Request;
use spelt::{Count, Difference, Onward, Opened, Reading, Sense, Span, Stand, Turned};

// ---- The device

#[unsafe(no_mangle)]
pub extern "C" fn recorder_make(d: &mut Image, list: &[Element], limit: u16) -> u8
    ensures { (tells result d.exit.now ≡ made_in d.entry.now list.now limit) × Fits (device_of d.exit.now) }
{
    recorder::recorder_make(d, list, limit)
}

#[unsafe(no_mangle)]
pub extern "C" fn recorder_step(d: &mut Image) -> u8
    ensures { tells result d.exit.now ≡ told_of d.entry.now machine.step }
{
    recorder::recorder_step(d)
}

#[unsafe(no_mangle)]
pub extern "C" fn recorder_media_error(d: &mut Image) -> u8
    ensures { tells result d.exit.now ≡ told_of d.entry.now machine.media_error }
{
    recorder::recorder_media_error(d)
}

#[unsafe(no_mangle)]
pub extern "C" fn recorder_power_cut(d: &mut Image) -> u8
    ensures { tells result d.exit.now ≡ told_of d.entry.now machine.power_cut }
{
    recorder::recorder_power_cut(d)
}

#[unsafe(no_mangle)]
pub extern "C" fn recorder_comreset(d: &mut Image) -> u8
    ensures { tells result d.exit.now ≡ told_of d.entry.now machine.comreset }
{
    recorder::recorder_comreset(d)
}

#[unsafe(no_mangle)]
pub extern "C" fn recorder_hardware_reset(d: &mut Image) -> u8
    ensures { tells result d.exit.now ≡ told_of d.entry.now machine.hardware_reset }
{
    recorder::recorder_hardware_reset(d)
}

#[unsafe(no_mangle)]
pub extern "C" fn recorder_software_reset(d: &mut Image) -> u8
    ensures { tells result d.exit.now ≡ told_of d.entry.now machine.software_reset }
{
    recorder::recorder_software_reset(d)
}

#[unsafe(no_mangle)]
pub extern "C" fn recorder_grade(d: &mut Image, id: ElementId, health: u8) -> u8
    ensures { tells result d.exit.now ≡ told_of d.entry.now (machine.grade id health) }
{
    recorder::recorder_grade(d, id, health)
}

#[unsafe(no_mangle)]
pub extern "C" fn recorder_command(
    d: &mut Image,
    security: u8,
    code: u8,
    feature: u16,
    count: u16,
    lba: Lba,
    buf: &mut [u8],
) -> u8
    ensures { (tells result d.exit.now ≡ told_of d.entry.now (machine.command (security_of security) (record { code = code; feature = feature; count = count; lba = lba }) (length buf.old)))
        × (buf.new ≡ lent (device_of d.entry.now) (security_of security) (record { code = code; feature = feature; count = count; lba = lba }) buf.old) }
{
    recorder::recorder_command(d, security, code, feature, count, lba, buf)
}

#[unsafe(no_mangle)]
pub extern "C" fn recorder_show(d: &Image, security: u8, request: Request, buf: &mut [u8]) -> u8
    ensures { tells result buf.new ≡ shown (device_of d.now) (security_of security) request buf.old }
{
    recorder::recorder_show(d, security, request, buf)
}

#[unsafe(no_mangle)]
pub extern "C" fn recorder_send(d: &Image, query: Query, allocation: u32, buf: &mut [u8]) -> Count
    ensures { tells result.answer (output result.count buf.new) ≡ sender.sent (device_of d.now) query allocation buf.old }
{
    recorder::recorder_send(d, query, allocation, buf)
}

#[unsafe(no_mangle)]
pub extern "C" fn recorder_sense(number: u8) -> Sense
    ensures { result ≡ spelt.sense_of (paper.sense_of number) }
{
    recorder::recorder_sense(number)
}

// ---- The host

#[unsafe(no_mangle)]
pub extern "C" fn recorder_read(page: &[u8], request: Request) -> Reading
    ensures { result ≡ spelt.page_reading (pages.read_of Little page.now request) }
{
    recorder::recorder_read(page, request)
}

#[unsafe(no_mangle)]
pub extern "C" fn recorder_descriptor(page: &[u8], k: u32) -> Stand
    ensures { result ≡ spelt.stand_of (pages.slot_of Little page.now k) }
{
    recorder::recorder_descriptor(page, k)
}

#[unsafe(no_mangle)]
pub extern "C" fn recorder_scsi_read(bytes: &[u8], query: Query) -> Reading
    ensures { result ≡ spelt.data_reading (dock.read_of Big bytes.now query) }
{
    recorder::recorder_scsi_read(bytes, query)
}

#[unsafe(no_mangle)]
pub extern "C" fn recorder_scsi_descriptor(bytes: &[u8], k: u32) -> Stand
    ensures { result ≡ spelt.stand_of (dock.slot_of Big bytes.now k) }
{
    recorder::recorder_scsi_descriptor(bytes, k)
}

#[unsafe(no_mangle)]
pub extern "C" fn recorder_list(page: &[u8], out: &mut [u8]) -> Count
    ensures { tells result.answer (output result.count out.new) ≡ listing.listed page.now out.old }
{
    recorder::recorder_list(page, out)
}

#[unsafe(no_mangle)]
pub extern "C" fn recorder_scsi_list(bytes: &[u8], out: &mut [u8]) -> Count
    ensures { tells result.answer (output result.count out.new) ≡ docklist.listed bytes.now out.old }
{
    recorder::recorder_scsi_list(bytes, out)
}

#[unsafe(no_mangle)]
pub extern "C" fn recorder_to_scsi(page: &[u8], request: Request, out: &mut [u8]) -> Turned
    ensures { (result ≡ spelt.turned_of (to_scsi page.now request out.old))
        × (out.new ≡ buffer_of (to_scsi page.now request out.old).state) }
{
    recorder::recorder_to_scsi(page, request, out)
}

#[unsafe(no_mangle)]
pub extern "C" fn recorder_to_ata(
    bytes: &[u8],
    query: Query,
    pages: PageCount,
    out: &mut [u8],
) -> Turned
    ensures { (result ≡ spelt.turned_of (to_ata bytes.now query pages.0 out.old))
        × (out.new ≡ buffer_of (to_ata bytes.now query pages.0 out.old).state) }
{
    recorder::recorder_to_ata(bytes, query, pages, out)
}

#[unsafe(no_mangle)]
pub extern "C" fn recorder_next(page: &[u8], request: Request) -> Onward
    ensures { result ≡ spelt.onward_of (walk.next_of page.now request) }
{
    recorder::recorder_next(page, request)
}

#[unsafe(no_mangle)]
pub extern "C" fn recorder_next_request(
    request: Request,
    start: ElementId,
    pages: PageCount,
) -> Request
    ensures { result ≡ walk.next_request request start pages }
{
    recorder::recorder_next_request(request, start, pages)
}

// ---- Two pages compared

#[unsafe(no_mangle)]
pub extern "C" fn recorder_open(older: &[u8], newer: &[u8], request: Request) -> Opened
    ensures { result ≡ spelt.opened_of (open_of older.now newer.now request) }
{
    recorder::recorder_open(older, newer, request)
}

#[unsafe(no_mangle)]
pub extern "C" fn recorder_next_difference(older: &[u8], newer: &[u8], from: Cursor) -> Difference
    ensures { result ≡ spelt.difference_of (comparing.next_of older.now newer.now from) }
{
    recorder::recorder_next_difference(older, newer, from)
}

#[unsafe(no_mangle)]
pub extern "C" fn recorder_span(older: &[u8], newer: &[u8], difference: Difference) -> Span
    ensures { result ≡ spans.span_of older.now newer.now difference }
{
    recorder::recorder_span(older, newer, difference)
}
