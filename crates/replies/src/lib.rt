// What the bench says to a line, as text in a lent buffer.
#![tactic(auto)]

ghost use Rattle.std.specs.Prelude.{◌≡◌, [], ◌≤◌, Err, length};
ghost use Rattle.acts.specs.Acts.{heard};
ghost use Rattle.convert.specs.Convert as convert;
ghost use Rattle.docking.specs.Dock as dock;
ghost use Rattle.paper.specs.Answers.{number_of};
ghost use Rattle.writing.specs.Private as writing·private;
ghost use Rattle.writing.specs.Writing.{stored_in, ended_in};
ghost use Rattle.replies.specs.Replies.{codes_text, sense_text, answer_line, lent_text, bare_line, first_line, shown_as, bytes_text, dock_text, text_of};

use acts::{Lent, Reply};
use convert::Refusal;
use device::Device;
use docking::{Docked, Said};
use paper::{Answer, Sense};

// ---- An answer

// A space, then `K/AA/QQ`.
fn codes(s: Sense) -> [u8; 8]
    ensures { result ≡ codes_text s }
{
    let k = writing::hex2(s.key);
    let a = writing::hex2(s.asc);
    let q = writing::hex2(s.ascq);
    [b' ', k[1], b'/', a[0], a[1], b'/', q[0], q[1]]
}

fn put_sense(out: &mut [u8], at: usize, sense: Option<Sense>) -> usize
    ensures { writing·private.Puts out.old at (sense_text sense) out.new result }
{
    match sense {
        None => at,
        Some(s) => {
            let text = codes(s);
            writing::word(out, at, &text)
        }
    }
}

// The number, and its sense if it has one.
fn put_answer(out: &mut [u8], at: usize, answer: Answer) -> usize
    ensures { writing·private.Puts out.old at (answer_line (number_of answer)) out.new result }
{
    let a = writing::decimal(out, at, u8::from(answer) as u64);
    let b = put_sense(out, a, paper::sense_of(answer));
    writing::word(out, b, b"\n")
}

// ---- The calls for a SCSI host

fn put_refusal(out: &mut [u8], refusal: Refusal) -> usize
    ensures { writing·private.Puts out.old 0 (bare_line (convert.heard (Err refusal) []).number (dock.place_in (convert.heard (Err refusal) []).state)) out.new result }
{
    match refusal {
        Refusal::SmallBuffer => writing::word(out, 0, b"7\n"),
        Refusal::Offence(offence) => writing::numbered(out, 0, b"9 at ", offence.0 as u64),
    }
}

fn put_bare(out: &mut [u8], c: Result<usize, Refusal>) -> usize
    ensures { writing·private.Puts out.old 0 (bare_line (convert.heard c []).number (dock.place_in (convert.heard c []).state)) out.new result }
{
    match c {
        Ok(_) => writing::word(out, 0, b"0\n"),
        Err(refusal) => put_refusal(out, refusal),
    }
}

// The first line, of `scsi` with a sense.
fn put_first(out: &mut [u8], said: Said) -> usize
    ensures { writing·private.Puts out.old 0 (first_line (dock.kind_said said) (dock.number_said said) (dock.place_said said)) out.new result }
{
    match said {
        Said::Sent(w) => put_answer(out, 0, w.answer),
        Said::ToScsi(c) => put_bare(out, c),
        Said::ToAta(c) => put_bare(out, c),
    }
}

// The bytes that were written, as data or as a page.
fn put_shown(out: &mut [u8], at: usize, said: Said, bytes: &[u8]) -> usize
    ensures { (out.new ≡ stored_in 134000 out.old at (shown_as (dock.kind_said said) bytes.now)) × (result ≡ ended_in 134000 out.old at (shown_as (dock.kind_said said) bytes.now)) }
{
    match said {
        Said::Sent(_) => dump::put_data(out, at, bytes),
        Said::ToScsi(_) => dump::put_data(out, at, bytes),
        Said::ToAta(_) => dump::put_page(out, at, bytes),
    }
}

fn put_bytes(out: &mut [u8], at: usize, said: Said, bytes: &[u8]) -> usize
    ensures { (out.new ≡ stored_in 134000 out.old at (bytes_text (dock.kind_said said) (dock.number_said said) bytes.now)) × (result ≡ ended_in 134000 out.old at (bytes_text (dock.kind_said said) (dock.number_said said) bytes.now)) }
{
    if said.number() != 0 {
        return at;
    }
    put_shown(out, at, said, bytes)
}

// What was said, and what it left in the lent buffer.
fn put_docked(out: &mut [u8], docked: Docked, lent: &[u8]) -> usize
    requires { 140000 ≤ length out.old }
    ensures { writing·private.Puts out.old 0 (dock_text (dock.heard docked) lent.now) out.new result }
{
    let said = docked.said;
    let whole = slices::head(lent, docked.room);
    let count = said.count();
    let a = put_first(out, said);
    let b = put_bytes(out, a, said, slices::head(lent, count));
    dump::put_touched(out, b, whole, count)
}

// ---- A reply

// The answer of the front call, and what it left in the lent buffer.
fn put_lent(out: &mut [u8], said: Lent, lent: &[u8]) -> usize
    requires { 140000 ≤ length out.old }
    ensures { writing·private.Puts out.old 0 (lent_text (number_of said.answer) said.room said.count lent.now) out.new result }
{
    let answer = said.answer;
    let whole = slices::head(lent, said.room);
    let a = put_answer(out, 0, answer);
    let b = dump::put_page(out, a, slices::head(lent, said.count));
    dump::put_touched(out, b, whole, said.count)
}

fn put_text(out: &mut [u8], reply: Reply, d: Device, page: &[u8], lent: &[u8]) -> usize
    requires { 140000 ≤ length out.old }
    ensures { writing·private.Puts out.old 0 (text_of (heard reply) d page.now lent.now) out.new result }
{
    match reply {
        Reply::Nothing => 0,
        Reply::NotACall => writing::word(out, 0, b"not a call\n"),
        Reply::NoDevice => writing::word(out, 0, b"no device\n"),
        Reply::Outside => writing::word(out, 0, b"outside\n"),
        Reply::Length(n) => writing::numbered(out, 0, b"length ", n as u64),
        Reply::Answer(answer) => put_answer(out, 0, answer),
        Reply::Command(said) => put_lent(out, said, lent),
        Reply::Cells => inventory::put_cells(out, 0, d),
        Reply::Read(request) => contents::put_reading(out, 0, page, request),
        Reply::Next(request) => moves::put(out, 0, page, request),
        Reply::ReadScsi(query) => contents::put_scsi_reading(out, 0, page, query),
        Reply::Dock(docked) => put_docked(out, docked, lent),
    }
}

// Stores what the bench says at the front of a buffer and answers how long it is; nothing, where fewer than 140,000 bytes are there, which are
// enough for every reply. The device, the kept page and the lent buffer are those after the call.
pub fn put(out: &mut [u8], reply: Reply, d: Device, page: &[u8], lent: &[u8]) -> usize
    ensures out_after { out.new ≡ stored_in 140000 out.old 0 (text_of (heard reply) d page.now lent.now) }
    ensures value { result ≡ ended_in 140000 out.old 0 (text_of (heard reply) d page.now lent.now) }
{
    if out.len() < 140000 {
        return 0;
    }
    put_text(out, reply, d, page, lent)
}
