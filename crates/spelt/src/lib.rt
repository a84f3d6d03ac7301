// What calls say, in numbers alone, for C: a struct in the place of each enum that an answer is, by its name in c/recorder.h. What an answer does not
// name is 0, and written out: an identifier and a header have no default value.
#![tactic(auto)]

ghost use Rattle.std.specs.Prelude.{ℕ, List, ◌≡◌};
ghost use Rattle.convert.specs.Convert as convert;
ghost use Rattle.reach.specs.Opening as opening;
ghost use Rattle.reader.specs.Judgement as pages;
ghost use Rattle.scsi.specs.Judgement as dock;
ghost use Rattle.walk.specs.Next as walk;
ghost use Rattle.spelt.specs.Spelt as spelt;
ghost use Rattle.spelt.specs.Spans as spans;

use compare::{Cursor, Hit, Line};
use convert::Refusal;
use layout::{Descriptor, Header};
use offences::Offence;
use paper::{ElementId, Written};
use reach::Turn;

// `recorder_written`: how many bytes a call wrote into a lent buffer; its number in document 01's table.
#[repr(C)]
#[derive(Clone, Copy)]
pub struct Count {
    pub count: usize,
    pub answer: u8,
}

// `recorder_reading`, 0: the header's numbers, how many descriptors are there whole, and whether one was cut through; 9: a place.
#[repr(C)]
#[derive(Clone, Copy)]
pub struct Reading {
    pub place: usize,
    pub header: Header,
    pub whole: u32,
    pub torn: bool,
    pub answer: u8,
}

// `recorder_slot`: what stands at a descriptor's number.
#[repr(C)]
#[derive(Clone, Copy)]
pub struct Stand {
    pub descriptor: Descriptor,
    pub there: bool,
}

// `recorder_move`, 0: whether a walk asks once more, and from which start; 9: a place.
#[repr(C)]
#[derive(Clone, Copy)]
pub struct Onward {
    pub place: usize,
    pub start: ElementId,
    pub asks: bool,
    pub answer: u8,
}

// `recorder_opening`, 0: the last identifier that is compared, and whether a page was cut short there; 9: a page's turn.
#[repr(C)]
#[derive(Clone, Copy)]
pub struct Opened {
    pub end: ElementId,
    pub cut: bool,
    pub turn: u8,
    pub answer: u8,
}

// `recorder_difference`: a difference and where the comparison goes on, or kind 0. Its descriptors' numbers are those in the pages that have it.
#[repr(C)]
#[derive(Clone, Copy)]
pub struct Difference {
    pub at: Cursor,
    pub next: Cursor,
    pub kind: u8,
}

// `recorder_span`: a part of one of two pages.
#[repr(C)]
#[derive(Clone, Copy)]
pub struct Span {
    pub place: usize,
    pub length: usize,
    pub turn: u8,
}

// `recorder_converted`, 0: how many bytes were written; 9: a place.
#[repr(C)]
#[derive(Clone, Copy)]
pub struct Turned {
    pub count: usize,
    pub place: usize,
    pub answer: u8,
}

// `recorder_sense`: a number's sense, if it has one.
#[repr(C)]
#[derive(Clone, Copy)]
pub struct Sense {
    pub there: bool,
    pub key: u8,
    pub asc: u8,
    pub ascq: u8,
}

// ---- One for each answer

pub fn count_of(w: Written) -> Count
    ensures { result ≡ spelt.count_of w }
{
    Count {
        count: w.count,
        answer: u8::from(w.answer),
    }
}

fn accepted(header: Header, whole: u32, torn: bool) -> Reading
    ensures { result ≡ spelt.accepted header whole torn 0 }
{
    Reading {
        place: 0,
        header,
        whole,
        torn,
        answer: 0,
    }
}

fn refused(place: usize) -> Reading
    ensures { result ≡ spelt.refused place 9 }
{
    Reading {
        place,
        header: Header {
            number: 0,
            returned: 0,
            busy: ElementId(0),
            limit: 0,
            removed: 0,
        },
        whole: 0,
        torn: false,
        answer: 9,
    }
}

// Of a page every descriptor that is returned is there.
pub fn page_reading(said: Result<Header, Offence>) -> Reading
    ensures { result ≡ spelt.page_reading (pages.heard said) }
{
    match said {
        Ok(h) => accepted(h, h.returned, false),
        Err(offence) => refused(offence.0),
    }
}

pub fn data_reading(said: Result<scsi::Reading, Offence>) -> Reading
    ensures { result ≡ spelt.data_reading (dock.heard said) }
{
    match said {
        Ok(x) => accepted(x.header, x.whole, x.torn),
        Err(first) => refused(first.0),
    }
}

pub fn stand_of(s: Option<Descriptor>) -> Stand
    ensures { result ≡ spelt.stand_of s }
{
    match s {
        None => Stand {
            descriptor: Descriptor {
                id: ElementId(0),
                restorable: false,
                kind: 0,
                health: 0,
                capacity: 0,
            },
            there: false,
        },
        Some(descriptor) => Stand {
            descriptor,
            there: true,
        },
    }
}

pub fn onward_of(m: Result<Option<ElementId>, Offence>) -> Onward
    ensures { result ≡ spelt.onward_of (walk.heard m) }
{
    match m {
        Ok(next) => Onward {
            place: 0,
            start: next.unwrap_or(ElementId(0)),
            asks: next.is_some(),
            answer: 0,
        },
        Err(offence) => Onward {
            place: offence.0,
            start: ElementId(0),
            asks: false,
            answer: 9,
        },
    }
}

// C's number, which `reach` does not know, so that it is no `From` there.
fn turn_of(t: Turn) -> u8
    ensures { result ≡ spelt.turn_of t }
{
    match t {
        Turn::Older => 1,
        Turn::Newer => 2,
    }
}

pub fn opened_of(o: Result<Option<ElementId>, Turn>) -> Opened
    ensures { result ≡ spelt.opened_of (opening.heard o) }
{
    match o {
        Ok(bound) => Opened {
            end: bound.unwrap_or(ElementId(0xFFFF_FFFF)),
            cut: bound.is_some(),
            turn: 0,
            answer: 0,
        },
        Err(t) => Opened {
            end: ElementId(0),
            cut: false,
            turn: turn_of(t),
            answer: 9,
        },
    }
}

fn difference_at(line: Line, next: Cursor) -> Difference
    ensures { result ≡ spelt.difference_at line next }
{
    match line {
        Line::OnlyOlder(k) => Difference {
            at: Cursor { older: k, newer: 0 },
            next,
            kind: 1,
        },
        Line::OnlyNewer(k) => Difference {
            at: Cursor { older: 0, newer: k },
            next,
            kind: 2,
        },
        Line::Changed(at) => Difference { at, next, kind: 3 },
    }
}

pub fn difference_of(s: Option<Hit>) -> Difference
    ensures { result ≡ spelt.difference_of s }
{
    match s {
        Some(hit) => difference_at(hit.line, hit.next),
        None => Difference {
            at: Cursor::first(),
            next: Cursor::first(),
            kind: 0,
        },
    }
}

pub fn turned_of(c: Result<usize, Refusal>) -> Turned
    ensures { (buf : List ℕ) → result ≡ spelt.turned_of (convert.heard c buf) }
{
    match c {
        Ok(count) => Turned {
            count,
            place: 0,
            answer: 0,
        },
        Err(Refusal::SmallBuffer) => Turned {
            count: 0,
            place: 0,
            answer: 7,
        },
        Err(Refusal::Offence(offence)) => Turned {
            count: 0,
            place: offence.0,
            answer: 9,
        },
    }
}

pub fn sense_of(s: Option<paper::Sense>) -> Sense
    ensures { result ≡ spelt.sense_of s }
{
    match s {
        None => Sense {
            there: false,
            key: 0,
            asc: 0,
            ascq: 0,
        },
        Some(c) => Sense {
            there: true,
            key: c.key,
            asc: c.asc,
            ascq: c.ascq,
        },
    }
}

// ---- A part of a page, as a place and a length

// Descriptor k of the page whose turn it is.
fn span_in(turn: u8, page: &[u8], k: u32) -> Span
    ensures { result ≡ spans.span_in turn page.now k }
{
    let length = parts::descriptor_part(page, k).len();
    if length == 0 {
        return no_span();
    }
    Span {
        place: 32 + 32 * (k as usize),
        length,
        turn,
    }
}

fn no_span() -> Span
    ensures { result ≡ spans.no_span }
{
    Span {
        place: 0,
        length: 0,
        turn: 0,
    }
}

// The descriptor that a difference speaks of; of a kind that is none, no bytes. 2 and 3 have an arm each: as one pattern they are tested as a range, and
// the proof does not close.
pub fn span_of(older: &[u8], newer: &[u8], d: Difference) -> Span
    ensures { result ≡ spans.span_of older.now newer.now d }
{
    match d.kind {
        1 => span_in(1, older, d.at.older),
        2 => span_in(2, newer, d.at.newer),
        3 => span_in(2, newer, d.at.newer),
        _ => no_span(),
    }
}
