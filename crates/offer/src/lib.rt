// An offered table: its check, its search, and how it is split into the table as built and the starting healths.
#![tactic(auto)]

ghost use Rattle.std.specs.Prelude.{◌≡◌, ◌-◌, ◌≤◌, ◌^◌, ◌++◌, length, map, replicate};
ghost use Rattle.table.specs.Elements.{blank_part};
ghost use Rattle.offer.specs.Check.{sized, shaped, healthy, check_of, verdict};
ghost use Rattle.offer.specs.Elements as elements;
ghost use Rattle.offer.specs.Elements.{offered, part_of, health_of};
ghost use Rattle.offer.specs.Private as private;
ghost use Rattle.offer.specs.Search as search;

use paper::ElementId;
use table::{Part, Table};

// An element as document 01 has it in an offered table; `kind` is its type, a word that the language keeps. As a part, it has a field for each
// of its 16 bytes.
#[repr(C)]
#[derive(Clone, Copy)]
pub struct Element {
    pub id: ElementId,
    pub kind: u8,
    pub health: u8,
    pub unreported: u8,
    pub spare: u8,
    pub blocks: u64,
}

// An offered table. An array of 128 with a count beside: fixed memory, laid out as the C interface's image has it.
#[derive(Clone, Copy)]
pub struct Offer {
    pub elements: [Element; 128],
    pub count: usize,
    pub limit: u16,
}

// ---- An element, and the part of it that is built

pub fn element_of(id: ElementId, kind: u8, health: u8, unreported: bool, blocks: u64) -> Element
    ensures { result ≡ elements.element_of id kind health unreported blocks }
{
    Element {
        id,
        kind,
        health,
        unreported: slices::bit(unreported),
        spare: 0,
        blocks,
    }
}

pub fn part_of(e: Element) -> Part
    ensures { result ≡ part_of e }
{
    let id = e.id;
    Part {
        id,
        kind: e.kind,
        unreported: e.unreported,
        spare: 0,
        blocks: e.blocks,
    }
}

// What fills an unused place.
pub fn blank() -> Element
    ensures { result ≡ elements.blank }
{
    element_of(ElementId(0), 0, 0, false, 0)
}

// ---- The check of an offered table

fn is_sized(count: usize, limit: u16) -> bool
    ensures { result ≡ sized count limit }
{
    if count == 0 {
        return false;
    }
    if 128 < count {
        return false;
    }
    limit <= 128
}

// "A type other than 01h has block count 0"
fn is_shaped(e: Element) -> bool
    ensures { result ≡ shaped e }
{
    if e.kind == 1 {
        return true;
    }
    e.blocks == 0
}

// "a health 00h to CFh"
fn is_healthy(e: Element) -> bool
    ensures { result ≡ healthy e }
{
    e.health <= 0xCF
}

// Whether an element may follow: above the last identifier, shaped, healthy, and with the blocks so far at most 2^48.
fn may_follow(e: Element, last: u32, total: u64) -> bool
    requires { total ≤ 2 ^ 48 }
    ensures { result ≡ private.may_follow last total e }
{
    if e.id.0 <= last {
        return false;
    }
    if !is_shaped(e) {
        return false;
    }
    if !is_healthy(e) {
        return false;
    }
    e.blocks <= 281474976710656 - total
}

// The blocks of all elements, checked one after the other.
fn walk(elements: &[Element]) -> Option<u64>
    ensures { result ≡ private.walk_from 0 0 elements.now }
{
    let mut last: u32 = 0;
    let mut total: u64 = 0;
    for element in elements {
        if !may_follow(*element, last, total) {
            return None;
        }
        last = element.id.0;
        total += element.blocks;
    }
    if total < 2 { None } else { Some(total) }
}

// ---- The search of an offered table

// It stops at the first identifier that is not below the one sought, as the search of a table does: one function for both would want a trait,
// longer than the two.
fn found_in(elements: &[Element], id: ElementId) -> Option<Element>
    ensures { result ≡ search.find id.0 elements.now }
{
    let place = elements.iter().position(|element| id.0 <= element.id.0)?;
    let element = elements[place];
    (element.id.0 == id.0).then_some(element)
}

// ---- An offered table, split

// The parts of up to 128 elements, then blanks.
fn parts_of(elements: &[Element]) -> [Part; 128]
    requires { length elements.now ≤ 128 }
    ensures { result ≡ map part_of elements.now ++ replicate (128 - length elements.now) blank_part }
{
    let mut parts = [table::blank_part(); 128];
    for (place, element) in elements.iter().enumerate() {
        parts[place] = part_of(*element);
    }
    parts
}

// Their healths, then zeros. Called apart: put into its callers, the compiler clears 2 KB more there, also before a list is refused.
#[inline(never)]
fn healths_of(elements: &[Element]) -> [u8; 128]
    requires { length elements.now ≤ 128 }
    ensures { result ≡ map health_of elements.now ++ replicate (128 - length elements.now) 0 }
{
    let mut healths: [u8; 128] = [0; 128];
    for (place, element) in elements.iter().enumerate() {
        healths[place] = element.health;
    }
    healths
}

impl Offer {
    // Where document 01 accepts the table, its blocks in all.
    pub fn check(self) -> Option<u64>
        ensures { verdict result ≡ check_of self }
    {
        if !is_sized(self.count, self.limit) {
            return None;
        }
        walk(&self.elements[..self.count])
    }

    // The element of an identifier.
    pub fn find(self, id: ElementId) -> Option<Element>
        ensures { result ≡ search.find id.0 (offered self) }
    {
        found_in(&self.elements[..table::bounded(self.count)], id)
    }

    // The table as it is built of the offer.
    pub fn table(self) -> Table
        ensures { result ≡ elements.table_of self }
    {
        Table {
            parts: parts_of(&self.elements[..table::bounded(self.count)]),
            count: self.count,
            limit: self.limit,
        }
    }

    // The healths that its cells start with.
    pub fn healths(self) -> [u8; 128]
        ensures { result ≡ elements.healths_of self }
    {
        healths_of(&self.elements[..table::bounded(self.count)])
    }
}
