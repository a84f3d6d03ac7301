// The table as built, which no call changes, and its search; the healths, a cell for each place.
#![tactic(auto)]

ghost use Rattle.std.specs.Prelude.{◌≡◌, min, take, get_or, set};
ghost use Rattle.table.specs.Elements.{blank_part, removed_count};
ghost use Rattle.table.specs.Search as search;

use paper::ElementId;

// What of an element is no cell; `kind` is its type, a word that the language keeps. C lends it in a record of its own: each of its 16 bytes is
// a field's, the spare ones too, which nothing looks at.
#[repr(C)]
#[derive(Clone, Copy)]
pub struct Part {
    pub id: ElementId,
    pub kind: u8,
    pub unreported: u8,
    pub spare: u16,
    pub blocks: u64,
}

// The table as built. Arrays of 128 with a count beside: fixed memory, laid out as the C interface's image has it; a health is a cell of its own.
#[derive(Clone, Copy)]
pub struct Table {
    pub parts: [Part; 128],
    pub count: usize,
    pub limit: u16,
}

// Where the search stops: the part there, a blank one past the end, and the place.
#[derive(Clone, Copy)]
pub struct Sight {
    pub part: Part,
    pub place: usize,
}

// How many of an array's 128 a count takes.
pub fn bounded(count: usize) -> usize
    ensures { result ≡ min count 128 }
{
    slices::smaller(count, 128)
}

// What fills an unused place.
pub fn blank_part() -> Part
    ensures { result ≡ blank_part }
{
    Part {
        id: ElementId(0),
        kind: 0,
        unreported: 0,
        spare: 0,
        blocks: 0,
    }
}

// ---- The search

// The search among parts. It stops at the first identifier that is not below the one sought, and hits where that is the one.
fn seek(parts: &[Part], id: ElementId) -> Result<Sight, Sight>
    ensures { result ≡ search.sought_in id.0 parts.now }
{
    match parts.iter().position(|part| id.0 <= part.id.0) {
        Some(place) => {
            let part = parts[place];
            let sight = Sight { part, place };
            if part.id.0 == id.0 {
                Ok(sight)
            } else {
                Err(sight)
            }
        }
        None => Err(Sight {
            part: blank_part(),
            place: parts.len(),
        }),
    }
}

impl Table {
    // The search for an identifier; a miss tells where it stops too.
    pub fn sight(self, id: ElementId) -> Result<Sight, Sight>
        ensures { result ≡ search.sought id.0 self }
    {
        seek(&self.parts[..bounded(self.count)], id)
    }
}

// ---- The healths, by place

// The health of a place.
pub fn health_at(healths: [u8; 128], place: usize) -> u8
    ensures { result ≡ get_or healths place 0 }
{
    healths.get(place).copied().unwrap_or(0)
}

// The healths with this one at a place. An array of its own is changed: the parameter, changed in place, would be copied once more by each grade.
pub fn with_health(healths: [u8; 128], place: usize, health: u8) -> [u8; 128]
    ensures { result ≡ set healths place health }
{
    if place < 128 {
        let mut graded = healths;
        graded[place] = health;
        graded
    } else {
        healths
    }
}

// How many of the first `count` are at FFh. Counted in 16 bits: a filter and its count, which go by 64, take some 6 instructions more an element.
pub fn removed(healths: [u8; 128], count: usize) -> u16
    ensures { result ≡ removed_count (take count healths) }
{
    let live = &healths[..bounded(count)];
    let mut number: u16 = 0;
    for health in live {
        number += (*health == 0xFF) as u16;
    }
    number
}
