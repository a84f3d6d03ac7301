// The calls, each from the words of its line; nothing where they are not what the call takes.
ghost use Rattle.std.specs.Prelude.{◌≡◌};
ghost use Rattle.arguments.specs.Calls as spec;

use crate::{Command, Grade, Line, PageCall, Poke};
use lines::{field_at, word_at};
use paper::{ElementId, Registers};
use registers::{request_at, state_of};

// ---- The calls on the device

#[tactic(auto, unfolding(crate::specs::Calls::element_of))]
pub fn element_call(line: &[u8]) -> Option<Line>
    ensures { result ≡ spec.element_of line.now }
{
    let id = field_at(line, 1, 0xFFFF_FFFF)?;
    let kind = field_at(line, 2, 0xFF)?;
    let health = field_at(line, 3, 0xFF)?;
    let blocks = field_at(line, 4, 0xFFFF_FFFF_FFFF_FFFF)?;
    let flag = field_at(line, 5, 1)?;
    Some(Line::Element(offer::element_of(
        ElementId(id as u32),
        kind as u8,
        health as u8,
        flag == 1,
        blocks,
    )))
}

#[tactic(auto, unfolding(crate::specs::Calls::make_of))]
pub fn make_call(line: &[u8]) -> Option<Line>
    ensures { result ≡ spec.make_of line.now }
{
    let limit = field_at(line, 1, 0xFFFF)?;
    Some(Line::Make(limit as u16))
}

#[tactic(auto, unfolding(crate::specs::Calls::command_of))]
pub fn command_call(line: &[u8]) -> Option<Line>
    ensures { result ≡ spec.command_of line.now }
{
    let security = state_of(word_at(line, 1))?;
    let code = field_at(line, 2, 0xFF)?;
    let asked = request_at(line, 3)?;
    let length = field_at(line, 6, 0x1_0000)?;
    Some(Line::Command(Command {
        security,
        registers: Registers {
            code: code as u8,
            feature: asked.feature,
            count: asked.count.0,
            lba: asked.lba,
        },
        length: length as usize,
    }))
}

#[tactic(auto, unfolding(crate::specs::Calls::grade_of))]
pub fn grade_call(line: &[u8]) -> Option<Line>
    ensures { result ≡ spec.grade_of line.now }
{
    let id = field_at(line, 1, 0xFFFF_FFFF)?;
    let health = field_at(line, 2, 0xFF)?;
    Some(Line::Grade(Grade {
        id: ElementId(id as u32),
        health: health as u8,
    }))
}

// ---- The calls on the kept page

#[tactic(auto, unfolding(crate::specs::Calls::length_of))]
pub fn length_call(line: &[u8]) -> Option<Line>
    ensures { result ≡ spec.length_of line.now }
{
    let length = field_at(line, 1, 0x1_0000)?;
    Some(Line::Page(PageCall::Length(length as usize)))
}

#[tactic(auto, unfolding(crate::specs::Calls::poke_of))]
pub fn poke_call(line: &[u8]) -> Option<Line>
    ensures { result ≡ spec.poke_of line.now }
{
    let place = field_at(line, 1, 0x1_0000)?;
    let byte = field_at(line, 2, 0xFF)?;
    Some(Line::Page(PageCall::Poke(Poke {
        place: place as usize,
        byte: byte as u8,
    })))
}

#[tactic(auto, unfolding(crate::specs::Calls::read_of))]
pub fn read_call(line: &[u8]) -> Option<Line>
    ensures { result ≡ spec.read_of line.now }
{
    Some(Line::Page(PageCall::Read(request_at(line, 1)?)))
}

#[tactic(auto, unfolding(crate::specs::Calls::next_of))]
pub fn next_call(line: &[u8]) -> Option<Line>
    ensures { result ≡ spec.next_of line.now }
{
    Some(Line::Page(PageCall::Next(request_at(line, 1)?)))
}
