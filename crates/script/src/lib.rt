// The bench language: what a line of a script says.
#![tactic(auto)]

ghost use Rattle.std.specs.Prelude.{◌≡◌};
ghost use Rattle.script.specs.Names as spec;

use arguments::{
    Bare, Line, command_call, element_call, grade_call, length_call, make_call, next_call,
    poke_call, read_call, scsi_call, scsiread_call, toata_call, toscsi_call,
};
use lines::{is_named, is_passed};
use pieces::{Gathered, is_long};

// The names are asked one after the other: a `match` on the word has a way out for each byte of each name.
#[tactic(auto, unfolding(crate::specs::Names::dock_call))]
fn dock_call(line: &[u8]) -> Option<Line>
    ensures { result ≡ spec.dock_call line.now }
{
    if is_named(line, b"scsi", 6) {
        return scsi_call(line);
    }
    if is_named(line, b"scsiread", 4) {
        return scsiread_call(line);
    }
    if is_named(line, b"toscsi", 5) {
        return toscsi_call(line);
    }
    if is_named(line, b"toata", 6) {
        return toata_call(line);
    }
    None
}

#[tactic(auto, unfolding(crate::specs::Names::page_call))]
fn page_call(line: &[u8]) -> Option<Line>
    ensures { result ≡ spec.page_call line.now }
{
    if is_named(line, b"length", 2) {
        return length_call(line);
    }
    if is_named(line, b"poke", 3) {
        return poke_call(line);
    }
    if is_named(line, b"read", 4) {
        return read_call(line);
    }
    if is_named(line, b"next", 4) {
        return next_call(line);
    }
    dock_call(line)
}

#[tactic(auto, unfolding(crate::specs::Names::reset_call))]
fn reset_call(line: &[u8]) -> Option<Line>
    ensures { result ≡ spec.reset_call line.now }
{
    if is_named(line, b"comreset", 1) {
        return Some(Line::Bare(Bare::Comreset));
    }
    if is_named(line, b"hardreset", 1) {
        return Some(Line::Bare(Bare::Hardreset));
    }
    if is_named(line, b"softreset", 1) {
        return Some(Line::Bare(Bare::Softreset));
    }
    page_call(line)
}

#[tactic(auto, unfolding(crate::specs::Names::event_call))]
fn event_call(line: &[u8]) -> Option<Line>
    ensures { result ≡ spec.event_call line.now }
{
    if is_named(line, b"step", 1) {
        return Some(Line::Bare(Bare::Step));
    }
    if is_named(line, b"error", 1) {
        return Some(Line::Bare(Bare::Error));
    }
    if is_named(line, b"cut", 1) {
        return Some(Line::Bare(Bare::Cut));
    }
    if is_named(line, b"grade", 3) {
        return grade_call(line);
    }
    reset_call(line)
}

#[tactic(auto, unfolding(crate::specs::Names::device_call))]
fn device_call(line: &[u8]) -> Option<Line>
    ensures { result ≡ spec.device_call line.now }
{
    if is_named(line, b"element", 6) {
        return element_call(line);
    }
    if is_named(line, b"make", 2) {
        return make_call(line);
    }
    if is_named(line, b"command", 7) {
        return command_call(line);
    }
    if is_named(line, b"cells", 1) {
        return Some(Line::Cells);
    }
    event_call(line)
}

// Of a line without its newline.
#[tactic(auto, unfolding(crate::specs::Names::line_of))]
pub fn meaning(line: &[u8]) -> Line
    ensures { result ≡ spec.line_of line.now }
{
    if is_long(line) {
        return Line::NotACall;
    }
    if is_passed(line) {
        return Line::Passed;
    }
    device_call(line).unwrap_or(Line::NotACall)
}

// Of a line as it was gathered.
pub fn meaning_of(line: Gathered) -> Line
    ensures { result ≡ spec.meaning_of line }
{
    let len = line.len;
    if 200 < len {
        return Line::NotACall;
    }
    let bytes = line.bytes;
    meaning(&bytes[..len])
}
