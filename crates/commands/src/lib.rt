// Any command code, by value: the security state, the registers, and the length of the lent buffer.
#![tactic(auto)]

ghost use Rattle.std.specs.Prelude.{◌≡◌, not, ◌&&◌, ◌≤◌};
ghost use Rattle.device.specs.Commands.{other_number, is_media, is_named, sectors_of, is_beyond, media_number};
ghost use Rattle.device.specs.Machine as machine;
ghost use Rattle.device.specs.Machine.{told};
ghost use Rattle.open.specs.Open.{is_open};
ghost use Rattle.paper.specs.Answers.{number_of};
ghost use Rattle.paper.specs.Told.{said};

use cells::Mark;
use device::{Device, Stepped};
use paper::{Answer, Lba, Registers, Security};
use request::Request;

// EXT reads, writes, verify: media access.
fn is_media(code: u8) -> bool
    ensures { result ≡ is_media code }
{
    matches!(code, 0x24 | 0x25 | 0x34 | 0x35 | 0x42)
}

fn is_named(code: u8) -> bool
    ensures { result ≡ is_named code }
{
    is_media(code) || matches!(code, 0xEC | 0xE1 | 0x2F | 0x47 | 0x0B | 0xF2 | 0xEF | 0xB0)
}

// Whether a removal is under way that the command must wait for.
fn is_shut(busy: bool, registers: Registers) -> bool
    ensures { result ≡ (busy && not (is_open registers.code registers.feature registers.lba.0)) }
{
    busy && !open::is_open(registers.code, registers.feature, registers.lba.0)
}

// COUNT 0 means 65,536 sectors.
fn sectors(count: u16) -> u64
    ensures { (result ≡ sectors_of count) × (1 ≤ result) × (result ≤ 65536) }
{
    if count == 0 { 65536 } else { count as u64 }
}

// Whether the last sector lies above the accessible max address.
fn is_beyond(accessible: Lba, lba: Lba, count: u16) -> bool
    ensures { result ≡ is_beyond accessible.0 lba count }
{
    let first = lba.low48();
    let last = first.0 + (sectors(count) - 1);
    accessible.0 < last
}

#[tactic(auto, unfolding(device::specs::Commands::media_number))]
fn media_answer(failed: Mark, accessible: Lba, registers: Registers) -> Answer
    ensures { number_of result ≡ media_number failed accessible registers.count registers.lba }
{
    if failed.is_set() {
        return Answer::Failed;
    }
    if is_beyond(accessible, registers.lba, registers.count) {
        return Answer::BeyondMax;
    }
    Answer::Done
}

// The judgement of a code that has no rules of its own.
#[tactic(auto, unfolding(device::specs::Commands::other_number))]
fn other_answer(d: Device, registers: Registers) -> Answer
    ensures { number_of result ≡ other_number d registers }
{
    let cells = d.cells;
    if is_shut(cells.note.is_full(), registers) {
        return Answer::InProgress;
    }
    if is_media(registers.code) {
        return media_answer(cells.failed, cells.accessible, registers);
    }
    if !is_named(registers.code) {
        return Answer::UnknownCommand;
    }
    Answer::Done
}

// What a code that changes nothing is answered; 12h has rules of its own. It is asked of 7Ch too, whose ruling does not need it.
fn quiet_answer(d: Device, security: Security, registers: Registers, room: usize) -> Answer
    ensures { number_of result ≡ machine.quiet_number d security registers room }
{
    if registers.code == 0x12 {
        return request::judge(security, Request::from(registers), room);
    }
    other_answer(d, registers)
}

// Any command, with the length of the lent buffer. It fills no page: of 12h that is left to `status::show`.
pub fn command(d: Device, security: Security, registers: Registers, room: usize) -> Stepped
    ensures { said result.answer result.device ≡ told d (machine.command security registers room) }
{
    let other = quiet_answer(d, security, registers, room);
    d.command(security, registers, other)
}
