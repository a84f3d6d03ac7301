// The bench's front call, over a lent buffer that is filled with A5h before.
#![tactic(auto)]

ghost use Rattle.std.specs.Prelude.{◌≡◌, length, replicate};
ghost use Rattle.paper.specs.Answers.{number_of};
ghost use Rattle.front.specs.Front.{lent_of, written_by, left, after, lent_after, left_after};

use arguments::Command;
use device::Device;
use paper::Answer;
use request::Request;

// What the call leaves: the device, the answer, how many bytes were lent, and how many of these it wrote.
#[derive(Clone, Copy)]
pub struct Left {
    pub device: Device,
    pub answer: Answer,
    pub room: usize,
    pub count: usize,
}

// Fills a buffer that is to be lent.
pub fn fill(lent: &mut [u8])
    ensures { lent.new ≡ replicate (length lent.old) 0xA5 }
{
    lent.fill(0xA5);
}

// The page of 12h; any other command leaves the buffer.
fn show(d: Device, c: Command, lent: &mut [u8])
    ensures { lent.new ≡ lent_of d c lent.old }
{
    if c.registers.code != 0x12 {
        return;
    }
    status::show(d, c.security, Request::from(c.registers), lent);
}

// How many bytes an answer writes: 512p after a 12h that is answered 0.
fn answer_size(c: Command, answer: Answer) -> usize
    ensures { result ≡ written_by c (number_of answer) }
{
    if c.registers.code != 0x12 || u8::from(answer) != 0 {
        return 0;
    }
    512 * (c.registers.count as usize)
}

// Over a buffer that is lent whole.
fn command_over(d: Device, c: Command, lent: &mut [u8]) -> Left
    ensures { (left result ≡ after d c (length lent.old)) × (lent.new ≡ lent_of d c (replicate (length lent.old) 0xA5)) }
{
    let room = lent.len();
    fill(lent);
    show(d, c, lent);
    let s = events::commanded(d, c, room);
    let answer = s.answer;
    let device = s.device;
    Left {
        device,
        answer,
        room,
        count: answer_size(c, answer),
    }
}

// Over as many bytes as the line says, and as there are.
pub fn command(d: Device, c: Command, lent: &mut [u8]) -> Left
    ensures { (left result ≡ left_after d c lent.old) × (lent.new ≡ lent_after d c lent.old) }
{
    let n = c.length.min(lent.len());
    command_over(d, c, &mut lent[0..n])
}
