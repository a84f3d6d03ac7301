// Converts what is on standard input: a page to SCSI data, or with an argument, a decimal number, SCSI data to so many pages. A refusal is words
// on standard error, and then nothing is written.
#![tactic(auto)]

ghost use Rattle.std.specs.Prelude.{◌≤◌};

use convert::Refusal;
use input::Told;
use paper::PageCount;
use std::io::Write;

// Room for everything that is converted.
const ROOM: usize = 65536;

// Room for the words of a refusal.
const WORDS_ROOM: usize = 4096;

// If even these words cannot be written, nothing is left to do.
fn say(rt: &HostRuntime, words: &[u8]) {
    let mut to = rt.stderr();
    let _ = to.write_all(words);
}

fn refuse(rt: &HostRuntime, place: usize) {
    let mut words = [0u8; WORDS_ROOM];
    let size = heading::put_refused(&mut words, 0, place);
    say(rt, slices::head(&words, size));
}

fn answer(rt: &HostRuntime, outcome: Result<usize, Refusal>, out: &[u8]) -> Result<(), Told> {
    match outcome {
        Ok(size) => input::hand_out(rt, b"convert: standard output", slices::head(out, size))?,
        Err(Refusal::SmallBuffer) => say(rt, b"convert: more pages than there is room for\n"),
        Err(Refusal::Offence(offence)) => refuse(rt, offence.0),
    }
    Ok(())
}

fn digit(byte: u8) -> u16
    ensures { result ≤ 9 }
{
    (byte % 16 % 10) as u16
}

// The number of a word's first three digits.
fn number(word: &[u8]) -> u16 {
    match word {
        [] => 0,
        [ones] => digit(*ones),
        [tens, ones] => digit(*tens) * 10 + digit(*ones),
        [hundreds, tens, ones, ..] => { digit(*hundreds) * 100 + digit(*tens) * 10 + digit(*ones) }
    }
}

fn to_scsi(rt: &HostRuntime, input: &[u8]) -> Result<(), Told> {
    let mut out = [0u8; ROOM];
    let outcome = turning::to_scsi(input, &mut out);
    answer(rt, outcome, &out)
}

fn to_ata(rt: &HostRuntime, input: &[u8]) -> Result<(), Told> {
    let mut word = input::name_room();
    let length = input::arg(rt, 1, &mut word);
    let pages = PageCount(number(&word[..length]));
    let mut out = [0u8; ROOM];
    let outcome = turning::to_ata(input, pages, &mut out);
    answer(rt, outcome, &out)
}

fn turn(rt: &HostRuntime) -> Result<(), Told> {
    let mut buf = [0u8; input::PAGE_ROOM];
    let n = input::read_input(rt, b"convert: standard input", &mut buf)?;
    if input::arg_count(rt) < 2 {
        to_scsi(rt, &buf[..n])
    } else {
        to_ata(rt, &buf[..n])
    }
}

// The words tell of a failure; the exit status is 0 all the same.
fn main(rt: HostRuntime) {
    let _ = turn(&rt);
}
