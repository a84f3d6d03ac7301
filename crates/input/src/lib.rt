// What the programs share: the arguments, what a program reads, which is a file or standard input to its end or until the buffer is full, what
// it writes on standard output, and the words on standard error when one of these fails.
#![tactic(auto)]

ghost use Rattle.io.specs.Counts.{IsPrefixLen};
ghost use Rattle.std.specs.Io.KnownBytes.{Consumes, IsAtEnd};
ghost use Rattle.std.specs.Prelude.{◌≡◌, ◌<◌, ℕ, length, take, replicate, IfOk, OnErr};

use std::env::{Env, FillError};
use std::fs::File;
use std::io;
use std::io::{ErrorKind, Read, Write};

// Something failed, and standard error has the words.
#[derive(Clone, Copy, Debug, PartialEq, Eq)]
pub struct Told;

// Room for a page or as many bytes of SCSI data, and a byte more, so that a longer input is seen.
pub const PAGE_ROOM: usize = 65537;

// Room for every listing.
pub const LISTING_ROOM: usize = 80000;

// Room for the name of a file: the longest that the system takes, and more.
pub const NAME_ROOM: usize = 4096;

pub fn name_room() -> [u8; NAME_ROOM]
    ensures { result ≡ replicate 4096 0 }
{
    [0u8; NAME_ROOM]
}

// How many words of an error there are: they end where std adds the system's number, or at the first zero.
fn words_len(text: &[u8]) -> usize
    ensures { IsPrefixLen result text.now }
{
    for (i, b) in text.iter().enumerate() {
        if *b == 0 || text[i..].starts_with(b" (os error ") {
            return i;
        }
    }
    text.len()
}

// Says on standard error what failed and why, in a line such as 'list: standard input: Input/output error'. If that fails too, nothing is left
// to do.
pub fn tell(rt: &HostRuntime, what: &[u8], error: io::Error) -> Told {
    let mut text = [0u8; 256];
    let mut room: &mut [u8] = &mut text;
    let _ = write!(room, "{error}");
    let size = words_len(&text);
    let mut to = rt.stderr();
    let _ = to.write_all(what);
    let _ = to.write_all(b": ");
    let _ = to.write_all(&text[..size]);
    let _ = to.write_all(b"\n");
    Told
}

// How many arguments there are, the program's own name among them.
pub fn arg_count(rt: &HostRuntime) -> usize {
    for i in 0..usize::MAX {
        if let Err(FillError::NotPresent) = rt.arg(i, &mut []) {
            return i;
        }
    }
    usize::MAX
}

// The bytes of an argument, at the start of the buffer. One that is missing, or longer than the buffer, is empty.
pub fn arg(rt: &HostRuntime, i: usize, buf: &mut [u8]) -> usize
    ensures { IsPrefixLen result buf.new }
{
    rt.arg(i, buf).unwrap_or(0)
}

// Reads to the end, or until the buffer is full. If a read fails, what was read before stands at the start of the buffer. Each read says how
// much it gave, so no `for` counts the bytes.
pub fn read_whole<R: Read>(reader: &mut R, buf: &mut [u8]) -> io::Result<usize>
    ensures prefix_len { IfOk result (λ n. IsPrefixLen n buf.new) }
    ensures bytes { IfOk result (λ n. Consumes (R.remaining reader.old) (R.remaining reader.new) (take n buf.new)) }
    ensures end { IfOk result (λ n. n < length buf.new → IsAtEnd (R.remaining reader.new)) }
    ensures err { OnErr result ((n : ℕ) × IsPrefixLen n buf.new × Consumes (R.remaining reader.old) (R.remaining reader.new) (take n buf.new)) }
{
    let mut n: usize = 0;
    while n < buf.len() {
        let more = reader.read(&mut buf[n..])?;
        if more == 0 {
            break;
        }
        n += more;
    }
    Ok(n)
}

// What is on standard input. If it cannot be read, that is said on standard error, and the buffer may hold a part of it.
pub fn read_input(rt: &HostRuntime, what: &[u8], buf: &mut [u8]) -> Result<usize, Told>
    ensures ok { IfOk result (λ n. IsPrefixLen n buf.new) }
    ensures err { OnErr result (length buf.new ≡ length buf.old) }
{
    let mut stdin = rt.stdin();
    read_whole(&mut stdin, buf).map_err(|error| tell(rt, what, error))
}

// The file of a name. A name that is not UTF-8 is one that std cannot open.
pub fn open(rt: &HostRuntime, name: &[u8]) -> io::Result<File> {
    let path = str::from_utf8(name).map_err(|_| io::Error::from(ErrorKind::InvalidFilename))?;
    File::open(rt, path)
}

fn read_named(rt: &HostRuntime, name: &[u8], buf: &mut [u8]) -> io::Result<usize>
    ensures ok { IfOk result (λ n. IsPrefixLen n buf.new) }
    ensures err { OnErr result (length buf.new ≡ length buf.old) }
{
    let mut file = open(rt, name)?;
    read_whole(&mut file, buf)
}

// The file that an argument names. If it cannot be read, that is said on standard error, and the buffer may hold a part of it.
pub fn read_file(rt: &HostRuntime, i: usize, buf: &mut [u8]) -> Result<usize, Told>
    ensures ok { IfOk result (λ n. IsPrefixLen n buf.new) }
    ensures err { OnErr result (length buf.new ≡ length buf.old) }
{
    let mut path = name_room();
    let length = arg(rt, i, &mut path);
    let name = &path[..length];
    read_named(rt, name, buf).map_err(|error| tell(rt, name, error))
}

// Writes on standard output. If that fails, it is said on standard error.
pub fn hand_out(rt: &HostRuntime, what: &[u8], bytes: &[u8]) -> Result<(), Told> {
    let mut to = rt.stdout();
    to.write_all(bytes).map_err(|error| tell(rt, what, error))
}

// Writes the name itself, and what ends it.
pub fn write_name(rt: &HostRuntime, what: &[u8], i: usize, end: &[u8]) -> Result<(), Told> {
    let mut path = name_room();
    let length = arg(rt, i, &mut path);
    hand_out(rt, what, &path[..length])?;
    hand_out(rt, what, end)
}

#[cfg(test)]
mod tests {
    use super::*;
    use std::test::Fail;

    // A reader that gives two bytes at each read, and fails after `left` reads.
    #[derive(Drop)]
    struct Faulty {
        left: u8,
    }

    impl Read for Faulty {
        fn read(&mut self, buf: &mut [u8]) -> io::Result<usize> {
            if self.left == 0 {
                return Err(io::Error::from(ErrorKind::BrokenPipe));
            }
            self.left -= 1;
            for (i, b) in buf.iter_mut().enumerate() {
                if i == 2 {
                    return Ok(2);
                }
                *b = 7;
            }
            Ok(buf.len())
        }
    }

    #[test]
    fn reads_in_pieces(rt: HostRuntime) -> Result<(), Fail> {
        let mut whole = [0u8; 6];
        assert_eq!(rt; read_whole(&mut Faulty { left: 3 }, &mut whole)?, 6);
        assert_eq!(rt; whole, [7u8; 6]);
        let mut short: &[u8] = b"page";
        assert_eq!(rt; read_whole(&mut short, &mut whole)?, 4);
        assert!(rt; whole.starts_with(b"page"));
        Ok(())
    }

    #[test]
    fn tells_a_failed_read(rt: HostRuntime) {
        let mut whole = [0u8; 6];
        let read = read_whole(&mut Faulty { left: 2 }, &mut whole);
        assert!(rt; read.is_err());
        assert_eq!(rt; whole, [7, 7, 7, 7, 0, 0]);
    }

    #[test]
    fn words_end_at_the_number(rt: HostRuntime) {
        assert_eq!(rt; words_len(b"Input/output error (os error 5)\0"), 18);
        assert_eq!(rt; words_len(b"invalid filename\0\0"), 16);
        assert_eq!(rt; words_len(b"unended"), 7);
    }
}
