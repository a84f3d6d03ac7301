// What the bench says of a walk: how it goes on after the kept page; stored straight into a lent buffer.
#![tactic(auto)]

ghost use Rattle.std.specs.Prelude.{◌≡◌};
ghost use Rattle.slices.specs.Lists.{stored, ended};
ghost use Rattle.walk.specs.Next.{heard};
ghost use Rattle.moves.specs.Moves.{ask_line, move_line, next_text};

use offences::Offence;
use paper::ElementId;
use request::Request;

fn ask_line(id: ElementId) -> [u8; 13]
    ensures { result ≡ ask_line id }
{
    let mut line = *b"ask 00000000\n";
    slices::put(&mut line, 4, &writing::hex8(id.0));
    line
}

fn put_move(out: &mut [u8], at: usize, next: Result<Option<ElementId>, Offence>) -> usize
    ensures out_after { out.new ≡ stored out.old at (move_line (heard next).state) }
    ensures value { result ≡ ended out.old at (move_line (heard next).state) }
{
    match next {
        Ok(Some(id)) => writing::word(out, at, &ask_line(id)),
        Ok(None) => writing::word(out, at, b"end\n"),
        Err(offence) => writing::numbered(out, at, b"9 at ", offence.0 as u64),
    }
}

// Stores the line from a place on and answers where it ends; nothing, if it does not fit.
pub fn put(out: &mut [u8], at: usize, page: &[u8], request: Request) -> usize
    ensures out_after { out.new ≡ stored out.old at (next_text page.now request) }
    ensures value { result ≡ ended out.old at (next_text page.now request) }
{
    let kept = slices::head(page, 65536);
    put_move(out, at, walk::next(kept, request))
}
