// The making of a device from an offered table.
#![tactic(auto)]

ghost use Rattle.std.specs.Prelude.{◌≡◌};
ghost use Rattle.paper.specs.Told.{said};
ghost use Rattle.making.specs.Making.{made_of};

use cells::{Cells, Mark, Note, Position};
use device::{Device, Stepped};
use offer::Offer;
use paper::{Answer, Lba};

// A device of an offered table, or 8 and the device that was there.
pub fn make_device(there: Device, offer: Offer) -> Stepped
    ensures { said result.answer result.device ≡ made_of there offer }
{
    let Some(blocks) = offer.check() else {
        return Stepped {
            device: there,
            answer: Answer::TableRefused,
        };
    };
    let start = Lba(blocks - 1);
    Stepped {
        device: Device {
            table: offer.table(),
            cells: Cells {
                native: start,
                accessible: start,
                healths: offer.healths(),
                failed: Mark::Clear,
                note: Note::Empty,
            },
            position: Position::Work1,
        },
        answer: Answer::Done,
    }
}
