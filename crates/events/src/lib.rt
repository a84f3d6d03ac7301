// The bench's calls on a device by value: what a line says is one event of the device.
#![tactic(auto)]

ghost use Rattle.std.specs.Prelude.{◌≡◌};
ghost use Rattle.device.specs.Machine.{told};
ghost use Rattle.paper.specs.Told.{said};
ghost use Rattle.events.specs.Events.{event_of, bare_event, grade_event};

use arguments::{Bare, Command, Grade};
use device::{Device, Stepped};

// The front call by value, over a lent buffer of `room` bytes.
pub fn commanded(d: Device, c: Command, room: usize) -> Stepped
    ensures { said result.answer result.device ≡ told d (event_of c room) }
{
    commands::command(d, c.security, c.registers, room)
}

pub fn bare(d: Device, b: Bare) -> Stepped
    ensures { said result.answer result.device ≡ told d (bare_event b) }
{
    match b {
        Bare::Step => d.step(),
        Bare::Error => d.media_error(),
        Bare::Cut => d.power_cut(),
        Bare::Comreset => d.comreset(),
        Bare::Hardreset => d.hardware_reset(),
        Bare::Softreset => d.software_reset(),
    }
}

pub fn graded(d: Device, g: Grade) -> Stepped
    ensures { said result.answer result.device ≡ told d (grade_event g) }
{
    let id = g.id;
    d.grade(id, g.health)
}
