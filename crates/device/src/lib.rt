// The device by value: the table as built, the cells, the position. Each call rules on an answer, one store and the next position; carrying the
// ruling out changes cells and position alone, and nothing else changes a device.
#![tactic(auto)]

ghost use Rattle.std.specs.Prelude.{◌≡◌};
ghost use Rattle.cells.specs.Rulings.{ruled};
ghost use Rattle.paper.specs.Answers.{number_of};
ghost use Rattle.paper.specs.Told.{said};
ghost use Rattle.steps.specs.Steps.{rule_stop};
ghost use Rattle.device.specs.Machine as machine;
ghost use Rattle.device.specs.Machine.{told};
ghost use Rattle.device.specs.Record.{says, tell};

use cells::{Cells, Position, Ruling, quiet};
use paper::{Answer, ElementId, Lba, Registers, Security};
use table::Table;

#[derive(Clone, Copy)]
pub struct Device {
    pub table: Table,
    pub cells: Cells,
    pub position: Position,
}

// What a call hands back.
#[derive(Clone, Copy)]
pub struct Stepped {
    pub device: Device,
    pub answer: Answer,
}

impl Device {
    // The ruling's store made and its position taken: the one place where an event changes a device.
    fn carry_out(self, ruling: Ruling) -> Stepped
        ensures { said result.answer result.device ≡ tell self (ruled ruling) }
    {
        let answer = ruling.answer;
        let store = ruling.store;
        let position = ruling.next;
        let before = self.cells;
        let cells = before.after(store);
        let table = self.table;
        Stepped {
            device: Device {
                table,
                cells,
                position,
            },
            answer,
        }
    }

    // REMOVE ELEMENT AND TRUNCATE (7Ch), which needs no buffer.
    pub fn remove(self, security: Security, feature: u16, count: u16, lba: Lba) -> Stepped
        ensures { said result.answer result.device ≡ told self (machine.command security (record { code = 0x7C; feature = feature; count = count; lba = lba }) 0) }
    {
        let registers = Registers {
            code: 0x7C,
            feature,
            count,
            lba,
        };
        let r = self.rule_command(security, registers, Answer::Done);
        self.carry_out(r)
    }

    fn rule_command(self, security: Security, registers: Registers, other: Answer) -> Ruling
        ensures { ruled result ≡ machine.rule_command self security registers (number_of other) }
    {
        let at = self.position;
        if registers.code == 0x7C {
            let table = self.table;
            let cells = self.cells;
            return removal::rule_remove(table, cells, at, security, registers);
        }
        quiet(other, at)
    }

    // Any command: 7Ch, or another code with what it is answered.
    pub fn command(self, security: Security, registers: Registers, other: Answer) -> Stepped
        ensures { said result.answer result.device ≡ tell self (machine.rule_command self security registers (number_of other)) }
    {
        let r = self.rule_command(security, registers, other);
        self.carry_out(r)
    }

    // One work step, or one step of winding up.
    pub fn step(self) -> Stepped
        ensures { said result.answer result.device ≡ told self machine.step }
    {
        let table = self.table;
        let cells = self.cells;
        let at = self.position;
        let r = steps::rule_step(table, cells, at);
        self.carry_out(r)
    }

    // To the first winding-up step if a removal is under way; else this answer.
    fn stop(self, idle: Answer) -> Stepped
        ensures { said result.answer result.device ≡ tell self (rule_stop self.position (number_of idle) self.cells.note) }
    {
        let cells = self.cells;
        let note = cells.note;
        let at = self.position;
        let r = steps::rule_stop(note, at, idle);
        self.carry_out(r)
    }

    pub fn media_error(self) -> Stepped
        ensures { said result.answer result.device ≡ told self machine.media_error }
    {
        self.stop(Answer::NoRemoval)
    }

    pub fn power_cut(self) -> Stepped
        ensures { said result.answer result.device ≡ told self machine.power_cut }
    {
        self.stop(Answer::Done)
    }

    // What a reset does: nothing changes.
    fn stay(self) -> Stepped
        ensures { said result.answer result.device ≡ tell self (says 0 self) }
    {
        let at = self.position;
        let r = quiet(Answer::Done, at);
        self.carry_out(r)
    }

    pub fn comreset(self) -> Stepped
        ensures { said result.answer result.device ≡ told self machine.comreset }
    {
        self.stay()
    }

    pub fn hardware_reset(self) -> Stepped
        ensures { said result.answer result.device ≡ told self machine.hardware_reset }
    {
        self.stay()
    }

    pub fn software_reset(self) -> Stepped
        ensures { said result.answer result.device ≡ told self machine.software_reset }
    {
        self.stay()
    }

    pub fn grade(self, id: ElementId, health: u8) -> Stepped
        ensures { said result.answer result.device ≡ told self (machine.grade id health) }
    {
        let table = self.table;
        let cells = self.cells;
        let at = self.position;
        let r = steps::rule_grade(table, cells, at, id, health);
        self.carry_out(r)
    }
}
