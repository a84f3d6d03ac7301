// What document 01 speaks of (identifiers, addresses, page counts, security) and what a call says.
#![tactic(auto)]

ghost use Rattle.std.specs.Prelude.{ℕ, List, ◌≡◌};
ghost use Rattle.paper.specs.Answers.{number_of, sense_of};
ghost use Rattle.paper.specs.Flags.{is_on};
ghost use Rattle.paper.specs.Output.{answer_for, output, wrote, written_of};
ghost use Rattle.paper.specs.Registers.{low48, identifier_of};
ghost use Rattle.paper.specs.Table12.{aborts, row_of, column_of};
ghost use Rattle.paper.specs.Told.{said};

// "An element identifier, a logical block address and a page count are three quantities kept apart."
#[repr(C)]
#[derive(Clone, Copy)]
pub struct ElementId(pub u32);

#[repr(C)]
#[derive(Clone, Copy)]
pub struct Lba(pub u64);

#[repr(C)]
#[derive(Clone, Copy)]
pub struct PageCount(pub u16);

// What a command is handed over in. Of LBA, 48 bits count.
#[derive(Clone, Copy)]
pub struct Registers {
    pub code: u8,
    pub feature: u16,
    pub count: u16,
    pub lba: Lba,
}

// The columns of 000, table 12.
#[derive(Clone, Copy)]
pub enum Security {
    Locked,
    Unlocked,
    Frozen,
}

// Its rows.
#[derive(Clone, Copy)]
pub enum Command {
    Remove,
    Status,
}

// What a device call says. The page reader's 9 has a byte place and an answer of its own.
#[derive(Clone, Copy)]
pub enum Answer {
    Done,
    SecurityLocked,
    InProgress,
    Failed,
    InvalidField,
    BeyondMax,
    UnknownCommand,
    SmallBuffer,
    TableRefused,
    NoRemoval,
    GradeRefused,
}

// Why a call that writes into a lent buffer wrote nothing.
#[derive(Clone, Copy)]
pub enum Unwritten {
    InvalidField,
    SmallBuffer,
}

// What a call says that writes into a lent buffer, and how many bytes it wrote: none unless it says 0.
#[derive(Clone, Copy)]
pub struct Written {
    pub answer: Answer,
    pub count: usize,
}

#[derive(Clone, Copy)]
pub struct Sense {
    pub key: u8,
    pub asc: u8,
    pub ascq: u8,
}

// 000, table 12: the command's row by the security state's column.
const ABORTED: [[bool; 3]; 2] = [[true, false, false], [false, false, false]];

// Whether a flag's byte says yes: any but 0 does, so that no byte is wild.
pub fn is_on(flag: u8) -> bool
    ensures { result ≡ is_on flag }
{
    flag != 0
}

impl Lba {
    // The 48 bits of an LBA register that count.
    pub fn low48(self) -> Lba
        ensures { result ≡ low48 self }
    {
        Lba(self.0 % 281474976710656)
    }
}

impl Registers {
    // FEATURE x 65,536 + COUNT.
    pub fn identifier(self) -> ElementId
        ensures { result ≡ identifier_of self }
    {
        ElementId(u32::from(self.feature) * 65536 + u32::from(self.count))
    }
}

fn row(command: Command) -> usize
    ensures { result ≡ row_of command }
{
    match command {
        Command::Remove => 0,
        Command::Status => 1,
    }
}

fn column(security: Security) -> usize
    ensures { result ≡ column_of security }
{
    match security {
        Security::Locked => 0,
        Security::Unlocked => 1,
        Security::Frozen => 2,
    }
}

// Whether a command is aborted in a security state.
pub fn is_aborted(command: Command, security: Security) -> bool
    ensures { result ≡ aborts command security }
{
    let i = row(command);
    let j = column(security);
    ABORTED[i][j]
}

impl From<Unwritten> for Answer {
    ghost from_gives = { λ why answer. answer ≡ answer_for why };

    fn from(why: Unwritten) -> Answer {
        match why {
            Unwritten::InvalidField => Answer::InvalidField,
            Unwritten::SmallBuffer => Answer::SmallBuffer,
        }
    }
}

impl Written {
    // The answer and the count of what a call wrote, or of why it wrote nothing.
    pub fn of(outcome: Result<usize, Unwritten>) -> Written
        ensures value { result ≡ written_of outcome }
        ensures told { (out : List ℕ) → said result.answer (output result.count out) ≡ wrote outcome out }
    {
        match outcome {
            Ok(count) => Written {
                answer: Answer::Done,
                count,
            },
            Err(why) => Written {
                answer: Answer::from(why),
                count: 0,
            },
        }
    }
}

// The number of an answer in document 01's table.
impl From<Answer> for u8 {
    ghost from_gives = { λ answer number. number ≡ number_of answer };

    fn from(answer: Answer) -> u8 {
        match answer {
            Answer::Done => 0,
            Answer::SecurityLocked => 1,
            Answer::InProgress => 2,
            Answer::Failed => 3,
            Answer::InvalidField => 4,
            Answer::BeyondMax => 5,
            Answer::UnknownCommand => 6,
            Answer::SmallBuffer => 7,
            Answer::TableRefused => 8,
            Answer::NoRemoval => 10,
            Answer::GradeRefused => 11,
        }
    }
}

fn codes(key: u8, asc: u8, ascq: u8) -> Option<Sense>
    ensures { result ≡ Some (record { key = key; asc = asc; ascq = ascq }) }
{
    Some(Sense { key, asc, ascq })
}

// The sense of a number in document 01's table: its last column has three codes, or none, which is not 0/00/00.
pub fn sense_at(number: u8) -> Option<Sense>
    ensures { result ≡ sense_of number }
{
    match number {
        0 => codes(0, 0x00, 0x00),
        1 => codes(0, 0x00, 0x00),
        2 => codes(2, 0x04, 0x24),
        3 => codes(3, 0x31, 0x04),
        4 => codes(5, 0x24, 0x00),
        5 => codes(5, 0x21, 0x00),
        6 => codes(5, 0x20, 0x00),
        _ => None,
    }
}

// The sense of an answer.
pub fn sense_of(answer: Answer) -> Option<Sense>
    ensures { result ≡ sense_of (number_of answer) }
{
    sense_at(u8::from(answer))
}
