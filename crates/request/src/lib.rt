// A request for status pages (12h): which are due 4, the tests of an element, and what a request is answered.
#![tactic(auto)]

ghost use Rattle.std.specs.Prelude.{◌≡◌};
ghost use Rattle.paper.specs.Answers.{number_of};
ghost use Rattle.request.specs.Requests.{asked, filter_of, report_type_of, start_of, sets_reserved, refused, status_number, takes_id, takes_type, takes_health, request_for};

use paper::{Answer, Command, ElementId, Lba, PageCount, Registers, Security};

// A request for status pages (12h), as the registers have it.
#[repr(C)]
#[derive(Clone, Copy)]
pub struct Request {
    pub feature: u16,
    pub count: PageCount,
    pub lba: Lba,
}

// What 12h asks for.
impl From<Registers> for Request {
    ghost from_gives = { λ registers request. request ≡ asked registers };

    fn from(registers: Registers) -> Request {
        Request {
            feature: registers.feature,
            count: PageCount(registers.count),
            lba: registers.lba,
        }
    }
}

impl Request {
    fn filter(self) -> u16
        ensures { result ≡ filter_of self }
    {
        self.feature / 16384 % 4
    }

    fn report_type(self) -> u16
        ensures { result ≡ report_type_of self }
    {
        self.feature / 256 % 16
    }

    fn start(self) -> ElementId
        ensures { result.0 ≡ start_of self }
    {
        ElementId((self.lba.0 % 0x1_0000_0000) as u32)
    }

    // Whether a bit of FEATURE 13:12 or 7:0 or of LBA 47:32 is set.
    fn sets_reserved(self) -> bool
        ensures { result ≡ sets_reserved self }
    {
        if self.feature / 4096 % 4 != 0 {
            return true;
        }
        if self.feature % 256 != 0 {
            return true;
        }
        self.lba.0 / 0x1_0000_0000 % 0x1_0000 != 0
    }

    // Whether the request is due 4.
    pub fn is_refused(self) -> bool
        ensures { result ≡ refused self }
    {
        if 1 < self.filter() {
            return true;
        }
        if 1 < self.report_type() {
            return true;
        }
        if self.count.0 == 0 {
            return true;
        }
        self.sets_reserved()
    }

    // Whether an identifier is at or above the start.
    pub fn takes_id(self, id: ElementId) -> bool
        ensures { result ≡ takes_id self id.0 }
    {
        let start = self.start();
        start.0 <= id.0
    }

    pub fn takes_type(self, kind: u8) -> bool
        ensures { result ≡ takes_type (report_type_of self) kind }
    {
        if self.report_type() == 1 {
            kind == 1
        } else {
            true
        }
    }

    // Filter 01b takes 65h to CFh, and FFh: two comparisons for any health.
    pub fn takes_health(self, health: u8) -> bool
        ensures { result ≡ takes_health (filter_of self) health }
    {
        if self.filter() != 1 {
            return true;
        }
        if health <= 0xCF {
            return 0x65 <= health;
        }
        health == 0xFF
    }
}

// What a request is answered, over the length of the lent buffer.
pub fn judge(security: Security, request: Request, room: usize) -> Answer
    ensures { number_of result ≡ status_number security request room }
{
    if paper::is_aborted(Command::Status, security) {
        return Answer::SecurityLocked;
    }
    if request.is_refused() {
        return Answer::InvalidField;
    }
    if room < 512 * (request.count.0 as usize) {
        return Answer::SmallBuffer;
    }
    Answer::Done
}

// What an input of so many pages is read as an answer to.
pub fn request_for(pages: PageCount) -> Request
    ensures { result ≡ request_for pages.0 }
{
    Request {
        feature: 0,
        count: pages,
        lba: Lba(0),
    }
}
