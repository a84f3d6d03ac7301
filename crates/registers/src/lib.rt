// The words of a command's registers: the security state, and FEATURE, COUNT and LBA.
#![tactic(auto)]

ghost use Rattle.std.specs.Prelude.{◌≡◌};
ghost use Rattle.registers.specs.Registers.{state_of, fitted_at, asked_at};

use lines::field_at;
use paper::{Lba, PageCount, Security};
use request::Request;

// The security state that a word names.
pub fn state_of(word: &[u8]) -> Option<Security>
    ensures { result ≡ state_of word.now }
{
    if word == b"locked".as_slice() {
        Some(Security::Locked)
    } else if word == b"unlocked".as_slice() {
        Some(Security::Unlocked)
    } else if word == b"frozen".as_slice() {
        Some(Security::Frozen)
    } else {
        None
    }
}

// FEATURE, COUNT and LBA from word k on, 0 for one that does not fit its field: `Ok` if each fits.
#[tactic(auto, unfolding(crate::specs::Registers::fitted_at))]
pub fn asked_at(line: &[u8], k: u8) -> Result<Request, Request>
    ensures { result ≡ fitted_at line.now k }
{
    let first = k as usize;
    let feature = field_at(line, first, 0xFFFF);
    let count = field_at(line, first + 1, 0xFFFF);
    let lba = field_at(line, first + 2, 0xFFFF_FFFF_FFFF_FFFF);
    let request = Request {
        feature: feature.unwrap_or(0) as u16,
        count: PageCount(count.unwrap_or(0) as u16),
        lba: Lba(lba.unwrap_or(0)),
    };
    if feature.is_some() && count.is_some() && lba.is_some() {
        Ok(request)
    } else {
        Err(request)
    }
}

// What is asked for from word k on, if each field fits.
#[tactic(auto, using(crate::proofs::Fitted::told_fit))]
pub fn request_at(line: &[u8], k: u8) -> Option<Request>
    ensures { result ≡ asked_at line.now k }
{
    asked_at(line, k).ok()
}
