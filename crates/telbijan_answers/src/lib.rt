// How the interface for C answers: the result is 0, or detail * 256 + number of a refusal; a value is stored where the caller lent
// room for it, and a refusal leaves that room as it was.
#![tactic(auto)]

ghost use Rattle.std.specs.Prelude.{◌≡◌};
ghost use Rattle.base.specs.Said.{said_by};
ghost use Rattle.telbijan_answers.specs.Interface.{code};
ghost use Rattle.telbijan_answers.specs.Calls.{Answered, Stored, StoredPart};

use base::Refuses;
use key::{Degree, PianoKey};
use pitch::{Pitch, Ratio};
use scl::Scl;

// detail * 256 + number.
pub fn code_of<R: Refuses>(refusal: R) -> u64
    ensures { result ≡ code (R.number refusal) (R.detail refusal) }
{
    let detail = refusal.detail() as u64;
    detail % 0x100_0000_0000_0000 * 256 + u64::from(refusal.number()) % 256
}

// Nothing is stored.
pub fn answered<T: Copy, R: Refuses>(answer: Result<T, R>) -> u64
    ensures { Answered (said_by R.number R.detail (λ a. a) answer) result }
{
    match answer {
        Ok(_) => 0,
        Err(refusal) => code_of(refusal),
    }
}

// The value.
pub fn store<T: Copy, R: Refuses>(answer: Result<T, R>, out: &mut T) -> u64
    ensures { Stored (said_by R.number R.detail (λ a. a) answer) out.old result out.new }
{
    match answer {
        Ok(value) => {
            *out = value;
            0
        }
        Err(refusal) => code_of(refusal),
    }
}

// The number of a key.
pub fn store_key<R: Refuses>(answer: Result<PianoKey, R>, out: &mut i32) -> u64
    ensures { StoredPart (λ k. k.0) (said_by R.number R.detail (λ a. a) answer) out.old result out.new }
{
    store(answer.map(|key| key.0), out)
}

// The number of a ratio.
pub fn store_ratio<R: Refuses>(answer: Result<Ratio, R>, out: &mut f64) -> u64
    ensures { Stored (said_by R.number R.detail (λ r. r.0) answer) out.old result out.new }
{
    store(answer.map(|ratio| ratio.0), out)
}

// The Hz of a pitch.
pub fn store_pitch<R: Refuses>(answer: Result<Pitch, R>, out: &mut f64) -> u64
    ensures { Stored (said_by R.number R.detail (λ p. p.0) answer) out.old result out.new }
{
    store(answer.map(|pitch| pitch.0), out)
}

// The number of a degree.
pub fn store_degree<R: Refuses>(answer: Result<Degree, R>, out: &mut i32) -> u64
    ensures { Stored (said_by R.number R.detail (λ d. d.0) answer) out.old result out.new }
{
    store(answer.map(|degree| degree.0), out)
}

// The count of items of a scale.
pub fn store_scl<R: Refuses>(answer: Result<Scl, R>, out: &mut u16) -> u64
    ensures { Stored (said_by R.number R.detail (λ s. s.count) answer) out.old result out.new }
{
    store(answer.map(|scl| scl.count), out)
}
