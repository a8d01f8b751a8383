// The best fraction within an odd limit: of all there are, the nearest to a ratio. Document 02, W14.
//
// A walk over allowed fractions, from 1/1: past one that is at most the ratio to the next numerator, past one above it to the next
// denominator, with the best on either side kept. All others lie beyond one that was passed, so that of 65,535 numerators and as many
// denominators each is met once at most. Of the two that are left the nearer one is the answer, by whole numbers. The ratio is
// m * 2^k / 2^1074, with 53 digits in m, as `floats::unpack` has it.
#![tactic(auto)]

ghost use Rattle.std.specs.Prelude.{◌≡◌, true, ◌&&◌, ◌||◌, ◌+◌, ◌*◌, ◌/◌, ◌^◌, ◌≤◌, ◌<◌, leb, ltb, eqb};
ghost use Rattle.base.specs.Said.{outcome};
ghost use Rattle.floats.specs.Ranges.{in_search};
ghost use Rattle.best.specs.Best.{Best};
ghost use Rattle.best.specs.Answers.{BestOf, BestSaid};
ghost use Rattle.best.specs.Walked.{Next, Ready, Up, On, Stepped, Finished, Two, Picks};

use base::{Reason, Refusal};
use pitch::Ratio;

// A fraction and the ratio's deviation from it.
#[derive(Clone, Copy)]
pub struct BestFraction {
    pub numer: u16,
    pub denom: u16,
    pub deviation: Ratio,
}

// A fraction on the walk; 0/1 and 1/0 stand for none.
#[derive(Clone, Copy)]
pub struct Candidate {
    pub numer: u64,
    pub denom: u64,
}

// The walk: the fraction at hand, the best one so far at most the ratio, and the best one above it.
#[derive(Clone, Copy)]
pub struct Walk {
    pub here: Candidate,
    pub low: Candidate,
    pub high: Candidate,
}

// Where numerators and denominators end.
const LAST: u64 = 65535;

// A ratio whose k is over MOST is 2^16 or more, above every fraction; one whose k is under LEAST is below 2^-16, below every fraction.
const LEAST: u64 = 1006;

const MOST: u64 = 1037;

// The next number after n whose odd part is within the limit: the next multiple of 2^k, for the least k of whose multiples fewer than
// `limit` are at most n.
fn next_within(n: u64, limit: u64) -> u64
    requires { (n ≤ 65535) × (1 ≤ limit) }
    ensures { Next limit n result }
{
    let mut k: u64 = 0;
    // A `while`: how many turns there are is what it finds.
    while limit <= n >> k {
        k = k + 1;
    }
    ((n >> k) + 1) << k
}

// 2^32: m is m / HALF * HALF + m % HALF, and either part times d has 64 bits.
const HALF: u64 = 0x1_0000_0000;

// The whole part of m * d / 2^32.
fn scaled(m: u64, d: u64) -> u64
    requires { (m < 2 ^ 53) × (d ≤ 65535) }
    ensures { result ≡ m * d / 2 ^ 32 }
{
    m / HALF * d + m % HALF * d / HALF
}

// 1074 - 32.
const UNITS_OVER_HALF: u64 = 1042;

// Whether n / d is at most the ratio: n * 2^1074 against m * 2^k * d, both over 2^(k + 32).
fn is_below(n: u64, d: u64, m: u64, k: u64) -> bool
    requires { (1 ≤ n) × (n ≤ 65535) × (1 ≤ d) × (d ≤ 65535) × (2 ^ 52 ≤ m) × (m < 2 ^ 53) }
    ensures { result ≡ leb (2 ^ 1074 * n) (m * 2 ^ k * d) }
{
    if MOST < k {
        return true;
    }
    if k < LEAST {
        return false;
    }
    n << (UNITS_OVER_HALF - k) <= scaled(m, d)
}

// Past a fraction that is at most the ratio.
fn go_up(w: Walk, limit: u64) -> Walk
    requires { Ready limit w × (w.here.numer ≤ 65535) × (1 ≤ limit) }
    ensures { Up limit w result }
{
    let here = w.here;
    let low = w.low;
    let next = Candidate {
        numer: next_within(here.numer, limit),
        denom: here.denom,
    };
    if low.numer * here.denom < here.numer * low.denom {
        return Walk {
            here: next,
            low: here,
            ..w
        };
    }
    Walk { here: next, ..w }
}

// Past a fraction above the ratio.
fn go_on(w: Walk, limit: u64) -> Walk
    requires { Ready limit w × (w.here.denom ≤ 65535) × (1 ≤ limit) }
    ensures { On limit w result }
{
    let here = w.here;
    let high = w.high;
    let next = Candidate {
        numer: here.numer,
        denom: next_within(here.denom, limit),
    };
    if here.numer * high.denom < high.numer * here.denom {
        return Walk {
            here: next,
            high: here,
            ..w
        };
    }
    Walk { here: next, ..w }
}

// Past the fraction at hand.
fn step(w: Walk, m: u64, k: u64, limit: u64) -> Walk
    requires { Ready limit w × (w.here.numer ≤ 65535) × (w.here.denom ≤ 65535) × (1 ≤ limit) × (2 ^ 52 ≤ m) × (m < 2 ^ 53) }
    ensures { Stepped (m * 2 ^ k) (2 ^ 1074) limit w result }
{
    let here = w.here;
    if is_below(here.numer, here.denom, m, k) {
        return go_up(w, limit);
    }
    go_on(w, limit)
}

// The walk to its end, where all is passed.
fn walk_to_end(m: u64, k: u64, limit: u64) -> Walk
    requires { (1 ≤ limit) × (2 ^ 52 ≤ m) × (m < 2 ^ 53) }
    ensures { Finished (m * 2 ^ k) (2 ^ 1074) limit result }
{
    let mut w = Walk {
        here: Candidate { numer: 1, denom: 1 },
        low: Candidate { numer: 0, denom: 1 },
        high: Candidate { numer: 1, denom: 0 },
    };
    // A `loop`: the steps vary.
    loop {
        let here = w.here;
        if LAST < here.numer {
            return w;
        }
        if LAST < here.denom {
            return w;
        }
        w = step(w, m, k, limit);
    }
}

// Whether m * m * a is below b * 2^(t + 74), or is that and `tie`: g is m * m * a over 2^74, with `part % 1024` and `low` left over.
fn is_less(m: u64, a: u64, b: u64, t: u64, tie: bool) -> bool
    requires { (m < 2 ^ 53) × (a < 2 ^ 32) × (b < 2 ^ 32) × (t ≤ 62) }
    ensures { result ≡ (ltb (m * m * a) (b * 2 ^ (t + 74)) || (eqb (m * m * a) (b * 2 ^ (t + 74)) && tie)) }
{
    let high = wide::high_product(m, m);
    let square = wide::low_product(m, m);
    let carried = wide::high_product(square, a);
    let low = wide::low_product(square, a);
    let part = high % 1024 * a + carried;
    let g = high / 1024 * a + part / 1024;
    let whole = g >> t;
    if whole < b {
        return true;
    }
    let zero = (low == 0) & (part % 1024 == 0) & (whole << t == g);
    zero & (whole == b) & tie
}

// Whether the best below is the answer: nearer than the best above, or as near and of no larger denominator.
fn is_low(low: Candidate, high: Candidate, m: u64, k: u64) -> bool
    requires { Two (m * 2 ^ k) (2 ^ 1074) low high × (2 ^ 52 ≤ m) × (m < 2 ^ 53) }
    ensures { Picks (m * 2 ^ k) (2 ^ 1074) low high result }
{
    if high.denom == 0 {
        return true;
    }
    if low.numer == 0 {
        return false;
    }
    is_less(
        m,
        low.denom * high.denom,
        low.numer * high.numer,
        (MOST - k) * 2,
        low.denom <= high.denom,
    )
}

// The best fraction for the ratio.
fn best_of(m: u64, k: u64, limit: u64) -> Candidate
    requires { (1 ≤ limit) × (2 ^ 52 ≤ m) × (m < 2 ^ 53) }
    ensures { Best (m * 2 ^ k) (2 ^ 1074) limit result.numer result.denom }
{
    let w = walk_to_end(m, k, limit);
    if is_low(w.low, w.high, m, k) {
        return w.low;
    }
    w.high
}

// The best fraction for a number, and its deviation from that.
fn best_for(value: f64, limit: u16) -> BestFraction
    requires { (in_search value ≡ true) × (1 ≤ limit) }
    ensures { BestOf value limit result }
{
    let parts = floats::unpack(value);
    let best = best_of(parts.digits, parts.exponent, limit as u64);
    let numer = best.numer as u16;
    let denom = best.denom as u16;
    let deviation = Ratio(value / ((numer as f64) / (denom as f64)));
    BestFraction {
        numer,
        denom,
        deviation,
    }
}

// The best of all fractions within the odd limit, octaves not taken off; 10 outside 2^-64..2^64, then 29 for limit 0.
pub fn best_fraction(ratio: Ratio, limit: u16) -> Result<BestFraction, Refusal>
    ensures { BestSaid ratio.0 limit (outcome result) }
{
    let value = ratio.0;
    if floats::is_in_search(value) {
        if limit == 0 {
            return Err(Refusal {
                reason: Reason::NoFraction,
                detail: 0,
            });
        }
        return Ok(best_for(value, limit));
    }
    Err(Refusal {
        reason: Reason::Unusable,
        detail: 0,
    })
}
