// What every other crate shares: why a call refuses. Document 01, "Numbers that answer"; 19, 25 and 29 are of document 02.
#![tactic(auto)]

ghost use Rattle.std.specs.Prelude.{◌≡◌, ℕ};
ghost use Rattle.base.specs.Numbers.{number_of};

// Why a call refuses, by 01's numbers.
#[derive(Clone, Copy, PartialEq, Eq)]
pub enum Reason {
    // A line is not UTF-8; the detail is the line.
    NotUtf8 = 1,
    // A required line is missing; the detail says which, counted from 1.
    LineMissing = 2,
    // Not an integer of its type; the detail is the line.
    IntValue = 3,
    // Not a cents value; the detail is the line.
    CentsValue = 4,
    // Not a numerator; the detail is the line.
    Numer = 5,
    // Not a denominator; the detail is the line.
    Denom = 6,
    // Not a decimal; the detail is the line.
    FloatValue = 7,
    // Not a mapping entry; the detail is the line.
    KeyboardMapping = 8,
    // A numeral with an exponent, a word, or over 18 digits; the detail is the line.
    UnsupportedNumeral = 9,
    // A value, a state or a lent table that cannot be used; the detail is the line, or 0 outside a text.
    Unusable = 10,
    // A number leaves its type; the detail is the line, or 0.
    Overflow = 11,
    // What was lent is too small; the detail is the line, or 0.
    NoRoom = 12,
    // Over 65,535 entries.
    TooLarge = 13,
    // The text has another count of notes or entries than it says.
    InconsistentCount = 14,
    // A builder with entries and no formal octave.
    FormalOctaveMissing = 15,
    // The key is outside the range.
    KeyOutOfRange = 16,
    // The key is unmapped.
    UnmappedKey = 17,
    // Beyond reach: a period of 1.0, 0 divisions, or a computed pitch or ratio outside its range.
    BeyondReach = 18,
    // The reference key is unmapped, counted from the middle key; said of pitches alone.
    ReferenceUnmapped = 19,
    // The last key is below the first; the detail is the last key's line, or 0.
    BackwardsRange = 25,
    // No fraction: the odd limit is 0.
    NoFraction = 29,
}

impl Reason {
    // The reason's number.
    pub fn number(self) -> u32
        ensures { result ≡ number_of self }
    {
        self as u32
    }
}

// Why a call refused: the reason, and the place that it is about.
#[derive(Clone, Copy, PartialEq, Eq)]
pub struct Refusal {
    pub reason: Reason,
    pub detail: usize,
}

// What says why a call refused: a number, and the place that it is about.
pub trait Refuses: Copy {
    ghost number: { Self → ℕ };

    ghost detail: { Self → ℕ };

    // The refusal's number.
    fn number(self) -> u32
        ensures { result ≡ number self };

    // The line, or what else the number speaks of.
    fn detail(self) -> usize
        ensures { result ≡ detail self };
}

impl Refuses for Refusal {
    ghost number = { λ r. number_of r.reason };

    ghost detail = { λ r. r.detail };

    fn number(self) -> u32 {
        self.reason.number()
    }

    fn detail(self) -> usize {
        // A line, or 0 outside a text.
        self.detail
    }
}

// A refusal of a caller's own: any number, and any detail.
#[derive(Clone, Copy, PartialEq, Eq)]
pub struct AnyRefusal {
    pub number: u32,
    pub detail: usize,
}

impl Refuses for AnyRefusal {
    ghost number = { λ r. r.number };

    ghost detail = { λ r. r.detail };

    fn number(self) -> u32 {
        self.number
    }

    fn detail(self) -> usize {
        self.detail
    }
}
