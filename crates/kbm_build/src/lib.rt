// A mapping built step by step beside a lent table: the Rust's `KbmBuilder`. Document 01, "What is taken", 5; document 02, W8.
//
// The state goes by value. It fits a table of `room` places, of which it has filled `count`; with any other table it is
// refused (10). A refused push leaves the table as it was. `new(root, &map)`, then `push_mapped_key(&mut map, 0)`, then
// `formal_octave(12)`, then `build(&map)` is a mapping of one entry, 0, for keys 0..127.
#![tactic(auto)]

ghost use Rattle.std.specs.Prelude.{◌≡◌, Some, None};
ghost use Rattle.base.specs.Said.{outcome};
ghost use Rattle.kbm_build.specs.Builder.{builder_of, with_range, with_octave, pushed, after_push, is_ready, kbm_with, built};

use base::{Reason, Refusal};
use kbm::{Kbm, KbmRoot};
use key::PianoKey;

#[derive(Clone, Copy)]
pub struct KbmBuilder {
    pub root: KbmRoot,
    pub start: PianoKey,
    pub end: PianoKey,
    pub octave: Option<i16>,
    pub room: usize,
    pub count: usize,
}

// 12: the table is full.
const NO_PLACE: Refusal = Refusal {
    reason: Reason::NoRoom,
    detail: 0,
};

// 13: over 65,535 entries.
const TOO_MANY: Refusal = Refusal {
    reason: Reason::TooLarge,
    detail: 0,
};

// 25: the end is not above the start, so the last key is below the first.
const BACKWARDS: Refusal = Refusal {
    reason: Reason::BackwardsRange,
    detail: 0,
};

// 15: entries, and no formal octave.
const NO_OCTAVE: Refusal = Refusal {
    reason: Reason::FormalOctaveMissing,
    detail: 0,
};

impl KbmBuilder {
    // A builder for keys 0..127 with nothing pushed; 10 for a root outside the pitch limits.
    pub fn new(root: KbmRoot, map: &[i32]) -> Result<KbmBuilder, Refusal>
        ensures { outcome result ≡ builder_of root map.now }
    {
        if kbm::is_root(root) {
            return Ok(KbmBuilder {
                root,
                start: PianoKey(0),
                end: PianoKey(128),
                octave: None,
                room: map.len(),
                count: 0,
            });
        }
        Err(kbm::NOT_USABLE)
    }

    // The same for keys from `start` up to, not including, `end`; a build refuses an `end` that is not above `start` (25).
    pub fn range(mut self, start: PianoKey, end: PianoKey) -> KbmBuilder
        ensures { result ≡ with_range self start end }
    {
        self.start = start;
        self.end = end;
        self
    }

    // The same with a formal octave.
    pub fn formal_octave(mut self, octave: i16) -> KbmBuilder
        ensures { result ≡ with_octave self octave }
    {
        self.octave = Some(octave);
        self
    }

    // One entry more, at the next place; 10 for a state that does not fit the table, 12 with no place left.
    fn push(mut self, map: &mut [i32], entry: Option<i16>) -> Result<KbmBuilder, Refusal>
        ensures { (outcome result ≡ pushed self map.old) × (map.new ≡ after_push self map.old entry) }
    {
        let room = self.room;
        let count = self.count;
        if room == map.len() {
            if count < room {
                map[count] = kbm::number_of(entry);
                self.count = count + 1;
                return Ok(self);
            }
            if count == room {
                return Err(NO_PLACE);
            }
        }
        Err(kbm::NOT_USABLE)
    }

    // One mapped entry more; 10, 12.
    pub fn push_mapped_key(self, map: &mut [i32], degree: i16) -> Result<KbmBuilder, Refusal>
        ensures { (outcome result ≡ pushed self map.old) × (map.new ≡ after_push self map.old (Some degree)) }
    {
        self.push(map, Some(degree))
    }

    // One unmapped entry more; 10, 12.
    pub fn push_unmapped_key(self, map: &mut [i32]) -> Result<KbmBuilder, Refusal>
        ensures { (outcome result ≡ pushed self map.old) × (map.new ≡ after_push self map.old None) }
    {
        self.push(map, None)
    }

    // Whether state, table and root can be used.
    fn is_ready(self, map: &[i32]) -> bool
        ensures { result ≡ is_ready self map.now }
    {
        self.room == map.len()
            && self.count <= self.room
            && kbm::is_table(map, self.count)
            && kbm::is_root(self.root)
    }

    // The mapping with a formal octave; 25 where the last key is below the first, then 13 over 65,535 entries.
    fn finish(self, octave: i16) -> Result<Kbm, Refusal>
        ensures { outcome result ≡ kbm_with self octave }
    {
        if self.end.0 <= self.start.0 {
            return Err(BACKWARDS);
        }
        if 65535 < self.count {
            return Err(TOO_MANY);
        }
        Ok(Kbm {
            root: self.root,
            start: self.start,
            end: self.end,
            octave,
            count: self.count as u16,
        })
    }

    // The mapping: 10 where state, table or root cannot be used, 15 for entries and no formal octave, 25, 13.
    #[tactic(auto, unfolding(crate::specs::Builder::built))]
    pub fn build(self, map: &[i32]) -> Result<Kbm, Refusal>
        ensures { outcome result ≡ built self map.now }
    {
        if !self.is_ready(map) {
            return Err(kbm::NOT_USABLE);
        }
        match self.octave {
            Some(octave) => self.finish(octave),
            None if 0 < self.count => Err(NO_OCTAVE),
            None => self.finish(0),
        }
    }
}
