// key.rs for C: a key goes as its MIDI number.
ghost use Rattle.key.specs.Keys.{key, key_after, steps_between, midi_of};
ghost use Rattle.telbijan_answers.specs.Calls.{Stored, StoredPart};

use key::PianoKey;

// The MIDI number of a key in 0..127, stored; else 16.
pub fn telbijan_checked_midi_number(number: i32, midi: &mut u8) -> u64
    ensures { Stored (midi_of (key number)) midi.old result midi.new }
{
    telbijan_answers::store(PianoKey(number).checked_midi_number(), midi)
}

// How many keys lie from one key up to another, stored; 11 outside 32 bits.
pub fn telbijan_num_keys_before(number: i32, other: i32, steps: &mut i32) -> u64
    ensures { Stored (steps_between (key number) (key other)) steps.old result steps.new }
{
    telbijan_answers::store(PianoKey(number).num_keys_before(PianoKey(other)), steps)
}

// The key that many steps after a key, stored; 11 outside 32 bits.
pub fn telbijan_plus_steps(number: i32, steps: i32, after: &mut i32) -> u64
    ensures { StoredPart (λ k. k.0) (key_after (key number) steps) after.old result after.new }
{
    telbijan_answers::store_key(PianoKey(number).plus_steps(steps), after)
}
