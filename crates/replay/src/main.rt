// Answers frozen questions on whole numbers, keys, E, L, pitches, ratios, the nearest fraction and the nearest of all, lines, tokens,
// numerals, in and out, and mappings (the crate `frozen` says how they are written). The questions and the answers are made by `oracle
// freeze`.
#![tactic(auto)]

use frozen::given::{count, float, int, natural};
use key::PianoKey;
use pitch::{Pitch, Ratio};
use std::io;
use std::io::{BufWriter, Write};

mod builders;
mod mappings;
mod numbers;
mod pitches;
mod texts;

// The answer of a line.
fn answer<W: Write>(sink: &mut W, line: &[u8]) -> io::Result<()> {
    let call = frozen::asked(
        line,
        b"i32_div_u iu  i32_rem_u iu  i32_dr_u iu  num_keys_before ii  plus_steps ii  checked_midi_number i  from_midi_number i  midi_number i  odd_factors_u16 c  octave   unison   exp2 f  log2 f  from_hz f  as_hz f  from_float f  from_octaves f  from_semitones f  from_cents f  as_float f  as_octaves f  as_semitones f  as_cents f  inv f  abs f  is_negligible f  pitch_times ff  pitch_over ff  between_pitches ff  stretched_by ff  deviation_from ff  repeated ff  divided_into_equal_steps ff  num_equal_steps_of_size ff  total_cmp ff  nearest_fraction fc  line tu  says tuu  decimal t  u16 t  u32 t  i16 t  i32 t  fixed rufuy  print_i32 rui  print_u32 ruu  degree iciiifisn i read tn  export rciiifisn i root ifi  build nifiiiysz ys push uuysn i finish uun i best_fraction fc  middle_degree iciiifisn i",
    );
    let name = frozen::name(line, call);
    say::name(sink, name)?;
    answer_number(sink, name, line)
}

// The answer of a line on whole numbers and keys.
fn answer_number<W: Write>(sink: &mut W, name: &[u8], line: &[u8]) -> io::Result<()> {
    let key = PianoKey(int(line, 2));
    match name {
        b"i32_div_u" => say::answer(sink, math::i32_div_u(key.0, natural(line, 3)), say::int),
        b"i32_rem_u" => say::answer(sink, math::i32_rem_u(key.0, natural(line, 3)), say::natural),
        b"i32_dr_u" => say::answer(
            sink,
            math::i32_dr_u(key.0, natural(line, 3)),
            numbers::say_division,
        ),
        b"num_keys_before" => say::answer(
            sink,
            key.num_keys_before(PianoKey(int(line, 3))),
            say::int,
        ),
        b"plus_steps" => say::answer(sink, key.plus_steps(int(line, 3)), numbers::say_key),
        b"checked_midi_number" => say::answer(sink, key.checked_midi_number(), numbers::say_midi),
        b"from_midi_number" => numbers::say_key(sink, PianoKey::from_midi_number(key.0)),
        b"midi_number" => say::int(sink, key.midi_number()),
        b"odd_factors_u16" => say::natural(sink, u32::from(math::odd_factors_u16(count(line, 2)))),
        _ => answer_pitch(sink, name, line),
    }
}

// The answer of a line on E, L, pitches and ratios.
fn answer_pitch<W: Write>(sink: &mut W, name: &[u8], line: &[u8]) -> io::Result<()> {
    let x = float(line, 2);
    match name {
        b"octave" => pitches::say_ratio(sink, Ratio::octave()),
        b"unison" => pitches::say_ratio(sink, Ratio::unison()),
        b"exp2" => say::answer(sink, explog::exp2(x), say::float),
        b"log2" => say::answer(sink, explog::log2(x), say::float),
        b"from_hz" => say::answer(sink, Pitch::from_hz(x), pitches::say_pitch),
        b"as_hz" => say::answer(sink, Pitch(x).as_hz(), say::float),
        b"from_float" => say::answer(sink, Ratio::from_float(x), pitches::say_ratio),
        b"from_octaves" => say::answer(sink, Ratio::from_octaves(x), pitches::say_ratio),
        b"from_semitones" => say::answer(sink, Ratio::from_semitones(x), pitches::say_ratio),
        b"from_cents" => say::answer(sink, Ratio::from_cents(x), pitches::say_ratio),
        b"as_float" => say::answer(sink, Ratio(x).as_float(), say::float),
        b"as_octaves" => say::answer(sink, Ratio(x).as_octaves(), say::float),
        b"as_semitones" => say::answer(sink, Ratio(x).as_semitones(), say::float),
        b"as_cents" => say::answer(sink, Ratio(x).as_cents(), say::float),
        b"inv" => say::answer(sink, Ratio(x).inv(), pitches::say_ratio),
        b"abs" => say::answer(sink, Ratio(x).abs(), pitches::say_ratio),
        b"is_negligible" => say::answer(sink, Ratio(x).is_negligible(), pitches::say_bool),
        _ => answer_pair(sink, name, line),
    }
}

// The answer of a line on two pitches or ratios, or on a ratio and a number.
fn answer_pair<W: Write>(sink: &mut W, name: &[u8], line: &[u8]) -> io::Result<()> {
    let x = float(line, 2);
    let y = float(line, 3);
    match name {
        b"pitch_times" => say::answer(sink, Pitch(x).times(Ratio(y)), pitches::say_pitch),
        b"pitch_over" => say::answer(sink, Pitch(x).over(Ratio(y)), pitches::say_pitch),
        b"between_pitches" => say::answer(
            sink,
            Ratio::between_pitches(Pitch(x), Pitch(y)),
            pitches::say_ratio,
        ),
        b"stretched_by" => say::answer(sink, Ratio(x).stretched_by(Ratio(y)), pitches::say_ratio),
        b"deviation_from" => say::answer(
            sink,
            Ratio(x).deviation_from(Ratio(y)),
            pitches::say_ratio,
        ),
        b"repeated" => say::answer(sink, Ratio(x).repeated(y), pitches::say_ratio),
        b"divided_into_equal_steps" => say::answer(
            sink,
            Ratio(x).divided_into_equal_steps(y),
            pitches::say_ratio,
        ),
        b"num_equal_steps_of_size" => say::answer(
            sink,
            Ratio(x).num_equal_steps_of_size(Ratio(y)),
            say::float,
        ),
        b"total_cmp" => say::answer(sink, Ratio(x).total_cmp(Ratio(y)), pitches::say_order),
        b"nearest_fraction" => say::answer(
            sink,
            fraction::nearest_fraction(Ratio(x), count(line, 3)),
            pitches::say_nearest,
        ),
        b"best_fraction" => say::answer(
            sink,
            best::best_fraction(Ratio(x), count(line, 3)),
            pitches::say_best,
        ),
        _ => answer_text(sink, name, line),
    }
}

// The answer of a line on texts and mappings.
fn answer_text<W: Write>(sink: &mut W, name: &[u8], line: &[u8]) -> io::Result<()> {
    match name {
        b"line" | b"says" | b"decimal" | b"u16" | b"u32" | b"i16" | b"i32" => texts::say_read(
            sink, name, line,
        ),
        b"fixed" | b"print_i32" | b"print_u32" => texts::say_print(sink, name, line),
        b"degree" => mappings::say_degree(sink, kbm::Counting::Reference, line),
        b"middle_degree" => mappings::say_degree(sink, kbm::Counting::Middle, line),
        b"read" => mappings::say_read(sink, line),
        b"export" => mappings::say_export(sink, line),
        b"root" => mappings::say_made_root(sink, line),
        b"build" => builders::say_build(sink, line),
        b"push" => builders::say_push(sink, line),
        b"finish" => builders::say_finish(sink, line),
        _ => Ok(()),
    }
}

// Answers the questions of standard input on standard output.
fn main(rt: HostRuntime) -> io::Result<()> {
    let mut list = frozen::room();
    let n = say::read_all(&mut rt.stdin(), &mut list)?;
    let mut sink = BufWriter::new(rt.alloc(), rt.stdout())?;
    say::answers(&mut sink, &list[..n], |out, line| answer(out, line))?;
    sink.flush()
}
