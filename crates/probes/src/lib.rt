// Inner functions that only the comparison with the Rust calls. Nothing here is part of the interface.
#![tactic(auto)]

pub mod texts;

ghost use Rattle.std.specs.Prelude.{◌≡◌};
ghost use Rattle.floats.specs.Floats.{abs, trunc, floor};
ghost use Rattle.remainder.specs.Euclid.{rem_euclid, div_euclid};
ghost use Rattle.floats.specs.Ranges.{in_reach, in_search, in_generator, in_pitch};

pub fn probe_abs(x: f64) -> f64
    ensures { result ≡ abs x }
{
    floats::abs_of(x)
}

pub fn probe_trunc(x: f64) -> f64
    ensures { result ≡ trunc x }
{
    floats::trunc_of(x)
}

pub fn probe_floor(x: f64) -> f64
    ensures { result ≡ floor x }
{
    floats::floor_of(x)
}

pub fn probe_rem_euclid(a: f64, b: f64) -> f64
    ensures { result ≡ rem_euclid a b }
{
    remainder::rem_euclid(a, b)
}

pub fn probe_div_euclid(a: f64, b: f64) -> f64
    ensures { result ≡ div_euclid a b }
{
    remainder::div_euclid(a, b)
}

pub fn probe_is_in_reach(x: f64) -> bool
    ensures { result ≡ in_reach x }
{
    floats::is_in_reach(x)
}

pub fn probe_is_in_search(x: f64) -> bool
    ensures { result ≡ in_search x }
{
    floats::is_in_search(x)
}

pub fn probe_is_in_generator(x: f64) -> bool
    ensures { result ≡ in_generator x }
{
    floats::is_in_generator(x)
}

pub fn probe_is_in_pitch(x: f64) -> bool
    ensures { result ≡ in_pitch x }
{
    floats::is_in_pitch(x)
}
