// Inner functions that only the comparison with the Rust calls. Nothing here is part of the interface.
#![tactic(auto)]

mod texts;

ghost use Rattle.std.specs.Prelude.{◌≡◌};
ghost use Rattle.floats.specs.Floats.{abs, trunc, floor};
ghost use Rattle.remainder.specs.Euclid.{rem_euclid, div_euclid};
ghost use Rattle.floats.specs.Ranges.{in_reach, in_search, in_generator, in_pitch};

#[unsafe(no_mangle)]
pub extern "C" fn probe_abs(x: f64) -> f64
    ensures { result ≡ abs x }
{
    probes::probe_abs(x)
}

#[unsafe(no_mangle)]
pub extern "C" fn probe_trunc(x: f64) -> f64
    ensures { result ≡ trunc x }
{
    probes::probe_trunc(x)
}

#[unsafe(no_mangle)]
pub extern "C" fn probe_floor(x: f64) -> f64
    ensures { result ≡ floor x }
{
    probes::probe_floor(x)
}

#[unsafe(no_mangle)]
pub extern "C" fn probe_rem_euclid(a: f64, b: f64) -> f64
    ensures { result ≡ rem_euclid a b }
{
    probes::probe_rem_euclid(a, b)
}

#[unsafe(no_mangle)]
pub extern "C" fn probe_div_euclid(a: f64, b: f64) -> f64
    ensures { result ≡ div_euclid a b }
{
    probes::probe_div_euclid(a, b)
}

#[unsafe(no_mangle)]
pub extern "C" fn probe_is_in_reach(x: f64) -> bool
    ensures { result ≡ in_reach x }
{
    probes::probe_is_in_reach(x)
}

#[unsafe(no_mangle)]
pub extern "C" fn probe_is_in_search(x: f64) -> bool
    ensures { result ≡ in_search x }
{
    probes::probe_is_in_search(x)
}

#[unsafe(no_mangle)]
pub extern "C" fn probe_is_in_generator(x: f64) -> bool
    ensures { result ≡ in_generator x }
{
    probes::probe_is_in_generator(x)
}

#[unsafe(no_mangle)]
pub extern "C" fn probe_is_in_pitch(x: f64) -> bool
    ensures { result ≡ in_pitch x }
{
    probes::probe_is_in_pitch(x)
}
