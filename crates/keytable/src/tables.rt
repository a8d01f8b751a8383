// The scale and the mapping of two files, and the pitches of their keys.
use crate::files::ROOM;
use crate::keys::MOST;
use base::Reason;
use kbm::{Counting, Kbm};
use scl::{ItemColumns, Scl};
use std::io::Write;
use std::rt::Files;

// How many items a scale and how many entries a mapping can have.
pub const PLACES: usize = 8192;

// The columns of a scale's items. They are lent to be read into, and not handed on by value: the stack holds them once.
#[derive(Drop)]
pub struct Columns {
    pub kind: [u8; 8192],
    pub cents: [f64; 8192],
    pub numer: [u32; 8192],
    pub denom: [u32; 8192],
}

// Columns to be read into.
pub const EMPTY: Columns = Columns {
    kind: [0; 8192],
    cents: [0.0; 8192],
    numer: [0; 8192],
    denom: [0; 8192],
};

// A mapping, and its table.
#[derive(Clone, Copy)]
pub struct Mapping<'a> {
    pub kbm: Kbm,
    pub map: &'a [i32],
}

// The pitches of keys, and beside each its refusal's number, 0 for a pitch.
#[derive(Clone, Copy)]
pub struct Sounds {
    pub hz: [f64; 1024],
    pub numbers: [u32; 1024],
}

// The scale of a file, its items read into lent columns; where there is none, says why.
pub fn read_scale<R: Files, E: Write>(
    rt: &R,
    err: &mut E,
    name: &[u8],
    items: &mut Columns,
) -> Option<Scl> {
    let mut text = [0u8; ROOM];
    let n = crate::files::read_file(rt, err, name, &mut text)?;
    let mut place = [0u32; PLACES];
    let mut ratio = [0.0; PLACES];
    let mut wraps = [0i32; PLACES];
    match scl_read::read_scl(
        crate::files::first(&text, n),
        &mut items.kind,
        &mut items.cents,
        &mut items.numer,
        &mut items.denom,
        &mut place,
        &mut ratio,
        &mut wraps,
    ) {
        Ok(read) => Some(read.scl),
        Err(refusal) => {
            let required = ["the description", "the number of notes"];
            let _ = crate::reasons::refuse(err, name, &required, refusal);
            None
        }
    }
}

// The mapping of a file, its entries read into a lent table; where there is none, says why.
pub fn read_mapping<R: Files, E: Write>(
    rt: &R,
    err: &mut E,
    name: &[u8],
    map: &mut [i32],
) -> Option<Kbm> {
    let mut text = [0u8; ROOM];
    let n = crate::files::read_file(rt, err, name, &mut text)?;
    match kbm_read::read_kbm(crate::files::first(&text, n), map) {
        Ok(kbm) => Some(kbm),
        Err(refusal) => {
            let required = [
                "the size",
                "the first key",
                "the last key",
                "the middle key",
                "the reference key",
                "the reference pitch",
                "the formal octave",
            ];
            let _ = crate::reasons::refuse(err, name, &required, refusal);
            None
        }
    }
}

// The pitches of the first keys of a mapping's range in either counting; 10 for each where the tables cannot be used.
pub fn sounds_of(counting: Counting, scl: Scl, columns: &Columns, mapping: &Mapping<'_>) -> Sounds {
    let kbm = mapping.kbm;
    let items = ItemColumns::new(
        &columns.kind,
        &columns.cents,
        &columns.numer,
        &columns.denom,
    );
    let mut hz = [0.0; MOST];
    let mut numbers = [Reason::Unusable.number(); MOST];
    let run = match counting {
        Counting::Reference => tuning::key_pitches::pitches_of(
            scl,
            &items,
            kbm,
            mapping.map,
            kbm.start,
            1024,
            &mut hz,
            &mut numbers,
        ),
        Counting::Middle => tuning::key_pitches::pitches_from_middle(
            scl,
            &items,
            kbm,
            mapping.map,
            kbm.start,
            1024,
            &mut hz,
            &mut numbers,
        ),
    };
    // A run that is refused leaves all as it was.
    let _ = run;
    Sounds { hz, numbers }
}
