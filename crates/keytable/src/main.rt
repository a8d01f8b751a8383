// The program keytable: `keytable SCL KBM` reads a scale and a mapping, and prints for each key of the mapping's range its number, its
// degree, its pitch in Hz and how many cents that lies above the reference pitch; or why the key has no pitch. Of more than 1,024 keys it
// prints the first 1,024, and how many are left out. Where a file is refused, or input or output fails, it says so on standard error.
// Keys are counted from the reference key, or, with the word `middle` as a third argument, from the middle key; the first line says which.
#![tactic(auto)]

use kbm::Counting;
use std::io;
use std::io::Write;
use std::rt::Files;

mod counting;
mod files;
mod keys;
mod reasons;
mod tables;

// The longest name of a file that is taken: no argument of Linux with pages of 4,096 bytes is longer.
const NAME: usize = 131072;

// Prints what the columns are and which key is counted from, and the lines of the keys.
fn print_table<W: Write>(
    out: &mut W,
    counting: Counting,
    mapping: &tables::Mapping<'_>,
    sounds: &tables::Sounds,
) -> io::Result<()> {
    match counting {
        Counting::Reference => {
            out.write_all(b"key degree Hz cents, counted from the reference key\n")?
        }
        Counting::Middle => out.write_all(b"key degree Hz cents, counted from the middle key\n")?,
    }
    keys::print_keys(out, counting, mapping, sounds)
}

// Prints the table of two files.
fn print_files<R: Files, W: Write, E: Write>(
    rt: &R,
    out: &mut W,
    err: &mut E,
    counting: Counting,
    scl_name: &[u8],
    kbm_name: &[u8],
) {
    let mut columns = tables::EMPTY;
    let Some(scl) = tables::read_scale(rt, err, scl_name, &mut columns) else {
        return;
    };
    let mut map = [0i32; tables::PLACES];
    let Some(kbm) = tables::read_mapping(rt, err, kbm_name, &mut map) else {
        return;
    };
    let mapping = tables::Mapping { kbm, map: &map };
    let sounds = tables::sounds_of(counting, scl, &columns, &mapping);
    if print_table(out, counting, &mapping, &sounds).is_err() {
        let _ = err.write_all(b"keytable: standard output cannot be written\n");
    }
}

// Prints the table of the two files that the arguments name, or how they are to be given.
fn main(rt: HostRuntime) {
    let mut err = rt.stderr();
    let Some(counting) = counting::chosen(&rt, counting::arg_count(&rt)) else {
        let _ = err.write_all(b"usage: keytable SCL KBM [reference | middle]\n");
        return;
    };
    let mut scl_name = [0u8; NAME];
    let scl_bytes = counting::arg(&rt, 1, &mut scl_name);
    let mut kbm_name = [0u8; NAME];
    let kbm_bytes = counting::arg(&rt, 2, &mut kbm_name);
    print_files(
        &rt,
        &mut rt.stdout(),
        &mut err,
        counting,
        &scl_name[..scl_bytes],
        &kbm_name[..kbm_bytes],
    );
}
