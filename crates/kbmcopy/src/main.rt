// The program kbmcopy: reads a mapping from standard input and prints its export, or one line `refused NUMBER DETAIL`. Document 01,
// "Writing". What it prints, and the sizes, are said by `copying::print_copy`; this reads and writes, and `copy` says that what it
// writes is what is printed for all that the reader has. Where standard input or output fails it says so on standard error.
#![tactic(auto)]

ghost use Rattle.std.specs.Prelude.{IfSome, OnOk};
ghost use Rattle.std.specs.Io.KnownBytes.{Appends};
ghost use Rattle.copying.specs.Copy.{printed};

use std::io;
use std::io::{Read, Write};

// Which end of a copy failed.
#[derive(Clone, Copy)]
enum Failure {
    Reading,
    Writing,
}

// Writes what is printed for all that a reader has.
fn copy<R: Read, W: Write>(from: &mut R, to: &mut W) -> Result<(), Failure>
    ensures { OnOk result (IfSome (R.remaining from.old) (λ text. Appends (W.contents to.old) (W.contents to.new) (printed text))) }
{
    let mut input = [0u8; copying::INPUT];
    let mut out = [0u8; copying::OUTPUT];
    let n = say::read_all(from, &mut input).map_err(|_| Failure::Reading)?;
    let m = copying::print_copy(&input, n, &mut out);
    to.write_all(&out[..m]).map_err(|_| Failure::Writing)
}

// Says which end failed.
fn say<P: Eprint>(rt: &P, failure: Failure) -> io::Result<()> {
    match failure {
        Failure::Reading => eprintln!(rt; "kbmcopy: standard input cannot be read"),
        Failure::Writing => eprintln!(rt; "kbmcopy: standard output cannot be written"),
    }
}

// Copies standard input to standard output; where either fails, says so.
fn main(rt: HostRuntime) {
    if let Err(failure) = copy(&mut rt.stdin(), &mut rt.stdout()) {
        let _ = say(&rt, failure);
    }
}
