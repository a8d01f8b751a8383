// Files, read whole.
ghost use Rattle.std.specs.Prelude.{◌≤◌, length, IfOk, IfSome};

use std::fs;
use std::io::Write;
use std::rt::Files;

// The longest text that is read has one byte less.
pub const ROOM: usize = 65537;

// The first n bytes; none where there are fewer.
pub fn first(bytes: &[u8], n: usize) -> &[u8] {
    bytes.get(..n).unwrap_or(&[])
}

// Reads a file of at most 65,536 bytes into as many and one more, and how many it has; or what is wrong with it: its name is not UTF-8, or
// it cannot be opened or read, or is longer.
fn read<R: Files>(rt: &R, name: &[u8], bytes: &mut [u8]) -> Result<usize, &'static str> {
    let path = str::from_utf8(name).map_err(|_| ": cannot be opened\n")?;
    let mut file = fs::open(rt, path).map_err(|_| ": cannot be opened\n")?;
    let n = say::read_all(&mut file, bytes).map_err(|_| ": cannot be read\n")?;
    if n == bytes.len() {
        return Err(": longer than 65536 bytes\n");
    }
    Ok(n)
}

// The same; where something is wrong, says so.
pub fn read_file<R: Files, E: Write>(
    rt: &R,
    err: &mut E,
    name: &[u8],
    bytes: &mut [u8],
) -> Option<usize> {
    match read(rt, name, bytes) {
        Ok(n) => Some(n),
        Err(what) => {
            let _ = err.write_all(name);
            let _ = err.write_all(what.as_bytes());
            None
        }
    }
}
