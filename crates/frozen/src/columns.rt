// Columns of 16 places, each so many fields after the one before, from a field on; places past the last are as before.

// What a field gives to a column.
trait Given: Copy {
    fn given(line: &[u8], number: usize) -> Self;
}

impl Given for u8 {
    fn given(line: &[u8], number: usize) -> u8 {
        crate::given::byte(line, number)
    }
}

impl Given for f64 {
    fn given(line: &[u8], number: usize) -> f64 {
        crate::given::float(line, number)
    }
}

impl Given for u32 {
    fn given(line: &[u8], number: usize) -> u32 {
        crate::given::natural(line, number)
    }
}

impl Given for i32 {
    fn given(line: &[u8], number: usize) -> i32 {
        crate::given::int(line, number)
    }
}

fn column<T: Given>(old: T, places: usize, line: &[u8], from: usize, fields: usize) -> [T; 16] {
    let mut column = [old; 16];
    let mut field = from;
    for k in 0..places.min(16) {
        column[k] = T::given(line, field);
        field = field.wrapping_add(fields);
    }
    column
}

pub fn bytes(old: u8, places: usize, line: &[u8], from: usize, fields: usize) -> [u8; 16] {
    column(old, places, line, from, fields)
}

pub fn floats(old: f64, places: usize, line: &[u8], from: usize, fields: usize) -> [f64; 16] {
    column(old, places, line, from, fields)
}

pub fn naturals(old: u32, places: usize, line: &[u8], from: usize, fields: usize) -> [u32; 16] {
    column(old, places, line, from, fields)
}

pub fn ints(old: i32, places: usize, line: &[u8], from: usize, fields: usize) -> [i32; 16] {
    column(old, places, line, from, fields)
}
