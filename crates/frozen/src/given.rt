// What a question gives a call: the field of a number, counted from 0 at WHO, whose kind is known (`kinds`).

pub fn int(line: &[u8], number: usize) -> i32 {
    integers::read::<i32>(crate::field(line, number)).unwrap_or(0)
}

pub fn short(line: &[u8], number: usize) -> i16 {
    integers::read::<i16>(crate::field(line, number)).unwrap_or(0)
}

pub fn natural(line: &[u8], number: usize) -> u32 {
    integers::read::<u32>(crate::field(line, number)).unwrap_or(0)
}

pub fn count(line: &[u8], number: usize) -> u16 {
    (natural(line, number) % 65536) as u16
}

pub fn byte(line: &[u8], number: usize) -> u8 {
    (natural(line, number) % 256) as u8
}

pub fn size(line: &[u8], number: usize) -> usize {
    natural(line, number) as usize
}

pub fn flag(line: &[u8], number: usize) -> bool {
    natural(line, number) == 1
}

// The bits that hex digits write.
fn bits_of(s: &[u8]) -> u64 {
    let mut bits: u64 = 0;
    for b in s {
        bits = (bits << 4) | crate::kinds::digit(*b);
    }
    bits
}

// The float of these bits.
fn from_bits(bits: u64) -> f64 {
    if bits % 0x8000_0000_0000_0000 <= 0x7ff0_0000_0000_0000 {
        return f64::from_bits(bits);
    }
    let zero = 0.0;
    zero / zero
}

pub fn float(line: &[u8], number: usize) -> f64 {
    let s = crate::field(line, number);
    if s.len() == 16 {
        return from_bits(bits_of(s));
    }
    let zero = 0.0;
    zero / zero
}

fn join(high: u64, low: u64) -> u8 {
    (high % 16 * 16 + low % 16) as u8
}

// The bytes of a field, and how many they are.
pub fn bytes(line: &[u8], number: usize, out: &mut [u8]) -> usize {
    let s = crate::field(line, number);
    let n = out.len().min(s.len() / 2);
    for k in 0..n {
        out[k] = join(
            crate::kinds::digit(s[2 * k]),
            crate::kinds::digit(s[2 * k + 1]),
        );
    }
    n
}
