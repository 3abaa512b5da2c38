// One number for many: h ↦ h × 65599 + x modulo the prime 4294967291, from 0 on.

// x below 2 ^ 32.
pub fn fold(h: u64, x: u64) -> u64 {
    ((h % 4294967291) * 65599 + x % 4294967296) % 4294967291
}

// An answer as a number: -1 and -2 are 65535 and 65534, anything else below 0 is 65533.
pub fn code_of(x: i16) -> u64 {
    match x {
        -1 => 65535,
        -2 => 65534,
        _ => u64::try_from(x).unwrap_or(65533),
    }
}

// The low half of each word first.
pub fn fold_words(h: u64, words: &[u64]) -> u64 {
    let mut d = h;
    for w in words {
        d = fold(fold(d, *w % 4294967296), *w / 4294967296);
    }
    d
}

pub fn fold_answers(h: u64, answers: &[i16]) -> u64 {
    let mut d = h;
    for x in answers {
        d = fold(d, code_of(*x));
    }
    d
}

pub fn fold_numbers<T: Copy + Into<u64>>(h: u64, numbers: &[T]) -> u64 {
    let mut d = h;
    for x in numbers {
        d = fold(d, (*x).into());
    }
    d
}
