// FNV-1a digests of 64 bits, for programs that print what a buffer holds: of bytes, and of words,
// i32 and f32 as four bytes each, the lowest first.
#![tactic(auto)]

ghost use Rattle.std.specs.Prelude.{◌≡◌};
ghost use Rattle.digest.specs.Fnv.{mixed, worded, bytes_from, words_from, ints_from, floats_from};

pub const START: u64 = 14695981039346656037;

const PRIME: u64 = 1099511628211;

pub fn byte(h: u64, b: u8) -> u64
    ensures { result ≡ mixed h b }
{
    (h ^ u64::from(b)).wrapping_mul(PRIME)
}

#[tactic(auto, unfolding(crate::specs::Fnv::worded))]
pub fn word(h: u64, x: u32) -> u64
    ensures { result ≡ worded h x }
{
    let [a, b, c, d] = x.to_le_bytes();
    byte(byte(byte(byte(h, a), b), c), d)
}

pub fn bytes(start: u64, s: &[u8]) -> u64
    ensures { result ≡ bytes_from start s.now }
{
    s.iter().fold(start, |h, b| byte(h, *b))
}

pub fn words(start: u64, s: &[u32]) -> u64
    ensures { result ≡ words_from start s.now }
{
    s.iter().fold(start, |h, x| word(h, *x))
}

pub fn ints(start: u64, s: &[i32]) -> u64
    ensures { result ≡ ints_from start s.now }
{
    s.iter().fold(start, |h, x| word(h, x.cast_unsigned()))
}

pub fn floats(start: u64, s: &[f32]) -> u64
    ensures { result ≡ floats_from start s.now }
{
    s.iter()
        .fold(start, |h, x| word(h, ieee::bits::bits_of(*x)))
}
