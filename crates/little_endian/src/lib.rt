// Numbers as bytes, the lowest first: read from lent bytes and written to them. The caller shows that the bytes are there.

#![tactic(auto)]

ghost use Rattle.std.specs.Prelude.{◌≡◌, ◌+◌, ◌*◌, ◌/◌, ◌%◌, ◌^◌, ◌<◌, ◌≤◌, length};
ghost use Rattle.lists.specs.Lists.{part, over};
ghost use Rattle.little_endian.specs.Bytes.{value, words, sum, little};

// The number that two bytes from byte `at` on give.
pub fn two_bytes_at(bytes: &[u8], at: usize) -> u64
    requires { at + 2 ≤ length bytes.now }
    ensures { (result ≡ value (part at 2 bytes.now)) × (result < 2 ^ 16) }
{
    u64::from(u16::from_le_bytes([bytes[at], bytes[at + 1]]))
}

// The word of the 8 bytes from byte `at` on.
pub fn word_at(bytes: &[u8], at: usize) -> u64
    requires { at + 8 ≤ length bytes.now }
    ensures { result ≡ value (part at 8 bytes.now) }
{
    let (words, _) = bytes[at..].as_chunks::<8>();
    u64::from_le_bytes(words[0])
}

// The sum of n words from byte `at` on, wrapping at 2^64.
pub fn sum_of(bytes: &[u8], at: usize, n: usize) -> u64
    requires { at + 8 * n ≤ length bytes.now }
    ensures { result ≡ sum (words n (part at (8 * n) bytes.now)) }
{
    let (words, _) = bytes[at..].as_chunks::<8>();
    words[..n]
        .iter()
        .map(|word| u64::from_le_bytes(*word))
        .fold(0u64, |total, word| total.wrapping_add(word))
}

// Byte j of a number.
pub fn byte_of(x: u64, j: usize) -> u8
    requires { j < 8 }
    ensures { result ≡ x / 2 ^ (8 * j) % 256 }
{
    ((x >> (8 * j)) % 256) as u8
}

// Writes `width` bytes of x from byte `at` on.
pub fn put(bytes: &mut [u8], at: usize, width: usize, x: u64)
    requires { (at + width ≤ length bytes.old) × (width ≤ 8) }
    ensures { bytes.new ≡ over at (little width x) bytes.old }
{
    bytes[at..at + width].copy_from_slice(&x.to_le_bytes()[..width]);
}
