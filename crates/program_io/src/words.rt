// Words of 8 bytes, little-endian, from standard input, and the numbers, samples and bytes that they say.
ghost use Rattle.std.specs.Prelude.{◌≡◌, ℕ, ◌%◌, ◌≤◌, IfOk, OnErr, length};
ghost use Rattle.std.specs.Float.Ieee.{of_bits};
ghost use Rattle.std.specs.Float.{binary64};
ghost use Rattle.program_io.specs.Words.{word_of, word_at};

use std::io;
use std::io::Read;
use std::num::f64_from_bits_with_nan;

// The word of these bytes, from the lowest up.
fn word(bytes: &[u8; 8]) -> u64
    ensures { result ≡ word_of bytes.now }
{
    u64::from_le_bytes(*bytes)
}

// Reads until the buffer is full or the input ends, and how many bytes are then in its front. A failed read is returned: what was read by
// then stands in the front, and the buffer is as long as it was.
pub fn read_full(input: &mut impl Read, buf: &mut [u8]) -> io::Result<usize>
    ensures count { IfOk result (λ n. n ≤ length buf.old) }
    ensures failed { OnErr result (length buf.new ≡ length buf.old) }
{
    let mut n = 0;
    while n < buf.len() {
        let more = input.read(&mut buf[n..])?;
        if more == 0 {
            break;
        }
        n += more;
    }
    Ok(n)
}

// The next words of the input, into the front of `into`, and how many there were. A failed read is returned: what was read by then stands
// in the front, and `into` is as long as it was.
pub fn read_words(input: &mut impl Read, into: &mut [u64]) -> io::Result<usize>
    ensures count { IfOk result (λ n. n ≤ length into.old) }
    ensures failed { OnErr result (length into.new ≡ length into.old) }
{
    for i in 0..into.len() {
        let mut bytes = [0u8; 8];
        if read_full(input, &mut bytes)? < bytes.len() {
            return Ok(i);
        }
        into[i] = word(&bytes);
    }
    Ok(into.len())
}

// Word i of a list; 0 where there is none.
pub fn word_at(list: &[u64], i: usize) -> u64
    ensures { result ≡ word_at list.now i }
{
    list.get(i).copied().unwrap_or(0)
}

// What a word says: a number by its bits, one NaN for all of theirs, or a sample or a byte, which has the word's lowest bits.
pub trait FromWord: Copy {
    ghost word_gives: { ℕ → Self };

    fn from_word(word: u64) -> Self
        ensures { result ≡ word_gives word };
}

impl FromWord for f64 {
    ghost word_gives = { of_bits binary64 };

    fn from_word(word: u64) -> f64 {
        f64_from_bits_with_nan(word)
    }
}

impl FromWord for u16 {
    ghost word_gives = { λ word. word % 65536 };

    fn from_word(word: u64) -> u16 {
        (word % 65536) as u16
    }
}

impl FromWord for u8 {
    ghost word_gives = { λ word. word % 256 };

    fn from_word(word: u64) -> u8 {
        (word % 256) as u8
    }
}
