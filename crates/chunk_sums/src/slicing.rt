//! The register over a body by tables of bytes, sixteen bytes at a step.

ghost use Rattle.std.specs.Prelude.{◌≡◌, ℕ, ◌+◌, ◌*◌, ◌≤◌, List, length, take, drop};
ghost use Rattle.chunk_sums.specs.Crc.{advance, enter, number, register, through_four, AreWords};

use crate::tables::Polynomial;

/// The register that starts at `start` after all bytes of `body`.
pub fn sliced<P: Polynomial>(start: u32, body: &[u8]) -> u32
    ensures { result ≡ register P.reflected start body.now }
{
    let mut state = start;
    let mut rest = body;
    while let Some((front, behind)) = rest.split_first_chunk::<16>() {
        state = sixteen::<P>(state, front, 0);
        rest = behind;
    }
    bytewise::<P>(state, rest)
}

/// The register after all bytes of a body of a few bytes.
fn bytewise<P: Polynomial>(start: u32, body: &[u8]) -> u32
    ensures { result ≡ register P.reflected start body.now }
{
    let mut state = start;
    for byte in body {
        state = single::<P>(state, *byte);
    }
    state
}

/// The register after one byte.
#[inline(always)]
fn single<P: Polynomial>(state: u32, byte: u8) -> u32
    ensures { result ≡ enter P.reflected state byte }
{
    let mixed = state ^ u32::from(byte);
    let [low, ..] = mixed.to_le_bytes();
    P::entry(0, low) ^ (mixed >> 8)
}

/// The register after the sixteen bytes from place `at` on, four to a word.
#[inline(always)]
pub fn sixteen<P: Polynomial>(state: u32, bytes: &[u8], at: usize) -> u32
    requires { at + 16 ≤ length bytes.now }
    ensures { result ≡ register P.reflected state (take 16 (drop at bytes.now)) }
{
    let first = word_at(bytes, at) ^ state;
    let second = word_at(bytes, at + 4);
    let third = word_at(bytes, at + 8);
    let fourth = word_at(bytes, at + 12);
    four_words::<P>(first, second, third, fourth)
}

/// The register after the sixteen bytes of the four words from place `at` on.
#[inline(always)]
pub fn sixteen_of_words<P: Polynomial>(state: u32, words: &[u32], at: usize) -> u32
    requires { at + 4 ≤ length words.now }
    ensures { (bytes : List ℕ) → AreWords bytes words.now
        → result ≡ register P.reflected state (take 16 (drop (4 * at) bytes)) }
{
    let first = words[at] ^ state;
    four_words::<P>(first, words[at + 1], words[at + 2], words[at + 3])
}

/// The register after four words, to the first of which it was joined. The words that do not depend on it
/// stand first, so that their look-ups need not wait for the step before.
#[inline(always)]
fn four_words<P: Polynomial>(first: u32, second: u32, third: u32, fourth: u32) -> u32
    ensures { result ≡ through_four P.reflected first second third fourth }
{
    let fourth = four::<P>(fourth, 0);
    let third = four::<P>(third, 4);
    let second = four::<P>(second, 8);
    let first = four::<P>(first, 12);
    fourth ^ third ^ second ^ first
}

/// The four bytes from place `at` on as a number, the first lowest.
#[inline(always)]
fn word_at(bytes: &[u8], at: usize) -> u32
    requires { at + 4 ≤ length bytes.now }
    ensures { result ≡ number (take 4 (drop at bytes.now)) }
{
    u32::from_le_bytes([bytes[at], bytes[at + 1], bytes[at + 2], bytes[at + 3]])
}

/// The register that starts at `word` once its four bytes and `behind` zero bytes have gone through.
#[inline(always)]
fn four<P: Polynomial>(word: u32, behind: usize) -> u32
    requires { behind ≤ 12 }
    ensures { result ≡ advance P.reflected (behind + 4) word }
{
    let [a, b, c, d] = word.to_le_bytes();
    P::entry(behind + 3, a)
        ^ P::entry(behind + 2, b)
        ^ P::entry(behind + 1, c)
        ^ P::entry(behind, d)
}
