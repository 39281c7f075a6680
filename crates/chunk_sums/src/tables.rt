//! Polynomials: what a byte comes to once it and some zero bytes have gone through the register, and how
//! far ahead bytes can be moved.

ghost use Rattle.std.specs.Prelude.{◌≡◌, ℕ, ◌+◌, ◌<◌, List};
ghost use Rattle.chunk_sums.specs.Ahead.{IsSpan, crc32_wide, crc32_near, crc32c_wide, crc32c_near};
ghost use Rattle.chunk_sums.specs.Ahead.{crc32_wide_span, crc32_near_span, crc32c_wide_span, crc32c_near_span};
ghost use Rattle.chunk_sums.specs.Crc.{advance, crc32_polynomial, crc32c_polynomial};

use crate::{castagnoli, ieee};

/// A polynomial, by its table and by the places of two windows, from the front, onto which a byte that
/// leaves the window may be moved in place of where it stands.
pub trait Polynomial {
    ghost reflected: { ℕ };

    ghost wide_places: { List ℕ };

    ghost near_places: { List ℕ };

    /// The register that starts at `byte` once it and `row` more zero bytes have gone through.
    fn entry(row: usize, byte: u8) -> u32
        requires { row < 16 }
        ensures { result ≡ advance reflected (row + 1) byte };

    /// The places of a window of 224 bytes: few, and far enough apart for many bytes to be moved.
    fn wide() -> &'static [u8]
        ensures { result.now ≡ wide_places };

    /// The places of a window of 112 bytes.
    fn near() -> &'static [u8]
        ensures { result.now ≡ near_places };

    /// A byte counts as much from the places of the wide window as where it stands.
    ghost wide_span: { IsSpan reflected wide_places 224 };

    /// A byte counts as much from the places of the near window as where it stands.
    ghost near_span: { IsSpan reflected near_places 112 };
}

/// The polynomial of CRC32.
pub enum Crc32 {}

impl Polynomial for Crc32 {
    ghost reflected = { crc32_polynomial };

    ghost wide_places = { crc32_wide };

    ghost near_places = { crc32_near };

    ghost wide_span = { crc32_wide_span };

    ghost near_span = { crc32_near_span };

    #[inline(always)]
    fn entry(row: usize, byte: u8) -> u32 {
        ieee::TABLE[row * 256 + byte as usize]
    }

    #[inline(always)]
    fn wide() -> &'static [u8] {
        &[95, 86, 74, 55, 41, 12]
    }

    #[inline(always)]
    fn near() -> &'static [u8] {
        &[75, 63, 52, 50, 37, 32, 3]
    }
}

/// The polynomial of CRC32C.
pub enum Crc32c {}

impl Polynomial for Crc32c {
    ghost reflected = { crc32c_polynomial };

    ghost wide_places = { crc32c_wide };

    ghost near_places = { crc32c_near };

    ghost wide_span = { crc32c_wide_span };

    ghost near_span = { crc32c_near_span };

    #[inline(always)]
    fn entry(row: usize, byte: u8) -> u32 {
        castagnoli::TABLE[row * 256 + byte as usize]
    }

    #[inline(always)]
    fn wide() -> &'static [u8] {
        &[159, 69, 54, 29, 15]
    }

    #[inline(always)]
    fn near() -> &'static [u8] {
        &[65, 61, 57, 27, 22, 12, 8]
    }
}
