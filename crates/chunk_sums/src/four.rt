//! The sums of four pieces of a body side by side, each in a lane of its own.
//!
//! A polynomial with few terms that is a multiple of that of the sum lets a byte count exactly as much as
//! the same byte joined, by exclusive or, onto a few bytes behind it. So all bytes of a piece are moved
//! ahead until 224 are left, by few places that reach far; of these half by more places that reach less
//! far; and only the last 112 go through the tables. In one piece alone each step would wait for what the
//! steps before it store; with four in turn none does.

ghost use Rattle.std.specs.Prelude.{◌≡◌, ◌⊎◌, ℕ, ◌+◌, ◌*◌, ◌%◌, ◌≤◌, length, map, slice_index};
ghost use Rattle.chunk_sums.specs.Chunks.{four_chunks};
ghost use Rattle.chunk_sums.specs.Crc.{register};
ghost use Rattle.chunk_sums.specs.Four.{OfEach, AreReady, IsSpreadTo, IsBroughtTo, IsMixedTo, IsSound, all_mixed, sum_by};

use crate::lanes::{NEAR, STEP, WIDE, bring, mix, spread, spread_front, words_of};
use crate::slicing::sixteen_of_words;
use crate::tables::Polynomial;

/// The bytes of a near lane: a window, as many bytes that are moved, and a vector of zeros.
const NEAR_LEN: usize = 240;

/// How many steps at the front of a piece find zeros in the window.
const FRONT: usize = 208;

/// The buffers of one piece: those of both windows, and the last bytes with all that was moved onto them.
#[derive(Drop)]
pub struct Lane<const N: usize> {
    wide: [u8; N],
    near: [u8; NEAR_LEN],
    mixed: [u8; NEAR],
}

/// The lanes of four pieces that have up to `N - 16` bytes.
#[derive(Drop)]
pub struct Lanes<const N: usize> {
    a: Lane<N>,
    b: Lane<N>,
    c: Lane<N>,
    d: Lane<N>,
}

/// Four pieces of the same length.
#[derive(Drop)]
struct Pieces<'a> {
    a: &'a [u8],
    b: &'a [u8],
    c: &'a [u8],
    d: &'a [u8],
}

impl<const N: usize> Lane<N> {
    /// A lane of zeros.
    #[inline(always)]
    fn new() -> Self
        ensures wide { (k : ℕ) → slice_index result.wide k ≡ 0 }
        ensures near { (k : ℕ) → slice_index result.near k ≡ 0 }
    {
        Lane {
            wide: [0; N],
            near: [0; NEAR_LEN],
            mixed: [0; NEAR],
        }
    }
}

impl<const N: usize> Lanes<N> {
    /// Lanes of zeros.
    #[inline(always)]
    pub fn new() -> Self
        ensures { (size : ℕ) → AreReady size result }
    {
        Lanes {
            a: Lane::new(),
            b: Lane::new(),
            c: Lane::new(),
            d: Lane::new(),
        }
    }
}

/// The sums of the first four pieces of `size` bytes of a body.
pub fn four_sums<P: Polynomial, const N: usize>(
    lanes: &mut Lanes<N>,
    body: &[u8],
    size: usize,
) -> [u32; 4]
    requires least { 512 ≤ size }
    requires whole { size % 16 ≡ 0 }
    requires room { size + 16 ≤ N }
    requires enough { 4 * size ≤ length body.now }
    requires ready { AreReady size lanes.old }
    ensures ready { AreReady size lanes.new }
    ensures sums { result ≡ map (sum_by P.reflected) (four_chunks size body.now) }
{
    let (a, rest) = body.split_at(size);
    let (b, rest) = rest.split_at(size);
    let (c, rest) = rest.split_at(size);
    let (d, _) = rest.split_at(size);
    let pieces = Pieces { a, b, c, d };
    spread_fronts::<P, N>(lanes, &pieces);
    for step in 0..(size - WIDE - FRONT) / STEP {
        spread_four::<P, N>(lanes, &pieces, FRONT + step * STEP);
    }
    bring_last::<P, N>(lanes, &pieces);
    mix_last::<P, N>(lanes, &pieces);
    let [a, b, c, d] = four_registers::<P, N>(lanes);
    [!a, !b, !c, !d]
}

/// Moves the first 208 bytes of four pieces ahead.
#[inline(always)]
fn spread_fronts<P: Polynomial, const N: usize>(lanes: &mut Lanes<N>, pieces: &Pieces<'_>)
    requires before { OfEach (IsSpreadTo P.wide_places 0) pieces.now lanes.old }
    ensures { OfEach (IsSpreadTo P.wide_places 208) pieces.now lanes.new }
{
    front_of_four::<P, N>(lanes, pieces, 0);
    front_of_four::<P, N>(lanes, pieces, 16);
    front_of_four::<P, N>(lanes, pieces, 32);
    front_of_four::<P, N>(lanes, pieces, 48);
    front_of_four::<P, N>(lanes, pieces, 64);
    front_of_four::<P, N>(lanes, pieces, 80);
    front_of_four::<P, N>(lanes, pieces, 96);
    front_of_four::<P, N>(lanes, pieces, 112);
    front_of_four::<P, N>(lanes, pieces, 128);
    front_of_four::<P, N>(lanes, pieces, 144);
    front_of_four::<P, N>(lanes, pieces, 160);
    front_of_four::<P, N>(lanes, pieces, 176);
    front_of_four::<P, N>(lanes, pieces, 192);
}

/// Moves sixteen bytes of each of four pieces ahead, near the front.
#[inline(always)]
fn front_of_four<P: Polynomial, const N: usize>(
    lanes: &mut Lanes<N>,
    pieces: &Pieces<'_>,
    at: usize,
)
    requires place { (at ≡ 0) ⊎ (16 ≤ at) }
    requires within { at ≤ 192 }
    requires before { OfEach (IsSpreadTo P.wide_places at) pieces.now lanes.old }
    ensures { OfEach (IsSpreadTo P.wide_places (at + 16)) pieces.now lanes.new }
{
    spread_front::<P>(&mut lanes.a.wide, pieces.a, at);
    spread_front::<P>(&mut lanes.b.wide, pieces.b, at);
    spread_front::<P>(&mut lanes.c.wide, pieces.c, at);
    spread_front::<P>(&mut lanes.d.wide, pieces.d, at);
}

/// Moves sixteen bytes of each of four pieces ahead.
#[inline(always)]
fn spread_four<P: Polynomial, const N: usize>(lanes: &mut Lanes<N>, pieces: &Pieces<'_>, at: usize)
    requires place { 16 ≤ at }
    requires within { OfEach (λ piece lane. at + 240 ≤ length piece) pieces.now lanes.old }
    requires before { OfEach (IsSpreadTo P.wide_places at) pieces.now lanes.old }
    ensures { OfEach (IsSpreadTo P.wide_places (at + 16)) pieces.now lanes.new }
{
    spread::<P>(&mut lanes.a.wide, pieces.a, at);
    spread::<P>(&mut lanes.b.wide, pieces.b, at);
    spread::<P>(&mut lanes.c.wide, pieces.c, at);
    spread::<P>(&mut lanes.d.wide, pieces.d, at);
}

/// Moves half of the last 224 bytes of four pieces ahead by the near window.
#[inline(always)]
fn bring_last<P: Polynomial, const N: usize>(lanes: &mut Lanes<N>, pieces: &Pieces<'_>)
    requires { OfEach (IsBroughtTo P.wide_places P.near_places 0) pieces.now lanes.old }
    ensures { OfEach (IsBroughtTo P.wide_places P.near_places 112) pieces.now lanes.new }
{
    bring_four::<P, N>(lanes, pieces, 0);
    bring_four::<P, N>(lanes, pieces, 16);
    bring_four::<P, N>(lanes, pieces, 32);
    bring_four::<P, N>(lanes, pieces, 48);
    bring_four::<P, N>(lanes, pieces, 64);
    bring_four::<P, N>(lanes, pieces, 80);
    bring_four::<P, N>(lanes, pieces, 96);
}

/// Moves sixteen of the last 224 bytes of each of four pieces ahead by the near window.
#[inline(always)]
fn bring_four<P: Polynomial, const N: usize>(lanes: &mut Lanes<N>, pieces: &Pieces<'_>, at: usize)
    requires within { at + 16 ≤ 112 }
    requires before { OfEach (IsBroughtTo P.wide_places P.near_places at) pieces.now lanes.old }
    ensures { OfEach (IsBroughtTo P.wide_places P.near_places (at + 16)) pieces.now lanes.new }
{
    bring::<P>(&mut lanes.a.near, &lanes.a.wide, pieces.a, at);
    bring::<P>(&mut lanes.b.near, &lanes.b.wide, pieces.b, at);
    bring::<P>(&mut lanes.c.near, &lanes.c.wide, pieces.c, at);
    bring::<P>(&mut lanes.d.near, &lanes.d.wide, pieces.d, at);
}

/// Mixes the last 112 bytes of four pieces with all that was moved ahead.
#[inline(always)]
fn mix_last<P: Polynomial, const N: usize>(lanes: &mut Lanes<N>, pieces: &Pieces<'_>)
    requires { OfEach (IsMixedTo P.wide_places P.near_places 0) pieces.now lanes.old }
    ensures mixed { OfEach (IsMixedTo P.wide_places P.near_places 112) pieces.now lanes.new }
    ensures sound { OfEach IsSound pieces.now lanes.new }
{
    mix_four::<P, N>(lanes, pieces, 0);
    mix_four::<P, N>(lanes, pieces, 16);
    mix_four::<P, N>(lanes, pieces, 32);
    mix_four::<P, N>(lanes, pieces, 48);
    mix_four::<P, N>(lanes, pieces, 64);
    mix_four::<P, N>(lanes, pieces, 80);
    mix_four::<P, N>(lanes, pieces, 96);
}

/// Mixes sixteen of the last 112 bytes of each of four pieces with all that was moved ahead.
#[inline(always)]
fn mix_four<P: Polynomial, const N: usize>(lanes: &mut Lanes<N>, pieces: &Pieces<'_>, at: usize)
    requires within { at + 16 ≤ 112 }
    requires before { OfEach (IsMixedTo P.wide_places P.near_places at) pieces.now lanes.old }
    ensures mixed { OfEach (IsMixedTo P.wide_places P.near_places (at + 16)) pieces.now lanes.new }
    ensures sound { OfEach IsSound pieces.now lanes.new }
{
    mix::<P>(
        &mut lanes.a.mixed,
        &lanes.a.near,
        &lanes.a.wide,
        pieces.a,
        at,
    );
    mix::<P>(
        &mut lanes.b.mixed,
        &lanes.b.near,
        &lanes.b.wide,
        pieces.b,
        at,
    );
    mix::<P>(
        &mut lanes.c.mixed,
        &lanes.c.near,
        &lanes.c.wide,
        pieces.c,
        at,
    );
    mix::<P>(
        &mut lanes.d.mixed,
        &lanes.d.near,
        &lanes.d.wide,
        pieces.d,
        at,
    );
}

/// The registers from 0 after the last bytes of four pieces. The steps of the four are taken in turn, so
/// that none waits for the one before.
#[inline(always)]
fn four_registers<P: Polynomial, const N: usize>(lanes: &Lanes<N>) -> [u32; 4]
    ensures { result ≡ map (register P.reflected 0) (all_mixed lanes.now) }
{
    let last_a = words_of(&lanes.a.mixed);
    let last_b = words_of(&lanes.b.mixed);
    let last_c = words_of(&lanes.c.mixed);
    let last_d = words_of(&lanes.d.mixed);
    let mut a = 0;
    let mut b = 0;
    let mut c = 0;
    let mut d = 0;
    for step in 0..NEAR / STEP {
        a = sixteen_of_words::<P>(a, &last_a, 4 * step);
        b = sixteen_of_words::<P>(b, &last_b, 4 * step);
        c = sixteen_of_words::<P>(c, &last_c, 4 * step);
        d = sixteen_of_words::<P>(d, &last_d, 4 * step);
    }
    [a, b, c, d]
}
