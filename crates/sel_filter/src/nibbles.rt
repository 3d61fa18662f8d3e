//! Bit compression by a table for four bits at a time.

ghost use Rattle.std.specs.Prelude.{◌≡◌};
ghost use Rattle.sel_filter.specs.Compress.{compress};

/// The packed bits of `v` where `m` has a set bit, for 4-bit `m` and `v`, at index `16 * m + v`.
#[rattlefmt::skip]
const NIBBLES: [u8; 256] = [
    0, 0, 0, 0, 0, 0, 0, 0, 0, 0, 0, 0, 0, 0, 0, 0,
    0, 1, 0, 1, 0, 1, 0, 1, 0, 1, 0, 1, 0, 1, 0, 1,
    0, 0, 1, 1, 0, 0, 1, 1, 0, 0, 1, 1, 0, 0, 1, 1,
    0, 1, 2, 3, 0, 1, 2, 3, 0, 1, 2, 3, 0, 1, 2, 3,
    0, 0, 0, 0, 1, 1, 1, 1, 0, 0, 0, 0, 1, 1, 1, 1,
    0, 1, 0, 1, 2, 3, 2, 3, 0, 1, 0, 1, 2, 3, 2, 3,
    0, 0, 1, 1, 2, 2, 3, 3, 0, 0, 1, 1, 2, 2, 3, 3,
    0, 1, 2, 3, 4, 5, 6, 7, 0, 1, 2, 3, 4, 5, 6, 7,
    0, 0, 0, 0, 0, 0, 0, 0, 1, 1, 1, 1, 1, 1, 1, 1,
    0, 1, 0, 1, 0, 1, 0, 1, 2, 3, 2, 3, 2, 3, 2, 3,
    0, 0, 1, 1, 0, 0, 1, 1, 2, 2, 3, 3, 2, 2, 3, 3,
    0, 1, 2, 3, 0, 1, 2, 3, 4, 5, 6, 7, 4, 5, 6, 7,
    0, 0, 0, 0, 1, 1, 1, 1, 2, 2, 2, 2, 3, 3, 3, 3,
    0, 1, 0, 1, 2, 3, 2, 3, 4, 5, 4, 5, 6, 7, 6, 7,
    0, 0, 1, 1, 2, 2, 3, 3, 4, 4, 5, 5, 6, 6, 7, 7,
    0, 1, 2, 3, 4, 5, 6, 7, 8, 9, 10, 11, 12, 13, 14, 15,
];

/// Returns the bits of `v` where `m` has a set bit, packed from bit 0, in 16 table steps.
#[inline]
#[tactic(auto, using(crate::proofs::ByFours::packing))]
pub(crate) fn compress_by_fours(v: u64, m: u64) -> u64
    ensures { result ≡ compress v m }
{
    let mut packed = 0;
    let mut place = 0u32;
    let mut values = v;
    let mut mask = m;
    for _i in 0..16u32 {
        let four = mask % 16;
        packed |= u64::from(NIBBLES[(16 * four + values % 16) as usize]) << place;
        place += four.count_ones();
        values /= 16;
        mask /= 16;
    }
    packed
}
