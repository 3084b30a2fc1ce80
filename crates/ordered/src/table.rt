// The numbers of the sides 2, 4 and 8.
ghost use Rattle.std.specs.Prelude.{◌≡◌, ◌≤◌, ◌<◌};
ghost use Rattle.rules.specs.Ordered.{exponent, known_side};
ghost use Rattle.ordered.specs.Internal.Sides.{Cell, Filled, number_table};

// The numbers for side 8, row by row.
const TABLE: [u8; 64] = [
    0, 32, 8, 40, 2, 34, 10, 42, 48, 16, 56, 24, 50, 18, 58, 26, 12, 44, 4, 36, 14, 46, 6, 38, 60,
    28, 52, 20, 62, 30, 54, 22, 3, 35, 11, 43, 1, 33, 9, 41, 51, 19, 59, 27, 49, 17, 57, 25, 15,
    47, 7, 39, 13, 45, 5, 37, 63, 31, 55, 23, 61, 29, 53, 21,
];

// The number for a side at column x and row y, from the number for half the side.
fn cell(side: usize, x: usize, y: usize) -> usize
    requires { (0 < side) × (side ≤ 8) }
    ensures { Cell side x y result }
{
    if side == 1 {
        return 0;
    }
    let half = side / 2;
    let n = cell(half, x % half, y % half);
    match (x < half, y < half) {
        (true, true) => 4 * n,
        (false, true) => 4 * n + 2,
        (true, false) => 4 * n + 3,
        (false, false) => 4 * n + 1,
    }
}

// The numbers for a side, row by row, at the front, and zeros behind them.
fn filled(side: usize) -> [u8; 64]
    requires { (0 < side) × (side ≤ 8) }
    ensures { Filled side result }
{
    let mut table = [0u8; 64];
    // By index: the numbers may be fewer than the table has.
    for i in 0..side * side {
        table[i] = cell(side, i % side, i / side) as u8;
    }
    table
}

// Whether the side is one of document 01's.
// A side is a number, as `Quantize::Ordered` has it: an enum of the three would be made by this test and be turned back where it is used.
pub fn known_side(side: u8) -> bool
    ensures { result ≡ known_side side }
{
    matches!(side, 2 | 4 | 8)
}

// The numbers for the side 2, 4 or 8, row by row, at the front, and zeros behind them; for another side those of 8.
pub fn numbers(side: u8) -> [u8; 64]
    ensures { result ≡ number_table (exponent side) }
{
    match side {
        2 => filled(2),
        4 => filled(4),
        _ => TABLE,
    }
}
