// The codes of the manual's section 2.4 that the set leaves out, and the group that bytes belong to if they begin with such a code or are its beginning.
#![tactic(auto)]

ghost use Rattle.std.specs.Prelude.{◌≡◌};
ghost use Rattle.left.specs.Left.{fits, agrees, group_in, left_out};
ghost use Rattle.left.specs.Unheld.{unheld_of};
ghost use Rattle.left.specs.MirrorTable.{between, patterns_in, rows_in};

use refusal::Refusal;

// The group, the number of bytes, and the least and the most that the digits of the first eight can be; those behind them can be any.
type Row = (u8, usize, u64, u64);

const ROWS: [Row; 25] = [
    (3, 8, 0x78006A2000000000, 0x78706A2F00FFFFFF),
    (3, 8, 0x78006AA000000000, 0x78706AAF00FFFFFF),
    (3, 8, 0x78006B2000000000, 0x78706B2F00FFFFFF),
    (3, 8, 0x78006BA000000000, 0x78706BAF00FFFFFF),
    (3, 10, 0x010078006B200000, 0x010078706B2700FF),
    (3, 10, 0x010078806BA00000, 0x010078F06BA700FF),
    (4, 4, 0x0140690000000000, 0x01406970FFFFFFFF),
    (4, 6, 0x01406F0000000000, 0x01406F70FFFFFFFF),
    (4, 10, 0x014078006B200000, 0x014078706B2000FF),
    (4, 4, 0x01406D0000000000, 0x01406D70FFFFFFFF),
    (4, 6, 0x01406B0000000000, 0x01406B00FFFFFFFF),
    (4, 8, 0x01406B2000000000, 0x01406B2000FFFFFF),
    (4, 4, 0x0140698000000000, 0x014069F0FFFFFFFF),
    (4, 6, 0x01406F8000000000, 0x01406FF0FFFFFFFF),
    (4, 10, 0x014078006BA00000, 0x014078706BA000FF),
    (4, 4, 0x01406D8000000000, 0x01406DF0FFFFFFFF),
    (4, 6, 0x01406B8000000000, 0x01406B80FFFFFFFF),
    (4, 8, 0x01406BA000000000, 0x01406BA000FFFFFF),
    (5, 4, 0x7B5C598F00000000, 0x7B5C598FFFFFFFFF),
    (5, 4, 0x7BD4598F00000000, 0x7BD4598FFFFFFFFF),
    (6, 2, 0x5670000000000000, 0x5670FFFFFFFFFFFF),
    (6, 2, 0x0180000000000000, 0x0180FFFFFFFFFFFF),
    (6, 2, 0x5700000000000000, 0x5730FFFFFFFFFFFF),
    (7, 4, 0x6A40000000000000, 0x6A4FFFFFFFFFFFFF),
    (7, 4, 0x6AC0000000000000, 0x6ACFFFFFFFFFFFFF),
];

const TOP: u64 = 72057594037927936;

// Digit by digit: the uppermost byte of both.
fn fits(least: u64, most: u64, x: u8) -> bool
    ensures { result ≡ fits (between least most) x }
{
    let y = u64::from(x);
    let a = least / TOP;
    let b = most / TOP;
    (a / 16 <= y / 16) & (y / 16 <= b / 16) & (a % 16 <= y % 16) & (y % 16 <= b % 16)
}

// As far as both go.
fn agrees(count: usize, least: u64, most: u64, s: &[u8]) -> bool
    ensures { result ≡ agrees (patterns_in count least most) s.now }
{
    let mut a = least;
    let mut b = most;
    for (j, x) in s.iter().enumerate() {
        if j == count {
            return true;
        }
        if !fits(a, b, *x) {
            return false;
        }
        a = a % TOP * 256;
        b = b % TOP * 256 + 255;
    }
    true
}

// The first row that agrees; 0 where none does: an entry of `run` has the group in its number, and so has the C interface.
fn find(rows: &[Row], s: &[u8]) -> u8
    ensures { result ≡ group_in (rows_in rows.now) s.now }
{
    for row in rows {
        let (group, count, least, most) = *row;
        if agrees(count, least, most, s) {
            return group;
        }
    }
    0
}

pub fn group(s: &[u8]) -> u8
    ensures { result ≡ group_in left_out s.now }
{
    let t = ROWS;
    find(&t, s)
}

// The refusal at a place by its group, which is 0 for none.
pub fn refusal(place: u32, g: u8) -> Refusal
    ensures { result ≡ unheld_of place g }
{
    if g == 0 {
        Refusal::UnknownCode(place)
    } else {
        Refusal::LeftOut(u32::from(g) * 16777216 + place % 16777216)
    }
}

// The refusal of bytes at a place that the set doesn't hold: 15, or 3 where no code begins them and they begin none.
pub fn unheld(s: &[u8], place: u32) -> Refusal
    ensures { result ≡ unheld_of place (group_in left_out s.now) }
{
    refusal(place, group(s))
}
