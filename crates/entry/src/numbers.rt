// The number of each choice within an entry's variant, where it is not its own place in the list of its type or goes into a sum. An entry
// is one number and no enum, because the loop of a run is faster by it (docs/SPEED.md).
ghost use Rattle.std.specs.Borrow.{Bor};
ghost use Rattle.std.specs.Prelude.{◌≡◌, ◌<◌};
ghost use Rattle.entry.specs.Entry.{way_number, count_number, by_number, turn_number, width_number, change_number, dir_number, product_number};

use arith::Width;
use codes::{By, Change, Dir, Sign, Turn, Way};
use products::Half;

pub fn way_number(way: Way) -> u8
    ensures { (result ≡ way_number way) × (result < 2) }
{
    way as u8
}

pub fn count_number(w: Width, by: By) -> u8
    ensures { (result ≡ count_number w by) × (result < 16) }
{
    match (w, by) {
        (Width::Byte, _) => 0,
        (Width::Word, By::One) => 2,
        (Width::Word, By::Two | By::Four) => 4,
        (Width::Long, By::One) => 6,
        (Width::Long, By::Two | By::Four) => 8,
    }
}

pub fn by_number(by: By) -> u8
    ensures { (result ≡ by_number by) × (result < 16) }
{
    match by {
        By::One => 10,
        By::Two => 12,
        By::Four => 14,
    }
}

pub fn turn_number(turn: Turn) -> u8
    ensures { (result ≡ turn_number turn) × (result < 8) }
{
    turn as u8
}

pub fn width_number(w: Width) -> u8
    ensures { (result ≡ width_number w) × (result < 3) }
{
    w as u8
}

pub fn change_number(change: Change) -> u8
    ensures { result ≡ change_number change }
{
    match change {
        Change::Orc => 3,
        Change::Xorc => 4,
        Change::Andc => 5,
        Change::Ldc => 6,
    }
}

pub fn dir_number(dir: Dir) -> u8
    ensures { (result ≡ dir_number dir) × (result < 9) }
{
    match dir {
        Dir::Load => 0,
        Dir::Store => 8,
    }
}

pub fn product_number(sign: Sign, h: Half) -> u8
    ensures { (result ≡ product_number sign h) × (result < 12) }
{
    match (sign, h) {
        (Sign::Unsigned, Half::Eight) => 8,
        (Sign::Unsigned, Half::Sixteen) => 9,
        (Sign::Signed, Half::Eight) => 10,
        (Sign::Signed, Half::Sixteen) => 11,
    }
}
