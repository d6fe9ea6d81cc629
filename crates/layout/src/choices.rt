// The number of a choice in host/h8.h, its place in its list; and the choice of a number, of one past its list the last: what can't fail. `TryFrom` and the
// rows refuse such a number.
ghost use Rattle.std.specs.Prelude.{◌≡◌};
ghost use Rattle.layout.specs.Choices.{width_number, change_number, op_number, way_number, by_number, turn_number, single_number, dir_number, sign_number, take_number, give_number};
ghost use Rattle.layout.specs.MirrorChoices.{width_at, change_at, op_at, way_at, by_at, turn_at, single_at, dir_at, sign_at, half_at, take_at, give_at};

use crate::rows;
use arith::Width;
use codes::{By, Change, Dir, Give, Op, Sign, Single, Take, Turn, Way};
use products::Half;

pub fn width_number(w: Width) -> u32
    ensures { result ≡ width_number w }
{
    w as u32
}

pub fn change_number(change: Change) -> u32
    ensures { result ≡ change_number change }
{
    change as u32
}

pub fn op_number(op: Op) -> u32
    ensures { result ≡ op_number op }
{
    op as u32
}

pub fn way_number(way: Way) -> u32
    ensures { result ≡ way_number way }
{
    way as u32
}

pub fn by_number(by: By) -> u32
    ensures { result ≡ by_number by }
{
    by as u32
}

pub fn turn_number(turn: Turn) -> u32
    ensures { result ≡ turn_number turn }
{
    turn as u32
}

pub fn single_number(single: Single) -> u32
    ensures { result ≡ single_number single }
{
    single as u32
}

pub fn dir_number(dir: Dir) -> u32
    ensures { result ≡ dir_number dir }
{
    dir as u32
}

pub fn sign_number(sign: Sign) -> u32
    ensures { result ≡ sign_number sign }
{
    sign as u32
}

pub fn take_number(take: Take) -> u32
    ensures { result ≡ take_number take }
{
    take as u32
}

pub fn give_number(give: Give) -> u32
    ensures { result ≡ give_number give }
{
    give as u32
}

#[tactic(auto, unfolding(crate::specs::MirrorChoices::width_at))]
pub fn width_at(n: u32) -> Width
    ensures { result ≡ width_at n }
{
    rows::width_at(n).unwrap_or(Width::Long)
}

#[tactic(auto, unfolding(crate::specs::MirrorChoices::change_at))]
pub fn change_at(n: u32) -> Change
    ensures { result ≡ change_at n }
{
    Change::try_from(n).unwrap_or(Change::Ldc)
}

#[tactic(auto, unfolding(crate::specs::MirrorChoices::op_at))]
pub fn op_at(n: u32) -> Op
    ensures { result ≡ op_at n }
{
    Op::try_from(n).unwrap_or(Op::And)
}

#[tactic(auto, unfolding(crate::specs::MirrorChoices::way_at))]
pub fn way_at(n: u32) -> Way
    ensures { result ≡ way_at n }
{
    Way::try_from(n).unwrap_or(Way::Down)
}

#[tactic(auto, unfolding(crate::specs::MirrorChoices::by_at))]
pub fn by_at(n: u32) -> By
    ensures { result ≡ by_at n }
{
    By::try_from(n).unwrap_or(By::Four)
}

#[tactic(auto, unfolding(crate::specs::MirrorChoices::turn_at))]
pub fn turn_at(n: u32) -> Turn
    ensures { result ≡ turn_at n }
{
    Turn::try_from(n).unwrap_or(Turn::Rotr)
}

#[tactic(auto, unfolding(crate::specs::MirrorChoices::single_at))]
pub fn single_at(n: u32) -> Single
    ensures { result ≡ single_at n }
{
    Single::try_from(n).unwrap_or(Single::Exts)
}

#[tactic(auto, unfolding(crate::specs::MirrorChoices::dir_at))]
pub fn dir_at(n: u32) -> Dir
    ensures { result ≡ dir_at n }
{
    Dir::try_from(n).unwrap_or(Dir::Store)
}

#[tactic(auto, unfolding(crate::specs::MirrorChoices::sign_at))]
pub fn sign_at(n: u32) -> Sign
    ensures { result ≡ sign_at n }
{
    Sign::try_from(n).unwrap_or(Sign::Signed)
}

#[tactic(auto, unfolding(crate::specs::MirrorChoices::half_at))]
pub fn half_at(n: u32) -> Half
    ensures { result ≡ half_at n }
{
    rows::half_at(n).unwrap_or(Half::Sixteen)
}

#[tactic(auto, unfolding(crate::specs::MirrorChoices::take_at))]
pub fn take_at(n: u32) -> Take
    ensures { result ≡ take_at n }
{
    Take::try_from(n).unwrap_or(Take::Bild)
}

#[tactic(auto, unfolding(crate::specs::MirrorChoices::give_at))]
pub fn give_at(n: u32) -> Give
    ensures { result ≡ give_at n }
{
    Give::try_from(n).unwrap_or(Give::Bist)
}
