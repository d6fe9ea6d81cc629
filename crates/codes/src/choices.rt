// A choice from its number, which is its place in the list of its type: `op as u32` goes the other way. A number past the last is refused.
ghost use Rattle.std.specs.Prelude.{◌≡◌};
ghost use Rattle.codes.specs.Choices.{change_at, op_at, way_at, by_at, turn_at, single_at, dir_at, sign_at, take_at, give_at};

use crate::{By, Change, Dir, Give, Op, Sign, Single, Take, Turn, Way};
use refusal::Refusal;

impl TryFrom<u32> for Change {
    type Error = Refusal;

    ghost try_from_gives = { λ n r. r ≡ change_at n };

    fn try_from(n: u32) -> Result<Change, Refusal> {
        match n {
            0 => Ok(Change::Orc),
            1 => Ok(Change::Xorc),
            2 => Ok(Change::Andc),
            3 => Ok(Change::Ldc),
            _ => Err(Refusal::NotInstruction),
        }
    }
}

impl TryFrom<u32> for Op {
    type Error = Refusal;

    ghost try_from_gives = { λ n r. r ≡ op_at n };

    fn try_from(n: u32) -> Result<Op, Refusal> {
        match n {
            0 => Ok(Op::Add),
            1 => Ok(Op::Sub),
            2 => Ok(Op::Cmp),
            3 => Ok(Op::Mov),
            4 => Ok(Op::Addx),
            5 => Ok(Op::Subx),
            6 => Ok(Op::Or),
            7 => Ok(Op::Xor),
            8 => Ok(Op::And),
            _ => Err(Refusal::NotInstruction),
        }
    }
}

impl TryFrom<u32> for Way {
    type Error = Refusal;

    ghost try_from_gives = { λ n r. r ≡ way_at n };

    fn try_from(n: u32) -> Result<Way, Refusal> {
        match n {
            0 => Ok(Way::Up),
            1 => Ok(Way::Down),
            _ => Err(Refusal::NotInstruction),
        }
    }
}

impl TryFrom<u32> for By {
    type Error = Refusal;

    ghost try_from_gives = { λ n r. r ≡ by_at n };

    fn try_from(n: u32) -> Result<By, Refusal> {
        match n {
            0 => Ok(By::One),
            1 => Ok(By::Two),
            2 => Ok(By::Four),
            _ => Err(Refusal::NotInstruction),
        }
    }
}

impl TryFrom<u32> for Turn {
    type Error = Refusal;

    ghost try_from_gives = { λ n r. r ≡ turn_at n };

    fn try_from(n: u32) -> Result<Turn, Refusal> {
        match n {
            0 => Ok(Turn::Shll),
            1 => Ok(Turn::Shlr),
            2 => Ok(Turn::Rotxl),
            3 => Ok(Turn::Rotxr),
            4 => Ok(Turn::Shal),
            5 => Ok(Turn::Shar),
            6 => Ok(Turn::Rotl),
            7 => Ok(Turn::Rotr),
            _ => Err(Refusal::NotInstruction),
        }
    }
}

impl TryFrom<u32> for Single {
    type Error = Refusal;

    ghost try_from_gives = { λ n r. r ≡ single_at n };

    fn try_from(n: u32) -> Result<Single, Refusal> {
        match n {
            0 => Ok(Single::Not),
            1 => Ok(Single::Neg),
            2 => Ok(Single::Extu),
            3 => Ok(Single::Exts),
            _ => Err(Refusal::NotInstruction),
        }
    }
}

impl TryFrom<u32> for Dir {
    type Error = Refusal;

    ghost try_from_gives = { λ n r. r ≡ dir_at n };

    fn try_from(n: u32) -> Result<Dir, Refusal> {
        match n {
            0 => Ok(Dir::Load),
            1 => Ok(Dir::Store),
            _ => Err(Refusal::NotInstruction),
        }
    }
}

impl TryFrom<u32> for Sign {
    type Error = Refusal;

    ghost try_from_gives = { λ n r. r ≡ sign_at n };

    fn try_from(n: u32) -> Result<Sign, Refusal> {
        match n {
            0 => Ok(Sign::Unsigned),
            1 => Ok(Sign::Signed),
            _ => Err(Refusal::NotInstruction),
        }
    }
}

impl TryFrom<u32> for Take {
    type Error = Refusal;

    ghost try_from_gives = { λ n r. r ≡ take_at n };

    fn try_from(n: u32) -> Result<Take, Refusal> {
        match n {
            0 => Ok(Take::Btst),
            1 => Ok(Take::Bor),
            2 => Ok(Take::Bior),
            3 => Ok(Take::Bxor),
            4 => Ok(Take::Bixor),
            5 => Ok(Take::Band),
            6 => Ok(Take::Biand),
            7 => Ok(Take::Bld),
            8 => Ok(Take::Bild),
            _ => Err(Refusal::NotInstruction),
        }
    }
}

impl TryFrom<u32> for Give {
    type Error = Refusal;

    ghost try_from_gives = { λ n r. r ≡ give_at n };

    fn try_from(n: u32) -> Result<Give, Refusal> {
        match n {
            0 => Ok(Give::Bset),
            1 => Ok(Give::Bnot),
            2 => Ok(Give::Bclr),
            3 => Ok(Give::Bst),
            4 => Ok(Give::Bist),
            _ => Err(Refusal::NotInstruction),
        }
    }
}
