// The bytes and digits of the code list's tables, in its order. Where there is no code they have 0. A type has several of them, so none is
// the type's own `From`.
ghost use Rattle.std.specs.Borrow.{Bor};
ghost use Rattle.std.specs.Prelude.{◌≡◌, ◌≤◌, ℕ, Bool};
ghost use Rattle.codes.specs.Code.{change_code, way_digit, adds_digit, word_digit, long_digit, digit013, digit89_b, extu_digit, exts_digit, unsigned_multiply, unsigned_divide, take_byte, take_side, give_byte, give_side, first_digit, next_digit, dir_digit, abs8_digit};
ghost use Rattle.encoder.specs.MirrorParts.{byte_code, word_code};
ghost use Rattle.encoder.specs.MirrorValid.{takes_part, gives_part};

use arith::Width;
use codes::{By, Change, Dir, Give, Op, Take, Way};
use products::Half;

pub fn change_code(change: Change) -> u32
    ensures { result ≡ change_code change }
{
    match change {
        Change::Orc => 0x04,
        Change::Xorc => 0x05,
        Change::Andc => 0x06,
        Change::Ldc => 0x07,
    }
}

pub fn byte_code(op: Op) -> u32
    ensures { result ≡ byte_code op }
{
    match op {
        Op::Add => 0x08,
        Op::Sub => 0x18,
        Op::Cmp => 0x1C,
        Op::Mov => 0x0C,
        Op::Addx => 0x0E,
        Op::Subx => 0x1E,
        Op::Or => 0x14,
        Op::Xor => 0x15,
        Op::And => 0x16,
    }
}

pub fn word_code(op: Op) -> u32
    ensures { result ≡ word_code op }
{
    match op {
        Op::Add => 0x09,
        Op::Sub => 0x19,
        Op::Cmp => 0x1D,
        Op::Mov => 0x0D,
        Op::Addx | Op::Subx => 0,
        Op::Or => 0x64,
        Op::Xor => 0x65,
        Op::And => 0x66,
    }
}

pub fn first_digit(op: Op) -> u8
    ensures { result ≡ first_digit op }
{
    match op {
        Op::Add => 0x8,
        Op::Addx => 0x9,
        Op::Cmp => 0xA,
        Op::Subx => 0xB,
        Op::Or => 0xC,
        Op::Xor => 0xD,
        Op::And => 0xE,
        Op::Mov => 0xF,
        Op::Sub => 0,
    }
}

pub fn next_digit(op: Op) -> u8
    ensures { result ≡ next_digit op }
{
    match op {
        Op::Mov => 0,
        Op::Add => 1,
        Op::Cmp => 2,
        Op::Sub => 3,
        Op::Or => 4,
        Op::Xor => 5,
        Op::And => 6,
        Op::Addx | Op::Subx => 0,
    }
}

pub fn way_digit(way: Way) -> u8
    ensures { result ≡ way_digit way }
{
    match way {
        Way::Up => 0,
        Way::Down => 1,
    }
}

pub fn adds_digit(by: By) -> u8
    ensures { result ≡ adds_digit by }
{
    match by {
        By::One => 0x0,
        By::Two => 0x8,
        By::Four => 0x9,
    }
}

pub fn word_digit(by: By) -> u8
    ensures { result ≡ word_digit by }
{
    match by {
        By::One => 0x5,
        By::Two => 0xD,
        By::Four => 0,
    }
}

pub fn long_digit(by: By) -> u8
    ensures { result ≡ long_digit by }
{
    match by {
        By::One => 0x7,
        By::Two => 0xF,
        By::Four => 0,
    }
}

pub fn digit_013(w: Width) -> u8
    ensures { result ≡ digit013 w }
{
    match w {
        Width::Byte => 0x0,
        Width::Word => 0x1,
        Width::Long => 0x3,
    }
}

pub fn digit_89b(w: Width) -> u8
    ensures { result ≡ digit89_b w }
{
    match w {
        Width::Byte => 0x8,
        Width::Word => 0x9,
        Width::Long => 0xB,
    }
}

pub fn extu_digit(w: Width) -> u8
    ensures { result ≡ extu_digit w }
{
    match w {
        Width::Byte => 0,
        Width::Word => 0x5,
        Width::Long => 0x7,
    }
}

pub fn exts_digit(w: Width) -> u8
    ensures { result ≡ exts_digit w }
{
    match w {
        Width::Byte => 0,
        Width::Word => 0xD,
        Width::Long => 0xF,
    }
}

pub fn unsigned_multiply(h: Half) -> u32
    ensures { result ≡ unsigned_multiply h }
{
    match h {
        Half::Eight => 0x50,
        Half::Sixteen => 0x52,
    }
}

pub fn unsigned_divide(h: Half) -> u32
    ensures { result ≡ unsigned_divide h }
{
    match h {
        Half::Eight => 0x51,
        Half::Sixteen => 0x53,
    }
}

// What the code list has of a bit instruction.
pub trait Coded: Copy {
    ghost byte: { Self → ℕ };

    ghost side: { Self → ℕ };

    ghost by_part: { Self → Bool };

    // The byte of a bit's number in the code.
    fn byte(self) -> u32
        ensures { (result ≡ byte self) × (0x10 ≤ result) };

    // What is added to that number.
    fn side(self) -> u8
        ensures { result ≡ side self };

    // Whether a register may hold the number.
    fn by_part(self) -> bool
        ensures { result ≡ by_part self };
}

impl Coded for Take {
    ghost byte = { take_byte };

    ghost side = { take_side };

    ghost by_part = { takes_part };

    fn byte(self) -> u32 {
        match self {
            Take::Btst => 0x73,
            Take::Bor | Take::Bior => 0x74,
            Take::Bxor | Take::Bixor => 0x75,
            Take::Band | Take::Biand => 0x76,
            Take::Bld | Take::Bild => 0x77,
        }
    }

    fn side(self) -> u8 {
        match self {
            Take::Btst | Take::Bor | Take::Bxor | Take::Band | Take::Bld => 0,
            Take::Bior | Take::Bixor | Take::Biand | Take::Bild => 8,
        }
    }

    fn by_part(self) -> bool {
        matches!(self, Take::Btst)
    }
}

impl Coded for Give {
    ghost byte = { give_byte };

    ghost side = { give_side };

    ghost by_part = { gives_part };

    fn byte(self) -> u32 {
        match self {
            Give::Bset => 0x70,
            Give::Bnot => 0x71,
            Give::Bclr => 0x72,
            Give::Bst | Give::Bist => 0x67,
        }
    }

    fn side(self) -> u8 {
        match self {
            Give::Bset | Give::Bnot | Give::Bclr | Give::Bst => 0,
            Give::Bist => 8,
        }
    }

    fn by_part(self) -> bool {
        matches!(self, Give::Bset | Give::Bnot | Give::Bclr)
    }
}

pub fn dir_digit(dir: Dir) -> u8
    ensures { result ≡ dir_digit dir }
{
    match dir {
        Dir::Load => 0,
        Dir::Store => 8,
    }
}

pub fn abs8_digit(dir: Dir) -> u8
    ensures { result ≡ abs8_digit dir }
{
    match dir {
        Dir::Load => 2,
        Dir::Store => 3,
    }
}
