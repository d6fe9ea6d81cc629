// The names of the instructions and of the registers.
ghost use Rattle.std.specs.Prelude.{◌≡◌, [], ◌∷◌};
ghost use Rattle.text.specs.Lines.{added};
ghost use Rattle.mnemonics.specs.Names.{numeral_of, half_of, letter_of_word, byte_reg, word_reg, long_reg, reg_of, mark_of, op_name, op_mark, way_name, multiply_name, divide_name, take_name, give_name, adds_name, decimal_name, turn_name, single_name, change_name, by_of, branch_name};

use arith::Width;
use codes::{By, Change, Give, Op, Sign, Single, Take, Turn, Way};
use text::Line;

// The number of a register, or of a bit.
pub fn which(l: &mut Line, d: u8)
    ensures { l.new ≡ added l.old (numeral_of d ∷ []) }
{
    l.byte(b'0' + d % 8);
}

#[tactic(auto, unfolding(crate::specs::Names::half_of))]
fn half(d: u8) -> u8
    ensures { result ≡ half_of d }
{
    if d % 16 < 8 { b'H' } else { b'L' }
}

#[tactic(auto, unfolding(crate::specs::Names::letter_of_word))]
fn word_letter(d: u8) -> u8
    ensures { result ≡ letter_of_word d }
{
    if d % 16 < 8 { b'R' } else { b'E' }
}

pub fn byte_reg(l: &mut Line, d: u8)
    ensures { l.new ≡ added l.old (byte_reg d) }
{
    l.byte(b'R');
    which(l, d);
    l.byte(half(d));
}

pub fn long_reg(l: &mut Line, d: u8)
    ensures { l.new ≡ added l.old (long_reg d) }
{
    l.text("ER");
    which(l, d);
}

// A register by its digit of the code.
pub fn reg(l: &mut Line, w: Width, d: u8)
    ensures { l.new ≡ added l.old (reg_of w d) }
{
    match w {
        Width::Byte => byte_reg(l, d),
        Width::Word => {
            l.byte(word_letter(d));
            which(l, d);
        }
        Width::Long => long_reg(l, d),
    }
}

pub fn mark(w: Width) -> &'static str
    ensures { result.now ≡ mark_of w }
{
    match w {
        Width::Byte => ".B",
        Width::Word => ".W",
        Width::Long => ".L",
    }
}

pub fn op_name(op: Op) -> &'static str
    ensures { result.now ≡ op_name op }
{
    match op {
        Op::Add => "ADD",
        Op::Sub => "SUB",
        Op::Cmp => "CMP",
        Op::Mov => "MOV",
        Op::Addx => "ADDX",
        Op::Subx => "SUBX",
        Op::Or => "OR",
        Op::Xor => "XOR",
        Op::And => "AND",
    }
}

// ADDX and SUBX are written without a size.
pub fn op_mark(op: Op, w: Width) -> &'static str
    ensures { result.now ≡ op_mark op w }
{
    match op {
        Op::Addx | Op::Subx => "",
        _ => mark(w),
    }
}

pub fn way_name(way: Way) -> &'static str
    ensures { result.now ≡ way_name way }
{
    match way {
        Way::Up => "INC",
        Way::Down => "DEC",
    }
}

pub fn multiply_name(sign: Sign) -> &'static str
    ensures { result.now ≡ multiply_name sign }
{
    match sign {
        Sign::Unsigned => "MULXU",
        Sign::Signed => "MULXS",
    }
}

pub fn divide_name(sign: Sign) -> &'static str
    ensures { result.now ≡ divide_name sign }
{
    match sign {
        Sign::Unsigned => "DIVXU",
        Sign::Signed => "DIVXS",
    }
}

pub fn take_name(take: Take) -> &'static str
    ensures { result.now ≡ take_name take }
{
    match take {
        Take::Btst => "BTST ",
        Take::Bor => "BOR ",
        Take::Bior => "BIOR ",
        Take::Bxor => "BXOR ",
        Take::Bixor => "BIXOR ",
        Take::Band => "BAND ",
        Take::Biand => "BIAND ",
        Take::Bld => "BLD ",
        Take::Bild => "BILD ",
    }
}

pub fn give_name(give: Give) -> &'static str
    ensures { result.now ≡ give_name give }
{
    match give {
        Give::Bset => "BSET ",
        Give::Bnot => "BNOT ",
        Give::Bclr => "BCLR ",
        Give::Bst => "BST ",
        Give::Bist => "BIST ",
    }
}

pub fn adds_name(way: Way) -> &'static str
    ensures { result.now ≡ adds_name way }
{
    match way {
        Way::Up => "ADDS ",
        Way::Down => "SUBS ",
    }
}

pub fn decimal_name(way: Way) -> &'static str
    ensures { result.now ≡ decimal_name way }
{
    match way {
        Way::Up => "DAA ",
        Way::Down => "DAS ",
    }
}

pub fn turn_name(turn: Turn) -> &'static str
    ensures { result.now ≡ turn_name turn }
{
    match turn {
        Turn::Shll => "SHLL",
        Turn::Shlr => "SHLR",
        Turn::Rotxl => "ROTXL",
        Turn::Rotxr => "ROTXR",
        Turn::Shal => "SHAL",
        Turn::Shar => "SHAR",
        Turn::Rotl => "ROTL",
        Turn::Rotr => "ROTR",
    }
}

pub fn single_name(single: Single) -> &'static str
    ensures { result.now ≡ single_name single }
{
    match single {
        Single::Not => "NOT",
        Single::Neg => "NEG",
        Single::Extu => "EXTU",
        Single::Exts => "EXTS",
    }
}

pub fn change_name(change: Change) -> &'static str
    ensures { result.now ≡ change_name change }
{
    match change {
        Change::Orc => "ORC ",
        Change::Xorc => "XORC ",
        Change::Andc => "ANDC ",
        Change::Ldc => "LDC.B ",
    }
}

pub fn by(by: By) -> &'static str
    ensures { result.now ≡ by_of by }
{
    match by {
        By::One => "#1,",
        By::Two => "#2,",
        By::Four => "#4,",
    }
}

const BRANCHES: [[u8; 3]; 16] = [
    *b"BRA", *b"BRN", *b"BHI", *b"BLS", *b"BCC", *b"BCS", *b"BNE", *b"BEQ", *b"BVC", *b"BVS",
    *b"BPL", *b"BMI", *b"BGE", *b"BLT", *b"BGT", *b"BLE",
];

// The name of a branch by the digit of its condition.
pub fn branch_name(l: &mut Line, c: u8)
    ensures { l.new ≡ added l.old (branch_name c) }
{
    l.bytes(&BRANCHES[(c % 16) as usize]);
}
