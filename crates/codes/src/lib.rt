// An instruction: a choice among document 01's groups, each with its own operand choice. A register is a digit of the code.
#![tactic(auto)]

ghost use Rattle.std.specs.Borrow.{Bor};
ghost use Rattle.std.specs.Prelude.{◌≡◌};
ghost use Rattle.codes.specs.declared.Instruction.TheVariants.{Takes, Gives};
ghost use Rattle.codes.specs.States.{long_states, reg_states, imm_states, alu_states, short_move_states, long_move_states, move_states, bcc_states, jmp_states, bsr_states, jsr_states, product_states, read_bit_states, written_bit_states, states_of};

use arith::Width;
use products::Half;

mod choices;

// ADD to AND, with a register or the code itself as the source.
#[derive(Clone, Copy, Debug, PartialEq, Eq)]
pub enum Op {
    Add,
    Sub,
    Cmp,
    Mov,
    Addx,
    Subx,
    Or,
    Xor,
    And,
}

#[derive(Clone, Copy, Debug, PartialEq, Eq)]
pub enum Source {
    Reg(u8),
    Imm(u32),
}

// INC or DEC, ADDS or SUBS, DAA or DAS.
#[derive(Clone, Copy, Debug, PartialEq, Eq)]
pub enum Way {
    Up,
    Down,
}

#[derive(Clone, Copy, Debug, PartialEq, Eq)]
pub enum By {
    One,
    Two,
    Four,
}

#[derive(Clone, Copy, Debug, PartialEq, Eq)]
pub enum Turn {
    Shll,
    Shlr,
    Rotxl,
    Rotxr,
    Shal,
    Shar,
    Rotl,
    Rotr,
}

#[derive(Clone, Copy, Debug, PartialEq, Eq)]
pub enum Single {
    Not,
    Neg,
    Extu,
    Exts,
}

// MULXU and DIVXU, or MULXS and DIVXS.
#[derive(Clone, Copy, Debug, PartialEq, Eq)]
pub enum Sign {
    Unsigned,
    Signed,
}

// A bit instruction that reads its bit: BTST sets Z by it, the others C.
#[derive(Clone, Copy, Debug, PartialEq, Eq)]
pub enum Take {
    Btst,
    Bor,
    Bior,
    Bxor,
    Bixor,
    Band,
    Biand,
    Bld,
    Bild,
}

// One that writes its bit.
#[derive(Clone, Copy, Debug, PartialEq, Eq)]
pub enum Give {
    Bset,
    Bnot,
    Bclr,
    Bst,
    Bist,
}

// What a bit instruction does with its bit, `Take` or `Give`: with the bit's number and its byte it is the instruction.
pub trait Bit: Copy {
    ghost use Rattle.codes.specs.declared.Index.{Index};
    ghost use Rattle.codes.specs.declared.Spot.{Spot};
    ghost use Rattle.codes.specs.declared.Instruction.{Instruction};

    ghost instruction: { Self → Index → Spot → Instruction };

    fn at(self, index: Index, spot: Spot) -> Instruction
        ensures { result ≡ instruction self index spot };
}

impl Bit for Take {
    ghost instruction = { Takes };

    fn at(self, index: Index, spot: Spot) -> Instruction {
        Instruction::Takes(self, index, spot)
    }
}

impl Bit for Give {
    ghost instruction = { Gives };

    fn at(self, index: Index, spot: Spot) -> Instruction {
        Instruction::Gives(self, index, spot)
    }
}

// A bit's number: in the code, or in a byte register.
#[derive(Clone, Copy, Debug, PartialEq, Eq)]
pub enum Index {
    Numbered(u8),
    ByPart(u8),
}

// The byte that a bit is in: a byte register, or memory at @ER or aa:8.
#[derive(Clone, Copy, Debug, PartialEq, Eq)]
pub enum Spot {
    InPart(u8),
    AtEr(u8),
    AtAbs(u8),
}

// What is done to the condition byte with an immediate byte.
#[derive(Clone, Copy, Debug, PartialEq, Eq)]
pub enum Change {
    Orc,
    Xorc,
    Andc,
    Ldc,
}

#[derive(Clone, Copy, Debug, PartialEq, Eq)]
pub enum Dir {
    Load,
    Store,
}

// An operand in memory: @ER; @ER+ of a load and @-ER of a store; @(d:16,ER); aa:8, aa:16 and aa:24.
#[derive(Clone, Copy, Debug, PartialEq, Eq)]
pub enum Place {
    At(u8),
    Step(u8),
    Disp(u8, u16),
    Abs8(u8),
    Abs16(u16),
    Abs24(u32),
}

// A displacement of a branch, by its bits: d:8 or d:16.
#[derive(Clone, Copy, Debug, PartialEq, Eq)]
pub enum Reach {
    Near(u8),
    Far(u16),
}

// Where JMP and JSR go: @ER, aa:24, @@aa:8.
#[derive(Clone, Copy, Debug, PartialEq, Eq)]
pub enum Target {
    ByReg(u8),
    Direct(u32),
    Vector(u8),
}

#[derive(Clone, Copy, Debug, PartialEq, Eq)]
pub enum Instruction {
    Nop,
    // STC CCR,Rd and LDC Rs,CCR
    Stc(u8),
    LdcReg(u8),
    Ccr(Change, u8),
    Alu(Op, Width, Source, u8),
    IncDec(Way, Width, By, u8),
    AddsSubs(Way, By, u8),
    Decimal(Way, u8),
    Shift(Turn, Width, u8),
    Unary(Single, Width, u8),
    // the source, then the destination
    Multiply(Sign, Half, u8, u8),
    Divide(Sign, Half, u8, u8),
    Takes(Take, Index, Spot),
    Gives(Give, Index, Spot),
    Move(Dir, Width, Place, u8),
    // the condition's digit, and where to
    Bcc(u8, Reach),
    Jmp(Target),
    Bsr(Reach),
    Jsr(Target),
    Rts,
}

// Where an instruction lets PC go, apart from what it does.
#[derive(Clone, Copy, Debug, PartialEq, Eq)]
pub enum Goes {
    Onward,
    Branches(u8, Reach),
    Jumps(Target),
    CallsNear(Reach),
    Calls(Target),
    Returns,
}

fn long_states(op: Op) -> u32
    ensures { result ≡ long_states op }
{
    match op {
        Op::Add | Op::Sub | Op::Cmp | Op::Mov | Op::Addx | Op::Subx => 2,
        Op::Or | Op::Xor | Op::And => 4,
    }
}

fn reg_states(op: Op, w: Width) -> u32
    ensures { result ≡ reg_states op w }
{
    match w {
        Width::Byte | Width::Word => 2,
        Width::Long => long_states(op),
    }
}

fn imm_states(w: Width) -> u32
    ensures { result ≡ imm_states w }
{
    match w {
        Width::Byte => 2,
        Width::Word => 4,
        Width::Long => 6,
    }
}

pub fn alu_states(op: Op, w: Width, source: Source) -> u32
    ensures { result ≡ alu_states op w source }
{
    match source {
        Source::Reg(_) => reg_states(op, w),
        Source::Imm(_) => imm_states(w),
    }
}

fn short_move_states(p: Place) -> u32
    ensures { result ≡ short_move_states p }
{
    match p {
        Place::At(_) | Place::Abs8(_) => 4,
        Place::Step(_) | Place::Disp(_, _) | Place::Abs16(_) => 6,
        Place::Abs24(_) => 8,
    }
}

fn long_move_states(p: Place) -> u32
    ensures { result ≡ long_move_states p }
{
    match p {
        Place::At(_) | Place::Abs8(_) => 8,
        Place::Step(_) | Place::Disp(_, _) | Place::Abs16(_) => 10,
        Place::Abs24(_) => 12,
    }
}

pub fn move_states(w: Width, p: Place) -> u32
    ensures { result ≡ move_states w p }
{
    match w {
        Width::Byte | Width::Word => short_move_states(p),
        Width::Long => long_move_states(p),
    }
}

pub fn bcc_states(reach: Reach) -> u32
    ensures { result ≡ bcc_states reach }
{
    match reach {
        Reach::Near(_) => 4,
        Reach::Far(_) => 6,
    }
}

pub fn jmp_states(target: Target) -> u32
    ensures { result ≡ jmp_states target }
{
    match target {
        Target::ByReg(_) => 4,
        Target::Direct(_) => 6,
        Target::Vector(_) => 10,
    }
}

pub fn bsr_states(reach: Reach) -> u32
    ensures { result ≡ bsr_states reach }
{
    match reach {
        Reach::Near(_) => 8,
        Reach::Far(_) => 10,
    }
}

pub fn jsr_states(target: Target) -> u32
    ensures { result ≡ jsr_states target }
{
    match target {
        Target::ByReg(_) => 8,
        Target::Direct(_) => 10,
        Target::Vector(_) => 12,
    }
}

pub fn product_states(sign: Sign, h: Half) -> u32
    ensures { result ≡ product_states sign h }
{
    match (sign, h) {
        (Sign::Unsigned, Half::Eight) => 14,
        (Sign::Unsigned, Half::Sixteen) => 22,
        (Sign::Signed, Half::Eight) => 16,
        (Sign::Signed, Half::Sixteen) => 24,
    }
}

pub fn read_bit_states(spot: Spot) -> u32
    ensures { result ≡ read_bit_states spot }
{
    match spot {
        Spot::InPart(_) => 2,
        Spot::AtEr(_) | Spot::AtAbs(_) => 6,
    }
}

pub fn written_bit_states(spot: Spot) -> u32
    ensures { result ≡ written_bit_states spot }
{
    match spot {
        Spot::InPart(_) => 2,
        Spot::AtEr(_) | Spot::AtAbs(_) => 8,
    }
}

// The states of an instruction, all memory on chip.
pub fn states(i: Instruction) -> u32
    ensures { result ≡ states_of i }
{
    match i {
        Instruction::Alu(op, w, source, _) => alu_states(op, w, source),
        Instruction::Multiply(sign, h, _, _) | Instruction::Divide(sign, h, _, _) => product_states(
            sign, h,
        ),
        Instruction::Takes(_, _, spot) => read_bit_states(spot),
        Instruction::Gives(_, _, spot) => written_bit_states(spot),
        Instruction::Move(_, w, p, _) => move_states(w, p),
        Instruction::Bcc(_, reach) => bcc_states(reach),
        Instruction::Jmp(target) => jmp_states(target),
        Instruction::Bsr(reach) => bsr_states(reach),
        Instruction::Jsr(target) => jsr_states(target),
        Instruction::Rts => 10,
        _ => 2,
    }
}
