// An instruction as the first seven numbers of host/h8.h's table, and the instruction that seven numbers name.
ghost use Rattle.std.specs.Prelude.{◌≡◌, ◌%◌};
ghost use Rattle.layout.specs.Rows.{operand, no_operand, source_row, by_row, value_row, place_row, reach_row, target_row, row, product_row, bit_row, row_of};
ghost use Rattle.layout.specs.MirrorRows.{width_at, half_at, source_at, place_at, reach_at, target_at, index_at, spot_at, read_row, named_of};

use crate::choices;
use arith::Width;
use codes::{By, Index, Instruction, Place, Reach, Sign, Source, Spot, Target};
use products::Half;
use refusal::Refusal;

// FORM, OTHER and VALUE.
#[derive(Clone, Copy, Debug, PartialEq, Eq)]
pub struct Operand {
    pub form: u32,
    pub other: u32,
    pub value: u32,
}

// Numbers and not enums, since a C program lends them (host/h8.h).
#[derive(Clone, Copy, Debug, PartialEq, Eq)]
pub struct Row {
    pub kind: u32,
    pub which: u32,
    pub width: u32,
    pub operand: Operand,
    pub reg: u32,
}

impl Operand {
    fn new(form: u32, other: u32, value: u32) -> Operand
        ensures { result ≡ operand form other value }
    {
        Operand { form, other, value }
    }
}

impl From<Source> for Operand {
    ghost from_gives = { λ source o. o ≡ source_row source };

    fn from(source: Source) -> Operand {
        match source {
            Source::Reg(s) => Operand::new(0, s as u32, 0),
            Source::Imm(v) => Operand::new(1, 0, v),
        }
    }
}

impl From<By> for Operand {
    ghost from_gives = { λ by o. o ≡ by_row by };

    fn from(by: By) -> Operand {
        Operand::new(choices::by_number(by), 0, 0)
    }
}

// The operand of ORC, XORC, ANDC and LDC.
impl From<u8> for Operand {
    ghost from_gives = { λ v o. o ≡ value_row v };

    fn from(v: u8) -> Operand {
        Operand::new(0, 0, v as u32)
    }
}

impl From<Place> for Operand {
    ghost from_gives = { λ p o. o ≡ place_row p };

    fn from(p: Place) -> Operand {
        match p {
            Place::At(e) => Operand::new(0, e as u32, 0),
            Place::Step(e) => Operand::new(1, e as u32, 0),
            Place::Disp(e, d) => Operand::new(2, e as u32, d as u32),
            Place::Abs8(a) => Operand::new(3, 0, a as u32),
            Place::Abs16(a) => Operand::new(4, 0, a as u32),
            Place::Abs24(a) => Operand::new(5, 0, a),
        }
    }
}

impl From<Reach> for Operand {
    ghost from_gives = { λ reach o. o ≡ reach_row reach };

    fn from(reach: Reach) -> Operand {
        match reach {
            Reach::Near(d) => Operand::new(0, 0, d as u32),
            Reach::Far(d) => Operand::new(1, 0, d as u32),
        }
    }
}

impl From<Target> for Operand {
    ghost from_gives = { λ target o. o ≡ target_row target };

    fn from(target: Target) -> Operand {
        match target {
            Target::ByReg(e) => Operand::new(0, e as u32, 0),
            Target::Direct(a) => Operand::new(1, 0, a),
            Target::Vector(a) => Operand::new(2, 0, a as u32),
        }
    }
}

fn made(kind: u32, which: u32, width: u32, operand: Operand, reg: u8) -> Row
    ensures { result ≡ row kind which width operand reg }
{
    Row {
        kind,
        which,
        width,
        operand,
        reg: reg as u32,
    }
}

// Without an operand.
fn bare(kind: u32, which: u32, width: u32, reg: u8) -> Row
    ensures { result ≡ row kind which width no_operand reg }
{
    made(kind, which, width, Operand::new(0, 0, 0), reg)
}

// MULXU, MULXS, DIVXU and DIVXS: the width is that of the source.
fn product_row(kind: u32, sign: Sign, h: Half, s: u8, d: u8) -> Row
    ensures { result ≡ product_row kind sign h s d }
{
    made(
        kind,
        choices::sign_number(sign),
        choices::width_number(products::factor_width(h)),
        Source::Reg(s).into(),
        d,
    )
}

// The bit instructions: the width is the form of the bit's number.
fn bit_row(kind: u32, which: u32, index: Index, spot: Spot) -> Row
    ensures { result ≡ bit_row kind which index spot }
{
    let (width, other) = match index {
        Index::Numbered(n) => (0, n),
        Index::ByPart(r) => (1, r),
    };
    let (form, value, reg) = match spot {
        Spot::InPart(d) => (0, 0, d),
        Spot::AtEr(e) => (1, 0, e),
        Spot::AtAbs(a) => (2, a, 0),
    };
    made(
        kind,
        which,
        width,
        Operand::new(form, other as u32, value as u32),
        reg,
    )
}

#[tactic(auto, unfolding(crate::specs::Rows::row_of))]
pub fn row_of(i: Instruction) -> Row
    ensures { result ≡ row_of i }
{
    match i {
        Instruction::Nop => bare(0, 0, 0, 0),
        Instruction::Stc(d) => bare(1, 0, 0, d),
        Instruction::LdcReg(s) => bare(2, 0, 0, s),
        Instruction::Ccr(change, v) => made(3, choices::change_number(change), 0, v.into(), 0),
        Instruction::Alu(op, w, source, d) => made(
            4,
            choices::op_number(op),
            choices::width_number(w),
            source.into(),
            d,
        ),
        Instruction::IncDec(way, w, by, d) => made(
            5,
            choices::way_number(way),
            choices::width_number(w),
            by.into(),
            d,
        ),
        Instruction::AddsSubs(way, by, d) => made(6, choices::way_number(way), 0, by.into(), d),
        Instruction::Decimal(way, d) => bare(7, choices::way_number(way), 0, d),
        Instruction::Shift(turn, w, d) => bare(
            8,
            choices::turn_number(turn),
            choices::width_number(w),
            d,
        ),
        Instruction::Unary(single, w, d) => bare(
            9,
            choices::single_number(single),
            choices::width_number(w),
            d,
        ),
        Instruction::Move(dir, w, p, r) => made(
            10,
            choices::dir_number(dir),
            choices::width_number(w),
            p.into(),
            r,
        ),
        Instruction::Bcc(c, reach) => made(11, c as u32, 0, reach.into(), 0),
        Instruction::Jmp(target) => made(12, 0, 0, target.into(), 0),
        Instruction::Bsr(reach) => made(13, 0, 0, reach.into(), 0),
        Instruction::Jsr(target) => made(14, 0, 0, target.into(), 0),
        Instruction::Rts => bare(15, 0, 0, 0),
        Instruction::Multiply(sign, h, s, d) => product_row(16, sign, h, s, d),
        Instruction::Divide(sign, h, s, d) => product_row(17, sign, h, s, d),
        Instruction::Takes(take, index, spot) => bit_row(
            18,
            choices::take_number(take),
            index,
            spot,
        ),
        Instruction::Gives(give, index, spot) => bit_row(
            19,
            choices::give_number(give),
            index,
            spot,
        ),
    }
}

pub fn low8(x: u32) -> u8
    ensures { result ≡ x % 256 }
{
    (x % 256) as u8
}

fn low16(x: u32) -> u16
    ensures { result ≡ x % 65536 }
{
    (x % 65536) as u16
}

// `arith`, where the widths stand, knows no refusals.
pub(crate) fn width_at(n: u32) -> Result<Width, Refusal>
    ensures { result ≡ width_at n }
{
    match n {
        0 => Ok(Width::Byte),
        1 => Ok(Width::Word),
        2 => Ok(Width::Long),
        _ => Err(Refusal::NotInstruction),
    }
}

// By the width of a factor and a divisor.
pub(crate) fn half_at(n: u32) -> Result<Half, Refusal>
    ensures { result ≡ half_at n }
{
    match n {
        0 => Ok(Half::Eight),
        1 => Ok(Half::Sixteen),
        _ => Err(Refusal::NotInstruction),
    }
}

// What is too large for its place is cut off, and a number that a form does not use is not looked at: whoever reads compares.

impl TryFrom<Operand> for Source {
    type Error = Refusal;

    ghost try_from_gives = { λ o r. r ≡ source_at o };

    fn try_from(o: Operand) -> Result<Source, Refusal> {
        match o.form {
            0 => Ok(Source::Reg(low8(o.other))),
            1 => Ok(Source::Imm(o.value)),
            _ => Err(Refusal::NotInstruction),
        }
    }
}

impl TryFrom<Operand> for Place {
    type Error = Refusal;

    ghost try_from_gives = { λ o r. r ≡ place_at o };

    fn try_from(o: Operand) -> Result<Place, Refusal> {
        match o.form {
            0 => Ok(Place::At(low8(o.other))),
            1 => Ok(Place::Step(low8(o.other))),
            2 => Ok(Place::Disp(low8(o.other), low16(o.value))),
            3 => Ok(Place::Abs8(low8(o.value))),
            4 => Ok(Place::Abs16(low16(o.value))),
            5 => Ok(Place::Abs24(o.value)),
            _ => Err(Refusal::NotInstruction),
        }
    }
}

impl TryFrom<Operand> for Reach {
    type Error = Refusal;

    ghost try_from_gives = { λ o r. r ≡ reach_at o };

    fn try_from(o: Operand) -> Result<Reach, Refusal> {
        match o.form {
            0 => Ok(Reach::Near(low8(o.value))),
            1 => Ok(Reach::Far(low16(o.value))),
            _ => Err(Refusal::NotInstruction),
        }
    }
}

impl TryFrom<Operand> for Target {
    type Error = Refusal;

    ghost try_from_gives = { λ o r. r ≡ target_at o };

    fn try_from(o: Operand) -> Result<Target, Refusal> {
        match o.form {
            0 => Ok(Target::ByReg(low8(o.other))),
            1 => Ok(Target::Direct(o.value)),
            2 => Ok(Target::Vector(low8(o.value))),
            _ => Err(Refusal::NotInstruction),
        }
    }
}

fn index_at(width: u32, other: u32) -> Result<Index, Refusal>
    ensures { result ≡ index_at width other }
{
    match width {
        0 => Ok(Index::Numbered(low8(other))),
        1 => Ok(Index::ByPart(low8(other))),
        _ => Err(Refusal::NotInstruction),
    }
}

fn spot_at(form: u32, value: u32, reg: u32) -> Result<Spot, Refusal>
    ensures { result ≡ spot_at form value reg }
{
    match form {
        0 => Ok(Spot::InPart(low8(reg))),
        1 => Ok(Spot::AtEr(low8(reg))),
        2 => Ok(Spot::AtAbs(low8(value))),
        _ => Err(Refusal::NotInstruction),
    }
}

// The only instruction that can have this row.
#[tactic(auto, unfolding(crate::specs::MirrorRows::read_row))]
fn read_row(f: Row) -> Result<Instruction, Refusal>
    ensures { result ≡ read_row f }
{
    let o = f.operand;
    let d = low8(f.reg);
    match f.kind {
        0 => Ok(Instruction::Nop),
        1 => Ok(Instruction::Stc(d)),
        2 => Ok(Instruction::LdcReg(d)),
        3 => Ok(Instruction::Ccr(f.which.try_into()?, low8(o.value))),
        4 => Ok(Instruction::Alu(f.which.try_into()?, width_at(f.width)?, o.try_into()?, d)),
        5 => Ok(Instruction::IncDec(
            f.which.try_into()?,
            width_at(f.width)?,
            o.form.try_into()?,
            d,
        )),
        6 => Ok(Instruction::AddsSubs(f.which.try_into()?, o.form.try_into()?, d)),
        7 => Ok(Instruction::Decimal(f.which.try_into()?, d)),
        8 => Ok(Instruction::Shift(f.which.try_into()?, width_at(f.width)?, d)),
        9 => Ok(Instruction::Unary(f.which.try_into()?, width_at(f.width)?, d)),
        10 => Ok(Instruction::Move(f.which.try_into()?, width_at(f.width)?, o.try_into()?, d)),
        11 => Ok(Instruction::Bcc(low8(f.which), o.try_into()?)),
        12 => Ok(Instruction::Jmp(o.try_into()?)),
        13 => Ok(Instruction::Bsr(o.try_into()?)),
        14 => Ok(Instruction::Jsr(o.try_into()?)),
        15 => Ok(Instruction::Rts),
        16 => Ok(Instruction::Multiply(f.which.try_into()?, half_at(f.width)?, low8(o.other), d)),
        17 => Ok(Instruction::Divide(f.which.try_into()?, half_at(f.width)?, low8(o.other), d)),
        18 => Ok(Instruction::Takes(
            f.which.try_into()?,
            index_at(f.width, o.other)?,
            spot_at(o.form, o.value, f.reg)?,
        )),
        19 => Ok(Instruction::Gives(
            f.which.try_into()?,
            index_at(f.width, o.other)?,
            spot_at(o.form, o.value, f.reg)?,
        )),
        _ => Err(Refusal::NotInstruction),
    }
}

// The instruction whose row this is: read, and compared with its own row.
#[tactic(auto, unfolding(crate::specs::MirrorRows::named_of))]
pub fn name_of(f: Row) -> Option<Instruction>
    ensures { result ≡ named_of f }
{
    let i = read_row(f).ok()?;
    (f == row_of(i)).then_some(i)
}
