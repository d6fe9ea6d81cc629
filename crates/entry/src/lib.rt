// An instruction as one number: kind * 16 + variant + 512 * operands. What the number means is in specs/Entry.
#![tactic(auto)]

ghost use Rattle.std.specs.Prelude.{◌≡◌};
ghost use Rattle.entry.specs.Entry.{pack_of, unheld_entry};

use codes::Instruction;

mod forms;
mod numbers;

// No code at a place: refusal 4.
pub const CUT: u64 = 159;

// Refusal 15 with its group, or 3 where that is 0.
pub fn unheld(group: u8) -> u64
    ensures { result ≡ unheld_entry group }
{
    forms::build(9, 14, group as u64)
}

// The entry of an instruction. One that is not valid has an entry too, of no meaning.
#[tactic(auto, unfolding(crate::specs::Entry::pack_of))]
pub fn pack(i: Instruction) -> u64
    ensures { result ≡ pack_of i }
{
    match i {
        Instruction::Nop => forms::build(9, 0, 0),
        Instruction::Stc(d) => forms::build(9, 1, d as u64),
        Instruction::LdcReg(s) => forms::build(9, 2, s as u64),
        Instruction::Ccr(change, v) => forms::build(9, numbers::change_number(change), v as u64),
        Instruction::Alu(op, w, source, d) => forms::alu_entry(op, w, source, d),
        Instruction::IncDec(way, w, by, d) => forms::build(
            6,
            numbers::count_number(w, by) + numbers::way_number(way),
            d as u64,
        ),
        Instruction::AddsSubs(way, by, e) => forms::build(
            6,
            numbers::by_number(by) + numbers::way_number(way),
            e as u64,
        ),
        Instruction::Decimal(way, d) => forms::build(9, 11 + numbers::way_number(way), d as u64),
        Instruction::Shift(turn, w, d) => forms::shift_entry(turn, w, d),
        Instruction::Unary(single, w, d) => forms::unary_entry(single, w, d),
        Instruction::Multiply(sign, h, s, d) => forms::build(
            15,
            numbers::product_number(sign, h),
            forms::factors_of(h, s, d),
        ),
        Instruction::Divide(sign, h, s, d) => forms::build(
            15,
            numbers::product_number(sign, h) + 4,
            forms::factors_of(h, s, d),
        ),
        Instruction::Takes(take, index, spot) => forms::bit_entry(16, take as u8, index, spot),
        Instruction::Gives(give, index, spot) => forms::bit_entry(17, give as u8, index, spot),
        Instruction::Move(dir, w, p, r) => forms::move_entry(dir, w, p, r),
        Instruction::Bcc(c, reach) => forms::bcc_entry(c, reach),
        Instruction::Jmp(target) => forms::target_entry(0, target),
        Instruction::Bsr(reach) => forms::bsr_entry(reach),
        Instruction::Jsr(target) => forms::target_entry(5, target),
        Instruction::Rts => forms::build(9, 13, 0),
    }
}
