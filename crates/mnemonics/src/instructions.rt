// An instruction as the maker's assembler writes it.
ghost use Rattle.std.specs.Prelude.{◌≡◌, ◌++◌};
ghost use Rattle.flow.specs.Targets.{target_of};
ghost use Rattle.text.specs.Lines.{added, ascii};
ghost use Rattle.mnemonics.specs.Names.{mark_of, reg_of, byte_reg};
ghost use Rattle.mnemonics.specs.Operands.{reach_of, target_text};
ghost use Rattle.mnemonics.specs.Instructions.{ldc_text, ccr_text, alu_text, count_text, adds_text, product_text, bit_text, move_text, bcc_text, text_of};

use crate::{names, operands};
use arith::Width;
use codes::{By, Change, Dir, Index, Instruction, Op, Place, Reach, Source, Spot, Target, Way};
use products::Half;
use text::Line;

// A name and a register by its byte.
fn on_byte(l: &mut Line, name: &str, d: u8)
    ensures { l.new ≡ added l.old (name.now ++ byte_reg d) }
{
    l.text(name);
    names::byte_reg(l, d);
}

fn ldc(l: &mut Line, d: u8)
    ensures { l.new ≡ added l.old (ldc_text d) }
{
    on_byte(l, "LDC.B ", d);
    l.text(",CCR");
}

fn ccr(l: &mut Line, change: Change, x: u8)
    ensures { l.new ≡ added l.old (ccr_text change x) }
{
    l.text(names::change_name(change));
    operands::immediate(l, Width::Byte, u32::from(x));
    l.text(",CCR");
}

fn alu(l: &mut Line, op: Op, w: Width, s: Source, d: u8)
    ensures { l.new ≡ added l.old (alu_text op w s d) }
{
    l.text(names::op_name(op));
    l.text(names::op_mark(op, w));
    l.byte(b' ');
    operands::source(l, w, s);
    l.byte(b',');
    names::reg(l, w, d);
}

// A name with its size.
fn sized(l: &mut Line, name: &str, w: Width)
    ensures { l.new ≡ added l.old (name.now ++ (mark_of w ++ ascii " ")) }
{
    l.text(name);
    l.text(names::mark(w));
    l.byte(b' ');
}

fn count(l: &mut Line, way: Way, w: Width, by: By, d: u8)
    ensures { l.new ≡ added l.old (count_text way w by d) }
{
    sized(l, names::way_name(way), w);
    l.text(operands::count(w, by));
    names::reg(l, w, d);
}

fn adds(l: &mut Line, way: Way, by: By, d: u8)
    ensures { l.new ≡ added l.old (adds_text way by d) }
{
    l.text(names::adds_name(way));
    l.text(names::by(by));
    names::long_reg(l, d);
}

// Shifts, and what changes a register by itself.
fn alone(l: &mut Line, name: &str, w: Width, d: u8)
    ensures { l.new ≡ added l.old (name.now ++ (mark_of w ++ (ascii " " ++ reg_of w d))) }
{
    sized(l, name, w);
    names::reg(l, w, d);
}

// A product or a quotient: its size, the source and the destination.
fn product(l: &mut Line, name: &str, h: Half, s: u8, d: u8)
    ensures { l.new ≡ added l.old (name.now ++ product_text h s d) }
{
    let w = products::factor_width(h);
    sized(l, name, w);
    names::reg(l, w, s);
    l.byte(b',');
    names::reg(l, products::product_width(h), d);
}

// A bit instruction: the bit's number and its byte.
fn bit(l: &mut Line, name: &str, index: Index, spot: Spot)
    ensures { l.new ≡ added l.old (name.now ++ bit_text index spot) }
{
    l.text(name);
    operands::index(l, index);
    l.byte(b',');
    operands::spot(l, spot);
}

fn moved(l: &mut Line, dir: Dir, w: Width, p: Place, d: u8)
    ensures { l.new ≡ added l.old (move_text dir w p d) }
{
    sized(l, names::op_name(Op::Mov), w);
    match dir {
        Dir::Load => {
            operands::place(l, dir, p);
            l.byte(b',');
            names::reg(l, w, d);
        }
        Dir::Store => {
            names::reg(l, w, d);
            l.byte(b',');
            operands::place(l, dir, p);
        }
    }
}

fn bcc(l: &mut Line, next: u32, c: u8, reach: Reach)
    ensures { l.new ≡ added l.old (bcc_text next c reach) }
{
    names::branch_name(l, c);
    branch(l, " ", next, reach);
}

fn branch(l: &mut Line, name: &str, next: u32, reach: Reach)
    ensures { l.new ≡ added l.old (name.now ++ reach_of (target_of next reach) reach) }
{
    l.text(name);
    operands::reach(l, next, reach);
}

fn jump(l: &mut Line, name: &str, to: Target)
    ensures { l.new ≡ added l.old (name.now ++ target_text to) }
{
    l.text(name);
    operands::target(l, to);
}

// An instruction; the one after it is at `next`, from which branches count.
pub fn instruction(l: &mut Line, next: u32, i: Instruction)
    ensures { l.new ≡ added l.old (text_of next i) }
{
    match i {
        Instruction::Nop => l.text("NOP"),
        Instruction::Stc(d) => on_byte(l, "STC.B CCR,", d),
        Instruction::LdcReg(d) => ldc(l, d),
        Instruction::Ccr(change, x) => ccr(l, change, x),
        Instruction::Alu(op, w, s, d) => alu(l, op, w, s, d),
        Instruction::IncDec(way, w, by, d) => count(l, way, w, by, d),
        Instruction::AddsSubs(way, by, d) => adds(l, way, by, d),
        Instruction::Decimal(way, d) => on_byte(l, names::decimal_name(way), d),
        Instruction::Shift(turn, w, d) => alone(l, names::turn_name(turn), w, d),
        Instruction::Unary(single, w, d) => alone(l, names::single_name(single), w, d),
        Instruction::Multiply(sign, h, s, d) => product(l, names::multiply_name(sign), h, s, d),
        Instruction::Divide(sign, h, s, d) => product(l, names::divide_name(sign), h, s, d),
        Instruction::Takes(op, index, spot) => bit(l, names::take_name(op), index, spot),
        Instruction::Gives(op, index, spot) => bit(l, names::give_name(op), index, spot),
        Instruction::Move(dir, w, p, d) => moved(l, dir, w, p, d),
        Instruction::Bcc(c, reach) => bcc(l, next, c, reach),
        Instruction::Jmp(to) => jump(l, "JMP ", to),
        Instruction::Bsr(reach) => branch(l, "BSR ", next, reach),
        Instruction::Jsr(to) => jump(l, "JSR ", to),
        Instruction::Rts => l.text("RTS"),
    }
}
