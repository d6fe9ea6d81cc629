// Operands: immediates, operands in memory, targets.
ghost use Rattle.std.specs.Prelude.{◌≡◌, ◌++◌};
ghost use Rattle.flow.specs.Targets.{target_of};
ghost use Rattle.text.specs.Lines.{added, ascii};
ghost use Rattle.mnemonics.specs.Operands.{hex_by, immediate_of, source_of, count_of, address_of, at_reg, step_of, disp_of, extended, abs8_of, place_text, index_text, spot_text, reach_mark, reach_of, vector_of, target_text};

use crate::names;
use arith::Width;
use codes::{By, Dir, Index, Place, Reach, Source, Spot, Target};
use text::Line;

fn hex_by(l: &mut Line, w: Width, x: u32)
    ensures { l.new ≡ added l.old (hex_by w x) }
{
    match w {
        Width::Byte => l.hex(2, true, x),
        Width::Word => l.hex(4, true, x),
        Width::Long => l.hex(8, true, x),
    }
}

pub fn immediate(l: &mut Line, w: Width, x: u32)
    ensures { l.new ≡ added l.old (immediate_of w x) }
{
    l.text("#H'");
    hex_by(l, w, x);
}

pub fn source(l: &mut Line, w: Width, s: Source)
    ensures { l.new ≡ added l.old (source_of w s) }
{
    match s {
        Source::Reg(d) => names::reg(l, w, d),
        Source::Imm(x) => immediate(l, w, x),
    }
}

// The number of INC and DEC, which a byte does not have.
pub fn count(w: Width, by: By) -> &'static str
    ensures { result.now ≡ count_of w by }
{
    match w {
        Width::Byte => "",
        Width::Word | Width::Long => names::by(by),
    }
}

fn address(l: &mut Line, a: u32)
    ensures { l.new ≡ added l.old (address_of a) }
{
    l.text("H'");
    l.hex(6, true, a);
}

fn at_reg(l: &mut Line, e: u8)
    ensures { l.new ≡ added l.old (at_reg e) }
{
    l.byte(b'@');
    names::long_reg(l, e);
}

fn step(l: &mut Line, dir: Dir, e: u8)
    ensures { l.new ≡ added l.old (step_of dir e) }
{
    match dir {
        Dir::Load => {
            at_reg(l, e);
            l.byte(b'+');
        }
        Dir::Store => {
            l.text("@-");
            names::long_reg(l, e);
        }
    }
}

fn disp(l: &mut Line, e: u8, d: u16)
    ensures { l.new ≡ added l.old (disp_of e d) }
{
    l.text("@(");
    l.signed(d);
    l.text(":16,");
    names::long_reg(l, e);
    l.byte(b')');
}

// aa:16 with its sign extended to 24 bits.
#[tactic(auto, unfolding(crate::specs::Operands::extended))]
fn extend(a: u16) -> u32
    ensures { result ≡ extended a }
{
    let x = u32::from(a);
    if a < 0x8000 { x } else { 0xFF0000 + x }
}

// An address, and how much of it the code holds.
fn absolute(l: &mut Line, a: u32, held: &str)
    ensures { l.new ≡ added l.old (ascii "@" ++ (address_of a ++ held.now)) }
{
    l.byte(b'@');
    address(l, a);
    l.text(held);
}

fn abs8(l: &mut Line, a: u8)
    ensures { l.new ≡ added l.old (abs8_of a) }
{
    absolute(l, 0xFFFF00 + u32::from(a), ":8");
}

// An operand in memory.
pub fn place(l: &mut Line, dir: Dir, p: Place)
    ensures { l.new ≡ added l.old (place_text dir p) }
{
    match p {
        Place::At(e) => at_reg(l, e),
        Place::Step(e) => step(l, dir, e),
        Place::Disp(e, d) => disp(l, e, d),
        Place::Abs8(a) => abs8(l, a),
        Place::Abs16(a) => absolute(l, extend(a), ":16"),
        Place::Abs24(a) => absolute(l, a, ":24"),
    }
}

// A bit's number.
pub fn index(l: &mut Line, index: Index)
    ensures { l.new ≡ added l.old (index_text index) }
{
    match index {
        Index::Numbered(n) => {
            l.byte(b'#');
            names::which(l, n);
        }
        Index::ByPart(r) => names::byte_reg(l, r),
    }
}

// The byte that it is in.
pub fn spot(l: &mut Line, spot: Spot)
    ensures { l.new ≡ added l.old (spot_text spot) }
{
    match spot {
        Spot::InPart(d) => names::byte_reg(l, d),
        Spot::AtEr(e) => at_reg(l, e),
        Spot::AtAbs(a) => abs8(l, a),
    }
}

fn reach_mark(reach: Reach) -> &'static str
    ensures { result.now ≡ reach_mark reach }
{
    match reach {
        Reach::Near(_) => ":8",
        Reach::Far(_) => ":16",
    }
}

// The target of a branch whose next instruction is at `next`.
pub fn reach(l: &mut Line, next: u32, by: Reach)
    ensures { l.new ≡ added l.old (reach_of (target_of next by) by) }
{
    address(l, flow::target(next, by));
    l.text(reach_mark(by));
}

fn vector(l: &mut Line, a: u8)
    ensures { l.new ≡ added l.old (vector_of a) }
{
    l.text("@@H'");
    l.hex(2, true, u32::from(a));
    l.text(":8");
}

// Where JMP and JSR go.
pub fn target(l: &mut Line, to: Target)
    ensures { l.new ≡ added l.old (target_text to) }
{
    match to {
        Target::ByReg(e) => at_reg(l, e),
        Target::Direct(a) => absolute(l, a, ":24"),
        Target::Vector(a) => vector(l, a),
    }
}
