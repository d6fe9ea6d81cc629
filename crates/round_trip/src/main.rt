// Decodes every word with zeros after it, encodes what was found and compares the bytes; then hands `encode` what it must refuse.
#![tactic(auto)]

use arith::Width;
use codes::{Dir, Give, Index, Instruction, Op, Place, Reach, Sign, Source, Spot, Take, Target};
use products::Half;
use refusal::Refusal;
use std::io;

// Whether encoding gives back the code that the bytes begin with, and leaves what is behind it; none where they begin no code.
fn given_back(bytes: [u8; 8]) -> Option<bool> {
    let (instruction, length) = decoder::decode(&bytes).ok()?;
    let mut out = [0xFF; 8];
    let written = encoder::encode(instruction, &mut out);
    let kept = out.iter().skip(length).all(|&byte| byte == 0xFF);
    Some(written == Ok(length) && out.get(..length) == bytes.get(..length) && kept)
}

// How many of all words, each put where `placed` puts it, are a code that comes back the same, or one that does not.
fn count<F: Fn(u16) -> [u8; 8]>(placed: F, same: bool) -> usize
    requires { F.IsAlwaysCallable placed }
{
    (0..=u16::MAX)
        .filter(|&word| given_back(placed(word)) == Some(same))
        .count()
}

fn show<F: Fn(u16) -> [u8; 8]>(rt: &impl Print, placed: F) -> io::Result<()>
    requires { F.IsAlwaysCallable placed }
{
    let same = count(&placed, true);
    let other = count(&placed, false);
    println!(rt; " that encoding gives back: {same}")?;
    println!(rt; "and that it does not: {other}")
}

fn words(rt: &impl Print) -> io::Result<()> {
    print!(rt; "first words")?;
    show(rt, |word| {
        let [a, b] = word.to_be_bytes();
        [a, b, 0, 0, 0, 0, 0, 0]
    })?;
    for first in [
        0x0100u16, 0x01C0, 0x01D0, 0x01F0, 0x7C00, 0x7D00, 0x7E00, 0x7F00,
    ] {
        print!(rt; "second words after {first:04X}")?;
        let [a, b] = first.to_be_bytes();
        show(rt, |word| {
            let [c, d] = word.to_be_bytes();
            [a, b, c, d, 0, 0, 0, 0]
        })?;
    }
    Ok(())
}

// Operations that have no such form.
const NO_FORM: [(&str, Instruction); 5] = [
    (
        "ADDX of words",
        Instruction::Alu(Op::Addx, Width::Word, Source::Reg(0), 0),
    ),
    (
        "SUB of an immediate byte",
        Instruction::Alu(Op::Sub, Width::Byte, Source::Imm(1), 0),
    ),
    (
        "MOV.W at aa:8",
        Instruction::Move(Dir::Load, Width::Word, Place::Abs8(0), 0),
    ),
    (
        "BLD by a register's number",
        Instruction::Takes(Take::Bld, Index::ByPart(0), Spot::InPart(0)),
    ),
    (
        "BIST by a register's number",
        Instruction::Gives(Give::Bist, Index::ByPart(0), Spot::AtEr(0)),
    ),
];

// Numbers that are out of range.
const NO_NUMBER: [(&str, Instruction); 9] = [
    ("STC to register digit 200", Instruction::Stc(200)),
    (
        "an immediate byte of 256",
        Instruction::Alu(Op::Add, Width::Byte, Source::Imm(256), 0),
    ),
    (
        "MULXU.W to register digit 8",
        Instruction::Multiply(Sign::Unsigned, Half::Sixteen, 0, 8),
    ),
    (
        "DIVXS.B by register digit 16",
        Instruction::Divide(Sign::Signed, Half::Eight, 16, 0),
    ),
    (
        "MOV.L of register digit 8",
        Instruction::Move(Dir::Load, Width::Long, Place::At(0), 8),
    ),
    (
        "BSET of bit 8",
        Instruction::Gives(Give::Bset, Index::Numbered(8), Spot::InPart(0)),
    ),
    (
        "BTST at ER8",
        Instruction::Takes(Take::Btst, Index::Numbered(0), Spot::AtEr(8)),
    ),
    (
        "JMP over 24 bits",
        Instruction::Jmp(Target::Direct(0x1000000)),
    ),
    (
        "Bcc with condition 16",
        Instruction::Bcc(16, Reach::Near(0)),
    ),
];

// With room enough; 0 where an instruction is encoded.
fn show_refusals(rt: &impl Print, cases: &[(&str, Instruction)]) -> io::Result<()> {
    for &(name, instruction) in cases {
        let refused = encoder::encode(instruction, &mut [0; 8]).err();
        println!(rt; "{name}: {}", refused.map_or(0, Refusal::number))?;
    }
    Ok(())
}

fn main(rt: HostRuntime) -> io::Result<()> {
    words(&rt)?;
    show_refusals(&rt, &NO_FORM)?;
    show_refusals(&rt, &NO_NUMBER)?;
    let long = Instruction::Move(Dir::Load, Width::Long, Place::Abs24(0), 0);
    let refused = encoder::encode(long, &mut [0; 7]).err();
    println!(rt;
        "eight bytes into seven: {}",
        refused.map_or(0, Refusal::number)
    )?;
    println!(rt;
        "and the needed length: {}",
        refused.map_or(0, Refusal::place)
    )
}
