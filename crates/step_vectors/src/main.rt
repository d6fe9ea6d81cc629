// A step of every form from three states, every condition, marked examples 1 to 9, refusals 1 to 7 and 14, what is easily missed and
// refusals with a pattern in all registers. A line has the state before, how the step went, which of ER0 to ER7 changed, and the rest
// of the state after; each step is made a second time where the record lies, and a line says so if that does otherwise. `stdout` is
// what bench/step_vectors.c prints, by a model that shares no text with this product.
#![tactic(auto)]

use memory::Board;
use registers::{Condition, Registers};
use std::io;
use step::StepAnswer;

// A code of each form, with what follows it.
const CODES: [u64; 239] = [
    0x0000000000000000, // NOP
    0x0203000000000000, // STC.B CCR,Rd
    0x0303000000000000, // LDC.B Rs,CCR
    0x04B5000000000000, // ORC #xx:8,CCR
    0x057B000000000000, // XORC #xx:8,CCR
    0x066C000000000000, // ANDC #xx:8,CCR
    0x079A000000000000, // LDC.B #xx:8,CCR
    0x0882000000000000, // ADD.B Rs,Rd
    0x095C000000000000, // ADD.W Rs,Rd
    0x0A91000000000000, // ADD.L ERs,ERd
    0x1894000000000000, // SUB.B Rs,Rd
    0x1944000000000000, // SUB.W Rs,Rd
    0x1AC7000000000000, // SUB.L ERs,ERd
    0x1C30000000000000, // CMP.B Rs,Rd
    0x1DB7000000000000, // CMP.W Rs,Rd
    0x1F97000000000000, // CMP.L ERs,ERd
    0x0C1A000000000000, // MOV.B Rs,Rd
    0x0D57000000000000, // MOV.W Rs,Rd
    0x0FA2000000000000, // MOV.L ERs,ERd
    0x0E46000000000000, // ADDX Rs,Rd
    0x1E77000000000000, // SUBX Rs,Rd
    0x149C000000000000, // OR.B Rs,Rd
    0x640A000000000000, // OR.W Rs,Rd
    0x01F0646200000000, // OR.L ERs,ERd
    0x154A000000000000, // XOR.B Rs,Rd
    0x650A000000000000, // XOR.W Rs,Rd
    0x01F0657100000000, // XOR.L ERs,ERd
    0x1679000000000000, // AND.B Rs,Rd
    0x6647000000000000, // AND.W Rs,Rd
    0x01F0660700000000, // AND.L ERs,ERd
    0x0A05000000000000, // INC.B Rd
    0x1A0C000000000000, // DEC.B Rd
    0x0B01000000000000, // ADDS #1,ERd
    0x0B86000000000000, // ADDS #2,ERd
    0x0B96000000000000, // ADDS #4,ERd
    0x0B54000000000000, // INC.W #1,Rd
    0x0BD8000000000000, // INC.W #2,Rd
    0x0B73000000000000, // INC.L #1,ERd
    0x0BF4000000000000, // INC.L #2,ERd
    0x1B02000000000000, // SUBS #1,ERd
    0x1B82000000000000, // SUBS #2,ERd
    0x1B94000000000000, // SUBS #4,ERd
    0x1B51000000000000, // DEC.W #1,Rd
    0x1BD6000000000000, // DEC.W #2,Rd
    0x1B76000000000000, // DEC.L #1,ERd
    0x1BF6000000000000, // DEC.L #2,ERd
    0x0F0A000000000000, // DAA Rd
    0x1F00000000000000, // DAS Rd
    0x100B000000000000, // SHLL.B Rd
    0x101A000000000000, // SHLL.W Rd
    0x1033000000000000, // SHLL.L ERd
    0x1104000000000000, // SHLR.B Rd
    0x1114000000000000, // SHLR.W Rd
    0x1136000000000000, // SHLR.L ERd
    0x1203000000000000, // ROTXL.B Rd
    0x121B000000000000, // ROTXL.W Rd
    0x1234000000000000, // ROTXL.L ERd
    0x130A000000000000, // ROTXR.B Rd
    0x1318000000000000, // ROTXR.W Rd
    0x1331000000000000, // ROTXR.L ERd
    0x108D000000000000, // SHAL.B Rd
    0x1093000000000000, // SHAL.W Rd
    0x10B0000000000000, // SHAL.L ERd
    0x1187000000000000, // SHAR.B Rd
    0x1199000000000000, // SHAR.W Rd
    0x11B2000000000000, // SHAR.L ERd
    0x128E000000000000, // ROTL.B Rd
    0x1298000000000000, // ROTL.W Rd
    0x12B3000000000000, // ROTL.L ERd
    0x1383000000000000, // ROTR.B Rd
    0x139D000000000000, // ROTR.W Rd
    0x13B5000000000000, // ROTR.L ERd
    0x1704000000000000, // NOT.B Rd
    0x171C000000000000, // NOT.W Rd
    0x1734000000000000, // NOT.L ERd
    0x1780000000000000, // NEG.B Rd
    0x1794000000000000, // NEG.W Rd
    0x17B1000000000000, // NEG.L ERd
    0x1750000000000000, // EXTU.W Rd
    0x1777000000000000, // EXTU.L ERd
    0x17DD000000000000, // EXTS.W Rd
    0x17F3000000000000, // EXTS.L ERd
    0x8767000000000000, // ADD.B #xx:8,Rd
    0x9315000000000000, // ADDX #xx:8,Rd
    0xA925000000000000, // CMP.B #xx:8,Rd
    0xBFC7000000000000, // SUBX #xx:8,Rd
    0xC830000000000000, // OR.B #xx:8,Rd
    0xDD53000000000000, // XOR.B #xx:8,Rd
    0xE105000000000000, // AND.B #xx:8,Rd
    0xF7CF000000000000, // MOV.B #xx:8,Rd
    0x7904389800000000, // MOV.W #xx:16,Rd
    0x791FA19000000000, // ADD.W #xx:16,Rd
    0x79213E9000000000, // CMP.W #xx:16,Rd
    0x7939C8EA00000000, // SUB.W #xx:16,Rd
    0x7941442F00000000, // OR.W #xx:16,Rd
    0x795DCB7D00000000, // XOR.W #xx:16,Rd
    0x796273CD00000000, // AND.W #xx:16,Rd
    0x7A0082752BFD0000, // MOV.L #xx:32,ERd
    0x7A1285206FDC0000, // ADD.L #xx:32,ERd
    0x7A27096CA0D40000, // CMP.L #xx:32,ERd
    0x7A36BDDBCB9A0000, // SUB.L #xx:32,ERd
    0x7A402279949B0000, // OR.L #xx:32,ERd
    0x7A52038C873D0000, // XOR.L #xx:32,ERd
    0x7A67D65213370000, // AND.L #xx:32,ERd
    0x687B000000000000, // MOV.B @ERs,Rd
    0x6E5A000200000000, // MOV.B @(d:16,ERs),Rd
    0x6C69000000000000, // MOV.B @ERs+,Rd
    0x2CFB000000000000, // MOV.B @aa:8,Rd
    0x6A0C000000000000, // MOV.B @aa:16,Rd
    0x6A2900FFFFF10000, // MOV.B @aa:24,Rd
    0x6970000000000000, // MOV.W @ERs,Rd
    0x6F5D000200000000, // MOV.W @(d:16,ERs),Rd
    0x6D65000000000000, // MOV.W @ERs+,Rd
    0x6B0A000500000000, // MOV.W @aa:16,Rd
    0x6B2B00FFFFF60000, // MOV.W @aa:24,Rd
    0x0100696500000000, // MOV.L @ERs,ERd
    0x01006F73FFFE0000, // MOV.L @(d:16,ERs),ERd
    0x01006D5100000000, // MOV.L @ERs+,ERd
    0x01006B01000A0000, // MOV.L @aa:16,ERd
    0x01006B2700FFFFFB, // MOV.L @aa:24,ERd
    0x68DE000000000000, // MOV.B Rs,@ERd
    0x6EE0000200000000, // MOV.B Rs,@(d:16,ERd)
    0x6CFD000000000000, // MOV.B Rs,@-ERd
    0x32F3000000000000, // MOV.B Rs,@aa:8
    0x6A89FFF400000000, // MOV.B Rs,@aa:16
    0x6AAD00FFFFF50000, // MOV.B Rs,@aa:24
    0x69D4000000000000, // MOV.W Rs,@ERd
    0x6FE8000200000000, // MOV.W Rs,@(d:16,ERd)
    0x6DFB000000000000, // MOV.W Rs,@-ERd
    0x6B88FFF900000000, // MOV.W Rs,@aa:16
    0x6BAA00FFFFFA0000, // MOV.W Rs,@aa:24
    0x010069F200000000, // MOV.L ERs,@ERd
    0x01006FD4FFFE0000, // MOV.L ERs,@(d:16,ERd)
    0x01006DE000000000, // MOV.L ERs,@-ERd
    0x01006B84FFF20000, // MOV.L ERs,@aa:16
    0x01006BA600FFFFF3, // MOV.L ERs,@aa:24
    0x409D000000000000, // BRA d:8
    0x5800453300000000, // BRA d:16
    0x41F9000000000000, // BRN d:8
    0x581086B600000000, // BRN d:16
    0x423D000000000000, // BHI d:8
    0x5820A60700000000, // BHI d:16
    0x4351000000000000, // BLS d:8
    0x5830076600000000, // BLS d:16
    0x4449000000000000, // BCC d:8
    0x5840B7A300000000, // BCC d:16
    0x4550000000000000, // BCS d:8
    0x5850C26700000000, // BCS d:16
    0x46DA000000000000, // BNE d:8
    0x586065F800000000, // BNE d:16
    0x47E7000000000000, // BEQ d:8
    0x5870DE0800000000, // BEQ d:16
    0x48C0000000000000, // BVC d:8
    0x58805CFE00000000, // BVC d:16
    0x49ED000000000000, // BVS d:8
    0x58901ACA00000000, // BVS d:16
    0x4AE6000000000000, // BPL d:8
    0x58A04EC200000000, // BPL d:16
    0x4B54000000000000, // BMI d:8
    0x58B04FFD00000000, // BMI d:16
    0x4C1B000000000000, // BGE d:8
    0x58C0037B00000000, // BGE d:16
    0x4D78000000000000, // BLT d:8
    0x58D08DFC00000000, // BLT d:16
    0x4E38000000000000, // BGT d:8
    0x58E01C6200000000, // BGT d:16
    0x4F65000000000000, // BLE d:8
    0x58F004A300000000, // BLE d:16
    0x5900000000000000, // JMP @ERn
    0x5A99B51F00000000, // JMP @aa:24
    0x5B0A000000000000, // JMP @@aa:8
    0x55A9000000000000, // BSR d:8
    0x5C00F03400000000, // BSR d:16
    0x5D00000000000000, // JSR @ERn
    0x5E6555D200000000, // JSR @aa:24
    0x5F23000000000000, // JSR @@aa:8
    0x5470000000000000, // RTS
    0x50FB000000000000, // MULXU.B Rs,Rd
    0x52C6000000000000, // MULXU.W Rs,ERd
    0x514F000000000000, // DIVXU.B Rs,Rd
    0x5315000000000000, // DIVXU.W Rs,ERd
    0x01C0500B00000000, // MULXS.B Rs,Rd
    0x01C0522300000000, // MULXS.W Rs,ERd
    0x01D0511D00000000, // DIVXS.B Rs,Rd
    0x01D0533600000000, // DIVXS.W Rs,ERd
    0x7652000000000000, // BAND #xx:3,Rd
    0x7C70762000000000, // BAND #xx:3,@ERd
    0x7EF7762000000000, // BAND #xx:3,@aa:8
    0x7235000000000000, // BCLR #xx:3,Rd
    0x7D50721000000000, // BCLR #xx:3,@ERd
    0x7FFA727000000000, // BCLR #xx:3,@aa:8
    0x6269000000000000, // BCLR Rn,Rd
    0x7D60622000000000, // BCLR Rn,@ERd
    0x7FF162C000000000, // BCLR Rn,@aa:8
    0x769E000000000000, // BIAND #xx:3,Rd
    0x7C70768000000000, // BIAND #xx:3,@ERd
    0x7EF476A000000000, // BIAND #xx:3,@aa:8
    0x77B9000000000000, // BILD #xx:3,Rd
    0x7C5077C000000000, // BILD #xx:3,@ERd
    0x7EF777D000000000, // BILD #xx:3,@aa:8
    0x74DD000000000000, // BIOR #xx:3,Rd
    0x7C6074A000000000, // BIOR #xx:3,@ERd
    0x7EFA74E000000000, // BIOR #xx:3,@aa:8
    0x6784000000000000, // BIST #xx:3,Rd
    0x7D7067F000000000, // BIST #xx:3,@ERd
    0x7FF1679000000000, // BIST #xx:3,@aa:8
    0x75B0000000000000, // BIXOR #xx:3,Rd
    0x7C5075D000000000, // BIXOR #xx:3,@ERd
    0x7EF475D000000000, // BIXOR #xx:3,@aa:8
    0x771E000000000000, // BLD #xx:3,Rd
    0x7C60772000000000, // BLD #xx:3,@ERd
    0x7EF7770000000000, // BLD #xx:3,@aa:8
    0x716B000000000000, // BNOT #xx:3,Rd
    0x7D70712000000000, // BNOT #xx:3,@ERd
    0x7FFA710000000000, // BNOT #xx:3,@aa:8
    0x6171000000000000, // BNOT Rn,Rd
    0x7D5061F000000000, // BNOT Rn,@ERd
    0x7FF161F000000000, // BNOT Rn,@aa:8
    0x741F000000000000, // BOR #xx:3,Rd
    0x7C60740000000000, // BOR #xx:3,@ERd
    0x7EF4740000000000, // BOR #xx:3,@aa:8
    0x7001000000000000, // BSET #xx:3,Rd
    0x7D70704000000000, // BSET #xx:3,@ERd
    0x7FF7703000000000, // BSET #xx:3,@aa:8
    0x605B000000000000, // BSET Rn,Rd
    0x7D50603000000000, // BSET Rn,@ERd
    0x7FFA603000000000, // BSET Rn,@aa:8
    0x675B000000000000, // BST #xx:3,Rd
    0x7D60673000000000, // BST #xx:3,@ERd
    0x7FF1674000000000, // BST #xx:3,@aa:8
    0x7337000000000000, // BTST #xx:3,Rd
    0x7C70731000000000, // BTST #xx:3,@ERd
    0x7EF4736000000000, // BTST #xx:3,@aa:8
    0x63D0000000000000, // BTST Rn,Rd
    0x7C50631000000000, // BTST Rn,@ERd
    0x7EF7639000000000, // BTST Rn,@aa:8
    0x7538000000000000, // BXOR #xx:3,Rd
    0x7C60751000000000, // BXOR #xx:3,@ERd
    0x7EFA756000000000, // BXOR #xx:3,@aa:8
];

const EDGES: [u32; 8] = [
    0x00000000, 0x00000001, 0x7FFFFFFF, 0x80000000, 0xFFFFFFFF, 0x0FFF1000, 0x80007FFF, 0x7F80FF01,
];

// Working memory of the forms: FFFFF0 to FFFFFF.
const BASE: u32 = 0xFFFFF0;

// Made numbers: of 16 bits, and of 32.
fn mix(n: u32) -> u16 {
    let a = (n % 65537 * 40503 + 2) % 65537;
    let b = (a ^ (a / 64)) % 65537;
    (b * 49297 / 128 % 65536) as u16
}

fn number(n: u32) -> u32 {
    let twice = n % 65536 * 2;
    u32::from(mix(twice)) * 65536 + u32::from(mix(twice + 1))
}

fn byte(x: u32) -> u8 {
    (x % 256) as u8
}

// Made bytes.
fn made<const N: usize>(first: u32) -> [u8; N] {
    let mut bytes = [0; N];
    for (n, made) in (first..).zip(bytes.iter_mut()) {
        *made = byte(mix(n).into());
    }
    bytes
}

fn show_control(rt: &impl Print, r: Registers) -> io::Result<()> {
    print!(rt; " PC {:06x} CCR {:02x}", r.pc, u8::from(r.condition))
}

fn show_before(rt: &impl Print, r: Registers) -> io::Result<()> {
    for er in &r.er {
        print!(rt; " {er:08x}")?;
    }
    show_control(rt, r)
}

// A refused step has no states.
fn show_answer(rt: &impl Print, before: Registers, answer: StepAnswer) -> io::Result<()> {
    match answer.outcome {
        Ok(()) => print!(rt; ": {} states", answer.states)?,
        Err(refusal) => print!(rt; ": refused {} at {:06x}", refusal.number(), refusal.place())?,
    }
    for (digit, (old, new)) in before.er.iter().zip(&answer.regs.er).enumerate() {
        if new != old {
            print!(rt; " ER{digit} {new:08x}")?;
        }
    }
    show_control(rt, answer.regs)
}

fn show_ram(rt: &impl Print, ram: &[u8]) -> io::Result<()> {
    print!(rt; " RAM ")?;
    for byte in ram {
        print!(rt; "{byte:02x}")?;
    }
    Ok(())
}

// The record lies here and is stepped where it lies; what came of it, in the form of the step by value.
fn in_place(board: Board, rom: &[u8], ram: &mut [u8], mut regs: Registers) -> StepAnswer {
    let passed = inplace::step_in_place(board, rom, ram, &mut regs);
    StepAnswer {
        regs,
        states: passed.states,
        outcome: passed.outcome,
    }
}

// The registers after a step by value; none if the record in place came out otherwise.
fn line<const N: usize>(
    rt: &impl Print,
    base: u32,
    rom: &[u8],
    mut ram: [u8; N],
    before: Registers,
) -> io::Result<Option<Registers>> {
    let board = memory::plain(base);
    let mut again = ram;
    show_before(rt, before)?;
    show_ram(rt, &ram)?;
    let by_value = run::single(board, rom, &mut ram, before);
    show_answer(rt, before, by_value)?;
    show_ram(rt, &ram)?;
    let same = in_place(board, rom, &mut again, before) == by_value && again == ram;
    println!(rt; "{}", if same { "" } else { " in place otherwise" })?;
    Ok(same.then_some(by_value.regs))
}

// The board of the forms: 64 made bytes but for the code at PC, and working memory FFFFF0 to FFFFFF. Whether the record in place did
// the same.
fn on_board(rt: &impl Print, seed: u32, code: u64, before: Registers) -> io::Result<bool> {
    let from = seed % 4096 * 16;
    let mut rom: [u8; 64] = made(30000 + from);
    let at = (before.pc % 57) as usize;
    rom[at..at + 8].copy_from_slice(&code.to_be_bytes());
    let ram: [u8; 16] = made(50000 + from);
    print!(rt; "{code:016x}")?;
    let after = line(rt, BASE, &rom, ram, before)?;
    Ok(after.is_some())
}

// Where the addresses lie that ER5 to ER7 hold: inside working memory; at its ends, and the other registers hold edges; or odd, with a
// top byte.
#[derive(Clone, Copy)]
enum State {
    Inside,
    AtTheEnds,
    Odd,
}

const STATES: [State; 3] = [State::Inside, State::AtTheEnds, State::Odd];

impl State {
    fn address(self, x: u32) -> u32 {
        let top = x / 256 % 128 * 16777216;
        match self {
            State::Inside => BASE + 4 + x % 4 * 2,
            State::AtTheEnds => top + BASE - 2 + x % 20,
            State::Odd => top + BASE + 4 + x % 8,
        }
    }

    fn data(self, x: u32) -> u32 {
        match self {
            State::AtTheEnds => EDGES[(x % 8) as usize],
            State::Inside | State::Odd => x,
        }
    }

    fn registers(self, seed: u32) -> Registers {
        let n = seed % 4096 * 16;
        Registers {
            er: [
                self.data(number(n)),
                self.data(number(n + 1)),
                self.data(number(n + 2)),
                self.data(number(n + 3)),
                self.data(number(n + 4)),
                self.address(number(n + 5)),
                self.address(number(n + 6)),
                self.address(number(n + 7)),
            ],
            pc: number(n + 8) % 29 * 2,
            condition: Condition::from(byte(number(n + 9))),
        }
    }
}

// Each form from three states; a seed tells both. How often the record in place did the same.
fn every_form(rt: &impl Print) -> io::Result<u32> {
    let mut agreed = 0u32;
    for (&code, first) in CODES.iter().zip((0..).step_by(3)) {
        for (state, seed) in STATES.iter().zip(first..) {
            let same = on_board(rt, seed, code, state.registers(seed))?;
            agreed = agreed.saturating_add(same.into());
        }
    }
    Ok(agreed)
}

// A state of which only ER0, ER1, ER7, PC and the condition byte matter.
fn start(er0: u32, er1: u32, er7: u32, pc: u32, condition: u8) -> Registers {
    Registers {
        er: [er0, er1, 0, 0, 0, 0, 0, er7],
        pc,
        condition: Condition::from(condition),
    }
}

// A branch from 0 to 12; four states, taken or not, and the same in place.
fn branch(digit: u8, flags: u8) -> char {
    let board = memory::plain(BASE);
    let rom = [0x40 + digit % 16, 0x10];
    let before = start(0, 0, 0, 0, flags);
    let answer = run::single(board, &rom, &mut [], before);
    let same = in_place(board, &rom, &mut [], before) == answer;
    match answer.regs.pc {
        _ if !same || answer.states != 4 => '!',
        0x12 => 'T',
        2 => '-',
        _ => '?',
    }
}

// N, Z, V and C from 0 to F: T where the branch is taken.
fn conditions(rt: &impl Print) -> io::Result<()> {
    print!(rt; "NZVC")?;
    for digit in 0..16 {
        print!(rt; "\nBcc {digit:x}: ")?;
        for flags in 0..16 {
            print!(rt; "{}", branch(digit, flags))?;
        }
    }
    println!(rt; "")
}

// Read-only memory is the eight bytes of a code; working memory is two bytes, as in marked examples 8 and 9.
fn small(
    rt: &impl Print,
    name: &str,
    base: u32,
    code: u64,
    before: Registers,
) -> io::Result<Option<Registers>> {
    print!(rt; "{name}: {code:016x} base {base:06x}")?;
    line(rt, base, &code.to_be_bytes(), [0xA5, 0x5A], before)
}

const AT: u32 = 0xFFEF10;

fn each(rt: &impl Print, name: &str, cases: &[(u64, Registers)]) -> io::Result<()> {
    for &(code, before) in cases {
        small(rt, name, AT, code, before)?;
    }
    Ok(())
}

fn each_on_board(rt: &impl Print, first: u32, cases: &[(u64, Registers)]) -> io::Result<()> {
    for (seed, &(code, before)) in (first..).zip(cases) {
        on_board(rt, seed, code, before)?;
    }
    Ok(())
}

fn decimal_examples(rt: &impl Print) -> io::Result<()> {
    for (name, er1, condition) in [
        ("example 3", 0x5A, 0),
        ("example 4", 0x9A, 0),
        ("example 5", 0x21, 0x21),
        ("example 6", 0x04, 0x20),
    ] {
        small(
            rt,
            name,
            AT,
            0x0F09000000000000,
            start(0, er1, 0, 0, condition),
        )?;
    }
    Ok(())
}

// Example 2 with Z clear and with Z set before; after example 7 the BLT is taken.
fn examples(rt: &impl Print) -> io::Result<()> {
    each(
        rt,
        "example 1",
        &[(0x0889000000000000, start(0x7F, 0x01, 0, 0, 0))],
    )?;
    each(
        rt,
        "example 2",
        &[
            (0x0E89000000000000, start(0x00, 0xFF, 0, 0, 0x01)),
            (0x0E89000000000000, start(0x00, 0xFF, 0, 0, 0x05)),
        ],
    )?;
    decimal_examples(rt)?;
    let code = 0x1C894D1000000000;
    if let Some(compared) = small(rt, "example 7", AT, code, start(0x01, 0x80, 0, 0, 0))? {
        small(rt, "example 7", AT, code, compared)?;
    }
    each(
        rt,
        "example 8",
        &[(0x6910000000000000, start(0, 0x00FFEF11, 0, 0, 0))],
    )?;
    each(
        rt,
        "example 9",
        &[(0x6D80000000000000, start(0x00FFEF12, 0, 0, 0, 0))],
    )
}

// Base odd, below the end of read-only memory, too high; PC odd, too high.
fn bad_boards(rt: &impl Print) -> io::Result<()> {
    for (base, pc) in [
        (0xFFEF11, 0),
        (6, 0),
        (0x1000000, 0),
        (AT, 9),
        (AT, 0x1000000),
    ] {
        small(rt, "refusal 1", base, 0, start(0, 0, 0, pc, 0))?;
    }
    Ok(())
}

// Past the end; in working memory; a code that the manual has not, one that begins like JMP and one at the end; codes that run past the end.
fn bad_codes(rt: &impl Print) -> io::Result<()> {
    each(
        rt,
        "refusal 2",
        &[(0, start(0, 0, 0, 8, 0)), (0, start(0, 0, 0, AT, 0))],
    )?;
    each(
        rt,
        "refusal 3",
        &[
            (0x5471000000000000, start(0, 0, 0, 0, 0)),
            (0x0000590100000000, start(0, 0, 0, 2, 0)),
            (0x0000000000005801, start(0, 0, 0, 6, 0)),
        ],
    )?;
    each(
        rt,
        "refusal 4",
        &[
            (0x0000000000007900, start(0, 0, 0, 6, 0)),
            (0x0000000001006B20, start(0, 0, 0, 4, 0)),
        ],
    )
}

// A byte; a word before memory; the second word of a longword; a vector, though the push is refused as well; RTS.
fn bad_reads(rt: &impl Print) -> io::Result<()> {
    each(
        rt,
        "refusal 5",
        &[
            (0x6810000000000000, start(0, 0x00FFEF12, 0, 0, 0)),
            (0x6D10000000000000, start(0, 0x00FFEF0F, 0, 0, 0)),
            (0x0100691000000000, start(0, 0x00FFEF11, 0, 0, 0)),
            (0x5FF0000000000000, start(0, 0, 0, 0, 0)),
            (0x5470000000000000, start(0, 0, 0x00FFEF10, 0, 0)),
        ],
    )
}

// Read-only memory; @-ER; the second word of a longword, where nothing is stored; a push; after the vector was read.
fn bad_writes(rt: &impl Print) -> io::Result<()> {
    each(
        rt,
        "refusal 6",
        &[
            (0x6890000000000000, start(0, 0x00000004, 0, 0, 0)),
            (0x6C98000000000000, start(0, 0x00FFEF10, 0, 0, 0)),
            (0x0100699000000000, start(0x01020304, 0x00FFEF10, 0, 0, 0)),
            (0x5500000000000000, start(0, 0, 0x00FFEF14, 0, 0)),
            (0x5F04000000000000, start(0, 0, 0, 0, 0)),
        ],
    )
}

// MULXS behind 01D0; a digit that is no long register; a code that runs past the end, before its divisor is looked at.
fn bad_multiplications(rt: &impl Print) -> io::Result<()> {
    each(
        rt,
        "refusal 3",
        &[
            (0x01D0508100000000, start(0x01, 0x01, 0, 0, 0)),
            (0x5309000000000000, start(0x01, 0x01, 0, 0, 0)),
        ],
    )?;
    each(
        rt,
        "refusal 4",
        &[(0x00000000000001D0, start(0, 0, 0, 6, 0))],
    )
}

// By zero; a quotient of 256; by its own upper half; a quotient of 65,536.
fn bad_divisions(rt: &impl Print) -> io::Result<()> {
    each(
        rt,
        "refusal 14",
        &[
            (0x5181000000000000, start(0x00, 0x1234, 0, 0, 0xFF)),
            (0x5181000000000000, start(0x01, 0x0100, 0, 0, 0)),
            (0x5111000000000000, start(0, 0xFF00, 0, 0, 0)),
            (0x0000530100000000, start(0x0001, 0x00010000, 0, 2, 0)),
        ],
    )
}

// By zero; quotients of 128 and -129; by zero; 80000000 by -1.
fn bad_signed_divisions(rt: &impl Print) -> io::Result<()> {
    each(
        rt,
        "refusal 14",
        &[
            (0x01D0518100000000, start(0x00, 0x0000, 0, 0, 0)),
            (0x01D0518100000000, start(0xFF, 0xFF80, 0, 0, 0)),
            (0x01D0518100000000, start(0x80, 0x4080, 0, 0, 0)),
            (0x01D0530100000000, start(0x0000, 0x80000000, 0, 0, 0)),
            (0x01D0530100000000, start(0xFFFF, 0x80000000, 0, 0, 0)),
        ],
    )
}

fn refusals(rt: &impl Print) -> io::Result<()> {
    bad_boards(rt)?;
    bad_codes(rt)?;
    bad_reads(rt)?;
    bad_writes(rt)?;
    each(
        rt,
        "refusal 7",
        &[(0x000000001F080000, start(0x50, 0, 0, 4, 0x20))],
    )?;
    bad_multiplications(rt)?;
    bad_divisions(rt)?;
    bad_signed_divisions(rt)
}

// MULXU leaves all flags; the destination's upper half does not matter, but may be the source. -128 by -128; zero by -1.
fn multiplications(rt: &impl Print) -> io::Result<()> {
    each(
        rt,
        "multiply",
        &[
            (0x5081000000000000, start(0x00, 0xAAAA55FF, 0, 0, 0)),
            (0x5011000000000000, start(0, 0x0000FF02, 0, 0, 0xFF)),
            (0x5291000000000000, start(0, 0xFFFFFFFF, 0, 0, 0)),
            (0x01C0508100000000, start(0x80, 0x0080, 0, 0, 0xFF)),
            (0x01C0508900000000, start(0xFF, 0x12005678, 0, 0, 0x08)),
            (0x01C0520100000000, start(0x8000, 0xFFFF8000, 0, 0, 0)),
        ],
    )
}

// N is the divisor's top bit; by its own lower half; the largest quotient and remainder.
fn divisions(rt: &impl Print) -> io::Result<()> {
    each(
        rt,
        "divide",
        &[
            (0x5181000000000000, start(0x80, 0x00FF, 0, 0, 0x04)),
            (0x5191000000000000, start(0, 0x0510, 0, 0, 0)),
            (0x5301000000000000, start(0xFFFF, 0xFFFEFFFF, 0, 0, 0)),
        ],
    )
}

// A quotient of zero with N set; a remainder with the dividend's sign; -128 fits, and -32,768; by its own upper half.
fn signed_divisions(rt: &impl Print) -> io::Result<()> {
    each(
        rt,
        "divide",
        &[
            (0x01D0518100000000, start(0xFB, 0x0003, 0, 0, 0)),
            (0x01D0518100000000, start(0xFE, 0xFFF9, 0, 0, 0xFF)),
            (0x01D0518100000000, start(0x80, 0x407F, 0, 0, 0)),
            (0x01D0530100000000, start(0xFFFF, 0x00008000, 0, 0, 0)),
            (0x01D0539100000000, start(0, 0xFFFFFFFF, 0, 0, 0)),
        ],
    )
}

// BSET behind 7C; a number that no bit has; a code that runs past the end. A bit to be written is read first: 5 before 6; FFFF40; 6 in
// read-only memory.
fn bad_bits(rt: &impl Print) -> io::Result<()> {
    each(
        rt,
        "refusal 3",
        &[
            (0x7C10700000000000, start(0, 0x00FFEF10, 0, 0, 0)),
            (0x7080000000000000, start(0, 0, 0, 0, 0)),
        ],
    )?;
    each(
        rt,
        "refusal 4",
        &[(0x0000000000007D10, start(0, 0, 0, 6, 0))],
    )?;
    each(
        rt,
        "refusal 5",
        &[
            (0x7D10700000000000, start(0, 0x00FFEF13, 0, 0, 0xFF)),
            (0x7E40770000000000, start(0, 0, 0, 0, 0xFF)),
        ],
    )?;
    each(
        rt,
        "refusal 6",
        &[(0x7D10670000000000, start(0, 0x00000005, 0, 0, 0xFF))],
    )
}

// A byte that has its own bit's number; the number 255; BTST of 1 and of 0; BIST of C.
fn bits(rt: &impl Print) -> io::Result<()> {
    each(
        rt,
        "bit",
        &[
            (0x6088000000000000, start(0x0A, 0, 0, 0, 0)),
            (0x6298000000000000, start(0xFF, 0xFF, 0, 0, 0xFF)),
            (0x7301000000000000, start(0, 0x0100, 0, 0, 0xFF)),
            (0x7319000000000000, start(0, 0x0001, 0, 0, 0)),
            (0x67F8000000000000, start(0x80, 0, 0, 0, 0x01)),
        ],
    )
}

// A bit of read-only memory is read; one at an odd address is written.
fn bits_in_memory(rt: &impl Print) -> io::Result<()> {
    each(
        rt,
        "bit",
        &[
            (0x7C10773000000000, start(0, 0x00000003, 0, 0, 0x01)),
            (0x7D10712000000000, start(0, 0x12FFEF11, 0, 0, 0)),
        ],
    )
}

// The register that goes up or down is also loaded or stored; an odd one.
fn own_parts(rt: &impl Print) -> io::Result<()> {
    each_on_board(
        rt,
        600,
        &[
            (0x6C08000000000000, start(0x00FFFFFF, 0, 0, 0, 0)),
            (0x6C88000000000000, start(0x01000000, 0, 0, 0, 0)),
            (0x6D08000000000000, start(0x00FFFFFE, 0, 0, 0, 0)),
            (0x6D80000000000000, start(0x00FFFFF3, 0, 0, 0, 0)),
            (0x01006D0000000000, start(0xABFFFFF5, 0, 0, 0, 0)),
            (0x01006D8000000000, start(0x01000000, 0, 0, 0, 0)),
        ],
    )
}

// A longword at FFFFFE goes on at 000000; calls by ER7, with ER7 odd and over 24 bits; ER7 going below 0.
fn ends_of_memory(rt: &impl Print) -> io::Result<()> {
    each_on_board(
        rt,
        606,
        &[
            (0x0100690000000000, start(0x00FFFFFE, 0, 0, 0, 0)),
            (0x0100698100000000, start(0x00FFFFFE, 0x01020304, 0, 0, 0)),
            (0x5D70000000000000, start(0, 0, 0x00FFFFF8, 0, 0)),
            (0x5E00400100000000, start(0, 0, 0x12FFFFF9, 0, 0)),
            (0x5500000000000000, start(0, 0, 0x00000000, 0, 0)),
            (0x5470000000000000, start(0, 0, 0xFFFFFFFC, 0, 0)),
        ],
    )
}

// The push goes over the vector that was read before it: the target is the old one, its first byte and its lowest bit gone.
fn vector_in_working_memory(rt: &impl Print) -> io::Result<()> {
    let code = 0x5F08000000000000u64;
    let before = start(0, 0, 0x0000000C, 0, 0);
    print!(rt; "vector: {code:016x} base 000008")?;
    line(rt, 8, &code.to_be_bytes(), [0x12, 0x00, 0x40, 0x21], before)?;
    Ok(())
}

// Every refusal that a step has, by PC and code. PC odd; past the end; no code; cut short; reads: a byte, a word with the register
// going up, RTS; writes: a byte with the register going down, two pushes; no row; a quotient that does not fit; left out.
const HELD: [(u32, u64); 13] = [
    (9, 0x0000000000000000),
    (8, 0x0000000000000000),
    (0, 0x5471000000000000),
    (6, 0x0000000000007900),
    (0, 0x6810000000000000),
    (0, 0x6D10000000000000),
    (0, 0x5470000000000000),
    (0, 0x6C98000000000000),
    (0, 0x5500000000000000),
    (0, 0x5F04000000000000),
    (0, 0x1F08000000000000),
    (0, 0x5101000000000000),
    (0, 0x5700000000000000),
];

// A pattern with no byte twice, so that any change shows.
fn filled(pc: u32) -> Registers {
    Registers {
        er: [
            0x80818283, 0x90919293, 0xA0A1A2A3, 0xB0B1B2B3, 0xC0C1C2C3, 0xD0D1D2D3, 0xE0E1E2E3,
            0xF0F1F2F3,
        ],
        pc,
        condition: Condition::from(0xAA),
    }
}

// How many records are, by value and in place, after the step what they were before.
fn held_records(rt: &impl Print) -> io::Result<u32> {
    let mut held = 0u32;
    for (pc, code) in HELD {
        let before = filled(pc);
        let after = small(rt, "held", AT, code, before)?;
        held = held.saturating_add((after == Some(before)).into());
    }
    Ok(held)
}

fn main(rt: HostRuntime) -> io::Result<()> {
    let forms = every_form(&rt)?;
    conditions(&rt)?;
    examples(&rt)?;
    refusals(&rt)?;
    multiplications(&rt)?;
    divisions(&rt)?;
    signed_divisions(&rt)?;
    bad_bits(&rt)?;
    bits(&rt)?;
    bits_in_memory(&rt)?;
    own_parts(&rt)?;
    ends_of_memory(&rt)?;
    vector_in_working_memory(&rt)?;
    let held = held_records(&rt)?;
    println!(rt; "in place: steps as by value {forms}, records held after a refusal {held}")
}
