// Results at every width over operands at the edges, then every decimal adjustment. A flag is shown by its letter, or by a
// dash where it is clear; a flag that an operation does not give is not shown. `stdout` is what bench/arith_table.c prints.
#![tactic(auto)]

use arith::decimal::{daa, das};
use arith::logic::{and, exts, extu, not, or, xor};
use arith::shifts::{rotl, rotr, rotxl, rotxr, shal, shar, shll, shlr};
use arith::sums::{add, dec, inc, neg, sub};
use arith::{Counted, Moved, Shifted, Sum, Width};
use std::io;

// What the table has of a width. The last operand of a byte and of a word has a bit above it, which is none of the operand's.
struct Row {
    width: Width,
    name: &'static str,
    digits: usize,
    operands: [u32; 9],
}

const ROWS: [Row; 3] = [
    Row {
        width: Width::Byte,
        name: "byte",
        digits: 2,
        operands: [0, 1, 0x0F, 0x10, 0x7F, 0x80, 0xFF, 0x5A, 0x1C3],
    },
    Row {
        width: Width::Word,
        name: "word",
        digits: 4,
        operands: [
            0, 1, 0x0FFF, 0x1000, 0x7FFF, 0x8000, 0xFFFF, 0x5A80, 0x1C37F,
        ],
    },
    Row {
        width: Width::Long,
        name: "long",
        digits: 8,
        operands: [
            0, 1, 0x0FFFFFFF, 0x10000000, 0x7FFFFFFF, 0x80000000, 0xFFFFFFFF, 0x5AA58000,
            0xC33C7FFF,
        ],
    },
];

// A result of an operation: a value, and those flags that the operation gives.
trait Outcome {
    fn value(&self) -> u32;

    fn show_flags(&self, rt: &impl Print) -> io::Result<()>;
}

impl Outcome for Moved {
    fn value(&self) -> u32 {
        self.value
    }

    fn show_flags(&self, rt: &impl Print) -> io::Result<()> {
        show_letters(rt, &[('N', self.n), ('Z', self.z)])
    }
}

impl Outcome for Counted {
    fn value(&self) -> u32 {
        self.value
    }

    fn show_flags(&self, rt: &impl Print) -> io::Result<()> {
        show_letters(rt, &[('N', self.n), ('Z', self.z), ('V', self.v)])
    }
}

impl Outcome for Shifted {
    fn value(&self) -> u32 {
        self.value
    }

    fn show_flags(&self, rt: &impl Print) -> io::Result<()> {
        show_letters(
            rt,
            &[('N', self.n), ('Z', self.z), ('V', self.v), ('C', self.c)],
        )
    }
}

impl Outcome for Sum {
    fn value(&self) -> u32 {
        self.value
    }

    fn show_flags(&self, rt: &impl Print) -> io::Result<()> {
        show_letters(
            rt,
            &[
                ('H', self.h),
                ('N', self.n),
                ('Z', self.z),
                ('V', self.v),
                ('C', self.c),
            ],
        )
    }
}

fn show_letters(rt: &impl Print, flags: &[(char, bool)]) -> io::Result<()> {
    for &(letter, set) in flags {
        let shown = if set { letter } else { '-' };
        print!(rt; "{shown}")?;
    }
    Ok(())
}

fn show_operand(rt: &impl Print, row: &Row, x: u32) -> io::Result<()> {
    let digits = row.digits;
    print!(rt; " {x:0digits$x}")
}

fn show<R: Outcome>(rt: &impl Print, row: &Row, results: &[(&str, R)]) -> io::Result<()> {
    for (name, result) in results {
        print!(rt; "{name}")?;
        show_operand(rt, row, result.value())?;
        print!(rt; " ")?;
        result.show_flags(rt)?;
    }
    Ok(())
}

// ADDX and SUBX with C clear are ADD and SUB, and CMP gives SUB's flags; here ADDX and SUBX have C set.
fn pair(rt: &impl Print, row: &Row, a: u32, b: u32) -> io::Result<()> {
    let w = row.width;
    print!(rt; "{}", row.name)?;
    show_operand(rt, row, a)?;
    show_operand(rt, row, b)?;
    let sums = [
        (": ADD", add(w, a, b, false)),
        (" ADDX", add(w, a, b, true)),
        (" SUB", sub(w, a, b, false)),
        (" SUBX", sub(w, a, b, true)),
    ];
    show(rt, row, &sums)?;
    let joined = [
        (" AND", and(w, a, b)),
        (" OR", or(w, a, b)),
        (" XOR", xor(w, a, b)),
    ];
    show(rt, row, &joined)?;
    println!(rt; "")
}

fn pairs(rt: &impl Print, row: &Row) -> io::Result<()> {
    for &a in &row.operands {
        for &b in &row.operands {
            pair(rt, row, a, b)?;
        }
    }
    Ok(())
}

// INC and DEC by 1 and by 2.
fn single(rt: &impl Print, row: &Row, a: u32) -> io::Result<()> {
    let w = row.width;
    print!(rt; "{}", row.name)?;
    show_operand(rt, row, a)?;
    show(rt, row, &[(": MOV", arith::mov(w, a)), (" NOT", not(w, a))])?;
    show(rt, row, &[(" NEG", neg(w, a))])?;
    let counts = [
        (" INC", inc(w, a, 1)),
        ("", inc(w, a, 2)),
        (" DEC", dec(w, a, 1)),
        ("", dec(w, a, 2)),
    ];
    show(rt, row, &counts)?;
    // a byte has nothing to be extended from
    if w != Width::Byte {
        show(rt, row, &[(" EXTU", extu(w, a)), (" EXTS", exts(w, a))])?;
    }
    println!(rt; "")
}

// ROTXL and ROTXR with C clear and with C set.
fn turned(rt: &impl Print, row: &Row, a: u32) -> io::Result<()> {
    let w = row.width;
    print!(rt; "{}", row.name)?;
    show_operand(rt, row, a)?;
    let turns = [
        (": SHLL", shll(w, a)),
        (" SHLR", shlr(w, a)),
        (" SHAL", shal(w, a)),
        (" SHAR", shar(w, a)),
        (" ROTL", rotl(w, a)),
        (" ROTR", rotr(w, a)),
        (" ROTXL", rotxl(w, a, false)),
        ("", rotxl(w, a, true)),
        (" ROTXR", rotxr(w, a, false)),
        ("", rotxr(w, a, true)),
    ];
    show(rt, row, &turns)?;
    println!(rt; "")
}

fn singles(rt: &impl Print, row: &Row) -> io::Result<()> {
    for &a in &row.operands {
        single(rt, row, a)?;
        turned(rt, row, a)?;
    }
    Ok(())
}

// C and H before an adjustment.
const CARRIES: [(bool, bool); 4] = [(false, false), (false, true), (true, false), (true, true)];

// What is added and C after, or dots where no row fits.
fn show_adjust(rt: &impl Print, adjust: Option<(u8, bool)>) -> io::Result<()> {
    match adjust {
        Some((added, c)) => {
            print!(rt; " {added:02x}")?;
            show_letters(rt, &[('C', c)])
        }
        None => print!(rt; " ..."),
    }
}

// The bytes of an upper digit.
fn adjusts<F>(rt: &impl Print, adjust: &F, c: bool, h: bool, upper: u8) -> io::Result<()>
where
    F: Fn(bool, bool, u32) -> Option<(u8, bool)>,
    requires { F.IsAlwaysCallable adjust.now }
{
    println!(rt; "")?;
    show_letters(rt, &[('C', c), ('H', h)])?;
    let first = u32::from(upper) * 16;
    print!(rt; " {first:02x}:")?;
    for x in first..first + 16 {
        show_adjust(rt, adjust(c, h, x))?;
    }
    Ok(())
}

// All combinations of C, H and the byte, and for how many of them a row fits.
fn decimals<F>(rt: &impl Print, name: &str, adjust: F) -> io::Result<()>
where
    F: Fn(bool, bool, u32) -> Option<(u8, bool)>,
    requires { F.IsAlwaysCallable adjust }
{
    print!(rt; "{name}")?;
    for (c, h) in CARRIES {
        for upper in 0..16 {
            adjusts(rt, &adjust, c, h, upper)?;
        }
    }
    let found = CARRIES
        .iter()
        .map(|&(c, h)| { (0..=0xFF).filter(|&x| adjust(c, h, x).is_some()).count() })
        .fold(0, usize::saturating_add);
    println!(rt; "\n{found} of 1024")
}

fn main(rt: HostRuntime) -> io::Result<()> {
    for row in &ROWS {
        pairs(&rt, row)?;
    }
    for row in &ROWS {
        singles(&rt, row)?;
    }
    decimals(&rt, "DAA", daa)?;
    decimals(&rt, "DAS", das)
}
