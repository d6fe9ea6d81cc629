// h8 run: steps, states, why it ended, registers and flags.
#![tactic(auto, using(text::proofs::Adding::added_append, text::proofs::Adding::padded), unfolding(text::specs::Lines::added, crate::specs::Runs::ram_fault, crate::specs::Runs::board_fault, crate::specs::Runs::argument_text, crate::specs::Runs::told_text, crate::specs::Runs::halted_text, crate::specs::Runs::registers_text, crate::specs::Runs::held_text))]

ghost use Rattle.std.specs.Prelude.{◌≡◌, true, ◌++◌, ◌≤◌, ◌<◌};
ghost use Rattle.run.specs.declared.Ending.TheVariants.{Halted};
ghost use Rattle.text.specs.Lines.{added, ascii};
ghost use Rattle.text.specs.Numbers.{place_of, decimal_of};
ghost use Rattle.wording.specs.Parts.{refused_text};
ghost use Rattle.wording.specs.Refusals.{refusal_text};
ghost use Rattle.runlines.specs.Runs.{ram_fault, board_fault, argument_text, wrong_text, why_words, why_plain, counts_words, counts_plain, told_words, told_plain, told_text, begun, ran_text, flag_text, flags_words, flags_plain, er_text, four_text, registers_words, registers_plain, registers_text, held_text};

use refusal::Refusal;
use registers::{Condition, Registers};
use run::{Ending, RunAnswer};
use site::Area;
use text::Line;
use wording::{parts, ports};

// What was asked, for the words about it.
#[derive(Clone, Copy)]
pub struct Given {
    pub entry: u32,
    pub base: u32,
    pub length: u32,
    pub stop: u32,
    pub budget: u32,
    pub area: Area,
    // the ROM's length
    pub code: u32,
}

// Which number of --ram or --port makes the board wrong.
fn ram_fault(l: &mut Line, g: Given)
    ensures { l.new ≡ added l.old (ram_fault g) }
{
    if g.base % 2 == 1 {
        l.text("1: BASE of --ram is odd");
    } else if g.length % 2 == 1 {
        l.text("1: LENGTH of --ram is odd");
    } else if 16777216 < u64::from(g.base) + u64::from(g.length) {
        l.text("1: the working memory does not end at or below 0x1000000");
    } else if g.base < g.code {
        l.text("1: BASE of --ram is below the end of the ROM");
    } else {
        ports::area_fault(l, g.area, b"1: the ports are not inside the working memory");
    }
}

// Which argument makes the board wrong.
fn board_fault(l: &mut Line, g: Given)
    ensures { l.new ≡ added l.old (board_fault g) }
{
    if (g.entry % 2 == 1) | (16777216 <= g.entry) {
        l.text("1: ENTRY is odd or not below 0x1000000");
    } else {
        ram_fault(l, g);
    }
}

fn argument(l: &mut Line, g: Given, f: Refusal)
    ensures { l.new ≡ added l.old (argument_text g f) }
{
    if f.number() == 12 {
        l.text("12: --budget is over 1000000 steps");
    } else {
        board_fault(l, g);
    }
}

// What is refused before the first step lies in the arguments: 1 and 12.
pub fn wrong(l: &mut Line, g: Given, f: Refusal, plain: bool)
    ensures { l.new ≡ added l.old (wrong_text g f plain) }
{
    parts::before(l, f, plain);
    argument(l, g, f);
    l.byte(b'\n');
}

pub fn stop_words(l: &mut Line, stop: u32)
    ensures { l.new ≡ added l.old (ascii "ended: at the stop address " ++ (place_of stop ++ ascii "\n")) }
{
    l.text("ended: at the stop address ");
    l.place(stop);
    l.byte(b'\n');
}

pub fn spent_words(l: &mut Line, budget: u32)
    ensures { l.new ≡ added l.old (ascii "ended: the budget is spent, steps: " ++ (decimal_of budget ++ ascii "\n")) }
{
    l.text("ended: the budget is spent, steps: ");
    l.decimal(u64::from(budget));
    l.byte(b'\n');
}

pub fn halted_words(l: &mut Line, rom: &[u8], f: Refusal)
    ensures { l.new ≡ added l.old (ascii "ended: refused: " ++ (refusal_text rom.now f ++ ascii "\n")) }
{
    l.text("ended: refused: ");
    wording::refusal(l, rom, f);
    l.byte(b'\n');
}

fn why_words(l: &mut Line, rom: &[u8], g: Given, e: Ending)
    ensures { l.new ≡ added l.old (why_words rom.now g e) }
{
    match e {
        Ending::AtStop => stop_words(l, g.stop),
        Ending::Spent => spent_words(l, g.budget),
        Ending::Halted(f) => halted_words(l, rom, f),
    }
}

pub fn halted_plain(l: &mut Line, rom: &[u8], f: Refusal)
    ensures { l.new ≡ added l.old (ascii "ended refusal\n" ++ refused_text rom.now f true) }
{
    l.text("ended refusal\n");
    parts::refused(l, rom, f, true);
}

fn why_plain(l: &mut Line, rom: &[u8], e: Ending)
    ensures { l.new ≡ added l.old (why_plain rom.now e) }
{
    match e {
        Ending::AtStop => l.text("ended stop\n"),
        Ending::Spent => l.text("ended budget\n"),
        Ending::Halted(f) => halted_plain(l, rom, f),
    }
}

// How many steps and states a run from the entry took.
pub fn counts_words(l: &mut Line, entry: u32, steps: u32, states: u64)
    ensures { l.new ≡ added l.old (counts_words entry steps states) }
{
    l.text("run from ");
    l.place(entry);
    l.text(": steps ");
    l.decimal(u64::from(steps));
    l.text(", states ");
    l.decimal(states);
    l.byte(b'\n');
}

pub fn counts_plain(l: &mut Line, steps: u32, states: u64)
    ensures { l.new ≡ added l.old (counts_plain steps states) }
{
    parts::number(l, b"steps", u64::from(steps));
    parts::number(l, b"states", states);
}

fn told_words(l: &mut Line, rom: &[u8], g: Given, a: RunAnswer)
    ensures { l.new ≡ added l.old (told_words rom.now g a) }
{
    counts_words(l, g.entry, a.steps, a.states);
    why_words(l, rom, g, a.why);
}

fn told_plain(l: &mut Line, rom: &[u8], a: RunAnswer)
    ensures { l.new ≡ added l.old (told_plain rom.now a) }
{
    counts_plain(l, a.steps, a.states);
    why_plain(l, rom, a.why);
}

fn told(l: &mut Line, rom: &[u8], g: Given, a: RunAnswer, plain: bool)
    ensures { l.new ≡ added l.old (told_text rom.now g a plain) }
{
    if plain {
        told_plain(l, rom, a);
    } else {
        told_words(l, rom, g, a);
    }
}

// Whether a refusal came with a step that was tried: 1 and 12 come before the first.
pub fn tried(f: Refusal) -> bool
    ensures { result ≡ begun (Halted f) }
{
    let n = f.number();
    !(n == 1 || n == 12)
}

// Whether a step was made or tried.
fn has_begun(e: Ending) -> bool
    ensures { result ≡ begun e }
{
    match e {
        Ending::AtStop | Ending::Spent => true,
        Ending::Halted(f) => tried(f),
    }
}

// How a run went; what is refused before the first step is said of the argument.
pub fn ran(l: &mut Line, rom: &[u8], g: Given, a: RunAnswer, plain: bool)
    ensures { l.new ≡ added l.old (ran_text rom.now g a plain) }
{
    match a.why {
        Ending::Halted(f) if !tried(f) => wrong(l, g, f, plain),
        _ => told(l, rom, g, a, plain),
    }
}

// A flag behind its name.
fn flag(l: &mut Line, name: &str, b: bool)
    ensures { l.new ≡ added l.old (flag_text name.now b) }
{
    l.text(name);
    l.byte(b'0' + u8::from(b));
}

fn flags_words(l: &mut Line, f: Condition)
    ensures { l.new ≡ added l.old (flags_words f) }
{
    flag(l, "  I ", f.i);
    flag(l, " UI ", f.ui);
    flag(l, " H ", f.h);
    flag(l, " U ", f.u);
    flag(l, " N ", f.n);
    flag(l, " Z ", f.z);
    flag(l, " V ", f.v);
    flag(l, " C ", f.c);
}

fn flags_plain(l: &mut Line, f: Condition)
    ensures { l.new ≡ added l.old (flags_plain f) }
{
    flag(l, "\ni ", f.i);
    flag(l, "\nui ", f.ui);
    flag(l, "\nh ", f.h);
    flag(l, "\nu ", f.u);
    flag(l, "\nn ", f.n);
    flag(l, "\nz ", f.z);
    flag(l, "\nv ", f.v);
    flag(l, "\nc ", f.c);
}

// The register ERk behind what stands before its number.
fn register(l: &mut Line, name: &str, er: &[u32; 8], k: u8)
    requires { k < 8 }
    ensures { l.new ≡ added l.old (er_text name.now er.now k) }
{
    l.text(name);
    l.byte(b'0' + k);
    l.text(" 0x");
    l.hex(8, false, er[k as usize]);
}

// ERk to ERk+3.
fn four(l: &mut Line, first: &str, name: &str, er: &[u32; 8], k: u8)
    requires { k ≤ 4 }
    ensures { l.new ≡ added l.old (four_text first.now name.now er.now k) }
{
    register(l, first, er, k);
    register(l, name, er, k + 1);
    register(l, name, er, k + 2);
    register(l, name, er, k + 3);
}

// Four registers in a line, and in a line each.
fn registers_words(l: &mut Line, r: Registers)
    ensures { l.new ≡ added l.old (registers_words r) }
{
    l.text("PC ");
    l.place(r.pc);
    flags_words(l, r.condition);
    four(l, "\nER", "  ER", &r.er, 0);
    four(l, "\nER", "  ER", &r.er, 4);
    l.byte(b'\n');
}

fn registers_plain(l: &mut Line, r: Registers)
    ensures { l.new ≡ added l.old (registers_plain r) }
{
    l.text("pc ");
    l.place(r.pc);
    four(l, "\ner", "\ner", &r.er, 0);
    four(l, "\ner", "\ner", &r.er, 4);
    flags_plain(l, r.condition);
    l.byte(b'\n');
}

pub fn held(l: &mut Line, r: Registers, plain: bool)
    ensures { l.new ≡ added l.old (registers_text r plain) }
{
    if plain {
        registers_plain(l, r);
    } else {
        registers_words(l, r);
    }
}

// The registers and flags that a run leaves; nothing where nothing ran.
pub fn registers(l: &mut Line, a: RunAnswer, plain: bool)
    ensures { l.new ≡ added l.old (held_text a plain) }
{
    if has_begun(a.why) {
        held(l, a.regs, plain);
    }
}
