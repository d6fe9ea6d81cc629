// The entries without memory, by their kind: variant k, operands x. Each group is called once, from the loop of a run, and has a table of operations of its own, though
// some are alike: what is called once the compiler puts into that loop, for the width that is written out; what is called twice, and is long, it does not.
#![tactic(auto)]

ghost use Rattle.std.specs.Prelude.{◌≡◌, cond, Ok};
ghost use Rattle.arith.specs.declared.Width.TheVariants.{Byte, Word, Long};
ghost use Rattle.flow.specs.Targets.{target_of};
ghost use Rattle.operate.specs.MirrorLent.{Operates};
ghost use Rattle.turns.specs.MirrorTurn.{turn, Turns};
ghost use Rattle.entry.specs.Entry as Entry;
ghost use Rattle.entry.specs.Entry.{op_of, reg_short, reg_long, imm_byte, imm_word, imm_long, branch_near, branch_far};
ghost use Rattle.execute.specs.MirrorExecute.{Obeys, Operates-long, Branches};

use arith::Width;
use codes::Reach;
use registers::Condition;
use turns::Turn;

// ADD to AND by the variant: s is the source, d the digit of the destination.
fn reg_byte_op(k: u8, s: u32, d: u8, er: &mut [u32; 8], f: Condition) -> Condition
    ensures { Operates (op_of k) Byte s d er.old er.new f result }
{
    match k {
        0 => operate::add(Width::Byte, er, d, s, f),
        1 => operate::sub(Width::Byte, er, d, s, f),
        2 => operate::cmp(Width::Byte, er, d, s, f),
        3 => operate::mov(Width::Byte, er, d, s, f),
        4 => operate::addx(Width::Byte, er, d, s, f),
        5 => operate::subx(Width::Byte, er, d, s, f),
        6 => operate::or(Width::Byte, er, d, s, f),
        7 => operate::xor(Width::Byte, er, d, s, f),
        _ => operate::and(Width::Byte, er, d, s, f),
    }
}

// Kind 0: ADD to AND between registers, bytes.
pub fn reg_byte(k: u8, x: u64, pc: u32, er: &mut [u32; 8], f: Condition) -> Turn
    ensures { Turns (reg_short Byte k x) er.old er.new pc f result }
{
    let s = registers::get(Width::Byte, er, (x / 16 % 16) as u8);
    let g = reg_byte_op(k, s, (x % 16) as u8, er, f);
    turns::done(g, flow::next(pc, 2), 2)
}

fn reg_word_op(k: u8, s: u32, d: u8, er: &mut [u32; 8], f: Condition) -> Condition
    ensures { Operates (op_of k) Word s d er.old er.new f result }
{
    match k {
        0 => operate::add(Width::Word, er, d, s, f),
        1 => operate::sub(Width::Word, er, d, s, f),
        2 => operate::cmp(Width::Word, er, d, s, f),
        3 => operate::mov(Width::Word, er, d, s, f),
        4 => operate::addx(Width::Word, er, d, s, f),
        5 => operate::subx(Width::Word, er, d, s, f),
        6 => operate::or(Width::Word, er, d, s, f),
        7 => operate::xor(Width::Word, er, d, s, f),
        _ => operate::and(Width::Word, er, d, s, f),
    }
}

// Kind 1: the same, words.
pub fn reg_word(k: u8, x: u64, pc: u32, er: &mut [u32; 8], f: Condition) -> Turn
    ensures { Turns (reg_short Word k x) er.old er.new pc f result }
{
    let s = registers::get(Width::Word, er, (x / 16 % 16) as u8);
    let g = reg_word_op(k, s, (x % 16) as u8, er, f);
    turns::done(g, flow::next(pc, 2), 2)
}

// OR, XOR and AND of longs have a word more.
fn reg_long_op(k: u8, s: u32, d: u8, pc: u32, er: &mut [u32; 8], f: Condition) -> Turn
    ensures { Operates-long k s d er.old er.new pc f result }
{
    match k {
        0 => turns::done(operate::add(Width::Long, er, d, s, f), flow::next(pc, 2), 2),
        1 => turns::done(operate::sub(Width::Long, er, d, s, f), flow::next(pc, 2), 2),
        2 => turns::done(operate::cmp(Width::Long, er, d, s, f), flow::next(pc, 2), 2),
        3 => turns::done(operate::mov(Width::Long, er, d, s, f), flow::next(pc, 2), 2),
        4 => turns::done(
            operate::addx(Width::Long, er, d, s, f),
            flow::next(pc, 2),
            2,
        ),
        5 => turns::done(
            operate::subx(Width::Long, er, d, s, f),
            flow::next(pc, 2),
            2,
        ),
        6 => turns::done(operate::or(Width::Long, er, d, s, f), flow::next(pc, 4), 4),
        7 => turns::done(operate::xor(Width::Long, er, d, s, f), flow::next(pc, 4), 4),
        _ => turns::done(operate::and(Width::Long, er, d, s, f), flow::next(pc, 4), 4),
    }
}

// Kind 2: the same, longs.
pub fn reg_long(k: u8, x: u64, pc: u32, er: &mut [u32; 8], f: Condition) -> Turn
    ensures { Turns (reg_long k x) er.old er.new pc f result }
{
    let s = registers::get(Width::Long, er, (x / 8 % 8) as u8);
    reg_long_op(k, s, (x % 8) as u8, pc, er, f)
}

fn imm_byte_op(k: u8, s: u32, d: u8, er: &mut [u32; 8], f: Condition) -> Condition
    ensures { Operates (op_of k) Byte s d er.old er.new f result }
{
    match k {
        0 => operate::add(Width::Byte, er, d, s, f),
        1 => operate::sub(Width::Byte, er, d, s, f),
        2 => operate::cmp(Width::Byte, er, d, s, f),
        3 => operate::mov(Width::Byte, er, d, s, f),
        4 => operate::addx(Width::Byte, er, d, s, f),
        5 => operate::subx(Width::Byte, er, d, s, f),
        6 => operate::or(Width::Byte, er, d, s, f),
        7 => operate::xor(Width::Byte, er, d, s, f),
        _ => operate::and(Width::Byte, er, d, s, f),
    }
}

// Kind 3: ADD to AND with a number of the code, bytes.
pub fn imm_byte(k: u8, x: u64, pc: u32, er: &mut [u32; 8], f: Condition) -> Turn
    ensures { Turns (imm_byte k x) er.old er.new pc f result }
{
    let s = (x % 256) as u32;
    let g = imm_byte_op(k, s, (x / 256 % 16) as u8, er, f);
    turns::done(g, flow::next(pc, 2), 2)
}

fn imm_word_op(k: u8, s: u32, d: u8, er: &mut [u32; 8], f: Condition) -> Condition
    ensures { Operates (op_of k) Word s d er.old er.new f result }
{
    match k {
        0 => operate::add(Width::Word, er, d, s, f),
        1 => operate::sub(Width::Word, er, d, s, f),
        2 => operate::cmp(Width::Word, er, d, s, f),
        3 => operate::mov(Width::Word, er, d, s, f),
        4 => operate::addx(Width::Word, er, d, s, f),
        5 => operate::subx(Width::Word, er, d, s, f),
        6 => operate::or(Width::Word, er, d, s, f),
        7 => operate::xor(Width::Word, er, d, s, f),
        _ => operate::and(Width::Word, er, d, s, f),
    }
}

// Kind 4: the same, words.
pub fn imm_word(k: u8, x: u64, pc: u32, er: &mut [u32; 8], f: Condition) -> Turn
    ensures { Turns (imm_word k x) er.old er.new pc f result }
{
    let s = (x % 65536) as u32;
    let g = imm_word_op(k, s, (x / 65536 % 16) as u8, er, f);
    turns::done(g, flow::next(pc, 4), 4)
}

fn imm_long_op(k: u8, s: u32, d: u8, er: &mut [u32; 8], f: Condition) -> Condition
    ensures { Operates (op_of k) Long s d er.old er.new f result }
{
    match k {
        0 => operate::add(Width::Long, er, d, s, f),
        1 => operate::sub(Width::Long, er, d, s, f),
        2 => operate::cmp(Width::Long, er, d, s, f),
        3 => operate::mov(Width::Long, er, d, s, f),
        4 => operate::addx(Width::Long, er, d, s, f),
        5 => operate::subx(Width::Long, er, d, s, f),
        6 => operate::or(Width::Long, er, d, s, f),
        7 => operate::xor(Width::Long, er, d, s, f),
        _ => operate::and(Width::Long, er, d, s, f),
    }
}

// Kind 5: the same, longs.
pub fn imm_long(k: u8, x: u64, pc: u32, er: &mut [u32; 8], f: Condition) -> Turn
    ensures { Turns (imm_long k x) er.old er.new pc f result }
{
    let s = (x % 4294967296) as u32;
    let g = imm_long_op(k, s, (x / 4294967296 % 8) as u8, er, f);
    turns::done(g, flow::next(pc, 6), 6)
}

fn counts(k: u8, d: u8, er: &mut [u32; 8], f: Condition) -> Condition
    ensures { Obeys (Entry.counts k d) 2 er.old er.new f result }
{
    match k {
        0 => operate::inc(Width::Byte, er, d, 1, f),
        1 => operate::dec(Width::Byte, er, d, 1, f),
        2 => operate::inc(Width::Word, er, d, 1, f),
        3 => operate::dec(Width::Word, er, d, 1, f),
        4 => operate::inc(Width::Word, er, d, 2, f),
        5 => operate::dec(Width::Word, er, d, 2, f),
        6 => operate::inc(Width::Long, er, d, 1, f),
        7 => operate::dec(Width::Long, er, d, 1, f),
        8 => operate::inc(Width::Long, er, d, 2, f),
        9 => operate::dec(Width::Long, er, d, 2, f),
        10 => operate::raise(er, d, 1, f),
        11 => operate::lower(er, d, 1, f),
        12 => operate::raise(er, d, 2, f),
        13 => operate::lower(er, d, 2, f),
        14 => operate::raise(er, d, 4, f),
        _ => operate::lower(er, d, 4, f),
    }
}

// Kind 6: INC and DEC, ADDS and SUBS.
pub fn counted(k: u8, x: u64, pc: u32, er: &mut [u32; 8], f: Condition) -> Turn
    ensures { Turns (Entry.counted k x) er.old er.new pc f result }
{
    let g = counts(k, (x % 16) as u8, er, f);
    turns::done(g, flow::next(pc, 2), 2)
}

fn turn_short(k: u8, d: u8, er: &mut [u32; 8], f: Condition) -> Condition
    ensures { Obeys (Entry.turns k d) 2 er.old er.new f result }
{
    match k {
        0 => operate::shll(Width::Byte, er, d, f),
        1 => operate::shlr(Width::Byte, er, d, f),
        2 => operate::rotxl(Width::Byte, er, d, f),
        3 => operate::rotxr(Width::Byte, er, d, f),
        4 => operate::shal(Width::Byte, er, d, f),
        5 => operate::shar(Width::Byte, er, d, f),
        6 => operate::rotl(Width::Byte, er, d, f),
        7 => operate::rotr(Width::Byte, er, d, f),
        8 => operate::shll(Width::Word, er, d, f),
        9 => operate::shlr(Width::Word, er, d, f),
        10 => operate::rotxl(Width::Word, er, d, f),
        11 => operate::rotxr(Width::Word, er, d, f),
        12 => operate::shal(Width::Word, er, d, f),
        13 => operate::shar(Width::Word, er, d, f),
        14 => operate::rotl(Width::Word, er, d, f),
        _ => operate::rotr(Width::Word, er, d, f),
    }
}

// Kind 7: shifts and rotates, bytes and words.
pub fn turned(k: u8, x: u64, pc: u32, er: &mut [u32; 8], f: Condition) -> Turn
    ensures { Turns (Entry.turned k x) er.old er.new pc f result }
{
    let g = turn_short(k, (x % 16) as u8, er, f);
    turns::done(g, flow::next(pc, 2), 2)
}

fn turn_long(k: u8, d: u8, er: &mut [u32; 8], f: Condition) -> Condition
    ensures { Obeys (Entry.long_turns k d) 2 er.old er.new f result }
{
    match k {
        0 => operate::shll(Width::Long, er, d, f),
        1 => operate::shlr(Width::Long, er, d, f),
        2 => operate::rotxl(Width::Long, er, d, f),
        3 => operate::rotxr(Width::Long, er, d, f),
        4 => operate::shal(Width::Long, er, d, f),
        5 => operate::shar(Width::Long, er, d, f),
        6 => operate::rotl(Width::Long, er, d, f),
        7 => operate::rotr(Width::Long, er, d, f),
        8 => operate::not(Width::Byte, er, d, f),
        9 => operate::not(Width::Word, er, d, f),
        10 => operate::not(Width::Long, er, d, f),
        11 => operate::neg(Width::Byte, er, d, f),
        12 => operate::neg(Width::Word, er, d, f),
        _ => operate::neg(Width::Long, er, d, f),
    }
}

// Kind 8: the same, longs; NOT and NEG.
pub fn turned_long(k: u8, x: u64, pc: u32, er: &mut [u32; 8], f: Condition) -> Turn
    ensures { Turns (Entry.turned_long k x) er.old er.new pc f result }
{
    let g = turn_long(k, (x % 16) as u8, er, f);
    turns::done(g, flow::next(pc, 2), 2)
}

// A target is reckoned where the branch is taken: else the next instruction would wait for the flags.
fn branch(taken: bool, next: u32, reach: Reach, n: u32, f: Condition) -> Turn
    ensures { result ≡ turn f (cond taken (target_of next reach) next) n (Ok tt) }
{
    if taken {
        turns::done(f, flow::target(next, reach), n)
    } else {
        turns::done(f, next, n)
    }
}

// Kind 13: Bcc d:8, the variant is the condition.
pub fn branch_near(k: u8, x: u64, pc: u32, f: Condition) -> Turn
    ensures { Branches (branch_near k x) pc f result }
{
    let reach = Reach::Near((x % 256) as u8);
    branch(step::holds(k, f), flow::next(pc, 2), reach, 4, f)
}

// Kind 14: Bcc d:16.
pub fn branch_far(k: u8, x: u64, pc: u32, f: Condition) -> Turn
    ensures { Branches (branch_far k x) pc f result }
{
    let reach = Reach::Far((x % 65536) as u16);
    branch(step::holds(k, f), flow::next(pc, 4), reach, 6, f)
}
