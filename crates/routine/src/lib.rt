// Document 02, W9's run mode: the step repeated, with up to eight pushed addresses kept. The step is `run::single`: a step is compiled once, into the
// loop of a run. What is not taken is known before it is made: a return writes nothing, and a ninth call is asked about.
#![tactic(auto)]

ghost use Rattle.std.specs.Prelude.{◌≡◌, true, ◌&&◌, [], ◌<◌, ◌≤◌, length};
ghost use Rattle.codes.specs.States.{goes_of};
ghost use Rattle.memory.specs.Board.{good_board};
ghost use Rattle.step.specs.Step.{good_pc};
ghost use Rattle.routine.specs.MirrorTurn.{seen_in, seen_at, ninth_in, pushed_on, last_of, taken_off, stays, made, pushed, returned_to, followed, turned_by, left, turn_in};
ghost use Rattle.routine.specs.Routine.{kept_of, routined, told, routine_from, routine_of};

use codes::{Goes, Instruction};
use memory::Board;
use refusal::Refusal;
use registers::Registers;
use step::StepAnswer;

mod ahead;

// Why a run of the mode ended.
#[derive(Clone, Copy)]
pub enum Ending {
    AtStop,
    Spent,
    Halted(Refusal),
    // a return completed with no address kept
    Returned,
    // not taken: a call that would push a ninth address
    Ninth,
    // not taken: a return elsewhere than to the address kept last
    Elsewhere,
}

// The addresses that are kept, in the order in which they were pushed: `count` of them, and then 0. C is told all nine numbers (host/h8.h, h8_routine,
// `kept_numbers`), so they lie as they are told.
#[derive(Clone, Copy)]
pub struct Kept {
    pub addresses: [u32; 8],
    pub count: u32,
}

impl Kept {
    fn none() -> Kept
        ensures { result ≡ kept_of [] }
    {
        Kept {
            addresses: [0; 8],
            count: 0,
        }
    }

    fn push(&mut self, address: u32)
        requires { self.old.count ≤ 8 }
        ensures { self.new ≡ pushed_on self.old address }
    {
        self.addresses[(self.count % 8) as usize] = address;
        self.count += 1;
    }

    // The one pushed last.
    fn last(&self) -> u32
        requires { 0 < self.now.count }
        ensures { result ≡ last_of self.now }
    {
        self.addresses[((self.count - 1) % 8) as usize]
    }

    fn take_off(&mut self)
        requires { 0 < self.old.count }
        ensures { self.new ≡ taken_off self.old }
    {
        self.count -= 1;
        self.addresses[(self.count % 8) as usize] = 0;
    }
}

#[derive(Clone, Copy)]
pub struct RoutineAnswer {
    pub regs: Registers,
    pub steps: u32,
    pub states: u64,
    pub why: Ending,
    pub kept: Kept,
}

// What stands at PC: where it lets PC go, and the address of the next instruction.
#[derive(Clone, Copy)]
struct Seen {
    goes: Goes,
    next: u32,
}

// One turn: the registers and the kept addresses after it, the step that it took, or none, and why the run ends with it, if it does.
#[derive(Clone, Copy)]
struct Turned {
    regs: Registers,
    kept: Kept,
    steps: u32,
    states: u32,
    ends: Option<Ending>,
}

fn goes(i: Instruction) -> Goes
    ensures { result ≡ goes_of i }
{
    match i {
        Instruction::Nop => Goes::Onward,
        Instruction::Stc(_) => Goes::Onward,
        Instruction::LdcReg(_) => Goes::Onward,
        Instruction::Ccr(_, _) => Goes::Onward,
        Instruction::Alu(_, _, _, _) => Goes::Onward,
        Instruction::IncDec(_, _, _, _) => Goes::Onward,
        Instruction::AddsSubs(_, _, _) => Goes::Onward,
        Instruction::Decimal(_, _) => Goes::Onward,
        Instruction::Shift(_, _, _) => Goes::Onward,
        Instruction::Unary(_, _, _) => Goes::Onward,
        Instruction::Multiply(_, _, _, _) => Goes::Onward,
        Instruction::Divide(_, _, _, _) => Goes::Onward,
        Instruction::Takes(_, _, _) => Goes::Onward,
        Instruction::Gives(_, _, _) => Goes::Onward,
        Instruction::Move(_, _, _, _) => Goes::Onward,
        Instruction::Bcc(c, reach) => Goes::Branches(c, reach),
        Instruction::Jmp(target) => Goes::Jumps(target),
        Instruction::Bsr(reach) => Goes::CallsNear(reach),
        Instruction::Jsr(target) => Goes::Calls(target),
        Instruction::Rts => Goes::Returns,
    }
}

fn standing(d: Result<(Instruction, usize), Refusal>, pc: u32) -> Seen
    ensures { result ≡ seen_in d pc }
{
    match d {
        Ok((i, n)) => Seen {
            goes: goes(i),
            next: flow::next(pc, n),
        },
        Err(_) => Seen {
            goes: Goes::Onward,
            next: 0,
        },
    }
}

fn look(rom: &[u8], pc: u32) -> Seen
    ensures { result ≡ seen_at rom.now pc }
{
    let at = pc as usize;
    if rom.len() <= at {
        return Seen {
            goes: Goes::Onward,
            next: 0,
        };
    }
    standing(decoder::decode_at(&rom[at..], pc), pc)
}

// Whether a call stands there that would complete and push a ninth address.
fn ninth(g: Goes, kept: Kept, r: Registers, b: Board, rom: &[u8], ram: &[u8]) -> bool
    ensures { result ≡ ninth_in g kept.count r b rom.now ram.now }
{
    if kept.count < 8 {
        return false;
    }
    ahead::completes(g, r, b, rom, ram)
}

fn stay(regs: Registers, kept: Kept, why: Ending) -> Turned
    ensures { result ≡ stays regs kept why }
{
    Turned {
        regs,
        kept,
        steps: 0,
        states: 0,
        ends: Some(why),
    }
}

fn make(a: StepAnswer, kept: Kept, ends: Option<Ending>) -> Turned
    ensures { result ≡ made a kept ends }
{
    Turned {
        regs: a.regs,
        kept,
        steps: 1,
        states: a.states,
        ends,
    }
}

fn push(next: u32, mut kept: Kept, a: StepAnswer) -> Turned
    requires { kept.count ≤ 8 }
    ensures { result ≡ pushed next kept a }
{
    kept.push(next);
    make(a, kept, None)
}

// A return is taken if it goes to the address kept last, or with none kept.
fn return_to(r: Registers, mut kept: Kept, a: StepAnswer) -> Turned
    ensures { result ≡ returned_to r kept a }
{
    if kept.count == 0 {
        return make(a, kept, Some(Ending::Returned));
    }
    if a.regs.pc != kept.last() {
        return stay(r, kept, Ending::Elsewhere);
    }
    kept.take_off();
    make(a, kept, None)
}

// What is kept after a completed step.
fn follow(g: Goes, next: u32, r: Registers, kept: Kept, a: StepAnswer) -> Turned
    requires { kept.count ≤ 8 }
    ensures { result ≡ followed g next r kept a }
{
    match g {
        Goes::Onward => make(a, kept, None),
        Goes::Branches(_, _) => make(a, kept, None),
        Goes::Jumps(_) => make(a, kept, None),
        Goes::CallsNear(_) => push(next, kept, a),
        Goes::Calls(_) => push(next, kept, a),
        Goes::Returns => return_to(r, kept, a),
    }
}

fn by_outcome(g: Goes, next: u32, r: Registers, kept: Kept, a: StepAnswer) -> Turned
    requires { kept.count ≤ 8 }
    ensures { result ≡ turned_by a.outcome g next r kept a }
{
    match a.outcome {
        Ok(()) => follow(g, next, r, kept, a),
        Err(f) => stay(r, kept, Ending::Halted(f)),
    }
}

fn turn(b: Board, rom: &[u8], ram: &mut [u8], r: Registers, kept: Kept) -> Turned
    requires { kept.count ≤ 8 }
    ensures { left result ram.new ≡ turn_in b rom.now ram.old r kept }
{
    let s = look(rom, r.pc);
    let g = s.goes;
    if ninth(g, kept, r, b, rom, &ram[..]) {
        return stay(r, kept, Ending::Ninth);
    }
    let a = run::single(b, rom, ram, r);
    by_outcome(g, s.next, r, kept, a)
}

// The board was looked at once; it stays right, and PC stays one that can be.
fn repeat(
    b: Board,
    rom: &[u8],
    ram: &mut [u8],
    r: Registers,
    stop: u32,
    budget: u32,
) -> RoutineAnswer
    requires { (budget ≤ 1000000) × (good_board b (length rom.now) (length ram.old) && good_pc r.pc ≡ true) }
    ensures { routined result ram.new ≡ routine_from b rom.now stop budget ram.old r [] 0 0 }
{
    let mut q = r;
    let mut kept = Kept::none();
    let mut steps: u32 = 0;
    let mut states: u64 = 0;
    let why = loop {
        if q.pc == stop {
            break Ending::AtStop;
        }
        if steps == budget {
            break Ending::Spent;
        }
        let t = turn(b, rom, ram, q, kept);
        q = t.regs;
        kept = t.kept;
        steps += t.steps;
        states += t.states as u64;
        if let Some(why) = t.ends {
            break why;
        }
    };
    RoutineAnswer {
        regs: q,
        steps,
        states,
        why,
        kept,
    }
}

// Nothing was run.
fn refuse(r: Registers, f: Refusal) -> RoutineAnswer
    ensures { result ≡ told r [] 0 0 (Ending.Halted f) }
{
    RoutineAnswer {
        regs: r,
        steps: 0,
        states: 0,
        why: Ending::Halted(f),
        kept: Kept::none(),
    }
}

pub fn routine(
    b: Board,
    rom: &[u8],
    ram: &mut [u8],
    r: Registers,
    stop: u32,
    budget: u32,
) -> RoutineAnswer
    ensures { routined result ram.new ≡ routine_of b rom.now ram.old r stop budget }
{
    if 1000000 < budget {
        return refuse(r, Refusal::BudgetTooLarge);
    }
    if memory::good_board(b, rom, &ram[..]) & step::good_pc(r.pc) {
        return repeat(b, rom, ram, r, stop, budget);
    }
    refuse(r, Refusal::BadBoard)
}
