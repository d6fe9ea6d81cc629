// The repeated step, up to a stop address and within a budget.
#![tactic(auto)]

ghost use Rattle.std.specs.Prelude.{◌≡◌, true, ◌&&◌, ◌%◌, ◌≤◌, Ok};
ghost use Rattle.step.specs.Step.{after, answered, good_start, step_of};
ghost use Rattle.run.specs.MirrorAlong.{Covers, along_from, start_of, fewer_of, along_of};
ghost use Rattle.run.specs.MirrorKept.{Keeps};
ghost use Rattle.run.specs.MirrorSingle.{outcome_of};
ghost use Rattle.run.specs.MirrorTrail.{traced, trail_at, Tells};
ghost use Rattle.run.specs.Run.{ran, told, run_of};

use memory::Board;
use refusal::Refusal;
use registers::Registers;
use step::StepAnswer;

mod beside;
mod kept;

pub use beside::longer_by;

// Why a run ended.
#[derive(Clone, Copy)]
pub enum Ending {
    AtStop,
    Spent,
    Halted(Refusal),
}

#[derive(Clone, Copy)]
pub struct RunAnswer {
    pub regs: Registers,
    pub steps: u32,
    pub states: u64,
    pub why: Ending,
}

// The answer of a run or of a step, and what the last step noted: memory::told unpacks it.
#[derive(Clone, Copy)]
pub struct Noted<A> {
    pub answer: A,
    pub touched: u64,
}

fn answer(r: Registers, steps: u32, states: u64, why: Ending) -> Noted<RunAnswer>
    ensures { result ≡ traced (told r steps states why) 0 }
{
    let answer = RunAnswer {
        regs: r,
        steps,
        states,
        why,
    };
    Noted { answer, touched: 0 }
}

// The board was looked at once; it stays right, and PC stays one that can be. The registers lie here, and each group of entries is called
// once, from here: so the compiler puts the whole of a step into this loop, which is why the loop is not parted, and why a replay's records are
// looked at here too. A run has none.
fn repeat(
    b: Board,
    rom: &[u8],
    lines: &mut [u64],
    ram: &mut [u8],
    r: Registers,
    stop: u32,
    budget: u32,
    records: &[u8],
    before: u32,
) -> Noted<RunAnswer>
    requires { (budget ≤ 1000000) × (good_start b rom.now ram.old r ≡ true) × Keeps rom.now lines.old × Covers records.now budget }
    ensures did { ran result.answer ram.new ≡ along_from b rom.now stop records.now budget ram.old r 0 before }
    ensures told { Tells b rom.now r result }
{
    let mut er = r.er;
    let mut pc = r.pc;
    let mut f = r.condition;
    let mut steps: u32 = 0;
    let mut states: u64 = before as u64;
    let mut trail: u64 = 0;
    let why = loop {
        if pc == stop {
            break Ending::AtStop;
        }
        if steps == budget {
            break Ending::Spent;
        }
        if beside::strays(records, steps, pc, f, states) {
            break Ending::AtStop;
        }
        let at = pc as usize;
        if rom.len() <= at {
            break Ending::Halted(Refusal::FetchOutside(pc));
        }
        let e = kept::look(lines, rom, at);
        let k = (e % 16) as u8;
        let x = e / 512;
        trail = 0;
        let t = match e / 16 % 32 {
            0 => execute::reg_byte(k, x, pc, &mut er, f),
            1 => execute::reg_word(k, x, pc, &mut er, f),
            2 => execute::reg_long(k, x, pc, &mut er, f),
            3 => execute::imm_byte(k, x, pc, &mut er, f),
            4 => execute::imm_word(k, x, pc, &mut er, f),
            5 => execute::imm_long(k, x, pc, &mut er, f),
            6 => execute::counted(k, x, pc, &mut er, f),
            7 => execute::turned(k, x, pc, &mut er, f),
            8 => execute::turned_long(k, x, pc, &mut er, f),
            9 => transfer::single(k, x, pc, &mut er, f, b, rom, &ram[..], &mut trail),
            10 => transfer::moving::byte(k, x, pc, &mut er, f, b, rom, ram, &mut trail),
            11 => transfer::moving::word(k, x, pc, &mut er, f, b, rom, ram, &mut trail),
            12 => transfer::moving::long(k, x, pc, &mut er, f, b, rom, ram, &mut trail),
            13 => execute::branch_near(k, x, pc, f),
            14 => execute::branch_far(k, x, pc, f),
            15 => transfer::jump(k, x, pc, &mut er, f, b, rom, ram, &mut trail),
            16 => bitturns::take(k, x, pc, &er, f),
            17 => bitturns::give(k, x, pc, &mut er, f),
            18 => bitturns::take_at(k, x, pc, &er, f, b, rom, &ram[..], &mut trail),
            19 => bitturns::give_at(k, x, pc, &er, f, b, rom, ram, &mut trail),
            _ => turns::refuse(f, Refusal::UnknownCode(pc)),
        };
        let o = t.outcome;
        match o {
            Err(y) => {
                break Ending::Halted(y);
            }
            Ok(()) => {}
        }
        f = t.condition;
        pc = registers::pc(t.pc);
        states = states + t.states as u64;
        steps = steps + 1;
    };
    let regs = Registers {
        er,
        pc,
        condition: f,
    };
    let answer = RunAnswer {
        regs,
        steps,
        states,
        why,
    };
    Noted {
        answer,
        touched: trail,
    }
}

// A run that keeps what fits into the lines.
fn start(
    b: Board,
    rom: &[u8],
    lines: &mut [u64],
    ram: &mut [u8],
    r: Registers,
    stop: u32,
    budget: u32,
    records: &[u8],
    before: u32,
) -> Noted<RunAnswer>
    requires { Keeps rom.now lines.old × Covers records.now budget }
    ensures did { ran result.answer ram.new ≡ start_of b rom.now ram.old r stop budget records.now before }
    ensures told { Tells b rom.now r result }
{
    if 1000000 < budget {
        return answer(r, 0, before as u64, Ending::Halted(Refusal::BudgetTooLarge));
    }
    if memory::good_board(b, rom, &ram[..]) & step::good_pc(r.pc) {
        return repeat(b, rom, lines, ram, r, stop, budget, records, before);
    }
    answer(r, 0, before as u64, Ending::Halted(Refusal::BadBoard))
}

pub fn run(b: Board, rom: &[u8], ram: &mut [u8], r: Registers, stop: u32, budget: u32) -> RunAnswer
    ensures { ran result ram.new ≡ run_of b rom.now ram.old r stop budget }
{
    let mut lines: [u64; 256] = [0; 256];
    let none: [u8; 0] = [0; 0];
    let k = start(b, rom, &mut lines, ram, r, stop, budget, &none, 0);
    k.answer
}

fn fewer(n: usize, m: u32) -> u32
    ensures { result ≡ fewer_of n m }
{
    if n < m as usize {
        return n as u32;
    }
    m
}

// A run beside whole records, after so many states: as far as each describes the moment before its step.
pub fn along(
    b: Board,
    rom: &[u8],
    ram: &mut [u8],
    r: Registers,
    budget: u32,
    records: &[u8],
    before: u32,
) -> RunAnswer
    ensures { ran result ram.new ≡ along_of b rom.now ram.old r budget records.now before }
{
    let mut lines: [u64; 256] = [0; 256];
    let n = fewer(records.len() / 11, budget);
    let k = start(b, rom, &mut lines, ram, r, 1, n, records, before);
    k.answer
}

fn outcome(why: Ending) -> Result<(), Refusal>
    ensures { result ≡ outcome_of why }
{
    match why {
        Ending::AtStop => Ok(()),
        Ending::Spent => Ok(()),
        Ending::Halted(f) => Err(f),
    }
}

fn ended(q: Registers, states: u64, why: Ending) -> StepAnswer
    ensures { result ≡ answered q (states % 4294967296) (outcome_of why) }
{
    StepAnswer {
        regs: q,
        states: (states % 4294967296) as u32,
        outcome: outcome(why),
    }
}

// One step: a run of one, that keeps nothing. The stop address is odd, and PC is not.
pub fn watched(b: Board, rom: &[u8], ram: &mut [u8], r: Registers) -> Noted<StepAnswer>
    ensures did { after result.answer ram.new ≡ step_of b rom.now ram.old r }
    ensures told { result.answer.outcome ≡ (Ok tt) → result.touched ≡ trail_at rom.now r }
{
    let mut lines: [u64; 0] = [0; 0];
    let none: [u8; 0] = [0; 0];
    let k = start(b, rom, &mut lines, ram, r, 1, 1, &none, 0);
    let a = k.answer;
    Noted {
        answer: ended(a.regs, a.states, a.why),
        touched: k.touched,
    }
}

pub fn single(b: Board, rom: &[u8], ram: &mut [u8], r: Registers) -> StepAnswer
    ensures { after result ram.new ≡ step_of b rom.now ram.old r }
{
    watched(b, rom, ram, r).answer
}
