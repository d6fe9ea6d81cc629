// h8_step and h8_run.
ghost use Rattle.std.specs.Prelude.{◌≡◌, [], ◌∷◌, ◌≤◌, length, get_or, Err};
ghost use Rattle.std.proofs.lemmas.List.Edits.{sets};
ghost use Rattle.arith.specs.Widths.{num};
ghost use Rattle.host.specs.Answers.{noted, tell};
ghost use Rattle.host.specs.Steps.{left, step_length, touched, step_answer, step_call, StepSummed, StepSpares, run_answer, run_left, run_call};
ghost use Rattle.host.specs.MirrorSteps.{kept, numbered_end, no_entry, three, step_told, step_lent, run_told};
ghost use Rattle.layout.specs.Board.{board_of};
ghost use Rattle.layout.specs.Registers.{registers_length, registers_of};
ghost use Rattle.run.specs.Run.{run_of};

use crate::answers::{Head, told};
use layout::lent;
use memory::told::{Access, Accesses};
use refusal::Refusal;
use registers::Registers;
use run::{Ending, RunAnswer};
use step::StepAnswer;

// How many numbers the answer of h8_step is; `step_length` in the definitions, H8_STEP_ANSWER in host/h8.h.
const STEP_ANSWER: usize = 17;

// The access at i, or one that is not there.
fn access_at(list: &[Access], i: usize) -> Access
    ensures { result ≡ get_or list.now i no_entry }
{
    list.get(i).copied().unwrap_or_default()
}

fn write_number(x: Access) -> u32
    ensures { result ≡ num x.write }
{
    if x.write { 1 } else { 0 }
}

// The three numbers of an access, from i on.
fn put_access(answer: &mut [u32], i: usize, x: Access)
    requires { i ≤ 14 }
    ensures { answer.new ≡ sets answer.old i (three x []) }
{
    lent::put(answer, i, x.place);
    lent::put(answer, i + 1, x.bytes as u32);
    lent::put(answer, i + 2, write_number(x))
}

// The count and four accesses, behind the first four numbers.
fn put_list(answer: &mut [u32], list: &Accesses)
    ensures { answer.new ≡ sets answer.old 4 (touched list.now.items) }
{
    let xs = list.as_slice();
    lent::put(answer, 4, xs.len() as u32);
    for i in 0..4 {
        put_access(answer, 5 + 3 * i, access_at(xs, i));
    }
}

fn told_step(answer: &mut [u32], n: u32, p: u32, g: u32, states: u32, list: &Accesses) -> u32
    requires { step_length ≤ length answer.old }
    ensures { noted result answer.new ≡ tell (n ∷ p ∷ g ∷ states ∷ touched list.now.items) answer.old }
{
    lent::put_all(answer, &[n, p, g, states]);
    put_list(answer, list);
    n
}

fn refused_step(answer: &mut [u32], f: Refusal) -> u32
    requires { step_length ≤ length answer.old }
    ensures { noted result answer.new ≡ tell (step_answer (Err f) 0 []) answer.old }
{
    told_step(
        answer,
        f.number(),
        f.place(),
        f.group(),
        0,
        &Accesses::new(),
    )
}

// A completed step's registers, states and accesses, or a refusal that leaves the registers.
fn tell_step(q: StepAnswer, list: &Accesses, regs: &mut [u32], answer: &mut [u32]) -> u32
    requires { (registers_length ≤ length regs.old) × (step_length ≤ length answer.old) }
    ensures { kept result regs.new answer.new ≡ step_told q.outcome q list.now.items regs.old answer.old }
{
    let o = q.outcome;
    match o {
        Ok(()) => {
            let r = q.regs;
            lent::put_registers(regs, r);
            told_step(answer, 0, 0, 0, q.states, list)
        }
        Err(f) => refused_step(answer, f),
    }
}

fn step_lent(
    board: &[u32],
    rom: &[u8],
    ram: &mut [u8],
    r: Registers,
    regs: &mut [u32],
    answer: &mut [u32],
) -> u32
    requires lent { (registers_length ≤ length regs.old) × (step_length ≤ length answer.old) }
    requires read { r ≡ registers_of regs.old }
    ensures did { left result ram.new regs.new answer.new ≡ step_lent board.now rom.now ram.old regs.old answer.old }
    ensures sum { StepSummed board.now rom.now regs.old result answer.new }
    ensures spares { StepSpares board.now ram.old ram.new answer.new }
{
    let b = lent::board_in(board);
    let w = watch::single(b, rom, ram, r);
    tell_step(w.answer, &w.list, regs, answer)
}

#[unsafe(no_mangle)]
pub extern "C" fn h8_step(
    board: &[u32],
    rom: &[u8],
    ram: &mut [u8],
    regs: &mut [u32],
    answer: &mut [u32],
) -> u32
    ensures call { left result ram.new regs.new answer.new ≡ step_call board.now rom.now ram.old regs.old answer.old }
    ensures sum { StepSummed board.now rom.now regs.old result answer.new }
    ensures spares { StepSpares board.now ram.old ram.new answer.new }
{
    if answer.len() < STEP_ANSWER {
        return 13;
    }
    match crate::lent::registers(&regs[..], 0) {
        Ok(r) => step_lent(board, rom, ram, r, regs, answer),
        Err(f) => refused_step(answer, f),
    }
}

// The head of an ending, and its number in enum h8_ending.
#[tactic(auto, unfolding(crate::specs::MirrorSteps::numbered_end))]
fn numbered(why: Ending) -> (Head, u64)
    ensures { result ≡ numbered_end why }
{
    match why {
        Ending::AtStop => (Head::DONE, 0),
        Ending::Spent => (Head::DONE, 1),
        Ending::Halted(f) => (Head::from(f), 2),
    }
}

fn tell_ending(why: Ending, steps: u32, states: u64, answer: &mut [u64]) -> u32
    requires { 6 ≤ length answer.old }
    ensures { noted result answer.new ≡ tell (run_answer why steps states) answer.old }
{
    let (head, ending) = numbered(why);
    told(answer, head, &[steps as u64, states, ending])
}

fn tell_run(q: RunAnswer, regs: &mut [u32], answer: &mut [u64]) -> u32
    requires { (registers_length ≤ length regs.old) × (6 ≤ length answer.old) }
    ensures { kept result regs.new answer.new ≡ run_told q regs.old answer.old }
{
    lent::put_registers(regs, q.regs);
    tell_ending(q.why, q.steps, q.states, answer)
}

fn run_lent(
    board: &[u32],
    rom: &[u8],
    ram: &mut [u8],
    r: Registers,
    regs: &mut [u32],
    stop: u32,
    budget: u32,
    answer: &mut [u64],
) -> u32
    requires { (registers_length ≤ length regs.old) × (6 ≤ length answer.old) }
    ensures { left result ram.new regs.new answer.new ≡ run_left (run_of (board_of board.now) rom.now ram.old r stop budget) regs.old answer.old }
{
    let q = run::run(lent::board_in(board), rom, ram, r, stop, budget);
    tell_run(q, regs, answer)
}

#[unsafe(no_mangle)]
pub extern "C" fn h8_run(
    board: &[u32],
    rom: &[u8],
    ram: &mut [u8],
    regs: &mut [u32],
    stop: u32,
    budget: u32,
    answer: &mut [u64],
) -> u32
    ensures { left result ram.new regs.new answer.new ≡ run_call board.now rom.now ram.old regs.old stop budget answer.old }
{
    if answer.len() < 6 {
        return 13;
    }
    match crate::lent::registers(&regs[..], budget) {
        Ok(r) => run_lent(board, rom, ram, r, regs, stop, budget, answer),
        Err(f) => tell_ending(Ending::Halted(f), 0, 0, answer),
    }
}
