// h8_routine.
ghost use Rattle.std.specs.Prelude.{◌≡◌, ◌≤◌, length};
ghost use Rattle.host.specs.Answers.{noted, tell};
ghost use Rattle.host.specs.Steps.{left};
ghost use Rattle.host.specs.Routines.{routine_told, routine_left, unrun, routine_call};
ghost use Rattle.host.specs.MirrorSteps.{kept, routine_kept};
ghost use Rattle.host.specs.MirrorRoutines.{numbered_ending};
ghost use Rattle.layout.specs.Board.{board_of};
ghost use Rattle.layout.specs.Registers.{registers_length};
ghost use Rattle.routine.specs.Routine.{routine_of};

use crate::answers::{Head, told};
use layout::lent;
use refusal::Refusal;
use registers::Registers;
use routine::{Ending, RoutineAnswer};

// The head of an ending, and its number in enum h8_ending.
#[tactic(auto, unfolding(crate::specs::MirrorRoutines::numbered_ending))]
fn numbered(why: Ending) -> (Head, u64)
    ensures { result ≡ numbered_ending why }
{
    match why {
        Ending::AtStop => (Head::DONE, 0),
        Ending::Spent => (Head::DONE, 1),
        Ending::Halted(f) => (Head::from(f), 2),
        Ending::Returned => (Head::DONE, 3),
        Ending::Ninth => (Head::DONE, 4),
        Ending::Elsewhere => (Head::DONE, 5),
    }
}

fn tell_why(q: RoutineAnswer, answer: &mut [u64]) -> u32
    requires { 15 ≤ length answer.old }
    ensures { noted result answer.new ≡ tell (routine_told q.why q) answer.old }
{
    let (head, ending) = numbered(q.why);
    let k = q.kept.addresses;
    told(
        answer,
        head,
        &[
            q.steps as u64,
            q.states,
            ending,
            q.kept.count as u64,
            k[0] as u64,
            k[1] as u64,
            k[2] as u64,
            k[3] as u64,
            k[4] as u64,
            k[5] as u64,
            k[6] as u64,
            k[7] as u64,
        ],
    )
}

fn tell_routine(q: RoutineAnswer, regs: &mut [u32], answer: &mut [u64]) -> u32
    requires { (registers_length ≤ length regs.old) × (15 ≤ length answer.old) }
    ensures { kept result regs.new answer.new ≡ routine_kept q regs.old answer.old }
{
    lent::put_registers(regs, q.regs);
    tell_why(q, answer)
}

fn routine_lent(
    board: &[u32],
    rom: &[u8],
    ram: &mut [u8],
    r: Registers,
    regs: &mut [u32],
    stop: u32,
    budget: u32,
    answer: &mut [u64],
) -> u32
    requires { (registers_length ≤ length regs.old) × (15 ≤ length answer.old) }
    ensures { left result ram.new regs.new answer.new ≡ routine_left (routine_of (board_of board.now) rom.now ram.old r stop budget) regs.old answer.old }
{
    let q = routine::routine(lent::board_in(board), rom, ram, r, stop, budget);
    tell_routine(q, regs, answer)
}

// Nothing was run.
fn not_run(f: Refusal, answer: &mut [u64]) -> u32
    requires { 15 ≤ length answer.old }
    ensures { noted result answer.new ≡ unrun f answer.old }
{
    told(answer, Head::from(f), &[0, 0, 2, 0, 0, 0, 0, 0, 0, 0, 0, 0])
}

#[unsafe(no_mangle)]
pub extern "C" fn h8_routine(
    board: &[u32],
    rom: &[u8],
    ram: &mut [u8],
    regs: &mut [u32],
    stop: u32,
    budget: u32,
    answer: &mut [u64],
) -> u32
    ensures { left result ram.new regs.new answer.new ≡ routine_call board.now rom.now ram.old regs.old stop budget answer.old }
{
    if answer.len() < 15 {
        return 13;
    }
    match crate::lent::registers(&regs[..], budget) {
        Ok(r) => routine_lent(board, rom, ram, r, regs, stop, budget, answer),
        Err(f) => not_run(f, answer),
    }
}
