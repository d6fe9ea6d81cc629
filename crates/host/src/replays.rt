// h8_replay.
ghost use Rattle.std.specs.Prelude.{◌≡◌, ◌≤◌, length};
ghost use Rattle.host.specs.Answers.{noted, tell};
ghost use Rattle.host.specs.Steps.{left};
ghost use Rattle.host.specs.Replays.{replay_answer, replay_left, replay_call};
ghost use Rattle.host.specs.MirrorSteps.{kept};
ghost use Rattle.host.specs.MirrorReplays.{numbered_report, replay_told};
ghost use Rattle.layout.specs.Board.{board_of};
ghost use Rattle.layout.specs.Registers.{registers_length};
ghost use Rattle.replay.specs.Replay.{replay_of};

use crate::answers::{Head, told};
use layout::lent;
use registers::Registers;
use replay::{Ended, Report};

// The head of a report, its number in enum h8_report, and the field that differs.
#[tactic(auto, unfolding(crate::specs::MirrorReplays::numbered_report))]
fn numbered(t: Report) -> (Head, u64, u64)
    ensures { result ≡ numbered_report t }
{
    match t {
        Report::Agreed => (Head::DONE, 0, 0),
        Report::Differs(f) => (Head::DONE, 1, f.number() as u64),
        Report::Halted(f) => (Head::from(f), 2, 0),
    }
}

pub fn tell_report(t: Report, steps: u32, states: u64, answer: &mut [u64]) -> u32
    requires { 7 ≤ length answer.old }
    ensures { noted result answer.new ≡ tell (replay_answer t steps states) answer.old }
{
    let (head, report, field) = numbered(t);
    told(answer, head, &[steps as u64, states, report, field])
}

fn tell_replay(q: Ended, regs: &mut [u32], answer: &mut [u64]) -> u32
    requires { (registers_length ≤ length regs.old) × (7 ≤ length answer.old) }
    ensures { kept result regs.new answer.new ≡ replay_told q regs.old answer.old }
{
    let k = q.replay;
    let r = k.regs;
    let t = q.report;
    lent::put_registers(regs, r);
    tell_report(t, k.steps, k.states, answer)
}

fn replay_lent(
    board: &[u32],
    rom: &[u8],
    ram: &mut [u8],
    r: Registers,
    regs: &mut [u32],
    file: &[u8],
    answer: &mut [u64],
) -> u32
    requires { (registers_length ≤ length regs.old) × (7 ≤ length answer.old) }
    ensures { left result ram.new regs.new answer.new ≡ replay_left (replay_of (board_of board.now) rom.now ram.old r file.now) regs.old answer.old }
{
    let q = replay::replay(lent::board_in(board), rom, ram, r, file);
    tell_replay(q, regs, answer)
}

#[unsafe(no_mangle)]
pub extern "C" fn h8_replay(
    board: &[u32],
    rom: &[u8],
    ram: &mut [u8],
    regs: &mut [u32],
    file: &[u8],
    answer: &mut [u64],
) -> u32
    ensures { left result ram.new regs.new answer.new ≡ replay_call board.now rom.now ram.old regs.old file.now answer.old }
{
    if answer.len() < 7 {
        return 13;
    }
    match crate::lent::registers(&regs[..], 0) {
        Ok(r) => replay_lent(board, rom, ram, r, regs, file, answer),
        Err(f) => tell_report(Report::Halted(f), 0, 0, answer),
    }
}
