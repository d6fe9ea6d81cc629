// h8_replay_begin, h8_replay_take and h8_replay_end.
ghost use Rattle.std.specs.Prelude.{Some, ◌≡◌, ◌≤◌, length};
ghost use Rattle.host.specs.Answers.{noted, tell};
ghost use Rattle.host.specs.Steps.{left};
ghost use Rattle.host.specs.Replays.{replay_answer};
ghost use Rattle.host.specs.Cuts.{carrying, said_answer, carried_on, start_of, begin_call, take_left, take_call, end_call};
ghost use Rattle.layout.specs.Board.{board_of};
ghost use Rattle.carried.specs.Carried.{replay_length, standing_of};
ghost use Rattle.replay.specs.Replay.{moment, ended_of};
ghost use Rattle.replay.specs.Cuts.{said_of, deliver_of};

use crate::answers::{Head, told};
use crate::replays;
use layout::lent;
use refusal::Refusal;
use replay::{Report, Stage, Standing};

fn tell_said(s: Option<Report>, steps: u32, states: u64, answer: &mut [u64]) -> u32
    requires { 7 ≤ length answer.old }
    ensures { noted result answer.new ≡ tell (said_answer s steps states) answer.old }
{
    match s {
        None => told(answer, Head::DONE, &[steps as u64, states, 3, 0]),
        Some(t) => replays::tell_report(t, steps, states, answer),
    }
}

// The replay is left in its numbers, and what it says in the answer.
fn carry(k: Standing, s: Option<Report>, replay: &mut [u32], answer: &mut [u64]) -> u32
    requires { (replay_length ≤ length replay.old) × (7 ≤ length answer.old) }
    ensures { carrying result replay.new answer.new ≡ carried_on k s replay.old answer.old }
{
    carried::put_replay(replay, k);
    tell_said(s, k.steps, k.states, answer)
}

fn start(board: &[u32], rom: &[u8], ram: &[u8], regs: &[u32]) -> Standing
    ensures { result ≡ start_of board.now rom.now ram.now regs.now }
{
    let r = lent::registers_in(regs);
    if 255 < lent::number_at(regs, 9) {
        return Standing {
            regs: r,
            steps: 0,
            states: 0,
            stage: Stage::Told(Report::Halted(Refusal::BadBoard)),
        };
    }
    replay::begin(lent::board_in(board), rom, ram, r)
}

fn begin_lent(
    board: &[u32],
    rom: &[u8],
    ram: &[u8],
    regs: &[u32],
    replay: &mut [u32],
    answer: &mut [u64],
) -> u32
    requires { (replay_length ≤ length replay.old) × (7 ≤ length answer.old) }
    ensures { carrying result replay.new answer.new ≡ carried_on (start_of board.now rom.now ram.now regs.now) (said_of (start_of board.now rom.now ram.now regs.now).stage) replay.old answer.old }
{
    let k = start(board, rom, ram, regs);
    let g = k.stage;
    let s = replay::said_of(g);
    carry(k, s, replay, answer)
}

// 13 with the length that is needed. Each of the three looks for it itself: a function that took the call as a closure would promise more than two tests.
fn too_short(n: usize, answer: &mut [u64]) -> u32
    requires { (7 ≤ length answer.old) × (n ≤ 100) }
    ensures { noted result answer.new ≡ tell (replay_answer (Report.Halted (Refusal.LentTooShort n)) 0 0) answer.old }
{
    replays::tell_report(
        Report::Halted(Refusal::LentTooShort(n as u32)),
        0,
        0,
        answer,
    )
}

#[unsafe(no_mangle)]
pub extern "C" fn h8_replay_begin(
    board: &[u32],
    rom: &[u8],
    ram: &[u8],
    regs: &[u32],
    replay: &mut [u32],
    answer: &mut [u64],
) -> u32
    ensures { carrying result replay.new answer.new ≡ begin_call board.now rom.now ram.now regs.now replay.old answer.old }
{
    if answer.len() < 7 {
        return 13;
    }
    if replay.len() < carried::REPLAY {
        return too_short(carried::REPLAY, answer);
    }
    if regs.len() < lent::REGISTERS {
        return too_short(lent::REGISTERS, answer);
    }
    begin_lent(board, rom, ram, regs, replay, answer)
}

fn take_lent(
    board: &[u32],
    rom: &[u8],
    ram: &mut [u8],
    replay: &mut [u32],
    bytes: &[u8],
    answer: &mut [u64],
) -> u32
    requires { (replay_length ≤ length replay.old) × (7 ≤ length answer.old) }
    ensures { left result ram.new replay.new answer.new ≡ take_left (deliver_of (board_of board.now) rom.now (moment (standing_of replay.old) ram.old) bytes.now) replay.old answer.old }
{
    let b = lent::board_in(board);
    let k = carried::replay_in(&replay[..]);
    let q = replay::deliver(k, b, rom, ram, bytes);
    let z = q.replay;
    let s = q.said;
    carry(z, s, replay, answer)
}

#[unsafe(no_mangle)]
pub extern "C" fn h8_replay_take(
    board: &[u32],
    rom: &[u8],
    ram: &mut [u8],
    replay: &mut [u32],
    bytes: &[u8],
    answer: &mut [u64],
) -> u32
    ensures { left result ram.new replay.new answer.new ≡ take_call board.now rom.now ram.old replay.old bytes.now answer.old }
{
    if answer.len() < 7 {
        return 13;
    }
    if replay.len() < carried::REPLAY {
        return too_short(carried::REPLAY, answer);
    }
    take_lent(board, rom, ram, replay, bytes, answer)
}

fn end_lent(replay: &mut [u32], answer: &mut [u64]) -> u32
    requires { (replay_length ≤ length replay.old) × (7 ≤ length answer.old) }
    ensures { carrying result replay.new answer.new ≡ carried_on (ended_of (standing_of replay.old)).replay (Some (ended_of (standing_of replay.old)).report) replay.old answer.old }
{
    let q = replay::end(carried::replay_in(&replay[..]));
    let k = q.replay;
    let t = q.report;
    carry(k, Some(t), replay, answer)
}

#[unsafe(no_mangle)]
pub extern "C" fn h8_replay_end(replay: &mut [u32], answer: &mut [u64]) -> u32
    ensures { carrying result replay.new answer.new ≡ end_call replay.old answer.old }
{
    if answer.len() < 7 {
        return 13;
    }
    if replay.len() < carried::REPLAY {
        return too_short(carried::REPLAY, answer);
    }
    end_lent(replay, answer)
}
