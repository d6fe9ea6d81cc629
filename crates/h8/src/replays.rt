// h8 replay: the recording is read in blocks as long as they come, from a file or a pipe, so it need not fit anywhere.
use crate::ask::{Argument, EMPTY};
use crate::fault::Fault;
use crate::runs::Task;
use crate::show::Tool;
use crate::wanted::Wanted;
use crate::{asked, file};
use memory::Board;
use refusal::Refusal;
use replay::{Field, Report, Stage, Standing};
use run::{Ending, RunAnswer};
use runlines::Given;
use std::env::Env;
use std::io;
use std::io::{Input, Read};
use std::rt::Runtime;

// How far a replay has come: where it stands, how many bytes it was fed, and the last record of these as far as it is there.
#[derive(Clone, Copy)]
struct Progress {
    standing: Standing,
    bytes: u64,
    record: [u8; 11],
}

impl Progress {
    fn is_over(&self) -> bool {
        matches!(self.standing.stage, Stage::Told(_) | Stage::Closed)
    }

    fn feed(&mut self, board: Board, rom: &[u8], ram: &mut [u8], block: &[u8]) {
        self.standing = replay::feed(self.standing, board, rom, ram, block);
        self.note(block);
        self.bytes = self.bytes.wrapping_add(block.len() as u64);
    }

    // The bytes of a block that lie below the end of the record behind those that agreed, each where it stands in its record.
    fn note(&mut self, block: &[u8]) {
        let end = self.standing.steps as u64 * 11 + 12;
        for (i, x) in block.iter().enumerate() {
            let at = self.bytes.wrapping_add(i as u64);
            if 0 < at && at < end {
                self.record[((at - 1) % 11) as usize] = *x;
            }
        }
    }

    // A field of that record.
    fn recorded(&self, field: Field) -> u32 {
        let r = self.record;
        match field {
            Field::OfPc => u32::from_be_bytes([r[2], r[3], r[4], r[5]]),
            Field::OfCondition => r[6] as u32,
            Field::OfStates => u32::from_be_bytes([r[7], r[8], r[9], r[10]]),
        }
    }

    // The same field where the replay stands.
    fn here(&self, field: Field) -> u32 {
        let k = &self.standing;
        match field {
            Field::OfPc => k.regs.pc,
            Field::OfCondition => u32::from(u8::from(k.regs.condition)),
            Field::OfStates => (k.states & 0xffffffff) as u32,
        }
    }
}

// A line for each hundred thousand records, where the answers are not printed. The answer does not wait on it, so it may fail.
fn say_moves(rt: &impl Eprint, before: u32, after: u32) {
    if before / 100000 < after / 100000 {
        let _ = eprintln!(rt; "h8: records that agree so far: {after}");
    }
}

impl<R: Runtime> Tool<'_, R> {
    pub fn replay(&self) -> Result<(), Fault> {
        let mut room: file::Room = [0; 524290];
        let mut ram = [0u8; asked::LONGEST];
        let rom = file::load(self.rt, self.request.rom()?, &mut room)?;
        self.replay_in(rom, &mut ram)
    }

    fn replay_in(&self, rom: &[u8], ram: &mut [u8; asked::LONGEST]) -> Result<(), Fault> {
        let numbers = asked::numbers(self.rt, &self.request, rom)?;
        let n = numbers.length as usize;
        let fourth = self.request.fourth();
        let recording = fourth.ok_or(Fault::Missing(Wanted::Recording))?;
        let area = asked::ports(self.rt, self.request.port, numbers.base)?;
        let given = Given { area, ..numbers };
        let regs = asked::registers(self.rt, given.entry)?;
        self.replay_from(recording, &Task { given, regs, rom }, &mut ram[..n])
    }

    // From a file, or from what comes in, for a single dash.
    fn replay_from(&self, recording: Argument, task: &Task, ram: &mut [u8]) -> Result<(), Fault> {
        let unread = |error| Fault::Unread(Wanted::Recording, recording, error);
        let progress = if recording.is_dash(self.rt) {
            self.take(&mut self.rt.reader(), task, ram).map_err(unread)?
        } else {
            let mut file = file::open(self.rt, recording).map_err(unread)?;
            self.take(&mut file, task, ram).map_err(unread)?
        };
        self.tell_replay(&progress, task)?;
        Ok(())
    }

    // Until the recording ends or the replay has told. An error is that of reading.
    fn take(&self, from: &mut impl Read, task: &Task, ram: &mut [u8]) -> io::Result<Progress> {
        let board = asked::board(&task.given);
        let mut progress = Progress {
            standing: replay::begin(board, task.rom, &ram[..], task.regs),
            bytes: 0,
            record: [0; 11],
        };
        let mut block = [0u8; 4096];
        for _ in 0..u64::MAX {
            if progress.is_over() {
                break;
            }
            let n = from.read(&mut block)?;
            if n == 0 {
                break;
            }
            let before = progress.standing.steps;
            progress.feed(board, task.rom, ram, &block[..n]);
            say_moves(self.rt, before, progress.standing.steps);
        }
        Ok(progress)
    }

    fn tell_replay(&self, progress: &Progress, task: &Task) -> io::Result<()> {
        match replay::end(progress.standing).report {
            Report::Agreed => self.tell_standing(&progress.standing, "all records agree: records "),
            Report::Differs(field) => self.tell_difference(progress, task, field),
            Report::Halted(why) => self.tell_halt(progress, task, why),
        }
    }

    fn tell_difference(&self, progress: &Progress, task: &Task, field: Field) -> io::Result<()> {
        let plain = self.request.plain;
        let standing = &progress.standing;
        let n = standing.steps.wrapping_add(1);
        let here = progress.here(field);
        let there = progress.recorded(field);
        self.say(|l| runlines::differs(l, n, field, here, there, plain))?;
        self.say(|l| runlines::there(l, task.rom, standing.regs.pc, plain))?;
        self.tell_standing(standing, "before it: records ")
    }

    fn tell_halt(&self, progress: &Progress, task: &Task, why: Refusal) -> io::Result<()> {
        let plain = self.request.plain;
        if let Refusal::BadBoard = why {
            return self.say(|l| runlines::wrong(l, task.given, why, plain));
        }
        self.say(|l| runlines::stopped(l, task.rom, why, plain))?;
        self.tell_standing(&progress.standing, "before it: records ")
    }

    // The records that agreed and their states, and the registers behind them.
    fn tell_standing(&self, standing: &Standing, first: &str) -> io::Result<()> {
        let plain = self.request.plain;
        let answer = RunAnswer {
            regs: standing.regs,
            steps: standing.steps,
            states: standing.states,
            why: Ending::Spent,
        };
        self.say(|l| runlines::replayed(
            l,
            first.as_bytes(),
            answer.steps,
            b", states ",
            answer.states,
            plain,
        ))?;
        self.say(|l| runlines::registers(l, answer, plain))
    }
}
