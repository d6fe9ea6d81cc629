// h8 run: what is asked, the trace and the run.
use crate::fault::Fault;
use crate::show::Tool;
use crate::{asked, file};
use registers::Registers;
use routine::RoutineAnswer;
use run::RunAnswer;
use runlines::Given;
use std::io;
use std::rt::Runtime;
use text::Line;

// What is run: the numbers that were asked for, the registers at the start, and the ROM.
#[derive(Clone, Copy)]
pub struct Task<'a> {
    pub given: Given,
    pub regs: Registers,
    pub rom: &'a [u8],
}

// What a run came to, in two texts: how it went, and the registers that it leaves.
trait Told {
    fn steps(&self) -> u32;

    fn ran(&self, l: &mut Line, task: &Task, plain: bool);

    fn registers(&self, l: &mut Line, plain: bool);
}

impl Told for RunAnswer {
    fn steps(&self) -> u32 {
        self.steps
    }

    fn ran(&self, l: &mut Line, task: &Task, plain: bool) {
        runlines::ran(l, task.rom, task.given, *self, plain);
    }

    fn registers(&self, l: &mut Line, plain: bool) {
        runlines::registers(l, *self, plain);
    }
}

impl Told for RoutineAnswer {
    fn steps(&self) -> u32 {
        self.steps
    }

    fn ran(&self, l: &mut Line, task: &Task, plain: bool) {
        runlines::ran_out(l, task.rom, task.given, *self, plain);
    }

    fn registers(&self, l: &mut Line, plain: bool) {
        runlines::out_registers(l, *self, plain);
    }
}

impl<R: Runtime> Tool<'_, R> {
    // Memories lie in arrays, the longest that can be asked for, so that none can run out.
    pub fn run(&self) -> Result<(), Fault> {
        let mut room: file::Room = [0; 524290];
        let mut ram = [0u8; asked::LONGEST];
        let mut again = [0u8; asked::LONGEST];
        let rom = file::load(self.rt, self.request.rom()?, &mut room)?;
        self.run_in(rom, &mut ram, &mut again)
    }

    fn run_in(
        &self,
        rom: &[u8],
        ram: &mut [u8; asked::LONGEST],
        again: &mut [u8; asked::LONGEST],
    ) -> Result<(), Fault> {
        let numbers = asked::numbers(self.rt, &self.request, rom)?;
        let n = numbers.length as usize;
        let area = asked::ports(self.rt, self.request.port, numbers.base)?;
        let given = Given { area, ..numbers };
        let regs = asked::registers(self.rt, given.entry)?;
        let task = Task { given, regs, rom };
        Ok(self.go(&task, &mut ram[..n], &mut again[..n])?)
    }

    // To the return of the routine at the entry, or to the end of a run.
    fn go(&self, task: &Task, ram: &mut [u8], again: &mut [u8]) -> io::Result<()> {
        let g = task.given;
        let board = asked::board(&g);
        if self.request.routine.is_some() {
            let answer = routine::routine(board, task.rom, ram, task.regs, g.stop, g.budget);
            self.tell(task, again, answer)
        } else {
            let answer = run::run(board, task.rom, ram, task.regs, g.stop, g.budget);
            self.tell(task, again, answer)
        }
    }

    // The trace comes first, in a working memory of its own: both begin as zeros.
    fn tell<T: Told + Drop>(&self, task: &Task, again: &mut [u8], answer: T) -> io::Result<()> {
        let plain = self.request.plain;
        if self.request.trace.is_some() {
            self.trace(task, again, answer.steps())?;
        }
        self.say(|l| answer.ran(l, task, plain))?;
        self.say(|l| answer.registers(l, plain))
    }

    // So many steps from the start, one after the other. Where nothing ran the answer stands alone, since its first line says that.
    fn trace(&self, task: &Task, ram: &mut [u8], steps: u32) -> io::Result<()> {
        if steps == 0 {
            return Ok(());
        }
        let plain = self.request.plain;
        self.say(|l| runlines::trace_heading(l, plain))?;
        let board = asked::board(&task.given);
        let mut regs = task.regs;
        for _ in 0..steps {
            let step = watch::single(board, task.rom, ram, regs);
            let states = step.answer.states;
            self.show(runlines::traced(task.rom, regs.pc, states, &step.list, plain))?;
            regs = step.answer.regs;
        }
        Ok(())
    }
}
