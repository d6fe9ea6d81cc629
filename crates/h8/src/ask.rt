// The arguments: what each is, and where those stand that an answer needs.
ghost use Rattle.std.specs.Prelude.{◌-◌};
ghost use Rattle.std.specs.Iterator.{at_most};

use crate::fault::Fault;
use crate::wanted::Wanted;
use asking::{Kind, Use};
use std::env::{Env, FillError};

// Room for an argument: one that is longer is none that the tool knows.
const LONGEST: usize = 4096;

pub type Room = [u8; LONGEST];

pub const EMPTY: Room = [0; LONGEST];

// No use takes as many as that: behind the thousandth none is looked at, and it is one too many.
const MOST: usize = 1000;

// An argument, by its number. Its bytes are fetched each time, into a room on the stack.
#[derive(Clone, Copy)]
pub struct Argument(usize);

impl Argument {
    pub fn bytes<'a>(self, rt: &impl Env, room: &'a mut Room) -> Result<&'a [u8], FillError> {
        let n = rt.arg(self.0, room)?;
        Ok(&room[..n])
    }

    // The argument so many behind this one, as the value of an option.
    pub fn behind(self, n: usize) -> Argument {
        Argument(self.0.saturating_add(n))
    }

    // None where it is an option that the tool doesn't know.
    pub fn kind(self, rt: &impl Env) -> Option<Kind> {
        asking::kind_of(self.bytes(rt, &mut EMPTY).unwrap_or(&[]))
    }

    // Whether it is a single dash, which stands for what comes in.
    pub fn is_dash(self, rt: &impl Env) -> bool {
        matches!(self.bytes(rt, &mut EMPTY), Ok([b'-']))
    }

    // The use that it names.
    fn chosen(self, rt: &impl Env) -> Option<Use> {
        asking::use_of(self.bytes(rt, &mut EMPTY).unwrap_or(&[]))
    }

    fn stands(self, rt: &impl Env) -> bool {
        !matches!(rt.arg(self.0, &mut [0]), Err(FillError::NotPresent))
    }
}

// The first argument alone, as other programs are asked.
pub fn asks_help(rt: &impl Env) -> bool {
    asking::asks_help(Argument(1).bytes(rt, &mut EMPTY).unwrap_or(&[]))
}

// The arguments behind the program's name, the first at `next`.
#[derive(Drop)]
pub struct Arguments<'a, R> {
    rt: &'a R,
    next: usize,
}

impl<'a, R: Env> Arguments<'a, R> {
    pub fn of(rt: &'a R) -> Arguments<'a, R> {
        Arguments { rt, next: 1 }
    }
}

impl<'a, R: Env> Iterator for Arguments<'a, R> {
    type Item = Argument;

    ghost remaining = { λ s. at_most (1001 - s.next) };

    fn next(&mut self) -> Option<Argument> {
        let at = Argument(self.next);
        if MOST < self.next || !at.stands(self.rt) {
            return None;
        }
        self.next += 1;
        Some(at)
    }
}

// How many arguments behind an option are its values.
fn values(kind: Option<Kind>) -> usize {
    match kind {
        Some(Kind::PortOption) => 3,
        Some(Kind::RamOption | Kind::ErOption) => 2,
        Some(Kind::BudgetOption | Kind::StopOption) => 1,
        _ => 0,
    }
}

// What was asked: the words in their order, and the options by their names.
#[derive(Clone, Copy)]
pub struct Request {
    pub plain: bool,
    words: [Option<Argument>; 4],
    extra: Option<Argument>,
    pub ram: Option<Argument>,
    pub port: Option<Argument>,
    pub budget: Option<Argument>,
    pub stop: Option<Argument>,
    er: Option<Argument>,
    pub routine: Option<Argument>,
    pub trace: Option<Argument>,
    pub deep: Option<Argument>,
    unknown: Option<Argument>,
}

impl Request {
    fn empty() -> Request {
        Request {
            plain: false,
            words: [None; 4],
            extra: None,
            ram: None,
            port: None,
            budget: None,
            stop: None,
            er: None,
            routine: None,
            trace: None,
            deep: None,
            unknown: None,
        }
    }

    // The arguments one by one; those that are an option's values are passed over.
    pub fn read(rt: &impl Env) -> Request {
        let mut request = Request::empty();
        let mut passed = 0;
        for at in Arguments::of(rt) {
            if 0 < passed {
                passed -= 1;
                continue;
            }
            let kind = at.kind(rt);
            request.note(kind, at);
            passed = values(kind);
        }
        if Argument(MOST).stands(rt) {
            request.extra = Some(Argument(MOST));
        }
        request
    }

    // An option given twice counts where it stands last.
    fn note(&mut self, kind: Option<Kind>, at: Argument) {
        let Some(kind) = kind else {
            self.unknown = Some(at);
            return;
        };
        match kind {
            Kind::AWord => self.word(at),
            Kind::PlainOption => self.plain = true,
            Kind::RamOption => self.ram = Some(at),
            Kind::PortOption => self.port = Some(at),
            Kind::BudgetOption => self.budget = Some(at),
            Kind::StopOption => self.stop = Some(at),
            Kind::ErOption => self.er = Some(at),
            Kind::RoutineOption => self.routine = Some(at),
            Kind::TraceOption => self.trace = Some(at),
            Kind::DeepOption => self.deep = Some(at),
        }
    }

    fn word(&mut self, at: Argument) {
        match self.words.iter().position(|word| word.is_none()) {
            Some(next) => self.words[next] = Some(at),
            None => self.extra = Some(at),
        }
    }

    // The ROM's file.
    pub fn rom(&self) -> Result<Argument, Fault> {
        self.words[1].ok_or(Fault::Missing(Wanted::Rom))
    }

    // The words behind it.
    pub fn third(&self) -> Option<Argument> {
        self.words[2]
    }

    pub fn fourth(&self) -> Option<Argument> {
        self.words[3]
    }

    // The use that the first word names; no word asks for help.
    pub fn chosen(&self, rt: &impl Env) -> Option<Use> {
        match self.words[0] {
            Some(at) => at.chosen(rt),
            None => Some(Use::ForHelp),
        }
    }

    // The first word that a use has no place for.
    fn surplus(&self, u: Use) -> Option<Argument> {
        match u {
            Use::ForWay | Use::ForRun => self.fourth().or(self.extra),
            Use::ForHelp => self.words[1].or(self.extra),
            _ => self.extra,
        }
    }

    // An option of `h8 run` alone beside another use. Ports are of no use to `h8 help` either.
    fn astray(&self, u: Use) -> Option<Argument> {
        let at = self.budget.or(self.stop).or(self.routine).or(self.trace);
        match u {
            Use::ForRun => None,
            Use::ForHelp => at.or(self.port),
            _ => at,
        }
    }

    // The option of `h8 way` beside another use.
    fn not_deep(&self, u: Use) -> Option<Argument> {
        match u {
            Use::ForWay => None,
            _ => self.deep,
        }
    }

    // An option of `h8 run` and `h8 replay` beside another use.
    fn strayed(&self, u: Use) -> Option<Argument> {
        match u {
            Use::ForRun | Use::ForReplay => None,
            _ => self.ram.or(self.er),
        }
    }

    // The use that was chosen, if it has a place for each word and each option.
    pub fn check(&self, chosen: Option<Use>) -> Result<Use, Fault> {
        refuse(Wanted::AnOption, self.unknown)?;
        let Some(u) = chosen else {
            refuse(Wanted::ToolUse, self.words[0])?;
            return Ok(Use::ForHelp);
        };
        refuse(Wanted::NoMoreWords, self.surplus(u))?;
        refuse(Wanted::WithRun, self.astray(u))?;
        refuse(Wanted::WithWay, self.not_deep(u))?;
        refuse(Wanted::WithRunOrReplay, self.strayed(u))?;
        Ok(u)
    }
}

// An argument that is there is wrong.
pub fn refuse(wanted: Wanted, at: Option<Argument>) -> Result<(), Fault> {
    match at {
        Some(at) => Err(Fault::Wrong(wanted, at)),
        None => Ok(()),
    }
}
