// Replay against a recording, byte by byte: each record is compared, and one step is taken after each that agrees.
#![tactic(auto)]

ghost use Rattle.std.specs.Prelude.{◌≡◌, ◌*◌, ◌%◌, ◌^◌, ◌≤◌, ◌<◌};
ghost use Rattle.replay.specs.Cuts.{said_of, arrived, deliver_of};
ghost use Rattle.replay.specs.MirrorReplay.{over_of, fresh_of, ahead_of, missing_of, passed_of};
ghost use Rattle.replay.specs.Replay.{field_number, byte_taken, first_of, nothing, grown, begins, ended, end_of, ended_of, moment, staged, taken, compared, held, stage_taken, fed, begun, replayed, replay_of};

use memory::Board;
use refusal::Refusal;
use registers::Registers;
use run::longer_by;

// What is read of the next record: how many of its bytes, and its numbers so far. These five are told to C (host/h8.h, "A REPLAY BETWEEN TWO CALLS",
// `standing_of`), so they are kept and not the bytes.
#[derive(Clone, Copy, PartialEq, Eq)]
pub struct Part {
    pub count: u32,
    pub size: u32,
    pub pc: u32,
    pub condition: u8,
    pub states: u32,
}

impl Part {
    pub fn none() -> Part
        ensures { result ≡ nothing }
    {
        Part {
            count: 0,
            size: 0,
            pc: 0,
            condition: 0,
            states: 0,
        }
    }
}

// The fields of a record, in the order in which they are compared, numbered as host/h8.h has them.
#[derive(Clone, Copy)]
pub enum Field {
    OfPc = 1,
    OfCondition,
    OfStates,
}

impl Field {
    pub fn number(self) -> u32
        ensures { result ≡ field_number self }
    {
        self as u32
    }
}

#[derive(Clone, Copy)]
pub enum Report {
    Agreed,
    Differs(Field),
    Halted(Refusal),
}

#[derive(Clone, Copy)]
pub enum Stage {
    Version,
    Records(Part),
    Told(Report),
    Closed,
}

// Where a replay stands. As many steps were taken as records agreed.
#[derive(Clone, Copy)]
pub struct Standing {
    pub regs: Registers,
    pub steps: u32,
    pub states: u64,
    pub stage: Stage,
}

#[derive(Clone, Copy)]
pub struct Ended {
    pub replay: Standing,
    pub report: Report,
}

#[derive(Clone, Copy)]
pub struct Delivered {
    pub replay: Standing,
    pub said: Option<Report>,
}

fn grow(p: Part, x: u8) -> Part
    ensures { result ≡ grown p x }
{
    let count = p.count % 16777216 + 1;
    if p.count < 2 {
        return Part {
            count,
            size: longer_by(p.size, x),
            ..p
        };
    }
    if p.count < 6 {
        return Part {
            count,
            pc: longer_by(p.pc, x),
            ..p
        };
    }
    if p.count < 7 {
        return Part {
            count,
            condition: x,
            ..p
        };
    }
    Part {
        count,
        states: longer_by(p.states, x),
        ..p
    }
}

// The byte where the next record begins.
fn begin_of(steps: u32) -> u32
    ensures { result ≡ begins steps }
{
    steps % 16777216 * 11 + 1
}

// The replay at another stage.
fn at(k: Standing, stage: Stage) -> Standing
    ensures { result ≡ staged k stage }
{
    Standing { stage, ..k }
}

// A step after a record that agreed.
fn step_on(k: Standing, b: Board, rom: &[u8], ram: &mut [u8]) -> Standing
    ensures { moment result ram.new ≡ taken b rom.now k ram.old }
{
    let a = run::single(b, rom, ram, k.regs);
    match a.outcome {
        Ok(()) => Standing {
            regs: a.regs,
            steps: k.steps % 16777216 + 1,
            states: k.states % 72057594037927936 + a.states as u64,
            stage: Stage::Records(Part::none()),
        },
        Err(f) => Standing {
            regs: a.regs,
            steps: k.steps,
            states: k.states,
            stage: Stage::Told(Report::Halted(f)),
        },
    }
}

fn compare(p: Part, k: Standing, b: Board, rom: &[u8], ram: &mut [u8]) -> Standing
    ensures { moment result ram.new ≡ compared b rom.now p k ram.old }
{
    let r = k.regs;
    let f = r.condition;
    let byte = u8::from(f);
    let states = p.states as u64;
    if p.pc != r.pc {
        return at(k, Stage::Told(Report::Differs(Field::OfPc)));
    }
    if p.condition != byte {
        return at(k, Stage::Told(Report::Differs(Field::OfCondition)));
    }
    if states != k.states {
        return at(k, Stage::Told(Report::Differs(Field::OfStates)));
    }
    step_on(k, b, rom, ram)
}

// A record of which p is read.
fn hold(p: Part, k: Standing, b: Board, rom: &[u8], ram: &mut [u8]) -> Standing
    ensures { moment result ram.new ≡ held b rom.now p k ram.old }
{
    if p.count == 2 {
        if p.size == 9 {
            return at(k, Stage::Records(p));
        }
        return at(
            k,
            Stage::Told(Report::Halted(Refusal::BadLength(begin_of(k.steps)))),
        );
    }
    if p.count == 11 {
        return compare(p, k, b, rom, ram);
    }
    at(k, Stage::Records(p))
}

// A byte of a record, of which p was read before.
fn record_byte(p: Part, x: u8, k: Standing, b: Board, rom: &[u8], ram: &mut [u8]) -> Standing
    ensures { moment result ram.new ≡ stage_taken b rom.now (Stage.Records p) x k ram.old }
{
    if (p.count == 0) & (1000000 <= k.steps) {
        return at(k, Stage::Told(Report::Halted(Refusal::BudgetTooLarge)));
    }
    hold(grow(p, x), k, b, rom, ram)
}

fn first_byte(x: u8, k: Standing) -> Standing
    ensures { result ≡ first_of x k }
{
    if x == 1 {
        return at(k, Stage::Records(Part::none()));
    }
    at(k, Stage::Told(Report::Halted(Refusal::BadVersion)))
}

fn byte_taken(k: Standing, x: u8, b: Board, rom: &[u8], ram: &mut [u8]) -> Standing
    ensures { moment result ram.new ≡ byte_taken b rom.now (moment k ram.old) x }
{
    match k.stage {
        Stage::Version => first_byte(x, k),
        Stage::Records(p) => record_byte(p, x, k, b, rom, ram),
        Stage::Told(_) | Stage::Closed => k,
    }
}

// Whether a replay takes no more bytes.
fn over(g: Stage) -> bool
    ensures { result ≡ over_of g }
{
    matches!(g, Stage::Told(_) | Stage::Closed)
}

// Bytes of the recording one by one; after it is told they are passed over.
fn one_by_one(k: Standing, b: Board, rom: &[u8], ram: &mut [u8], bytes: &[u8]) -> Standing
    ensures { moment result ram.new ≡ fed b rom.now (moment k ram.old) bytes.now }
{
    let mut q = k;
    for &x in bytes {
        if over(q.stage) {
            break;
        }
        q = byte_taken(q, x, b, rom, ram);
    }
    q
}

// Whether nothing is read of the next record.
fn fresh(g: Stage) -> bool
    ensures { result ≡ fresh_of g }
{
    match g {
        Stage::Records(p) => p == Part::none(),
        Stage::Version | Stage::Told(_) | Stage::Closed => false,
    }
}

// As many whole records as describe the moment before their step are passed at once, by a run beside them.
fn passed(k: Standing, b: Board, rom: &[u8], ram: &mut [u8], bytes: &[u8]) -> Standing
    requires { (k.steps ≤ 1000000) × (k.states < 4294967296) }
    ensures { moment result ram.new ≡ passed_of b rom.now k ram.old bytes.now }
{
    let a = run::along(
        b,
        rom,
        ram,
        k.regs,
        1000000 - k.steps,
        bytes,
        k.states as u32,
    );
    Standing {
        regs: a.regs,
        steps: k.steps + a.steps,
        states: a.states,
        stage: Stage::Records(Part::none()),
    }
}

// From the beginning of a record on.
fn from_record(k: Standing, b: Board, rom: &[u8], ram: &mut [u8], bytes: &[u8]) -> Standing
    ensures { moment result ram.new ≡ fed b rom.now (moment k ram.old) bytes.now }
{
    let steps = k.steps;
    let quick = fresh(k.stage) & (steps <= 1000000) & (k.states < 4294967296);
    if quick {
        let q = passed(k, b, rom, ram, bytes);
        let i = (q.steps - steps) as usize * 11;
        return one_by_one(q, b, rom, ram, &bytes[i..]);
    }
    one_by_one(k, b, rom, ram, bytes)
}

// How many bytes come before the next record begins.
fn ahead(g: Stage) -> usize
    ensures { result ≡ ahead_of g }
{
    match g {
        Stage::Version => 1,
        Stage::Records(p) => ((11 - p.count % 11) % 11) as usize,
        Stage::Told(_) | Stage::Closed => 0,
    }
}

// How many of n bytes do.
fn missing(g: Stage, n: usize) -> usize
    ensures { result ≡ missing_of g n }
{
    let m = ahead(g);
    if m < n {
        return m;
    }
    n
}

// Bytes of the recording, as they come. Between records whole ones are taken at once.
pub fn feed(k: Standing, b: Board, rom: &[u8], ram: &mut [u8], bytes: &[u8]) -> Standing
    ensures { moment result ram.new ≡ fed b rom.now (moment k ram.old) bytes.now }
{
    let m = missing(k.stage, bytes.len());
    let q = one_by_one(k, b, rom, ram, &bytes[..m]);
    from_record(q, b, rom, ram, &bytes[m..])
}

// Before the first byte: 1 is looked for here. Nothing of the memories is kept: each delivery is lent them again.
pub fn begin(b: Board, rom: &[u8], ram: &[u8], r: Registers) -> Standing
    ensures { result ≡ begun b rom.now ram.now r }
{
    if memory::good_board(b, rom, ram) & step::good_pc(r.pc) {
        return Standing {
            regs: r,
            steps: 0,
            states: 0,
            stage: Stage::Version,
        };
    }
    Standing {
        regs: r,
        steps: 0,
        states: 0,
        stage: Stage::Told(Report::Halted(Refusal::BadBoard)),
    }
}

fn report_of(g: Stage, steps: u32) -> Report
    ensures { result ≡ end_of g steps }
{
    match g {
        Stage::Version => Report::Halted(Refusal::Unfinished(0)),
        Stage::Records(p) => {
            if p.count == 0 {
                return Report::Agreed;
            }
            Report::Halted(Refusal::Unfinished(begin_of(steps)))
        }
        Stage::Told(t) => t,
        Stage::Closed => Report::Halted(Refusal::ReplayEnded),
    }
}

// The end of the recording is declared.
pub fn end(k: Standing) -> Ended
    ensures { result ≡ ended_of k }
{
    Ended {
        replay: at(k, Stage::Closed),
        report: report_of(k.stage, k.steps),
    }
}

// What a stage says before the end is declared.
#[tactic(auto, unfolding(crate::specs::Cuts::said_of))]
pub fn said_of(g: Stage) -> Option<Report>
    ensures { result ≡ said_of g }
{
    match g {
        Stage::Version | Stage::Records(_) => None,
        Stage::Told(t) => Some(t),
        Stage::Closed => Some(Report::Halted(Refusal::ReplayEnded)),
    }
}

// What has arrived of the recording since the delivery before it.
pub fn deliver(k: Standing, b: Board, rom: &[u8], ram: &mut [u8], bytes: &[u8]) -> Delivered
    ensures { arrived result ram.new ≡ deliver_of b rom.now (moment k ram.old) bytes.now }
{
    let late = over(k.stage);
    if late {
        return Delivered {
            replay: k,
            said: Some(Report::Halted(Refusal::ReplayEnded)),
        };
    }
    let q = feed(k, b, rom, ram, bytes);
    let s = said_of(q.stage);
    Delivered { replay: q, said: s }
}

// The whole recording, from given registers.
pub fn replay(b: Board, rom: &[u8], ram: &mut [u8], r: Registers, file: &[u8]) -> Ended
    ensures { replayed result ram.new ≡ replay_of b rom.now ram.old r file.now }
{
    let k = begin(b, rom, &ram[..], r);
    let q = feed(k, b, rom, ram, file);
    end(q)
}
