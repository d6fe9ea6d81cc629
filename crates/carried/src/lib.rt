// Where a replay stands, as numbers of a lent array (host/h8.h, "A REPLAY BETWEEN TWO CALLS"). What an array lacks reads as 0 and is not written.
#![tactic(auto)]

ghost use Rattle.std.specs.Prelude.{◌≡◌, [], ◌∷◌, ◌/◌, ◌%◌, ◌^◌};
ghost use Rattle.std.proofs.lemmas.List.Edits.{sets};
ghost use Rattle.carried.specs.Carried.{field_at, refusal_at, report_at, stage_at, part_of, report_of, standing_of, report_numbers, stage_numbers, numbers_of};

use layout::lent;
use refusal::Refusal;
use replay::{Field, Part, Report, Stage, Standing};

// How many numbers; `replay_length` in the definitions, H8_REPLAY in host/h8.h.
pub const REPLAY: usize = 24;

// Here a number past the last choice is the last (`standing_of` says so of each), so there is no error to answer and no TryFrom.
fn field_at(n: u32) -> Field
    ensures { result ≡ field_at n }
{
    match n {
        1 => Field::OfPc,
        2 => Field::OfCondition,
        _ => Field::OfStates,
    }
}

fn refusal_at(n: u32, place: u32, group: u32) -> Refusal
    ensures { result ≡ refusal_at n place group }
{
    match n {
        2 => Refusal::FetchOutside(place),
        3 => Refusal::UnknownCode(place),
        4 => Refusal::CutShort(place),
        5 => Refusal::ReadOutside(place),
        6 => Refusal::WriteOutside(place),
        7 => Refusal::NoAdjustRow(place),
        8 => Refusal::BadEntry(place),
        9 => Refusal::NotFollowed(place),
        10 => Refusal::NotUpward(place),
        11 => Refusal::NotInstruction,
        12 => Refusal::BudgetTooLarge,
        13 => Refusal::LentTooShort(place),
        14 => Refusal::DivideFails(place),
        15 => Refusal::LeftOut(group % 256 * 16777216 + place % 16777216),
        16 => Refusal::TooDeep(place),
        17 => Refusal::BadVersion,
        18 => Refusal::BadLength(place),
        19 => Refusal::Unfinished(place),
        20 => Refusal::ReplayEnded,
        22 => Refusal::TooLong(place),
        _ => Refusal::BadBoard,
    }
}

fn report_at(n: u32, f: Field, r: Refusal) -> Report
    ensures { result ≡ report_at n f r }
{
    match n {
        0 => Report::Agreed,
        1 => Report::Differs(f),
        _ => Report::Halted(r),
    }
}

fn stage_at(n: u32, p: Part, t: Report) -> Stage
    ensures { result ≡ stage_at n p t }
{
    match n {
        0 => Stage::Version,
        1 => Stage::Records(p),
        2 => Stage::Told(t),
        _ => Stage::Closed,
    }
}

fn part_in(l: &[u32]) -> Part
    ensures { result ≡ part_of l.now }
{
    Part {
        count: lent::number_at(l, 14),
        size: lent::number_at(l, 15),
        pc: lent::number_at(l, 16),
        condition: (lent::number_at(l, 17) % 256) as u8,
        states: lent::number_at(l, 18),
    }
}

fn report_in(l: &[u32]) -> Report
    ensures { result ≡ report_of l.now }
{
    let f = field_at(lent::number_at(l, 20));
    let r = refusal_at(
        lent::number_at(l, 21),
        lent::number_at(l, 22),
        lent::number_at(l, 23),
    );
    report_at(lent::number_at(l, 19), f, r)
}

pub fn replay_in(l: &[u32]) -> Standing
    ensures { result ≡ standing_of l.now }
{
    let r = lent::registers_in(l);
    let g = stage_at(lent::number_at(l, 13), part_in(l), report_in(l));
    let high = lent::number_at(l, 11) as u64;
    let low = lent::number_at(l, 12) as u64;
    Standing {
        regs: r,
        steps: lent::number_at(l, 10),
        states: high * 4294967296 + low,
        stage: g,
    }
}

// A stage's number and what is read of the next record.
fn put_read(l: &mut [u32], n: u32, p: Part)
    ensures { l.new ≡ sets l.old 13 (n ∷ p.count ∷ p.size ∷ p.pc ∷ p.condition ∷ p.states ∷ []) }
{
    lent::put(l, 13, n);
    lent::put(l, 14, p.count);
    lent::put(l, 15, p.size);
    lent::put(l, 16, p.pc);
    lent::put(l, 17, p.condition as u32);
    lent::put(l, 18, p.states)
}

fn put_told(l: &mut [u32], report: u32, field: u32, n: u32, place: u32, group: u32)
    ensures { l.new ≡ sets l.old 19 (report ∷ field ∷ n ∷ place ∷ group ∷ []) }
{
    lent::put(l, 19, report);
    lent::put(l, 20, field);
    lent::put(l, 21, n);
    lent::put(l, 22, place);
    lent::put(l, 23, group)
}

fn put_report(l: &mut [u32], t: Report)
    ensures { l.new ≡ sets l.old 19 (report_numbers t) }
{
    match t {
        Report::Agreed => put_told(l, 0, 0, 0, 0, 0),
        Report::Differs(f) => put_told(l, 1, f.number(), 0, 0, 0),
        Report::Halted(f) => put_told(l, 2, 0, f.number(), f.place(), f.group()),
    }
}

fn put_stage(l: &mut [u32], g: Stage)
    ensures { l.new ≡ sets l.old 13 (stage_numbers g) }
{
    match g {
        Stage::Version => {
            put_read(l, 0, Part::none());
            put_told(l, 0, 0, 0, 0, 0)
        }
        Stage::Records(p) => {
            put_read(l, 1, p);
            put_told(l, 0, 0, 0, 0, 0)
        }
        Stage::Told(t) => {
            put_read(l, 2, Part::none());
            put_report(l, t)
        }
        Stage::Closed => {
            put_read(l, 3, Part::none());
            put_told(l, 0, 0, 0, 0, 0)
        }
    }
}

pub fn put_replay(l: &mut [u32], k: Standing)
    ensures { l.new ≡ sets l.old 0 (numbers_of k) }
{
    let r = k.regs;
    let g = k.stage;
    lent::put_registers(l, r);
    lent::put(l, 10, k.steps);
    lent::put(l, 11, (k.states / 4294967296) as u32);
    lent::put(l, 12, (k.states % 4294967296) as u32);
    put_stage(l, g)
}
