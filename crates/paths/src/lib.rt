// Paths over a listing: document 01, "The routine's figure". `Flow` is all they know of an instruction set.
#![tactic(auto)]

ghost use Rattle.std.specs.Prelude.{◌≡◌, ◌+◌, ◌-◌, ◌%◌, min, max, ◌||◌, nat_le, slice_index};
ghost use Rattle.paths.specs.MirrorRows.{barred, row_of, unpacked_of, level_of, shown_of, why_of, turned_of, own_of, better_of, toward_of, onward_of};
ghost use Rattle.paths.specs.MirrorPacked.{packed_bar, packed_at, packed_total, packed_join, packed_call, packed_up, packed_in, packed_flow, notes_for, notes_of, noted_of, kind_at};

use refusal::Refusal;

// Where paths go from a place, with the states of what stands there. Where there is nothing to follow a refusal stands in its stead: 2, 3, 4, 9 or 15.
#[derive(Clone, Copy)]
pub enum Flow {
    // the next instruction
    Next(u32, u64),
    // BRA and JMP aa:24: the target only
    Jump(u32, u64),
    // other conditions: the next instruction, and the target
    Either(u32, u32, u64),
    // BSR and JSR aa:24: the next instruction, and the routine that it enters
    Call(u32, u32, u64),
    // RTS
    Ends(u64),
}

// What a table holds of a place: the figure, and the lowest forbidden place. A pair, not a Result, as C reads it in the table (h8_figure of h8.h).
#[derive(Clone, Copy)]
pub struct Reckoned {
    pub figure: u64,
    pub low: u64,
}

// What stands at a place, noted in the upper halves of two numbers, whose lower halves are for rows: the place that it may go to and what kind it is, and
// the place where it goes on and its states. Packed, for the lent table has two numbers a place (h8_figure of h8.h).
#[derive(Clone, Copy)]
pub struct Notes {
    pub to: u64,
    pub on: u64,
}

const NONE: u64 = 16777215;

const LIMIT: u64 = 1000000000;

const HELD: u64 = 1000000001;

// A packed row is a number below 2^32: a figure as it is, or a lowest forbidden place taken from 2^32 - 1. So one with a place is above BAR and all
// figures, and of two with a place the larger has the lower one: the larger of two numbers tells which of two rows counts.
const HALF: u64 = 4294967296;

const BAR: u64 = 4278190080;

// A place, in the lower part of half a number.
const PLACES: u64 = 16777216;

// What is noted of a place, by a number: nothing to follow, a return, ways to one place or two, or a call.
#[derive(Clone, Copy)]
pub enum Kind {
    Stops,
    Returns,
    Goes,
    Calls,
}

impl Kind {
    fn of(number: u64) -> Kind
        ensures { result ≡ kind_at number }
    {
        match number {
            0 => Kind::Stops,
            1 => Kind::Returns,
            2 => Kind::Goes,
            _ => Kind::Calls,
        }
    }
}

// The packed row by an instruction of s states with `rest` after it, where `top` is the larger of the rows that it hangs on.
#[tactic(auto, unfolding(crate::specs::MirrorPacked::packed_total))]
fn total(s: u64, rest: u64, top: u64) -> u64
    ensures { result ≡ packed_total s rest top }
{
    let held = s.wrapping_add(rest).min(HELD);
    if BAR < top { top } else { held }
}

// The row above two rows.
#[tactic(auto, unfolding(crate::specs::MirrorPacked::packed_join))]
fn join(s: u64, a: u64, b: u64) -> u64
    ensures { result ≡ packed_join s a b }
{
    let top = a.max(b);
    total(s, top, top)
}

// The row of a call: the routine's longest path and then what follows.
#[tactic(auto, unfolding(crate::specs::MirrorPacked::packed_call))]
fn called(s: u64, routine: u64, next: u64) -> u64
    ensures { result ≡ packed_call s routine next }
{
    let top = routine.max(next);
    let both = routine.wrapping_add(next);
    total(s, both, top)
}

// The row of a forbidden place.
fn bar(p: u32) -> Reckoned
    ensures { result ≡ barred p }
{
    Reckoned {
        figure: 0,
        low: p as u64,
    }
}

// The same, packed.
#[tactic(auto, unfolding(crate::specs::MirrorPacked::packed_bar))]
fn packed_bar(p: u32) -> u64
    ensures { result ≡ packed_bar p }
{
    4294967295 - p as u64
}

#[tactic(auto, unfolding(crate::specs::MirrorRows::unpacked_of))]
fn unpacked(x: u64) -> Reckoned
    ensures { result ≡ unpacked_of x }
{
    let y = x % HALF;
    if BAR < y {
        Reckoned {
            figure: 0,
            low: 4294967295 - y,
        }
    } else {
        Reckoned {
            figure: y,
            low: NONE,
        }
    }
}

// What a table is left with, of the row of p with eight levels left.
#[tactic(auto, unfolding(crate::specs::MirrorRows::shown_of))]
pub fn shown(p: u32, r: Reckoned) -> Reckoned
    ensures { result ≡ shown_of p r }
{
    if LIMIT < r.figure { bar(p) } else { r }
}

// Whether a way of p does not go up.
fn goes_back(p: u32, n: u32, t: u32) -> bool
    ensures { result ≡ (nat_le n p || nat_le t p) }
{
    (n <= p) | (t <= p)
}

fn number_at(table: &[u64], i: usize) -> u64
    ensures { result ≡ slice_index table.now i }
{
    table.get(i).copied().unwrap_or(0)
}

// The table that is left of a memory of `len` bytes: two numbers a place.
#[derive(Clone, Copy)]
pub struct Filled<'a> {
    pub len: usize,
    pub table: &'a [u64],
}

impl<'a> Filled<'a> {
    // The row of the place q: what the table has, or that of a place outside the memory.
    #[tactic(auto, unfolding(crate::specs::MirrorRows::row_of))]
    pub fn row(self, q: u32) -> Reckoned
        ensures { result ≡ row_of self.entry.len self.entry.table.now q }
    {
        let at = q as usize;
        if at < self.len {
            Reckoned {
                figure: number_at(self.table, at),
                low: number_at(self.table, at + 1),
            }
        } else {
            bar(q)
        }
    }

    // The longer of two ways.
    #[tactic(auto, unfolding(crate::specs::MirrorRows::better_of))]
    fn better(self, n: u32, t: u32) -> u32
        ensures { result ≡ better_of self.entry.len self.entry.table.now n t }
    {
        let a = self.row(n);
        let b = self.row(t);
        if a.figure < b.figure { t } else { n }
    }

    // Where the longest way goes on from a place with the flow f; nowhere, where it returns.
    #[tactic(auto, unfolding(crate::specs::MirrorRows::toward_of))]
    fn toward(self, f: Flow) -> Option<u32>
        ensures { result ≡ toward_of self.entry.len self.entry.table.now f }
    {
        match f {
            Flow::Next(n, _) => Some(n),
            Flow::Jump(t, _) => Some(t),
            Flow::Either(n, t, _) => Some(self.better(n, t)),
            Flow::Call(n, _, _) => Some(n),
            Flow::Ends(_) => None,
        }
    }

    // The same, and why there is nothing to follow, where that is so.
    #[tactic(auto, unfolding(crate::specs::MirrorRows::onward_of))]
    pub fn onward(self, f: Result<Flow, Refusal>) -> Result<Option<u32>, Refusal>
        ensures { result ≡ onward_of self.entry.len self.entry.table.now f }
    {
        Ok(self.toward(f?))
    }
}

// The same while it is filled, with `depth` levels of calls left: a place has the packed rows of two depths.
#[derive(Clone, Copy)]
pub struct Level<'a> {
    pub len: usize,
    pub table: &'a [u64],
    pub depth: u32,
}

impl<'a> Level<'a> {
    fn number(self, q: u32) -> u64
        ensures { result ≡ slice_index self.entry.table.now (q + self.entry.depth % 2) }
    {
        number_at(self.table, q as usize + (self.depth % 2) as usize)
    }

    // The row of the place q.
    #[tactic(auto, unfolding(crate::specs::MirrorRows::level_of))]
    pub fn row(self, q: u32) -> Reckoned
        ensures { result ≡ level_of self.entry.len self.entry.table.now self.entry.depth q }
    {
        if (q as usize) < self.len {
            unpacked(self.number(q))
        } else {
            bar(q)
        }
    }

    // The same, packed.
    #[tactic(auto, unfolding(crate::specs::MirrorPacked::packed_at))]
    fn packed(self, q: u32) -> u64
        ensures { result ≡ packed_at self.entry.len self.entry.table.now self.entry.depth q }
    {
        if (q as usize) < self.len {
            self.number(q) % HALF
        } else {
            packed_bar(q)
        }
    }

    // The packed row of p by the rows of n and t, which follow it.
    fn above(self, n: u32, t: u32, s: u64) -> u64
        ensures { result ≡ packed_join s (packed_at self.entry.len self.entry.table.now self.entry.depth n) (packed_at self.entry.len self.entry.table.now self.entry.depth t) }
    {
        join(s, self.packed(n), self.packed(t))
    }

    // The same, where a way that does not go up forbids p.
    #[tactic(auto, unfolding(crate::specs::MirrorPacked::packed_up))]
    fn upward(self, p: u32, n: u32, t: u32, s: u64) -> u64
        ensures { result ≡ packed_up (packed_at self.entry.len self.entry.table.now self.entry.depth) (packed_at self.entry.len self.entry.table.now (self.entry.depth - 1)) p n t s }
    {
        if goes_back(p, n, t) {
            packed_bar(p)
        } else {
            self.above(n, t, s)
        }
    }

    // The row of a call at p: it may enter any place, with a level less, and goes on at n.
    #[tactic(auto, unfolding(crate::specs::MirrorPacked::packed_in))]
    fn entered(self, p: u32, n: u32, t: u32, s: u64) -> u64
        ensures { result ≡ packed_in (packed_at self.entry.len self.entry.table.now self.entry.depth) (packed_at self.entry.len self.entry.table.now (self.entry.depth - 1)) self.entry.depth p n t s }
    {
        if self.depth == 0 {
            return packed_bar(p);
        }
        let below = Level {
            depth: self.depth - 1,
            ..self
        };
        called(s, below.packed(t), self.packed(n))
    }

    // The packed row of the place p, where `to` and `on` are what is noted there: from the rows of the places above it, and of all places with a level less.
    #[tactic(auto, unfolding(crate::specs::MirrorPacked::packed_flow, crate::specs::MirrorPacked::noted_of, crate::specs::MirrorPacked::kind_of))]
    pub fn reckon(self, p: u32, to: u64, on: u64) -> u64
        ensures { result ≡ packed_flow (packed_at self.entry.len self.entry.table.now self.entry.depth) (packed_at self.entry.len self.entry.table.now (self.entry.depth - 1)) self.entry.depth p (noted_of to on) }
    {
        let n = (on % PLACES) as u32;
        let t = (to % PLACES) as u32;
        let s = on / PLACES;
        match Kind::of(to / PLACES) {
            Kind::Stops => packed_bar(p),
            Kind::Returns => s.min(HELD),
            Kind::Goes => self.upward(p, n, t, s),
            Kind::Calls => self.entered(p, n, t, s),
        }
    }
}

#[tactic(auto, unfolding(crate::specs::MirrorPacked::notes_for))]
fn notes_for(kind: Kind, n: u32, t: u32, s: u64) -> Notes
    ensures { result ≡ notes_for kind n t s }
{
    let target = t as u64;
    let next = n as u64;
    Notes {
        to: (target % PLACES + (kind as u64) * PLACES) * HALF,
        on: (next % PLACES + (s % 256) * PLACES) * HALF,
    }
}

// What is to be noted of a place with the flow f. Why there is nothing to follow is not.
#[tactic(auto, unfolding(crate::specs::MirrorPacked::notes_of))]
pub fn noted(f: Result<Flow, Refusal>) -> Notes
    ensures { result ≡ notes_of f }
{
    match f {
        Ok(Flow::Next(n, s)) => notes_for(Kind::Goes, n, n, s),
        Ok(Flow::Jump(t, s)) => notes_for(Kind::Goes, t, t, s),
        Ok(Flow::Either(n, t, s)) => notes_for(Kind::Goes, n, t, s),
        Ok(Flow::Call(n, t, s)) => notes_for(Kind::Calls, n, t, s),
        Ok(Flow::Ends(s)) => notes_for(Kind::Returns, 0, 0, s),
        Err(_) => notes_for(Kind::Stops, 0, 0, 0),
    }
}

// Why the place p with the flow f is forbidden, if it is.
#[tactic(auto, unfolding(crate::specs::MirrorRows::why_of))]
pub fn why(p: u32, f: Result<Flow, Refusal>) -> Refusal
    ensures { result ≡ why_of p f }
{
    match f {
        Ok(Flow::Call(_, _, _)) => Refusal::TooDeep(p),
        Ok(_) => Refusal::NotUpward(p),
        Err(r) => r,
    }
}

#[tactic(auto, unfolding(crate::specs::MirrorRows::turned_of))]
fn turned(p: u32, n: u32, t: u32) -> Refusal
    ensures { result ≡ turned_of p n t }
{
    if goes_back(p, n, t) {
        Refusal::NotUpward(p)
    } else {
        Refusal::TooLong(p)
    }
}

// Why a table has the own address of p in its row. At a call that stands for 22 and for 16 alike, and 22 is said.
#[tactic(auto, unfolding(crate::specs::MirrorRows::own_of))]
pub fn own(p: u32, f: Result<Flow, Refusal>) -> Refusal
    ensures { result ≡ own_of p f }
{
    match f {
        Ok(Flow::Next(n, _)) => turned(p, n, n),
        Ok(Flow::Jump(t, _)) => turned(p, t, t),
        Ok(Flow::Either(n, t, _)) => turned(p, n, t),
        Ok(Flow::Call(_, _, _) | Flow::Ends(_)) => Refusal::TooLong(p),
        Err(r) => r,
    }
}
