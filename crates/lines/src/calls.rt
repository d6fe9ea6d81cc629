// h8 way at a call: the routine that it enters, in a line with its states and the total; or how deep a place of it lies.
#![tactic(auto, using(text::proofs::Adding::added_append, text::proofs::Adding::padded), unfolding(text::specs::Lines::added, crate::specs::Calls::with_call, crate::specs::Calls::inside_text, crate::specs::Calls::level_text))]

ghost use Rattle.std.specs.Prelude.{◌≡◌, []};
ghost use Rattle.listing.specs.Listing.{flow_at};
ghost use Rattle.text.specs.Lines.{added};
ghost use Rattle.lines.specs.Calls.{entered_by, inside_of, with_call, inside_columns, inside_named, inside_text, line_text, call_text, level_text};

use crate::places;
use crate::places::Code;
use paths::{Filled, Flow};
use refusal::Refusal;
use text::Line;
use wording::parts;

fn entered(f: Result<Flow, Refusal>) -> Option<u32>
    ensures { result ≡ entered_by f }
{
    match f {
        Ok(Flow::Call(_, t, _)) => Some(t),
        _ => None,
    }
}

fn inside_columns(t: u32, n: u64) -> Line
    ensures { result ≡ added [] (inside_columns t n) }
{
    let mut l = Line::new();
    l.text("                            the routine at ");
    l.place(t);
    l.pad(58);
    l.decimal(n);
    l.pad(66);
    l
}

fn inside_named(t: u32, n: u64) -> Line
    ensures { result ≡ added [] (inside_named t n) }
{
    let mut l = Line::new();
    parts::place(&mut l, b"routine", t);
    parts::number(&mut l, b"states", n);
    l
}

fn inside_text(t: u32, n: u64, plain: bool) -> Line
    ensures { result ≡ added [] (inside_text t n plain) }
{
    if plain {
        inside_named(t, n)
    } else {
        inside_columns(t, n)
    }
}

fn line(t: u32, n: u64, total: u64, plain: bool) -> Line
    ensures { result ≡ added [] (line_text t n total plain) }
{
    let mut l = inside_text(t, n, plain);
    places::last_number(&mut l, "total", total, plain);
    l
}

impl Code<'_> {
    // Where the routine begins that is called at the place p, if a call stands there.
    pub fn called(self, p: u32) -> Option<u32>
        ensures { result ≡ entered_by (flow_at self.entry.site self.entry.rom.now p) }
    {
        entered(listing::flow_at(self.site, self.rom, p))
    }

    // What the routine takes that is called, by a table that figure filled; where none is, nothing.
    fn inside(self, table: &[u64], called: Option<u32>) -> u64
        ensures { result ≡ inside_of self.entry.rom.now table.now called }
    {
        let filled = Filled {
            len: self.rom.len(),
            table,
        };
        match called {
            Some(t) => filled.row(t).figure,
            None => 0,
        }
    }

    // The total of a way with the routine that is called at p.
    pub fn with_call(self, table: &[u64], p: u32, before: u64) -> u64
        ensures { result ≡ with_call self.entry.site self.entry.rom.now table.now p before }
    {
        before.wrapping_add(self.inside(table, self.called(p)))
    }

    // The routine that is called at the place p of a way, with the total up to its end; nothing where no call stands.
    pub fn on_call(self, table: &[u64], p: u32, total: u64, plain: bool) -> Line
        ensures { result ≡ added [] (call_text self.entry.site self.entry.rom.now table.now p total plain) }
    {
        let to = self.called(p);
        match to {
            Some(t) => line(t, self.inside(table, to), total, plain),
            None => Line::new(),
        }
    }
}

// Before a place of a way that is shown with what it calls: how many calls deep it lies.
pub fn level(depth: u8, plain: bool) -> Line
    ensures { result ≡ added [] (level_text depth plain) }
{
    let mut l = Line::new();
    if plain {
        parts::number(&mut l, b"level", u64::from(depth));
    } else {
        l.pad(usize::from(depth) * 2);
    }
    l
}
