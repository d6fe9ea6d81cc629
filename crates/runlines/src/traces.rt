// h8 run --trace: a step's place, text and states, and the data accesses that it made.
#![tactic(auto, using(text::proofs::Adding::added_append, text::proofs::Adding::padded), unfolding(text::specs::Lines::added, crate::specs::Traces::access_text, crate::specs::Traces::stepped_text, crate::specs::Traces::end_text, crate::specs::Traces::traced_text, crate::specs::Traces::trace_heading))]

ghost use Rattle.std.specs.Prelude.{◌≡◌, []};
ghost use Rattle.text.specs.Lines.{added};
ghost use Rattle.runlines.specs.Traces.{way_words, access_words, way_plain, access_plain, access_text, accesses_text, traced_words, traced_plain, stepped_text, end_text, traced_text, trace_heading};

use memory::told::{Access, Accesses};
use text::Line;
use wording::parts;

fn way_words(write: bool) -> &'static str
    ensures { result.now ≡ way_words write }
{
    if write { "  W" } else { "  R" }
}

fn way_plain(write: bool) -> &'static str
    ensures { result.now ≡ way_plain write }
{
    if write { "write " } else { "read " }
}

fn access_words(l: &mut Line, x: Access)
    ensures { l.new ≡ added l.old (access_words x) }
{
    l.text(way_words(x.write));
    l.decimal(u64::from(x.bytes));
    l.text(" H'");
    l.hex(6, true, x.place);
}

fn access_plain(l: &mut Line, x: Access)
    ensures { l.new ≡ added l.old (access_plain x) }
{
    l.text(way_plain(x.write));
    l.decimal(u64::from(x.bytes));
    l.byte(b' ');
    l.place(x.place);
    l.byte(b'\n');
}

fn access(l: &mut Line, x: Access, plain: bool)
    ensures { l.new ≡ added l.old (access_text plain x) }
{
    if plain {
        access_plain(l, x);
    } else {
        access_words(l, x);
    }
}

fn accesses(l: &mut Line, list: &Accesses, plain: bool)
    ensures { l.new ≡ added l.old (accesses_text plain list.now.items) }
{
    for &x in list.as_slice() {
        access(l, x, plain);
    }
}

fn in_words(rom: &[u8], p: u32, states: u32) -> Line
    ensures { result ≡ added [] (traced_words rom.now p states) }
{
    let mut l = Line::new();
    l.place(p);
    l.pad(10);
    wording::found_at(&mut l, rom, p);
    l.pad(40);
    l.decimal(u64::from(states));
    l
}

fn in_names(rom: &[u8], p: u32, states: u32) -> Line
    ensures { result ≡ added [] (traced_plain rom.now p states) }
{
    let mut l = Line::new();
    parts::place(&mut l, b"place", p);
    l.text("text ");
    wording::found_at(&mut l, rom, p);
    l.byte(b'\n');
    parts::number(&mut l, b"states", u64::from(states));
    l
}

fn stepped(rom: &[u8], p: u32, states: u32, plain: bool) -> Line
    ensures { result ≡ added [] (stepped_text rom.now p states plain) }
{
    if plain {
        in_names(rom, p, states)
    } else {
        in_words(rom, p, states)
    }
}

fn ended(l: &mut Line, plain: bool)
    ensures { l.new ≡ added l.old (end_text plain) }
{
    if !plain {
        l.byte(b'\n');
    }
}

// A completed step at the place p, with its states and its list.
pub fn traced(rom: &[u8], p: u32, states: u32, list: &Accesses, plain: bool) -> Line
    ensures { result ≡ added [] (traced_text rom.now p states list.now.items plain) }
{
    let mut l = stepped(rom, p, states, plain);
    accesses(&mut l, list, plain);
    ended(&mut l, plain);
    l
}

pub fn trace_heading(l: &mut Line, plain: bool)
    ensures { l.new ≡ added l.old (trace_heading plain) }
{
    if !plain {
        l.text("place     text                          states, reads and writes\n");
    }
}
