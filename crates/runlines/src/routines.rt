// h8 run --routine: what h8 run says, and the endings of a routine's own run: a return, a ninth address, a return elsewhere.
#![tactic(auto, using(text::proofs::Adding::added_append, text::proofs::Adding::padded), unfolding(text::specs::Lines::added, crate::specs::Routines::out_text, crate::specs::Routines::stopped_text, crate::specs::Routines::routine_held))]

ghost use Rattle.std.specs.Prelude.{◌≡◌};
ghost use Rattle.text.specs.Lines.{added};
ghost use Rattle.runlines.specs.Routines.{kept_last, ninth_words, elsewhere_words, elsewhere_plain, ended_words, ended_plain, out_words, out_plain, out_text, was_begun, routine_text, routine_held};

use crate::runs;
use crate::runs::Given;
use routine::{Ending, RoutineAnswer};
use text::Line;
use wording::parts;

// The address that was kept last: where a return has to go.
fn kept_last(a: RoutineAnswer) -> u32
    ensures { result ≡ kept_last a }
{
    let n = a.kept.count as u64;
    let i = ((n + 7) % 8) as usize;
    a.kept.addresses[i]
}

fn elsewhere_words(l: &mut Line, pc: u32, to: u32)
    ensures { l.new ≡ added l.old (elsewhere_words pc to) }
{
    l.text("ended: before the return at ");
    l.place(pc);
    l.text(", which would go elsewhere than to ");
    l.place(to);
    l.byte(b'\n');
}

fn ninth_words(l: &mut Line, pc: u32)
    ensures { l.new ≡ added l.old (ninth_words pc) }
{
    l.text("ended: before the call at ");
    l.place(pc);
    l.text(", which would keep a ninth address\n");
}

fn ended_words(l: &mut Line, rom: &[u8], g: Given, e: Ending, pc: u32, to: u32)
    ensures { l.new ≡ added l.old (ended_words rom.now g e pc to) }
{
    match e {
        Ending::AtStop => runs::stop_words(l, g.stop),
        Ending::Spent => runs::spent_words(l, g.budget),
        Ending::Halted(f) => runs::halted_words(l, rom, f),
        Ending::Returned => l.text("ended: the routine has returned\n"),
        Ending::Ninth => ninth_words(l, pc),
        Ending::Elsewhere => elsewhere_words(l, pc, to),
    }
}

fn elsewhere_plain(l: &mut Line, to: u32)
    ensures { l.new ≡ added l.old (elsewhere_plain to) }
{
    l.text("ended elsewhere\n");
    parts::place(l, b"kept", to);
}

fn ended_plain(l: &mut Line, rom: &[u8], e: Ending, to: u32)
    ensures { l.new ≡ added l.old (ended_plain rom.now e to) }
{
    match e {
        Ending::AtStop => l.text("ended stop\n"),
        Ending::Spent => l.text("ended budget\n"),
        Ending::Halted(f) => runs::halted_plain(l, rom, f),
        Ending::Returned => l.text("ended return\n"),
        Ending::Ninth => l.text("ended ninth\n"),
        Ending::Elsewhere => elsewhere_plain(l, to),
    }
}

fn out_words(l: &mut Line, rom: &[u8], g: Given, a: RoutineAnswer)
    ensures { l.new ≡ added l.old (out_words rom.now g a) }
{
    runs::counts_words(l, g.entry, a.steps, a.states);
    ended_words(l, rom, g, a.why, a.regs.pc, kept_last(a));
}

fn out_plain(l: &mut Line, rom: &[u8], a: RoutineAnswer)
    ensures { l.new ≡ added l.old (out_plain rom.now a) }
{
    runs::counts_plain(l, a.steps, a.states);
    ended_plain(l, rom, a.why, kept_last(a));
}

fn out(l: &mut Line, rom: &[u8], g: Given, a: RoutineAnswer, plain: bool)
    ensures { l.new ≡ added l.old (out_text rom.now g a plain) }
{
    if plain {
        out_plain(l, rom, a);
    } else {
        out_words(l, rom, g, a);
    }
}

fn was_begun(e: Ending) -> bool
    ensures { result ≡ was_begun e }
{
    match e {
        Ending::Halted(f) => runs::tried(f),
        _ => true,
    }
}

// How the run of a routine went.
pub fn ran_out(l: &mut Line, rom: &[u8], g: Given, a: RoutineAnswer, plain: bool)
    ensures { l.new ≡ added l.old (routine_text rom.now g a plain) }
{
    match a.why {
        Ending::Halted(f) if !runs::tried(f) => runs::wrong(l, g, f, plain),
        _ => out(l, rom, g, a, plain),
    }
}

// The registers and flags that it leaves; nothing where nothing ran.
pub fn out_registers(l: &mut Line, a: RoutineAnswer, plain: bool)
    ensures { l.new ≡ added l.old (routine_held a plain) }
{
    if was_begun(a.why) {
        runs::held(l, a.regs, plain);
    }
}
