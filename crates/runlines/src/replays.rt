// h8 replay: whether all records agree, which differs and where, or what was refused.
#![tactic(auto, using(text::proofs::Adding::added_append, text::proofs::Adding::padded), unfolding(text::specs::Lines::added, crate::specs::Replays::replayed_text, crate::specs::Replays::differs_text, crate::specs::Replays::there_text, crate::specs::Replays::stopped_text))]

ghost use Rattle.std.specs.Prelude.{◌≡◌, ◌++◌};
ghost use Rattle.text.specs.Lines.{added, ascii};
ghost use Rattle.text.specs.Numbers.{place_of, decimal_of};
ghost use Rattle.wording.specs.Standing.{stands_at};
ghost use Rattle.wording.specs.Parts.{number_line, place_line};
ghost use Rattle.runlines.specs.Replays.{replayed_text, field_words, field_name, value_text, differs_words, differs_plain, differs_text, there_text, stopped_text};

use refusal::Refusal;
use replay::Field;
use text::Line;
use wording::parts;

fn counts(l: &mut Line, records: u32, states: u64)
    ensures { l.new ≡ added l.old (number_line (ascii "agreed") records ++ number_line (ascii "states") states) }
{
    parts::number(l, b"agreed", u64::from(records));
    parts::number(l, b"states", states);
}

fn sentence(l: &mut Line, first: &[u8], records: u32, middle: &[u8], states: u64)
    ensures { l.new ≡ added l.old (first.now ++ (decimal_of records ++ (middle.now ++ (decimal_of states ++ ascii "\n")))) }
{
    l.bytes(first);
    l.decimal(u64::from(records));
    l.bytes(middle);
    l.decimal(states);
    l.byte(b'\n');
}

// The records that agreed and their states; in words what stands before each of the two is given.
pub fn replayed(l: &mut Line, first: &[u8], records: u32, middle: &[u8], states: u64, plain: bool)
    ensures { l.new ≡ added l.old (replayed_text first.now records middle.now states plain) }
{
    if plain {
        counts(l, records, states);
    } else {
        sentence(l, first, records, middle, states);
    }
}

fn field_words(f: Field) -> &'static str
    ensures { result.now ≡ field_words f }
{
    match f {
        Field::OfPc => "PC is ",
        Field::OfCondition => "the condition byte is ",
        Field::OfStates => "the number of states is ",
    }
}

fn field_name(f: Field) -> &'static str
    ensures { result.now ≡ field_name f }
{
    match f {
        Field::OfPc => "field pc\n",
        Field::OfCondition => "field condition\n",
        Field::OfStates => "field states\n",
    }
}

fn value(l: &mut Line, f: Field, v: u32)
    ensures { l.new ≡ added l.old (value_text f v) }
{
    match f {
        Field::OfPc => l.place(v),
        Field::OfCondition => {
            l.text("0x");
            l.hex(2, false, v);
        }
        Field::OfStates => l.decimal(u64::from(v)),
    }
}

fn differs_words(l: &mut Line, n: u32, f: Field, here: u32, there: u32)
    ensures { l.new ≡ added l.old (differs_words n f here there) }
{
    l.text("record ");
    l.decimal(u64::from(n));
    l.text(" differs: ");
    l.text(field_words(f));
    value(l, f, here);
    l.text(" here and ");
    value(l, f, there);
    l.text(" in the recording\n");
}

fn differs_plain(l: &mut Line, n: u32, f: Field, here: u32, there: u32)
    ensures { l.new ≡ added l.old (differs_plain n f here there) }
{
    parts::number(l, b"record", u64::from(n));
    l.text(field_name(f));
    l.text("here ");
    value(l, f, here);
    l.text("\nrecorded ");
    value(l, f, there);
    l.byte(b'\n');
}

// Record n differs in a field: what it is here, and in the recording.
pub fn differs(l: &mut Line, n: u32, f: Field, here: u32, there: u32, plain: bool)
    ensures { l.new ≡ added l.old (differs_text n f here there plain) }
{
    if plain {
        differs_plain(l, n, f, here, there);
    } else {
        differs_words(l, n, f, here, there);
    }
}

fn stands_plain(l: &mut Line, rom: &[u8], p: u32)
    ensures { l.new ≡ added l.old (place_line (ascii "place") p ++ (ascii "text " ++ (stands_at rom.now p ++ ascii "\n"))) }
{
    parts::place(l, b"place", p);
    l.text("text ");
    wording::stands(l, rom, p);
    l.byte(b'\n');
}

fn stands_words(l: &mut Line, rom: &[u8], p: u32)
    ensures { l.new ≡ added l.old (ascii "at " ++ (place_of p ++ (ascii " stands " ++ (stands_at rom.now p ++ ascii "\n")))) }
{
    l.text("at ");
    l.place(p);
    l.text(" stands ");
    wording::stands(l, rom, p);
    l.byte(b'\n');
}

// What stands at PC.
pub fn there(l: &mut Line, rom: &[u8], p: u32, plain: bool)
    ensures { l.new ≡ added l.old (there_text rom.now p plain) }
{
    if plain {
        stands_plain(l, rom, p);
    } else {
        stands_words(l, rom, p);
    }
}

// A refusal of a replay.
pub fn stopped(l: &mut Line, rom: &[u8], f: Refusal, plain: bool)
    ensures { l.new ≡ added l.old (stopped_text rom.now f plain) }
{
    if f.number() == 12 {
        parts::before(l, f, plain);
        l.text("12: the recording has more than 1000000 records\n");
    } else {
        parts::refused(l, rom, f, plain);
    }
}
