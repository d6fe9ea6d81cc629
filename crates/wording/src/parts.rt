// Lines of one name and value, and refusals.
ghost use Rattle.std.specs.Prelude.{◌≡◌};
ghost use Rattle.text.specs.Lines.{added};
ghost use Rattle.wording.specs.Parts.{number_line, place_line, group_line, numbered_text, before_text, refused_text};

use refusal::Refusal;
use text::Line;

pub fn number(l: &mut Line, name: &[u8], n: u64)
    ensures { l.new ≡ added l.old (number_line name.now n) }
{
    l.bytes(name);
    l.byte(b' ');
    l.decimal(n);
    l.byte(b'\n');
}

pub fn place(l: &mut Line, name: &[u8], p: u32)
    ensures { l.new ≡ added l.old (place_line name.now p) }
{
    l.bytes(name);
    l.byte(b' ');
    l.place(p);
    l.byte(b'\n');
}

#[tactic(auto, using(text::proofs::Adding::added_append), unfolding(text::specs::Lines::added, crate::specs::Parts::group_line))]
fn grouped(l: &mut Line, g: u32)
    ensures { l.new ≡ added l.old (group_line g) }
{
    if g != 0 {
        number(l, b"group", u64::from(g));
    }
}

fn numbered(l: &mut Line, f: Refusal)
    ensures { l.new ≡ added l.old (numbered_text f) }
{
    number(l, b"refusal", u64::from(f.number()));
    place(l, b"place", f.place());
    grouped(l, f.group());
    l.text("why ");
}

// What stands before a refusal's words; in the plain form its number, place and group have lines of their own.
#[tactic(auto, using(text::proofs::Adding::added_append), unfolding(text::specs::Lines::added, crate::specs::Parts::before_text))]
pub fn before(l: &mut Line, f: Refusal, plain: bool)
    ensures { l.new ≡ added l.old (before_text f plain) }
{
    if plain {
        numbered(l, f);
    } else {
        l.text("refused: ");
    }
}

pub fn refused(l: &mut Line, rom: &[u8], f: Refusal, plain: bool)
    ensures { l.new ≡ added l.old (refused_text rom.now f plain) }
{
    before(l, f, plain);
    crate::refusal(l, rom, f);
    l.byte(b'\n');
}
