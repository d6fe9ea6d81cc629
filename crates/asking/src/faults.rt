// What is wrong with an argument, in one line.
#![tactic(auto, using(text::proofs::Adding::added_append), unfolding(text::specs::Lines::added, crate::specs::Faults::error_text, crate::specs::Faults::shown_of))]

ghost use Rattle.std.specs.Prelude.{◌≡◌};
ghost use Rattle.text.specs.Lines.{added};
ghost use Rattle.asking.specs.Faults.{error_text, missing_text, wrong_text, expected_text, shown_of};

use text::Line;

fn error(plain: bool) -> &'static str
    ensures { result.now ≡ error_text plain }
{
    if plain { "error " } else { "error: " }
}

pub fn missing(l: &mut Line, plain: bool, name: &[u8], expected: &[u8])
    ensures { l.new ≡ added l.old (missing_text plain name.now expected.now) }
{
    l.text(error(plain));
    l.bytes(name);
    l.text(" is missing: expected ");
    l.bytes(expected);
    l.byte(b'\n');
}

// What stands before the argument as it was given.
pub fn wrong(l: &mut Line, plain: bool, name: &[u8], is: &[u8])
    ensures { l.new ≡ added l.old (wrong_text plain name.now is.now) }
{
    l.text(error(plain));
    l.bytes(name);
    l.bytes(is);
}

// What stands behind it.
pub fn expected(l: &mut Line, what: &[u8])
    ensures { l.new ≡ added l.old (expected_text what.now) }
{
    l.text(": expected ");
    l.bytes(what);
    l.byte(b'\n');
}

// A byte that would end the line or steer the screen is shown as a question mark.
pub fn shown(b: u8) -> u8
    ensures { result ≡ shown_of b }
{
    if b < 32 || b == 127 { b'?' } else { b }
}
