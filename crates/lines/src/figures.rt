// h8 figure: the longest way in states, and whether it fits a gap.
#![tactic(auto, using(text::proofs::Adding::added_append, text::proofs::Adding::padded), unfolding(text::specs::Lines::added, crate::specs::Figures::longest_text, crate::specs::Figures::gap_words, crate::specs::Figures::fits_plain, crate::specs::Figures::against_text))]

ghost use Rattle.std.specs.Prelude.{◌≡◌};
ghost use Rattle.text.specs.Lines.{added};
ghost use Rattle.lines.specs.Figures.{longest_words, longest_text, gap_line, gap_words, fits_plain, gap_plain, gap_text, figure_text};

use refusal::Refusal;
use text::Line;
use wording::parts;

fn longest_words(l: &mut Line, entry: u32, n: u64)
    ensures { l.new ≡ added l.old (longest_words entry n) }
{
    l.text("the longest way from ");
    l.place(entry);
    l.text(" takes ");
    l.decimal(n);
    l.text(" states\n");
}

// The figure of an entry; the last line of a way, too.
pub fn longest(l: &mut Line, entry: u32, n: u64, plain: bool)
    ensures { l.new ≡ added l.old (longest_text entry n plain) }
{
    if plain {
        parts::number(l, b"figure", n);
    } else {
        longest_words(l, entry, n);
    }
}

// A gap and how much of it is left or missing.
fn gap_line(l: &mut Line, first: &str, gap: u64, rest: u64, last: &str)
    ensures { l.new ≡ added l.old (gap_line first.now gap rest last.now) }
{
    l.text(first);
    l.decimal(gap);
    l.text(" states: ");
    l.decimal(rest);
    l.text(last);
}

fn gap_words(l: &mut Line, n: u64, gap: u64)
    ensures { l.new ≡ added l.old (gap_words n gap) }
{
    if n <= gap {
        gap_line(l, "it fits the gap of ", gap, gap - n, " are left\n");
    } else {
        gap_line(
            l,
            "it does not fit the gap of ",
            gap,
            n - gap,
            " are missing\n",
        );
    }
}

fn fits_plain(l: &mut Line, n: u64, gap: u64)
    ensures { l.new ≡ added l.old (fits_plain n gap) }
{
    if n <= gap {
        l.text("fits yes\n");
        parts::number(l, b"left", gap - n);
    } else {
        l.text("fits no\n");
        parts::number(l, b"missing", n - gap);
    }
}

fn gap_plain(l: &mut Line, n: u64, gap: u64)
    ensures { l.new ≡ added l.old (gap_plain n gap) }
{
    parts::number(l, b"gap", gap);
    fits_plain(l, n, gap);
}

fn in_gap(l: &mut Line, n: u64, gap: Option<u64>, plain: bool)
    ensures { l.new ≡ added l.old (gap_text n gap plain) }
{
    match gap {
        Some(gap) if plain => gap_plain(l, n, gap),
        Some(gap) => gap_words(l, n, gap),
        None => {}
    }
}

// The verdict on an entry, against a gap if there is one.
pub fn figure(
    l: &mut Line,
    rom: &[u8],
    v: Result<u64, Refusal>,
    entry: u32,
    gap: Option<u64>,
    plain: bool,
)
    ensures { l.new ≡ added l.old (figure_text rom.now v entry gap plain) }
{
    match v {
        Ok(n) => {
            longest(l, entry, n, plain);
            in_gap(l, n, gap, plain);
        }
        Err(f) => parts::refused(l, rom, f, plain),
    }
}
