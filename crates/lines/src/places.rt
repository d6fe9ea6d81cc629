// h8 list and h8 way: a place, its bytes, text and states, and last its figure or the total of the way.
#![tactic(auto, using(text::proofs::Adding::added_append, text::proofs::Adding::padded), unfolding(text::specs::Lines::added, crate::specs::Places::standing_text, crate::specs::Places::last_number, crate::specs::Places::lowest_text, crate::specs::Places::row_text, crate::specs::Places::listed_text, crate::specs::Places::on_way_text, crate::specs::Places::total_of, crate::specs::Places::list_heading, crate::specs::Places::way_heading))]

ghost use Rattle.std.specs.Prelude.{◌≡◌, [], length};
ghost use Rattle.listing.specs.Listing.{decoded_at};
ghost use Rattle.text.specs.Lines.{added};
ghost use Rattle.lines.specs.Places.{length_of, count_of, states_words, states_plain, columns_text, named_text, standing_text, last_number, lowest_text, row_text, listed_text, on_way_text, total_of, list_heading, way_heading};

use codes::Instruction;
use paths::{Filled, Reckoned};
use refusal::Refusal;
use site::Site;
use text::Line;
use wording::parts;

// The lowest forbidden place of a row that has none. A number, since a row is two numbers of a lent table.
const NONE: u64 = 16777215;

fn length(d: Result<(Instruction, usize), Refusal>) -> u8
    ensures { result ≡ length_of d }
{
    match d {
        Ok((_, n)) => (n % 256) as u8,
        Err(_) => 2,
    }
}

fn count(k: Site, d: Result<(Instruction, usize), Refusal>) -> u32
    ensures { result ≡ count_of k d }
{
    match d {
        Ok((i, _)) => timing::parts::counted(k, i),
        Err(_) => 0,
    }
}

// A ROM, with the site of the boards that its figures are for.
#[derive(Clone, Copy)]
pub struct Code<'a> {
    pub site: Site,
    pub rom: &'a [u8],
}

impl Code<'_> {
    fn decoded(self, p: u32) -> Result<(Instruction, usize), Refusal>
        ensures { result ≡ decoded_at self.entry.rom.now p }
    {
        wording::decoded(self.rom, p)
    }

    // How many bytes stand at the place p.
    pub fn length_at(self, p: u32) -> u8
        ensures { result ≡ length_of (decoded_at self.entry.rom.now p) }
    {
        length(self.decoded(p))
    }

    // The total of a way with what the figure counts at p.
    pub fn total(self, p: u32, before: u64) -> u64
        ensures { result ≡ total_of self.entry.site self.entry.rom.now p before }
    {
        let n = count(self.site, self.decoded(p));
        before.wrapping_add(u64::from(n))
    }

    fn states_words(self, l: &mut Line, p: u32)
        ensures { l.new ≡ added l.old (states_words self.entry.site (decoded_at self.entry.rom.now p)) }
    {
        match self.decoded(p) {
            Ok((i, _)) => l.decimal(u64::from(timing::parts::counted(self.site, i))),
            Err(_) => l.byte(b'-'),
        }
    }

    fn states_plain(self, l: &mut Line, p: u32)
        ensures { l.new ≡ added l.old (states_plain self.entry.site (decoded_at self.entry.rom.now p)) }
    {
        if let Ok((i, _)) = self.decoded(p) {
            parts::number(
                l,
                b"states",
                u64::from(timing::parts::counted(self.site, i)),
            );
        }
    }

    fn columns(self, p: u32) -> Line
        ensures { result ≡ added [] (columns_text self.entry.site self.entry.rom.now p (decoded_at self.entry.rom.now p)) }
    {
        let mut l = Line::new();
        l.place(p);
        l.pad(10);
        wording::bytes(&mut l, self.rom, p, self.length_at(p));
        l.pad(28);
        wording::found_at(&mut l, self.rom, p);
        l.pad(58);
        self.states_words(&mut l, p);
        l.pad(66);
        l
    }

    fn named(self, p: u32) -> Line
        ensures { result ≡ added [] (named_text self.entry.site self.entry.rom.now p (decoded_at self.entry.rom.now p)) }
    {
        let mut l = Line::new();
        parts::place(&mut l, b"place", p);
        l.text("bytes ");
        wording::bytes(&mut l, self.rom, p, self.length_at(p));
        l.text("\ntext ");
        wording::found_at(&mut l, self.rom, p);
        l.byte(b'\n');
        self.states_plain(&mut l, p);
        l
    }

    // All of a place but what stands last.
    fn standing(self, p: u32, plain: bool) -> Line
        ensures { result ≡ added [] (standing_text self.entry.site self.entry.rom.now p (decoded_at self.entry.rom.now p) plain) }
    {
        if plain {
            self.named(p)
        } else {
            self.columns(p)
        }
    }

    // A place of a listing, with the rows of a table that figure filled.
    pub fn listed(self, table: &[u64], p: u32, plain: bool) -> Line
        ensures { result ≡ added [] (listed_text self.entry.site self.entry.rom.now table.now p plain) }
    {
        let mut l = self.standing(p, plain);
        let filled = Filled {
            len: self.rom.len(),
            table,
        };
        row(&mut l, filled.row(p), plain);
        l
    }

    // A place of a way, with the total up to it.
    pub fn on_way(self, p: u32, total: u64, plain: bool) -> Line
        ensures { result ≡ added [] (on_way_text self.entry.site self.entry.rom.now p total plain) }
    {
        let mut l = self.standing(p, plain);
        last_number(&mut l, "total", total, plain);
        l
    }
}

pub fn last_number(l: &mut Line, name: &str, n: u64, plain: bool)
    ensures { l.new ≡ added l.old (last_number name.now n plain) }
{
    if plain {
        parts::number(l, name.as_bytes(), n);
    } else {
        l.decimal(n);
        l.byte(b'\n');
    }
}

fn lowest(l: &mut Line, p: u32, plain: bool)
    ensures { l.new ≡ added l.old (lowest_text p plain) }
{
    if plain {
        parts::place(l, b"lowest", p);
    } else {
        l.text("refused at ");
        l.place(p);
        l.byte(b'\n');
    }
}

fn row(l: &mut Line, r: Reckoned, plain: bool)
    ensures { l.new ≡ added l.old (row_text r plain) }
{
    if r.low == NONE {
        last_number(l, "figure", r.figure, plain);
    } else {
        lowest(l, (r.low % 16777216) as u32, plain);
    }
}

// The headings stay apart: each is its own text, and one function for both would only pass it on.
pub fn list_heading(l: &mut Line, plain: bool)
    ensures { l.new ≡ added l.old (list_heading plain) }
{
    if !plain {
        l.text("place     bytes             text                          states  figure\n");
    }
}

pub fn way_heading(l: &mut Line, plain: bool)
    ensures { l.new ≡ added l.old (way_heading plain) }
{
    if !plain {
        l.text("place     bytes             text                          states  total\n");
    }
}
