// What stands at a place, and refusals, in words; lines of one name and value.
#![tactic(auto, using(text::proofs::Adding::added_append), unfolding(text::specs::Lines::added))]

pub mod parts;
pub mod ports;

ghost use Rattle.std.specs.Prelude.{◌≡◌, ◌++◌, ◌/◌, ◌%◌, ◌^◌, length};
ghost use Rattle.site.specs.Costs.{no_ports};
ghost use Rattle.listing.specs.Listing.{flow_at, decoded_at};
ghost use Rattle.text.specs.Lines.{added, ascii};
ghost use Rattle.text.specs.Numbers.{decimal_of};
ghost use Rattle.wording.specs.Standing.{byte_text, bytes_at, not_held_text, no_code_text, found_text, stands_at};
ghost use Rattle.wording.specs.Refusals.{at_place, back_of, upward_text, short_text, group_name, left_out_text, record_text, refusal_text};

use codes::Instruction;
use paths::Flow;
use refusal::Refusal;
use text::Line;

// The byte at an address by its hexadecimal digits; past the end nothing.
#[tactic(auto, using(text::proofs::Adding::added_append), unfolding(text::specs::Lines::added, crate::specs::Standing::byte_text))]
fn byte(l: &mut Line, rom: &[u8], at: usize)
    ensures { l.new ≡ added l.old (byte_text rom.now at) }
{
    if at < rom.len() {
        l.hex(2, false, u32::from(rom[at]));
    }
}

// The n bytes from p on.
#[tactic(auto, using(text::proofs::Adding::added_append, crate::proofs::Further::more_bytes), unfolding(text::specs::Lines::added, crate::specs::Standing::bytes_at))]
pub fn bytes(l: &mut Line, rom: &[u8], p: u32, n: u8)
    ensures { l.new ≡ added l.old (bytes_at rom.now p n) }
{
    for i in 0..n {
        byte(l, rom, p as usize + usize::from(i));
    }
}

#[tactic(auto, using(text::proofs::Adding::added_append), unfolding(text::specs::Lines::added, crate::specs::Standing::not_held_text))]
fn not_held(l: &mut Line, g: u32)
    ensures { l.new ≡ added l.old (not_held_text g) }
{
    if g == 0 {
        l.text("unknown");
    } else {
        l.text("left out, group ");
        l.decimal(u64::from(g));
    }
}

#[tactic(auto, using(text::proofs::Adding::added_append), unfolding(text::specs::Lines::added, crate::specs::Standing::no_code_text))]
fn no_code(l: &mut Line, f: Refusal)
    ensures { l.new ≡ added l.old (no_code_text f) }
{
    if f.number() == 4 {
        l.text("cut short");
    } else {
        not_held(l, f.group());
    }
}

// What the bytes at p begin with.
pub fn found(l: &mut Line, p: u32, d: Result<(Instruction, usize), Refusal>)
    ensures { l.new ≡ added l.old (found_text p d) }
{
    match d {
        Ok((i, n)) => mnemonics::instruction(l, flow::next(p, n), i),
        Err(f) => no_code(l, f),
    }
}

// What the bytes at the place p begin with, past the end too.
pub fn decoded(rom: &[u8], p: u32) -> Result<(Instruction, usize), Refusal>
    ensures { result ≡ decoded_at rom.now p }
{
    let at = p as usize;
    if at < rom.len() {
        decoder::decode_at(&rom[at..], p)
    } else {
        decoder::decode_at(b"", p)
    }
}

// The same in words.
pub fn found_at(l: &mut Line, rom: &[u8], p: u32)
    ensures { l.new ≡ added l.old (found_text p (decoded_at rom.now p)) }
{
    let d = decoded(rom, p);
    found(l, p, d);
}

// What stands at the place p: an instruction, an unknown code, one that is left out, or one that the end cuts short.
#[tactic(auto, using(text::proofs::Adding::added_append), unfolding(text::specs::Lines::added, crate::specs::Standing::stands_at))]
pub fn stands(l: &mut Line, rom: &[u8], p: u32)
    ensures { l.new ≡ added l.old (stands_at rom.now p) }
{
    if rom.len() <= p as usize {
        l.text("nothing");
    } else {
        found_at(l, rom, p);
    }
}

// A refusal's number and place.
fn at_place(l: &mut Line, number: &str, p: u32)
    ensures { l.new ≡ added l.old (number.now ++ at_place p) }
{
    l.text(number);
    l.text(" at ");
    l.place(p);
    l.text(": ");
}

// One that says no more than what it means.
fn means(l: &mut Line, number: &str, p: u32, what: &str)
    ensures { l.new ≡ added l.old (number.now ++ (at_place p ++ what.now)) }
{
    at_place(l, number, p);
    l.text(what);
}

// One that names the ROM's length.
fn in_rom(l: &mut Line, number: &str, rom: &[u8], p: u32, what: &str)
    ensures { l.new ≡ added l.old (number.now ++ (at_place p ++ (what.now ++ (decimal_of (length rom.now) ++ ascii " bytes")))) }
{
    means(l, number, p, what);
    l.decimal(rom.len() as u64);
    l.text(" bytes");
}

// One that shows the first bytes.
fn begins(l: &mut Line, number: &str, rom: &[u8], p: u32, what: &str)
    ensures { l.new ≡ added l.old (number.now ++ (at_place p ++ (what.now ++ bytes_at rom.now p 6))) }
{
    means(l, number, p, what);
    bytes(l, rom, p, 6);
}

// One that says what stands there.
fn standing(l: &mut Line, number: &str, rom: &[u8], p: u32, what: &str)
    ensures { l.new ≡ added l.old (number.now ++ (at_place p ++ (stands_at rom.now p ++ what.now))) }
{
    at_place(l, number, p);
    stands(l, rom, p);
    l.text(what);
}

// Where a way that does not go up leads.
fn back(p: u32, f: Result<Flow, Refusal>) -> u32
    ensures { result ≡ back_of p f }
{
    match f {
        Ok(Flow::Next(n, _) | Flow::Call(n, _, _)) => n,
        Ok(Flow::Jump(t, _) | Flow::Either(_, t, _)) => t,
        Ok(Flow::Ends(_)) | Err(_) => p,
    }
}

fn upward(l: &mut Line, rom: &[u8], p: u32)
    ensures { l.new ≡ added l.old (upward_text p (back_of p (flow_at no_ports rom.now p))) }
{
    let f = listing::flow_at(site::no_ports(), rom, p);
    at_place(l, "10", p);
    l.text("a branch goes back to ");
    l.place(back(p, f));
    l.text("; loops have no longest way");
}

fn short(l: &mut Line, n: u32)
    ensures { l.new ≡ added l.old (short_text n) }
{
    l.text("13: what was lent is too short; it needs ");
    l.decimal(u64::from(n));
    l.text(" elements");
}

#[tactic(auto, unfolding(crate::specs::Refusals::group_name))]
fn group_name(g: u32) -> &'static str
    ensures { result.now ≡ group_name g }
{
    match g {
        3 => "MOV with displacement d:24",
        4 => "LDC and STC with memory",
        5 => "EEPMOV",
        6 => "TRAPA, RTE and SLEEP",
        _ => "MOVFPE and MOVTPE",
    }
}

fn left_out(l: &mut Line, x: u32)
    ensures { l.new ≡ added l.old (left_out_text (x % 2 ^ 24) (x / 2 ^ 24)) }
{
    let g = x / 16777216;
    at_place(l, "15", x % 16777216);
    l.text(group_name(g));
    l.text(", group ");
    l.decimal(u64::from(g));
    l.text(", which this set leaves out");
}

// Of a replay; its place is a byte of the recording.
fn of_record(l: &mut Line, number: &str, p: u32, what: &str)
    ensures { l.new ≡ added l.old (record_text number.now p what.now) }
{
    l.text(number);
    l.text(" at byte ");
    l.decimal(u64::from(p));
    l.text(" of the recording: ");
    l.text(what);
}

const UNKNOWN: &str = "no instruction of the set begins with the bytes ";

const CUT_SHORT: &str = "the ROM ends within the instruction that begins with the bytes ";

const READ: &str = "a read outside the ROM and the working memory";

const NO_ROW: &str = " with a value and flags that are in no row of the manual";

const BAD_ENTRY: &str = "the entry is odd or outside the ROM, which has ";

const NOT_FOLLOWED: &str = "; calls and jumps by a register or a vector are not followed";

const NO_QUOTIENT: &str = " by zero, or with a quotient that does not fit";

const TOO_DEEP: &str = " is a ninth level of calls; a routine that calls itself has no last one";

const UNFINISHED: &str = "the recording ends before the record does";

const TOO_LONG: &str = "the longest way takes more than 1000000000 states";

// A refusal: its number, its place, what stands there and what that means.
pub fn refusal(l: &mut Line, rom: &[u8], f: Refusal)
    ensures { l.new ≡ added l.old (refusal_text rom.now f) }
{
    match f {
        Refusal::BadBoard => l.text("1: the board is wrong, or PC is odd or at least 0x1000000"),
        Refusal::FetchOutside(p) => in_rom(l, "2", rom, p, "outside the ROM, which has "),
        Refusal::UnknownCode(p) => begins(l, "3", rom, p, UNKNOWN),
        Refusal::CutShort(p) => begins(l, "4", rom, p, CUT_SHORT),
        Refusal::ReadOutside(p) => means(l, "5", p, READ),
        Refusal::WriteOutside(p) => means(l, "6", p, "a write outside the working memory"),
        Refusal::NoAdjustRow(p) => standing(l, "7", rom, p, NO_ROW),
        Refusal::BadEntry(p) => in_rom(l, "8", rom, p, BAD_ENTRY),
        Refusal::NotFollowed(p) => standing(l, "9", rom, p, NOT_FOLLOWED),
        Refusal::NotUpward(p) => upward(l, rom, p),
        Refusal::NotInstruction => l.text("11: not an instruction: a field is out of range"),
        Refusal::BudgetTooLarge => l.text("12: the budget is over 1000000 steps"),
        Refusal::LentTooShort(n) => short(l, n),
        Refusal::DivideFails(p) => standing(l, "14", rom, p, NO_QUOTIENT),
        Refusal::LeftOut(x) => left_out(l, x),
        Refusal::TooDeep(p) => standing(l, "16", rom, p, TOO_DEEP),
        Refusal::BadVersion => l.text("17: the recording's version is not 1"),
        Refusal::BadLength(p) => of_record(l, "18", p, "the length of the record is not 9"),
        Refusal::Unfinished(p) => of_record(l, "19", p, UNFINISHED),
        Refusal::ReplayEnded => l.text("20: the replay has ended"),
        Refusal::TooLong(p) => means(l, "22", p, TOO_LONG),
    }
}
