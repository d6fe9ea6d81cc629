// Entries that a run has made, kept by their places: a line is its place's tag above the entry, and 0 is none. A caller lends as many lines as it likes.
ghost use Rattle.std.specs.Prelude.{◌≡◌, ◌%◌, ◌<◌, get_or, length, set};
ghost use Rattle.run.specs.MirrorKept.{entry_of, Means, Keeps};

use codes::Instruction;
use decoder::whole::Fault;

// An entry is below 2^44, a tag below 2^16.
const TAG: u64 = 17592186044416;

fn entry_of(found: Result<(Instruction, usize), Fault>, bytes: &[u8]) -> u64
    ensures { result ≡ entry_of bytes.now found }
{
    match found {
        Ok((i, _)) => entry::pack(i),
        Err(Fault::Cut) => entry::CUT,
        Err(Fault::Unlisted) => entry::unheld(left::group(bytes)),
    }
}

// The entry of what the decoder finds at a place. Cold, for the compiler: a run comes back to most places and finds their entries kept. So what goes
// from step to step is put aside on this way alone, and not on each (docs/SPEED.md).
#[cold]
fn entry_at(rom: &[u8], at: usize) -> u64
    requires { at < length rom.now }
    ensures { Means rom.now at result × (result < 17592186044416) }
{
    let s = &rom[at..];
    entry_of(decoder::whole::begins(s), s)
}

fn line(lines: &[u64], i: usize) -> u64
    ensures { result ≡ get_or lines.now i 0 }
{
    if i < lines.len() { lines[i] } else { 0 }
}

fn keep(lines: &mut [u64], i: usize, x: u64)
    ensures { lines.new ≡ set lines.old i x }
{
    if i < lines.len() {
        lines[i] = x;
    }
}

// The entry of a place, kept or made.
pub fn look(lines: &mut [u64], rom: &[u8], at: usize) -> u64
    requires { (at < length rom.now) × (at < 16777216) × (at % 2 ≡ 0) × Keeps rom.now lines.old }
    ensures { Means rom.now at result × Keeps rom.now lines.new }
{
    let i = at / 2 % 256;
    let tag = (at / 512 + 1) as u64;
    let c = line(&lines[..], i);
    if c / TAG == tag {
        return c % TAG;
    }
    let e = entry_at(rom, at);
    keep(lines, i, tag * TAG + e);
    e
}
