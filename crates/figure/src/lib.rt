// The routine's figure: the largest total of states over all paths from an entry to a return, those of the routines that they call with them. Document 01,
// "The routine's figure", and document 02, W9.
#![tactic(auto)]

ghost use Rattle.std.specs.Prelude.{◌≡◌, length};
ghost use Rattle.listing.specs.Listing.{flow_at};
ghost use Rattle.figure.specs.Answer.{asked_of, Figured, RefusedExactly};
ghost use Rattle.figure.specs.Bound.{RunsKept};
ghost use Rattle.figure.specs.MirrorFigure.{why_at, figure_of, verdict_of, no_way_of, on_from, way_of};
ghost use Rattle.figure.specs.Longest.{WayTold};

use paths::{Filled, Reckoned};
use refusal::Refusal;
use site::Site;

const NONE: u64 = 16777215;

const LIMIT: u64 = 1000000000;

#[tactic(auto, unfolding(crate::specs::Answer::asked_of))]
fn look(k: Site, rom: &[u8], lent: usize, entry: u32) -> Result<(), Refusal>
    ensures { result ≡ asked_of k (length rom.now) lent entry }
{
    if !memory::could_carry(k, rom) {
        return Err(Refusal::BadBoard);
    }
    if entry % 2 != 0 {
        return Err(Refusal::BadEntry(entry));
    }
    let len = rom.len();
    if len <= entry as usize {
        return Err(Refusal::BadEntry(entry));
    }
    if lent < len {
        return Err(Refusal::LentTooShort(len as u32));
    }
    Ok(())
}

// Why the lowest forbidden place is forbidden.
#[tactic(auto, unfolding(crate::specs::MirrorFigure::why_at))]
fn why_at(k: Site, rom: &[u8], low: u64) -> Refusal
    ensures { result ≡ why_at (flow_at k rom.now) low }
{
    let p = (low % 16777216) as u32;
    paths::why(p, listing::flow_at(k, rom, p))
}

// The answer by a total, which stands for any above 1,000,000,000 where it is above that.
#[tactic(auto, unfolding(crate::specs::MirrorFigure::figure_of))]
fn held(entry: u32, total: u64) -> Result<u64, Refusal>
    ensures { result ≡ figure_of entry total }
{
    if LIMIT < total {
        return Err(Refusal::TooLong(entry));
    }
    Ok(total)
}

// The answer by the entry's row.
#[tactic(auto, unfolding(crate::specs::MirrorFigure::verdict_of))]
fn told(k: Site, rom: &[u8], entry: u32, r: Reckoned) -> Result<u64, Refusal>
    ensures { result ≡ verdict_of (flow_at k rom.now) entry r }
{
    if r.low == NONE {
        return held(entry, r.figure);
    }
    Err(why_at(k, rom, r.low))
}

// The figure of the routine at `entry`, for the boards that have the site k.
pub fn figure(k: Site, rom: &[u8], entry: u32, table: &mut [u64]) -> Result<u64, Refusal>
    ensures answer { Figured k rom.now entry table.old result table.new }
    ensures exact { RefusedExactly k rom.now entry table.old result }
    ensures runs { RunsKept k rom.now entry result }
{
    look(k, rom, table.len(), entry)?;
    let r = levels::fill(k, rom, entry, table);
    told(k, rom, entry, r)
}

// Why a place has no way, by the lowest forbidden place of its row; which is its own address also where its total is above 1,000,000,000.
#[tactic(auto, unfolding(crate::specs::MirrorFigure::no_way_of))]
fn no_way(k: Site, rom: &[u8], place: u32, low: u64) -> Refusal
    ensures { result ≡ no_way_of (flow_at k rom.now) place low }
{
    if low == place as u64 {
        return paths::own(place, listing::flow_at(k, rom, place));
    }
    why_at(k, rom, low)
}

// The longest way from a place by its row.
#[tactic(auto, unfolding(crate::specs::MirrorFigure::on_from))]
fn on_from(
    k: Site,
    rom: &[u8],
    table: Filled,
    place: u32,
    r: Reckoned,
) -> Result<Option<u32>, Refusal>
    ensures { result ≡ on_from (flow_at k rom.now) table.entry.len table.entry.table.now place r }
{
    if r.low != NONE {
        return Err(no_way(k, rom, place, r.low));
    }
    table.onward(listing::flow_at(k, rom, place))
}

// Where the longest path from a place goes next, by a table that `figure` filled; nowhere, where it returns.
#[tactic(auto, unfolding(crate::specs::MirrorFigure::way_of, crate::specs::MirrorFigure::way_asked))]
pub fn way(k: Site, rom: &[u8], table: &[u64], place: u32) -> Result<Option<u32>, Refusal>
    ensures answer { result ≡ way_of k rom.now table.now place }
    ensures longest { WayTold k rom.now table.now (way_of k rom.now table.now) place }
{
    look(k, rom, table.len(), place)?;
    let filled = Filled {
        len: rom.len(),
        table: table,
    };
    on_from(k, rom, filled, place, filled.row(place))
}
