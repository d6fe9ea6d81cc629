// What paths and calls cost, for every place of read-only memory: document 02, W9. "A path asks what its calls cost, and a call asks for the longest path of
// the routine it enters": `path_cost` and `call_cost` call each other, remaining depth and then remaining places falling. Each of a place's two numbers in the
// table has in its lower half one level's row, packed: even depths in the first, odd ones in the second, for a level needs only itself and the one below. In
// the upper halves stands what `listing` says of the place, which all levels ask for.
#![tactic(auto)]

ghost use Rattle.std.specs.Prelude.{◌≡◌, ◌+◌, ◌-◌, ◌*◌, ◌%◌, ◌<◌, ◌≤◌, ℕ, length, slice_index};
ghost use Rattle.listing.specs.Listing.{flow_at};
ghost use Rattle.paths.specs.MirrorRows.{level_of};
ghost use Rattle.levels.specs.Levels.{fitting, FilledIf, Lent, Ready, Costed, Reached, Unpacked};

use paths::{Level, Reckoned};
use site::Site;

const DEPTH: u32 = 8;

// So many places at most are filled in one loop; more are halved first. A call for each place would take longer than its row.
const STRETCH: usize = 4096;

const HALF: u64 = 4294967296;

// Read-only memory of a board with that site, for which the rows are reckoned.
#[derive(Clone, Copy)]
struct Code<'a> {
    site: Site,
    rom: &'a [u8],
    ghost bytes: { (k : ℕ) → slice_index rom.now k < 256 },
    ghost even: { length rom.now % 2 ≡ 0 },
    ghost small: { length rom.now ≤ 524288 },
}

impl<'a> Code<'a> {
    // Notes what stands at each place, so that its instruction is looked at once and not at every level.
    fn note(self, table: &mut [u64])
        requires { Lent (length self.rom.now) (length table.old) 0 }
        ensures { Costed (flow_at self.entry.site self.entry.rom.now) (length self.entry.rom.now) 0 table.old table.new }
    {
        for i in (0..self.rom.len() / 2).rev() {
            let p = i * 2;
            let w = paths::noted(listing::glance(self.site, self.rom, p as u32));
            table[p] = w.to;
            table[p + 1] = w.on;
        }
    }

    // Fills the rows of `more` places below the highest `done`, from the top down. A row leaves what is noted in the upper half of its number.
    fn stretch(self, table: &mut [u64], depth: u32, done: usize, more: usize)
        requires lent { Lent (length self.rom.now) (length table.old) depth × ((done + more) * 2 ≤ length self.rom.now) }
        requires ready { Ready (flow_at self.site self.rom.now) (length self.rom.now) table.old depth (length self.rom.now - done * 2) }
        ensures { Reached (flow_at self.entry.site self.entry.rom.now) (length self.entry.rom.now) depth (length self.entry.rom.now - (done + more) * 2) table.old table.new }
    {
        let len = self.rom.len();
        let odd = (depth % 2) as usize;
        let above = len / 2 - done;
        for i in (above - more..above).rev() {
            let p = i * 2;
            let level = Level {
                len: len,
                table: table,
                depth: depth,
            };
            let r = level.reckon(p as u32, table[p] / HALF, table[p + 1] / HALF);
            let at = p + odd;
            table[at] = table[at] / HALF * HALF + r;
        }
    }

    // Fills the rows of `more` places below the highest `done`: by halves, so that the stack does not grow with the memory. Before the first row of a level
    // it asks what calls cost there.
    #[cycle(call_cost_path_cost)]
    fn path_cost(self, table: &mut [u64], depth: u32, done: usize, more: usize)
        requires lent { Lent (length self.rom.now) (length table.old) depth × ((done + more) * 2 ≤ length self.rom.now) }
        requires ready { 0 < done → Ready (flow_at self.site self.rom.now) (length self.rom.now) table.old depth (length self.rom.now - done * 2) }
        ensures { Reached (flow_at self.entry.site self.entry.rom.now) (length self.entry.rom.now) depth (length self.entry.rom.now - (done + more) * 2) table.old table.new }
    {
        if more == 0 {
            if done == 0 {
                self.call_cost(table, depth);
            }
            return;
        }
        if more <= STRETCH {
            self.path_cost(table, depth, done, 0);
            self.stretch(table, depth, done, more);
            return;
        }
        let half = more / 2;
        self.path_cost(table, depth, done, half);
        self.path_cost(table, depth, done + half, more - half);
    }

    // What calls cost with `depth` levels left: the longest paths of all routines, with a level less. With none left a call costs nothing, for it is
    // forbidden: there it begins, and what stands at each place is noted.
    #[cycle(call_cost_path_cost)]
    fn call_cost(self, table: &mut [u64], depth: u32)
        requires { Lent (length self.rom.now) (length table.old) depth }
        ensures { Costed (flow_at self.entry.site self.entry.rom.now) (length self.entry.rom.now) depth table.old table.new }
    {
        if depth == 0 {
            self.note(table);
            return;
        }
        let words = self.rom.len() / 2;
        self.path_cost(table, depth - 1, 0, words);
    }

    // The row of a place with eight levels left.
    fn held(self, table: &[u64], place: u32) -> Reckoned
        ensures { result ≡ level_of (length self.entry.rom.now) table.now 8 place }
    {
        let level = Level {
            len: self.rom.len(),
            table: table,
            depth: DEPTH,
        };
        level.row(place)
    }

    // From the packed rows with eight levels left the two numbers of each place.
    fn unpack(self, table: &mut [u64])
        requires { Lent (length self.rom.now) (length table.old) 8 }
        ensures { Unpacked (length self.entry.rom.now) table.old table.new }
    {
        for i in (0..self.rom.len() / 2).rev() {
            let p = i * 2;
            let at = p as u32;
            let r = paths::shown(at, self.held(table, at));
            table[p] = r.figure;
            table[p + 1] = r.low;
        }
    }
}

fn fits(len: usize, lent: usize, entry: u32) -> bool
    ensures { result ≡ fitting len lent entry }
{
    (len % 2 == 0) & (len <= 524288) & (len <= lent) & (entry % 2 == 0)
}

// Fills the table, and answers the row of `entry` with eight levels left, in which a total is held at 1,000,000,001.
pub fn fill(k: Site, rom: &[u8], entry: u32, table: &mut [u64]) -> Reckoned
    ensures { FilledIf (fitting (length rom.now) (length table.old) entry) (flow_at k rom.now) (length rom.now) entry table.old result table.new }
{
    let len = rom.len();
    if !fits(len, table.len(), entry) {
        return Reckoned {
            figure: 0,
            low: entry as u64,
        };
    }
    let code = Code { site: k, rom: rom };
    code.path_cost(table, DEPTH, 0, len / 2);
    let r = code.held(table, entry);
    code.unpack(table);
    r
}
