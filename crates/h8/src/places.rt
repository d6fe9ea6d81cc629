// The places of a way or of a listing, one after the other.
use crate::show::Tool;
use lines::Code;
use std::{io, iter};

// Where the longest way goes on from a place; nowhere at its end.
fn onward(code: Code, table: &[u64], place: u32) -> Option<u32> {
    figure::way(code.site, code.rom, table, place).unwrap_or(None)
}

// A place of a way that goes into the routines that it calls, and where the calls go on that lead there, the last one last.
#[derive(Clone, Copy)]
struct Within {
    place: u32,
    depth: u8,
    back: [Option<u32>; 8],
}

impl Within {
    fn at(place: u32) -> Within {
        Within {
            place,
            depth: 0,
            back: [None; 8],
        }
    }

    // Into a routine, whose return goes on at `after`. No figure goes more than eight calls deep.
    fn into(mut self, routine: u32, after: Option<u32>) -> Within {
        let depth = self.depth as usize;
        if depth < 8 {
            self.back[depth] = after;
            self.depth += 1;
        }
        self.place = routine;
        self
    }

    // Back to where the last call goes on.
    fn out(mut self) -> Option<Within> {
        self.depth = self.depth.checked_sub(1)?;
        let depth = self.depth as usize;
        let last = self.back.get(depth)?;
        self.place = (*last)?;
        Some(self)
    }

    // Where it goes on; nowhere after the return of the routine that was asked for.
    fn next(self, code: Code, table: &[u64]) -> Option<Within> {
        let after = onward(code, table, self.place);
        if let Some(routine) = code.called(self.place) {
            return Some(self.into(routine, after));
        }
        match after {
            Some(place) => Some(Within { place, ..self }),
            None => self.out(),
        }
    }
}

impl<R: Print> Tool<'_, R> {
    // The longest way from an entry, of so many states, by a table that figure filled; with --deep through what it calls.
    pub fn show_way(&self, code: Code, table: &[u64], entry: u32, states: u64) -> io::Result<()> {
        let plain = self.request.plain;
        self.say(|l| lines::way_heading(l, plain))?;
        if self.request.deep.is_some() {
            self.descend(code, table, entry, states)?;
        } else {
            self.follow(code, table, entry, states)?;
        }
        self.say(|l| lines::longest(l, entry, states, plain))
    }

    // Each place takes some states, so there are no more places than states.
    fn follow(&self, code: Code, table: &[u64], entry: u32, states: u64) -> io::Result<()> {
        let plain = self.request.plain;
        let places = iter::successors(Some(entry), |place| onward(code, table, *place));
        let mut total = 0;
        for place in places.take(states as usize) {
            total = code.total(place, total);
            self.show(code.on_way(place, total, plain))?;
            total = code.with_call(table, place, total);
            self.show(code.on_call(table, place, total, plain))?;
        }
        Ok(())
    }

    fn descend(&self, code: Code, table: &[u64], entry: u32, states: u64) -> io::Result<()> {
        let plain = self.request.plain;
        let places = iter::successors(Some(Within::at(entry)), |within| within.next(code, table));
        let mut total = 0;
        for within in places.take(states as usize) {
            total = code.total(within.place, total);
            self.show(lines::level(within.depth, plain))?;
            self.show(code.on_way(within.place, total, plain))?;
        }
        Ok(())
    }

    // The places from `from` to `to`, both included; each has a byte or more, so there are no more places than the ROM has bytes.
    pub fn show_list(&self, code: Code, table: &[u64], from: u32, to: u32) -> io::Result<()> {
        let plain = self.request.plain;
        self.say(|l| lines::list_heading(l, plain))?;
        let places = iter::successors(Some(from), |place| {
            place.checked_add(code.length_at(*place) as u32)
        });
        let inside = |place: &u32| *place <= to && (*place as usize) < code.rom.len();
        for place in places.take_while(inside).take(code.rom.len()) {
            self.show(code.listed(table, place, plain))?;
        }
        Ok(())
    }
}
