// h8 figure, way and list: what is asked of a ROM's code, by its figures.
use crate::ask::refuse;
use crate::fault::Fault;
use crate::show::Tool;
use crate::wanted::Wanted;
use crate::{asked, file};
use lines::Code;
use refusal::Refusal;
use site::Site;
use std::env::Env;
use std::io;
use std::rt::Runtime;

// A table for the longest ROM.
type Table = [u64; 524288];

impl<R: Runtime> Tool<'_, R> {
    // The code, and a table for its figures, handed to what answers. They lie in arrays for the longest ROM, so that no memory can run out.
    pub fn with_code<F: FnOnce(Code, &mut [u64]) -> Result<(), Fault>>(
        &self,
        answer: F,
    ) -> Result<(), Fault>
        requires { F.IsAlwaysCallable answer }
    {
        let mut room: file::Room = [0; 524290];
        let mut table: Table = [0; 524288];
        self.lend(&mut room, &mut table, answer)
    }

    // Arrays, so that their lengths need no proof.
    fn lend<F: FnOnce(Code, &mut [u64]) -> Result<(), Fault>>(
        &self,
        room: &mut file::Room,
        table: &mut Table,
        answer: F,
    ) -> Result<(), Fault>
        requires { F.IsAlwaysCallable answer }
    {
        let rom = file::load(self.rt, self.request.rom()?, room)?;
        let area = asked::ports(self.rt, self.request.port, 16777216)?;
        let site = Site { area };
        answer(Code { site, rom }, table)
    }

    // The figure of an entry, and whether it fits a gap.
    pub fn figure(&self, code: Code, table: &mut [u64]) -> Result<(), Fault> {
        let entry = asked::address(self.rt, Wanted::Entry, self.request.third())?;
        let gap = self.gap()?;
        let figure = figure::figure(code.site, code.rom, entry, table);
        if let Err(why) = figure {
            return self.refused(code, why);
        }
        let plain = self.request.plain;
        self.say(|l| lines::figure(l, code.rom, figure, entry, gap, plain))?;
        Ok(())
    }

    fn gap(&self) -> Result<Option<u64>, Fault> {
        let at = self.request.fourth();
        if at.is_none() {
            return Ok(None);
        }
        let states = asked::long_number(self.rt, Wanted::Gap, at, 999999999999999999)?;
        Ok(Some(states))
    }

    // The longest way from an entry.
    pub fn way(&self, code: Code, table: &mut [u64]) -> Result<(), Fault> {
        let entry = asked::address(self.rt, Wanted::Entry, self.request.third())?;
        match figure::figure(code.site, code.rom, entry, table) {
            Ok(states) => Ok(self.show_way(code, &table[..], entry, states)?),
            Err(why) => self.refused(code, why),
        }
    }

    // The places from one address to another.
    pub fn list(&self, code: Code, table: &mut [u64]) -> Result<(), Fault> {
        let from = asked::address_or(self.rt, Wanted::From, self.request.third(), 0)?;
        let to = asked::address_or(self.rt, Wanted::To, self.request.fourth(), u32::MAX)?;
        if code.rom.is_empty() {
            return Err(Fault::EmptyRom(self.request.rom()?));
        }
        if from % 2 != 0 || code.rom.len() <= from as usize {
            refuse(Wanted::Start, self.request.third())?;
        }
        if to < from {
            refuse(Wanted::End, self.request.fourth())?;
        }
        match figure::figure(code.site, code.rom, 0, table) {
            Err(Refusal::BadBoard) => self.refused(code, Refusal::BadBoard),
            _ => Ok(self.show_list(code, &table[..], from, to)?),
        }
    }

    // 1 can lie only in the ports, since the ROM's length was looked at.
    fn refused(&self, code: Code, why: Refusal) -> Result<(), Fault> {
        let plain = self.request.plain;
        self.say(|l| match why {
            Refusal::BadBoard => lines::ports_wrong(l, code.rom, code.site.area, plain),
            _ => wording::parts::refused(l, code.rom, why, plain),
        })?;
        Ok(())
    }
}
