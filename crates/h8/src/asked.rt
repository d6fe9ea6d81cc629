// Numbers among the arguments, and what `h8 run` and `h8 replay` are asked by them.
ghost use Rattle.std.specs.Prelude.{◌≤◌, ◌<◌, IfOk};

use crate::ask::{Argument, Arguments, EMPTY, Request, refuse};
use crate::fault::Fault;
use crate::wanted::Wanted;
use asking::Kind;
use memory::Board;
use registers::{Condition, Registers};
use runlines::Given;
use site::{Area, Site};
use std::env::{Env, FillError};

// A stop address that PC never holds.
const NEVER: u32 = 16777215;

// The longest working memory.
pub const LONGEST: usize = 65536;

// The number at an argument, at most `most`.
pub fn long_number(
    rt: &impl Env,
    wanted: Wanted,
    at: Option<Argument>,
    most: u64,
) -> Result<u64, Fault>
    ensures { IfOk result (λ n. n ≤ most) }
{
    let Some(at) = at else {
        return Err(Fault::Missing(wanted));
    };
    let mut room = EMPTY;
    let bytes = match at.bytes(rt, &mut room) {
        Ok(bytes) => bytes,
        Err(FillError::NotPresent) => return Err(Fault::Missing(wanted)),
        Err(FillError::TooLong) => return Err(Fault::Wrong(wanted, at)),
    };
    match asking::number_in(bytes) {
        Ok(n) if n <= most => Ok(n),
        _ => Err(Fault::Wrong(wanted, at)),
    }
}

pub fn number(rt: &impl Env, wanted: Wanted, at: Option<Argument>, most: u32) -> Result<u32, Fault>
    ensures { IfOk result (λ n. n ≤ most) }
{
    let n = long_number(rt, wanted, at, most as u64)?;
    Ok(n as u32)
}

// An address; whether it lies in the ROM is the library's to say.
pub fn address(rt: &impl Env, wanted: Wanted, at: Option<Argument>) -> Result<u32, Fault> {
    number(rt, wanted, at, u32::MAX)
}

// The same of a word that may be left out.
pub fn address_or(
    rt: &impl Env,
    wanted: Wanted,
    at: Option<Argument>,
    otherwise: u32,
) -> Result<u32, Fault> {
    if at.is_none() {
        return Ok(otherwise);
    }
    address(rt, wanted, at)
}

// The nth value of an option.
fn value(option: Option<Argument>, n: usize) -> Option<Argument> {
    option.map(|at| at.behind(n))
}

// The width of the ports' bus.
fn bits(rt: &impl Env, at: Option<Argument>) -> Result<u32, Fault> {
    let n = number(rt, Wanted::PortBits, at, 16)?;
    if n != 8 && n != 16 {
        refuse(Wanted::PortBits, at)?;
    }
    Ok(n)
}

// An empty area.
fn no_ports(at: u32) -> Area {
    Area {
        base: at,
        end: at,
        bus: 8,
    }
}

// The ports; without --port there are none, as on a board whose area is empty. It lies at `otherwise` then.
pub fn ports(rt: &impl Env, port: Option<Argument>, otherwise: u32) -> Result<Area, Fault> {
    if port.is_none() {
        return Ok(no_ports(otherwise));
    }
    Ok(Area {
        base: address(rt, Wanted::PortBase, value(port, 1))?,
        end: address(rt, Wanted::PortEnd, value(port, 2))?,
        bus: bits(rt, value(port, 3))?,
    })
}

// The value of an option that may be left out.
fn number_or(
    rt: &impl Env,
    wanted: Wanted,
    option: Option<Argument>,
    otherwise: u32,
) -> Result<u32, Fault> {
    if option.is_none() {
        return Ok(otherwise);
    }
    number(rt, wanted, value(option, 1), u32::MAX)
}

fn length(rt: &impl Env, ram: Option<Argument>) -> Result<u32, Fault>
    ensures { IfOk result (λ n. n ≤ 65536) }
{
    number(rt, Wanted::RamLength, value(ram, 2), 65536)
}

// The numbers, with an empty area of ports; the stop address and the budget may be left out.
pub fn numbers(rt: &impl Env, request: &Request, rom: &[u8]) -> Result<Given, Fault>
    ensures { IfOk result (λ given. given.length ≤ 65536) }
{
    let entry = address(rt, Wanted::Entry, request.third())?;
    let base = address(rt, Wanted::RamBase, value(request.ram, 1))?;
    let length = length(rt, request.ram)?;
    Ok(Given {
        entry,
        base,
        length,
        stop: number_or(rt, Wanted::Stop, request.stop, NEVER)?,
        budget: number_or(rt, Wanted::Budget, request.budget, 1000000)?,
        area: no_ports(base),
        code: (rom.len() & 0xffffffff) as u32,
    })
}

pub fn board(given: &Given) -> Board {
    Board {
        base: given.base,
        site: Site { area: given.area },
    }
}

// The register and the value that an option --er sets.
fn er(rt: &impl Env, at: Argument) -> Result<(usize, u32), Fault>
    ensures { IfOk result (λ set. set.0 < 8) }
{
    let n = number(rt, Wanted::Register, Some(at.behind(1)), 7)?;
    let v = number(rt, Wanted::Value, Some(at.behind(2)), u32::MAX)?;
    Ok((n as usize, v))
}

// Registers are 0 but for those that --er sets, and PC, which is the entry; all flags are 0.
pub fn registers(rt: &impl Env, entry: u32) -> Result<Registers, Fault> {
    let mut regs = Registers {
        er: [0; 8],
        pc: entry,
        condition: Condition::from(0),
    };
    for at in Arguments::of(rt) {
        if let Some(Kind::ErOption) = at.kind(rt) {
            let (n, v) = er(rt, at)?;
            regs.er[n] = v;
        }
    }
    Ok(regs)
}
