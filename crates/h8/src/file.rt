// The ROM's bytes from a file.
ghost use Rattle.std.specs.Prelude.{◌≤◌, length, IfOk};

use crate::ask::{Argument, EMPTY};
use crate::fault::Fault;
use crate::wanted::Wanted;
use std::env::Env;
use std::io::{ErrorKind, Read};
use std::rt::Files;
use std::{fs, io};

// The longest ROM.
const LONGEST: usize = 524288;

// Room for the longest ROM and two bytes more, by which a longer file is found.
pub type Room = [u8; 524290];

// Reads until the file ends or the room is full, and says how many bytes. Each turn but the last moves a byte or more.
fn fill(from: &mut impl Read, room: &mut [u8]) -> io::Result<usize>
    ensures { IfOk result (λ n. n ≤ length room.new) }
{
    let mut n = 0;
    for _ in 0..room.len() {
        let more = from.read(&mut room[n..])?;
        if more == 0 {
            break;
        }
        n += more;
    }
    Ok(n)
}

// The file that an argument names. A path is text here, so one of other bytes opens nothing.
pub fn open<R: Env + Files>(rt: &R, at: Argument) -> io::Result<R::File> {
    let mut room = EMPTY;
    match std::str::from_utf8(at.bytes(rt, &mut room).unwrap_or(&[])) {
        Ok(path) => fs::open(rt, path),
        Err(_) => Err(io::Error::from(ErrorKind::InvalidData)),
    }
}

fn read(rt: &(impl Env + Files), at: Argument, room: &mut [u8]) -> io::Result<usize>
    ensures { IfOk result (λ n. n ≤ length room.new) }
{
    let mut file = open(rt, at)?;
    fill(&mut file, room)
}

// The ROM that an argument names, at the start of the room.
pub fn load<'a>(
    rt: &(impl Env + Files),
    at: Argument,
    room: &'a mut Room,
) -> Result<&'a [u8], Fault> {
    match read(rt, at, room) {
        Ok(n) if LONGEST < n => Err(Fault::LongRom(at)),
        Ok(n) if n % 2 != 0 => Err(Fault::OddRom(at, n)),
        Ok(n) => Ok(&room[..n]),
        Err(error) => Err(Fault::Unread(Wanted::Rom, at, error)),
    }
}
