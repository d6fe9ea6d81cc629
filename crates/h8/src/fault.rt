// Why there is no answer, and the line that says so: an argument's name, what it is and what was expected.
use crate::ask::{Argument, EMPTY};
use crate::show;
use crate::wanted::Wanted;
use std::env::{Env, FillError};
use std::io;

#[derive(Drop)]
pub enum Fault {
    Missing(Wanted),
    Wrong(Wanted, Argument),
    Unread(Wanted, Argument, io::Error),
    EmptyRom(Argument),
    OddRom(Argument, usize),
    LongRom(Argument),
    // the answer could not be written
    Output(io::Error),
}

impl From<io::Error> for Fault {
    fn from(error: io::Error) -> Fault {
        Fault::Output(error)
    }
}

// What the system doesn't permit. Its kind is that of a file that may not be read (EACCES).
const EPERM: i32 = 1;

// Why a file can't be read, by the error's kind; InvalidData is that of a path that is no text.
fn reason(error: &io::Error) -> &'static str {
    if error.raw_os_error() == Some(EPERM) {
        return "the system refuses it";
    }
    match error.kind() {
        io::ErrorKind::NotFound => "there is no such file",
        io::ErrorKind::PermissionDenied => "it may not be read",
        io::ErrorKind::IsADirectory => "it is a directory",
        io::ErrorKind::NotADirectory => "a part of its path is no directory",
        io::ErrorKind::InvalidFilename => "its name is too long",
        io::ErrorKind::InvalidData => "its name is no UTF-8 text",
        _ => "the system refuses it",
    }
}

// An argument as it was given, but for bytes that would end the line or steer the screen.
fn given(rt: &(impl Print + Env), at: Argument) -> io::Result<()> {
    let mut room = EMPTY;
    match at.bytes(rt, &mut room) {
        Ok(bytes) => {
            for byte in bytes {
                rt.write_all(&[asking::shown(*byte)])?;
            }
            Ok(())
        }
        Err(FillError::TooLong) => rt.print("(more than 4096 bytes)"),
        Err(FillError::NotPresent) => Ok(()),
    }
}

// The beginning of a line: an argument's name, a word behind it, and the argument.
fn begin(
    rt: &(impl Print + Env),
    plain: bool,
    wanted: Wanted,
    is: &str,
    at: Argument,
) -> io::Result<()> {
    show::say(
        rt,
        |l| asking::wrong(l, plain, wanted.name().as_bytes(), is.as_bytes()),
    )?;
    given(rt, at)
}

impl Fault {
    // The one line that is printed in place of an answer.
    pub fn report(self, rt: &(impl Print + Env), plain: bool) -> io::Result<()> {
        match self {
            Fault::Missing(wanted) => {
                show::say(
                    rt,
                    |l| asking::missing(
                        l,
                        plain,
                        wanted.name().as_bytes(),
                        wanted.expected().as_bytes(),
                    ),
                )
            }
            Fault::Wrong(wanted, at) => {
                begin(rt, plain, wanted, " is ", at)?;
                show::say(rt, |l| asking::expected(l, wanted.expected().as_bytes()))
            }
            Fault::Unread(wanted, at, error) => {
                begin(rt, plain, wanted, " ", at)?;
                println!(rt; " can't be read: {}", reason(&error))
            }
            Fault::EmptyRom(at) => {
                begin(rt, plain, Wanted::Rom, " ", at)?;
                println!(rt; " is empty: there is nothing to list")
            }
            Fault::OddRom(at, n) => {
                begin(rt, plain, Wanted::Rom, " ", at)?;
                println!(rt; " has {n} bytes: expected an even number of bytes, at most 524288")
            }
            Fault::LongRom(at) => {
                begin(rt, plain, Wanted::Rom, " ", at)?;
                println!(rt;
                    " has more than 524288 bytes: expected an even number of bytes, at most 524288"
                )
            }
            Fault::Output(error) => Err(error),
        }
    }
}
