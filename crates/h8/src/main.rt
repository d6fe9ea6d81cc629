// h8: the tool a person runs. It reads arguments and a file, asks the library and prints its answers.
#![tactic(auto)]

mod ask;
mod asked;
mod fault;
mod figures;
mod file;
mod help;
mod places;
mod replays;
mod runs;
mod show;
mod wanted;

use ask::Request;
use asking::Use;
use fault::Fault;
use show::Tool;
use std::io;
use std::io::ErrorKind;
use std::rt::Runtime;

fn answer(rt: &impl Runtime, request: Request) -> Result<(), Fault> {
    let chosen = request.check(request.chosen(rt))?;
    let tool = Tool { rt, request };
    match chosen {
        Use::ForFigure => tool.with_code(|code, table| tool.figure(code, table)),
        Use::ForWay => tool.with_code(|code, table| tool.way(code, table)),
        Use::ForList => tool.with_code(|code, table| tool.list(code, table)),
        Use::ForRun => tool.run(),
        Use::ForReplay => tool.replay(),
        Use::ForHelp => Ok(help::show_help(rt)?),
    }
}

fn tool(rt: &impl Runtime) -> io::Result<()> {
    if ask::asks_help(rt) {
        return help::show_help(rt);
    }
    let request = Request::read(rt);
    match answer(rt, request) {
        Ok(()) => Ok(()),
        Err(fault) => fault.report(rt, request.plain),
    }
}

// Who reads the output may want no more of it; that is no error.
fn main(rt: HostRuntime) -> io::Result<()> {
    match tool(&rt) {
        Err(e) if e.kind() == ErrorKind::BrokenPipe => Ok(()),
        ended => ended,
    }
}
