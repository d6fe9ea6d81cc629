// What makes an answer, and its texts to standard output.
use crate::ask::Request;
use std::io;
use text::Line;

// The system, and what was asked.
#[derive(Drop)]
pub struct Tool<'a, R> {
    pub rt: &'a R,
    pub request: Request,
}

impl<R: Print> Tool<'_, R> {
    pub fn show(&self, line: Line) -> io::Result<()> {
        self.rt.write_all(line.as_slice())
    }

    // A line that `write` makes.
    pub fn say<F: FnOnce(&mut Line)>(&self, write: F) -> io::Result<()>
        requires { F.IsAlwaysCallable write }
    {
        say(self.rt, write)
    }
}

pub fn say<F: FnOnce(&mut Line)>(rt: &impl Print, write: F) -> io::Result<()>
    requires { F.IsAlwaysCallable write }
{
    let mut line = Line::new();
    write(&mut line);
    rt.write_all(line.as_slice())
}
