// Counts what the decoder makes of every first word, and of every second word after 0100, 01C0, 01D0, 01F0, and 7C00 to 7F00.
#![tactic(auto)]

use codes::Instruction;
use refusal::Refusal;
use std::io;

// How many of all words get such an answer as is wanted.
fn count<A, W>(answer: A, wanted: W) -> usize
where
    A: Fn(u16) -> Result<(Instruction, usize), Refusal>,
    W: Fn(Result<(Instruction, usize), Refusal>) -> bool,
    requires answer { A.IsAlwaysCallable answer }
    requires wanted { W.IsAlwaysCallable wanted }
{
    (0..=u16::MAX).filter(|&word| wanted(answer(word))).count()
}

// Whether that is a refusal of that number and group.
fn refused(d: Result<(Instruction, usize), Refusal>, number: u32, group: u32) -> bool {
    d.is_err_and(|f| f.number() == number && f.group() == group)
}

fn first_words(rt: &impl Print) -> io::Result<()> {
    let alone = |word: u16| decoder::decode(&word.to_be_bytes());
    let whole = count(alone, |d| d.is_ok());
    println!(rt; "first words that are a whole code: {whole}")?;
    let begin = count(alone, |d| refused(d, 4, 0));
    println!(rt; "first words that begin a longer code: {begin}")?;
    for group in 3..=7 {
        let left_out = count(alone, |d| refused(d, 15, group));
        println!(rt; "first words of codes left out, group {group}: {left_out}")?;
    }
    let none = count(alone, |d| refused(d, 3, 0));
    println!(rt; "first words that begin none: {none}")
}

fn second_words(rt: &impl Print) -> io::Result<()> {
    for first in [
        0x0100u16, 0x01C0, 0x01D0, 0x01F0, 0x7C00, 0x7D00, 0x7E00, 0x7F00,
    ] {
        let [a, b] = first.to_be_bytes();
        let behind = |word: u16| {
            let [c, d] = word.to_be_bytes();
            decoder::decode(&[a, b, c, d])
        };
        let begin = count(behind, |d| d.is_ok() || refused(d, 4, 0));
        println!(rt; "second words after {first:04X} that are or begin a code: {begin}")?;
    }
    Ok(())
}

fn main(rt: HostRuntime) -> io::Result<()> {
    first_words(&rt)?;
    second_words(&rt)
}
