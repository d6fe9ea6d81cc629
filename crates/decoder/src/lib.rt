// Bytes to an instruction.
#![tactic(auto)]

ghost use Rattle.std.specs.Prelude.{◌≡◌};
ghost use Rattle.codes.specs.Exact.{Decodes};
ghost use Rattle.decoder.specs.MirrorDecode.{placed_of, decode_of};

use crate::whole::Fault;
use codes::Instruction;
use refusal::Refusal;

mod plan;
pub mod whole;
mod words;

fn placed(
    found: Result<(Instruction, usize), Fault>,
    bytes: &[u8],
    place: u32,
) -> Result<(Instruction, usize), Refusal>
    ensures { result ≡ placed_of place bytes.now found }
{
    match found {
        Ok(read) => Ok(read),
        Err(Fault::Cut) => Err(Refusal::CutShort(place)),
        Err(Fault::Unlisted) => Err(left::unheld(bytes, place)),
    }
}

// What the bytes at a place begin with, exactly; a refusal names the place.
pub fn decode_at(bytes: &[u8], place: u32) -> Result<(Instruction, usize), Refusal>
    ensures exact { Decodes place bytes.now result }
    ensures mirror { result ≡ decode_of place bytes.now }
{
    placed(whole::begins(bytes), bytes, place)
}

pub fn decode(bytes: &[u8]) -> Result<(Instruction, usize), Refusal>
    ensures exact { Decodes 0 bytes.now result }
    ensures mirror { result ≡ decode_of 0 bytes.now }
{
    decode_at(bytes, 0)
}
