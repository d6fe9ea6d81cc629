// An instruction to bytes.
#![tactic(auto)]

ghost use Rattle.codes.specs.Exact.{Encodes};

use codes::Instruction;
use refusal::Refusal;

mod parts;
mod tables;
mod valid;
mod write;

// The bytes of an instruction at the start of `out`, and their number. Refusal 11 comes before 13; on a refusal `out` stays as it was.
pub fn encode(i: Instruction, out: &mut [u8]) -> Result<usize, Refusal>
    ensures { Encodes i out.old out.new result }
{
    if valid::valid(i) {
        write::put(parts::parts_of(i), out)
    } else {
        Err(Refusal::NotInstruction)
    }
}
