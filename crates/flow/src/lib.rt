// The target of a branch, document 01 "Numbers, flags and addresses": a signed displacement from the next instruction.
#![tactic(auto)]

ghost use Rattle.std.specs.Prelude.{◌≡◌, ◌<◌};
ghost use Rattle.std.specs.Int.Signed.{mag};
ghost use Rattle.flow.specs.Targets.{displacement_of, target_of, next_of};

use codes::Reach;

// The displacement of a branch, from -32768 to 32767.
pub fn displacement(reach: Reach) -> i32
    ensures { (result ≡ displacement_of reach) × (mag result < 32768) }
{
    match reach {
        Reach::Near(d) => i32::from(d.cast_signed()),
        Reach::Far(d) => i32::from(d.cast_signed()),
    }
}

// The target of a branch whose next instruction is at `next`.
pub fn target(next: u32, reach: Reach) -> u32
    ensures { result ≡ target_of next reach }
{
    let by = displacement(reach).cast_unsigned();
    registers::pc(next.wrapping_add(by))
}

// The address of the next instruction, n bytes on.
pub fn next(pc: u32, n: usize) -> u32
    ensures { result ≡ next_of pc n }
{
    ((pc as usize + n % 16777216) % 16777216) as u32
}
