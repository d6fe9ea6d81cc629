// The registers that are lent, which four functions look at first.
ghost use Rattle.std.specs.Prelude.{◌≡◌, ◌≤◌, length, OnOk};
ghost use Rattle.host.specs.MirrorAnswers.{lent_registers};
ghost use Rattle.layout.specs.Registers.{registers_length};

use layout::lent;
use refusal::Refusal;
use registers::Registers;

// The registers, or why nothing is done: too few numbers, a budget above a million, a condition number that is no byte.
pub fn registers(regs: &[u32], budget: u32) -> Result<Registers, Refusal>
    ensures value { result ≡ lent_registers regs.now budget }
    ensures long { OnOk result (registers_length ≤ length regs.now) }
{
    if regs.len() < lent::REGISTERS {
        return Err(Refusal::LentTooShort(lent::REGISTERS as u32));
    }
    if 1000000 < budget {
        return Err(Refusal::BudgetTooLarge);
    }
    if 255 < lent::number_at(regs, 9) {
        return Err(Refusal::BadBoard);
    }
    Ok(lent::registers_in(regs))
}
