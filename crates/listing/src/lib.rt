// Where paths go from each place of read-only memory: document 01, "The routine's figure".
#![tactic(auto)]

ghost use Rattle.std.specs.Prelude.{◌≡◌, ◌<◌, Ok};
ghost use Rattle.arith.specs.declared.Width.TheVariants.{Long};
ghost use Rattle.codes.specs.declared.Instruction.TheVariants.{Rts};
ghost use Rattle.paths.specs.declared.Flow.TheVariants.{Next, Ends};
ghost use Rattle.timing.specs.Made.{dearest, most_of};
ghost use Rattle.decoder.specs.MirrorWords.{row0, row1, row6, plan_of};
ghost use Rattle.listing.specs.MirrorGlance.{Told, followed_to, reach_states};
ghost use Rattle.listing.specs.Listing.{branch_flow, jump_flow, call_flow, found_flow, flow_at};

use arith::Width;
use codes::{Instruction, Reach, Target};
use decoder::whole::Fault;
use paths::Flow;
use refusal::Refusal;
use site::Site;

#[tactic(auto, unfolding(crate::specs::Listing::branch_flow))]
fn branch(c: u8, next: u32, to: u32, s: u64) -> Flow
    ensures { result ≡ branch_flow c next to s }
{
    match c {
        0 => Flow::Jump(to, s),
        1 => Flow::Next(next, s),
        _ => Flow::Either(next, to, s),
    }
}

// Where a jump or a call is followed to; by a register or a vector it is not.
fn followed(p: u32, to: Target) -> Result<u32, Refusal>
    ensures { result ≡ followed_to p to }
{
    match to {
        Target::Direct(a) => Ok(registers::pc(a)),
        Target::ByReg(_) | Target::Vector(_) => Err(Refusal::NotFollowed(p)),
    }
}

#[tactic(auto, unfolding(crate::specs::Listing::jump_flow))]
fn jump(p: u32, to: Target, s: u64) -> Result<Flow, Refusal>
    ensures { result ≡ jump_flow p to s }
{
    Ok(Flow::Jump(followed(p, to)?, s))
}

#[tactic(auto, unfolding(crate::specs::Listing::call_flow))]
fn call(p: u32, next: u32, to: Target, s: u64) -> Result<Flow, Refusal>
    ensures { result ≡ call_flow p next to s }
{
    Ok(Flow::Call(next, followed(p, to)?, s))
}

fn onward(next: u32, s: u32) -> Flow
    ensures { result ≡ Next next s }
{
    Flow::Next(next, s as u64)
}

fn returns(k: Site) -> Flow
    ensures { result ≡ Ends (most_of k Rts) }
{
    Flow::Ends(timing::parts::rts(k) as u64)
}

// The states of a branch, and of a call but for what it pushes.
fn near_or_far(reach: Reach) -> u64
    ensures { result ≡ reach_states reach }
{
    match reach {
        Reach::Near(_) => 4,
        Reach::Far(_) => 6,
    }
}

// BSR and JSR push where ER7 points.
fn pushed(k: Site) -> u64
    ensures cost { result ≡ dearest k Long }
    ensures small { result < 256 }
{
    timing::dearest(k, Width::Long) as u64
}

// An instruction of n bytes at p. Its parts are looked at here, where the decoder has left them: to hand them on whole is to copy them.
fn found(k: Site, p: u32, i: Instruction, n: usize) -> Result<Flow, Refusal>
    ensures { result ≡ found_flow k p (Ok (i, n)) }
{
    let next = flow::next(p, n);
    match i {
        Instruction::Alu(op, w, s, _) => Ok(onward(next, codes::alu_states(op, w, s))),
        Instruction::Multiply(sign, h, _, _) | Instruction::Divide(sign, h, _, _) => Ok(onward(
            next,
            codes::product_states(sign, h),
        )),
        Instruction::Takes(_, _, spot) => Ok(onward(next, timing::parts::read_bit(k, spot))),
        Instruction::Gives(_, _, spot) => Ok(onward(next, timing::parts::written_bit(k, spot))),
        Instruction::Move(_, w, place, _) => Ok(onward(next, timing::parts::moved(k, w, place))),
        Instruction::Bcc(c, reach) => Ok(branch(
            c,
            next,
            flow::target(next, reach),
            near_or_far(reach),
        )),
        Instruction::Jmp(to) => jump(p, to, 6),
        Instruction::Bsr(reach) => Ok(Flow::Call(
            next,
            flow::target(next, reach),
            near_or_far(reach) + pushed(k),
        )),
        Instruction::Jsr(to) => call(p, next, to, 6 + pushed(k)),
        Instruction::Rts => Ok(returns(k)),
        _ => Ok(onward(next, 2)),
    }
}

// What stands at the place p of the read-only memory `rom`, by what it takes at most on a board that has the site k.
pub fn flow_at(k: Site, rom: &[u8], p: u32) -> Result<Flow, Refusal>
    ensures { result ≡ flow_at k rom.now p }
{
    let at = p as usize;
    if rom.len() <= at {
        return Err(Refusal::FetchOutside(p));
    }
    let s = &rom[at..];
    match decoder::whole::begins(s) {
        Ok((i, n)) => found(k, p, i, n),
        Err(Fault::Cut) => Err(Refusal::CutShort(p)),
        Err(Fault::Unlisted) => Err(left::unheld(s, p)),
    }
}

// The states of a code of one word that goes on, by the lower digit of its first byte; none where the second byte counts too, as it does for an
// absolute address.
#[tactic(auto, unfolding(timing::specs::Made::most_of, timing::specs::Made::base_of))]
fn told_by_0(k: Site, lo: u8) -> Option<u32>
    ensures { Told k result (row0 lo) }
{
    match lo {
        0x4 | 0x5 | 0x6 | 0x7 | 0x8 | 0x9 | 0xC | 0xD | 0xE => Some(2),
        _ => None,
    }
}

#[tactic(auto, unfolding(timing::specs::Made::most_of, timing::specs::Made::base_of))]
fn told_by_1(k: Site, lo: u8) -> Option<u32>
    ensures { Told k result (row1 lo) }
{
    match lo {
        0x4..=0x6 | 0x8..=0x9 | 0xC..=0xE => Some(2),
        _ => None,
    }
}

#[tactic(auto, using(crate::proofs::Words::accesses), unfolding(timing::specs::Made::most_of, timing::specs::Made::base_of, timing::specs::Made::most_at))]
fn told_by_6(k: Site, lo: u8) -> Option<u32>
    ensures { Told k result (row6 lo) }
{
    match lo {
        0x4 | 0x5 | 0x6 => Some(2),
        0x8 => Some(2 + timing::dearest(k, Width::Byte)),
        0x9 => Some(2 + timing::dearest(k, Width::Word)),
        0xC => Some(4 + timing::dearest(k, Width::Byte)),
        0xD => Some(4 + timing::dearest(k, Width::Word)),
        _ => None,
    }
}

#[tactic(auto, unfolding(timing::specs::Made::most_of, timing::specs::Made::base_of))]
fn told_by(k: Site, a: u8) -> Option<u32>
    ensures { Told k result (plan_of a) }
{
    match a / 16 {
        0x0 => told_by_0(k, a % 16),
        0x1 => told_by_1(k, a % 16),
        0x6 => told_by_6(k, a % 16),
        0x8..=0xF => Some(2),
        _ => None,
    }
}

// `flow_at`, for whoever looks at place after place: a short branch, and most codes of one word, need no decoding.
pub fn glance(k: Site, rom: &[u8], p: u32) -> Result<Flow, Refusal>
    ensures { result ≡ flow_at k rom.now p }
{
    let at = p as usize;
    if rom.len() < at + 2 {
        return flow_at(k, rom, p);
    }
    let a = rom[at];
    let next = flow::next(p, 2);
    if a / 16 == 4 {
        let to = flow::target(next, Reach::Near(rom[at + 1]));
        return Ok(branch(a % 16, next, to, 4));
    }
    match told_by(k, a) {
        Some(s) => Ok(onward(next, s)),
        None => flow_at(k, rom, p),
    }
}
