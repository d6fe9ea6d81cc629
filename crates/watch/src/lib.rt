// A step that says what it touched. The loop of a run hands out what its reads and writes noted; here that is unpacked.
#![tactic(auto)]

ghost use Rattle.std.specs.Prelude.{◌≡◌, ◌≤◌, length};
ghost use Rattle.memory.specs.Trail.{trail_in};
ghost use Rattle.step.specs.Step.{after, step_of};
ghost use Rattle.watch.specs.Watch.{listed, list_of, Summed, Spares};

use memory::Board;
use memory::told::{self, Accesses};
use refusal::Refusal;
use registers::Registers;
use step::StepAnswer;

// A step, and its data accesses in the order made.
#[derive(Clone, Copy)]
pub struct Watched {
    pub answer: StepAnswer,
    pub list: Accesses,
}

// The two calls of a trail. None where the step was refused, though a read before the refusal was noted.
fn unpacked(o: Result<(), Refusal>, trail: u64) -> Accesses
    ensures list { result.items ≡ listed o (trail_in trail) }
    ensures few { length result.items ≤ 4 }
{
    if o.is_err() {
        return Accesses::new();
    }
    let mut list = told::unpack(trail / 134217728);
    let later = told::unpack(trail % 134217728);
    list.append(later);
    list
}

// A step, and what it touched.
pub fn single(b: Board, rom: &[u8], ram: &mut [u8], r: Registers) -> Watched
    ensures answer { after result.answer ram.new ≡ step_of b rom.now ram.old r }
    ensures list { result.list.items ≡ list_of b rom.now ram.old r }
    ensures few { length result.list.items ≤ 4 }
    ensures sum { Summed b rom.now r result }
    ensures spares { Spares b ram.old ram.new (result.list.items) }
{
    let t = run::watched(b, rom, ram, r);
    let answer = t.answer;
    let list = unpacked(answer.outcome, t.touched);
    Watched { answer, list }
}
