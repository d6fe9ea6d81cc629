// What is wrong with the ports that were asked for.
ghost use Rattle.std.specs.Prelude.{◌≡◌};
ghost use Rattle.text.specs.Lines.{added};
ghost use Rattle.wording.specs.Ports.{area_fault};

use site::Area;
use text::Line;

// Which number of --port is wrong; if none is by itself, `otherwise`.
#[tactic(auto, using(text::proofs::Adding::added_append), unfolding(text::specs::Lines::added, crate::specs::Ports::area_fault))]
pub fn area_fault(l: &mut Line, a: Area, otherwise: &[u8])
    ensures { l.new ≡ added l.old (area_fault a otherwise.now) }
{
    if a.base % 2 == 1 {
        l.text("1: BASE of --port is odd");
    } else if a.end % 2 == 1 {
        l.text("1: END of --port is odd");
    } else if a.end < a.base {
        l.text("1: BASE of --port is above END");
    } else {
        l.bytes(otherwise);
    }
}
