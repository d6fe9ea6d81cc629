// What is wrong with the ports that a figure was asked for with.
#![tactic(auto, using(text::proofs::Adding::added_append, text::proofs::Adding::padded), unfolding(text::specs::Lines::added, crate::specs::Ports::carried_fault))]

ghost use Rattle.std.specs.Prelude.{◌≡◌, length};
ghost use Rattle.text.specs.Lines.{added};
ghost use Rattle.lines.specs.Ports.{carried_fault, ports_text};

use refusal::Refusal;
use site::Area;
use text::Line;
use wording::{parts, ports};

fn carried_fault(l: &mut Line, rom: usize, a: Area)
    ensures { l.new ≡ added l.old (carried_fault rom a) }
{
    if (a.base as usize) < rom {
        ports::area_fault(l, a, b"1: BASE of --port is below the end of the ROM");
    } else if 16777216 < a.end {
        ports::area_fault(l, a, b"1: the ports do not end at or below 0x1000000");
    } else {
        ports::area_fault(l, a, b"1: there are more than 65536 bytes of ports");
    }
}

// A figure's refusal 1: no right board with this ROM has these ports.
pub fn ports_wrong(l: &mut Line, rom: &[u8], a: Area, plain: bool)
    ensures { l.new ≡ added l.old (ports_text (length rom.now) a plain) }
{
    parts::before(l, Refusal::BadBoard, plain);
    carried_fault(l, rom.len(), a);
    l.byte(b'\n');
}
