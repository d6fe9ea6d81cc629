// Numbers in decimal and in hexadecimal. By hand: `write!` fails where a line is full, and no clause says what it has written then.
ghost use Rattle.std.specs.Prelude.{◌≡◌, [], ◌∷◌, ◌+◌, ◌%◌};
ghost use Rattle.text.specs.Lines.{added};
ghost use Rattle.text.specs.Numbers.{glyph_of, hex_of, place_of, figures_of, decimal_of, signed_of};

use crate::buffer::Line;

// The last hexadecimal digit, a capital letter or a small one from ten on.
#[tactic(auto, unfolding(crate::specs::Numbers::glyph_of))]
fn glyph(upper: bool, n: u32) -> u8
    ensures { result ≡ glyph_of upper n }
{
    let x = (n % 16) as u8;
    match (x < 10, upper) {
        (true, _) => b'0' + x,
        (false, true) => b'A' - 10 + x,
        (false, false) => b'a' - 10 + x,
    }
}

impl Line {
    // The last hexadecimal digits of n, with capital letters or small ones.
    #[tactic(auto, using(crate::proofs::Adding::added_append, crate::proofs::Figures::no_digits, crate::proofs::Figures::more_digits), unfolding(crate::specs::Lines::added))]
    pub fn hex(&mut self, digits: u8, upper: bool, n: u32)
        ensures { self.new ≡ added self.old (hex_of upper digits n) }
    {
        if digits > 0 {
            self.hex(digits - 1, upper, n / 16);
            self.byte(glyph(upper, n));
        }
    }

    // An address as this tool reads and writes it: 0x and four digits or more.
    #[tactic(auto, using(crate::proofs::Adding::added_append), unfolding(crate::specs::Lines::added, crate::specs::Numbers::place_digits))]
    pub fn place(&mut self, p: u32)
        ensures { self.new ≡ added self.old (place_of p) }
    {
        self.text("0x");
        if p < 0x10000 {
            self.hex(4, false, p);
        } else if p < 0x1000000 {
            self.hex(6, false, p);
        } else {
            self.hex(8, false, p);
        }
    }

    fn digit(&mut self, n: u64)
        ensures { self.new ≡ added self.old ((48 + n % 10) ∷ []) }
    {
        self.byte(b'0' + (n % 10) as u8);
    }

    // The digits of n, at most k + 1 of them.
    #[tactic(auto, using(crate::proofs::Adding::added_append, crate::proofs::Figures::last_figure, crate::proofs::Figures::small_figure, crate::proofs::Figures::more_figures), unfolding(crate::specs::Lines::added))]
    fn figures(&mut self, k: u8, n: u64)
        ensures { self.new ≡ added self.old (figures_of k n) }
    {
        if k > 0 && n >= 10 {
            self.figures(k - 1, n / 10);
            self.digit(n);
        } else {
            self.digit(n);
        }
    }

    pub fn decimal(&mut self, n: u64)
        ensures { self.new ≡ added self.old (decimal_of n) }
    {
        self.figures(19, n);
    }

    // A displacement d:16, by its bits, as a signed number.
    #[tactic(auto, using(crate::proofs::Adding::added_append), unfolding(crate::specs::Lines::added, crate::specs::Numbers::signed_of))]
    pub fn signed(&mut self, d: u16)
        ensures { self.new ≡ added self.old (signed_of d) }
    {
        if d < 32768 {
            self.decimal(u64::from(d));
        } else {
            self.byte(b'-');
            self.decimal(65536 - u64::from(d));
        }
    }
}
