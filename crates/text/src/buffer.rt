// A line of text that is being written.
ghost use Rattle.std.specs.Prelude.{◌≡◌, [], ◌∷◌, ◌-◌, length, replicate};
ghost use Rattle.text.specs.Lines.{added};

use std::marker::Model;

// Its text is the first n bytes, and the rest are zeros; what does not fit is dropped. An array, since an `ArrayVec` is not `Copy`.
#[derive(Clone, Copy)]
pub struct Line {
    text: [u8; 192],
    n: usize,
}

// Clauses see the bytes of its text.
impl Model for Line {
    ghost use Rattle.std.specs.Prelude.{◌≡◌, List, ℕ, ◌-◌, ◌≤◌, ◌++◌, length, take, drop, replicate};
    ghost use Rattle.text.specs.Room.{text_and_room, length_of_text};

    ghost Value = { List ℕ };

    ghost view = { λ l. take l.n l.text };

    ghost invariant = { λ l. (l.n ≤ 192) × (length l.text ≡ 192) × (drop l.n l.text ≡ replicate (192 - l.n) 0) };

    ghost inverse = { λ s. record { text = s ++ replicate (192 - length s) 0; n = length s } };

    ghost inverse_ok = { λ l h i. record {
      text = text_and_room l.n l.text h.0 h.1 h.2 i;
      n = length_of_text l.n l.text h.0 h.1 i;
    } };
}

impl Line {
    pub fn new() -> Self
        ensures { result ≡ [] }
    {
        Line {
            text: [0; 192],
            n: 0,
        }
    }

    pub fn as_slice(&self) -> &[u8]
        ensures { result.now ≡ self.now }
    {
        &self.text[..self.n]
    }

    #[tactic(auto, unfolding(crate::specs::Lines::added, crate::specs::Lines::put_of))]
    pub fn byte(&mut self, b: u8)
        ensures { self.new ≡ added self.old (b ∷ []) }
    {
        if self.n < 192 {
            self.text[self.n] = b;
            self.n += 1;
        }
    }

    pub fn bytes(&mut self, s: &[u8])
        ensures { self.new ≡ added self.old s.now }
    {
        for b in s {
            self.byte(*b);
        }
    }

    pub fn text(&mut self, s: &str)
        ensures { self.new ≡ added self.old s.now }
    {
        self.bytes(s.as_bytes());
    }

    // Spaces up to the column k.
    pub fn pad(&mut self, k: usize)
        ensures { self.new ≡ added self.old (replicate (k - length self.old) 32) }
    {
        let missing = k.saturating_sub(self.n);
        for _ in 0..missing {
            self.byte(b' ');
        }
    }
}
