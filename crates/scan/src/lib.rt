// Passes over the bytes of a pattern's text: the depth of its parentheses, which answer 4 is about,
// and whether a byte stands in it. The promises are equations with document 01's tests, for all
// texts.
#![tactic(auto)]

ghost use Rattle.std.specs.Prelude.{◌≡◌, true, false, ◌+◌, ◌<◌, ◌^◌, length};
ghost use Rattle.rules.specs.Basics.{has};
ghost use Rattle.rules.specs.Answers.{deep};
ghost use Rattle.scan.specs.Depth.{Behind};

// Parentheses opened and closed so far. Their difference may be negative.
#[derive(Clone, Copy)]
pub struct Depth {
    pub opened: usize,
    pub closed: usize,
}

impl Depth {
    // The same behind one more byte.
    fn behind(self, b: u8) -> Depth
        requires { (self.opened + 1 < 2 ^ 64) × (self.closed + 1 < 2 ^ 64) }
        ensures { Behind b self result }
    {
        match b {
            b'(' => Depth {
                opened: self.opened + 1,
                ..self
            },
            b')' => Depth {
                closed: self.closed + 1,
                ..self
            },
            _ => self,
        }
    }
}

// Whether parentheses opened less closed pass 8 at some byte.
pub fn too_deep(text: &[u8]) -> bool
    requires { length text.now < 60000 }
    ensures { result ≡ deep 0 0 text.now }
{
    let mut d = Depth {
        opened: 0,
        closed: 0,
    };
    for b in text {
        d = d.behind(*b);
        if d.closed + 8 < d.opened {
            return true;
        }
    }
    false
}

// Whether the byte stands in the text. A letter that stands in a pattern's text stands in the
// pattern.
pub fn has_byte(text: &[u8], b: u8) -> bool
    ensures { result ≡ has b text.now }
{
    text.contains(&b)
}
