// The quantifiers of a pattern's text: the one at a position, or none, or at which byte it is
// wrong.
#![tactic(auto)]

ghost use Rattle.std.specs.Prelude.{ℕ, ◌≤◌, length, drop, Ok, Some};
ghost use Rattle.rules.specs.Language.{Form as RuleForm};
ghost use Rattle.rules.specs.Reader.{reluctant as reluctantly, quantifier as quantified, braces as braced, up_to, shut as shutWith, got};
ghost use Rattle.marks.specs.Shows.{Codes, Shows, Shown, bounded_by};

use nodes::Form;
use text_bytes::{Broken, number, peek, reaching, skip};

// A quantifier: its form, its bounds, the upper one 100 if there is none, whether it is reluctant,
// and where it ends.
#[derive(Clone, Copy)]
pub struct Mark {
    pub form: Form,
    pub low: usize,
    pub high: usize,
    pub lazy: bool,
    pub at: usize,
}

// Behind a quantifier: its reluctant mark, if it is there, and spaces.
pub fn reluctant(text: &[u8], at: usize, form: Form, low: usize, high: usize) -> Mark
    requires { at ≤ length text.now }
    ensures { (f : RuleForm) → Codes f form low high → Shown text.now at (Ok result) (reluctantly f (drop at text.now)) }
{
    let lazy = peek(text, at) == b'?';
    let to = skip(text, at + usize::from(lazy));
    Mark {
        form,
        low,
        high,
        lazy,
        at: to,
    }
}

// Behind the last bound, which is the upper one and no less than the lower: `}`, and it is not 0.
pub fn shut(text: &[u8], at: usize, form: Form, low: usize, high: usize) -> Result<Mark, Broken>
    requires { (at ≤ length text.now) × (low ≤ high) }
    ensures { (f : ℕ → RuleForm) → Codes (f high) form low high → bounded_by (f high) low high → Shown text.now at result (shutWith f (got high (drop at text.now))) }
{
    if peek(text, at) != b'}' || high < 1 {
        return Err(Broken { at });
    }
    Ok(reluctant(text, at + 1, form, low, high))
}

// Behind `{n,`.
pub fn up_to(text: &[u8], at: usize, n: usize) -> Result<Mark, Broken>
    requires { (at ≤ length text.now) × (n ≤ 99) }
    ensures { Shown text.now at result (up_to n (drop at text.now)) }
{
    if peek(text, at) == b'}' {
        return Ok(reluctant(text, at + 1, Form::AtLeast, n, 100));
    }
    let m = reaching(text, at, n)?;
    shut(text, m.at, Form::Between, n, m.value)
}

// Behind `{`.
pub fn braces(text: &[u8], at: usize) -> Result<Mark, Broken>
    requires { at ≤ length text.now }
    ensures { Shown text.now at result (braced (drop at text.now)) }
{
    if peek(text, at) == b',' {
        let m = reaching(text, at + 1, 1)?;
        return shut(text, m.at, Form::AtMost, 0, m.value);
    }
    let n = number(text, at)?;
    if peek(text, n.at) == b',' {
        return up_to(text, n.at + 1, n.value);
    }
    shut(text, n.at, Form::Exactly, n.value, n.value)
}

// The quantifier at a position, if there is one.
pub fn quantifier(text: &[u8], at: usize) -> Result<Option<Mark>, Broken>
    requires { at ≤ length text.now }
    ensures { Shows text.now at result (quantified (drop at text.now)) }
{
    match peek(text, at) {
        b'*' => Ok(Some(reluctant(text, at + 1, Form::Star, 0, 100))),
        b'+' => Ok(Some(reluctant(text, at + 1, Form::Plus, 1, 100))),
        b'?' => Ok(Some(reluctant(text, at + 1, Form::Opt, 0, 1))),
        b'{' => Ok(Some(braces(text, at + 1)?)),
        _ => Ok(None),
    }
}
