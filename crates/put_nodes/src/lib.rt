// A node put into its eight words of a lent slice (crates/nodes): its sort and byte in one word,
// its form and reluctant mark in one, and a word for each number.
#![tactic(auto)]

ghost use Rattle.std.specs.Prelude.{◌≡◌, ◌+◌, ◌*◌, ◌≤◌, ◌<◌, length};
ghost use Rattle.nodes.specs.Nodes.{put_node, word_of, number_of, bit_of_bool, Small};

use nodes::{Form, Node, Sort};

fn word_of(s: Sort) -> u16
    ensures { result ≡ word_of s }
{
    match s {
        Sort::Letter(b) => b as u16,
        Sort::Anchor(b) => 256 + b as u16,
        Sort::Empty => 512,
        Sort::Sequence => 768,
        Sort::Alternation => 1024,
        Sort::Group => 1280,
    }
}

fn number_of(form: Form) -> u16
    requires { number_of form < 32768 }
    ensures { (result ≡ number_of form) × (result < 32768) }
{
    match form {
        Form::Bare => 0,
        Form::Star => 1,
        Form::Plus => 2,
        Form::Opt => 3,
        Form::Exactly => 4,
        Form::AtLeast => 5,
        Form::AtMost => 6,
        Form::Between => 7,
        Form::Other(k) => (8 + k) as u16,
    }
}

// A form and its reluctant mark in one word.
fn form_word(form: Form, lazy: bool) -> u16
    requires { number_of form < 32768 }
    ensures { result ≡ number_of form * 2 + bit_of_bool lazy }
{
    number_of(form) * 2 + u16::from(lazy)
}

// Puts a node at i.
#[tactic(auto, unfolding(nodes::specs::Nodes::put_node))]
pub fn put_node(room: &mut [u16], i: usize, n: Node)
    requires { (8 * i + 8 ≤ length room.old) × Small n }
    ensures { room.new ≡ put_node room.old i n }
{
    let at = i * 8;
    room[at] = word_of(n.sort);
    room[at + 1] = form_word(n.form, n.lazy);
    room[at + 2] = n.low as u16;
    room[at + 3] = n.high as u16;
    room[at + 4] = n.left as u16;
    room[at + 5] = n.right as u16;
    room[at + 6] = n.height as u16;
    room[at + 7] = n.places as u16;
}
