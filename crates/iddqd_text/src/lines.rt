//! Splits a text into lines.
ghost use Rattle.std.specs.Prelude.{◌≡◌, ◌<◌, ◌≤◌, ◌∷◌, ◌==◌, length, not};
ghost use Rattle.std.specs.List.{prefix_len};
ghost use Rattle.iddqd_text.specs.Lines.{lines_of};

/// Returns the first line, without its line feed, and the text after it.
#[tactic(auto, using(crate::proofs::Cutting::first_line, crate::proofs::Cutting::last_line))]
pub fn cut(rest: &[u8]) -> (&[u8], &[u8])
    requires { 0 < length rest.now }
    ensures lines { lines_of rest.now ≡ result.0.now ∷ lines_of result.1.now }
    ensures shorter { length result.1.now < length rest.now }
{
    let at = end_of_line(rest);
    if at < rest.len() {
        (&rest[..at], &rest[at + 1..])
    } else {
        (rest, &[])
    }
}

/// Returns the place of the first line feed, or the length if there is none.
fn end_of_line(rest: &[u8]) -> usize
    ensures place { result ≡ prefix_len (λ b. not (b == 10)) rest.now }
    ensures within { result ≤ length rest.now }
{
    rest.iter().take_while(|b| **b != 10).count()
}
