// The limits of a sheet's numbers.
ghost use Rattle.std.specs.Prelude.{◌≡◌, ◌≤◌, MatchOption, IfOk};
ghost use Rattle.std.specs.List.{list_all, list_any};
ghost use Rattle.ports.specs.Inputs.{same};
ghost use Rattle.reading.specs.Reader.{read_number, bound, allowed};
ghost use Rattle.reading.specs.Answers.{Gives};
ghost use Rattle.reading.specs.Repeats.{AllDiffer, FirstRepeat};

use adders::{Operand, Refusal};
use ports::Port;
use texts::number_line;

// The line of a key and a number from `low` to `high`.
#[tactic(auto, unfolding(crate::specs::Reader::read_number))]
pub fn number_within<'a>(
    text: &'a [u8],
    key: &[u8],
    low: u8,
    high: u8,
    line: usize,
) -> Result<(u8, &'a [u8]), Refusal>
    ensures answer { Gives (λ x. (x.0, x.1.now)) result (read_number key.now low high line text.now) }
    ensures within { IfOk result (λ x. (low ≤ x.0) × (x.0 ≤ high)) }
{
    let (number, rest) = number_line(text, key).ok_or(Refusal::SheetForm(line))?;
    if !(low..=high).contains(&number) {
        return Err(Refusal::SheetLimit(line));
    }
    Ok((number, rest))
}

// The sources of a port are below this; the output takes any adder of the block.
pub fn bound(port: Port, adders: usize) -> usize
    requires { adders ≤ 8 }
    ensures { result ≡ bound adders port }
{
    match port {
        Port::Left(adder) | Port::Right(adder) => adder,
        Port::Output => adders + 1,
    }
}

// Whether each input has a source below the bound and a shift of at most 30.
pub fn all_allowed(inputs: &[Operand], bound: usize) -> bool
    ensures { result ≡ list_all (allowed bound) inputs.now }
{
    for input in inputs {
        if input.wired_below(bound, 0).is_err() {
            return false;
        }
    }
    true
}

// The first two places, by the first of them and then by the second, that hold one input.
pub fn first_repeat(inputs: &[Operand]) -> Option<(usize, usize)>
    ensures { MatchOption result (AllDiffer inputs.now) (λ p. FirstRepeat inputs.now p.0 p.1) }
{
    let mut found = None;
    'pairs: for i in 0..inputs.len() {
        for j in i + 1..inputs.len() {
            if inputs[i] == inputs[j] {
                found = Some((i, j));
                break 'pairs;
            }
        }
    }
    found
}

// Whether each input is one of the others.
pub fn all_among(inputs: &[Operand], others: &[Operand]) -> bool
    ensures { result ≡ list_all (λ o. list_any (same o) others.now) inputs.now }
{
    for input in inputs {
        if !others.contains(input) {
            return false;
        }
    }
    true
}
