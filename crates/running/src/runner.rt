// The runner.
ghost use Rattle.std.specs.Prelude.{◌≡◌, ◌<◌, slice_index_or};
ghost use Rattle.arith.specs.Operations.{times};
ghost use Rattle.rows.specs.Rows.{constant_of};
ghost use Rattle.running.specs.Results.{listed};
ghost use Rattle.running.specs.Steps.{operand_meaning, slot_meaning, Within};
ghost use Rattle.running.specs.Buffers.{Ran};

use crate::results::Results;
use adders::{Adder, Operand, Refusal, Sign};
use arith::Arithmetic;
use rows::Row;

// An operand over the results so far.
fn operand<X: Arithmetic>(results: &Results<X>, operand: Operand) -> X
    requires { operand.source < 9 }
    ensures meaning { (d : X) → X.means result ≡ operand_meaning X.operations (λ k. X.means (slice_index_or (listed results.now) k d)) operand }
    ensures settled { X.Settled result }
{
    results.at(operand.source as usize).shifted(operand.shift)
}

// What an adder makes of the results so far, the neutral sample where it is absent.
fn slot_result<X: Arithmetic>(results: &Results<X>, slot: Option<Adder>) -> X
    requires { Within slot }
    ensures { (d : X) → X.means result ≡ slot_meaning X.operations (λ k. X.means (slice_index_or (listed results.now) k d)) slot }
{
    let Some(adder) = slot else {
        return X::neutral();
    };
    let left = operand(results, adder.left);
    let right = operand(results, adder.right);
    match adder.sign {
        Sign::Plus => left.sum(right),
        Sign::Minus => left.difference(right),
    }
}

// The row's multiple of a sample.
pub fn run<X: Arithmetic>(row: &Row, sample: X) -> X
    ensures meaning { X.means result ≡ times X.operations (constant_of row.now) (X.means sample) }
    ensures product { X.Product (constant_of row.now) sample result }
{
    let slots = row.slots();
    let mut results = Results::new(sample);
    for (i, slot) in slots.iter().enumerate() {
        let result = slot_result(&results, *slot);
        results.put(i + 1, result);
    }
    operand(&results, row.output())
}

// The row's multiple of each sample, at its place of the output.
pub fn run_all<X: Arithmetic>(row: &Row, input: &[X], output: &mut [X]) -> Result<(), Refusal>
    ensures { Ran X.means X.operations X.Product (constant_of row.now) input.now output.old output.new result }
{
    if input.len() != output.len() {
        return Err(Refusal::LengthsDiffer);
    }
    for (i, sample) in input.iter().enumerate() {
        output[i] = run(row, *sample);
    }
    Ok(())
}
