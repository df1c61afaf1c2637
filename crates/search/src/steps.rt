// The search, for whatever is chosen step by step.
ghost use Rattle.std.specs.Prelude.{◌≡◌, ℕ, ◌+◌, ◌*◌, ◌≤◌, Bool, List, length};
ghost use Rattle.search.specs.Choosing.{Choice, cheaper, no_dearer, best_from};

use crate::choices::ChoiceList;
use crate::found::Found;

// What is chosen step by step: at most eight steps, each with a number, at a price that rests on the choices before it.
pub trait Steps {
    ghost length: { Self → ℕ };

    ghost count: { Self → ℕ };

    ghost opens: { Self → List ℕ → ℕ → Bool };

    ghost rise: { Self → List ℕ → ℕ → ℕ };

    ghost last: { Self → List ℕ → ℕ };

    // How many steps there are.
    fn length(&self) -> usize
        ensures { result ≡ length self.now };

    // The highest number of a step; the lowest is 1.
    fn count(&self) -> u8
        ensures { result ≡ count self.now };

    // Whether the next step may have this number.
    fn opens(&self, before: ChoiceList, choice: u8) -> bool
        ensures { 1 ≤ choice → choice ≤ count self.now → result ≡ opens self.now before choice };

    // What it costs.
    fn rise(&self, before: ChoiceList, choice: u8) -> u32
        ensures price { 1 ≤ choice → choice ≤ count self.now → result ≡ rise self.now before choice }
        ensures most { result ≤ 3000000 };

    // What the whole costs besides.
    fn last(&self, all: ChoiceList) -> u32
        ensures price { result ≡ last self.now all }
        ensures most { result ≤ 3000000 };

    ghost few: { (steps : Self) → length steps ≤ 8 };
}

// The cheaper of two, and the first of two that cost the same.
fn cheaper(best: Option<Found>, next: Option<Found>) -> Option<Found>
    ensures { result ≡ cheaper best next }
{
    match best {
        None => next,
        Some(found) => match next {
            Some(other) if other.price < found.price => Some(other),
            _ => Some(found),
        },
    }
}

// Whether something is found that costs no more than this.
fn no_dearer(best: &Option<Found>, paid: u32) -> bool
    ensures { result ≡ no_dearer best.now paid }
{
    match *best {
        None => false,
        Some(found) => found.price <= paid,
    }
}

// The best so far, or a cheaper way to go on by so many steps. Whatever is paid already is not got back, so that a way that costs as much as the best is left.
fn explore<S: Steps>(
    steps: &S,
    left: usize,
    before: ChoiceList,
    paid: u32,
    best: Option<Found>,
) -> Option<Found>
    requires room { left + length before ≤ 8 }
    requires few { paid ≤ 3000000 * length before }
    ensures { result ≡ cheaper best (best_from (S.Steps.count steps.now) (S.Steps.opens steps.now) (S.Steps.rise steps.now) (S.Steps.last steps.now) left before paid) }
{
    if no_dearer(&best, paid) {
        return best;
    }
    if left == 0 {
        let price = paid + steps.last(before);
        return cheaper(
            best,
            Some(Found {
                price,
                choices: before,
            }),
        );
    }
    let mut best = best;
    for lower in 0..steps.count() {
        let choice = lower + 1;
        if steps.opens(before, choice) {
            let price = paid + steps.rise(before, choice);
            best = explore(steps, left - 1, before.with(choice), price, best);
        }
    }
    best
}

// The cheapest choice of all steps, the one that is lower at the first difference where several cost as little.
pub fn cheapest<S: Steps>(steps: &S) -> Option<Found>
    ensures { Choice (S.Steps.count steps.now) (S.Steps.opens steps.now) (S.Steps.rise steps.now) (S.Steps.last steps.now) (S.Steps.length steps.now) result }
{
    explore(steps, steps.length(), ChoiceList::new(), 0, None)
}
