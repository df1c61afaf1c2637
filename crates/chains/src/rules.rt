// The rules of a chain, tested in their order.
ghost use Rattle.std.specs.Prelude.{◌≡◌};
ghost use Rattle.adders.specs.Rules.{Tried};
ghost use Rattle.chains.specs.Rules.{Valued, some_reads, read_rules, chain_rules, constant};

use adders::{Adder, AdderList, Refusal, output_value, slot_values};

// The values of the sample and of the adders, or the first rule that an adder breaks.
pub(crate) fn values_of(adders: &AdderList<8>) -> Result<[u32; 9], Refusal>
    ensures { Valued adders.now result }
{
    slot_values(adders.slots())
}

// Whether one of the adders reads this source.
fn some_reads(adders: &[Adder], source: usize) -> bool
    ensures { result ≡ some_reads source adders.now }
{
    adders.iter().any(|adder| adder.reads(source))
}

// No adder but the last is idle: the lowest that nothing after it takes as a source is told.
fn all_read(adders: &[Adder]) -> Result<(), Refusal>
    ensures { Tried (read_rules adders.now) tt result }
{
    let unread = (1..adders.len()).find(|number| !some_reads(&adders[*number..], *number));
    unread.map_or(Ok(()), |number| Err(Refusal::AdderUnread(number)))
}

// The constant of a chain of these adders, or the first rule that it breaks.
pub(crate) fn constant_of(adders: &AdderList<8>, shift: u8) -> Result<u32, Refusal>
    ensures { Tried (chain_rules adders.now shift) (constant adders.now shift) result }
{
    let last = adders.len();
    let values = values_of(adders)?;
    let constant = output_value(values[last], shift)?;
    all_read(adders.as_slice())?;
    Ok(constant)
}
