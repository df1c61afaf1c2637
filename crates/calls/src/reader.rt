// Reads a line of a script of calls.
ghost use Rattle.std.specs.Prelude.{◌≡◌, List, true, false, MatchOption, ℕ};
ghost use Rattle.forms.specs.Answers.{Only};
ghost use Rattle.calls.specs.Counts.{Counts, Ends};
ghost use Rattle.calls.specs.Form.{chain_line, ByChain, ByUnits, AnswerTo, NoLine, Reading};

use crate::call::{Call, SuppliedList, Unread};
use crate::words::{
    ChainKey, Founding, FusingByBits, FusingByCount, MovingDown, MovingUp, Retiring,
};
use adders::Refusal;
use chains::Chain;
use forms::Key;
use prices::{CountList, EitherList, PerBitList, UnitPrices};

// The bytes of a line from `chain=` on, where so many follow that.
fn chain_at(line: &[u8], after: usize) -> &[u8]
    ensures { (tail : List ℕ) → Ends (chain_line tail) line.now → Counts tail after → result.now ≡ chain_line tail }
{
    let key = ChainKey::key().len();
    let start = line.len().saturating_sub(after).saturating_sub(key);
    &line[start..]
}

// The founding of a block with the chain of a line.
fn found(line: &[u8], code: u32, width: u32) -> Result<Call<SuppliedList>, Refusal>
    ensures { ByChain line.now (λ chain. Call.Found chain code width) result }
{
    let chain = Chain::read(line)?;
    Ok(Call::Found {
        chain,
        code: code as usize,
        width: width as usize,
    })
}

// The fusing of the chain of a line, under a price list.
fn fuse(line: &[u8], code: u32, list: SuppliedList) -> Result<Call<SuppliedList>, Refusal>
    ensures { ByChain line.now (λ chain. Call.Fuse chain code list) result }
{
    let chain = Chain::read(line)?;
    Ok(Call::Fuse {
        chain,
        code: code as usize,
        list,
    })
}

// The same under the per-bit list of unit prices, which are judged first.
fn fuse_by_bits(line: &[u8], code: u32, units: UnitPrices) -> Result<Call<SuppliedList>, Refusal>
    ensures { ByUnits units line.now (λ list chain. Call.Fuse chain code (EitherList.Second list)) result }
{
    let list = PerBitList::new(units)?;
    fuse(line, code, EitherList::Second(list))
}

// What a line with a chain is answered, `None` where it is no such line.
fn with_chain(line: &[u8]) -> Option<Result<Call<SuppliedList>, Refusal>>
    ensures { MatchOption result (NoLine true line.now) (AnswerTo line.now) }
{
    if let Ok((code, (width, after))) = forms::read::<Founding>(line) {
        return Some(found(chain_at(line, after), code, width));
    }
    if let Ok((code, after)) = forms::read::<FusingByCount>(line) {
        let list = EitherList::First(CountList);
        return Some(fuse(chain_at(line, after), code, list));
    }
    let fusing = forms::read::<FusingByBits>(line);
    if let Ok((code, (adds, (subtracts, (both, (two_to_one, after)))))) = fusing {
        let units = UnitPrices {
            adds,
            subtracts,
            both,
            two_to_one,
        };
        return Some(fuse_by_bits(chain_at(line, after), code, units));
    }
    None
}

// The call that a line without a chain says, `None` where it is no such line.
fn without_chain(line: &[u8]) -> Option<Call<SuppliedList>>
    ensures { MatchOption result (NoLine false line.now) (λ call. AnswerTo line.now (Ok call)) }
{
    if let Ok(code) = forms::read::<Retiring>(line) {
        let code = code as usize;
        return Some(Call::Retire { code });
    }
    if let Ok((code, (adder, amount))) = forms::read::<MovingUp>(line) {
        return Some(Call::Move {
            code: code as usize,
            adder: adder as usize,
            amount: i64::from(amount),
        });
    }
    if let Ok((code, (adder, amount))) = forms::read::<MovingDown>(line) {
        return Some(Call::Move {
            code: code as usize,
            adder: adder as usize,
            amount: -i64::from(amount),
        });
    }
    None
}

// The call that a line says, or why it gives none.
pub fn read_call(line: &[u8]) -> Result<Call<SuppliedList>, Unread>
    ensures answer { Reading line.now result }
    ensures only { Only (Reading line.now) result }
{
    if let Some(answer) = with_chain(line) {
        return answer.map_err(Unread::Refused);
    }
    without_chain(line).ok_or(Unread::Unreadable)
}
