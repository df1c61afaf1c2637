// Moving the shifts of one adder of a row.
ghost use Rattle.std.specs.Prelude.{◌≡◌, Some, is_ok, IfOk, Decides};
ghost use Rattle.adders.specs.Rules.{Answered, Changed};
ghost use Rattle.moves.specs.Scaling.{ValuesMove};
ghost use Rattle.rows.specs.Rows.{adder_at, constant_of};
ghost use Rattle.rows.specs.Moving.{limit_rules, move_rules, MovedRow, Movable};

use super::Row;
use adders::{Adder, Refusal};
use moves::ShiftMove;

impl Row {
    // Raises both shifts of an adder by an amount, and lowers whatever reads the adder by as much; or the first cause against it.
    pub fn move_shifts(&mut self, adder: usize, amount: i64) -> Result<(), Refusal>
        ensures answer { Changed (move_rules self.old adder amount) self.old (λ _ row. MovedRow self.old adder amount row) result self.new }
        ensures exactly { Decides (is_ok result) (Movable self.old adder amount) }
        ensures values { IfOk result (λ _. ValuesMove adder amount self.old.slots self.new.slots) }
        ensures constant { constant_of self.new ≡ constant_of self.old }
    {
        let used = self.adder(adder).ok_or(Refusal::AdderUnused)?;
        let shift_move = ShiftMove::new(adder, amount)?;
        *self = self.moved(shift_move, used)?;
        Ok(())
    }

    // The row after the move of an adder that it uses.
    fn moved(&self, shift_move: ShiftMove, used: Adder) -> Result<Row, Refusal>
        requires { adder_at self.now shift_move.adder ≡ Some used }
        ensures { Answered (limit_rules self.now shift_move.adder shift_move.amount) (λ row. MovedRow self.now shift_move.adder shift_move.amount row) result }
    {
        let adder = shift_move.adder();
        let own = shift_move.moved_adder(used, adder)?;
        let slots = shift_move.moved_slots(self.slots)?;
        let output = shift_move.moved_operand(self.output, 0)?;
        let values = self.values();
        own.value(&values[..adder])?;
        Ok(Row { slots, output })
    }
}
