// Frames of two channels, each in an arithmetic of its own.
ghost use Rattle.arith.specs.Operations.{paired};
ghost use Rattle.arith.specs.Times.{paired_laws, times_pair};
ghost use Rattle.std.proofs.Common.{ap, ◌∙◌};

use crate::arithmetic::Arithmetic;

#[derive(Clone, Copy, PartialEq, Eq, Debug)]
pub struct Frame<L, R> {
    pub left: L,
    pub right: R,
}

#[tactic(auto, using(crate::specs::Times::doubled_pair))]
impl<L: Arithmetic, R: Arithmetic> Arithmetic for Frame<L, R> {
    ghost Meaning = { L.Arithmetic.Meaning × R.Arithmetic.Meaning };

    ghost operations = { paired L.Arithmetic.operations R.Arithmetic.operations };

    ghost means = { λ f. (L.Arithmetic.means f.left, R.Arithmetic.means f.right) };

    ghost Settled = { λ f. L.Arithmetic.Settled f.left × R.Arithmetic.Settled f.right };

    ghost Product = { λ n x r. L.Arithmetic.Product n x.left r.left × R.Arithmetic.Product n x.right r.right };

    ghost laws = { paired_laws L.Arithmetic.operations R.Arithmetic.operations L.Arithmetic.laws R.Arithmetic.laws };

    ghost multiplied = { λ n x r h e.
        let l = L.Arithmetic in
        let s = R.Arithmetic in
        let both = e ∙ times_pair l.operations s.operations n (l.means x.left) (s.means x.right) in (
          L.Arithmetic.multiplied n x.left r.left h.0 (ap (λ p. p.0) both),
          R.Arithmetic.multiplied n x.right r.right h.1 (ap (λ p. p.1) both),
        ) };

    fn neutral() -> Frame<L, R> {
        Frame {
            left: L::neutral(),
            right: R::neutral(),
        }
    }

    fn sum(self, other: Frame<L, R>) -> Frame<L, R> {
        Frame {
            left: self.left.sum(other.left),
            right: self.right.sum(other.right),
        }
    }

    fn difference(self, other: Frame<L, R>) -> Frame<L, R> {
        Frame {
            left: self.left.difference(other.left),
            right: self.right.difference(other.right),
        }
    }

    // Each channel by its own way to shift.
    fn shifted(self, shift: u8) -> Frame<L, R> {
        Frame {
            left: self.left.shifted(shift),
            right: self.right.shifted(shift),
        }
    }
}
