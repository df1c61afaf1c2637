// Running a code, through the one runner.
ghost use Rattle.std.specs.Prelude.{◌≡◌, length, is_ok, Decides};
ghost use Rattle.blocks.specs.Blocks.{Live, constant_at};
ghost use Rattle.blocks.specs.Runs.{RunAt, RunAllAt};

use super::Block;
use adders::Refusal;
use arith::Arithmetic;

impl Block {
    // The multiple of a sample that a live code makes.
    pub fn run<X: Arithmetic>(&self, code: usize, sample: X) -> Result<X, Refusal>
        ensures answer { RunAt X.means X.operations X.Product code (constant_at self.now code) sample result }
        ensures exactly { Decides (is_ok result) (Live self.now code) }
    {
        Ok(running::run(&self.row(code)?, sample))
    }

    // The multiple of each sample of a buffer, at its place of the output.
    pub fn run_all<X: Arithmetic>(
        &self,
        code: usize,
        input: &[X],
        output: &mut [X],
    ) -> Result<(), Refusal>
        ensures answer { RunAllAt X.means X.operations X.Product code (constant_at self.now code) input.now output.old result output.new }
        ensures exactly { Decides (is_ok result) (Live self.now code × (length input.now ≡ length output.old)) }
    {
        running::run_all(&self.row(code)?, input, output)
    }
}
