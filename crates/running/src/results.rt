// The sample and what eight adders make of it, by number.
ghost use Rattle.std.specs.Prelude.{◌≡◌, ◌<◌, slice_index_or, slice_set};
ghost use Rattle.running.specs.Results.{alike, listed};

// An array of a type parameter asks at each use that nine of it fit into the address space, which nothing says of an arithmetic.
#[derive(Clone, Copy)]
pub(crate) struct Results<X>(X, X, X, X, X, X, X, X, X);

impl<X: Copy> Results<X> {
    // The same sample at every number.
    pub(crate) fn new(x: X) -> Results<X>
        ensures { listed result ≡ alike x }
    {
        Results(x, x, x, x, x, x, x, x, x)
    }

    pub(crate) fn at(&self, number: usize) -> X
        requires { number < 9 }
        ensures { (d : X) → result ≡ slice_index_or (listed self.now) number d }
    {
        match number {
            0 => self.0,
            1 => self.1,
            2 => self.2,
            3 => self.3,
            4 => self.4,
            5 => self.5,
            6 => self.6,
            7 => self.7,
            _ => self.8,
        }
    }

    pub(crate) fn put(&mut self, number: usize, x: X)
        requires { number < 9 }
        ensures { listed self.new ≡ slice_set (listed self.old) number x }
    {
        match number {
            0 => self.0 = x,
            1 => self.1 = x,
            2 => self.2 = x,
            3 => self.3 = x,
            4 => self.4 = x,
            5 => self.5 = x,
            6 => self.6 = x,
            7 => self.7 = x,
            _ => self.8 = x,
        }
    }
}
