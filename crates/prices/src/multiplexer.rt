// Multiplexers, as a price list is asked for them.
ghost use Rattle.std.specs.Prelude.{◌≡◌, ◌≤◌, is_some, IfSome, Decides};

const MOST_INPUTS: usize = 16;

const MOST_BITS: u32 = 63;

// A multiplexer of 1 to 16 inputs, from 1 to 63 bits wide.
#[derive(Clone, Copy)]
pub struct Multiplexer {
    inputs: usize,
    width: u32,
    ghost some: { 1 ≤ inputs },
    ghost few: { inputs ≤ 16 },
    ghost least: { 1 ≤ width },
    ghost most: { width ≤ 63 },
}

impl Multiplexer {
    // The multiplexer of so many inputs at a width, if there is one.
    pub fn new(inputs: usize, width: u32) -> Option<Multiplexer>
        ensures part { IfSome result (λ m. (m.inputs ≡ inputs) × (m.width ≡ width)) }
        ensures exactly { Decides (is_some result) ((1 ≤ inputs) × (inputs ≤ 16) × (1 ≤ width) × (width ≤ 63)) }
    {
        if !(1..=MOST_INPUTS).contains(&inputs) || !(1..=MOST_BITS).contains(&width) {
            return None;
        }
        Some(Multiplexer { inputs, width })
    }

    // How many inputs it has.
    pub fn inputs(self) -> usize
        ensures value { result ≡ self.inputs }
        ensures range { (1 ≤ result) × (result ≤ 16) }
    {
        self.inputs
    }

    // How many bits wide it is.
    pub fn width(self) -> u32
        ensures value { result ≡ self.width }
        ensures range { (1 ≤ result) × (result ≤ 63) }
    {
        self.width
    }
}
