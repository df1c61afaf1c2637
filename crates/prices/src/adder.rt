// Adders, as a price list is asked for them.
ghost use Rattle.std.specs.Prelude.{◌≡◌, ◌≤◌, is_some, IfSome, Decides};

const MOST_BITS: u32 = 63;

// What an adder does, by the signs that it is used with.
#[derive(Clone, Copy, Debug, PartialEq, Eq)]
pub enum AdderKind {
    Adds,
    Subtracts,
    Both,
}

// An adder of a kind, from 1 to 63 bits wide.
#[derive(Clone, Copy)]
pub struct AdderPart {
    kind: AdderKind,
    width: u32,
    ghost least: { 1 ≤ width },
    ghost most: { width ≤ 63 },
}

impl AdderPart {
    // The adder of a kind at a width, if there is one.
    pub fn new(kind: AdderKind, width: u32) -> Option<AdderPart>
        ensures part { IfSome result (λ p. (p.kind ≡ kind) × (p.width ≡ width)) }
        ensures exactly { Decides (is_some result) ((1 ≤ width) × (width ≤ 63)) }
    {
        if !(1..=MOST_BITS).contains(&width) {
            return None;
        }
        Some(AdderPart { kind, width })
    }

    pub fn kind(self) -> AdderKind
        ensures { result ≡ self.kind }
    {
        self.kind
    }

    // How many bits wide it is.
    pub fn width(self) -> u32
        ensures value { result ≡ self.width }
        ensures range { (1 ≤ result) × (result ≤ 63) }
    {
        self.width
    }
}
