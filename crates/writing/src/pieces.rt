// Writing the pieces of a sheet, each after what stands in the text.
ghost use Rattle.std.specs.Prelude.{◌≡◌, [], ◌∷◌, ◌++◌};
ghost use Rattle.texts.specs.Text.{number, number_line, operand, more_inputs, input_list, port_key, port_line, mark, entry, entries, code_digits, code_key, selections, code_line};
ghost use Rattle.writing.specs.Writes.{Wrote};

use crate::text::{MOST, SheetText};
use adders::{Operand, Sign};
use itoa::Buffer;
use ports::Port;
use texts::{Selection, keys};

// What stands before the number of a code, so that it has two digits at least.
#[tactic(auto, using(crate::proofs::Joins::below_ten, crate::proofs::Joins::from_ten))]
fn before_code(code: usize) -> &'static [u8]
    ensures { result.now ++ number code ≡ 115 ∷ code_digits code }
{
    if code < 10 {
        keys::CODE_BELOW_TEN
    } else {
        keys::CODE
    }
}

impl SheetText {
    // A number in decimal, without a leading zero.
    pub fn number(&mut self, value: usize)
        ensures { Wrote self.old (number value) self.new }
    {
        self.key(Buffer::new().format(value).as_bytes());
    }

    // The line of a key and a number.
    pub fn number_line(&mut self, key: &[u8], value: usize)
        ensures { Wrote self.old (number_line key.now value) self.new }
    {
        self.key(key);
        self.number(value);
        self.key(keys::LINE_FEED);
    }

    // An operand: source, dot, shift.
    pub fn operand(&mut self, input: Operand)
        ensures { Wrote self.old (operand input) self.new }
    {
        self.number(usize::from(input.source));
        self.key(keys::DOT);
        self.number(usize::from(input.shift));
    }

    // Inputs that follow another, each after one space.
    fn more_inputs(&mut self, inputs: &[Operand])
        ensures { Wrote self.old (more_inputs inputs.now) self.new }
    {
        prove!(self.len() <= MOST);
        for input in inputs {
            self.key(keys::SPACE);
            self.operand(*input);
        }
    }

    // The inputs of a port, parted by one space.
    pub fn input_list(&mut self, inputs: &[Operand])
        ensures { Wrote self.old (input_list inputs.now) self.new }
    {
        prove!(self.len() <= MOST);
        if let Some((first, rest)) = inputs.split_first() {
            self.operand(*first);
            self.more_inputs(rest);
        }
    }

    // What a port's line begins with.
    pub fn port_key(&mut self, port: Port)
        ensures { Wrote self.old (port_key port) self.new }
    {
        match port {
            Port::Left(adder) => {
                self.number(adder);
                self.key(keys::LEFT);
            }
            Port::Right(adder) => {
                self.number(adder);
                self.key(keys::RIGHT);
            }
            Port::Output => self.key(keys::OUTPUT),
        }
    }

    // The line of a port.
    pub fn port_line(&mut self, port: Port, inputs: &[Operand])
        ensures { Wrote self.old (port_line port inputs.now) self.new }
    {
        self.port_key(port);
        self.input_list(inputs);
        self.key(keys::LINE_FEED);
    }

    fn sign(&mut self, sign: Sign)
        ensures { Wrote self.old (mark sign ∷ []) self.new }
    {
        match sign {
            Sign::Plus => self.key(keys::PLUS),
            Sign::Minus => self.key(keys::MINUS),
        }
    }

    // An adder in a code line, which the code may not use.
    pub fn entry(&mut self, adder: Option<Selection>)
        ensures { Wrote self.old (entry adder) self.new }
    {
        match adder {
            None => self.key(keys::UNUSED),
            Some(selection) => {
                self.number(usize::from(selection.left));
                self.sign(selection.sign);
                self.number(usize::from(selection.right));
                self.key(keys::SPACE);
            }
        }
    }

    // An entry for each adder.
    fn entries(&mut self, adders: &[Option<Selection>])
        ensures { Wrote self.old (entries adders.now) self.new }
    {
        prove!(self.len() <= MOST);
        for adder in adders {
            self.entry(*adder);
        }
    }

    // What a code line has after its key: what the code selects at each adder, and the number of the output's input.
    pub fn selections(&mut self, adders: &[Option<Selection>], output: usize)
        ensures { Wrote self.old (selections adders.now output) self.new }
    {
        self.entries(adders);
        self.number(output);
        self.key(keys::LINE_FEED);
    }

    // What a code's line begins with.
    fn code_key(&mut self, code: usize)
        ensures { Wrote self.old (code_key code) self.new }
    {
        self.key(before_code(code));
        self.number(code);
        self.key(keys::EQUALS);
    }

    // The line of a code.
    pub fn code_line(&mut self, code: usize, adders: &[Option<Selection>], output: usize)
        ensures { Wrote self.old (code_line code adders.now output) self.new }
    {
        self.code_key(code);
        self.selections(adders, output);
    }
}
