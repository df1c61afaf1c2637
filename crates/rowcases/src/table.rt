// Rows that keep the rules or break them, each with its answer.
use adders::{Adder, Operand, Sign};
use rows::Row;

// A constant, or the number and the place of a refusal.
type Answer = Result<u32, (u8, usize)>;

#[derive(Clone, Copy)]
pub(crate) struct Case {
    pub(crate) name: &'static str,
    slots: [Option<Adder>; 8],
    output: Operand,
    answer: Answer,
}

impl Case {
    fn new(name: &'static str, slots: [Option<Adder>; 8], output: Operand, answer: Answer) -> Case {
        Case {
            name,
            slots,
            output,
            answer,
        }
    }

    pub(crate) fn agrees(&self) -> bool {
        let answer = Row::new(self.slots, self.output)
            .map(|row| row.constant())
            .map_err(|refusal| (refusal.number(), refusal.place()));
        answer == self.answer
    }
}

fn operand(source: u8, shift: u8) -> Operand {
    Operand { source, shift }
}

fn adder(left: Operand, sign: Sign, right: Operand) -> Option<Adder> {
    Some(Adder { left, sign, right })
}

// Five times the sample.
fn five() -> Option<Adder> {
    adder(operand(0, 0), Sign::Plus, operand(0, 2))
}

// Nine times adder 2.
fn chained() -> Option<Adder> {
    adder(operand(2, 0), Sign::Plus, operand(2, 3))
}

// An adder in the slot of its number and nothing else.
fn alone(number: usize, adder: Option<Adder>) -> [Option<Adder>; 8] {
    std::array::from_fn(|i| if i + 1 == number { adder } else { None })
}

// Sources and shifts.
pub(crate) fn wirings() -> [Case; 6] {
    [
        Case::new(
            "an adder that reads itself",
            alone(3, adder(operand(3, 0), Sign::Plus, operand(0, 0))),
            operand(3, 0),
            Err((14, 3)),
        ),
        Case::new(
            "a right shift of 31 after a left source too high",
            alone(2, adder(operand(2, 0), Sign::Plus, operand(0, 31))),
            operand(2, 0),
            Err((14, 2)),
        ),
        Case::new(
            "a right shift of 31",
            alone(2, adder(operand(0, 0), Sign::Plus, operand(0, 31))),
            operand(2, 0),
            Err((13, 2)),
        ),
        Case::new(
            "an output that reads a ninth adder",
            [None; 8],
            operand(9, 31),
            Err((14, 0)),
        ),
        Case::new(
            "an output shift of 31",
            [None; 8],
            operand(0, 31),
            Err((13, 0)),
        ),
        Case::new("the sample as it is", [None; 8], operand(0, 0), Ok(1)),
    ]
}

// Adders 2 and 7, of which 7 reads 2.
fn through() -> [Option<Adder>; 8] {
    let mut slots = alone(2, five());
    slots[6] = chained();
    slots
}

// Adders that are there though the output does not read them.
pub(crate) fn unread() -> [Case; 4] {
    let mut beside = through();
    beside[3] = five();
    let mut dangling = through();
    dangling[7] = five();
    [
        Case::new(
            "an adder that nothing reads",
            beside,
            operand(7, 0),
            Err((16, 4)),
        ),
        Case::new(
            "an adder that only an unread one reads",
            dangling,
            operand(8, 0),
            Err((16, 2)),
        ),
        Case::new(
            "adders under an output that reads the sample",
            through(),
            operand(0, 0),
            Err((16, 2)),
        ),
        Case::new(
            "an unread adder before a value out of range",
            alone(1, adder(operand(0, 0), Sign::Minus, operand(0, 0))),
            operand(0, 0),
            Err((16, 1)),
        ),
    ]
}

// Adders that the output reads.
pub(crate) fn read() -> [Case; 3] {
    let mut lost = alone(7, chained());
    lost[3] = five();
    [
        Case::new(
            "an adder through another, both away from the front",
            through(),
            operand(7, 0),
            Ok(45),
        ),
        Case::new(
            "an empty adder that is read through another",
            lost,
            operand(7, 0),
            Err((16, 2)),
        ),
        Case::new(
            "an output that reads an empty adder",
            [None; 8],
            operand(8, 0),
            Err((16, 8)),
        ),
    ]
}

// Values.
pub(crate) fn ranges() -> [Case; 5] {
    [
        Case::new(
            "a difference of 0",
            alone(4, adder(operand(0, 0), Sign::Minus, operand(0, 0))),
            operand(4, 0),
            Err((15, 4)),
        ),
        Case::new(
            "a difference below 0",
            alone(4, adder(operand(0, 0), Sign::Minus, operand(0, 1))),
            operand(4, 0),
            Err((15, 4)),
        ),
        Case::new(
            "a sum of 2^30 and 2^29",
            alone(1, adder(operand(0, 30), Sign::Plus, operand(0, 29))),
            operand(1, 0),
            Ok(1_610_612_736),
        ),
        Case::new(
            "a sum too large",
            alone(1, adder(operand(0, 30), Sign::Plus, operand(0, 30))),
            operand(1, 0),
            Err((15, 1)),
        ),
        Case::new(
            "an output too large",
            alone(1, five()),
            operand(1, 29),
            Err((15, 0)),
        ),
    ]
}

// What a row says of its adders, at their numbers and around them.
pub(crate) fn adders_agree() -> bool {
    let Ok(row) = Row::new(through(), operand(7, 1)) else {
        return false;
    };
    row.constant() == 90
        && row.output() == operand(7, 1)
        && row.value(2) == Some(5)
        && row.value(7) == Some(45)
        && row.value(0).is_none()
        && row.value(1).is_none()
        && row.value(9).is_none()
        && row.adder(2) == five()
        && row.adder(3).is_none()
}
