// Compares what reading answers with a table of lines: forms broken in every way, lengths at the limits, and rules at their edges.
#![tactic(auto)]

use chains::Chain;
use std::io;

// A constant, or the number and the place of a refusal.
type Answer = Result<u32, (u8, usize)>;

#[derive(Clone, Copy)]
struct Case {
    name: &'static str,
    line: &'static [u8],
    answer: Answer,
}

const CASES: [Case; 53] = [
    Case {
        name: "a key with nothing after it",
        line: b"chain=",
        answer: Err((11, 6)),
    },
    Case {
        name: "empty",
        line: b"",
        answer: Err((11, 0)),
    },
    Case {
        name: "no key",
        line: b"0.0+0.2 0",
        answer: Err((11, 0)),
    },
    Case {
        name: "half a key",
        line: b"chai",
        answer: Err((11, 4)),
    },
    Case {
        name: "a key in capitals",
        line: b"Chain=0",
        answer: Err((11, 0)),
    },
    Case {
        name: "a space before the key",
        line: b" chain=0",
        answer: Err((11, 0)),
    },
    Case {
        name: "a space after the key",
        line: b"chain= 0",
        answer: Err((11, 6)),
    },
    Case {
        name: "a shift of two digits",
        line: b"chain=30",
        answer: Ok(1073741824),
    },
    Case {
        name: "a leading zero",
        line: b"chain=00",
        answer: Err((11, 7)),
    },
    Case {
        name: "a leading zero in a shift",
        line: b"chain=0.02+0.0 0",
        answer: Err((11, 9)),
    },
    Case {
        name: "three digits",
        line: b"chain=100",
        answer: Err((11, 8)),
    },
    Case {
        name: "three digits in a source",
        line: b"chain=100.0+0.0 0",
        answer: Err((11, 8)),
    },
    Case {
        name: "a missing dot",
        line: b"chain=00+0.0 0",
        answer: Err((11, 7)),
    },
    Case {
        name: "a missing shift",
        line: b"chain=0.+0.0 0",
        answer: Err((11, 8)),
    },
    Case {
        name: "a missing sign",
        line: b"chain=0.0 0",
        answer: Err((11, 9)),
    },
    Case {
        name: "a missing space",
        line: b"chain=0.0+0.20",
        answer: Err((11, 14)),
    },
    Case {
        name: "a missing space before a second adder",
        line: b"chain=0.0+0.21.0+1.3 0",
        answer: Err((11, 14)),
    },
    Case {
        name: "two spaces",
        line: b"chain=0.0+0.2  0",
        answer: Err((11, 14)),
    },
    Case {
        name: "no output shift",
        line: b"chain=0.0+0.2 ",
        answer: Err((11, 14)),
    },
    Case {
        name: "an adder that stops short",
        line: b"chain=0.0+0.2",
        answer: Err((11, 13)),
    },
    Case {
        name: "a trailing space",
        line: b"chain=5 ",
        answer: Err((11, 7)),
    },
    Case {
        name: "a trailing letter",
        line: b"chain=0x",
        answer: Err((11, 7)),
    },
    Case {
        name: "a trailing nul",
        line: b"chain=0\0",
        answer: Err((11, 7)),
    },
    Case {
        name: "a byte above 127 in the key",
        line: b"ch\xe1in=0",
        answer: Err((11, 2)),
    },
    Case {
        name: "a byte above 127 for a digit",
        line: b"chain=\xb2",
        answer: Err((11, 6)),
    },
    Case {
        name: "a byte of 255 at the end",
        line: b"chain=0\xff",
        answer: Err((11, 7)),
    },
    Case {
        name: "a carriage return",
        line: b"chain=0\r",
        answer: Err((11, 7)),
    },
    Case {
        name: "a line feed",
        line: b"chain=0\n",
        answer: Err((11, 7)),
    },
    Case {
        name: "a sign of a number",
        line: b"chain=+1",
        answer: Err((11, 6)),
    },
    Case {
        name: "a star for a sign",
        line: b"chain=0.0*0.2 0",
        answer: Err((11, 9)),
    },
    Case {
        name: "199 bytes of the form",
        line: b"chain=0.0+0.0 0.0+0.0 0.0+0.0 0.0+0.0 0.0+0.0 0.0+0.0 0.0+0.0 0.0+0.0 0.0+0.0 0.0+0.0 0.0+0.0 0.0+0.0 0.0+0.0 0.0+0.0 0.0+0.0 0.0+0.0 0.0+0.0 0.0+0.0 0.0+0.0 0.0+0.0 0.0+0.0 0.0+0.0 0.0+0.0 0.0+0.0 0",
        answer: Err((12, 9)),
    },
    Case {
        name: "200 bytes of the form",
        line: b"chain=0.0+0.0 0.0+0.0 0.0+0.0 0.0+0.0 0.0+0.0 0.0+0.0 0.0+0.0 0.0+0.0 0.0+0.0 0.0+0.0 0.0+0.0 0.0+0.0 0.0+0.0 0.0+0.0 0.0+0.0 0.0+0.0 0.0+0.0 0.0+0.0 0.0+0.0 0.0+0.0 0.0+0.0 0.0+0.0 0.0+0.0 0.0+0.0 10",
        answer: Err((12, 9)),
    },
    Case {
        name: "200 bytes that stop short",
        line: b"chain=0.0+0.0 0.0+0.0 0.0+0.0 0.0+0.0 0.0+0.0 0.0+0.0 0.0+0.0 0.0+0.0 0.0+0.0 0.0+0.0 0.0+0.0 0.0+0.0 0.0+0.0 0.0+0.0 0.0+0.0 0.0+0.0 0.0+0.0 0.0+0.0 0.0+0.0 0.0+0.0 0.0+0.0 0.0+0.0 0.0+0.0 0.0+0.0 0.",
        answer: Err((11, 200)),
    },
    Case {
        name: "200 bytes with a broken last one",
        line: b"chain=0.0+0.0 0.0+0.0 0.0+0.0 0.0+0.0 0.0+0.0 0.0+0.0 0.0+0.0 0.0+0.0 0.0+0.0 0.0+0.0 0.0+0.0 0.0+0.0 0.0+0.0 0.0+0.0 0.0+0.0 0.0+0.0 0.0+0.0 0.0+0.0 0.0+0.0 0.0+0.0 0.0+0.0 0.0+0.0 0.0+0.0 0.0+0.0 0+",
        answer: Err((11, 199)),
    },
    Case {
        name: "201 bytes of the form",
        line: b"chain=0.0+0.0 0.0+0.0 0.0+0.0 0.0+0.0 0.0+0.0 0.0+0.0 0.0+0.0 0.0+0.0 0.0+0.0 0.0+0.0 0.0+0.0 0.0+0.0 0.0+0.0 0.0+0.0 0.0+0.0 0.0+0.0 0.0+0.0 0.0+0.0 0.0+0.0 0.0+0.0 0.0+0.0 0.0+0.0 0.0+0.0 0.0+10.10 10",
        answer: Err((11, 200)),
    },
    Case {
        name: "201 bytes that break at once",
        line: b"xxxxxxxxxxxxxxxxxxxxxxxxxxxxxxxxxxxxxxxxxxxxxxxxxxxxxxxxxxxxxxxxxxxxxxxxxxxxxxxxxxxxxxxxxxxxxxxxxxxxxxxxxxxxxxxxxxxxxxxxxxxxxxxxxxxxxxxxxxxxxxxxxxxxxxxxxxxxxxxxxxxxxxxxxxxxxxxxxxxxxxxxxxxxxxxxxxxxxxxxx",
        answer: Err((11, 200)),
    },
    Case {
        name: "nine adders",
        line: b"chain=0.0+0.0 1.0+1.0 2.0+2.0 3.0+3.0 4.0+4.0 5.0+5.0 6.0+6.0 7.0+7.0 8.0+8.0 0",
        answer: Err((12, 9)),
    },
    Case {
        name: "ten adders in more than 200 bytes",
        line: b"chain=10.10+10.10 10.10+10.10 10.10+10.10 10.10+10.10 10.10+10.10 10.10+10.10 10.10+10.10 10.10+10.10 10.10+10.10 10.10+10.10 00000000000000000000000000000000000000000000000000000000000000000000000000000000",
        answer: Err((11, 200)),
    },
    Case {
        name: "eight adders",
        line: b"chain=0.0+0.0 1.0+1.0 2.0+2.0 3.0+3.0 4.0+4.0 5.0+5.0 6.0+6.0 7.0+7.0 1",
        answer: Ok(512),
    },
    Case {
        name: "a right source that is not lower",
        line: b"chain=0.0+1.0 0",
        answer: Err((14, 1)),
    },
    Case {
        name: "a left shift before a right source",
        line: b"chain=0.31+1.0 0",
        answer: Err((13, 1)),
    },
    Case {
        name: "a left source before its shift",
        line: b"chain=1.31+0.0 0",
        answer: Err((14, 1)),
    },
    Case {
        name: "a right shift of 99",
        line: b"chain=0.0+0.99 0",
        answer: Err((13, 1)),
    },
    Case {
        name: "a difference below 1",
        line: b"chain=0.0-0.1 0",
        answer: Err((15, 1)),
    },
    Case {
        name: "a left operand that is too large",
        line: b"chain=0.1+0.0 1.30-1.30 0",
        answer: Err((15, 2)),
    },
    Case {
        name: "the first adder at fault",
        line: b"chain=0.0-0.0 5.0+0.0 0",
        answer: Err((15, 1)),
    },
    Case {
        name: "an output that is too large",
        line: b"chain=0.0+0.0 30",
        answer: Err((15, 0)),
    },
    Case {
        name: "a first adder one past the largest value",
        line: b"chain=0.30+0.30 0",
        answer: Err((15, 1)),
    },
    Case {
        name: "the largest value",
        line: b"chain=0.30-0.0 1.0+0.30 0",
        answer: Ok(2147483647),
    },
    Case {
        name: "one past the largest value",
        line: b"chain=0.30+0.29 1.0+0.29 0",
        answer: Err((15, 2)),
    },
    Case {
        name: "an output shift before an unread adder",
        line: b"chain=0.0+0.2 0.0+0.1 31",
        answer: Err((13, 0)),
    },
    Case {
        name: "the lowest of two unread adders",
        line: b"chain=0.0+0.1 1.0+0.0 0.0+0.2 0.0+0.3 0",
        answer: Err((16, 2)),
    },
    Case {
        name: "an adder that reads another twice",
        line: b"chain=0.0+0.2 1.0+1.11 0",
        answer: Ok(10245),
    },
];

impl Case {
    fn agrees(&self) -> bool {
        let answer = Chain::read(self.line)
            .map(|chain| chain.constant())
            .map_err(|refusal| (refusal.number(), refusal.place()));
        answer == self.answer
    }
}

// The values of the adders of a worked chain, with the numbers before and past them.
const VALUED: &[u8] = b"chain=0.0+0.2 1.0+1.11 2.0+0.5 3.0-0.8 0";

const VALUES: [Option<u32>; 6] = [
    None,
    Some(5),
    Some(10_245),
    Some(10_277),
    Some(10_021),
    None,
];

fn values_agree() -> bool {
    let Ok(chain) = Chain::read(VALUED) else {
        return false;
    };
    chain.adders().len() == 4
        && chain.shift() == 0
        && VALUES
            .iter()
            .enumerate()
            .all(|(adder, value)| chain.value(adder) == *value)
}

fn main(rt: HostRuntime) -> io::Result<()> {
    for case in CASES.iter().filter(|case| !case.agrees()) {
        let name = case.name;
        println!(rt; "differs: {name}")?;
    }
    let agreed = CASES.iter().filter(|case| case.agrees()).count();
    let all = CASES.len();
    println!(rt; "{agreed} of {all} lines agree")?;
    let values = if values_agree() { "agree" } else { "differ" };
    println!(rt; "the values of a chain {values}")
}
