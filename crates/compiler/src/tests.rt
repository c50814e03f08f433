// Texts with the bytes that they are compiled to for reach, most of them as an independent implementation gives them.
use super::{ANSWER_BYTES, compile_text};
use format::TEXT_LIMIT;
use std::alloc::{AllocError, Global};
use std::test::Fail;
use weights::Reach;

// A text and the words of its table.
#[derive(Clone, Copy)]
struct Accepted {
    text: &'static str,
    words: &'static [u32],
}

// A text and the line of its refusal.
#[derive(Clone, Copy)]
struct Refused {
    text: &'static str,
    line: &'static str,
}

const ACCEPTED: [Accepted; 5] = [
    Accepted {
        text: "cost5",
        words: &[0xA000_0001, 0xC000_0001, 0xE000_0001],
    },
    Accepted {
        text: "vlan=4095",
        words: &[
            0xA100_0001,
            0xB200_0FFF,
            0xC000_0001,
            0xA000_0000,
            0xE000_0002,
        ],
    },
    Accepted {
        text: "!!!pt=1",
        words: &[
            0xA100_0000,
            0xB100_0001,
            0xA000_0001,
            0xC000_0001,
            0xE000_0002,
        ],
    },
    Accepted {
        text: "pass;(pass;(pass;pass))",
        words: &[0xA000_0001, 0xC000_0001, 0xE000_0001],
    },
    Accepted {
        text: "pt=1;pt:=2",
        words: &[
            0xA100_0001,
            0xB100_0001,
            0xC000_0001,
            0xD100_0002,
            0xA000_0000,
            0xE000_0002,
        ],
    },
];

// At least one of each layer; the last two fill the stores, and the table.
const REFUSED: [Refused; 20] = [
    Refused {
        text: "",
        line: "refused 3 layer 2 place 0\n",
    },
    Refused {
        text: "drop drop @",
        line: "refused 3 layer 2 place 5\n",
    },
    Refused {
        text: "pt=16777216",
        line: "refused 2 layer 1 place 3\n",
    },
    Refused {
        text: "pt: =3",
        line: "refused 1 layer 1 place 2\n",
    },
    Refused {
        text: "Drop",
        line: "refused 1 layer 1 place 0\n",
    },
    Refused {
        text: "pt=3drop",
        line: "refused 3 layer 2 place 4\n",
    },
    Refused {
        text: "drop+",
        line: "refused 3 layer 2 place 5\n",
    },
    Refused {
        text: "(drop",
        line: "refused 3 layer 2 place 5\n",
    },
    Refused {
        text: "!!!!!!!!!!!!!!!!!!!!!!!!!!!!!!!!!!!!!!!!!!!!!!!!!!!!!!!!!!!!!!!!!drop",
        line: "refused 4 layer 2 place 64\n",
    },
    Refused {
        text: "((((((((((((((((((((((((((((((((((((((((((((((((((((((((((((((((!drop))))))))))))))))))))))))))))))))))))))))))))))))))))))))))))))))",
        line: "refused 4 layer 2 place 64\n",
    },
    Refused {
        text: "!pt:=3",
        line: "refused 8 layer 3 place 1\n",
    },
    Refused {
        text: "!(drop*)",
        line: "refused 8 layer 3 place 2\n",
    },
    Refused {
        text: "pt=",
        line: "refused 3 layer 2 place 3\n",
    },
    Refused {
        text: "pt=vlan",
        line: "refused 3 layer 2 place 3\n",
    },
    Refused {
        text: "()",
        line: "refused 3 layer 2 place 1\n",
    },
    Refused {
        text: "\x0bdrop",
        line: "refused 1 layer 1 place 0\n",
    },
    Refused {
        text: "cost 1;!cost 2",
        line: "refused 8 layer 3 place 2\n",
    },
    Refused {
        text: "=",
        line: "refused 3 layer 2 place 0\n",
    },
    Refused {
        text: "pt:=1+pt:=2+pt:=3+pt:=4+pt:=5+pt:=6+pt:=7+pt:=8+pt:=9+pt:=10+pt:=11+pt:=12+pt:=13+pt:=14+pt:=15+\
            pt:=16+pt:=17+pt:=18+pt:=19+pt:=20+pt:=21+pt:=22+pt:=23+pt:=24+pt:=25+pt:=26+pt:=27+pt:=28+pt:=29+\
            pt:=30+pt:=31+pt:=32",
        line: "refused 9 layer 4 place 0\n",
    },
    Refused {
        text: "(vlan=25+vlan=24+vlan=23+vlan=22+vlan=21+vlan=20+vlan=19+vlan=18+vlan=17+vlan=16+vlan=15+vlan=14+\
            vlan=13+vlan=12+vlan=11+vlan=10+vlan=9+vlan=8+vlan=7+vlan=6+vlan=5+vlan=4+vlan=3+vlan=2+\
            vlan=1);(pt:=20+pt:=19+pt:=18+pt:=17+pt:=16+pt:=15+pt:=14+pt:=13+pt:=12+pt:=11+pt:=10+pt:=9+pt:=8+\
            pt:=7+pt:=6+pt:=5+pt:=4+pt:=3+pt:=2+pt:=1)",
        line: "refused 11 layer 5 place 0\n",
    },
];

// As many sets as fill the stores, but for one more.
const MANY_SETS: &str =
    "pt:=1+pt:=2+pt:=3+pt:=4+pt:=5+pt:=6+pt:=7+pt:=8+pt:=9+pt:=10+pt:=11+pt:=12+pt:=13+pt:=14+pt:=15+\
        pt:=16+pt:=17+pt:=18+pt:=19+pt:=20+pt:=21+pt:=22+pt:=23+pt:=24+pt:=25+pt:=26+pt:=27+pt:=28+pt:=29+\
        pt:=30+pt:=31";

// As many tests before sets as fill a table, but for one more.
const MANY_ROWS: &str =
    "(vlan=24+vlan=23+vlan=22+vlan=21+vlan=20+vlan=19+vlan=18+vlan=17+vlan=16+vlan=15+vlan=14+vlan=13+\
        vlan=12+vlan=11+vlan=10+vlan=9+vlan=8+vlan=7+vlan=6+vlan=5+vlan=4+vlan=3+vlan=2+vlan=1);(pt:=20+\
        pt:=19+pt:=18+pt:=17+pt:=16+pt:=15+pt:=14+pt:=13+pt:=12+pt:=11+pt:=10+pt:=9+pt:=8+pt:=7+pt:=6+pt:=5+\
        pt:=4+pt:=3+pt:=2+pt:=1)";

// Whether these bytes are written, and nothing behind them.
fn writes(text: &[u8], bytes: &[u8]) -> bool {
    let mut out = [7; ANSWER_BYTES];
    let size = compile_text::<Reach>(text, &mut out);
    let (written, rest) = out.split_at(size);
    written == bytes && rest.iter().all(|byte| *byte == 7)
}

// How many bytes are written.
fn written(text: &str) -> usize {
    compile_text::<Reach>(text.as_bytes(), &mut [0; ANSWER_BYTES])
}

#[test]
fn tables_are_written(rt: HostRuntime) -> Result<(), Fail> {
    for case in ACCEPTED {
        let mut bytes = Vec::new(rt.alloc());
        for word in case.words {
            bytes.extend_from_slice(&word.to_be_bytes())?;
        }
        assert!(rt; writes(case.text.as_bytes(), &bytes));
    }
    Ok(())
}

#[test]
fn refusals_are_told(rt: HostRuntime) -> Result<(), Fail> {
    for case in REFUSED {
        assert!(rt; writes(case.text.as_bytes(), case.line.as_bytes()));
    }
    Ok(())
}

#[test]
fn limits_of_texts_are_told(rt: HostRuntime) -> Result<(), Fail> {
    let blanks = b" ".repeat(rt.alloc(), TEXT_LIMIT)?;
    assert!(rt; writes(&blanks, b"refused 3 layer 2 place 16384\n"));
    let too_many = b" ".repeat(rt.alloc(), TEXT_LIMIT + 1)?;
    assert!(rt; writes(&too_many, b"refused 5 layer 2 place 16384\n"));
    // One word too many: 2,049 tests and a union for each but the first.
    let mut unions = b"pt=1+".repeat(rt.alloc(), 2_048)?;
    unions.extend_from_slice(b"pt=1")?;
    assert!(rt; writes(&unions, b"refused 5 layer 2 place 10240\n"));
    Ok(())
}

#[test]
fn a_little_less_fits(rt: HostRuntime) -> Result<(), Fail> {
    assert_eq!(rt; written(MANY_SETS), 4 * 64);
    assert_eq!(rt; written(MANY_ROWS), 4 * 1_010);
    Ok(())
}
