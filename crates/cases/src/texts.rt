// Texts with what is read from them: cases from an independent implementation, and each limit from both sides.
use super::outcomes::{Outcome, refused};
use faults::Shown;
use format::{TEXT_LIMIT, WORDS_LIMIT};
use policy::read;
use std::alloc::{AllocError, Global};
use std::test::Fail;

// A text and its words.
#[derive(Clone, Copy)]
struct Accepted {
    text: &'static [u8],
    words: &'static [u32],
}

// A text, the words of memory that are lent, and the refusal.
#[derive(Clone, Copy)]
struct Refused {
    text: &'static [u8],
    room: usize,
    fault: Shown,
}

// What becomes of a text where so many words of memory are lent.
fn outcome(heap: Global, text: &[u8], room: usize) -> Result<Outcome, AllocError> {
    let mut memory = vec![in heap; 7u32; room]?;
    let outcome = match read(text, &mut memory) {
        Ok(n) if memory.iter().skip(n).all(|word| *word == 7) => Outcome::Accepted,
        Err(fault) if memory.iter().all(|word| *word == 0) => Outcome::Refused(Shown::from(fault)),
        _ => Outcome::WrongMemory,
    };
    Ok(outcome)
}

// A piece of text as often as asked, between a front and a back.
fn repeated(
    heap: Global,
    front: &[u8],
    piece: &[u8],
    count: usize,
    back: &[u8],
) -> Result<Vec<u8>, AllocError> {
    let mut text = Vec::from_slice(heap, front)?;
    text.extend_from_slice(&piece.repeat(heap, count)?)?;
    text.extend_from_slice(back)?;
    Ok(text)
}

// Texts with their words.
const ACCEPTED: [Accepted; 20] = [
    Accepted {
        text: b"!pt:=3",
        words: &[0x3100_0003, 0x5000_0000],
    },
    Accepted {
        text: b"cost5",
        words: &[0x4000_0005],
    },
    Accepted {
        text: b"cost 65536",
        words: &[0x4001_0000],
    },
    Accepted {
        text: b"!pass*",
        words: &[0x1000_0000, 0x5000_0000, 0x8000_0000],
    },
    Accepted {
        text: b"pt=1;pt:=2",
        words: &[0x2100_0001, 0x3100_0002, 0x7000_0000],
    },
    Accepted {
        text: b"pt=3;pt:=3",
        words: &[0x2100_0003, 0x3100_0003, 0x7000_0000],
    },
    Accepted {
        text: b"pt=3+!pt=3;pt:=3",
        words: &[
            0x2100_0003,
            0x2100_0003,
            0x5000_0000,
            0x3100_0003,
            0x7000_0000,
            0x6000_0000,
        ],
    },
    Accepted {
        text: b"(pt:=3)*",
        words: &[0x3100_0003, 0x8000_0000],
    },
    Accepted {
        text: b"(cost 5+cost 2);pt:=1",
        words: &[
            0x4000_0005,
            0x4000_0002,
            0x6000_0000,
            0x3100_0001,
            0x7000_0000,
        ],
    },
    Accepted {
        text: b"(pt=1;pt:=2;cost 4+pt=2;pt:=3;cost 4+pt=1;pt:=3;cost 9)*",
        words: &[
            0x2100_0001,
            0x3100_0002,
            0x7000_0000,
            0x4000_0004,
            0x7000_0000,
            0x2100_0002,
            0x3100_0003,
            0x7000_0000,
            0x4000_0004,
            0x7000_0000,
            0x6000_0000,
            0x2100_0001,
            0x3100_0003,
            0x7000_0000,
            0x4000_0009,
            0x7000_0000,
            0x6000_0000,
            0x8000_0000,
        ],
    },
    Accepted {
        text: b"pt=1+pt=2;vlan:=6+!(pt=1+pt=2)",
        words: &[
            0x2100_0001,
            0x2100_0002,
            0x3200_0006,
            0x7000_0000,
            0x6000_0000,
            0x2100_0001,
            0x2100_0002,
            0x6000_0000,
            0x5000_0000,
            0x6000_0000,
        ],
    },
    Accepted {
        text: b"pt=2;vlan:=6+!pt=2",
        words: &[
            0x2100_0002,
            0x3200_0006,
            0x7000_0000,
            0x2100_0002,
            0x5000_0000,
            0x6000_0000,
        ],
    },
    Accepted {
        text: b"drop",
        words: &[0x0000_0000],
    },
    Accepted {
        text: b"sw=16777215",
        words: &[0x20FF_FFFF],
    },
    Accepted {
        text: b"(pt=1+sw=1);(vlan:=2;sw:=1)",
        words: &[
            0x2100_0001,
            0x2000_0001,
            0x6000_0000,
            0x3200_0002,
            0x3000_0001,
            0x7000_0000,
            0x7000_0000,
        ],
    },
    Accepted {
        text: b"(pt:=1+cost 4)*",
        words: &[0x3100_0001, 0x4000_0004, 0x6000_0000, 0x8000_0000],
    },
    Accepted {
        text: b"(vlan:=1+pt:=2)*",
        words: &[0x3200_0001, 0x3100_0002, 0x6000_0000, 0x8000_0000],
    },
    Accepted {
        text: b"(sw=0;sw:=1+sw=1;sw:=2+sw=2;sw:=3+sw=3;sw:=0)*",
        words: &[
            0x2000_0000,
            0x3000_0001,
            0x7000_0000,
            0x2000_0001,
            0x3000_0002,
            0x7000_0000,
            0x6000_0000,
            0x2000_0002,
            0x3000_0003,
            0x7000_0000,
            0x6000_0000,
            0x2000_0003,
            0x3000_0000,
            0x7000_0000,
            0x6000_0000,
            0x8000_0000,
        ],
    },
    Accepted {
        text: b"dstl=1;pt:=1+dstl=2;pt:=2+dstl=3;pt:=3+dstl=4;pt:=4",
        words: &[
            0x2700_0001,
            0x3100_0001,
            0x7000_0000,
            0x2700_0002,
            0x3100_0002,
            0x7000_0000,
            0x6000_0000,
            0x2700_0003,
            0x3100_0003,
            0x7000_0000,
            0x6000_0000,
            0x2700_0004,
            0x3100_0004,
            0x7000_0000,
            0x6000_0000,
        ],
    },
    Accepted {
        text: b"sw=1;(pt=1;type:=5+!pt=1;type:=6)+!sw=1;(pt=1;type:=7+!pt=1;type:=6)",
        words: &[
            0x2000_0001,
            0x2100_0001,
            0x3300_0005,
            0x7000_0000,
            0x2100_0001,
            0x5000_0000,
            0x3300_0006,
            0x7000_0000,
            0x6000_0000,
            0x7000_0000,
            0x2000_0001,
            0x5000_0000,
            0x2100_0001,
            0x3300_0007,
            0x7000_0000,
            0x2100_0001,
            0x5000_0000,
            0x3300_0006,
            0x7000_0000,
            0x6000_0000,
            0x7000_0000,
            0x6000_0000,
        ],
    },
];

#[test]
fn accepted_texts_give_their_words(rt: HostRuntime) -> Result<(), Fail> {
    for case in &ACCEPTED {
        let mut memory = vec![in rt.alloc(); 7u32; 64]?;
        let Ok(n) = read(case.text, &mut memory) else {
            return Err(Fail::new("refused"));
        };
        assert!(rt; n <= 64 && &memory.as_slice()[0..n] == case.words);
    }
    Ok(())
}

// Texts with their refusals.
const REFUSED: [Refused; 26] = [
    Refused {
        text: b"",
        room: 64,
        fault: Shown {
            number: 3,
            layer: 2,
            place: 0,
        },
    },
    Refused {
        text: b"drop drop @",
        room: 64,
        fault: Shown {
            number: 3,
            layer: 2,
            place: 5,
        },
    },
    Refused {
        text: b"drop 99999999",
        room: 64,
        fault: Shown {
            number: 2,
            layer: 1,
            place: 5,
        },
    },
    Refused {
        text: b"pt=16777216",
        room: 64,
        fault: Shown {
            number: 2,
            layer: 1,
            place: 3,
        },
    },
    Refused {
        text: b"pt=000000001",
        room: 64,
        fault: Shown {
            number: 2,
            layer: 1,
            place: 3,
        },
    },
    Refused {
        text: b"pt: =3",
        room: 64,
        fault: Shown {
            number: 1,
            layer: 1,
            place: 2,
        },
    },
    Refused {
        text: b"pt:",
        room: 64,
        fault: Shown {
            number: 1,
            layer: 1,
            place: 2,
        },
    },
    Refused {
        text: b"Drop",
        room: 64,
        fault: Shown {
            number: 1,
            layer: 1,
            place: 0,
        },
    },
    Refused {
        text: b"@",
        room: 64,
        fault: Shown {
            number: 1,
            layer: 1,
            place: 0,
        },
    },
    Refused {
        text: b"\x0bdrop",
        room: 64,
        fault: Shown {
            number: 1,
            layer: 1,
            place: 0,
        },
    },
    Refused {
        text: b"pt=3drop",
        room: 64,
        fault: Shown {
            number: 3,
            layer: 2,
            place: 4,
        },
    },
    Refused {
        text: b"drop+",
        room: 64,
        fault: Shown {
            number: 3,
            layer: 2,
            place: 5,
        },
    },
    Refused {
        text: b"drop ; ",
        room: 64,
        fault: Shown {
            number: 3,
            layer: 2,
            place: 7,
        },
    },
    Refused {
        text: b"(drop",
        room: 64,
        fault: Shown {
            number: 3,
            layer: 2,
            place: 5,
        },
    },
    Refused {
        text: b"pt=",
        room: 64,
        fault: Shown {
            number: 3,
            layer: 2,
            place: 3,
        },
    },
    Refused {
        text: b"pt=vlan",
        room: 64,
        fault: Shown {
            number: 3,
            layer: 2,
            place: 3,
        },
    },
    Refused {
        text: b"()",
        room: 64,
        fault: Shown {
            number: 3,
            layer: 2,
            place: 1,
        },
    },
    Refused {
        text: b"=",
        room: 64,
        fault: Shown {
            number: 3,
            layer: 2,
            place: 0,
        },
    },
    Refused {
        text: b"drop)",
        room: 64,
        fault: Shown {
            number: 3,
            layer: 2,
            place: 4,
        },
    },
    Refused {
        text: b"cost",
        room: 64,
        fault: Shown {
            number: 3,
            layer: 2,
            place: 4,
        },
    },
    Refused {
        text: b"pt@",
        room: 0,
        fault: Shown {
            number: 5,
            layer: 2,
            place: 0,
        },
    },
    Refused {
        text: b"(@",
        room: 0,
        fault: Shown {
            number: 1,
            layer: 1,
            place: 1,
        },
    },
    Refused {
        text: b"drop",
        room: 0,
        fault: Shown {
            number: 5,
            layer: 2,
            place: 0,
        },
    },
    Refused {
        text: b"pt=1+pt=2",
        room: 2,
        fault: Shown {
            number: 5,
            layer: 2,
            place: 5,
        },
    },
    Refused {
        text: b"pt=1+pt=2",
        room: 1,
        fault: Shown {
            number: 5,
            layer: 2,
            place: 4,
        },
    },
    Refused {
        text: b"pt=1**",
        room: 2,
        fault: Shown {
            number: 5,
            layer: 2,
            place: 5,
        },
    },
];

#[test]
fn refused_texts_give_their_fault(rt: HostRuntime) -> Result<(), Fail> {
    for case in &REFUSED {
        assert_eq!(rt;
            outcome(rt.alloc(), case.text, case.room)?,
            Outcome::Refused(case.fault)
        );
    }
    Ok(())
}

#[test]
fn nesting_ends_at_its_limit(rt: HostRuntime) -> Result<(), Fail> {
    let heap = rt.alloc();
    let deep = repeated(heap, b"", b"!", 64, b"drop")?;
    assert_eq!(rt; outcome(heap, &deep, WORDS_LIMIT)?, Outcome::Accepted);
    let deeper = repeated(heap, b"", b"!", 65, b"drop")?;
    assert_eq!(rt; outcome(heap, &deeper, WORDS_LIMIT)?, refused(4, 2, 64));
    let mixed = repeated(heap, b"", b"(", 64, b"!drop")?;
    assert_eq!(rt; outcome(heap, &mixed, WORDS_LIMIT)?, refused(4, 2, 64));
    Ok(())
}

#[test]
fn text_ends_at_its_limit(rt: HostRuntime) -> Result<(), Fail> {
    let heap = rt.alloc();
    let full = repeated(heap, b"drop", b" ", TEXT_LIMIT - 4, b"")?;
    assert_eq!(rt; outcome(heap, &full, 1)?, Outcome::Accepted);
    let longer = repeated(heap, b"drop", b" ", TEXT_LIMIT - 3, b"")?;
    assert_eq!(rt; outcome(heap, &longer, 1)?, refused(5, 2, TEXT_LIMIT));
    let blank = repeated(heap, b"", b" ", TEXT_LIMIT + 1, b"")?;
    assert_eq!(rt; outcome(heap, &blank, 1)?, refused(5, 2, TEXT_LIMIT));
    Ok(())
}

#[test]
fn words_end_at_their_limit(rt: HostRuntime) -> Result<(), Fail> {
    let heap = rt.alloc();
    let full = repeated(heap, b"pass", b";pass", 2_047, b"*")?;
    assert_eq!(rt; outcome(heap, &full, WORDS_LIMIT + 8)?, Outcome::Accepted);
    assert_eq!(rt;
        outcome(heap, &full, WORDS_LIMIT - 1)?,
        refused(5, 2, 10_239)
    );
    let longer = repeated(heap, b"pass", b";pass", 2_047, b"**")?;
    assert_eq!(rt;
        outcome(heap, &longer, WORDS_LIMIT + 8)?,
        refused(5, 2, 10_240)
    );
    Ok(())
}

#[test]
fn limits_hold_for_other_symbols(rt: HostRuntime) -> Result<(), Fail> {
    let heap = rt.alloc();
    let groups = repeated(heap, b"", b"(", 65, b"drop")?;
    assert_eq!(rt; outcome(heap, &groups, WORDS_LIMIT)?, refused(4, 2, 64));
    let unions = repeated(heap, b"pt=1", b"+pt=1", 2_048, b"")?;
    assert_eq!(rt; outcome(heap, &unions, WORDS_LIMIT)?, refused(5, 2, 10_240));
    let costs = repeated(heap, b"cost 65535", b";cost 65535", 255, b"")?;
    assert_eq!(rt; outcome(heap, &costs, WORDS_LIMIT)?, Outcome::Accepted);
    Ok(())
}
