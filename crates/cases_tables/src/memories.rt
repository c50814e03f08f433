// Frames through tables, with the whole of the memory afterwards.
use super::through::{JOINED, TABLE, forwarded};
use cases_weights::Ports;
use faults::Shown;
use std::alloc::{AllocError, Global};
use std::test::Fail;
use weights::{Cost, Reach, WeightKind};

// A table, a frame, and how many words of memory are lent; the answer, and those words afterwards. Each was 1 before.
#[derive(Clone, Copy)]
struct Case {
    table: &'static [u32],
    frame: &'static [u32],
    room: usize,
    answer: Result<usize, Shown>,
    memory: &'static [u32],
}

// Whether a case comes out so through a table of the kind K.
fn holds<K: WeightKind>(heap: Global, case: &Case) -> Result<bool, AllocError> {
    let mut memory = vec![in heap; 1u32; case.room]?;
    let answer = forwarded::<K>(case.table, case.frame, &mut memory);
    Ok(answer == case.answer && memory.as_slice() == case.memory)
}

// Frames at ports 1 and 7.
const AT_1: &[u32] = &[
    0x9000_0001,
    0x9100_0001,
    0x9200_000A,
    0x9300_0800,
    0x9400_0000,
    0x9500_0000,
    0x9600_0000,
    0x9700_0000,
];

const AT_7: &[u32] = &[
    0x9000_0001,
    0x9100_0007,
    0x9200_000A,
    0x9300_0800,
    0x9400_0000,
    0x9500_0000,
    0x9600_0000,
    0x9700_0000,
];

const NO_ROOM: Shown = Shown {
    number: 13,
    layer: 6,
    place: 0,
};

const REACH: [Case; 9] = [
    // Each frame once, ascending, and the words after the answer stay.
    Case {
        table: TABLE,
        frame: AT_1,
        room: 20,
        answer: Ok(18),
        memory: &[
            0xC000_0001,
            0x9000_0001,
            0x9100_0002,
            0x9200_000A,
            0x9300_0800,
            0x9400_0000,
            0x9500_0000,
            0x9600_0000,
            0x9700_0000,
            0xC000_0001,
            0x9000_0001,
            0x9100_0003,
            0x9200_000A,
            0x9300_0800,
            0x9400_0000,
            0x9500_0000,
            0x9600_0000,
            0x9700_0000,
            0x0000_0001,
            0x0000_0001,
        ],
    },
    // Nothing is emitted.
    Case {
        table: TABLE,
        frame: &[
            0x9000_0001,
            0x9100_0002,
            0x9200_000A,
            0x9300_0800,
            0x9400_0000,
            0x9500_0000,
            0x9600_0000,
            0x9700_0000,
        ],
        room: 1,
        answer: Ok(0),
        memory: &[0x0000_0001],
    },
    // No memory.
    Case {
        table: TABLE,
        frame: AT_1,
        room: 0,
        answer: Err(NO_ROOM),
        memory: &[],
    },
    // Memory for less than a frame.
    Case {
        table: TABLE,
        frame: AT_1,
        room: 8,
        answer: Err(NO_ROOM),
        memory: &[0; 8],
    },
    // Memory for one of two frames.
    Case {
        table: TABLE,
        frame: AT_1,
        room: 9,
        answer: Err(NO_ROOM),
        memory: &[0; 9],
    },
    // Memory of one word too few.
    Case {
        table: TABLE,
        frame: AT_1,
        room: 17,
        answer: Err(NO_ROOM),
        memory: &[0; 17],
    },
    // Memory that just fits.
    Case {
        table: TABLE,
        frame: AT_1,
        room: 18,
        answer: Ok(18),
        memory: &[
            0xC000_0001,
            0x9000_0001,
            0x9100_0002,
            0x9200_000A,
            0x9300_0800,
            0x9400_0000,
            0x9500_0000,
            0x9600_0000,
            0x9700_0000,
            0xC000_0001,
            0x9000_0001,
            0x9100_0003,
            0x9200_000A,
            0x9300_0800,
            0x9400_0000,
            0x9500_0000,
            0x9600_0000,
            0x9700_0000,
        ],
    },
    // A frame of one word comes before want of memory.
    Case {
        table: TABLE,
        frame: &[0x9000_0001],
        room: 0,
        answer: Err(Shown {
            number: 12,
            layer: 6,
            place: 8,
        }),
        memory: &[],
    },
    // So does a frame with a wrong word.
    Case {
        table: TABLE,
        frame: &[
            0x9000_0001,
            0x9100_0001,
            0x9300_0001,
            0x9300_0800,
            0x9400_0000,
            0x9500_0000,
            0x9600_0000,
            0x9700_0000,
        ],
        room: 0,
        answer: Err(Shown {
            number: 12,
            layer: 6,
            place: 2,
        }),
        memory: &[],
    },
];

const COST: [Case; 1] = [
    // Weights of equal frames are joined: the smaller cost.
    Case {
        table: JOINED,
        frame: AT_7,
        room: 9,
        answer: Ok(9),
        memory: &[
            0xC000_0002,
            0x9000_0001,
            0x9100_0001,
            0x9200_000A,
            0x9300_0800,
            0x9400_0000,
            0x9500_0000,
            0x9600_0000,
            0x9700_0000,
        ],
    },
];

const PORTS: [Case; 1] = [
    // And the union of ports.
    Case {
        table: JOINED,
        frame: AT_7,
        room: 9,
        answer: Ok(9),
        memory: &[
            0xC000_0007,
            0x9000_0001,
            0x9100_0001,
            0x9200_000A,
            0x9300_0800,
            0x9400_0000,
            0x9500_0000,
            0x9600_0000,
            0x9700_0000,
        ],
    },
];

#[test]
fn memory_afterwards(rt: HostRuntime) -> Result<(), Fail> {
    let heap = rt.alloc();
    for case in &REACH {
        assert!(rt; holds::<Reach>(heap, case)?);
    }
    for case in &COST {
        assert!(rt; holds::<Cost>(heap, case)?);
    }
    for case in &PORTS {
        assert!(rt; holds::<Ports>(heap, case)?);
    }
    Ok(())
}
