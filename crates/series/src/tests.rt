// One series through every kind of call.
use super::{Answer, Ended, SeriesFault, perform};
use actions::Action;
use calls::{Call, Operand};
use counts::Counts;
use faults::{BenchFault, FrameFault, StoreFault};
use format::{Amount, Setting};
use records::{Cell, Diagram, Node};
use weights::Reach;

const FROM_PORT_1: &[u32] = &[
    0x9000_0001,
    0x9100_0001,
    0x9200_000A,
    0x9300_0800,
    0x9400_0000,
    0x9500_0000,
    0x9600_0000,
    0x9700_0000,
];

// Performs the calls on a small bench whose table has 64 words at most.
fn performed(
    calls: &[Call<'_>],
    answers: &mut [Answer],
    written: &mut [u32],
    in_force: &mut [u32],
) -> Result<Ended, SeriesFault> {
    let nothing = Amount { number: 0 };
    let cell = Cell {
        action: nothing,
        weight: nothing,
        rest: nothing,
    };
    let node = Node {
        test: Setting { field: 0, value: 0 },
        yes: Diagram::drop_all(),
        no: Diagram::drop_all(),
    };
    let mut actions = [Action::keep_all(); 16];
    let mut cells = [cell; 16];
    let mut nodes = [node; 16];
    let mut table = [0; 64];
    perform::<Reach>(
        &mut actions,
        &mut cells,
        &mut nodes,
        &mut table,
        calls,
        answers,
        written,
        in_force,
    )
}

#[test]
fn every_kind_of_call(rt: HostRuntime) {
    let calls = [
        Call::Compile(b"pt=1;pt:=2"),
        Call::Compile(b"pt=1;pt:=3"),
        Call::Union(Operand::Answer(0), Operand::Answer(1)),
        Call::Sequence(Operand::Answer(0), Operand::Answer(1)),
        Call::Star(Operand::Word(0)),
        Call::Compile(b"pt="),
        Call::Install(Operand::Answer(5)),
        Call::Install(Operand::Answer(2)),
        Call::Forward(FROM_PORT_1, 19),
        Call::Forward(FROM_PORT_1, 17),
    ];
    let mut answers = [Answer::Installed(0); 10];
    let mut written = [7; 37];
    let mut in_force = [7; 64];
    let ended = performed(&calls, &mut answers, &mut written, &mut in_force);
    let [
        first,
        second,
        union,
        sequence,
        star,
        unread,
        unheld,
        installed,
        sent,
        unsent,
    ] = answers;
    assert!(rt; matches!(first, Answer::Word(_)) && first != second);
    assert!(rt; matches!(union, Answer::Word(_)) && union != first);
    assert_eq!(rt; sequence, Answer::Word(0));
    assert!(rt; matches!(star, Answer::Word(_)));
    assert!(rt; matches!(unread, Answer::Refused(BenchFault::Text(_))));
    assert_eq!(rt;
        unheld,
        Answer::Refused(BenchFault::Store(StoreFault::NotHeld(0)))
    );
    assert_eq!(rt; installed, Answer::Installed(8));
    assert_eq!(rt; sent, Answer::Written(18));
    assert_eq!(rt;
        unsent,
        Answer::Refused(BenchFault::Frame(FrameFault::NoRoom))
    );
    assert_eq!(rt; written[0], 0xC000_0001);
    assert_eq!(rt; written[2], 0x9100_0002);
    assert_eq!(rt; written[11], 0x9100_0003);
    assert_eq!(rt; &written[18..20], [7, 0].as_slice());
    assert_eq!(rt; &written[35..37], [0, 7].as_slice());
    let records = Counts {
        actions: 3,
        cells: 4,
        nodes: 4,
    };
    let table_words = 8;
    assert_eq!(rt;
        ended,
        Ok(Ended {
            records,
            table_words
        })
    );
    assert_eq!(rt; in_force[0], 0xA100_0002);
    assert_eq!(rt; in_force[8], 7);
}

#[test]
fn too_little_is_lent(rt: HostRuntime) {
    let calls = [
        Call::Forward(FROM_PORT_1, usize::MAX),
        Call::Forward(FROM_PORT_1, 1),
    ];
    let mut answers = [Answer::Installed(0); 2];
    let mut in_force = [7; 63];
    assert_eq!(rt;
        performed(&calls, &mut answers[..1], &mut [], &mut in_force),
        Err(SeriesFault::Answers(2))
    );
    assert_eq!(rt;
        performed(&calls, &mut answers, &mut [], &mut in_force),
        Err(SeriesFault::Written(usize::MAX))
    );
    assert_eq!(rt;
        performed(&calls[2..], &mut answers, &mut [], &mut in_force),
        Err(SeriesFault::InForce(64))
    );
    assert_eq!(rt; answers[0], Answer::Installed(0));
}
