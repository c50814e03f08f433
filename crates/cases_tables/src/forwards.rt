// Frames through tables: order, joined weights, and memory of every size around the answer's.
use super::through::{JOINED, TABLE, forwarded};
use cases_weights::Ports;
use faults::Shown;
use weights::{Cost, Reach};

// A frame at a port, on VLAN 10.
fn frame_at(port: u32) -> [u32; 8] {
    [
        0x9000_0001,
        0x9100_0000 | (port & 0xff),
        0x9200_000A,
        0x9300_0800,
        0x9400_0000,
        0x9500_0000,
        0x9600_0000,
        0x9700_0000,
    ]
}

fn refusal(number: u32, place: usize) -> Result<usize, Shown> {
    Err(Shown {
        number,
        layer: 6,
        place,
    })
}

#[test]
fn each_frame_once_and_ascending(rt: HostRuntime) {
    let mut memory = [1; 20];
    assert_eq!(rt;
        forwarded::<Reach>(TABLE, &frame_at(1), &mut memory),
        Ok(18)
    );
    let [first, _, port, .., last, end] = memory;
    assert_eq!(rt; first, 0xC000_0001);
    assert_eq!(rt; port, 0x9100_0002);
    assert!(rt; last == 1 && end == 1);
}

#[test]
fn nothing_is_emitted(rt: HostRuntime) {
    let mut memory = [1; 1];
    assert_eq!(rt; forwarded::<Reach>(TABLE, &frame_at(2), &mut memory), Ok(0));
    assert_eq!(rt; memory, [1]);
}

#[test]
fn no_memory(rt: HostRuntime) {
    let mut memory = [];
    assert_eq!(rt;
        forwarded::<Reach>(TABLE, &frame_at(1), &mut memory),
        refusal(13, 0)
    );
}

// Three tests of one shape, and no loop over sizes: the name of the one that fails says which size does.
#[test]
fn memory_for_less_than_a_frame(rt: HostRuntime) {
    let mut memory = [1; 8];
    assert_eq!(rt;
        forwarded::<Reach>(TABLE, &frame_at(1), &mut memory),
        refusal(13, 0)
    );
    assert_eq!(rt; memory, [0; 8]);
}

#[test]
fn memory_for_one_of_two_frames(rt: HostRuntime) {
    let mut memory = [1; 9];
    assert_eq!(rt;
        forwarded::<Reach>(TABLE, &frame_at(1), &mut memory),
        refusal(13, 0)
    );
    assert_eq!(rt; memory, [0; 9]);
}

#[test]
fn memory_of_one_word_too_few(rt: HostRuntime) {
    let mut memory = [1; 17];
    assert_eq!(rt;
        forwarded::<Reach>(TABLE, &frame_at(1), &mut memory),
        refusal(13, 0)
    );
    assert_eq!(rt; memory, [0; 17]);
}

#[test]
fn memory_that_just_fits(rt: HostRuntime) {
    let mut memory = [1; 18];
    assert_eq!(rt;
        forwarded::<Reach>(TABLE, &frame_at(1), &mut memory),
        Ok(18)
    );
}

#[test]
fn wrong_frames_come_first(rt: HostRuntime) {
    let mut memory = [];
    assert_eq!(rt;
        forwarded::<Reach>(TABLE, &[0x9000_0001], &mut memory),
        refusal(12, 8)
    );
    let frame = [
        0x9000_0001,
        0x9100_0001,
        0x9300_0001,
        0x9300_0800,
        0x9400_0000,
        0x9500_0000,
        0x9600_0000,
        0x9700_0000,
    ];
    assert_eq!(rt;
        forwarded::<Reach>(TABLE, &frame, &mut memory),
        refusal(12, 2)
    );
}

#[test]
fn weights_of_equal_frames_are_joined(rt: HostRuntime) {
    let mut memory = [1; 9];
    assert_eq!(rt; forwarded::<Cost>(JOINED, &frame_at(7), &mut memory), Ok(9));
    let [weight, ..] = memory;
    assert_eq!(rt; weight, 0xC000_0002);
    let mut more = [1; 9];
    assert_eq!(rt; forwarded::<Ports>(JOINED, &frame_at(7), &mut more), Ok(9));
    let [joined, ..] = more;
    assert_eq!(rt; joined, 0xC000_0007);
}
