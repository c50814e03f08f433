// Words with the check's verdict: cases from an independent implementation, and each limit from both sides.
use super::outcomes::shown;
use faults::Shown;
use format::{WAITING_LIMIT, WORDS_LIMIT};
use policy::check as check_words;
use std::alloc::{AllocError, Global};
use std::iter;
use std::test::Fail;

// Words and their refusal.
#[derive(Clone, Copy)]
struct Refused {
    words: &'static [u32],
    fault: Shown,
}

fn refusal(words: &[u32]) -> Option<Shown> {
    check_words(words).err().map(Shown::from)
}

const PASS: u32 = 0x1000_0000;

const UNION: u32 = 0x6000_0000;

const STAR: u32 = 0x8000_0000;

// One word as often as asked, and then another.
fn repeated(
    heap: Global,
    front: u32,
    fronts: usize,
    back: u32,
    backs: usize,
) -> Result<Vec<u32>, AllocError> {
    let mut words = vec![in heap; front; fronts]?;
    words.extend(iter::repeat_n(back, backs))?;
    Ok(words)
}

#[test]
fn legal_words_pass(rt: HostRuntime) {
    let cases: [&[u32]; 5] = [
        &[0x0000_0000, 0x0000_0000, 0x6000_0000],
        &[0x4000_FFFF],
        &[0x2200_0FFF],
        &[0x2100_0001, 0x5000_0000, 0x5000_0000],
        &[0x20FF_FFFF],
    ];
    for case in cases {
        assert_eq!(rt; refusal(case), None);
    }
}

#[test]
fn other_words_give_their_fault(rt: HostRuntime) {
    let cases = [
        Refused {
            words: &[],
            fault: shown(7, 3, 0),
        },
        Refused {
            words: &[0x5000_0000],
            fault: shown(7, 3, 0),
        },
        Refused {
            words: &[0x0000_0000, 0x0000_0000],
            fault: shown(7, 3, 2),
        },
        Refused {
            words: &[0x3100_0003, 0x5000_0000],
            fault: shown(8, 3, 1),
        },
        Refused {
            words: &[0x4001_0000],
            fault: shown(6, 3, 0),
        },
        Refused {
            words: &[0x2800_0000],
            fault: shown(6, 3, 0),
        },
        Refused {
            words: &[0x0100_0000],
            fault: shown(6, 3, 0),
        },
        Refused {
            words: &[0x0000_0001],
            fault: shown(6, 3, 0),
        },
        Refused {
            words: &[0x2100_0001, 0x8000_0000, 0x5000_0000],
            fault: shown(8, 3, 2),
        },
        Refused {
            words: &[0x6000_0000],
            fault: shown(7, 3, 0),
        },
        Refused {
            words: &[0x9000_0000],
            fault: shown(6, 3, 0),
        },
        Refused {
            words: &[0x1000_0000, 0x6000_0000, 0x9000_0000],
            fault: shown(7, 3, 1),
        },
    ];
    for case in &cases {
        assert_eq!(rt; refusal(case.words), Some(case.fault));
    }
}

#[test]
fn waiting_ends_at_its_limit(rt: HostRuntime) -> Result<(), Fail> {
    let heap = rt.alloc();
    let full = repeated(heap, PASS, WAITING_LIMIT, UNION, WAITING_LIMIT - 1)?;
    assert_eq!(rt; refusal(&full), None);
    let longer = repeated(heap, PASS, WAITING_LIMIT + 1, UNION, WAITING_LIMIT)?;
    assert_eq!(rt; refusal(&longer), Some(shown(4, 3, WAITING_LIMIT)));
    Ok(())
}

#[test]
fn policies_end_at_their_limit(rt: HostRuntime) -> Result<(), Fail> {
    let heap = rt.alloc();
    let full = repeated(heap, PASS, 1, STAR, WORDS_LIMIT - 1)?;
    assert_eq!(rt; refusal(&full), None);
    let longer = repeated(heap, PASS, 1, STAR, WORDS_LIMIT)?;
    assert_eq!(rt; refusal(&longer), Some(shown(5, 3, WORDS_LIMIT)));
    Ok(())
}

#[test]
fn too_many_words_are_refused_before_their_end(rt: HostRuntime) -> Result<(), Fail> {
    let operands = repeated(rt.alloc(), PASS, WORDS_LIMIT + 1, PASS, 0)?;
    assert_eq!(rt; refusal(&operands), Some(shown(5, 3, WORDS_LIMIT)));
    Ok(())
}
