// Tables with the check's verdict: cases from an independent implementation, and each limit from both sides.
use cases_weights::Ports;
use faults::{Shown, TableFault};
use std::test::Fail;
use tables::check_table;
use weights::{Cost, Reach, WeightKind};

// The place at which words are refused as a table of the kind K.
fn refused_at<K: WeightKind>(words: &[u32]) -> Option<usize> {
    match check_table::<K>(words).err()? {
        TableFault::Illegal(place) => Some(place),
        TableFault::Full => None,
    }
}

#[test]
fn refusals_are_shown(rt: HostRuntime) -> Result<(), Fail> {
    let fault = Shown {
        number: 15,
        layer: 5,
        place: 1,
    };
    match check_table::<Reach>(&[0xA000_0001, 0xE000_0001]) {
        Ok(_) => Err(Fail::new("accepted")),
        Err(found) => {
            assert_eq!(rt; Shown::from(found), fault);
            Ok(())
        },
    }
}

#[test]
fn ends_and_heads(rt: HostRuntime) {
    assert_eq!(rt; refused_at::<Reach>(&[]), Some(0));
    assert_eq!(rt; refused_at::<Reach>(&[0xE000_0000]), None);
    assert_eq!(rt; refused_at::<Reach>(&[0xE000_0001]), Some(0));
    assert_eq!(rt; refused_at::<Reach>(&[0xE100_0000]), Some(0));
    assert_eq!(rt; refused_at::<Reach>(&[0xE000_0000, 0xE000_0000]), Some(1));
    assert_eq!(rt;
        refused_at::<Reach>(&[0xA000_0000, 0xE000_0001, 0]),
        Some(2)
    );
    assert_eq!(rt; refused_at::<Reach>(&[0xA900_0000]), Some(0));
    assert_eq!(rt; refused_at::<Reach>(&[0xA800_0000]), Some(1));
    assert_eq!(rt; refused_at::<Reach>(&[0xA000_0000]), Some(1));
}

#[test]
fn matches_look_ahead(rt: HostRuntime) {
    assert_eq!(rt; refused_at::<Reach>(&[0xA200_0000, 0xB700_0001]), Some(1));
    assert_eq!(rt;
        refused_at::<Reach>(&[0xA200_0000, 0xB600_0001, 0xB700_0001, 0xE000_0001]),
        None
    );
    assert_eq!(rt;
        refused_at::<Reach>(&[0xA200_0000, 0xB600_0001, 0xB600_0002]),
        Some(2)
    );
    assert_eq!(rt; refused_at::<Reach>(&[0xA000_0000, 0xB000_0001]), Some(1));
}

#[test]
fn weights_are_of_the_kind(rt: HostRuntime) {
    assert_eq!(rt;
        refused_at::<Reach>(&[0xA000_0001, 0xC000_0000, 0xE000_0001]),
        Some(1)
    );
    assert_eq!(rt;
        refused_at::<Reach>(&[0xA000_0001, 0xC000_0002, 0xE000_0001]),
        Some(1)
    );
    assert_eq!(rt;
        refused_at::<Cost>(&[0xA000_0001, 0xC000_0000, 0xE000_0001]),
        None
    );
    assert_eq!(rt;
        refused_at::<Cost>(&[0xA000_0001, 0xC0FF_FFFF, 0xE000_0001]),
        Some(1)
    );
    assert_eq!(rt;
        refused_at::<Ports>(&[0xA000_0001, 0xC000_FFFF, 0xE000_0001]),
        None
    );
    assert_eq!(rt;
        refused_at::<Ports>(&[0xA000_0001, 0xC001_0000, 0xE000_0001]),
        Some(1)
    );
    assert_eq!(rt;
        refused_at::<Reach>(&[0xA000_0000, 0xC000_0001, 0xE000_0001]),
        Some(1)
    );
}

#[test]
fn sets_ascend(rt: HostRuntime) {
    assert_eq!(rt;
        refused_at::<Reach>(&[
            0xA000_0001,
            0xC000_0001,
            0xD100_0002,
            0xD100_0003,
            0xE000_0001,
        ],),
        Some(3)
    );
    assert_eq!(rt;
        refused_at::<Reach>(&[
            0xA000_0001,
            0xC000_0001,
            0xD100_0002,
            0xD700_0003,
            0xE000_0001,
        ],),
        None
    );
    assert_eq!(rt;
        refused_at::<Reach>(&[0xA000_0001, 0xC000_0001, 0xD800_0002]),
        Some(2)
    );
}
