// Records of a table in words that are just enough for it, and in less, and how long the frames' lines alone are.
use replays::{Kind, Short, lines_length, replay, words_wanted};

// A table of no rows, and one whose end word counts a row that is not there.
const EMPTY: &[u8] = &[0xE0, 0, 0, 0];

const REFUSED: &[u8] = &[0xE0, 0, 0, 1];

// A table that sends every frame on as it is, and a frame.
const ALL_PASS: &[u8] = &[0xA0, 0, 0, 1, 0xC0, 0, 0, 1, 0xE0, 0, 0, 1];

const FRAME: &[u8] = &[
    0x90, 0, 0, 1, 0x91, 0, 0, 1, 0x92, 0, 0, 1, 0x93, 0, 0, 1, 0x94, 0, 0, 1, 0x95, 0, 0, 1, 0x96,
    0, 0, 1, 0x97, 0, 0, 1,
];

#[test]
fn a_refused_table_needs_no_room(rt: HostRuntime) {
    let frames = [0; 8];
    let mut words = [0; 3];
    let mut out = *b"...........................";
    assert_eq!(rt; words_wanted(REFUSED, &frames), 3);
    assert_eq!(rt;
        replay(Kind::Reach, REFUSED, &frames, &mut words, &mut out),
        Ok(27)
    );
    assert_eq!(rt; out, *b"refused 15 layer 5 place 0\n");
}

#[test]
fn a_refused_table_needs_its_words(rt: HostRuntime) {
    let mut words = [];
    let mut out = [];
    assert_eq!(rt;
        replay(Kind::Cost, REFUSED, &[], &mut words, &mut out),
        Err(Short::Words(10))
    );
}

#[test]
fn a_legal_table_says_what_is_enough(rt: HostRuntime) {
    let frames = [0; 8];
    let mut words = [0; 11];
    let mut out = *b"...";
    assert_eq!(rt; words_wanted(EMPTY, &frames), 3);
    assert_eq!(rt;
        replay(Kind::Reach, EMPTY, &frames, &mut words, &mut out),
        Err(Short::Words(12))
    );
    assert_eq!(rt; out, *b"...");
}

#[test]
fn a_legal_table_in_enough_words(rt: HostRuntime) {
    let mut words = [0; 10];
    let mut out = *b"...............................";
    assert_eq!(rt;
        replay(Kind::Cost, EMPTY, &[], &mut words, &mut out),
        Ok(31)
    );
    assert_eq!(rt; out, *b"table of 1 words\nend of 0 rows\n");
}

#[test]
fn the_lines_of_a_refused_frame(rt: HostRuntime) {
    let frames = [0; 8];
    let mut words = [0; 40];
    assert_eq!(rt; lines_length(Kind::Reach, EMPTY, &frames, &mut words), 56);
    assert_eq!(rt;
        replay(Kind::Reach, EMPTY, &frames, &mut words, &mut []),
        Err(Short::Bytes(31 + 56))
    );
}

#[test]
fn the_lines_of_a_forwarded_frame(rt: HostRuntime) {
    let mut words = [0; 38];
    assert_eq!(rt; lines_length(Kind::Reach, ALL_PASS, FRAME, &mut words), 282);
    let mut words = [0; 37];
    assert_eq!(rt; lines_length(Kind::Reach, ALL_PASS, FRAME, &mut words), 0);
}

#[test]
fn a_refused_table_is_measured_whole(rt: HostRuntime) {
    let mut words = [0; 9];
    assert_eq!(rt; lines_length(Kind::Reach, REFUSED, FRAME, &mut words), 27);
    let mut words = [0; 8];
    assert_eq!(rt; lines_length(Kind::Reach, REFUSED, FRAME, &mut words), 0);
}
