// Texts read and checked in one call: cases from an independent implementation.
use super::outcomes::{Outcome, refused};
use faults::Shown;
use policy::read_policy;

fn outcome(text: &[u8]) -> Outcome {
    let mut memory = [7; 16];
    match read_policy(text, &mut memory) {
        Ok(_) => Outcome::Accepted,
        Err(fault) if memory == [0; 16] => Outcome::Refused(Shown::from(fault)),
        Err(_) => Outcome::WrongMemory,
    }
}

#[test]
fn accepted(rt: HostRuntime) {
    assert_eq!(rt; outcome(b"!!!pt=1"), Outcome::Accepted);
    assert_eq!(rt; outcome(b"vlan=4095"), Outcome::Accepted);
    assert_eq!(rt; outcome(b"pass;(pass;(pass;pass))"), Outcome::Accepted);
}

#[test]
fn refused_by_the_check(rt: HostRuntime) {
    assert_eq!(rt; outcome(b"!pt:=3"), refused(8, 3, 1));
    assert_eq!(rt; outcome(b"!(drop*)"), refused(8, 3, 2));
    assert_eq!(rt; outcome(b"cost 1;!cost 2"), refused(8, 3, 2));
    assert_eq!(rt; outcome(b"cost 65536"), refused(6, 3, 0));
}

#[test]
fn refused_by_the_reader(rt: HostRuntime) {
    assert_eq!(rt; outcome(b""), refused(3, 2, 0));
    assert_eq!(rt; outcome(b"Drop"), refused(1, 1, 0));
    assert_eq!(rt; outcome(b"pt=16777216"), refused(2, 1, 3));
}
