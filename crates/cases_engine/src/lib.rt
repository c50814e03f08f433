#![tactic(auto)]

// How many actions, cells and nodes compiling adds to empty stores, run as tests.
#[cfg(test)]
mod tests {
    use actions::Action;
    use arrayvec::ArrayVec;
    use cases_weights::Ports;
    use checking::CheckedPolicy;
    use counts::Counts;
    use engine::Engine;
    use faults::{BenchFault, StoreFault};
    use format::{Amount, Setting, TEXT_LIMIT, WORDS_LIMIT};
    use policy::read_policy;
    use records::{Cell, Diagram, Node};
    use weights::{Cost, Reach, WeightKind};

    // What each case finds room in.
    const ACTIONS: usize = 8;

    const CELLS: usize = 256;

    const NODES: usize = 64;

    // Actions, cells and nodes.
    type Added = [usize; 3];

    // What memory holds before a store writes there.
    fn blank_cell() -> Cell {
        let none = Amount { number: 0 };
        Cell {
            action: none,
            weight: none,
            rest: none,
        }
    }

    fn blank_node() -> Node {
        let none = Diagram::Leaf(Amount { number: 0 });
        Node {
            test: Setting { field: 0, value: 0 },
            yes: none,
            no: none,
        }
    }

    // Why compiling in stores of these sizes is refused, if it is, and how many records are in store then.
    fn compiled<K: WeightKind>(
        policy: &CheckedPolicy,
        sizes: Added,
    ) -> (Option<StoreFault>, Counts) {
        let mut actions = [Action::keep_all(); ACTIONS];
        let mut cells = [blank_cell(); CELLS];
        let mut nodes = [blank_node(); NODES];
        let [action_room, cell_room, node_room] = sizes;
        let mut engine = Engine::<K>::open(
            &mut actions[..action_room.min(ACTIONS)],
            &mut cells[..cell_room.min(CELLS)],
            &mut nodes[..node_room.min(NODES)],
        );
        let answer = engine.compile(policy);
        (answer.err(), engine.records())
    }

    // Whether the policy is refused without a trace where one store is one too small. No store can be smaller than none.
    fn refused<K: WeightKind>(policy: &CheckedPolicy, added: Added, store: usize) -> bool {
        let mut sizes = added;
        let Some(size) = sizes.get_mut(store) else {
            return true;
        };
        let Some(less) = size.checked_sub(1) else {
            return true;
        };
        *size = less;
        compiled::<K>(policy, sizes) == (Some(StoreFault::Full), Counts::none())
    }

    fn counted(records: Counts) -> Added {
        [
            records.actions as usize,
            records.cells as usize,
            records.nodes as usize,
        ]
    }

    // Whether the text's policy adds just these records: stores with room for no more are enough, and with one less refused.
    fn adds<K: WeightKind>(text: &[u8], added: Added) -> bool {
        let Ok(policy) = read_policy(text, &mut [0; WORDS_LIMIT]) else {
            return false;
        };
        let (fault, records) = compiled::<K>(&policy, added);
        fault.is_none()
            && counted(records) == added
            && refused::<K>(&policy, added, 0)
            && refused::<K>(&policy, added, 1)
            && refused::<K>(&policy, added, 2)
    }

    // The first text that adds other records.
    fn first_wrong<'a, K: WeightKind>(cases: &[(&'a str, Added)]) -> Option<&'a str> {
        for (text, added) in cases {
            if !adds::<K>(text.as_bytes(), *added) {
                return Some(*text);
            }
        }
        None
    }

    // Texts without a cost. In any kind their weights are zero and one alone.
    fn plain() -> [(&'static str, Added); 17] {
        [
            ("pt=1;pt:=2", [2, 2, 2]),
            ("pt=3;pt:=3", [2, 2, 1]),
            ("pt=3+!pt=3;pt:=3", [2, 2, 3]),
            ("(pt:=3)*", [2, 3, 0]),
            ("pt=1+pt=2;vlan:=6+!(pt=1+pt=2)", [2, 2, 8]),
            ("pt=2;vlan:=6+!pt=2", [2, 2, 4]),
            ("drop", [0, 0, 0]),
            ("sw=16777215", [1, 1, 1]),
            ("(pt=1+sw=1);(vlan:=2;sw:=1)", [4, 4, 6]),
            ("(vlan:=1+pt:=2)*", [4, 10, 0]),
            (
                "(sw=0;sw:=1+sw=1;sw:=2+sw=2;sw:=3+sw=3;sw:=0)*",
                [5, 27, 38],
            ),
            (
                "dstl=1;pt:=1+dstl=2;pt:=2+dstl=3;pt:=3+dstl=4;pt:=4",
                [5, 5, 14],
            ),
            (
                "sw=1;(pt=1;type:=5+!pt=1;type:=6)+!sw=1;(pt=1;type:=7+!pt=1;type:=6)",
                [4, 4, 12],
            ),
            ("!vlan=2;vlan:=2+pt:=2", [3, 5, 4]),
            ("(pt:=4+pt=2);(pt:=1+pt:=2)", [4, 7, 2]),
            ("(pt:=1+pt:=2)**", [3, 6, 0]),
            ("(pt:=1+pt:=2)*", [3, 5, 0]),
        ]
    }

    #[test]
    fn plain_texts_of_reach(rt: HostRuntime) {
        assert_eq!(rt; first_wrong::<Reach>(&plain()), None);
    }

    #[test]
    fn plain_texts_of_ports(rt: HostRuntime) {
        assert_eq!(rt; first_wrong::<Ports>(&plain()), None);
    }

    #[test]
    fn costs(rt: HostRuntime) {
        let cases = [
            ("(cost 5+cost 2);pt:=1", [2, 4, 0]),
            (
                "(pt=1;pt:=2;cost 4+pt=2;pt:=3;cost 4+pt=1;pt:=3;cost 9)*",
                [3, 14, 14],
            ),
            ("(pt:=1+cost 4)*", [2, 7, 0]),
            ("(pt:=1+cost 3)*", [2, 7, 0]),
        ];
        assert_eq!(rt; first_wrong::<Cost>(&cases), None);
    }

    // In a kind to which all costs are one, a policy of costs is that of `pass`.
    #[test]
    fn costs_that_are_one(rt: HostRuntime) {
        let cases = [
            ("(cost 5+cost 2);pt:=1", [2, 2, 0]),
            ("(pt:=1+cost 4)*", [2, 3, 0]),
        ];
        assert_eq!(rt; first_wrong::<Ports>(&cases), None);
        assert_eq!(rt; first_wrong::<Reach>(&cases), None);
    }

    // The parts of a text, each so many times in a row.
    fn text(parts: &[(&str, usize)]) -> ArrayVec<u8, TEXT_LIMIT> {
        let mut text = ArrayVec::new();
        for (part, times) in parts {
            for _ in 0..*times {
                let _room = text.try_extend_from_slice(part.as_bytes());
            }
        }
        text
    }

    // The largest cost 256 times over is still a weight, and 257 times is none: of the two halves nothing is made.
    #[test]
    fn costs_at_the_end_of_the_weights(rt: HostRuntime) {
        let most = text(&[("cost 65535;", 255), ("cost 65535", 1)]);
        assert!(rt; adds::<Cost>(&most, [1, 256, 0]));
        let halves = [
            ("vlan:=2;(", 1),
            ("cost 65535;", 127),
            ("cost 65535);((", 1),
            ("cost 65535;", 128),
            ("cost 65535);pt:=1)", 1),
        ];
        assert!(rt; adds::<Cost>(&text(&halves), [3, 133, 0]));
    }

    // Whether a test of the port is refused in stores of these sizes, and nothing is in store then.
    fn refuses_a_test(sizes: Added) -> bool {
        let Ok(policy) = read_policy(b"pt=3", &mut [0; WORDS_LIMIT]) else {
            return false;
        };
        compiled::<Reach>(&policy, sizes) == (Some(StoreFault::Full), Counts::none())
    }

    #[test]
    fn a_test_is_refused_for_want_of_an_action(rt: HostRuntime) {
        assert!(rt; refuses_a_test([0, 1, 1]));
    }

    #[test]
    fn a_test_is_refused_for_want_of_a_cell(rt: HostRuntime) {
        assert!(rt; refuses_a_test([1, 0, 1]));
    }

    #[test]
    fn a_test_is_refused_for_want_of_a_node(rt: HostRuntime) {
        assert!(rt; refuses_a_test([1, 1, 0]));
    }

    // The word of the diagram of a text's policy.
    fn word(engine: &mut Engine<'_, Reach>, text: &[u8]) -> Result<u32, BenchFault> {
        let policy = read_policy(text, &mut [0; WORDS_LIMIT])?;
        Ok(engine.compile(&policy)?)
    }

    // One of each is enough for one test, asked for twice, and not for a second test.
    #[test]
    fn one_of_each_is_enough_for_one_test(rt: HostRuntime) {
        let mut actions = [Action::keep_all(); 1];
        let mut cells = [blank_cell(); 1];
        let mut nodes = [blank_node(); 1];
        let mut engine = Engine::open(&mut actions, &mut cells, &mut nodes);
        let first = word(&mut engine, b"pt=3");
        let other = word(&mut engine, b"pt=4");
        let again = word(&mut engine, b"pt=3");
        assert_eq!(rt; first, Ok(0x1000_0001));
        assert_eq!(rt; other, Err(BenchFault::Store(StoreFault::Full)));
        assert_eq!(rt; again, first);
        assert_eq!(rt; counted(engine.records()), [1, 1, 1]);
    }
}
