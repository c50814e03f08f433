#![tactic(auto)]

// Cases of the stores, run as tests.
#[cfg(test)]
mod tests {
    use actions::Action;
    use counts::{Counts, Sizes};
    use faults::Shown;
    use format::{Amount, Setting};
    use records::{Cell, Diagram, Node, Record};
    use stores::Store;

    fn amount(number: u16) -> Amount {
        Amount {
            number: number.into(),
        }
    }

    // A test or a setting of the port.
    fn port(value: u16) -> Setting {
        Setting {
            field: 1,
            value: value.into(),
        }
    }

    fn cell(action: u16) -> Cell {
        Cell {
            action: amount(action),
            weight: amount(1),
            rest: amount(0),
        }
    }

    fn node(value: u16) -> Node {
        Node {
            test: port(value),
            yes: Diagram::Leaf(amount(1)),
            no: Diagram::drop_all(),
        }
    }

    // Two records fill two slots, a third is refused, and the first still has its number.
    fn fills<R: Record>(slots: &mut [R], first: R, second: R, third: R) -> bool {
        let mut store = Store { slots };
        let mut count = 0;
        let a = store.enter(&mut count, first).ok();
        let b = store.enter(&mut count, second).ok();
        let full = store.enter(&mut count, third).ok();
        let again = store.enter(&mut count, first).ok();
        let one = Some(amount(1));
        a == one && b == Some(amount(2)) && full.is_none() && again == one && count == 2
    }

    // A test for each kind of record, since its name says which store fails.
    #[test]
    fn actions_fill_their_store(rt: HostRuntime) {
        let keep = Action::keep_all();
        let mut slots = [keep; 2];
        assert!(rt;
            fills(
                &mut slots,
                keep,
                Action::setting(port(2)),
                Action::setting(port(3)),
            )
        );
    }

    #[test]
    fn cells_fill_their_store(rt: HostRuntime) {
        let mut slots = [cell(1); 2];
        assert!(rt; fills(&mut slots, cell(1), cell(2), cell(3)));
    }

    #[test]
    fn nodes_fill_their_store(rt: HostRuntime) {
        let mut slots = [node(1); 2];
        assert!(rt; fills(&mut slots, node(1), node(2), node(3)));
    }

    // The number of the memory that is refused, if any is.
    fn wrong(actions: usize, cells: usize, nodes: usize, table_words: usize) -> Option<usize> {
        let sizes = Sizes {
            actions,
            cells,
            nodes,
            table_words,
        };
        let fault = sizes.judge().err()?;
        Some(Shown::from(fault).place)
    }

    #[test]
    fn memories_are_judged_in_order(rt: HostRuntime) {
        assert_eq!(rt; wrong(1, 1, 1, 2), None);
        assert_eq!(rt; wrong(4_096, 16_384, 16_384, 65_536), None);
        assert_eq!(rt; wrong(0, 0, 0, 0), Some(1));
        assert_eq!(rt; wrong(4_097, 1, 1, 2), Some(1));
        assert_eq!(rt; wrong(1, 0, 0, 0), Some(2));
        assert_eq!(rt; wrong(1, 16_385, 1, 2), Some(2));
        assert_eq!(rt; wrong(1, 1, 0, 1), Some(3));
        assert_eq!(rt; wrong(1, 1, 16_385, 2), Some(3));
        assert_eq!(rt; wrong(1, 1, 1, 1), Some(4));
        assert_eq!(rt; wrong(1, 1, 1, 65_537), Some(4));
    }

    // Whether a word is that of a diagram among two cells and one node.
    fn held(bits: u32) -> bool {
        let counts = Counts {
            actions: 0,
            cells: 2,
            nodes: 1,
        };
        counts.operand(1, bits).ok().map(u32::from) == Some(bits)
    }

    #[test]
    fn words_are_held_up_to_the_counts(rt: HostRuntime) {
        assert!(rt; held(0) && held(2) && held(0x1000_0001));
        assert!(rt; !held(3) && !held(0x1000_0000) && !held(0x1000_0002));
        assert!(rt; !held(0x0100_0000) && !held(0x1100_0001) && !held(0x2000_0001));
    }
}
