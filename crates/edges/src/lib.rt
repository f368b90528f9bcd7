// Edge cases of sequences and surveys as tests: empty, full, first, last, one past, and the greatest place; and what generic
// code has to say of the sequences that a plan and a survey stand on.
#![tactic(auto)]

#[cfg(test)]
mod tests {
    use kinds::{Both, Pair, Thinnest, Total, fold, saturating_sum};
    use motion::{Block, Move};
    use plan::Plan;
    use plan::summaries::PlanKind;
    use refusals::{Layer, Refusal};
    use rows::idle;
    use sequences::Sequence;
    use sequences::answering::make_all;
    use sequences::calls::{Answer, Call};
    use sequences::deep::Deep;
    use sequences::flat::FlatList;
    use std::test::Fail;
    use survey::{Spot, Survey};
    use tree::Tree;

    // Spelled out, so that the tests do not lean on the library's own.
    const NO_PLACE: Refusal = Refusal::NoPlace(Layer::Sequence);

    #[test]
    fn numbers_and_layers(rt: HostRuntime) {
        assert_eq!(rt; NO_PLACE.number(), 1);
        assert_eq!(rt; Refusal::NoPlace(Layer::Survey).layer(), Layer::Survey);
        assert_eq!(rt; Refusal::Full.number(), 2);
        assert_eq!(rt; Refusal::Reading.number(), 6);
        assert_eq!(rt; Refusal::Reading.layer(), Layer::Survey);
    }

    #[test]
    fn sums_stop_at_the_top(rt: HostRuntime) {
        assert_eq!(rt; saturating_sum(4294967290, 5), 4294967295);
        assert_eq!(rt; saturating_sum(4294967290, 6), 4294967295);
        assert_eq!(rt; saturating_sum(4294967295, 4294967295), 4294967295);
    }

    #[test]
    fn folds(rt: HostRuntime) {
        assert_eq!(rt;
            fold::<Both<Thinnest, Total>>(&[]),
            Pair {
                first: 65535,
                second: 0,
            }
        );
        assert_eq!(rt;
            fold::<Both<Thinnest, Total>>(&[7]),
            Pair {
                first: 7,
                second: 7,
            }
        );
        assert_eq!(rt;
            fold::<Both<Thinnest, Total>>(&[7, 65535, 3, 4]),
            Pair {
                first: 3,
                second: 65549,
            }
        );
    }

    #[test]
    fn no_slots(rt: HostRuntime) {
        let mut slots = [0u16; 0];
        let mut list: FlatList<Thinnest> = FlatList::open(&mut slots);
        assert_eq!(rt; list.capacity(), 0);
        assert_eq!(rt; list.insert(0, 5), Err(Refusal::Full));
        assert_eq!(rt; list.insert(1, 5), Err(NO_PLACE));
        assert_eq!(rt; list.delete(0), Err(NO_PLACE));
        assert_eq!(rt; list.range_join(0, 0), Ok(65535));
    }

    #[test]
    fn first_last_and_one_past(rt: HostRuntime) {
        let mut slots = [9u16; 3];
        let mut list: FlatList<Thinnest> = FlatList::open(&mut slots);
        assert_eq!(rt; list.count(), 0);
        assert_eq!(rt; list.element_at(0), Err(NO_PLACE));
        assert_eq!(rt; list.insert(0, 20), Ok(()));
        assert_eq!(rt; list.insert(1, 30), Ok(()));
        assert_eq!(rt; list.insert(0, 10), Ok(()));
        assert_eq!(rt; list.insert(3, 40), Err(Refusal::Full));
        assert_eq!(rt; list.insert(65535, 40), Err(NO_PLACE));
        assert_eq!(rt; list.element_at(0), Ok(10));
        assert_eq!(rt; list.element_at(2), Ok(30));
        assert_eq!(rt; list.element_at(3), Err(NO_PLACE));
        assert_eq!(rt; list.element_at(65535), Err(NO_PLACE));
    }

    #[test]
    fn a_run_answers_each_call(rt: HostRuntime) -> Result<(), Fail> {
        let mut slots = [9u16; 2];
        let mut list: FlatList<Thinnest> = FlatList::open(&mut slots);
        let calls = [
            Call::Insert(0, 20),
            Call::Insert(0, 10),
            Call::Insert(0, 30),
            Call::RangeJoin(0, 2),
            Call::ElementAt(2),
        ];
        let answers = make_all(rt.alloc(), &mut list, &calls)?;
        assert!(rt; answers.len() == 5);
        assert!(rt; answers[1] == Answer::Edit(Ok(())));
        assert!(rt; answers[2] == Answer::Edit(Err(Refusal::Full)));
        assert!(rt; answers[3] == Answer::Summary(Ok(10)));
        assert!(rt; answers[4] == Answer::Element(Err(NO_PLACE)));
        Ok(())
    }

    #[test]
    fn the_first_of_the_thinnest(rt: HostRuntime) {
        let mut slots = [9u16; 3];
        let readings: FlatList<Thinnest> = FlatList::open(&mut slots);
        let mut survey = Survey::open(readings);
        assert_eq!(rt; survey.note(0, 300), Ok(()));
        assert_eq!(rt; survey.note(1, 280), Ok(()));
        assert_eq!(rt; survey.note(2, 280), Ok(()));
        assert_eq!(rt; survey.note(0, 2001), Err(Refusal::Reading));
        assert_eq!(rt;
            survey.thinnest(0, 3),
            Ok(Some(Spot {
                reading: 280,
                place: 1,
            }))
        );
        assert_eq!(rt; survey.thinnest(1, 1), Ok(None));
        assert_eq!(rt; survey.thinnest(2, 4), Err(Refusal::NoPlace(Layer::Survey)));
    }

    #[test]
    fn ranges(rt: HostRuntime) {
        let mut slots = [9u16; 3];
        let mut list: FlatList<Thinnest> = FlatList::open(&mut slots);
        assert_eq!(rt; list.insert(0, 20), Ok(()));
        assert_eq!(rt; list.insert(1, 30), Ok(()));
        assert_eq!(rt; list.range_join(1, 2), Ok(30));
        assert_eq!(rt; list.range_join(2, 2), Ok(65535));
        assert_eq!(rt; list.range_join(2, 1), Err(NO_PLACE));
        assert_eq!(rt; list.range_join(0, 3), Err(NO_PLACE));
        assert_eq!(rt; list.range_join(65535, 65535), Err(NO_PLACE));
        assert_eq!(rt; list.replace(1, 11), Ok(()));
        assert_eq!(rt; list.replace(2, 11), Err(NO_PLACE));
        assert_eq!(rt; list.delete(0), Ok(()));
        assert_eq!(rt; list.range_join(0, 1), Ok(11));
    }

    #[test]
    fn at_most_256_of_many_slots(rt: HostRuntime) {
        let mut slots = [1u16; 300];
        let mut list: FlatList<Thinnest> = FlatList::open(&mut slots);
        assert_eq!(rt; list.capacity(), 256);
        for i in 0..256u16 {
            assert_eq!(rt; list.insert(i, i), Ok(()));
        }
        assert_eq!(rt; list.insert(256, 1), Err(Refusal::Full));
        assert_eq!(rt; list.element_at(255), Ok(255));
        assert_eq!(rt; list.delete(65535), Err(NO_PLACE));
        assert_eq!(rt; list.range_join(1, 256), Ok(1));
    }

    // A rink of which no more is said than that its survey is over a sequence, and its plan over a tree.
    #[derive(Drop)]
    struct Rink<S: Sequence, T: Deep> {
        survey: Survey<S>,
        plan: Plan<T>,
    }

    fn levels<S: Sequence, T: Deep>(rink: &mut Rink<S, T>) -> u8 {
        rink.plan.depth()
    }

    #[test]
    fn depth_asks_for_a_tree_alone(rt: HostRuntime) {
        let mut slots = [0u16; 1];
        let readings: FlatList<Thinnest> = FlatList::open(&mut slots);
        let mut rows = [idle::<PlanKind>(Block::idle()); 2];
        let blocks: Tree<PlanKind> = Tree::open(&mut rows);
        let mut rink = Rink {
            survey: Survey::open(readings),
            plan: Plan::open(blocks),
        };
        let ahead = Move {
            target: [3000, 0, 0],
            acceleration: 100,
            feed: 2000,
            corner: 0,
        };
        assert_eq!(rt; levels(&mut rink), 0);
        assert_eq!(rt; rink.plan.insert(0, ahead), Ok(()));
        assert_eq!(rt; levels(&mut rink), 1);
        assert_eq!(rt; rink.plan.insert(1, ahead), Ok(()));
        assert_eq!(rt; levels(&mut rink), 2);
        assert_eq!(rt; rink.survey.note(0, 300), Ok(()));
    }
}
