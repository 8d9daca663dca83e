use super::*;
use refusals::Place;

#[test]
fn the_lowest_place_is_picked(rt: HostRuntime) {
    let mut queue = LowestQueue::new();
    assert_eq!(rt; queue.pick(), None);
    assert!(rt; queue.begin(512));
    assert!(rt; queue.set_rank(Place(511), 16));
    assert!(rt; queue.set_rank(Place(70), 2));
    assert_eq!(rt; queue.pick(), Some(Place(70)));
    assert!(rt; queue.set_rank(Place(70), 0));
    assert_eq!(rt; queue.pick(), Some(Place(511)));
    assert!(rt; queue.begin(512));
    assert_eq!(rt; queue.pick(), None);
}

#[test]
fn refusals_change_nothing(rt: HostRuntime) {
    let mut queue = LowestQueue::new();
    assert!(rt; queue.begin(7));
    assert!(rt; queue.set_rank(Place(3), 1));
    assert!(rt; !queue.begin(0));
    assert!(rt; !queue.begin(513));
    assert!(rt; !queue.set_rank(Place(7), 1));
    assert!(rt; !queue.set_rank(Place(0), 17));
    assert_eq!(rt; queue.pick(), Some(Place(3)));
}
