use super::*;

// The members of `set` among the ends of its words, and beside them.
fn ends(set: &BitSet) -> [bool; 6] {
    [
        set.contains(0),
        set.contains(63),
        set.contains(64),
        set.contains(65),
        set.contains(511),
        set.contains(512),
    ]
}

#[test]
fn inserts_and_removes(rt: HostRuntime) {
    let mut set = BitSet::empty();
    set.insert(0);
    set.insert(63);
    set.insert(64);
    set.insert(511);
    set.insert(512);
    assert_eq!(rt; ends(&set), [true, true, true, false, true, false]);
    assert_eq!(rt; set.len(), 4);
    set.remove(64);
    set.remove(65);
    set.remove(512);
    assert_eq!(rt; ends(&set), [true, true, false, false, true, false]);
    assert_eq!(rt; set.len(), 3);
}

#[test]
fn finds_the_first_across_words(rt: HostRuntime) {
    let mut set = BitSet::empty();
    assert_eq!(rt; set.first_from(0), None);
    set.insert(5);
    set.insert(130);
    assert_eq!(rt; set.first_from(0), Some(5));
    assert_eq!(rt; set.first_from(5), Some(5));
    assert_eq!(rt; set.first_from(6), Some(130));
    assert_eq!(rt; set.first_from(131), None);
    assert_eq!(rt; set.first_from(512), None);
}

#[test]
fn joins(rt: HostRuntime) {
    let mut a = BitSet::empty();
    a.insert(1);
    a.insert(300);
    let mut b = BitSet::empty();
    b.insert(300);
    b.insert(511);
    let both = a.join(b);
    assert_eq!(rt; both.len(), 3);
    assert_eq!(rt; both.first_from(2), Some(300));
    assert_eq!(rt; both.first_from(301), Some(511));
}
