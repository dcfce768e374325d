// One list for three kinds of record: module names, pending gotos, nonblank cells.
use bounded::list::{BoundedList, Full};
use sparse::record::NonblankCell;

// A module's name, as a part of the source.
#[derive(Clone, Copy, PartialEq, Eq, Debug)]
struct ModuleName {
    start: u32,
    length: u16,
}

// A goto whose module is not known yet, and its place.
#[derive(Clone, Copy, PartialEq, Eq, Debug)]
struct PendingGoto {
    name: ModuleName,
    place: u32,
}

fn name(start: u32, length: u16) -> ModuleName {
    ModuleName { start, length }
}

#[test]
fn names_in_order(rt: HostRuntime) {
    let [none, first, second] = [name(0, 0), name(20, 4), name(55, 1)];
    let mut memory = [none; 2];
    let mut names = BoundedList::new(&mut memory);
    assert_eq!(rt; names.len(), 0);
    assert_eq!(rt; names.get(0), None);
    for (added, answer) in [(first, Ok(())), (second, Ok(())), (none, Err(Full))] {
        assert_eq!(rt; names.push(added), answer);
    }
    assert_eq!(rt; names.len(), 2);
    for (index, found) in [(0, Some(first)), (1, Some(second)), (usize::MAX, None)] {
        assert_eq!(rt; names.get(index), found);
    }
}

#[test]
fn gotos_are_settled(rt: HostRuntime) {
    let goto = PendingGoto {
        name: name(9, 2),
        place: 40,
    };
    let mut memory = [goto; 1];
    let mut gotos = BoundedList::new(&mut memory);
    assert_eq!(rt; gotos.push(goto), Ok(()));
    assert_eq!(rt; gotos.backward(), Some(goto));
    assert_eq!(rt; gotos.delete(), Some(goto));
    assert_eq!(rt; gotos.delete(), None);
    assert_eq!(rt; gotos.len(), 0);
    assert_eq!(rt; gotos.insert(goto), Ok(()), "a freed record is used again");
}

#[test]
fn cells_around_the_cursor(rt: HostRuntime) {
    let a = NonblankCell { cell: 3, code: 1 };
    let b = NonblankCell { cell: 7, code: 2 };
    let mut memory = [a; 3];
    let mut cells = BoundedList::new(&mut memory);
    assert_eq!(rt; cells.insert(b), Ok(()));
    assert_eq!(rt; cells.insert(a), Ok(()));
    assert_eq!(rt; cells.cursor(), 0);
    assert_eq!(rt; cells.forward(), Some(a));
    assert_eq!(rt; cells.cursor(), 1);
    assert_eq!(rt; cells.previous(), Some(a));
    assert_eq!(rt; cells.next(), Some(b));
    assert_eq!(rt; cells.replace(a), Some(b));
    assert_eq!(rt; cells.forward(), Some(a));
    assert_eq!(rt; cells.forward(), None, "the end");
    cells.clear();
    assert_eq!(rt; cells.backward(), None);
    assert_eq!(rt; cells.capacity(), 3);
}

#[test]
fn no_memory_is_always_full(rt: HostRuntime) {
    let mut memory: [u8; 0] = [];
    let mut list = BoundedList::new(&mut memory);
    assert_eq!(rt; list.push(1), Err(Full));
    assert_eq!(rt; list.insert(1), Err(Full));
    assert_eq!(rt; list.into_memory().len(), 0);
}
