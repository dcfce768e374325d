// Both implementations of the tape at their borders.
use bounded::list::BoundedList;
use sparse::record::NonblankCell;
use sparse::sparse::SparseTape;
use std::process::Abort;
use std::test::Fail;
use tape::dense::DenseTape;
use tape::display::display;
use tape::kinds::{Direction, TapeRefusal};
use tape::symbol::{code_of, letter_of};
use tape::tape::Tape;

const FREE: NonblankCell = NonblankCell { cell: 0, code: 0 };

// What holds of a blank tape of one cell, one of which may be nonblank.
fn one_cell<T: Tape>(rt: &impl Abort, tape: &mut T) {
    for direction in [Direction::Left, Direction::Right] {
        assert_eq!(rt; tape.shift(direction), Err(TapeRefusal::Edge));
    }
    for (distance, code) in [
        (i32::MIN, None),
        (-1, None),
        (0, Some(0)),
        (1, None),
        (i32::MAX, None),
    ] {
        assert_eq!(rt; tape.look(distance), code);
    }
    assert_eq!(rt; tape.put(37), Err(TapeRefusal::Code));
    assert_eq!(rt; tape.put(36), Ok(()));
    assert_eq!(rt; tape.look(0), Some(36));
    assert_eq!(rt; tape.put(255), Err(TapeRefusal::Code));
    assert_eq!(rt; tape.put(0), Ok(()));
    assert_eq!(rt; tape.put(1), Ok(()), "freed and used again");
    assert_eq!(rt;
        &display(tape)[0..15] == b"       a       ".as_slice(),
        true
    );
}

#[test]
fn dense_of_one_cell(rt: HostRuntime) -> Result<(), Fail> {
    let mut cells = [0; 1];
    DenseTape::check(&cells, 0)?;
    one_cell(&rt, &mut DenseTape::new(&mut cells, 0));
    Ok(())
}

#[test]
fn sparse_of_one_cell(rt: HostRuntime) -> Result<(), Fail> {
    let mut memory = [FREE; 1];
    let mut records = BoundedList::new(&mut memory);
    SparseTape::check(&records, 1, 0)?;
    one_cell(&rt, &mut SparseTape::new(&mut records, 1, 0));
    Ok(())
}

// What holds of a blank tape of 4,096 cells with the head on the last.
fn largest<T: Tape>(rt: &impl Abort, tape: &mut T) {
    assert_eq!(rt; tape.shift(Direction::Right), Err(TapeRefusal::Edge));
    assert_eq!(rt; tape.put(26), Ok(()));
    assert_eq!(rt; tape.shift(Direction::Left), Ok(()));
    assert_eq!(rt; tape.put(27), Ok(()));
    for (distance, code) in [
        (1, Some(26)),
        (2, None),
        // the first cell
        (-4094, Some(0)),
        (-4095, None),
    ] {
        assert_eq!(rt; tape.look(distance), code);
    }
    assert_eq!(rt;
        &display(tape)[0..15] == b"_______0z      ".as_slice(),
        true
    );
}

#[test]
fn dense_of_4096_cells(rt: HostRuntime) -> Result<(), Fail> {
    let mut cells = [0; 4096];
    DenseTape::check(&cells, 4095)?;
    largest(&rt, &mut DenseTape::new(&mut cells, 4095));
    Ok(())
}

#[test]
fn sparse_of_4096_cells(rt: HostRuntime) -> Result<(), Fail> {
    let mut memory = [FREE; 2];
    let mut records = BoundedList::new(&mut memory);
    SparseTape::check(&records, 4096, 4095)?;
    largest(&rt, &mut SparseTape::new(&mut records, 4096, 4095));
    Ok(())
}

#[test]
fn capacity_0_and_full(rt: HostRuntime) -> Result<(), Fail> {
    let mut none: [NonblankCell; 0] = [];
    let mut records = BoundedList::new(&mut none);
    SparseTape::check(&records, 3, 1)?;
    let mut blank = SparseTape::new(&mut records, 3, 1);
    assert_eq!(rt; blank.put(0), Ok(()));
    assert_eq!(rt; blank.put(1), Err(TapeRefusal::Capacity));
    assert_eq!(rt; blank.look(0), Some(0));
    let mut memory = [FREE; 1];
    let mut records = BoundedList::new(&mut memory);
    SparseTape::check(&records, 3, 1)?;
    let mut tape = SparseTape::new(&mut records, 3, 1);
    assert_eq!(rt; tape.put(5), Ok(()));
    assert_eq!(rt; tape.shift(Direction::Right), Ok(()));
    assert_eq!(rt; tape.put(6), Err(TapeRefusal::Capacity));
    assert_eq!(rt; tape.shift(Direction::Left), Ok(()));
    assert_eq!(rt; tape.put(6), Ok(()), "over a nonblank cell");
    assert_eq!(rt; tape.put(0), Ok(()));
    assert_eq!(rt; tape.shift(Direction::Left), Ok(()));
    assert_eq!(rt; tape.put(7), Ok(()), "the freed record");
    Ok(())
}

#[test]
fn what_no_tape_is_made_of(rt: HostRuntime) {
    let no_tape = Err(TapeRefusal::Shape);
    let cells_and_heads: [(&[u8], usize, Result<(), TapeRefusal>); 5] = [
        (&[], 0, no_tape),
        (&[0, 0], 2, no_tape),
        (&[0, 36], 1, Ok(())),
        (&[0, 37], 1, no_tape),
        (&[0; 4097], 0, no_tape),
    ];
    for (cells, head, answer) in cells_and_heads {
        assert_eq!(rt; DenseTape::check(cells, head), answer);
    }
    let mut memory = [FREE; 2];
    let records = BoundedList::new(&mut memory);
    for (size, head, answer) in [
        (2, 1, Ok(())),
        (2, 2, no_tape),
        // more records than cells
        (1, 0, no_tape),
        (4096, 0, Ok(())),
        (4097, 0, no_tape),
    ] {
        assert_eq!(rt; SparseTape::check(&records, size, head), answer);
    }
}

#[test]
fn codes_and_letters(rt: HostRuntime) {
    for (byte, code) in [
        (b'a', Some(1)),
        (b'z', Some(26)),
        (b'0', Some(27)),
        (b'9', Some(36)),
        (b'A', None),
        (b'_', None),
    ] {
        assert_eq!(rt; code_of(byte), code);
    }
    for (code, letter) in [(0, None), (36, Some(b'9')), (37, None)] {
        assert_eq!(rt; letter_of(code), letter);
    }
}

#[test]
fn numbers_of_refusals(rt: HostRuntime) {
    for (refusal, number) in [
        (TapeRefusal::Code, 12),
        (TapeRefusal::Edge, 13),
        (TapeRefusal::Capacity, 14),
        (TapeRefusal::Shape, 20),
    ] {
        assert_eq!(rt; refusal.number(), number);
    }
}
