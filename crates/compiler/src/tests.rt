// What is stored and answered for a source, by running.
use crate::compile;
use meaning::faults::{Cause, Fault};
use program::program::Program;

#[test]
fn a_program_is_stored(rt: HostRuntime) {
    let mut program = Program::new();
    let source = b"alphabet={b,a}module m{move right goto n}module n{accept}";
    assert!(rt; compile(&mut program, source).is_ok());
    assert_eq!(rt; program.letters(), [2, 1].as_slice());
}

// What is answered for a source that is refused.
fn refused(cause: Cause, place: usize) -> Result<(), Fault> {
    Err(Fault { cause, place })
}

#[test]
fn a_fault_leaves_what_was_stored(rt: HostRuntime) {
    let mut program = Program::new();
    let foreign = compile(&mut program, b"alphabet={b}#");
    assert_eq!(rt; foreign, refused(Cause::Byte, 12));
    let short = compile(&mut program, b"alphabet={b}module");
    assert_eq!(rt; short, refused(Cause::Word, 18));
    let nowhere = compile(&mut program, b"alphabet={b}module m{goto n}");
    assert_eq!(rt; nowhere, refused(Cause::Goto, 26));
    assert_eq!(rt; program.letters(), [1].as_slice());
}
