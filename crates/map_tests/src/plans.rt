use plan_text::{PlanTextError, read_plan, write_plan};
use std::alloc::Global;
use std::test::Fail;
use up_text::Place;

// What is written of what is read.
fn again(alloc: Global, text: &[u8]) -> Result<Vec<u8>, PlanTextError> {
    match read_plan(alloc, text) {
        Ok(plan) => Ok(write_plan(alloc, &plan)?),
        Err(fault) => Err(fault),
    }
}

#[test]
fn plans_are_read_and_written(rt: HostRuntime) -> Result<(), Fail> {
    let alloc = rt.alloc();
    for (text, want) in [
        (b"".as_slice(), b"".as_slice()),
        (b"\n \t\r\n; (a\n", b""),
        (b"(reach-goal)\n", b"(reach-goal)\n"),
        (
            b"0.000: (MOVE-2 rooma roomb) [0.001]",
            b"(move-2 rooma roomb)\n",
        ),
        (
            b"(pick ball1 rooma)\n(move rooma roomb)\n(drop ball1 roomb)\n",
            b"(pick ball1 rooma)\n(move rooma roomb)\n(drop ball1 roomb)\n",
        ),
        (
            b" 12 :( a\tB_1 )[ 0123456789012345678901.50 ] ; (\xff\r\n(c);\r\n\n3:(d)",
            b"(a b_1)\n(c)\n(d)\n",
        ),
        (b"(andy always)", b"(andy always)\n"),
    ] {
        let text = again(alloc, text)?;
        assert_eq!(rt; text.as_slice(), want);
    }
    Ok(())
}

#[test]
fn faults_have_their_place(rt: HostRuntime) {
    let alloc = rt.alloc();
    for (text, line, column) in [
        (b"move rooma".as_slice(), 1, 1),
        (b"\xff(a)", 1, 1),
        (b"(a)\n\n(b", 3, 3),
        (b"(a)\n(b\r\n(c)", 2, 3),
        (b"(a) ; c\n ()", 2, 3),
        (b"(a ; c)\n", 1, 4),
        (b"(a)\r", 1, 4),
        (b"(a)\r\r\n", 1, 4),
        (b"(a b?c)", 1, 5),
        (b"(a 1b)", 1, 4),
        (b"(a -b)", 1, 4),
        (b"(a (b))", 1, 4),
        (b"(a Either?)", 1, 4),
        (b"(WHEN a)", 1, 2),
        (b"(a)(b)", 1, 4),
        (b"1.:(a)", 1, 3),
        (b"1.5.:(a)", 1, 4),
        (b".5:(a)", 1, 1),
        (b"1 (a)", 1, 3),
        (b":(a)", 1, 1),
        (b"(a)[1", 1, 6),
        (b"(a)[]", 1, 5),
        (b"(a)[1.]", 1, 7),
        (b"(a)[1]x", 1, 7),
        (b"(a)[1] [2]", 1, 8),
        (b"(a)\x0c", 1, 4),
        (b"(and", 1, 2),
        (b"3: ", 1, 4),
    ] {
        let place = Place { line, column };
        let fault = read_plan(alloc, text).err();
        assert_eq!(rt; fault, Some(PlanTextError::Bad { place }));
    }
}
