// What the console prints.
use std::process::Abort;
use std::test::Fail;
use transcript::page::TooShort;
use transcript::transcript::{LONGEST, transcript};

const BLANK: &str = "dense _______________\nsparse _______________\n";

const BAD_WORD: &str = "bad word\n";

fn prints(rt: &impl Abort, input: &[u8], expected: &str) -> Result<(), Fail> {
    let mut output = [b'.'; LONGEST];
    let length = transcript(input, &mut output)?;
    assert!(rt; length <= LONGEST);
    assert_eq!(rt; &output[..length] == expected.as_bytes(), true);
    Ok(())
}

#[test]
fn words(rt: HostRuntime) -> Result<(), Fail> {
    for (input, expected) in [
        ("", BLANK),
        ("no percent", BLANK),
        ("alphabet = {a}\r\n\tmodule m {}%", BLANK),
        (
            "%ab_9z\nrest % of it",
            "dense _______ab_9z___\nsparse _______ab_9z___\n",
        ),
        (
            "%abcdefghij",
            "dense _______abcdefgh\nsparse _______abcdefgh\n",
        ),
    ] {
        prints(&rt, input.as_bytes(), expected)?;
    }
    Ok(())
}

#[test]
fn refused_sources(rt: HostRuntime) -> Result<(), Fail> {
    for (input, expected) in [
        ("#%a", "refused 2 at 0\n"),
        ("alphabet={\"a\"}%A", "refused 2 at 10\n"),
        ("alphabet={a}module m{goto n}#", "refused 2 at 28\n"),
        ("a_b%ab", "refused 2 at 1\n"),
    ] {
        prints(&rt, input.as_bytes(), expected)?;
    }
    Ok(())
}

#[test]
fn longest_source(rt: HostRuntime) -> Result<(), Fail> {
    let mut input = [b' '; 60_001];
    prints(&rt, &input[..60_000], BLANK)?;
    input[0] = b'#';
    prints(&rt, &input, "refused 1 at 60000\n")
}

#[test]
fn bad_words(rt: HostRuntime) -> Result<(), Fail> {
    for input in ["%aB", "%a%", "%a\r\n", "% a"] {
        prints(&rt, input.as_bytes(), BAD_WORD)?;
    }
    Ok(())
}

#[test]
fn longest_word(rt: HostRuntime) -> Result<(), Fail> {
    let mut input = [b'q'; 82];
    input[0] = b'%';
    prints(&rt, &input, BAD_WORD)?;
    input[81] = b'\n';
    prints(
        &rt,
        &input,
        "dense _______qqqqqqqq\nsparse _______qqqqqqqq\n",
    )
}

#[test]
fn short_output(rt: HostRuntime) {
    let mut short = [b'.'; 44];
    assert_eq!(rt; transcript(b"%a", &mut short), Err(TooShort { needed: 45 }));
    assert_eq!(rt; short[0], b'.');
    let mut exact = [b'.'; 45];
    assert_eq!(rt; transcript(b"%a", &mut exact), Ok(45));
    let mut bad = [b'.'; 10];
    assert_eq!(rt; transcript(b"%!", &mut bad), Ok(9));
    assert_eq!(rt; bad[9], b'.', "the rest stays");
}
