// Lists of words that are of no form, and that no line of words spells.
use crate::word_lists::{
    FORMAT, INTERFACES, NONCES, REPLAY, ROUND, SPLIT, WORKERS, said, words_in,
};
use std::test::Fail;

#[test]
fn empty_words_blanks_in_words_and_long_lists_are_of_no_form(rt: HostRuntime) -> Result<(), Fail> {
    let alloc = rt.alloc();
    // Words, and one that follows `times` times.
    for (text, last, times) in [
        // An empty word is no command, no name, and belongs to no pair.
        ("", "", 0u32),
        (" replay --settings s --in i --out o", "", 0),
        ("replay --settings s --in i --out o  x", "", 0),
        ("show --in x", "", 1),
        // An empty word is no value either.
        ("replay --settings  --in i --out o", "", 0),
        ("replay --settings s --in  --out o", "", 0),
        ("replay --settings s --in i --out", "", 1),
        ("show --in", "", 1),
        (ROUND, "", 1),
        (WORKERS, "", 1),
        (FORMAT, "", 1),
        (INTERFACES, "", 1),
        (SPLIT, "", 1),
        (NONCES, "", 1),
        ("trial", "", 1),
        // A number has no blanks.
        (ROUND, " 1", 1),
        (ROUND, "1 ", 1),
        (WORKERS, "0 ", 1),
        ("trial", " 5", 1),
        ("trial", "5 ", 1),
        // The name of a format and a switch have no blanks either.
        (FORMAT, " ng", 1),
        (FORMAT, "ng ", 1),
        (INTERFACES, "vlan ", 1),
        (SPLIT, "on ", 1),
        (NONCES, " sent", 1),
        (NONCES, "sent ", 1),
        // Two thousand words behind a lawful option.
        ("show --in x", "--junk", 2000),
        ("show --in x", "--in", 2000),
        ("show --in x", "junk", 2000),
        ("show --in x", "", 2000),
        (REPLAY, "--junk", 2000),
        (REPLAY, "--in", 2000),
        (REPLAY, "junk", 2000),
        (REPLAY, "", 2000),
        ("trial 5", "--junk", 2000),
        ("trial 5", "--in", 2000),
        ("trial 5", "junk", 2000),
        ("trial 5", "", 2000),
    ] {
        let mut words = words_in(alloc, text)?;
        for _ in 0..times {
            words.push(String::from_str(alloc, last)?)?;
        }
        assert_eq!(rt; said(alloc, &words)?.as_str(), "usage", "{text} {last}");
    }
    Ok(())
}
