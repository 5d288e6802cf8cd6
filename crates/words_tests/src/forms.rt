// Lists of words that are of a form, and their values, which a run doesn't show.
use crate::word_lists::{said, words_in};
use std::test::Fail;

#[test]
fn words_of_a_form_say_their_values(rt: HostRuntime) -> Result<(), Fail> {
    let alloc = rt.alloc();
    for (text, says) in [
        (
            "replay --settings s --in i --out o",
            "replay s i o classic 0 256",
        ),
        (
            "replay --settings s --in i --out o --round 1",
            "replay s i o classic 0 1",
        ),
        (
            "replay --settings s --round 256 --in i --out o",
            "replay s i o classic 0 256",
        ),
        (
            "replay --round 4096 --settings s --in i --out o",
            "replay s i o classic 0 4096",
        ),
        (
            "replay --out o --round 4095 --workers 0 --in i --settings s",
            "replay s i o classic 0 4095",
        ),
        (
            "replay --workers 0 --in i --out o --settings s --round 10",
            "replay s i o classic 0 10",
        ),
        (
            "replay --settings s --in i --out o --format classic",
            "replay s i o classic 0 256",
        ),
        (
            "replay --format ng --settings s --in i --out o",
            "replay s i o ng 0 256",
        ),
        (
            "replay --interfaces none --settings s --in i --out o",
            "replay s i o classic 0 256",
        ),
        (
            "replay --settings s --format classic --in i --interfaces none --out o",
            "replay s i o classic 0 256",
        ),
        (
            "replay --settings s --interfaces none --in i --format ng --out o",
            "replay s i o ng 0 256",
        ),
        (
            "replay --settings s --in i --out o --format ng --interfaces vlan",
            "replay s i o ng-vlan 0 256",
        ),
        (
            "replay --interfaces vlan --round 7 --format ng --in i --workers 2 --out o --settings s",
            "replay s i o ng-vlan 2 7",
        ),
        (
            "replay --split on --settings s --in i --out o",
            "replay s i o classic-split 0 256",
        ),
        (
            "replay --settings s --split off --in i --out o",
            "replay s i o classic 0 256",
        ),
        (
            "replay --settings s --in i --format ng --out o --split on --workers 3",
            "replay s i o ng-split 3 256",
        ),
        (
            "replay --settings s --in i --interfaces vlan --split on --format ng --out o",
            "replay s i o ng-vlan-split 0 256",
        ),
        (
            "replay --settings on --in off --out split --split off",
            "replay on off split classic 0 256",
        ),
        (
            "replay --settings ng --in classic --out vlan",
            "replay ng classic vlan classic 0 256",
        ),
        (
            "replay --settings a --in a --out b",
            "replay a a b classic 0 256",
        ),
        (
            "replay --settings i --in I --out ./I",
            "replay i I ./I classic 0 256",
        ),
        (
            "replay --settings 0 --in replay --out o--",
            "replay 0 replay o-- classic 0 256",
        ),
        (
            "replay --settings s=s --in ö --out oo",
            "replay s=s ö oo classic 0 256",
        ),
        ("show --in x", "show x"),
        ("show --in show", "show show"),
        ("trial 1", "trial 1"),
        ("trial 10", "trial 10"),
        ("trial 49999", "trial 49999"),
        ("trial 50000", "trial 50000"),
        ("audit --settings s --in i --sent t", "audit s i t settings"),
        (
            "audit --nonces sent --sent t --in i --settings s",
            "audit s i t sent",
        ),
        (
            "audit --settings s --in i --nonces settings --sent t",
            "audit s i t settings",
        ),
        // An audit writes no file, so all three may be one.
        ("audit --settings f --in f --sent f", "audit f f f settings"),
        (
            "audit --settings sent --in settings --sent audit",
            "audit sent settings audit settings",
        ),
    ] {
        let words = words_in(alloc, text)?;
        assert_eq!(rt; said(alloc, &words)?.as_str(), says, "{text}");
    }
    Ok(())
}
