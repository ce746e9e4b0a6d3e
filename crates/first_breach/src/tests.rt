use crate::{note, note_if};
use cy_base::{Phase, Refusal, Rule};
use std::test::Fail;

fn broken(number: u8, file: u32, offset: u32) -> Refusal {
    let phase = Phase::Static;
    Refusal {
        rule: Rule { phase, number },
        file,
        offset,
    }
}

#[test]
fn the_least_is_kept(rt: HostRuntime) -> Result<(), Fail> {
    let least = note(None, broken(3, 1, 20));
    let least = note(least, broken(9, 1, 4));
    let least = note(least, broken(7, 1, 4));
    let least = note_if(false, least, broken(1, 0, 0));
    let least = note_if(true, least, broken(2, 2, 0));
    assert_eq!(rt; least, Some(broken(7, 1, 4)));
    Ok(())
}
