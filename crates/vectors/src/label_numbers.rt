use labels::{Label, UNREADABLE_NUMBER, WrongCharacter, number_of_six, six_for};
use std::test::*;

fn number(chars: [u8; 6]) -> Result<u32, WrongCharacter> {
    Ok(Label::new(chars)?.number())
}

#[test]
fn worked_numbers(rt: HostRuntime) -> Result<(), Fail> {
    assert!(rt; number(*b"000000") == Ok(1));
    assert!(rt; number(*b"000010") == Ok(37));
    assert!(rt; number(*b"ZZZZZZ") == Ok(2_176_782_336));
    Ok(())
}

#[test]
fn first_wrong_character(rt: HostRuntime) -> Result<(), Fail> {
    let Err(wrong) = Label::new(*b"AB c!1") else {
        return Err(Fail::new("a blank is no right character"));
    };
    assert!(rt; wrong.index == 2);
    Ok(())
}

#[test]
fn question_marks(rt: HostRuntime) -> Result<(), Fail> {
    assert!(rt; six_for(UNREADABLE_NUMBER) == *b"??????");
    assert!(rt; six_for(37) == *b"000010");
    let Some(unreadable) = number_of_six(*b"??????") else {
        return Err(Fail::new("question marks stand for an unreadable cartridge"));
    };
    assert!(rt; unreadable == UNREADABLE_NUMBER);
    assert!(rt; number_of_six(*b"?????A").is_none());
    Ok(())
}
