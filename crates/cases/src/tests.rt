// Heads of cases, from bytes in memory: no clause says when a read ends, so it is tried that no head is too long.
use crate::words;
use std::test::Fail;

// A head of eighteen words is taken whole; one byte less is none, and so is what is left of the input after it.
#[test]
fn long_head() -> Result<(), Fail> {
    let mut bytes = [0u8; 75];
    bytes[68] = 9;
    bytes[71] = 1;
    let mut input = &bytes[..];
    let head = words::<18>(&mut input)?.ok_or("eighteen words are not taken")?;
    let mut due = [0u32; 18];
    due[17] = 16777225;
    (head == due).then_some(()).ok_or("other words are taken")?;
    let rest = words::<1>(&mut input)?;
    rest.is_none()
        .then_some(())
        .ok_or("three bytes are a word")?;
    let mut short = &bytes[..71];
    let cut = words::<18>(&mut short)?;
    cut.is_none()
        .then_some(())
        .ok_or("seventy-one bytes are eighteen words")?;
    Ok(())
}
