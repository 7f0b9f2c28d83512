use crate::Text;
use std::test::Fail;

#[test]
fn a_text_holds_what_is_pushed(rt: HostRuntime) -> Result<(), Fail> {
    let mut text = Text::new(rt.alloc());
    assert_eq!(rt; text.len(), 0);
    text.push('a')?;
    text.push('é')?;
    assert_eq!(rt; text.len(), 2);
    assert_eq!(rt; text.get(1), Some('é'));
    assert_eq!(rt; text.get(2), None);
    assert_eq!(rt; text.as_slice(), ['a', 'é'].as_slice());
    Ok(())
}
