//! Each call once, on a switch's line as `ibnetdiscover` writes it, and on a line of a plan text.
use super::*;
use std::test::Fail;

const TEXT: &[u8] =
    b"Switch\t40 \"S-0c42a10300aa0012\"\t\t# \"core \"1\"\" base port 0 lid 3\r\n\nlmc 0";

#[test]
fn reads_a_text(rt: HostRuntime) {
    let (start, end, next) = (0, 62, 64);
    assert_eq!(rt; next_line(TEXT, 0), Some(Line { start, end, next }));
    assert_eq!(rt; next_line(TEXT, 70), None);
    let line = &TEXT[..62];
    assert_eq!(rt; word(line, 6), Some(Span { start: 7, end: 9 }));
    assert_eq!(rt; read_dec(line, 7), Some((40, 9)));
    assert_eq!(rt; read_quoted(line, 10), Some(Span { start: 11, end: 29 }));
    assert_eq!(rt; read_hex(line, 13), Some((0x0c42_a103_00aa_0012, 29)));
    assert_eq!(rt; read_desc(line, 34), Some(Span { start: 35, end: 43 }));
    assert!(rt; is_blank(line[6]));
}

#[test]
fn pushes_numbers(rt: HostRuntime) -> Result<(), Fail> {
    let mut text = b"0x".to_vec(rt.alloc())?;
    push_hex16(&mut text, 0x0c42_a103_00aa_0012)?;
    push_hex4(&mut text, 0xbEEF)?;
    text.push(b' ')?;
    push_port3(&mut text, 7)?;
    push_two(&mut text, 9)?;
    push_dec(&mut text, u64::MAX)?;
    let wanted = b"0x0c42a10300aa0012beef 0070918446744073709551615".as_slice();
    assert_eq!(rt; text.as_slice(), wanted);
    Ok(())
}
