use crate::{OutOfMemory, Phase, Refusal, Rule, Stop, Text, TextStop};
use std::process::Abort;
use std::test::Fail;

fn assert_text(rt: &(impl Abort + AllocGlobal), bytes: &[u8], breaks: Option<u32>) {
    assert!(rt; bytes.len() < 64);
    match (Text::from_bytes(rt.alloc(), bytes), breaks) {
        (Ok(text), None) => assert_eq!(rt; text.bytes(), bytes),
        (Err(TextStop::NotUtf8 { offset }), Some(at)) => assert_eq!(rt; offset, at),
        _ => assert!(rt; false, "another answer"),
    }
}

// The bytes, and where they stop being UTF-8, as Python's strict decoder answers.
#[test]
fn bytes_are_texts_where_they_are_utf8(rt: HostRuntime) -> Result<(), Fail> {
    let table: [(&[u8], Option<u32>); 44] = [
        (b"", None),
        (b"a", None),
        (b"abc\x0a", None),
        (b"a\xff", Some(1)),
        (b"\x80", Some(0)),
        (b"\xc3\xa9", None),
        (b"\xc3", Some(0)),
        (b"a\xc3", Some(1)),
        (b"\xc3(", Some(0)),
        (b"\xc0\x80", Some(0)),
        (b"\xc1\xbf", Some(0)),
        (b"\xc2\x80", None),
        (b"\xdf\xbf", None),
        (b"\xe0\x80\x80", Some(0)),
        (b"\xe0\x9f\xbf", Some(0)),
        (b"\xe0\xa0\x80", None),
        (b"\xe2\x82\xac", None),
        (b"ab\xe2\x82", Some(2)),
        (b"\xe2", Some(0)),
        (b"\xe2(\xa1", Some(0)),
        (b"\xed\x9f\xbf", None),
        (b"\xed\xa0\x80", Some(0)),
        (b"\xed\xbf\xbf", Some(0)),
        (b"\xee\x80\x80", None),
        (b"\xef\xbf\xbd", None),
        (b"\xef\xbf\xbe", None),
        (b"\xef\xbf\xbf", None),
        (b"\xef\xb7\x90", None),
        (b"\xef\xbb\xbfa", None),
        (b"\xf0\x80\x80\x80", Some(0)),
        (b"\xf0\x8f\xbf\xbf", Some(0)),
        (b"\xf0\x90\x80\x80", None),
        (b"\xf0\x9f\x98\x80", None),
        (b"x\xf0\x9f\x98", Some(1)),
        (b"\xf0\x9f", Some(0)),
        (b"\xf0", Some(0)),
        (b"\xf4\x8f\xbf\xbf", None),
        (b"\xf4\x90\x80\x80", Some(0)),
        (b"\xf5\x80\x80\x80", Some(0)),
        (b"\xf8\x88\x80\x80\x80", Some(0)),
        (b"\xfe", Some(0)),
        (b"\xc3\xa9\xf0\x9f\x98\x80a\xfeb", Some(7)),
        (b"\xed\xa0\xbd\xed\xb8\x80", Some(0)),
        (b"\x00a", None),
    ];
    for (bytes, breaks) in table {
        assert_text(&rt, bytes, breaks);
    }
    Ok(())
}

#[test]
fn texts_compare_by_their_bytes(rt: HostRuntime) -> Result<(), Fail> {
    let text = Text::from_str(rt.alloc(), "né")?;
    let same = Text::from_utf8(rt.alloc(), b"n\xc3\xa9")?;
    let other = Text::from_string(String::from_str(rt.alloc(), "n")?);
    assert!(rt; text == same);
    assert!(rt; text != other);
    assert!(rt; other != text);
    assert_eq!(rt; text.copied(rt.alloc())?.as_str(), "né");
    Ok(())
}

// Want of memory becomes the variant of its own.
#[test]
fn want_of_memory_stops(rt: HostRuntime) -> Result<(), Fail> {
    let refused = Stop::Refused(Refusal {
        rule: Rule {
            phase: Phase::Lex,
            number: 1,
        },
        file: 0,
        offset: 7,
    });
    assert_eq!(rt; Stop::from(OutOfMemory), Stop::Memory);
    assert!(rt; refused != Stop::Memory);
    assert_eq!(rt; TextStop::from(OutOfMemory), TextStop::Memory);
    Ok(())
}
