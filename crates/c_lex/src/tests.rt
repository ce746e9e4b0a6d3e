use crate::tokens;
use c_cut::Token;
use std::test::Fail;

fn is_token(token: &Token, kind: &str, text: &str) -> bool {
    match token {
        Token::Word(bytes) => kind == "word" && bytes.as_slice() == text.as_bytes(),
        Token::Str(bytes) => kind == "string" && bytes.as_slice() == text.as_bytes(),
        Token::Character(bytes) => kind == "character" && bytes.as_slice() == text.as_bytes(),
        Token::Sign(bytes) => kind == "sign" && bytes.as_slice() == text.as_bytes(),
        Token::HeaderName(bytes) => kind == "header" && bytes.as_slice() == text.as_bytes(),
        Token::LineEnd => kind == "end" && text.is_empty(),
        Token::Other(byte) => kind == "other" && text.as_bytes() == [*byte].as_slice(),
    }
}

// Texts and their tokens (ISO/IEC 9899:2011 6.4).
#[test]
fn tokens_of_texts(rt: HostRuntime) -> Result<(), Fail> {
    let rows: [(&str, &[(&str, &str)]); 12] = [
        ("", &[]),
        (
            "int x_1=42;",
            &[
                ("word", "int"),
                ("word", "x_1"),
                ("sign", "="),
                ("word", "42"),
                ("sign", ";"),
            ],
        ),
        (
            "a->b==c<<=d",
            &[
                ("word", "a"),
                ("sign", "->"),
                ("word", "b"),
                ("sign", "=="),
                ("word", "c"),
                ("sign", "<<="),
                ("word", "d"),
            ],
        ),
        (
            "x=>y",
            &[("word", "x"), ("sign", "="), ("sign", ">"), ("word", "y")],
        ),
        (
            "a-- -b",
            &[("word", "a"), ("sign", "--"), ("sign", "-"), ("word", "b")],
        ),
        ("\"a\\\"b\"'c'", &[("string", "a\\\"b"), ("character", "c")]),
        (
            "#include <Python.h>\n#define A\nB",
            &[
                ("sign", "#"),
                ("word", "include"),
                ("header", "Python.h"),
                ("end", ""),
                ("sign", "#"),
                ("word", "define"),
                ("word", "A"),
                ("end", ""),
                ("word", "B"),
            ],
        ),
        (
            "#include \"s.h\"",
            &[
                ("sign", "#"),
                ("word", "include"),
                ("string", "s.h"),
                ("end", ""),
            ],
        ),
        (
            "#include <a\nb",
            &[
                ("sign", "#"),
                ("word", "include"),
                ("other", "<"),
                ("end", ""),
                ("word", "b"),
            ],
        ),
        ("\"ab\ncd", &[("other", "\""), ("word", "cd")]),
        ("\"a\\", &[("other", "\"")]),
        ("@x<", &[("other", "@"), ("word", "x"), ("sign", "<")]),
    ];
    for (text, wanted) in rows.iter() {
        let found = tokens(rt.alloc(), text.as_bytes())?;
        assert_eq!(rt; found.len(), wanted.len(), "{text}");
        for (token, (kind, bytes)) in found.iter().zip(wanted.iter()) {
            assert!(rt; is_token(token, kind, bytes), "{text}: {kind} {bytes}");
        }
    }
    Ok(())
}
