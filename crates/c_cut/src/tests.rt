use crate::{Token, cut};
use c_token::Bytes;
use std::alloc::{AllocError, Global};
use std::test::Fail;

// The tokens of words and signs with blanks between them.
fn tokens(alloc: Global, text: &str) -> Result<Vec<Token>, AllocError> {
    let mut tokens = Vec::new(alloc);
    for word in text.split(' ') {
        let bytes = Bytes::new(Vec::from_slice(alloc, word.as_bytes())?);
        tokens.push(match word {
            "LINE" => Token::LineEnd,
            "{" | "}" | "(" | ")" | ";" | "," | "=" | "*" => Token::Sign(bytes),
            _ => Token::Word(bytes),
        })?;
    }
    Ok(tokens)
}

// How many tokens each item has.
#[test]
fn items_of_a_file(rt: HostRuntime) -> Result<(), Fail> {
    let rows: [(&str, &[usize]); 7] = [
        ("include LINE int a ;", &[2, 3]),
        ("int f ( void ) { a ; { b ; } } int c ;", &[13, 3]),
        ("struct s { int a ; int b ; } ;", &[11]),
        ("int t = { 1 , 2 } ; int u ;", &[9, 3]),
        ("int f ( void ) ; int g ( void ) { }", &[6, 7]),
        ("int f ( void ) { a", &[7]),
        ("}", &[1]),
    ];
    for (text, wanted) in rows.iter() {
        let items = cut(rt.alloc(), tokens(rt.alloc(), text)?)?;
        assert_eq!(rt; items.len(), wanted.len(), "{text}");
        for (item, count) in items.as_slice().iter().zip(wanted.iter()) {
            assert_eq!(rt; item.len(), *count, "{text}");
        }
    }
    Ok(())
}
