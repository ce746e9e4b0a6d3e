ghost use Rattle.std.specs.Prelude.{◌≡◌, ◌≢◌, ◌↔◌, ◌==◌, ◌<◌, ℕ, List, [], ◌∷◌, ◌++◌, length, map, codes, string_bytes, slice_index, All, IsTrue, IfSome, IfNone};
ghost use Rattle.std.specs.List.{after_last};
ghost use Rattle.thin_source.specs.Thin.{is_name_byte, is_name_start};
ghost use Rattle.thin_source.specs.Thin.{IsIdentifier};
ghost use Rattle.cyc_top.specs.Command.{IsSourceWord, IsBuild, module_of, stem_of};

/// A command of the program.
#[derive(Clone, Copy)]
pub struct Build<'a> {
    /// The word that names the file of sources.
    pub word: &'a [u8],
    /// The name of its module.
    pub module: &'a [u8],
}

fn file_name(path: &[u8]) -> &[u8]
    ensures { result.now ≡ after_last (λ byte. byte == 47) path.entry.now }
{
    let mut start = path.len();
    while start > 0 {
        if path[start - 1] == b'/' {
            return &path[start..];
        }
        start -= 1;
    }
    path
}

fn is_identifier(name: &[u8]) -> bool
    ensures { IsTrue result ↔ IsIdentifier name.now }
{
    match name.first() {
        Some(first) => {
            (first.is_ascii_alphabetic() || *first == b'_')
                && name
                    .iter()
                    .all(|byte| byte.is_ascii_alphanumeric() || *byte == b'_')
        }
        None => false,
    }
}

fn stem(word: &[u8]) -> Option<&[u8]>
    ensures found { IfSome result (λ stem. (stem.now ≡ stem_of word.entry.now)
        × (word.entry.now ≡ stem_of word.entry.now ++ codes ".pyx")) }
    ensures none { IfNone result (¬ (word.entry.now ≡ stem_of word.entry.now ++ codes ".pyx")) }
{
    word.strip_suffix(b".pyx")
}

fn source_module(word: &[u8]) -> Option<&[u8]>
    ensures found { IfSome result
        (λ name. IsSourceWord word.entry.now × (name.now ≡ module_of word.entry.now)) }
    ensures none { IfNone result (¬ IsSourceWord word.entry.now) }
{
    let name = file_name(stem(word)?);
    if word[0] != b'-' && is_identifier(name) {
        Some(name)
    } else {
        None
    }
}

fn file_word(words: &[String]) -> Option<&[u8]>
    ensures found { IfSome result
        (λ word. map string_bytes words.entry.now ≡ codes "build" ∷ word.now ∷ []) }
    ensures none { IfNone result ((word : List ℕ)
        → map string_bytes words.entry.now ≢ codes "build" ∷ word ∷ []) }
{
    match words {
        [name, file] => {
            if name.as_str() == "build" {
                Some(file.as_bytes())
            } else {
                None
            }
        }
        _ => None,
    }
}

/// The command that the words are, if they are one: `build` and a file of sources.
pub fn command(words: &[String]) -> Option<Build<'_>>
    ensures found { IfSome result (λ build. IsBuild (map string_bytes words.entry.now) build.word.now
        × (build.module.now ≡ module_of build.word.now)) }
    ensures none { IfNone result
        ((word : List ℕ) → ¬ IsBuild (map string_bytes words.entry.now) word) }
{
    let word = file_word(words)?;
    let module = source_module(word)?;
    Some(Build { word, module })
}
