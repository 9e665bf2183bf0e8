//! The words that are no identifiers.

ghost use Rattle.std.specs.Prelude.{◌≡◌, map, nat_eq};
ghost use Rattle.std.specs.List.{list_any};
ghost use Rattle.std.specs.Cmp.Lexicographic.{pointwise};
ghost use Rattle.ix_annot.specs.Texts as spec;

/// The keywords of JLS 3.9, and `true`, `false` and `null`.
const WORDS: [&[u8]; 53] = [
    b"abstract",
    b"assert",
    b"boolean",
    b"break",
    b"byte",
    b"case",
    b"catch",
    b"char",
    b"class",
    b"const",
    b"continue",
    b"default",
    b"do",
    b"double",
    b"else",
    b"enum",
    b"extends",
    b"final",
    b"finally",
    b"float",
    b"for",
    b"goto",
    b"if",
    b"implements",
    b"import",
    b"instanceof",
    b"int",
    b"interface",
    b"long",
    b"native",
    b"new",
    b"package",
    b"private",
    b"protected",
    b"public",
    b"return",
    b"short",
    b"static",
    b"strictfp",
    b"super",
    b"switch",
    b"synchronized",
    b"this",
    b"throw",
    b"throws",
    b"transient",
    b"try",
    b"void",
    b"volatile",
    b"while",
    b"true",
    b"false",
    b"null",
];

fn is_text(mut fixed: &[u8], mut text: &[char]) -> bool
    ensures { result ≡ pointwise nat_eq fixed.entry.now text.entry.now }
{
    while let [byte, bytes @ ..] = fixed {
        match text {
            [] => return false,
            [c, rest @ ..] => {
                if char::from(*byte) != *c {
                    return false;
                }
                fixed = bytes;
                text = rest;
            }
        }
    }
    text.is_empty()
}

fn is_among(mut words: &[&[u8]], text: &[char]) -> bool
    ensures { result ≡ list_any (λ word. pointwise nat_eq word text.now) (map (λ word. word.now) words.entry.now) }
{
    while let [word, rest @ ..] = words {
        if is_text(word, text) {
            return true;
        }
        words = rest;
    }
    false
}

#[tactic(auto, unfolding(ix_lexer::specs::Fixed::words))]
pub fn is_word(text: &[char]) -> bool
    ensures { result ≡ spec.is_word text.now }
{
    is_among(&WORDS, text)
}
