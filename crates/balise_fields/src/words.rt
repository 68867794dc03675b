//! Splits a line of fields into its first word and at most four words after it.

ghost use Rattle.std.specs.Prelude.{◌≡◌, ◌==◌, ◌∷◌, [], List, MatchOption, position};
ghost use Rattle.balise_text.specs.Words.{words_of, Word};
ghost use Rattle.balise_fields.specs.FewWords.{AreFew};

/// The words after the first, where they are none, one, two or four.
#[derive(Clone, Copy)]
pub(crate) enum Few<'a> {
    Zero,
    One(&'a [u8]),
    Two(&'a [u8], &'a [u8]),
    Four(&'a [u8], &'a [u8], &'a [u8], &'a [u8]),
    Other,
}

// Where a space stands first.
fn find_space(text: &[u8]) -> Option<usize>
    ensures { result ≡ position (λ b. b == 32) text.now }
{
    text.iter().position(|byte| *byte == b' ')
}

/// The first word, and the text after its space, where one stands.
pub fn first_word<'a>(text: &'a [u8]) -> (&'a [u8], Option<&'a [u8]>)
    ensures { MatchOption result.1 (words_of text.now ≡ result.0.now ∷ []) (λ t. words_of text.now ≡ result.0.now ∷ words_of t.now) }
{
    match find_space(text) {
        Some(at) => (&text[..at], Some(&text[at + 1..])),
        None => (text, None),
    }
}

// The words of a text.
fn few_words<'a>(text: &'a [u8]) -> Few<'a>
    ensures { AreFew result (words_of text.now) }
{
    let (a, rest) = first_word(text);
    let Some(rest) = rest else {
        return Few::One(a);
    };
    let (b, rest) = first_word(rest);
    let Some(rest) = rest else {
        return Few::Two(a, b);
    };
    let (c, rest) = first_word(rest);
    let Some(rest) = rest else {
        return Few::Other;
    };
    let (d, rest) = first_word(rest);
    match rest {
        Some(_) => Few::Other,
        None => Few::Four(a, b, c, d),
    }
}

/// The first word of a line, and the words after it.
pub(crate) fn split_line<'a>(line: &'a [u8]) -> (&'a [u8], Few<'a>)
    ensures { (more : List Word) × (words_of line.now ≡ result.0.now ∷ more) × AreFew result.1 more }
{
    let (first, rest) = first_word(line);
    match rest {
        Some(rest) => (first, few_words(rest)),
        None => (first, Few::Zero),
    }
}
