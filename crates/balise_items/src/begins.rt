//! Whether a line begins an item.

ghost use Rattle.std.specs.Prelude.{◌≡◌};
ghost use Rattle.balise_items.specs.Begins.{begins_item, is_whole_fault, is_whole_number};

use balise_fields::{FieldLine, first_word};

/// Whether a line begins an item, also where it is refused. `line` is what the words of `text` say.
pub fn begins_item(text: &[u8], line: &FieldLine) -> bool
    ensures { result ≡ begins_item text.now line.now }
{
    match line {
        FieldLine::Telegram(_) | FieldLine::Alone(_) => true,
        FieldLine::Other => is_whole_fault(text),
        _ => false,
    }
}

// Whether it is the fault of digits as a whole, which stands alone for them.
fn is_whole_fault(text: &[u8]) -> bool
    ensures { result ≡ is_whole_fault text.now }
{
    let (name, Some(rest)) = first_word(text) else {
        return false;
    };
    let (number, _) = first_word(rest);
    name == b"fault".as_slice() && is_whole_number(number)
}

// Whether it is the number of such a fault.
fn is_whole_number(word: &[u8]) -> bool
    ensures { result ≡ is_whole_number word.now }
{
    word == b"2".as_slice() || word == b"3".as_slice() || word == b"4".as_slice()
}
