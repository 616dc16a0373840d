//! Words of a line, a space before each.
ghost use Rattle.std.specs.Prelude.{◌≡◌, ◌∷◌, ◌++◌, [], map, decimal, OnOk};
ghost use Rattle.std.specs.Fmt.{signed_decimal};
ghost use Rattle.strat_text.specs.Spelled.{spaced};
ghost use Rattle.cert_text.specs.TermLines.{name_text};

use itoa::Buffer;
use qterm::Name;
use std::alloc::AllocError;
use symbol_text::push_symbol;

/// Adds a text as it is.
pub(crate) fn put(text: &mut Vec<u8>, more: &[u8]) -> Result<(), AllocError>
    ensures { OnOk result (text.new.items ≡ text.old.items ++ more.now) }
{
    text.extend_from_slice(more)
}

/// Adds a word.
pub(crate) fn push_word(text: &mut Vec<u8>, word: &[u8]) -> Result<(), AllocError>
    ensures { OnOk result (text.new.items ≡ text.old.items ++ spaced (word.now ∷ [])) }
{
    text.push(b' ')?;
    text.extend_from_slice(word)
}

/// Adds a numeral.
pub(crate) fn push_count(text: &mut Vec<u8>, count: u32) -> Result<(), AllocError>
    ensures { OnOk result (text.new.items ≡ text.old.items ++ spaced (decimal count ∷ [])) }
{
    let mut buffer = Buffer::new();
    push_word(text, buffer.format(count).as_bytes())
}

/// Adds a length.
pub(crate) fn push_length(text: &mut Vec<u8>, length: usize) -> Result<(), AllocError>
    ensures { OnOk result (text.new.items ≡ text.old.items ++ spaced (decimal length ∷ [])) }
{
    let mut buffer = Buffer::new();
    push_word(text, buffer.format(length as u64).as_bytes())
}

/// Adds an integer, with its sign where it is negative.
pub(crate) fn push_integer(text: &mut Vec<u8>, number: i128) -> Result<(), AllocError>
    ensures { OnOk result (text.new.items ≡ text.old.items ++ spaced (signed_decimal number ∷ [])) }
{
    let mut buffer = Buffer::new();
    push_word(text, buffer.format(number).as_bytes())
}

/// Adds a name.
pub(crate) fn push_name(text: &mut Vec<u8>, name: &Name) -> Result<(), AllocError>
    ensures { OnOk result (text.new.items ≡ text.old.items ++ spaced (name_text name.now ∷ [])) }
{
    text.push(b' ')?;
    push_symbol(text, name.text())
}

/// Adds numerals.
pub(crate) fn push_counts(text: &mut Vec<u8>, counts: &[u32]) -> Result<(), AllocError>
    ensures { OnOk result (text.new.items ≡ text.old.items ++ spaced (map decimal counts.now)) }
{
    for count in counts {
        push_count(text, *count)?;
    }
    Ok(())
}

/// Adds names.
pub(crate) fn push_names(text: &mut Vec<u8>, names: &[Name]) -> Result<(), AllocError>
    ensures { OnOk result (text.new.items ≡ text.old.items ++ spaced (map name_text names.now)) }
{
    for name in names {
        push_name(text, name)?;
    }
    Ok(())
}
