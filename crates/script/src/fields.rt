// The fields of a line, each read as its form says.
ghost use Rattle.std.specs.Prelude.{◌≡◌};
ghost use Rattle.script.specs.Fields.{field_of, decimal_field, pair_field};

use buslog::pairs;

// What a field is: the word that the form has, or a number.
// Kept: `read` answers an Option of it, and in an Option of an Option a word would be one more none.
#[derive(Clone, Copy)]
pub(crate) enum Field {
    Word,
    Number(u32),
}

// Reads a field as its form says, if it is so: a byte, a number up to the form's, or the same word.
pub(crate) fn read(field: &[u8], form: &[u8]) -> Option<Field>
    ensures { result ≡ field_of form.now field.now }
{
    let first = *form.first()?;
    if first == b'H' {
        return Some(Field::Number(byte(field)? as u32));
    }
    if first.is_ascii_digit() {
        let limit = decimal(form, u32::MAX)?;
        return Some(Field::Number(decimal(field, limit)?));
    }
    if field == form {
        Some(Field::Word)
    } else {
        None
    }
}

// Reads one decimal digit or more, up to a limit.
// Kept: `str::parse` reads a sign too, and asks for a text where a field is bytes.
pub(crate) fn decimal(field: &[u8], limit: u32) -> Option<u32>
    ensures { result ≡ decimal_field limit field.now }
{
    if field.is_empty() {
        return None;
    }
    let mut value: u64 = 0;
    for c in field {
        if !c.is_ascii_digit() {
            return None;
        }
        value = 10 * value + (c - b'0') as u64;
        if (limit as u64) < value {
            return None;
        }
    }
    Some(value as u32)
}

// Reads a byte: an upper-case hexadecimal pair.
pub(crate) fn byte(field: &[u8]) -> Option<u8>
    ensures { result ≡ pair_field field.now }
{
    let [high, low] = field else {
        return None;
    };
    pairs::byte(*high, *low)
}
