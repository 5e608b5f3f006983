// The list that ends a line: its fields begin at a place, each one space behind the field before it.
ghost use Rattle.std.specs.Prelude.{◌≡◌, ℕ, Option, List};
ghost use Rattle.script.specs.Fields.{decimal_field, pair_field};
ghost use Rattle.script.specs.Lists.{Listed, list_at};

use crate::fields;

// What the fields of a list are read as.
pub trait Element: Copy {
    ghost reads: { List ℕ → Option Self };

    // Reads a field.
    fn read(field: &[u8]) -> Option<Self>
        ensures { result ≡ reads field.now };
}

// A byte as an upper-case hexadecimal pair.
impl Element for u8 {
    ghost reads = { pair_field };

    fn read(field: &[u8]) -> Option<u8> {
        fields::byte(field)
    }
}

// A number of 16 bits in decimal.
impl Element for u16 {
    ghost reads = { decimal_field 65535 };

    fn read(field: &[u8]) -> Option<u16> {
        let number = fields::decimal(field, u16::MAX as u32)?;
        Some(number as u16)
    }
}

// A number of 32 bits in decimal.
impl Element for u32 {
    ghost reads = { decimal_field 4294967295 };

    fn read(field: &[u8]) -> Option<u32> {
        fields::decimal(field, u32::MAX)
    }
}

// Reads a list and tells how many fields it has; none where a field is malformed or there is no room for all.
// Kept: line and place apart, here and in `rows`, as public functions take them.
pub fn read<T: Element>(line: &[u8], at: usize, list: &mut [T]) -> Option<usize>
    ensures { Listed 0 (list_at T.reads line.now at) list.old result list.new }
{
    let mut n: usize = 0;
    let mut place = at;
    // Kept: a `for` over a split was tried; in a generic function the check's own text of it (`iterator-loop-field`) is refused.
    while place <= line.len() {
        let end = scan::find(line, place, line.len(), b' ');
        if list.len() <= n {
            return None;
        }
        list[n] = T::read(&line[place..end])?;
        n += 1;
        place = end + 1;
    }
    Some(n)
}
