// The form that a line has. Forms are written as a line is: a word is that word, a number stands for a number up to it, `HH` for a byte
// as an upper-case hexadecimal pair, and `..` at the end for a list; `|` stands between forms.
ghost use Rattle.std.specs.Prelude.{◌≡◌};
ghost use Rattle.script.specs.Forms.{no_numbers, with_number, with_field, is_list, fitting, formed, named, read_of, first_of, line_of};

use crate::fields;
use crate::fields::Field;

// The most numbers of a line.
pub const MOST: usize = 12;

// A line by its form: the form's number, the place where its list begins, and its numbers with zeros behind them. The form's number is
// that of all forms where the line has none.
// Kept: `read` is a public function that cannot fail, and its clause `line_of` gives every line a number.
#[derive(Clone, Copy)]
pub struct Line {
    pub form: usize,
    pub list: usize,
    pub numbers: [u32; MOST],
}

// Where the list of a line begins, and its numbers.
#[derive(Clone, Copy)]
pub(crate) struct Reading {
    pub(crate) list: usize,
    pub(crate) numbers: [u32; MOST],
}

// The numbers that were read, and how many.
// Kept: the array with zeros behind is what is answered; out of an `ArrayVec` it would have to be copied.
#[derive(Clone, Copy)]
pub(crate) struct Numbers {
    pub(crate) values: [u32; MOST],
    pub(crate) count: usize,
}

impl Numbers {
    // No numbers.
    fn none() -> Numbers
        ensures { result ≡ no_numbers }
    {
        Numbers {
            values: [0; MOST],
            count: 0,
        }
    }

    // The numbers with that of one field more.
    fn with(self, field: Field) -> Numbers
        ensures { result ≡ with_field field self }
    {
        match field {
            Field::Word => self,
            Field::Number(v) => self.with_number(v),
        }
    }

    // The numbers with one more; one for which there is no room is left out.
    fn with_number(self, v: u32) -> Numbers
        ensures { result ≡ with_number v self }
    {
        let at = self.count;
        if MOST <= at {
            return self;
        }
        let mut values = self.values;
        values[at] = v;
        Numbers {
            values,
            count: at + 1,
        }
    }
}

// Reads a line as the first of some forms that it has.
pub fn read(line: &[u8], forms: &[u8]) -> Line
    ensures { result ≡ line_of forms.now line.now }
{
    // Kept: of a line that has no form the number of forms is told, which an `enumerate` has no longer behind the loop; for a `count` the forms
    // would be split twice.
    let mut k: usize = 0;
    for form in forms.split(|c| *c == b'|') {
        if let Some(read) = read_as(line, form) {
            return with_form(k, read);
        }
        k += 1;
    }
    Line {
        form: k,
        list: 0,
        numbers: [0; MOST],
    }
}

// Reads a line as the first of some forms that it has, each with its name beside it; none where it has none of them.
pub fn first<F: Copy>(line: &[u8], forms: &[(&[u8], F)]) -> Option<(F, Line)>
    ensures { result ≡ first_of (named forms.now) line.now }
{
    for (k, (form, name)) in forms.iter().enumerate() {
        if let Some(read) = read_as(line, form) {
            return Some((*name, with_form(k, read)));
        }
    }
    None
}

// What was read, with the number of its form.
fn with_form(k: usize, read: Reading) -> Line
    ensures { result ≡ formed k (Some read) }
{
    let Reading { list, numbers } = read;
    Line {
        form: k,
        list,
        numbers,
    }
}

// Reads a line as one form, field by field, if it has that form.
fn read_as(line: &[u8], form: &[u8]) -> Option<Reading>
    ensures { result ≡ read_of form.now line.now }
{
    let mut numbers = Numbers::none();
    let mut place: usize = 0;
    let space = |c: &u8| *c == b' ';
    let mut fields = line.split(space);
    for part in form.split(space) {
        if is_list(part) {
            return Some(fitting(place, numbers));
        }
        let field = fields.next()?;
        numbers = numbers.with(fields::read(field, part)?);
        place += field.len() + 1;
    }
    if fields.next().is_some() {
        return None;
    }
    Some(fitting(place, numbers))
}

// Whether a field of a form stands for a list.
fn is_list(form: &[u8]) -> bool
    ensures { result ≡ is_list form.now }
{
    matches!(form, [b'.', ..])
}

// What was read of a line whose list begins at a place.
fn fitting(list: usize, numbers: Numbers) -> Reading
    ensures { Some result ≡ fitting list numbers }
{
    let values = numbers.values;
    Reading {
        list,
        numbers: values,
    }
}
