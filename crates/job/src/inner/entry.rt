// What a line of a job says.
use crate::inner::problem::Problem;

// The most bytes of a name.
pub const NAME: usize = 32;

#[derive(Clone, Copy)]
pub enum Entry<'a> {
    Column(&'a [u8]),
    Fill(i64),
    Run { end: i64, value: i64 },
}

// Blanks are spaces, tabs and the carriage return before a line break.
fn is_blank(byte: &u8) -> bool {
    matches!(*byte, b' ' | b'\t' | b'\r')
}

fn is_word(word: &&[u8]) -> bool {
    !word.is_empty()
}

fn is_name_byte(byte: &u8) -> bool {
    matches!(*byte, b'a'..=b'z' | b'A'..=b'Z' | b'0'..=b'9' | b'.' | b'_' | b'-')
}

fn is_name(word: &[u8]) -> bool {
    !word.is_empty() && word.len() <= NAME && word.iter().all(is_name_byte)
}

// The text of a name that ends before the first byte that no name has.
pub fn text_of(name: &[u8]) -> &str {
    let end = name
        .iter()
        .position(|byte| !is_name_byte(byte))
        .unwrap_or(name.len());
    str::from_utf8(&name[..end]).unwrap_or("")
}

// The number that a word is, if it is one of 64 bits.
pub fn number_of(word: &[u8]) -> Option<i64> {
    let mut row = [0i64; 1];
    match text::read(word, &mut row) {
        Ok(1) => Some(row[0]),
        _ => None,
    }
}

// What the words of a line say; nothing where it has none.
pub fn entry_of(line: &[u8]) -> Result<Option<Entry<'_>>, Problem> {
    let mut words = line.split(is_blank).filter(is_word);
    let Some(first) = words.next() else {
        return Ok(None);
    };
    let second = words.next().unwrap_or(b"");
    let whole = words.next().is_none();
    if first == b"column".as_slice() {
        return if whole && is_name(second) {
            Ok(Some(Entry::Column(second)))
        } else {
            Err(Problem::Column)
        };
    }
    if first == b"fill".as_slice() {
        return match number_of(second) {
            Some(fill) if whole => Ok(Some(Entry::Fill(fill))),
            _ => Err(Problem::Fill),
        };
    }
    match (number_of(first), number_of(second)) {
        (Some(end), Some(value)) if whole => Ok(Some(Entry::Run { end, value })),
        _ => Err(Problem::Run),
    }
}
