// A word of a command as an id: a number from 0 to 4,294,967,295, in decimal as lists have it, and nothing else.
#![tactic(auto)]

ghost use Rattle.std.specs.Prelude.{◌≡◌};
ghost use Rattle.words.specs.Id.{same as same_of, one_more as one_more_of, number_in, told, id_of, asked as asked_of};

// The number behind so much of a word, with one more byte as a digit, where it is below 2^32.
fn one_more(n: u32, b: u8) -> Option<u32>
    ensures { result ≡ one_more_of n b }
{
    n.checked_mul(10)?
        .checked_add(u32::from(b.saturating_sub(b'0')))
}

// The number that a word's bytes stand for as digits, where it is below 2^32.
fn value_of(word: &[u8]) -> Option<u32>
    ensures { result ≡ number_in word.now }
{
    let mut n: u32 = 0;
    for b in word {
        n = one_more(n, *b)?;
    }
    Some(n)
}

// Whether two texts are the same.
// Stays a function around `==`: `same`, by which the id of a word is defined, is said of it here once.
fn same(a: &[u8], b: &[u8]) -> bool
    ensures { result ≡ same_of a.now b.now }
{
    a == b
}

// The id that a word is. A word is the decimal of its id, so it is put down again and compared: no sign, no space and no needless zero comes through.
pub fn id_of(word: &[u8]) -> Option<u32>
    ensures { told result ≡ id_of word.now }
{
    let id = value_of(word)?;
    let mut digits = [0u8; 10];
    let k = text::put_decimal(&mut digits, 0, id)?;
    if same(text::front(&digits, k), word) {
        return Some(id);
    }
    None
}

// What a command with so many words, its own name among them, is asked for, where this is the word behind its name.
pub fn asked(count: usize, word: &[u8]) -> Option<u32>
    ensures { told result ≡ asked_of count word.now }
{
    if count == 2 {
        return id_of(word);
    }
    None
}
