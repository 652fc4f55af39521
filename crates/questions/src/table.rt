// The table of a question: its numbers as the line gives them.
ghost use Rattle.std.specs.Prelude.{IfSome};
ghost use Rattle.questions.specs.Bounds.{InTable};

// A question's table has at most so many numbers.
pub const MOST_ASKED: usize = 36_000;

// NUMBERS: so many numbers, each 2^64-1. How many the table then has, where the word tells it.
pub fn filled(word: &[u8], table: &mut [u64; MOST_ASKED]) -> Option<usize>
    ensures { IfSome result InTable }
{
    let count = words::decimal(word)?;
    if (MOST_ASKED as u64) < count {
        return None;
    }
    let n = count as usize;
    table[..n].fill(u64::MAX);
    Some(n)
}

// `N,N,..`: the numbers themselves, or `-` for none. How many the table then has, where the word tells them.
pub fn listed(word: &[u8], table: &mut [u64; MOST_ASKED]) -> Option<usize>
    ensures { IfSome result InTable }
{
    if word == b"-".as_slice() {
        return Some(0);
    }
    let n = word.split(|b| *b == b',').count();
    let room = table.get_mut(..n)?;
    for (number, part) in room.iter_mut().zip(word.split(|b| *b == b',')) {
        *number = words::decimal(part)?;
    }
    Some(n)
}
