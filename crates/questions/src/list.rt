// A question's line in the list of questions, which has its name, its form, and the words of its answer.
ghost use Rattle.std.specs.Prelude.{◌≡◌, IfSome, Some};
ghost use Rattle.std.specs.List.{slice_get};
ghost use Rattle.words.specs.Words.{word_of};
ghost use Rattle.questions.specs.Bounds.{lines_of};

// A question's number, counted from 0, and its line.
#[derive(Clone, Copy)]
pub struct Entry<'a> {
    pub number: usize,
    pub line: &'a [u8],
}

// The line of the question of that name.
pub fn entry_of<'a>(list: &'a [u8], name: &[u8]) -> Option<Entry<'a>>
    ensures named { IfSome result (λ e. word_of 0 e.line.now ≡ name.now) }
    ensures in_list { IfSome result (λ e. slice_get (lines_of list.now) e.number ≡ Some e.line.now) }
{
    for (number, line) in list.split(|b| *b == b'\n').enumerate() {
        if words::word(line, 0) == name {
            return Some(Entry { number, line });
        }
    }
    None
}
