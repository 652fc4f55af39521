// `part ID NUMBERS BYTES`: a part of a recording, found by the search and read into a table.
use answers::told::{Ending, Told};
use questions::asked::Asked;

// `absent` or `at A size S`, how many seek heads were read, and TABLE.
pub fn part(asked: Asked, recording: &[u8], table: &mut [u64]) -> Told {
    match search::find_part(recording, asked.live, asked.id, table) {
        Ok((Some(part), heads)) => Told::new(Ending::Rows(part.rows))
            .with(1, part.at)
            .with(2, part.size)
            .with(3, heads),
        Ok((None, heads)) => Told::new(Ending::Rows(0)).word(0).with(3, heads),
        Err(refusal) => Told::new(Ending::Unread(refusal)),
    }
}
