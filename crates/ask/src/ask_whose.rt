// `whose START SIZE PARENT ADDRESS NUMBERS BYTES`: the row whose header or leaf payload holds an address.
use answers::told::{Ending, Told};
use places_rules::WhoseRow;
use questions::asked::Asked;

// `row R header TABLE` or `row R payload TABLE`
pub fn whose(asked: Asked, recording: &[u8], table: &mut [u64]) -> Told {
    let reply = places::whose_byte(
        recording,
        asked.live,
        asked.at,
        asked.size,
        asked.parent,
        asked.address,
        table,
    );
    match reply {
        Ok(WhoseRow::Header { row, rows }) => Told::new(Ending::Rows(rows)).with(0, row).word(1),
        Ok(WhoseRow::Payload { row, rows }) => Told::new(Ending::Rows(rows)).with(0, row).word(2),
        Err(refusal) => Told::new(Ending::Unread(refusal)),
    }
}
