// The answer to `open` as text: a part with its table, or a refusal with five tables.
use crate::answer::put_refused;
use crate::rows;
use lines::out::Out;
use refusals::Refusal;

// ` absent TABLE`
pub fn put_absent(table: &[u64], out: &mut Out) {
    out.put(b" absent rows");
    rows::put_rows(0, true, table, out);
}

// ` at A size S TABLE`
pub fn put_found(at: u64, size: u64, rows: u64, table: &[u64], out: &mut Out) {
    out.print(format_args!(" at {at} size {size} rows"));
    rows::put_rows(rows, true, table, out);
}

// `refused N at A tables 0`, or `.. tables dirty` where a number of a table is not 0.
pub fn put_unopened(
    refusal: Refusal,
    info: &[u64],
    tracks: &[u64],
    attachments: &[u64],
    chapters: &[u64],
    tags: &[u64],
    out: &mut Out,
) {
    put_refused(refusal, out);
    let tables = [info, tracks, attachments, chapters, tags];
    let clear = tables.iter().all(|table| rows::is_clear(table));
    rows::put_clear(b" tables ", clear, out);
}
