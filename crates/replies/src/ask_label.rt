// `label RANGE LABEL BYTES`: the label of a boot stage.
use answers::answer::bad;
use labels::stage_label;
use lines::out::Out;
use questions::asked::Asked;

// `word` is LABEL, which is spelt into room of its own.
pub fn label(asked: Asked, word: &[u8], recording: &[u8], out: &mut Out) {
    let mut room = [0u8; 65536];
    match words::spell(word, &mut room) {
        Some(length) => label_told(asked, recording, &room, length, out),
        None => bad(out),
    }
}

// `label HEX`. No label is longer than its room.
fn label_told(asked: Asked, recording: &[u8], whole: &[u8], length: usize, out: &mut Out) {
    if whole.len() < length {
        return bad(out);
    }
    let shown = stage_label(recording, asked.range, &whole[..length]);
    out.put_bytes(b"label ", shown);
}
