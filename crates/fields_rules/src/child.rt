// The rows below a master, and one of its direct children.
use elements_rules::Row;

// The rows below a master: rows `parent` up to before `end`, where `parent` is the master's row number plus 1, or 0 for
// the payload that was read: the number by which the rows themselves name their parent.
#[derive(Clone, Copy)]
pub struct Below {
    pub parent: usize,
    pub end: usize,
}
