// The rows below a master, and its direct children among them: the last of an id and kind, the k-th, and how many.
ghost use Rattle.std.specs.Prelude.{◌≡◌, ◌≤◌, length};
ghost use Rattle.fields_rules.specs.Children.{rows_in, fits, children, last_of, nth_of};
ghost use Rattle.fields_rules.specs.Contract.{Within, BelowIs, Ordered};

use elements_rules::Row;
use fields_rules::Below;
use kinds::Kind;
use rowstore::row_at;

// The rows that a master's row jumps over; all rows for the payload that was read.
pub fn rows_below(table: &[u64], rows: usize, parent: usize) -> Below
    requires { Ordered table.now rows × (parent ≤ rows) }
    ensures { BelowIs table.now rows parent result }
{
    if parent == 0 {
        return Below { parent, end: rows };
    }
    let master = row_at(table, parent - 1);
    Below {
        parent,
        end: master.after as usize,
    }
}

// Whether a row is a direct child of a master, of this id and kind.
pub fn is_child(row: Row, parent: usize, id: u32, kind: Kind) -> bool
    ensures { result ≡ fits parent id kind row }
{
    if row.parent != parent as u64 {
        return false;
    }
    if row.id != id as u64 {
        return false;
    }
    row.kind == kind.number()
}

// The direct children of a master of one id and kind, in order: the number of each one's row, and the row.
#[derive(Clone, Copy)]
pub struct Children<'a> {
    table: &'a [u64],
    master: Below,
    id: u32,
    kind: Kind,
    // The row that is looked at next.
    next: usize,
    ghost within: { Within table.now master },
    ghost low: { master.parent ≤ next },
    ghost high: { next ≤ master.end },
}

impl<'a> Children<'a> {
    ghost use Rattle.children.specs.Left.{left};

    pub fn of(table: &'a [u64], master: Below, id: u32, kind: Kind) -> Children<'a>
        requires { Within table.now master }
        ensures { left result ≡ children master.parent id kind (rows_in table.now master) }
    {
        Children {
            table,
            master,
            id,
            kind,
            next: master.parent,
        }
    }
}

impl<'a> Iterator for Children<'a> {
    ghost use Rattle.children.specs.Left.{left};
    ghost use Rattle.std.specs.Prelude.{Some};
    ghost use Rattle.std.specs.Iterator.{YieldsFirstBy, item_count};

    type Item = (usize, Row);

    ghost next_gives = { YieldsFirstBy (λ c. Some c) left };

    ghost remaining = { item_count left };

    fn next(&mut self) -> Option<(usize, Row)> {
        while self.next < self.master.end {
            let n = self.next;
            let row = row_at(self.table, n);
            self.next = row.after as usize;
            if is_child(row, self.master.parent, self.id, self.kind) {
                return Some((n, row));
            }
        }
        None
    }
}

// The last direct child of an id and kind.
pub fn last_child(table: &[u64], master: Below, id: u32, kind: Kind) -> Option<(usize, Row)>
    requires { Within table.now master }
    ensures { result ≡ last_of (children master.parent id kind (rows_in table.now master)) }
{
    Children::of(table, master, id, kind).last()
}

// The k-th direct child of an id and kind, counted from 0.
pub fn nth_child(table: &[u64], master: Below, id: u32, kind: Kind, k: u64) -> Option<(usize, Row)>
    requires { Within table.now master }
    ensures { result ≡ nth_of k (children master.parent id kind (rows_in table.now master)) }
{
    Children::of(table, master, id, kind).nth(k as usize)
}

// How many direct children of an id and kind there are.
pub fn count_children(table: &[u64], master: Below, id: u32, kind: Kind) -> u64
    requires { Within table.now master }
    ensures { result ≡ length (children master.parent id kind (rows_in table.now master)) }
{
    Children::of(table, master, id, kind).count() as u64
}
