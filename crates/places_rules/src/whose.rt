// What `whose_byte` tells.

// The row that holds the address by its header or by its payload, and how many rows there are.
#[derive(Clone, Copy)]
pub enum WhoseRow {
    Header { row: u64, rows: u64 },
    Payload { row: u64, rows: u64 },
}

// What of a row holds an address, where it does.
#[derive(Clone, Copy)]
pub enum Holder {
    Header,
    Payload,
}
