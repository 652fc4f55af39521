// What `owner` and `owner_chain` tell.

// The element that holds the address by its header or by its payload: where its header is, and its depth, which is how
// many masters stand around it.
#[derive(Clone, Copy)]
pub enum Owner {
    Header { address: u64, depth: u64 },
    Payload { address: u64, depth: u64 },
}
