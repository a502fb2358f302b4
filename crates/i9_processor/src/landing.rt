//! When what is done lands.

/// When the results of a record land: the set of the resources that it writes, the turn at which it is
/// done, and whether it is a request, whose bytes wait until then.
#[derive(Clone, Copy)]
pub struct Landing {
    pub writes: u64,
    pub done: u64,
    pub request: bool,
}
