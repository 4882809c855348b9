//! The parameters with which a counter is allocated.

/// The parameters with which a counter is allocated. The key and the label keep their limits.
#[derive(Clone, Copy)]
pub(crate) struct Wanted<'a> {
    pub(crate) type_id: i32,
    pub(crate) key: &'a [u8],
    pub(crate) label: &'a [u8],
    pub(crate) registration: u64,
    pub(crate) owner: u64,
}
