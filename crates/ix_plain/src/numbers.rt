//! The numbers of members.

/// The numbers of the next class, of its first instance field and its first method, and of the next constructor of a class that has none written.
#[derive(Clone, Copy)]
pub struct Next {
    pub class: u32,
    pub field: u32,
    pub method: u32,
    pub default: u32,
}
