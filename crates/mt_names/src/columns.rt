//! A name, and columns of names.

/// The name of what has this number where the column stands.
#[derive(Clone, Copy, Debug)]
pub struct Named {
    pub number: u32,
    pub name: &'static str,
}
