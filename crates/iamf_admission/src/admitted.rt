use iamf_obu::Content;

/// An OBU that was admitted.
#[derive(Drop)]
pub struct Admitted<'a> {
    /// What it says; `None` of a redundant copy, which says nothing new.
    pub content: Option<Content<'a>>,
    /// The number of its temporal unit, counted from 0, where it is a data OBU.
    pub unit: Option<u64>,
}
