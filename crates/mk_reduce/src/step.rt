use mk_model::Entry;

/// So many times the move of a place, which are taken off. The number is negative where they are added.
#[derive(Clone, Copy, Debug, PartialEq, Eq)]
pub struct Step {
    pub times: Entry,
    pub place: u32,
}
