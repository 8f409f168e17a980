/// A variable of a concept, or a path: its number among the declared paths of the concept, where the paths inside of
/// it stand behind it, and the number of the concept that is its type, if it is a component.
#[derive(Clone, Copy)]
pub struct Slot {
    pub at: u32,
    pub concept: Option<u32>,
}
