/// What stands before the areas and runs of a space: its number, and how many they are.
#[derive(Clone, Copy)]
pub(crate) struct SpaceHead {
    pub(crate) space: u32,
    pub(crate) areas: u32,
    pub(crate) runs: u64,
}
