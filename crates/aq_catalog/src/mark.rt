/// How many of each a catalog has.
#[derive(Drop)]
pub struct Mark {
    pub(crate) tables: usize,
    pub(crate) keys: usize,
    pub(crate) primaries: usize,
    pub(crate) fks: usize,
    pub(crate) constraints: usize,
    pub(crate) functions: usize,
    pub(crate) triggers: usize,
}
