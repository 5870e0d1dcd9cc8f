/// What the words may ask for today.
#[derive(Clone, Copy, PartialEq, Eq)]
pub(crate) enum Task {
    Replay,
    Check,
}
