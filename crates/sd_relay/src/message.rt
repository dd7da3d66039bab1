use crate::errand::Errand;

/// What goes to the writers.
#[derive(Drop)]
pub(crate) enum Message {
    Errand(Errand),
    /// Nothing more comes. Each writer takes one, as its last.
    End,
}
