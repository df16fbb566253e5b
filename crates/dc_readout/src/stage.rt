//! What a session waits for.

#[derive(Clone, Copy)]
pub(crate) enum Stage {
    // The answer to the reset.
    Resets,
    // The acknowledgement of the selection.
    Selects,
    // A telegram.
    Requests,
    // That the last telegram is settled.
    Pending { more: bool },
    // Nothing more.
    Ended,
}
