//! What a station does with another one of what they share.

/// What a station does with another one: it passes it the fork that they share, or asks it for that
/// one.
#[derive(Clone, Copy)]
pub(crate) enum Exchange {
    Pass,
    Ask,
}
