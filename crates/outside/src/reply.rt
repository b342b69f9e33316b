/// What a link of a host in memory has answered.
#[derive(Drop)]
pub enum Reply {
    /// These bytes.
    Got(Vec<u8>),
    /// Nothing came for now.
    Idle,
    /// The other side has ended.
    Ended,
}
