/// What a link of a host in memory is to answer.
#[derive(Drop)]
pub enum Answer {
    /// These bytes, in as many answers as the buffers need; each but the last fills its buffer.
    Bytes(Vec<u8>),
    /// Nothing comes for now.
    Idle,
    /// The other side has ended.
    End,
    /// The call fails.
    Fail,
}
