/// How a server of the requests in a source ends.
#[derive(Clone, Copy, PartialEq, Eq)]
pub enum ServeEnd {
    /// The source ended where a request is due.
    Done,
    /// The bytes from this offset on begin no request: an unknown kind, a field out of its limits, or an end
    /// inside.
    BadFrame { at: u64 },
    /// The source gave more than 2^24 bytes, and no request before that was bad.
    TooLong,
    /// The source failed, and its count of faults rose.
    SourceFault,
    /// The sink failed, and its count of faults rose.
    SinkFault,
    /// Memory ran out, before anything was read or in a write of the sink.
    Memory,
}
