//! How a call ended.
ghost use Rattle.std.specs.Prelude.{◌≡◌};
ghost use Rattle.wl_c.specs.Statuses.{status_code};

/// How a call ended.
#[derive(Clone, Copy)]
pub enum Status {
    /// The output is in the buffer.
    Done,
    /// The plan is refused. What `explain` says of that is in the buffer; other commands say nothing.
    Refused,
    /// There is no such format or tick. Nothing was read or written.
    Asked,
    /// Out of memory. Nothing was written.
    Memory,
    /// The buffer is too small. Nothing was written.
    Room,
    /// A line of the output has no other format. Nothing was written.
    Shape,
}

impl Status {
    /// Returns the number of a status for C.
    pub(crate) fn code(self) -> u32
        ensures { result ≡ status_code self }
    {
        match self {
            Status::Done => 0,
            Status::Refused => 1,
            Status::Asked => 2,
            Status::Memory => 3,
            Status::Room => 4,
            Status::Shape => 6,
        }
    }
}
