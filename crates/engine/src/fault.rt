// Why no engine could be made of a key.
#[derive(Clone, Copy, PartialEq, Eq, Debug)]
pub enum KeyFault {
    // The key has another length than the cipher's.
    Length,
}

// Why an engine carried out nothing.
#[derive(Clone, Copy, PartialEq, Eq, Debug)]
pub enum EngineFault {
    // Fewer operations are left than are due.
    Spent { due: u32, left: u32 },
}
