// The calls of a history.

// How a history begins.
#[derive(Clone, Copy)]
pub enum Beginning {
    // With an empty overlay.
    Opening,
    // With an overlay of so many bits, received in the memory.
    Receipt { bits: u32 },
}

// One call, with its arguments; the bytes handed in are lent by the caller.
#[derive(Clone, Copy)]
pub enum Call<'a> {
    Check {
        tag: &'a [u8],
    },
    Recover {
        tag: &'a [u8],
        block: u32,
    },
    Add {
        edit: &'a [u8],
        count: u32,
    },
    Cut {
        count: u32,
    },
    Put {
        position: u32,
        edit: &'a [u8],
        count: u32,
    },
    // A tag of so many bytes.
    Tag {
        bytes: usize,
    },
    // Books a slip, by its place among those given, into an account.
    Book {
        slip: usize,
        account: u8,
    },
}
