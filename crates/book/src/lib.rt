// Edit books: records of edits in slots of 32 bytes, read and written.
#![tactic(auto)]

mod book;
mod edit;
mod fault;
mod fields;
mod kind;
mod links;
mod reading;
mod record;
mod records;
mod refusal;
mod slot;
mod write;
mod writer;

pub use edit::Edit;
pub use fault::BookFault;
pub use reading::read;
pub use record::Record;
pub use records::Records;
pub use slot::SLOT_BYTES;
pub use write::edits_read_back;
pub use writer::Writer;

#[cfg(test)]
mod tests {
    use super::*;

    // Slots 0, 2, 1, 3 in chain order; then the link of slot 1 is made to lead back, and to no slot.
    #[test]
    fn chain_order(rt: HostRuntime) {
        let mut book = [0u8; 128];
        (book[1], book[65], book[33]) = (2, 1, 3);
        (book[66], book[34], book[98]) = (1, 2, 3);
        let in_order = |records: Records<'_>| records.map(|record| record.slot).eq([2, 1, 3]);
        assert_eq!(rt; read(&book).is_ok_and(in_order), true);
        book[33] = 2;
        assert_eq!(rt; read(&book).err(), Some(BookFault::Ring { slot: 2 }));
        book[33] = 4;
        assert_eq!(rt; read(&book).err(), Some(BookFault::Link { slot: 1 }));
    }

    // A put of 12 bits at 300 in a book of two slots, which is then full.
    #[test]
    fn bytes_of_a_put(rt: HostRuntime) {
        let mut book = [7u8; 64];
        let edit = Edit::Put {
            position: 300,
            bits: 12,
            data: &[0xAB, 0xCD, 0xEF],
        };
        if let Ok(mut writer) = Writer::new(&mut book) {
            assert_eq!(rt; writer.put(&mut book, edit), Ok(()));
            assert_eq!(rt;
                writer.put(&mut book, Edit::Cut { bits: 1 }),
                Err(BookFault::Full)
            );
        }
        assert_eq!(rt; book[1], 1);
        assert_eq!(rt;
            book[32..48].iter().copied().eq(
                [0, 0, 3, 0, 0, 0, 1, 44, 0, 0, 0, 12, 0xAB, 0xCD, 0, 0]
                    .iter()
                    .copied(),
            ),
            true
        );
    }
}
