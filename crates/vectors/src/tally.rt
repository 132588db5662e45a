// What is counted over all rows.
use crate::row::Row;
use report::{Cipher, Kind};
use std::alloc::{AllocError, Global};
use std::collections::BTreeMap;
use std::fmt;

// How many rows of one kind ran, and how many of them matched.
#[derive(Clone, Copy, Default)]
struct Tally {
    matched: u32,
    ran: u32,
}

impl Tally {
    fn note(&mut self, matches: bool) {
        self.ran = self.ran.saturating_add(1);
        if matches {
            self.matched = self.matched.saturating_add(1);
        }
    }
}

impl fmt::Display for Tally {
    fn fmt<W: fmt::Write>(&self, f: &mut fmt::Formatter<W>) -> fmt::Result {
        let Tally { matched, ran } = self;
        write!(f, "{matched} of {ran} matched")
    }
}

// The tallies of all kinds under all ciphers, the rows that could not be read, and the line of the first that differs.
#[derive(Drop)]
pub(crate) struct Report {
    tallies: BTreeMap<(Kind, Cipher), Tally>,
    unread: u32,
    differs: Option<u32>,
}

impl Report {
    pub(crate) fn new(alloc: Global) -> Result<Self, AllocError> {
        let mut tallies = BTreeMap::new(alloc);
        for kind in [Kind::Block, Kind::Pmac] {
            for cipher in [Cipher::Aes, Cipher::Xtea] {
                tallies.insert((kind, cipher), Tally::default())?;
            }
        }
        Ok(Report {
            tallies,
            unread: 0,
            differs: None,
        })
    }

    // Notes a row by its line's number.
    pub(crate) fn note(&mut self, row: &Row, line: u32, matches: bool) -> Result<(), AllocError> {
        self.tallies
            .entry((row.kind, row.cipher))?
            .or_insert(Tally::default())
            .note(matches);
        if !matches {
            self.differs = self.differs.or(Some(line));
        }
        Ok(())
    }

    // Notes a row that could not be read.
    pub(crate) fn skip(&mut self) {
        self.unread = self.unread.saturating_add(1);
    }
}

impl fmt::Display for Report {
    fn fmt<W: fmt::Write>(&self, f: &mut fmt::Formatter<W>) -> fmt::Result {
        for ((kind, cipher), tally) in &self.tallies {
            writeln!(f, "{kind} {cipher}: {tally}")?;
        }
        let unread = self.unread;
        writeln!(f, "rows that could not be read: {unread}")?;
        match self.differs {
            Some(line) => writeln!(f, "first that differs: line {line}"),
            None => writeln!(f, "first that differs: none"),
        }
    }
}
